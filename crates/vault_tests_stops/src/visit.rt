//! What is asked of a vault that was opened, whatever keeps it.
use crate::day::Day;
use crate::expected::{Expected, Progress, play};
use crate::seen::{is_conserved, stated};
use std::alloc::Global;
use std::test::Fail;
use vault_core_model::keeper::Keeper;

/// A day that is begun, or gone on with after a stop.
#[derive(Clone, Copy)]
pub struct Visit<'a> {
    pub day: Day,
    /// Where the day was stopped; none where it begins.
    pub stop: Option<Resumed<'a>>,
}

/// Where a day was stopped, and what is to be found then.
#[derive(Clone, Copy)]
pub struct Resumed<'a> {
    pub expected: &'a Expected,
    pub progress: Progress,
}

/// Carries out the lines of a day, or those that its stop left.
pub fn work<K: Keeper>(alloc: Global, keeper: &mut K, visit: &Visit<'_>) -> Result<Progress, Fail> {
    match &visit.stop {
        None => play(alloc, keeper, visit.day.lines, 0),
        Some(resumed) => go_on(alloc, keeper, visit.day.lines, resumed),
    }
}

/// Fails unless the vault is one that may be found, and the lines that are left lead to the day's end.
fn go_on<K: Keeper>(
    alloc: Global,
    keeper: &mut K,
    lines: &str,
    resumed: &Resumed<'_>,
) -> Result<Progress, Fail> {
    let text = stated(alloc, keeper)?;
    let has_more = resumed
        .expected
        .finds_one_more(&resumed.progress, text.as_str())?;
    is_conserved(alloc, keeper)?;
    let from = next_line(lines, resumed.progress.lines, has_more);
    let mut progress = play(alloc, keeper, lines, from)?;
    if !resumed.expected.is_end(stated(alloc, keeper)?.as_str()) {
        return Err(Fail::new("the rest of the day leads elsewhere"));
    }
    progress.has_more = has_more;
    Ok(progress)
}

/// How many lines come before the one that the day goes on with. A run and an intake are given again,
/// any other line only where its change isn't found.
fn next_line(lines: &str, line: usize, has_more: bool) -> usize {
    match lines.lines().nth(line) {
        Some(text) if has_more && !may_be_repeated(text) => line.saturating_add(1),
        _ => line,
    }
}

fn may_be_repeated(line: &str) -> bool {
    line.contains("\"do\":\"run\"") || line.contains("\"do\":\"intake\"")
}
