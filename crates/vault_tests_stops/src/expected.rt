//! What is to be found, from the list: the vault after each change of a day.
use crate::day::Day;
use crate::seen::stated;
use std::alloc::Global;
use std::test::Fail;
use vault_core::fuse_keeper::FuseKeeper;
use vault_core_list::list_keeper::ListKeeper;
use vault_core_model::keeper::Keeper;
use vault_transcript::transcript::replies;

/// How far a day went.
#[derive(Clone, Copy)]
pub struct Progress {
    /// How many lines were answered before the device failed.
    pub lines: usize,
    /// How many changes the next one had made by then, as its reply says.
    pub changes: usize,
    /// Whether the device failed at that line.
    pub has_failed: bool,
    /// Whether the change that was being made at an earlier stop was found as it began.
    pub has_more: bool,
}

/// Carries out the lines after the first n, until the device fails.
pub fn play<K: Keeper>(
    alloc: Global,
    keeper: &mut K,
    lines: &str,
    from: usize,
) -> Result<Progress, Fail> {
    let mut done = from;
    for line in lines.lines().skip(from) {
        let reply = replies(alloc, keeper, line.as_bytes())?;
        if keeper.faults() != 0 {
            return failed_at(done, reply.as_str());
        }
        done = done.saturating_add(1);
    }
    Ok(Progress {
        lines: done,
        changes: 0,
        has_failed: false,
        has_more: false,
    })
}

/// The progress where the line after n got that reply. Fails where it says of no failure.
fn failed_at(lines: usize, reply: &str) -> Result<Progress, Fail> {
    if !reply.contains("\"Device\"") {
        return Err(Fail::new("a failure isn't reported"));
    }
    Ok(Progress {
        lines,
        changes: changes_reported(reply),
        has_failed: true,
        has_more: false,
    })
}

/// The changes of a stopped run; of any other reply none.
fn changes_reported(reply: &str) -> usize {
    let Some(rest) = reply.strip_prefix("{\"stopped\":{\"changes\":") else {
        return 0;
    };
    let Some((number, _)) = rest.split_once(",") else {
        return 0;
    };
    number.parse().unwrap_or(0)
}

/// The vault after each change of a day.
pub struct Expected {
    /// What is said of it after none, one, two changes and so on.
    states: Vec<String>,
    /// How many lines come before the one that makes the next change.
    lines: Vec<usize>,
}

// It is written out, so that what has one does not prove again how each part is let go of.
impl Drop for Expected {
    fn drop(self) {
        let Expected {
            states: _,
            lines: _,
        } = self;
    }
}

/// How many changes a day may have.
const MOST: u64 = 64;

/// Adds what is said of a vault over which the lines are carried out. Says whether the device failed at one.
fn add_played<K: Keeper>(
    alloc: Global,
    keeper: &mut K,
    lines: &str,
    all: &mut Expected,
) -> Result<bool, Fail> {
    let progress = play(alloc, keeper, lines, 0)?;
    all.states.push(stated(alloc, keeper)?)?;
    all.lines.push(progress.lines)?;
    Ok(progress.has_failed)
}

/// A vault over which lines were carried out.
fn later<K: Keeper + Drop>(alloc: Global, keeper: K, lines: &str) -> Result<K, Fail> {
    let mut keeper = keeper;
    play(alloc, &mut keeper, lines, 0)?;
    Ok(keeper)
}

/// Adds what is said of the vault of earlier days, whose device fails after n changes of this one. Says
/// whether it failed.
fn add_after<K: Keeper + Drop>(
    alloc: Global,
    keeper: K,
    day: &Day,
    changes: u64,
    all: &mut Expected,
) -> Result<bool, Fail> {
    let mut keeper = FuseKeeper::new(later(alloc, keeper, day.before)?, changes);
    let added = add_played(alloc, &mut keeper, day.lines, all);
    drop(keeper);
    added
}

/// The vault after each change of a day, kept as a list whose device fails after that change. Fails where a change
/// isn't reported.
pub fn expect(alloc: Global, day: &Day) -> Result<Expected, Fail> {
    let mut all = Expected {
        states: Vec::new(alloc),
        lines: Vec::new(alloc),
    };
    add_each(alloc, day, &mut all)?;
    Ok(all)
}

fn add_each(alloc: Global, day: &Day, all: &mut Expected) -> Result<(), Fail> {
    for changes in 0..MOST {
        if !add_after(alloc, ListKeeper::new(alloc)?, day, changes, all)? {
            return all.lists_each_change();
        }
    }
    Err(Fail::new("the day has too many changes"))
}

impl Expected {
    /// How many changes were acknowledged.
    fn acknowledged(&self, progress: &Progress) -> usize {
        let before = self
            .lines
            .iter()
            .filter(|lines| **lines < progress.lines)
            .count();
        before.saturating_add(progress.changes)
    }

    /// Whether the text is what is said of the vault after n changes.
    fn is_after(&self, changes: usize, text: &str) -> bool {
        match self.states.get(changes) {
            Some(state) => state.as_str() == text,
            None => false,
        }
    }

    /// Whether the change that was being made is found, after all that were acknowledged. Fails where
    /// another vault is found than that with it or without it.
    pub fn finds_one_more(&self, progress: &Progress, text: &str) -> Result<bool, Fail> {
        let acknowledged = self.acknowledged(progress);
        if self.is_after(acknowledged, text) {
            return Ok(false);
        }
        if progress.has_failed && self.is_after(acknowledged.saturating_add(1), text) {
            return Ok(true);
        }
        Err(Fail::new(format_args!("after {acknowledged} changes: {text}")))
    }

    /// Whether the text is what is reported at the end of the day.
    pub fn is_end(&self, text: &str) -> bool {
        self.is_after(self.states.len().saturating_sub(1), text)
    }

    /// Fails unless something else is reported after each change.
    fn lists_each_change(&self) -> Result<(), Fail> {
        let reads_so = self
            .states
            .iter()
            .zip(self.states.iter().skip(1))
            .all(|(before, after)| before.as_str() != after.as_str());
        if reads_so {
            return Ok(());
        }
        Err(Fail::new("a change is not reported"))
    }
}
