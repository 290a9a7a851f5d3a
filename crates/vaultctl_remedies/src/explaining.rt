//! What standard error says of the lines of a script.
ghost use Rattle.std.specs.Prelude.{◌≡◌, ◌+◌, ◌-◌, ◌^◌, min, true};

use crate::line_remedies::say_line;
use std::alloc::Global;
use std::io::Write;
use vault_base::moment::Moment;
use vault_base::name::CallerName;
use vault_core::hearing::Hears;
use vault_core_model::command::Command;
use vault_core_model::reply::Reply;
use vault_lines_read::read_line::Line;
use vault_lines_why::explain_line;
use vaultctl_replay::observer::Observer;

/// Writes one line of words for each line that is refused, as it is read or by the vault, and for each run that stops, as
/// `line 12: ..`. That it can't be written, or that memory is wanting for it, ends nothing.
#[derive(Drop)]
pub struct Explainer<'a, E: Write> {
    err: &'a mut E,
    /// How many lines it has heard of.
    lines: u64,
}

impl<'a, E: Write> Explainer<'a, E> {
    /// It has heard of no line, and writes to this writer.
    pub fn new(err: &'a mut E) -> Explainer<'a, E>
        ensures { result.lines ≡ 0 }
    {
        Explainer { err, lines: 0 }
    }
}

/// Writes the line of words for a line that is refused as it is read. A last line that is a CR alone is the one that
/// `explain_line` has no words for.
fn explain<E: Write>(alloc: Global, err: &mut E, number: u64, line: &[u8]) {
    let _ = match explain_line(alloc, line) {
        Ok(Some(words)) => {
            let words = words.as_str();
            writeln!(err, "line {number}: {words}")
        }
        Ok(None) => writeln!(
            err,
            "line {number}: a carriage return alone, with no line feed"
        ),
        Err(_) => writeln!(
            err,
            "line {number}: no memory for the words on what is wrong"
        ),
    };
}

impl<E: Write> Hears for Explainer<'_, E> {
    ghost hears = { λ before _ _ after. after.lines ≡ before.lines };

    ghost going = { λ _. true };

    fn hear(
        &mut self,
        _alloc: Global,
        _at: Moment,
        _who: &CallerName,
        command: &Command,
        reply: &Reply,
    ) {
        say_line(self.lines, command, reply, self.err);
    }

    fn goes_on(&self) -> bool {
        true
    }
}

impl<E: Write> Observer for Explainer<'_, E> {
    fn line(&mut self, alloc: Global, line: &[u8], asked: &Line)
        ensures counted { self.new.lines ≡ min (self.old.lines + 1) (2 ^ 64 - 1) }
    {
        self.lines = self.lines.saturating_add(1);
        if matches!(asked, Line::Refused(_)) {
            explain(alloc, self.err, self.lines, line);
        }
    }
}
