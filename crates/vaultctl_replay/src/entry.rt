//! What is written to a journal of one change.
ghost use Rattle.std.specs.Prelude.{◌≡◌, IfOk, false, true, string_bytes};
ghost use Rattle.vault_lines_print.specs.Members.{timed};
ghost use Rattle.vaultctl_replay.specs.Changes as changes;
ghost use Rattle.vaultctl_replay.specs.Entries.{IsEntry, IsTooLong, Noted, Wrote, end_line};
ghost use Rattle.vaultctl_replay.specs.Lines.{ended};

use crate::changes::is_cut;
use crate::state::JournalState;
use std::alloc::{AllocError, Global};
use std::io::Write;
use vault_base::limits::LONGEST_LINE;
use vault_base::moment::Moment;
use vault_base::name::CallerName;
use vault_core_model::command::Command;
use vault_core_model::reply::Reply;
use vault_io::writing::write_bytes;
use vault_lines_print::command_line::command_line;

/// The last line of a journal whose next change no line makes again. `replay` refuses it.
const END: &str = "# The journal ends here: no line makes the next change again.\n";

/// A line of a journal with its LF, and whether it is the last.
#[derive(Drop)]
struct Entry {
    text: String,
    is_last: bool,
}

/// The last line.
fn last_entry(alloc: Global) -> Result<Entry, AllocError>
    ensures last { IfOk result (λ made. made.is_last ≡ true) }
    ensures text { IfOk result (λ made. string_bytes made.text ≡ ended end_line) }
{
    Ok(Entry {
        text: String::from_str(alloc, END)?,
        is_last: true,
    })
}

/// The line that makes a change again. Where it is longer than a script's line may be, it is the last line; no change
/// has such a line, as 1,000 rules with the longest ids and prefixes come to 3.3 million bytes, but that isn't proved.
fn record_of(
    alloc: Global,
    at: Moment,
    who: &CallerName,
    command: &Command,
) -> Result<Entry, AllocError>
    ensures { IfOk result (λ made. IsEntry made.is_last false (timed at who.now command.now) (string_bytes made.text)) }
{
    let mut text = command_line(alloc, at, who, command)?;
    if text.len() > LONGEST_LINE {
        return last_entry(alloc);
    }
    text.push_str("\n")?;
    Ok(Entry {
        text,
        is_last: false,
    })
}

/// What a change becomes in a journal: its line, or the last line where a fault cut it.
fn entry_of(
    alloc: Global,
    at: Moment,
    who: &CallerName,
    command: &Command,
    reply: &Reply,
) -> Result<Entry, AllocError>
    ensures { IfOk result (λ made. IsEntry made.is_last (changes.is_cut reply.now) (timed at who.now command.now) (string_bytes made.text)) }
{
    if is_cut(reply) {
        last_entry(alloc)
    } else {
        record_of(alloc, at, who, command)
    }
}

/// Writes an entry, and hands on what the writer holds back. How the journal is then.
fn write_entry<W: Write>(writer: &mut W, entry: &Entry) -> JournalState
    ensures { Wrote result entry.now.is_last (string_bytes entry.now.text) (W.contents writer.old) (W.contents writer.new) }
{
    if write_bytes(writer, entry.text.as_bytes()).is_err() {
        return JournalState::Lost;
    }
    if writer.flush().is_err() {
        return JournalState::Lost;
    }
    if entry.is_last {
        JournalState::Ended
    } else {
        JournalState::Open
    }
}

/// Writes the entry of a change. How the journal is then.
pub fn note<W: Write>(
    alloc: Global,
    writer: &mut W,
    at: Moment,
    who: &CallerName,
    command: &Command,
    reply: &Reply,
) -> JournalState
    ensures { Noted result (changes.is_cut reply.now) (timed at who.now command.now) (W.contents writer.old) (W.contents writer.new) }
{
    let Ok(entry) = entry_of(alloc, at, who, command, reply) else {
        return JournalState::Lost;
    };
    write_entry(writer, &entry)
}
