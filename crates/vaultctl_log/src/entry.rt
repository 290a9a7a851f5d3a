//! Entries of the log.
ghost use Rattle.std.specs.Prelude.{◌≡◌, ◌++◌, ◌⊎◌, IfOk, List, OnErr, OnOk, ℕ, is_ok, string_bytes};
ghost use Rattle.std.specs.Io.KnownBytes.{Appends};
ghost use Rattle.std.specs.Option.{option_copied};
ghost use Rattle.vault_io.specs.Begins.{Begins};
ghost use Rattle.vaultctl_log.specs.Line as spec;
ghost use Rattle.vaultctl_log.specs.Logging.{IsLogged};

use crate::answered::{push_answer, push_reply, status_of};
use crate::asked::{push_line, push_request};
use crate::members::{push_number, push_text, quoted};
use std::alloc::{AllocError, Global};
use std::io::{self, Write};
use vault_base::moment::Moment;
use vault_io::writing::write_bytes;

/// By which door something came.
#[derive(Clone, Copy, Debug, PartialEq, Eq)]
pub enum Door {
    /// That of requests.
    Requests,
    /// That of lines.
    Lines,
}

/// Why nothing was answered, or not to the end.
#[derive(Clone, Copy, Debug, PartialEq, Eq)]
pub enum Trouble {
    /// The connection couldn't be taken.
    Connection,
    /// What was to come was late, or the connection ended before it.
    Late,
    /// The answer wasn't taken in time.
    Untaken,
    /// Memory was refused, for what was asked or for a note of it.
    Memory,
}

/// What became of a connection, a request or a line, without its bytes.
#[derive(Clone, Copy)]
pub struct Facts {
    /// The clock's reading as it was taken, where it is a moment.
    pub moment: Option<Moment>,
    pub door: Door,
    /// How many bytes came.
    pub came: u64,
    /// How many bytes were written.
    pub went: u64,
    /// How many milliseconds passed from when it was taken until all was written.
    pub millis: u64,
    pub trouble: Option<Trouble>,
}

/// What became of a connection, a request or a line.
#[derive(Clone, Copy)]
pub struct Entry<'a> {
    pub facts: Facts,
    /// What came: the front of a request, or a line.
    pub asked: &'a [u8],
    /// The front of what was written.
    pub answered: &'a [u8],
}

/// How many bytes of a request are noted: as many as a head may have.
pub const ASKED: usize = 16_384;

/// How many bytes of an answer are noted: more than a refusal has.
pub const ANSWERED: usize = 1_024;

/// What is written where there is no room for an entry.
pub const NO_ROOM: &[u8] = b"{\"result\":\"memory\"}\n";

fn door_name(door: Door) -> &'static str
    ensures { result.now ≡ spec.door_name door }
{
    match door {
        Door::Requests => "http",
        Door::Lines => "lines",
    }
}

fn trouble_name(trouble: Trouble) -> &'static str
    ensures { result.now ≡ spec.trouble_name trouble }
{
    match trouble {
        Trouble::Connection => "connection",
        Trouble::Late => "late",
        Trouble::Untaken => "untaken",
        Trouble::Memory => "memory",
    }
}

/// Appends when it was taken, where the clock showed a moment. The error is out of memory.
fn push_moment(alloc: Global, out: &mut String, moment: Option<Moment>) -> Result<(), AllocError>
    ensures { OnOk result (string_bytes out.new ≡ string_bytes out.old ++ spec.moment_member moment) }
{
    let Some(moment) = moment else {
        return Ok(());
    };
    let text = moment.text(alloc)?;
    push_text(alloc, out, "at", text.as_str())
}

/// The beginning of a line: by which door it came, and when. The error is out of memory.
#[tactic(auto, unfolding(crate::specs::Line::begun))]
fn begun(alloc: Global, facts: &Facts) -> Result<String, AllocError>
    ensures { IfOk result (λ text. string_bytes text ≡ spec.begun facts.now) }
{
    let name = quoted(alloc, door_name(facts.door))?;
    let mut line = String::from_str(alloc, "{\"door\":")?;
    line.push_str(name.as_str())?;
    push_moment(alloc, &mut line, facts.moment)?;
    Ok(line)
}

/// Whether an answer of that status shows that the request was understood.
fn is_understood(digits: Option<&[u8]>) -> bool
    ensures { result ≡ spec.is_understood (option_copied digits.entry) }
{
    match digits {
        Some(digits) => digits != b"400".as_slice() && digits != b"501".as_slice(),
        None => false,
    }
}

/// Appends what is shown of what was asked. The error is out of memory.
fn push_asked(
    alloc: Global,
    out: &mut String,
    door: Door,
    asked: &[u8],
    answered: &[u8],
) -> Result<(), AllocError>
    ensures { OnOk result ((shown : List ℕ) × spec.ShowsAsked door asked.now answered.now shown × (string_bytes out.new ≡ string_bytes out.old ++ shown)) }
{
    match door {
        Door::Requests => push_request(alloc, out, asked, is_understood(status_of(answered))),
        Door::Lines => push_line(alloc, out, asked),
    }
}

/// Appends what was answered. The error is out of memory.
fn push_answered(
    alloc: Global,
    out: &mut String,
    door: Door,
    answered: &[u8],
) -> Result<(), AllocError>
    ensures { OnOk result (string_bytes out.new ≡ string_bytes out.old ++ spec.answered_members door answered.now) }
{
    match door {
        Door::Requests => push_answer(alloc, out, answered),
        Door::Lines => push_reply(alloc, out, answered),
    }
}

/// Whether these are all of `count` bytes, or the first `most` of them.
fn is_front(most: usize, count: u64, front: &[u8]) -> bool
    ensures { result ≡ spec.is_front most count front.now }
{
    let noted = usize::try_from(count).unwrap_or(usize::MAX).min(most);
    front.len() == noted
}

/// Whether all is noted of what came and of what was written. A line was there whole before it was answered.
fn is_noted(entry: &Entry<'_>) -> bool
    ensures { result ≡ spec.is_noted entry.now.facts.door entry.now.facts entry.now.asked.now entry.now.answered.now }
{
    let is_answer_noted = is_front(ANSWERED, entry.facts.went, entry.answered);
    match entry.facts.door {
        Door::Requests => is_front(ASKED, entry.facts.came, entry.asked) && is_answer_noted,
        Door::Lines => is_answer_noted,
    }
}

/// What kept it from its end, or, where it isn't all noted, that memory was refused.
fn trouble_of(entry: &Entry<'_>) -> Option<Trouble>
    ensures { result ≡ spec.trouble_of entry.now.facts.trouble (spec.is_noted entry.now.facts.door entry.now.facts entry.now.asked.now entry.now.answered.now) }
{
    match entry.facts.trouble {
        Some(trouble) => Some(trouble),
        None if is_noted(entry) => None,
        None => Some(Trouble::Memory),
    }
}

/// Appends what kept it from its end, or else what was answered. The error is out of memory.
fn push_result(
    alloc: Global,
    out: &mut String,
    trouble: Option<Trouble>,
    door: Door,
    answered: &[u8],
) -> Result<(), AllocError>
    ensures { OnOk result (string_bytes out.new ≡ string_bytes out.old ++ spec.result_members trouble door answered.now) }
{
    match trouble {
        Some(trouble) => push_text(alloc, out, "result", trouble_name(trouble)),
        None => push_answered(alloc, out, door, answered),
    }
}

/// Appends how many bytes came and went and how long it took, and ends the line. The error is out of memory.
#[tactic(auto, unfolding(crate::specs::Line::counted))]
fn push_counted(alloc: Global, out: &mut String, facts: &Facts) -> Result<(), AllocError>
    ensures { OnOk result (string_bytes out.new ≡ string_bytes out.old ++ spec.counted facts.now) }
{
    push_number(alloc, out, "in", facts.came)?;
    push_number(alloc, out, "out", facts.went)?;
    push_number(alloc, out, "ms", facts.millis)?;
    out.push_str("}\n")
}

/// The line of an entry: an object of JSON, in whose texts no byte ends a line. The error is out of memory.
pub fn line_of(alloc: Global, entry: &Entry<'_>) -> Result<String, AllocError>
    ensures { IfOk result (λ text. spec.IsLine entry.now.facts entry.now.asked.now entry.now.answered.now (string_bytes text)) }
{
    let facts = &entry.facts;
    let mut line = begun(alloc, facts)?;
    push_asked(alloc, &mut line, facts.door, entry.asked, entry.answered)?;
    let trouble = trouble_of(entry);
    push_result(alloc, &mut line, trouble, facts.door, entry.answered)?;
    push_counted(alloc, &mut line, facts)?;
    Ok(line)
}

/// Writes the line of an entry; where there is no room for it, it says only that. The faults are those of `write_bytes`.
pub fn write_entry<W: Write>(alloc: Global, writer: &mut W, entry: &Entry<'_>) -> io::Result<()>
    ensures ok { OnOk result ((text : List ℕ) × spec.IsWritten entry.now.facts entry.now.asked.now entry.now.answered.now text
        × Appends (W.contents writer.old) (W.contents writer.new) text) }
    ensures err { OnErr result ((text : List ℕ) × spec.IsWritten entry.now.facts entry.now.asked.now entry.now.answered.now text
        × Begins (W.contents writer.old) (W.contents writer.new) text) }
{
    match line_of(alloc, entry) {
        Ok(line) => write_bytes(writer, line.as_bytes()),
        Err(_) => write_bytes(writer, NO_ROOM),
    }
}

/// Writes the line of an entry to whoever gets it, if there is somebody. The faults are those of `write_bytes`.
pub fn log_entry<W: Write>(alloc: Global, log: &mut Option<W>, entry: &Entry<'_>) -> io::Result<()>
    ensures { IsLogged W.contents log.old entry.now.facts entry.now.asked.now entry.now.answered.now (is_ok result) log.new }
{
    match log {
        Some(writer) => write_entry(alloc, writer, entry),
        None => Ok(()),
    }
}
