//! Lines without a reading of their own: the clock's is put to them.
ghost use Rattle.std.specs.Prelude.{◌≡◌, ◌≢◌, ◌↔◌, ℕ, List, [], IfOk, Option};
ghost use Rattle.serde_json.specs.View.{view};
ghost use Rattle.vault_core_model.specs.declared.command.Timed.{Timed as KnownTimed};
ghost use Rattle.vault_values.specs.Fault.{Gives};
ghost use Rattle.vault_lines_read.specs.ReadLine.{without_cr};
ghost use Rattle.vault_lines_read.specs.Stamped as spec;

use crate::read_line::{Line, trimmed, values};
use crate::verb::Verb;
use serde_json::Value;
use std::alloc::{AllocError, Global};
use vault_base::limits::LONGEST_LINE;
use vault_base::moment::Moment;
use vault_base::name::CallerName;
use vault_base::refusal::Refusal;
use vault_core_model::command::Timed;
use vault_lines_json::document::document;
use vault_lines_json::members::text_of;
use vault_lines_json::shape::{Kind, has_members};
use vault_lines_json::values::asker;
use vault_values::fault::LineFault;

fn has_timeless(verb: Verb, value: &Value) -> bool
    ensures { result ≡ spec.has_timeless verb (view value.now) }
{
    match verb.members() {
        [_, others @ ..] => has_members(value, others),
        [] => has_members(value, &[]),
    }
}

/// The value is an object of just the members of this verb's line but for its reading, each of its kind.
fn is_timeless(verb: Verb, value: &Value) -> bool
    ensures { result ≡ spec.is_timeless verb (view value.now) }
{
    has_timeless(verb, value) && verb.has_single_content(value)
}

/// The verb of a line, where the value has the shape of its line.
#[tactic(auto, unfolding(crate::specs::Stamped::timeless_verb_of))]
fn timeless_verb(value: &Value) -> Result<Verb, LineFault>
    ensures { Gives (λ x. x) result (spec.timeless_verb_of (view value.now)) }
{
    let name = text_of("do", value)?;
    let Some(verb) = Verb::read(name) else {
        return Err(LineFault::Refused(Refusal::MalformedBody));
    };
    if is_timeless(verb, value) {
        Ok(verb)
    } else {
        Err(LineFault::Refused(Refusal::MalformedBody))
    }
}

/// The moment that the clock shows.
fn shown(moment: Option<Moment>) -> Result<Moment, LineFault>
    ensures { Gives (λ x. x) result (spec.clock_of moment) }
{
    match moment {
        Some(at) => Ok(at),
        None => Err(LineFault::Refused(Refusal::ClockOutOfRange)),
    }
}

#[tactic(auto, unfolding(crate::specs::Stamped::stamped_of))]
fn stamped(alloc: Global, value: &Value, moment: Option<Moment>) -> Result<Timed, LineFault>
    ensures { Gives (λ x. x) result (spec.stamped_of moment (view value.now)) }
{
    let verb = timeless_verb(value)?;
    let at = shown(moment)?;
    let who = asker(alloc, value)?;
    let command = values(alloc, verb, value)?;
    Ok(Timed { at, who, command })
}

#[tactic(auto, unfolding(crate::specs::Stamped::stamped_command_of))]
fn stamped_command(alloc: Global, bytes: &[u8], moment: Option<Moment>) -> Result<Timed, LineFault>
    ensures { Gives (λ x. x) result (spec.stamped_command_of moment bytes.now) }
{
    let value = document(alloc, bytes)?;
    stamped(alloc, &value, moment)
}

/// What a line without a reading asks for, at the moment that the clock shows: the line as it stands before its LF,
/// with a CR in front of it or without.
///
/// It has the members of the lines that `read_line` reads but for `at`; with one it has another shape, and is refused
/// with `MalformedBody`. Then the first fault is the refusal: a clock that shows no moment, `as`, and then the other
/// values. The error is out of memory.
#[tactic(auto, unfolding(crate::specs::Stamped::stamped_line_of))]
pub fn stamp_line(alloc: Global, line: &[u8], moment: Option<Moment>) -> Result<Line, AllocError>
    ensures { IfOk result (λ read. read ≡ spec.stamped_line_of moment line.now) }
{
    if line.len() > LONGEST_LINE {
        return Ok(Line::Refused(Refusal::MalformedBody));
    }
    let bytes = trimmed(line);
    if bytes.is_empty() {
        return Ok(Line::Skip);
    }
    match stamped_command(alloc, bytes, moment) {
        Ok(timed) => Ok(Line::Command(timed)),
        Err(LineFault::Refused(refusal)) => Ok(Line::Refused(refusal)),
        Err(LineFault::Memory) => Err(AllocError),
    }
}

/// The members of the line that asks for the end: the caller who asks, and `do`.
const CLOSING: [(&str, Kind); 2] = [("as", Kind::Text), ("do", Kind::Text)];

/// The value is an object of just these members, whose `do` is `close`.
fn check_closing(name: &str, value: &Value) -> Result<(), LineFault>
    ensures { Gives (λ x. x) result (spec.if_closing name.now (view value.now)) }
{
    if has_members(value, &CLOSING) && name == "close" {
        Ok(())
    } else {
        Err(LineFault::Refused(Refusal::MalformedBody))
    }
}

#[tactic(auto, unfolding(crate::specs::Stamped::closing_asker_of))]
fn closing_asker(alloc: Global, bytes: &[u8]) -> Result<CallerName, LineFault>
    ensures { Gives (λ x. x) result (spec.closing_asker_of bytes.now) }
{
    let value = document(alloc, bytes)?;
    check_closing(text_of("do", &value)?, &value)?;
    asker(alloc, &value)
}

/// The caller who asks by a line for the end of what answers it, where it is that line: `as`, and `do` with `close`. The
/// error is out of memory.
#[tactic(auto, unfolding(crate::specs::Stamped::closer_of))]
pub fn closer(alloc: Global, line: &[u8]) -> Result<Option<CallerName>, AllocError>
    ensures { IfOk result (λ found. found ≡ spec.closer_of line.now) }
{
    if line.len() > LONGEST_LINE {
        return Ok(None);
    }
    match closing_asker(alloc, trimmed(line)) {
        Ok(who) => Ok(Some(who)),
        Err(LineFault::Refused(_)) => Ok(None),
        Err(LineFault::Memory) => Err(AllocError),
    }
}

/// A line without a reading asks for a command exactly where it is the JSON of an object of just the members of its
/// `do` but for the reading, the values of these members spell that command, and the clock shows its moment.
pub fn stamped_commands_are_spelled()
    ensures { (moment : Option ℕ) (line : List ℕ) (t : KnownTimed) → (spec.stamped_line_of moment line ≡ Line.Command t) ↔ spec.IsStampedLineOf moment line t }
{}

/// Such a line is malformed exactly where it isn't empty and has another shape: one with a reading of its own is.
pub fn other_timeless_shapes_are_malformed()
    ensures { (moment : Option ℕ) (line : List ℕ) → (spec.stamped_line_of moment line ≡ Line.Refused Refusal.MalformedBody) ↔ ((without_cr line ≢ []) × (¬ spec.HasTimelessShape line)) }
{}

/// Such a line is skipped exactly where nothing is in it, or a CR alone.
pub fn empty_timeless_lines_are_skipped()
    ensures { (moment : Option ℕ) (line : List ℕ) → (spec.stamped_line_of moment line ≡ Line.Skip) ↔ (without_cr line ≡ []) }
{}
