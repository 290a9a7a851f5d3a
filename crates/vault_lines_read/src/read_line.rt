//! Lines to commands.
ghost use Rattle.std.specs.Prelude.{◌≡◌, IfOk};
ghost use Rattle.serde_json.specs.View.{view};
ghost use Rattle.vault_values.specs.Fault.{Gives};
ghost use Rattle.vault_lines_read.specs.ReadLine.{verb_of, timed_of, command_of, without_cr, line_of};
ghost use Rattle.vault_lines_read.specs.Verb.{values_of};

use crate::verb::Verb;
use crate::{config_lines, entry_lines, list_line, lock_lines, record_lines};
use serde_json::Value;
use std::alloc::{AllocError, Global};
use vault_base::limits::LONGEST_LINE;
use vault_base::refusal::Refusal;
use vault_core_model::command::{Command, Timed};
use vault_lines_json::document::document;
use vault_lines_json::members::text_of;
use vault_lines_json::values::{asker, reading};
use vault_values::fault::LineFault;

/// What a line asks for.
#[derive(Drop)]
pub enum Line {
    /// An empty line, which gets no reply.
    Skip,
    Command(Timed),
    Refused(Refusal),
}

/// The verb of a line, where the value has the shape of its line.
#[tactic(auto, unfolding(crate::specs::ReadLine::verb_of))]
fn verb(value: &Value) -> Result<Verb, LineFault>
    ensures { Gives (λ x. x) result (verb_of (view value.now)) }
{
    let name = text_of("do", value)?;
    let Some(verb) = Verb::read(name) else {
        return Err(LineFault::Refused(Refusal::MalformedBody));
    };
    if verb.is_shaped(value) {
        Ok(verb)
    } else {
        Err(LineFault::Refused(Refusal::MalformedBody))
    }
}

/// What a line of that verb asks for.
pub(crate) fn values(alloc: Global, verb: Verb, value: &Value) -> Result<Command, LineFault>
    ensures { Gives (λ x. x) result (values_of verb (view value.now)) }
{
    match verb {
        Verb::AddDept => record_lines::add_dept(alloc, value),
        Verb::AddCaller => record_lines::add_caller(alloc, value),
        Verb::CloseCaller => record_lines::close_caller(alloc, value),
        Verb::AddBucket => record_lines::add_bucket(alloc, value),
        Verb::MoveBucket => record_lines::move_bucket(alloc, value),
        Verb::SetDefault => config_lines::set_default(alloc, value),
        Verb::GetDefault => config_lines::get_default(alloc, value),
        Verb::SetRules => config_lines::set_rules(alloc, value),
        Verb::GetRules => config_lines::get_rules(alloc, value),
        Verb::DropRules => config_lines::drop_rules(alloc, value),
        Verb::Put => entry_lines::put(alloc, value),
        Verb::Get => entry_lines::get(alloc, value),
        Verb::Head => entry_lines::head(alloc, value),
        Verb::ListVersions => list_line::list_versions(alloc, value),
        Verb::Delete => entry_lines::delete(alloc, value),
        Verb::DeleteVersion => entry_lines::delete_version(alloc, value),
        Verb::SetRetention => lock_lines::set_retention(alloc, value),
        Verb::GetRetention => lock_lines::get_retention(alloc, value),
        Verb::SetHold => lock_lines::set_hold(alloc, value),
        Verb::GetHold => lock_lines::get_hold(alloc, value),
        Verb::Run => config_lines::run(alloc, value),
        Verb::Report => record_lines::report(alloc, value),
        Verb::Certificate => record_lines::certificate(alloc, value),
        Verb::Intake => entry_lines::intake(alloc, value),
    }
}

#[tactic(auto, unfolding(crate::specs::ReadLine::timed_of))]
fn timed(alloc: Global, value: &Value) -> Result<Timed, LineFault>
    ensures { Gives (λ x. x) result (timed_of (view value.now)) }
{
    let verb = verb(value)?;
    let at = reading(value)?;
    let who = asker(alloc, value)?;
    let command = values(alloc, verb, value)?;
    Ok(Timed { at, who, command })
}

#[tactic(auto, unfolding(crate::specs::ReadLine::command_of))]
fn command(alloc: Global, bytes: &[u8]) -> Result<Timed, LineFault>
    ensures { Gives (λ x. x) result (command_of bytes.now) }
{
    let value = document(alloc, bytes)?;
    timed(alloc, &value)
}

/// The line without a CR at its end.
pub(crate) fn trimmed(line: &[u8]) -> &[u8]
    ensures { result.now ≡ without_cr line.now }
{
    match line {
        [front @ .., b'\r'] => front,
        _ => line,
    }
}

/// What a line asks for: the line as it stands before its LF, with a CR in front of it or without.
///
/// A line of more than `LONGEST_LINE` bytes, one that isn't a JSON object of just the members of
/// its `do`, and one whose members are of other JSON types is refused with `MalformedBody`. Of a
/// value that isn't allowed the refusal of the first is reported: `at`, `as`, and then the others.
#[tactic(auto, unfolding(crate::specs::ReadLine::line_of))]
pub fn read_line(alloc: Global, line: &[u8]) -> Result<Line, AllocError>
    ensures { IfOk result (λ read. read ≡ line_of line.now) }
{
    if line.len() > LONGEST_LINE {
        return Ok(Line::Refused(Refusal::MalformedBody));
    }
    let bytes = trimmed(line);
    if bytes.is_empty() {
        return Ok(Line::Skip);
    }
    match command(alloc, bytes) {
        Ok(timed) => Ok(Line::Command(timed)),
        Err(LineFault::Refused(refusal)) => Ok(Line::Refused(refusal)),
        Err(LineFault::Memory) => Err(AllocError),
    }
}
