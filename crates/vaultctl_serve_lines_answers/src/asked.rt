//! What a line of the second door asks for: a command, what only this door has, or nothing.
ghost use Rattle.std.specs.Prelude.{◌≡◌, IfOk};
ghost use Rattle.vaultctl_serve_lines_answers.specs.Asked as spec;

use crate::heard::Heard;
use crate::inquiry::{About, Inquiry, read_inquiry};
use std::alloc::{AllocError, Global};
use vault_base::moment::Moment;
use vault_base::name::CallerName;
use vault_base::refusal::Refusal;
use vault_lines_read::read_line::Line;
use vault_lines_read::stamped::{closer, stamp_line};
use vault_values::fault::LineFault;

/// What a line of the second door asks for.
#[derive(Drop)]
pub enum DoorLine {
    /// A command, or nothing; or it is refused.
    Line(Line),
    /// What only this door has.
    Asked(DoorRequest),
}

/// What is asked for that only this door has, by whom, and at which reading.
#[derive(Drop)]
pub struct DoorRequest {
    pub at: Moment,
    pub who: CallerName,
    pub what: Wanted,
}

/// What only this door has.
#[derive(Drop)]
pub enum Wanted {
    /// The end of the server.
    End,
    /// Something about the vault and its server.
    About(About),
}

/// What a line asks for as one of a command, at the moment that the clock shows. The error is out of memory.
fn heard(alloc: Global, heard: &Heard, moment: &Option<Moment>) -> Result<Line, AllocError>
    ensures { IfOk result (λ read. read ≡ spec.heard_of heard.now.is_ended moment.now heard.now.bytes.items) }
{
    let line = heard.bytes.as_slice();
    if !heard.is_ended && line.len() == 1 && line[0] == b'\r' {
        return Ok(Line::Refused(Refusal::MalformedBody));
    }
    stamp_line(alloc, line, *moment)
}

fn is_malformed_by(refusal: Refusal) -> bool
    ensures { result ≡ spec.is_malformed_by refusal }
{
    match refusal {
        Refusal::MalformedBody => true,
        _ => false,
    }
}

/// Whether it has another shape than the line of a command.
fn is_malformed(asked: &Line) -> bool
    ensures { result ≡ spec.is_malformed asked.now }
{
    match asked {
        Line::Refused(refusal) => is_malformed_by(*refusal),
        Line::Skip => false,
        Line::Command(_) => false,
    }
}

/// The end is asked for by that caller, at the moment that the clock shows.
fn end_at(moment: &Option<Moment>, who: CallerName) -> DoorLine
    ensures { result ≡ spec.end_at moment.now who }
{
    match moment {
        Some(at) => DoorLine::Asked(DoorRequest {
            at: *at,
            who,
            what: Wanted::End,
        }),
        None => {
            drop(who);
            DoorLine::Line(Line::Refused(Refusal::ClockOutOfRange))
        }
    }
}

fn about(inquiry: Inquiry) -> DoorLine
    ensures { result ≡ spec.about inquiry }
{
    let Inquiry { at, who, about } = inquiry;
    DoorLine::Asked(DoorRequest {
        at,
        who,
        what: Wanted::About(about),
    })
}

/// What a line asks for that isn't the line of a command. The error is out of memory.
fn unlike_command(
    alloc: Global,
    line: &[u8],
    moment: &Option<Moment>,
) -> Result<DoorLine, AllocError>
    ensures { IfOk result (λ found. found ≡ spec.unlike_command moment.now line.now) }
{
    if let Some(who) = closer(alloc, line)? {
        return Ok(end_at(moment, who));
    }
    match read_inquiry(alloc, line, *moment) {
        Ok(inquiry) => Ok(about(inquiry)),
        Err(LineFault::Refused(refusal)) => Ok(DoorLine::Line(Line::Refused(refusal))),
        Err(LineFault::Memory) => Err(AllocError),
    }
}

/// What a line asks for, at the moment that the clock shows. The error is out of memory.
pub fn door_line(
    alloc: Global,
    line: &Heard,
    moment: &Option<Moment>,
) -> Result<DoorLine, AllocError>
    ensures { IfOk result (λ found. found ≡ spec.door_line_of line.now.is_ended moment.now line.now.bytes.items) }
{
    let asked = heard(alloc, line, moment)?;
    if is_malformed(&asked) {
        drop(asked);
        return unlike_command(alloc, line.bytes.as_slice(), moment);
    }
    Ok(DoorLine::Line(asked))
}
