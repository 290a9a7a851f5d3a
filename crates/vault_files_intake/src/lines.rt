//! The lines of an intake.
//!
//! ```text
//! 1 admitted 3
//! 2 again 4
//! 3 refused InvalidArgument
//! stopped MalformedBody
//! ```
ghost use Rattle.std.specs.Prelude.{◌≡◌, ◌++◌, IfOk, OnOk, string_bytes};
ghost use Rattle.vault_files_intake.specs.Lines as spec;

use crate::report::{IntakeReport, RowReply};
use std::alloc::{AllocError, Global};
use vault_base::refusal::Refusal;
use vault_core_model::reply::{Answer, Reply, TakenIn};

/// Appends a line of three words, the first of which is a number.
fn push_words(
    alloc: Global,
    out: &mut String,
    number: u32,
    word: &str,
    last: &str,
) -> Result<(), AllocError>
    ensures { OnOk result (string_bytes out.new ≡ string_bytes out.old ++ spec.words number word.now last.now) }
{
    let number = number.to_string(alloc)?;
    out.push_str(number.as_str())?;
    out.push_str(" ")?;
    out.push_str(word)?;
    out.push_str(" ")?;
    out.push_str(last)?;
    out.push_str("\n")
}

fn word_of(taken: TakenIn) -> &'static str
    ensures { result.now ≡ spec.word_of taken }
{
    if taken.again { "again" } else { "admitted" }
}

fn push_taken(alloc: Global, out: &mut String, line: u32, taken: TakenIn) -> Result<(), AllocError>
    ensures { OnOk result (string_bytes out.new ≡ string_bytes out.old ++ spec.taken_line line taken) }
{
    let id = taken.id.number().to_string(alloc)?;
    push_words(alloc, out, line, word_of(taken), id.as_str())
}

/// What a reply says of a row: an id or a refusal.
fn push_reply(alloc: Global, out: &mut String, line: u32, reply: &Reply) -> Result<(), AllocError>
    ensures { OnOk result (string_bytes out.new ≡ string_bytes out.old ++ spec.reply_line line reply.now) }
{
    match reply {
        Reply::Done(Answer::TakenIn(taken)) => push_taken(alloc, out, line, *taken),
        Reply::Refused(refusal) => push_words(alloc, out, line, "refused", refusal.name()),
        _ => Ok(()),
    }
}

fn push_row(alloc: Global, out: &mut String, row: &RowReply) -> Result<(), AllocError>
    ensures { OnOk result (string_bytes out.new ≡ string_bytes out.old ++ spec.row_line row.now) }
{
    push_reply(alloc, out, row.line, &row.reply)
}

fn push_rows(alloc: Global, out: &mut String, rows: &[RowReply]) -> Result<(), AllocError>
    ensures { OnOk result (string_bytes out.new ≡ string_bytes out.old ++ spec.row_lines rows.now) }
{
    for row in rows {
        push_row(alloc, out, row)?;
    }
    Ok(())
}

fn push_stopped(out: &mut String, refusal: Refusal) -> Result<(), AllocError>
    ensures { OnOk result (string_bytes out.new ≡ string_bytes out.old ++ spec.stopped_line refusal) }
{
    out.push_str("stopped ")?;
    out.push_str(refusal.name())?;
    out.push_str("\n")
}

/// The line that says what stopped an intake, as `stopped Device`. The error is out of memory.
pub fn stopped_line(alloc: Global, refusal: Refusal) -> Result<String, AllocError>
    ensures { IfOk result (λ text. string_bytes text ≡ spec.stopped_line refusal) }
{
    let mut out = String::new(alloc);
    push_stopped(&mut out, refusal)?;
    Ok(out)
}

/// The lines that an intake prints: for each row `LINE admitted ID`, `LINE again ID` or `LINE refused NAME`,
/// and at last `stopped NAME` where something stopped it. The error is out of memory.
pub fn intake_lines(alloc: Global, report: &IntakeReport) -> Result<String, AllocError>
    ensures { IfOk result (λ text. string_bytes text ≡ spec.lines report.now.rows.items report.now.stopped) }
{
    let mut out = String::new(alloc);
    push_rows(alloc, &mut out, report.rows.as_slice())?;
    if let Some(refusal) = report.stopped {
        push_stopped(&mut out, refusal)?;
    }
    Ok(out)
}

fn is_refused(row: &RowReply) -> bool
    ensures { result ≡ spec.is_refused row.now.reply }
{
    matches!(row.reply, Reply::Refused(_))
}

fn refuses_a_row(rows: &[RowReply]) -> bool
    ensures { result ≡ spec.refuses_a_row rows.now }
{
    rows.iter().any(|row| is_refused(row))
}

/// Whether an intake came to its end and refused no row.
pub fn is_accepted(report: &IntakeReport) -> bool
    ensures { result ≡ spec.is_accepted report.now.rows.items report.now.stopped }
{
    report.stopped.is_none() && !refuses_a_row(report.rows.as_slice())
}
