//! What is reported on standard error, and exit statuses.
ghost use Rattle.std.specs.Prelude.{◌≡◌, ◌≢◌, ◌++◌, IfOk, OnOk, OnErr};
ghost use Rattle.std.specs.Io.KnownBytes.{Appends};
ghost use Rattle.vault_core_model.specs.declared.reply.Reply.TheVariants.{Refused};
ghost use Rattle.vault_io.specs.Begins.{Begins};
ghost use Rattle.vaultctl_commands.specs.Printed.{printed};
ghost use Rattle.vaultctl_perform.specs.Named as named;
ghost use Rattle.vaultctl_perform.specs.Status as spec;
ghost use Rattle.vaultctl_perform.specs.Status.{Ends};

use std::alloc::Global;
use std::io::{self, Write};
use vault_base::refusal::{Refusal, Table};
use vault_io::writing::write_bytes;
use vaultctl_commands::carrying::print_refusal;
use vaultctl_commands::fault::JobFault;
use vaultctl_commands::outcome::Outcome;
use vaultctl_machine::open_error::OpenError;
use vaultctl_remedies::remedies::remedy;
use vaultctl_remedies::slips::{Value, say_slip};
use vaultctl_work::saying::say;

/// Writes two texts, one after the other.
fn write_both<E: Write>(err: &mut E, first: &str, second: &str) -> io::Result<()>
    ensures ok { OnOk result (Appends (E.contents err.old) (E.contents err.new) (first.now ++ second.now)) }
    ensures err { OnErr result (Begins (E.contents err.old) (E.contents err.new) (first.now ++ second.now)) }
{
    write_bytes(err, first.as_bytes())?;
    write_bytes(err, second.as_bytes())
}

/// Writes the line that states this of a subcommand or of an opening.
fn write_line<E: Write>(err: &mut E, deed: &str, what: &str) -> io::Result<()>
    ensures ok { OnOk result (Appends (E.contents err.old) (E.contents err.new) (named.line deed.now what.now)) }
    ensures err { OnErr result (Begins (E.contents err.old) (E.contents err.new) (named.line deed.now what.now)) }
{
    write_both(err, deed, ": ")?;
    write_both(err, what, "\n")
}

/// Writes the line that names a fault, and what it means in words.
fn write_fault<E: Write>(err: &mut E, subcommand: &str, fault: JobFault) -> io::Result<()>
    ensures ok { OnOk result (Appends (E.contents err.old) (E.contents err.new) (named.fault_lines subcommand.now fault)) }
    ensures err { OnErr result (Begins (E.contents err.old) (E.contents err.new) (named.fault_lines subcommand.now fault)) }
{
    write_line(err, subcommand, fault.name())?;
    write_bytes(err, fault.words().as_bytes())
}

/// Names a fault, as `replay: Read`, and below it says in words what it means and what to do. Where even this can't be
/// written, the status states alone.
#[tactic(auto, using(crate::proofs::PrintingLemmas::begins_anyway))]
pub fn print_fault<E: Write>(err: &mut E, subcommand: &str, fault: JobFault) -> u8
    ensures status { result ≡ 1 }
    // What is written is these lines, or a beginning of them where the writer fails.
    ensures named { Begins (E.contents err.old) (E.contents err.new) (named.fault_lines subcommand.now fault) }
{
    let _ = write_fault(err, subcommand, fault);
    1
}

/// Writes the line that states this of a table.
fn write_table_line<E: Write>(err: &mut E, deed: &str, what: &str, table: &str) -> io::Result<()>
    ensures ok { OnOk result (Appends (E.contents err.old) (E.contents err.new) (named.table_line deed.now what.now table.now)) }
    ensures err { OnErr result (Begins (E.contents err.old) (E.contents err.new) (named.table_line deed.now what.now table.now)) }
{
    write_both(err, deed, ": ")?;
    write_both(err, what, " ")?;
    write_both(err, table, "\n")
}

/// The table that a refusal speaks of.
fn table_of(refusal: Refusal) -> Option<Table>
    ensures { result ≡ named.table_of refusal }
{
    match refusal {
        Refusal::Damaged(table) => Some(table),
        _ => None,
    }
}

/// Names why a vault can't be opened or made, as `open: Damaged meta`.
#[tactic(auto, using(crate::proofs::PrintingLemmas::begins_anyway))]
pub fn print_unopened<E: Write>(err: &mut E, deed: &str, refusal: Refusal) -> u8
    ensures status { result ≡ 1 }
    ensures named { Begins (E.contents err.old) (E.contents err.new) (named.refusal_line deed.now refusal) }
{
    let name = refusal.name();
    let _ = match table_of(refusal) {
        Some(table) => write_table_line(err, deed, name, table.name()),
        None => write_line(err, deed, name),
    };
    1
}

/// What a refusal of a file means whose cause the files don't show.
fn plain_words(refusal: Refusal) -> &'static str {
    match refusal {
        Refusal::Device => {
            "the system doesn't let the file be looked at or opened: check the path, the length of its names, and the disk"
        }
        other => remedy(other),
    }
}

/// Writes a cause in words on a line of its own.
pub fn print_words<E: Write>(err: &mut E, cause: OpenError) {
    say(err, cause.words().unwrap_or(plain_words(cause.refusal())));
}

/// Names why a vault can't be opened or made; and on a second line says in words what the cause is and what to do.
pub fn print_cause<E: Write>(err: &mut E, deed: &str, cause: OpenError) -> u8
    ensures { result ≡ 1 }
{
    let status = print_unopened(err, deed, cause.refusal());
    print_words(err, cause);
    status
}

/// What the fault of a device means to a subcommand, and what to do; the others have no such fault.
fn device_words(subcommand: &str) -> Option<&'static str> {
    match subcommand {
        "serve" => Some(
            "the port can't be had: another program has it, or it isn't for this user, as those below 1024: end that program, or take another port from 1024 on",
        ),
        "register" => Some(
            "the disk failed as the register was read: mend the disk, run vaultctl verify FILE, and print the register again",
        ),
        _ => None,
    }
}

/// Says in words what it means that a device ended a job, below the line that names the fault.
pub fn say_device<E: Write>(err: &mut E, subcommand: &str, outcome: Result<Outcome, JobFault>) {
    if outcome != Err(JobFault::Device) {
        return;
    }
    if let Some(words) = device_words(subcommand) {
        say(err, words);
    }
}

/// Says in words which value isn't allowed; where none was found, what the refusal means.
fn explain<E: Write>(refusal: Refusal, slip: Option<Value<'_>>, err: &mut E) {
    match slip {
        Some(value) => say_slip(value, err),
        None => say(err, remedy(refusal)),
    }
}

/// Prints the line of the refusal of a value, and says in words on `err` which value it is; the status is 1.
pub fn print_value<W: Write, E: Write>(
    alloc: Global,
    subcommand: &str,
    refusal: Refusal,
    slip: Option<Value<'_>>,
    out: &mut W,
    err: &mut E,
) -> u8
    ensures { Ends result (λ outcome. IfOk outcome (λ stated. (stated ≡ Outcome.Refused) × Appends (W.contents out.old) (W.contents out.new) (printed (Refused refusal)))) }
{
    match print_refusal(alloc, refusal, out) {
        Ok(_) => {
            explain(refusal, slip, err);
            1
        }
        Err(fault) => print_fault(err, subcommand, fault),
    }
}

/// The exit status of a job: 0 where it was done, 1 where it was refused or a fault stopped it, which is named.
pub fn status<E: Write>(err: &mut E, subcommand: &str, outcome: Result<Outcome, JobFault>) -> u8
    ensures outcome { result ≡ spec.status_of outcome }
    // A fault alone is named.
    ensures named { Begins (E.contents err.old) (E.contents err.new) (named.named subcommand.now outcome) }
    ensures status { result ≢ 2 }
{
    match outcome {
        Ok(Outcome::Done) => 0,
        Ok(Outcome::Refused) => 1,
        Err(fault) => print_fault(err, subcommand, fault),
    }
}
