//! Whether the vault in a file is sound.
ghost use Rattle.std.specs.Prelude.{◌≡◌, ◌⊎◌, IfOk, OnOk, OnErr, string_bytes};
ghost use Rattle.std.specs.Io.KnownBytes.{Appends};
ghost use Rattle.sqlite_wal.specs.Files.{image_at};
ghost use Rattle.vault_base.specs.declared.refusal.Table.{Table as AnyTable};
ghost use Rattle.vaultctl_perform.specs.Done.{IsGiven, IsUngiven, IsVerified};
ghost use Rattle.vaultctl_perform.specs.Printed as spec;
ghost use Rattle.vaultctl_perform.specs.Status.{Ends};

use crate::messages::{print_cause, print_words, status};
use crate::vaults::close_found;
use sqlite::Start;
use std::alloc::{AllocError, Global};
use std::io::Write;
use vault_base::refusal::{Refusal, Table};
use vaultctl_commands::fault::JobFault;
use vaultctl_commands::outcome::Outcome;
use vaultctl_commands::printing::print;
use vaultctl_machine::open_error::OpenError;
use vaultctl_machine::vaults::FileMachine;

/// The line that names a table which isn't sound. The error is out of memory.
fn damaged_line(alloc: Global, table: Table) -> Result<String, AllocError>
    ensures { IfOk result (λ line. string_bytes line ≡ spec.damaged_line table) }
{
    let mut line = String::new(alloc);
    line.push_str("damaged ")?;
    line.push_str(table.name())?;
    line.push_str("\n")?;
    Ok(line)
}

/// Prints that a table isn't sound.
fn print_damaged<W: Write>(alloc: Global, table: Table, out: &mut W) -> Result<Outcome, JobFault>
    ensures { IfOk result (λ stated. (stated ≡ Outcome.Refused) × Appends (W.contents out.old) (W.contents out.new) (spec.damaged_line table)) }
{
    let Ok(line) = damaged_line(alloc, table) else {
        return Err(JobFault::Memory);
    };
    print(out, line.as_str())?;
    Ok(Outcome::Refused)
}

/// Prints that a vault is sound.
fn print_sound<W: Write>(out: &mut W) -> Result<Outcome, JobFault>
    ensures { IfOk result (λ stated. (stated ≡ Outcome.Done) × Appends (W.contents out.old) (W.contents out.new) spec.sound_line) }
{
    print(out, "sound\n")?;
    Ok(Outcome::Done)
}

/// Prints that a table isn't sound, and says in words on `err` why.
fn print_unsound<W: Write, E: Write>(
    alloc: Global,
    table: Table,
    cause: OpenError,
    out: &mut W,
    err: &mut E,
) -> u8
    ensures { Ends result (λ outcome. IfOk outcome (λ stated. (stated ≡ Outcome.Refused) × Appends (W.contents out.old) (W.contents out.new) (spec.damaged_line table))) }
{
    let printed = print_damaged(alloc, table, out);
    let exit = status(err, "verify", printed);
    print_words(err, cause);
    exit
}

/// Prints `damaged` and the table that isn't sound, or names on `err` why else a vault wasn't opened.
fn print_refused<W: Write, E: Write>(
    alloc: Global,
    cause: OpenError,
    out: &mut W,
    err: &mut E,
) -> u8
    ensures { Ends result (λ outcome. IfOk outcome (λ stated. (stated ≡ Outcome.Refused)
        × ((W.contents out.new ≡ W.contents out.old) ⊎ ((table : AnyTable) × Appends (W.contents out.old) (W.contents out.new) (spec.damaged_line table))))) }
{
    match cause.refusal() {
        Refusal::Damaged(table) => print_unsound(alloc, table, cause, out, err),
        _ => print_cause(err, "open", cause),
    }
}

/// Prints `sound` of a vault that was opened, `damaged` and the table that isn't, or why else it wasn't opened.
fn print_opened<W: Write, E: Write>(
    alloc: Global,
    opened: Result<(), OpenError>,
    out: &mut W,
    err: &mut E,
) -> u8
    ensures { Ends result (λ outcome. OnOk opened (IfOk outcome (λ stated. (stated ≡ Outcome.Done) × Appends (W.contents out.old) (W.contents out.new) spec.sound_line))
        × OnErr opened (IfOk outcome (λ stated. (stated ≡ Outcome.Refused)
        × ((W.contents out.new ≡ W.contents out.old) ⊎ ((table : AnyTable) × Appends (W.contents out.old) (W.contents out.new) (spec.damaged_line table)))))) }
{
    match opened {
        Ok(()) => status(err, "verify", print_sound(out)),
        Err(cause) => print_refused(alloc, cause, out, err),
    }
}

/// Opens the vault in a file and closes it.
fn look<A: Start, B: Start>(
    machine: &mut FileMachine<'_, A, B>,
    file: &str,
    start: A,
) -> Result<(), OpenError>
    ensures found { OnOk result (IsGiven (image_at A.Start) machine.old machine.new (λ v w. w ≡ v)) }
    ensures none { OnErr result (IsUngiven machine.old machine.new) }
{
    let vault = machine.open(file, start)?;
    close_found(machine, vault);
    Ok(())
}

/// Opens a vault's file, and prints `sound`, or `damaged` and the first table that isn't.
pub fn verify<A: Start, B: Start, W: Write, E: Write>(
    machine: &mut FileMachine<'_, A, B>,
    file: &str,
    start: A,
    out: &mut W,
    err: &mut E,
) -> u8
    ensures performed { Ends result (λ outcome. IsVerified (image_at A.Start) outcome machine.old machine.new (W.contents out.old) (W.contents out.new)) }
{
    let opened = look(machine, file, start);
    print_opened(machine.runtime().alloc(), opened, out, err)
}
