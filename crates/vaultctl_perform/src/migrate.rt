//! The vault of an earlier version, copied into a new file.
ghost use Rattle.std.specs.Prelude.{◌≡◌, IfOk, Ok, OnOk, OnErr};
ghost use Rattle.std.specs.Io.KnownBytes.{Appends};
ghost use Rattle.sqlite_wal.specs.Files.{image_at};
ghost use Rattle.vaultctl_machine.specs.Closings.{Copies};
ghost use Rattle.vaultctl_machine.specs.VaultCounts.{with_copied};
ghost use Rattle.vaultctl_machine.specs.Places.{after_a_look};
ghost use Rattle.vaultctl_perform.specs.Done.{IsMigrated, IsUngiven};
ghost use Rattle.vaultctl_perform.specs.Printed as spec;
ghost use Rattle.vaultctl_perform.specs.Status.{Ends};

use crate::messages::{print_cause, status};
use sqlite::Start;
use std::io::Write;
use vaultctl_commands::fault::JobFault;
use vaultctl_commands::outcome::Outcome;
use vaultctl_commands::printing::print;
use vaultctl_job::job::MigrateJob;
use vaultctl_machine::migration::Copying;
use vaultctl_machine::open_error::OpenError;
use vaultctl_machine::starts::Starts;
use vaultctl_machine::vaults::FileMachine;

/// The copy that a job asks for.
pub fn copying_of(job: &MigrateJob) -> Copying<'_>
    ensures { result.external ≡ job.now.external }
{
    Copying {
        old: job.old.as_str(),
        new: job.new.as_str(),
        external: job.external,
    }
}

/// Copies the vault and closes both files.
fn copy<A: Start, B: Start>(
    machine: &mut FileMachine<'_, A, B>,
    copying: Copying<'_>,
    starts: Starts<A, B>,
) -> Result<(), OpenError>
    ensures looked { machine.new.looked ≡ after_a_look machine.old.looked }
    ensures copied { OnOk result ((machine.new.given ≡ with_copied machine.old.given)
        × Copies copying.entry.external (image_at A.Start) machine.old.closed.items machine.new.closed.items machine.old.copies.items machine.new.copies.items) }
    ensures none { OnErr result (IsUngiven machine.old machine.new) }
{
    let migrated = machine.migrate(copying, starts)?;
    machine.close_migrated(migrated);
    Ok(())
}

/// Prints that a vault was copied.
fn print_done<W: Write>(out: &mut W) -> Result<Outcome, JobFault>
    ensures { IfOk result (λ stated. (stated ≡ Outcome.Done) × Appends (W.contents out.old) (W.contents out.new) spec.migrated_line) }
{
    print(out, "migrated\n")?;
    Ok(Outcome::Done)
}

/// Prints `migrated` of a vault that was copied, or names on `err` why it wasn't.
fn print_copied<W: Write, E: Write>(copied: Result<(), OpenError>, out: &mut W, err: &mut E) -> u8
    ensures { Ends result (λ outcome. OnOk copied (IfOk outcome (λ stated. (stated ≡ Outcome.Done) × Appends (W.contents out.old) (W.contents out.new) spec.migrated_line))
        × OnErr copied ((outcome ≡ Ok Outcome.Refused) × (W.contents out.new ≡ W.contents out.old))) }
{
    match copied {
        Ok(()) => status(err, "migrate", print_done(out)),
        Err(cause) => print_cause(err, "migrate", cause),
    }
}

/// Copies the vault of an earlier version into a new file, and prints `migrated`.
pub fn migrate<A: Start, B: Start, W: Write, E: Write>(
    machine: &mut FileMachine<'_, A, B>,
    copying: Copying<'_>,
    starts: Starts<A, B>,
    out: &mut W,
    err: &mut E,
) -> u8
    ensures looked { machine.new.looked ≡ after_a_look machine.old.looked }
    ensures performed { Ends result (λ outcome. IsMigrated (image_at A.Start) outcome machine.old machine.new (W.contents out.old) (W.contents out.new) copying.entry.external) }
{
    let copied = copy(machine, copying, starts);
    print_copied(copied, out, err)
}
