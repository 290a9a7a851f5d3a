//! Jobs that ask one thing of the vault in a file: their values, then the file, then what is asked.
ghost use Rattle.std.specs.Prelude.{◌≡◌, ℕ, List, Option, Result, IfOk};
ghost use Rattle.sqlite_wal.specs.Files.{image_at};
ghost use Rattle.vault_base.specs.declared.refusal.Refusal.{Refusal as AnyRefusal};
ghost use Rattle.vault_values.specs.Fault.{Gives};
ghost use Rattle.vaultctl_commands.specs.declared.asked.AskedCommand.{AskedCommand as AskedOf};
ghost use Rattle.vaultctl_commands.specs.declared.asked.AskedIntake.{AskedIntake as IntakeOf};
ghost use Rattle.vaultctl_perform.specs.Done.{IsAskedDone, IsCarriedOut, IsDoneAsRead, IsDoneAsSaid};
ghost use Rattle.vaultctl_perform.specs.Status.{Ends};
ghost use Rattle.vaultctl_work.specs.Done.{IsIntakeDone};
ghost use Rattle.vaultctl_work.specs.Printed.{PrintsRows};
ghost use Rattle.vaultctl_work.specs.Scene.{scene};

use crate::call::{Call, Task};
use crate::messages::{print_fault, print_value};
use crate::vaults::in_vault;
use sqlite::Start;
use std::io::{self, Write};
use vault_values::fault::LineFault;
use vaultctl_commands::asked::AskedCommand;
use vaultctl_commands::fault::JobFault;
use vaultctl_machine::vaults::FileMachine;
use vaultctl_remedies::slips::first_slip;
use vaultctl_work::intake::Intake;
use vaultctl_work::work::Work;

/// Carries out what a job's words ask of the vault in a file, where their values are such; else prints the refusal of the
/// first that isn't, and looks for no file.
pub fn ask_read<A: Start, B: Start, T: Work, W: Write, E: Write>(
    machine: &mut FileMachine<'_, A, B>,
    call: Call<'_>,
    start: A,
    asked: &Result<T, LineFault>,
    out: &mut W,
    err: &mut E,
) -> u8
    ensures performed { Ends result (λ outcome. IsDoneAsRead machine.old machine.new asked.now outcome (W.contents out.old) (W.contents out.new)
        (λ work. IsCarriedOut (image_at A.Start) machine.old machine.new outcome (W.contents out.new ≡ W.contents out.old) (T.prints outcome (W.contents out.old) (W.contents out.new))
        (λ v w. (from : Option (List ℕ)) × (to : Option (List ℕ)) × T.does work (scene v from (W.contents out.old)) (scene w to (W.contents out.new)) outcome))) }
{
    let alloc = machine.runtime().alloc();
    match asked {
        Ok(work) => {
            let task = Task { call, work };
            in_vault(machine, start, task, &mut io::empty(), out, err)
        }
        Err(LineFault::Memory) => print_fault(err, call.subcommand, JobFault::Memory),
        Err(LineFault::Refused(refusal)) => {
            let slip = first_slip(alloc, call.job).unwrap_or(None);
            print_value(alloc, call.subcommand, *refusal, slip, out, err)
        }
    }
}

/// The same of a command, which is dropped.
pub fn ask<A: Start, B: Start, W: Write, E: Write>(
    machine: &mut FileMachine<'_, A, B>,
    call: Call<'_>,
    start: A,
    asked: Result<AskedCommand, LineFault>,
    out: &mut W,
    err: &mut E,
) -> u8
    ensures performed { (said : Result AskedOf AnyRefusal) → Gives (λ x. x) asked said
        → Ends result (λ outcome. IsAskedDone (image_at A.Start) outcome machine.old machine.new (W.contents out.old) (W.contents out.new) said) }
{
    ask_read(machine, call, start, &asked, out, err)
}

/// Takes in files of a folder by a list, where the values of the job's words are such; else prints the refusal
/// of the first that isn't, and looks for no file.
pub fn take_in<A: Start, B: Start, W: Write, E: Write>(
    machine: &mut FileMachine<'_, A, B>,
    call: Call<'_>,
    start: A,
    asked: Result<Intake<'_>, LineFault>,
    out: &mut W,
    err: &mut E,
) -> u8
    ensures performed { (said : Result IntakeOf AnyRefusal) → Gives (λ i. i.asked) asked.entry said
        → Ends result (λ outcome. IsDoneAsSaid machine.old machine.new said outcome (W.contents out.old) (W.contents out.new)
        (λ it. IsCarriedOut (image_at A.Start) machine.old machine.new outcome (W.contents out.new ≡ W.contents out.old) (IfOk outcome (λ stated. PrintsRows stated (W.contents out.old) (W.contents out.new)))
        (λ v w. IsIntakeDone it outcome v w (W.contents out.old) (W.contents out.new)))) }
{
    ask_read(machine, call, start, &asked, out, err)
}
