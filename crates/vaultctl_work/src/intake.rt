//! The intake of a list.
ghost use Rattle.std.specs.Prelude.{◌≡◌, ◌≢◌, IfOk, Err};
ghost use Rattle.vault_core_model.specs.LeavesMany.{LeavesSteady};
ghost use Rattle.vault_core_model.specs.Step.{Reached};
ghost use Rattle.vault_values.specs.Fault.{Gives};
ghost use Rattle.vaultctl_commands.specs.Asked.{intake_of};
ghost use Rattle.vaultctl_commands.specs.PrintedIntake.{IsIntakeSteady};
ghost use Rattle.vaultctl_work.specs.Done.{IsIntakeDone, IsTakenInAt};
ghost use Rattle.vaultctl_work.specs.Printed.{PrintsRows, PrintsTakenIn};

use crate::asked::{reading, say_ahead};
use crate::saying::say;
use crate::terminal::terminal;
use crate::work::Work;
use std::alloc::Global;
use std::io::{Read, Stderr, Write};
use vault_base::refusal::Refusal;
use vault_core_model::halt::Fault;
use vault_core_model::keeper::Keeper;
use vault_files::disk_folder::DiskFolder;
use vault_files::folder::Folder;
use vault_files::list_file::{explain_unread_list, read_list};
use vault_files::progress::ProgressFolder;
use vault_files::second_look::{TakenList, explain};
use vault_values::fault::LineFault;
use vaultctl_commands::asked::{AskedIntake, intake};
use vaultctl_commands::carrying::print_refusal;
use vaultctl_commands::fault::JobFault;
use vaultctl_commands::intake::{ListedIntake, print_unread_list, take_in_and_print};
use vaultctl_commands::outcome::Outcome;
use vaultctl_job::job::IntakeJob;
use vaultctl_remedies::remedies::remedy;

/// A list whose bytes were read, and the path of the folder that its files lie in.
#[derive(Clone, Copy)]
struct Delivery<'a> {
    list: &'a [u8],
    folder: &'a str,
}

/// Takes in a list, whose files are in that folder; on a terminal it says how far it has come, and at last on `err` why rows were refused.
fn take_in_at<'a, K: Keeper, W: Write, E: Write>(
    rt: &'a HostRuntime,
    keeper: &mut K,
    intake: ListedIntake<'a>,
    folder: &'a str,
    out: &mut W,
    err: &mut E,
) -> Result<Outcome, JobFault>
    ensures printed { IfOk result (λ stated. PrintsRows stated (W.contents out.old) (W.contents out.new)) }
    ensures leaves { LeavesSteady K.Kept keeper.old keeper.new (IsIntakeSteady (K.count keeper.old) (K.count keeper.new) result (W.contents out.old) (W.contents out.new)) }
    ensures done { K.is_honest keeper.new
        → IsTakenInAt intake.entry.at intake.entry.asked.now result (K.vault keeper.old) (K.vault keeper.new) (W.contents out.old) (W.contents out.new) }
    ensures reached { K.is_honest keeper.new → Reached (K.vault keeper.old) → Reached (K.vault keeper.new) }
    ensures reader { result ≢ Err JobFault.Read }
    ensures device { result ≢ Err JobFault.Device }
{
    let alloc = rt.alloc();
    let ListedIntake { at, asked, list } = intake;
    let mut files = ProgressFolder::new(DiskFolder::new(alloc, rt, folder), terminal(rt));
    let listed = ListedIntake { at, asked, list };
    let (stated, report) = take_in_and_print(alloc, keeper, listed, &mut files, out);
    let taken = TakenList {
        alloc,
        files: rt,
        list,
        folder,
        at,
    };
    explain(&taken, &report, files.faults() != 0, err);
    drop(report);
    stated
}

/// Takes in a list whose bytes were read, at the reading that is given or else at the clock's.
fn take_in_read<K: Keeper, W: Write, E: Write>(
    rt: &HostRuntime,
    keeper: &mut K,
    asked: &AskedIntake,
    delivery: Delivery<'_>,
    out: &mut W,
    err: &mut E,
) -> Result<Outcome, JobFault>
    // Done and refused are answered only after the lines that say so.
    ensures printed { IfOk result (λ stated. PrintsRows stated (W.contents out.old) (W.contents out.new)) }
    // That the vault's device failed is reported where it did.
    ensures leaves { LeavesSteady K.Kept keeper.old keeper.new (IsIntakeSteady (K.count keeper.old) (K.count keeper.new) result (W.contents out.old) (W.contents out.new)) }
    ensures done { K.is_honest keeper.new → IsIntakeDone asked.now result (K.vault keeper.old) (K.vault keeper.new) (W.contents out.old) (W.contents out.new) }
    ensures reached { K.is_honest keeper.new → Reached (K.vault keeper.old) → Reached (K.vault keeper.new) }
    ensures reader { result ≢ Err JobFault.Read }
    ensures device { result ≢ Err JobFault.Device }
{
    let Some(at) = reading(rt, asked.at) else {
        let refused = print_refusal(rt.alloc(), Refusal::ClockOutOfRange, out);
        say(err, remedy(Refusal::ClockOutOfRange));
        return refused;
    };
    let intake = ListedIntake {
        at,
        asked,
        list: delivery.list,
    };
    take_in_at(rt, keeper, intake, delivery.folder, out, err)
}

/// Says that a list couldn't be read: on `out` by the line of a failed device, and on `err` why.
fn print_unread<W: Write, E: Write>(
    rt: &HostRuntime,
    job: &IntakeJob,
    out: &mut W,
    err: &mut E,
) -> Result<Outcome, JobFault>
    ensures printed { IfOk result (λ stated. PrintsRows stated (W.contents out.old) (W.contents out.new)) }
    ensures refused { IfOk result (λ stated. stated ≡ Outcome.Refused) }
    ensures reader { result ≢ Err JobFault.Read }
    ensures device { result ≢ Err JobFault.Device }
{
    let stated = print_unread_list(rt.alloc(), out);
    explain_unread_list(rt, job.list.as_str(), job.folder.as_str(), err);
    stated
}

/// Takes in the list of that file.
fn take_in_list<K: Keeper, W: Write, E: Write>(
    rt: &HostRuntime,
    keeper: &mut K,
    asked: &AskedIntake,
    job: &IntakeJob,
    out: &mut W,
    err: &mut E,
) -> Result<Outcome, JobFault>
    ensures printed { IfOk result (λ stated. PrintsRows stated (W.contents out.old) (W.contents out.new)) }
    ensures leaves { LeavesSteady K.Kept keeper.old keeper.new (IsIntakeSteady (K.count keeper.old) (K.count keeper.new) result (W.contents out.old) (W.contents out.new)) }
    ensures done { K.is_honest keeper.new → IsIntakeDone asked.now result (K.vault keeper.old) (K.vault keeper.new) (W.contents out.old) (W.contents out.new) }
    ensures reached { K.is_honest keeper.new → Reached (K.vault keeper.old) → Reached (K.vault keeper.new) }
    ensures reader { result ≢ Err JobFault.Read }
    ensures device { result ≢ Err JobFault.Device }
{
    match read_list(rt.alloc(), rt, job.list.as_str()) {
        Ok(list) => {
            let delivery = Delivery {
                list: list.as_slice(),
                folder: job.folder.as_str(),
            };
            take_in_read(rt, keeper, asked, delivery, out, err)
        }
        Err(Fault::Memory) => Err(JobFault::Memory),
        Err(Fault::Device) => print_unread(rt, job, out, err),
    }
}

/// The intake of a list, by the values of its words.
#[derive(Drop)]
pub struct Intake<'a> {
    asked: AskedIntake,
    job: &'a IntakeJob,
}

impl Work for Intake<'_> {
    ghost prints = { PrintsTakenIn };

    ghost does = { λ intake old new result. IsIntakeDone intake.asked result old.vault new.vault old.output new.output };

    fn terminal(&self, _rt: &HostRuntime) -> Option<Stderr> {
        None
    }

    fn carry_out<K: Keeper, R: Read, W: Write, E: Write>(
        &self,
        rt: &HostRuntime,
        keeper: &mut K,
        _reader: &mut R,
        out: &mut W,
        err: &mut E,
    ) -> Result<Outcome, JobFault> {
        say_ahead(rt, self.asked.at, err);
        take_in_list(rt, keeper, &self.asked, self.job, out, err)
    }
}

/// The intake that a job's words ask for.
pub fn asked(alloc: Global, job: &IntakeJob) -> Result<Intake<'_>, LineFault>
    ensures { Gives (λ i. i.asked) result (intake_of job.now) }
{
    let asked = intake(alloc, job)?;
    Ok(Intake { asked, job })
}
