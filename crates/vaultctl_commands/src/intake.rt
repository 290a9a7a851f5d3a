//! An intake carried out, and a line printed for each of its rows.
ghost use Rattle.std.specs.Prelude.{◌≡◌, ◌≢◌, ◌≤◌, IfOk, OnErr, Err};
ghost use Rattle.std.specs.Io.KnownBytes.{Appends};
ghost use Rattle.vault_base.specs.declared.refusal.Refusal.TheVariants.{Device as DeviceFailed};
ghost use Rattle.vault_core_model.specs.Step.{Reached};
ghost use Rattle.vault_files.specs.Lines.{lines, stopped_line as stop_line};
ghost use Rattle.vaultctl_commands.specs.PrintedIntake as spec;
ghost use Rattle.vaultctl_commands.specs.PrintedIntake.{IntakeLeavesBy, IntakePrintedBy, IsTakenInBy};

use crate::asked::AskedIntake;
use crate::fault::JobFault;
use crate::outcome::Outcome;
use crate::printing::print;
use std::alloc::Global;
use std::io::Write;
use vault_base::moment::Moment;
use vault_base::refusal::Refusal;
use vault_core_model::keeper::Keeper;
use vault_files::folder::Folder;
use vault_files::intake::take_in;
use vault_files::lines::{intake_lines, is_accepted, stopped_line};
use vault_files::report::IntakeReport;

/// An intake that is asked for, the moment at which it is made, and the bytes of its list.
#[derive(Clone, Copy)]
pub struct ListedIntake<'a> {
    pub at: Moment,
    pub asked: &'a AskedIntake,
    pub list: &'a [u8],
}

/// What came of an intake: refused where a row was, or it stopped.
fn outcome(report: &IntakeReport) -> Outcome
    ensures { result ≡ spec.intake_outcome report.now.rows.items report.now.stopped }
{
    if is_accepted(report) {
        Outcome::Done
    } else {
        Outcome::Refused
    }
}

/// Prints the lines of an intake, and returns what came of it.
fn print_report<W: Write>(
    alloc: Global,
    report: &IntakeReport,
    out: &mut W,
) -> Result<Outcome, JobFault>
    ensures ok { IfOk result (λ outcome. spec.PrintsReport report.now.rows.items report.now.stopped outcome (W.contents out.old) (W.contents out.new)) }
    ensures reader { result ≢ Err JobFault.Read }
    ensures device { result ≢ Err JobFault.Device }
{
    let Ok(text) = intake_lines(alloc, report) else {
        return Err(JobFault::Memory);
    };
    print(out, text.as_str())?;
    Ok(outcome(report))
}

/// Takes in files of a folder by a list and prints a line for each row; and returns what came of it, with the replies to
/// its rows for whoever says more about them.
///
/// `Write` comes where the lines can't be written, and `Memory` where there is no room for them; the files
/// were taken in all the same.
pub fn take_in_and_print<K: Keeper, F: Folder, W: Write>(
    alloc: Global,
    keeper: &mut K,
    intake: ListedIntake<'_>,
    folder: &mut F,
    out: &mut W,
) -> (Result<Outcome, JobFault>, IntakeReport)
    ensures ok { K.is_honest keeper.new
        → IfOk result.0 (IntakePrintedBy K.Kept keeper.old keeper.new W.Write out.old out.new (F.files folder.old) intake.entry.at intake.entry.asked.now intake.entry.list.now) }
    // Whatever the device does, what is answered is what the printed lines say.
    ensures printed { IfOk result.0 (λ outcome. spec.PrintsIntake outcome (W.contents out.old) (W.contents out.new)) }
    // The intake was made whole before its lines were tried.
    ensures err { K.is_honest keeper.new → OnErr result.0 (IsTakenInBy K.Kept keeper.old keeper.new (F.files folder.old) intake.entry.at intake.entry.asked.now intake.entry.list.now) }
    ensures reached { K.is_honest keeper.new → Reached (K.vault keeper.old) → Reached (K.vault keeper.new) }
    ensures counted_there { F.count folder.old ≤ F.count folder.new }
    // That a device failed is reported where it did.
    ensures leaves { IntakeLeavesBy K.Kept keeper.old keeper.new W.Write out.old out.new (F.files folder.old) (F.count folder.old) (F.count folder.new)
        intake.entry.at intake.entry.asked.now intake.entry.list.now result.0 }
    ensures reader { result.0 ≢ Err JobFault.Read }
    ensures device { result.0 ≢ Err JobFault.Device }
{
    let ListedIntake { at, asked, list } = intake;
    let AskedIntake {
        who,
        bucket,
        batch,
        ..
    } = asked;
    let report = take_in(alloc, keeper, at, who, bucket, batch, list, folder);
    let stated = print_report(alloc, &report, out);
    (stated, report)
}

/// Prints `stopped Device`, as for a list that can't be read.
pub fn print_unread_list<W: Write>(alloc: Global, out: &mut W) -> Result<Outcome, JobFault>
    ensures ok { IfOk result (λ outcome. (outcome ≡ Outcome.Refused) × Appends (W.contents out.old) (W.contents out.new) (stop_line DeviceFailed)) }
    ensures reader { result ≢ Err JobFault.Read }
    ensures device { result ≢ Err JobFault.Device }
{
    let Ok(text) = stopped_line(alloc, Refusal::Device) else {
        return Err(JobFault::Memory);
    };
    print(out, text.as_str())?;
    Ok(Outcome::Refused)
}
