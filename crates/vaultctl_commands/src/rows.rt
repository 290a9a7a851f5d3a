//! A vault's register and its events, printed row by row, with how many rows were printed on a terminal.
ghost use Rattle.std.specs.Prelude.{◌≡◌, ◌≢◌, Err};
ghost use Rattle.vault_core_model.specs.Leaves.{LeavesSame};
ghost use Rattle.vaultctl_commands.specs.Faults.{reports_device};
ghost use Rattle.vaultctl_commands.specs.Rows.{PrintsEvents, PrintsRegister};

use crate::asked::AskedEvents;
use crate::fault::JobFault;
use crate::outcome::Outcome;
use crate::progress_writer::ProgressWriter;
use std::alloc::Global;
use std::io::{Stderr, Write};
use vault_core_model::keeper::Keeper;
use vault_files::ExportFault;
use vault_files::register::export_register;
use vault_files_events::export_events;

/// Prints the register of a vault's removals.
///
/// `Write` comes where the text can't be written, `Memory` where there is no room for a row, and `Device` where the vault's
/// device failed.
pub fn print_register<K: Keeper, W: Write>(
    alloc: Global,
    keeper: &mut K,
    out: &mut W,
    terminal: Option<Stderr>,
) -> Result<Outcome, JobFault>
    ensures text { K.is_honest keeper.new → PrintsRegister (K.vault keeper.old) result (W.contents out.old) (W.contents out.new) }
    ensures leaves { LeavesSame K.Kept keeper.old keeper.new (reports_device result) }
    ensures reader { result ≢ Err JobFault.Read }
{
    let mut rows = ProgressWriter::new(out, terminal);
    match export_register(alloc, keeper, &mut rows) {
        Ok(()) => Ok(Outcome::Done),
        Err(ExportFault::Write) => Err(JobFault::Write),
        Err(ExportFault::Memory) => Err(JobFault::Memory),
        Err(ExportFault::Device) => Err(JobFault::Device),
    }
}

/// Prints all that happened to each entry of a vault, or what of it was before a moment.
///
/// `Write` comes where the text can't be written, `Memory` where there is no room for an entry's rows, and `Device` where
/// the vault's device failed.
pub fn print_events<K: Keeper, W: Write>(
    alloc: Global,
    keeper: &mut K,
    asked: &AskedEvents,
    out: &mut W,
    terminal: Option<Stderr>,
) -> Result<Outcome, JobFault>
    ensures text { K.is_honest keeper.new → PrintsEvents asked.now.before (K.vault keeper.old) result (W.contents out.old) (W.contents out.new) }
    ensures leaves { LeavesSame K.Kept keeper.old keeper.new (reports_device result) }
    ensures reader { result ≢ Err JobFault.Read }
{
    let mut rows = ProgressWriter::new(out, terminal);
    match export_events(alloc, keeper, &mut rows, asked.before) {
        Ok(_) => Ok(Outcome::Done),
        Err(ExportFault::Write) => Err(JobFault::Write),
        Err(ExportFault::Memory) => Err(JobFault::Memory),
        Err(ExportFault::Device) => Err(JobFault::Device),
    }
}
