//! Intake of a list.
ghost use Rattle.std.specs.Prelude.{◌≡◌, ◌+◌, ◌<◌, [], false, IfErr, OnOk, Some};
ghost use Rattle.std.specs.List.{list_any};
ghost use Rattle.csv.specs.Records.{fields_of};
ghost use Rattle.vault_core_model.specs.Step.{Reached};
ghost use Rattle.vault_files_intake.specs.Batches.{TakesLine, TakesLines, TakesRecords};
ghost use Rattle.vault_files_intake.specs.Left.{LeavesBoth};
ghost use Rattle.vault_files_intake.specs.TakenIn as spec;

use crate::batch::{Batch, Line};
use crate::folder::Folder;
use crate::list::{MOST_LIST, is_header, records};
use crate::report::{IntakeReport, RowReply};
use crate::take_row::take_row;
use csv::ByteRecord;
use std::alloc::Global;
use vault_base::moment::Moment;
use vault_base::name::{BatchName, BucketName, CallerName};
use vault_base::refusal::Refusal;
use vault_core_model::halt::Fault;
use vault_core_model::keeper::Keeper;

fn refusal_of(fault: Fault) -> Refusal
    ensures { result ≡ spec.refusal_of fault }
{
    match fault {
        Fault::Memory => Refusal::Memory,
        Fault::Device => Refusal::Device,
    }
}

/// Takes in the file of a row, and adds its reply to those of the rows above; or answers what stops the intake.
///
/// The room for the reply is taken before anything is done.
fn take_next<K: Keeper, F: Folder>(
    alloc: Global,
    keeper: &mut K,
    batch: &Batch<'_>,
    line: &Line<'_>,
    folder: &mut F,
    rows: &mut Vec<RowReply>,
) -> Result<(), Refusal>
    ensures ok { K.is_honest keeper.new → OnOk result (TakesLine (F.files folder.old) batch.now line.now (K.vault keeper.old) rows.old.items rows.new.items (K.vault keeper.new)) }
    ensures err { K.is_honest keeper.new → IfErr result (λ r. spec.StopsBefore (fields_of line.now.cells.now) r × (rows.new.items ≡ rows.old.items) × (K.vault keeper.new ≡ K.vault keeper.old)) }
    ensures reached { K.is_honest keeper.new → Reached (K.vault keeper.old) → Reached (K.vault keeper.new) }
    ensures files { F.files folder.new ≡ F.files folder.old }
    ensures above { spec.report_names_device rows.new.items (spec.stop_of result) ≡ false → list_any spec.is_device_row rows.old.items ≡ false }
    ensures leaves { LeavesBoth K.Kept keeper.old keeper.new F.Folder folder.old folder.new (result ≡ Err Refusal.Device) (spec.report_names_device rows.new.items (spec.stop_of result)) }
{
    if line.cells.len() != 5 {
        return Err(Refusal::MalformedBody);
    }
    if rows.reserve(1).is_err() {
        return Err(Refusal::Memory);
    }
    match take_row(alloc, keeper, batch, line, folder) {
        Ok(reply) => {
            let line = line.number;
            rows.push(RowReply { line, reply }).unwrap();
            Ok(())
        }
        Err(fault) => Err(refusal_of(fault)),
    }
}

/// Takes in the files of rows, in order, up to what stops the intake.
fn take_rows<K: Keeper, F: Folder>(
    alloc: Global,
    keeper: &mut K,
    batch: &Batch<'_>,
    below: &[ByteRecord],
    folder: &mut F,
) -> IntakeReport
    ensures taken { K.is_honest keeper.new → TakesLines (F.files folder.old) batch.now below.now (K.vault keeper.old) result (K.vault keeper.new) }
    ensures reached { K.is_honest keeper.new → Reached (K.vault keeper.old) → Reached (K.vault keeper.new) }
    ensures files { F.files folder.new ≡ F.files folder.old }
    ensures leaves { LeavesBoth K.Kept keeper.old keeper.new F.Folder folder.old folder.new (result.stopped ≡ Some Refusal.Device) (spec.report_names_device result.rows.items result.stopped) }
{
    let mut rows = Vec::new(alloc);
    let mut above: u32 = 0;
    for cells in below {
        if above == u32::MAX {
            return IntakeReport {
                rows,
                stopped: Some(Refusal::EntityTooLarge),
            };
        }
        let line = Line {
            number: above + 1,
            cells,
        };
        if let Err(refusal) = take_next(alloc, keeper, batch, &line, folder, &mut rows) {
            return IntakeReport {
                rows,
                stopped: Some(refusal),
            };
        }
        above = line.number;
    }
    IntakeReport {
        rows,
        stopped: None,
    }
}

/// An intake that stops before its first row.
fn stopped_at_once(alloc: Global, refusal: Refusal) -> IntakeReport
    ensures rows { result.rows.items ≡ [] }
    ensures stopped { result.stopped ≡ Some refusal }
{
    IntakeReport {
        rows: Vec::new(alloc),
        stopped: Some(refusal),
    }
}

/// Takes in the files of the rows below a list's header.
fn take_below<K: Keeper, F: Folder>(
    alloc: Global,
    keeper: &mut K,
    batch: &Batch<'_>,
    records: &[ByteRecord],
    folder: &mut F,
) -> IntakeReport
    ensures taken { K.is_honest keeper.new → TakesRecords (F.files folder.old) batch.now records.now (K.vault keeper.old) result (K.vault keeper.new) }
    ensures reached { K.is_honest keeper.new → Reached (K.vault keeper.old) → Reached (K.vault keeper.new) }
    ensures files { F.files folder.new ≡ F.files folder.old }
    ensures leaves { LeavesBoth K.Kept keeper.old keeper.new F.Folder folder.old folder.new (result.stopped ≡ Some Refusal.Device) (spec.report_names_device result.rows.items result.stopped) }
{
    let Some((first, below)) = records.split_first() else {
        return stopped_at_once(alloc, Refusal::MalformedBody);
    };
    if !is_header(first) {
        return stopped_at_once(alloc, Refusal::MalformedBody);
    }
    take_rows(alloc, keeper, batch, below, folder)
}

/// Takes in files of a folder by a list, each row as a line of an intake batch of that bucket.
///
/// The list is CSV after a byte order mark or none, at most 16,777,216 bytes long, and its first record is
/// `file,key,mode,until,hold`. A row's number counts the records below it, from 1; blank lines are none. A row
/// is refused by the first fault of its cells, in their order, then for a file that isn't there
/// (`InvalidArgument`) or is too large (`EntityTooLarge`), and then by its command; the intake goes on after
/// it. It stops at a wrong or missing first record or a record of another length (`MalformedBody`), at a list
/// that is too long (`EntityTooLarge`, no row), where room for a row was refused (`Memory`), and where the
/// vault or the folder failed (`Device`); the rows above stand.
pub fn take_in<K: Keeper, F: Folder>(
    alloc: Global,
    keeper: &mut K,
    at: Moment,
    who: &CallerName,
    bucket: &BucketName,
    batch: &BatchName,
    list: &[u8],
    folder: &mut F,
) -> IntakeReport
    ensures taken { K.is_honest keeper.new → spec.TakesIn (F.files folder.old) at who.now bucket.now batch.now list.now (K.vault keeper.old) result.rows.items result.stopped (K.vault keeper.new) }
    ensures reached { K.is_honest keeper.new → Reached (K.vault keeper.old) → Reached (K.vault keeper.new) }
    ensures files { F.files folder.new ≡ F.files folder.old }
    // `Device` comes only where the vault's device or the folder's failed. Where neither a reply nor the stop states it,
    // the vault's count of failures is as it was; a folder that failed adds nothing to it.
    ensures leaves { LeavesBoth K.Kept keeper.old keeper.new F.Folder folder.old folder.new (result.stopped ≡ Some Refusal.Device) (spec.report_names_device result.rows.items result.stopped) }
{
    if list.len() > MOST_LIST {
        return stopped_at_once(alloc, Refusal::EntityTooLarge);
    }
    match records(alloc, list) {
        Ok(records) => {
            let batch = Batch {
                at,
                who,
                bucket,
                name: batch,
            };
            take_below(alloc, keeper, &batch, records.as_slice(), folder)
        }
        Err(_) => stopped_at_once(alloc, Refusal::Memory),
    }
}
