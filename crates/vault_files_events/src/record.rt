//! The record of each kind of event.
ghost use Rattle.std.specs.Prelude.{◌≡◌, [], ◌∷◌, ◌++◌, IfOk, OnOk, unwrap_or};
ghost use Rattle.csv.specs.Records.{fields_of, partial_of};
ghost use Rattle.csv.specs.Writing.{row_text, default_writer};
ghost use Rattle.vault_core_evidence.specs.Events as events;
ghost use Rattle.vault_files_events.specs.Adds.{history_by};
ghost use Rattle.vault_files_events.specs.EventsText as spec;

use crate::cells::{push_entry, push_first, push_last, push_lock, push_no_lock};
use csv::{ByteRecord, WriterBuilder};
use std::alloc::Global;
use vault_core_model::records::{Entry, Removal, Setting, Tenure};
use vault_files_texts::ExportFault;
use vault_files_texts::removed::{author_text, cause_kind, cause_name};

/// The text of a record. Memory is all that it can want.
fn record_text(alloc: Global, cells: &ByteRecord) -> Result<Vec<u8>, ExportFault>
    ensures { IfOk result (λ text. text.items ≡ row_text default_writer (fields_of cells.now)) }
{
    let mut writer = WriterBuilder::new().from_writer(Vec::new(alloc));
    let Ok(()) = writer.write_byte_record(cells) else {
        return Err(ExportFault::Memory);
    };
    let Ok(text) = writer.into_inner() else {
        return Err(ExportFault::Memory);
    };
    Ok(text)
}

/// The first of the departments that had an entry; empty of a marker, which none has.
fn first_department(tenures: &[Tenure]) -> &str
    ensures { result.now ≡ unwrap_or (events.first_department tenures.now) [] }
{
    match tenures {
        [first, ..] => first.dept.as_str(),
        [] => "",
    }
}

/// The cells of an admission.
#[tactic(auto, unfolding(crate::specs::EventsText::first_cells, crate::specs::EventsText::lock_cells, crate::specs::EventsText::last_cells))]
fn admitted_cells(
    alloc: Global,
    entry: &Entry,
    tenures: &[Tenure],
) -> Result<ByteRecord, ExportFault>
    ensures { IfOk result (λ cells. fields_of cells ≡ spec.event_cells (events.admission_of (history_by entry.now [] tenures.now))) }
{
    let mut out = ByteRecord::new(alloc);
    let author = author_text(alloc, &entry.by)?;
    let what = "admitted";
    push_first(
        alloc,
        &mut out,
        entry,
        what,
        entry.admitted,
        author.as_str(),
    )?;
    push_entry(alloc, &mut out, entry)?;
    push_no_lock(&mut out)?;
    push_last(&mut out, "", first_department(tenures), "")?;
    Ok(out)
}

/// The cells of a setting.
#[tactic(auto, unfolding(crate::specs::EventsText::first_cells, crate::specs::EventsText::last_cells))]
fn locked_cells(alloc: Global, entry: &Entry, setting: &Setting) -> Result<ByteRecord, ExportFault>
    ensures { IfOk result (λ cells. fields_of cells ≡ spec.event_cells (events.setting_event (events.as_admitted entry.now) setting.now)) }
{
    let mut out = ByteRecord::new(alloc);
    let by = setting.by.as_str();
    push_first(alloc, &mut out, entry, "locked", setting.at, by)?;
    push_entry(alloc, &mut out, entry)?;
    push_lock(alloc, &mut out, setting)?;
    push_last(&mut out, "", "", "")?;
    Ok(out)
}

/// The cells of a move.
#[tactic(auto, unfolding(crate::specs::EventsText::first_cells, crate::specs::EventsText::lock_cells, crate::specs::EventsText::last_cells))]
fn moved_cells(alloc: Global, entry: &Entry, tenure: &Tenure) -> Result<ByteRecord, ExportFault>
    ensures { IfOk result (λ cells. fields_of cells ≡ spec.event_cells (events.move_event (events.as_admitted entry.now) tenure.now)) }
{
    let mut out = ByteRecord::new(alloc);
    let number = tenure.number.to_string(alloc)?;
    push_first(alloc, &mut out, entry, "moved", tenure.from, "")?;
    push_entry(alloc, &mut out, entry)?;
    push_no_lock(&mut out)?;
    push_last(&mut out, "", tenure.dept.as_str(), number.as_str())?;
    Ok(out)
}

/// The cells of a removal.
#[tactic(auto, unfolding(crate::specs::EventsText::first_cells, crate::specs::EventsText::lock_cells, crate::specs::EventsText::last_cells))]
fn removed_cells(alloc: Global, entry: &Entry, removal: &Removal) -> Result<ByteRecord, ExportFault>
    ensures { IfOk result (λ cells. fields_of cells ≡ spec.event_cells (record { entry = events.as_admitted entry.now; at = removal.now.at; what = events.Gone removal.now })) }
{
    let mut out = ByteRecord::new(alloc);
    let by = cause_name(&removal.cause);
    push_first(alloc, &mut out, entry, "removed", removal.at, by)?;
    push_entry(alloc, &mut out, entry)?;
    push_no_lock(&mut out)?;
    push_last(&mut out, cause_kind(&removal.cause), "", "")?;
    Ok(out)
}

/// The text of an admission's record.
#[tactic(auto, unfolding(crate::specs::EventsText::event_row))]
pub(crate) fn admitted_row(
    alloc: Global,
    entry: &Entry,
    tenures: &[Tenure],
) -> Result<Vec<u8>, ExportFault>
    ensures { IfOk result (λ text. text.items ≡ spec.event_row (events.admission_of (history_by entry.now [] tenures.now))) }
{
    let cells = admitted_cells(alloc, entry, tenures)?;
    record_text(alloc, &cells)
}

/// The text of a setting's record.
#[tactic(auto, unfolding(crate::specs::EventsText::event_row))]
pub(crate) fn locked_row(
    alloc: Global,
    entry: &Entry,
    setting: &Setting,
) -> Result<Vec<u8>, ExportFault>
    ensures { IfOk result (λ text. text.items ≡ spec.event_row (events.setting_event (events.as_admitted entry.now) setting.now)) }
{
    let cells = locked_cells(alloc, entry, setting)?;
    record_text(alloc, &cells)
}

/// The text of a move's record.
#[tactic(auto, unfolding(crate::specs::EventsText::event_row))]
pub(crate) fn moved_row(
    alloc: Global,
    entry: &Entry,
    tenure: &Tenure,
) -> Result<Vec<u8>, ExportFault>
    ensures { IfOk result (λ text. text.items ≡ spec.event_row (events.move_event (events.as_admitted entry.now) tenure.now)) }
{
    let cells = moved_cells(alloc, entry, tenure)?;
    record_text(alloc, &cells)
}

/// The text of a removal's record.
#[tactic(auto, unfolding(crate::specs::EventsText::event_row))]
pub(crate) fn removed_row(
    alloc: Global,
    entry: &Entry,
    removal: &Removal,
) -> Result<Vec<u8>, ExportFault>
    ensures { IfOk result (λ text. text.items ≡ spec.event_row (record { entry = events.as_admitted entry.now; at = removal.now.at; what = events.Gone removal.now })) }
{
    let cells = removed_cells(alloc, entry, removal)?;
    record_text(alloc, &cells)
}
