//! The cells of an event's record.
ghost use Rattle.std.specs.Prelude.{◌≡◌, [], ◌∷◌, ◌++◌, codes, IfOk, OnOk, option_map};
ghost use Rattle.std.specs.Fmt.{decimal};
ghost use Rattle.csv.specs.Records.{fields_of, partial_of};
ghost use Rattle.vault_base.specs.Moment.{moment_text};
ghost use Rattle.vault_files_events.specs.EventsText as spec;
ghost use Rattle.vault_files_texts.specs.Register.{kind_name as kind_of};
ghost use Rattle.vault_core_evidence.specs.Events as events;

use csv::ByteRecord;
use std::alloc::Global;
use vault_base::moment::Moment;
use vault_core_model::records::{Entry, Setting};
use vault_files_texts::ExportFault;
use vault_files_texts::removed::digest_text;
use vault_lock::retention::Retention;
use vault_values::words::{hold_name, mode_name};

/// Adds a cell to a record that has no cell half made.
pub(crate) fn push_cell(out: &mut ByteRecord, cell: &str) -> Result<(), ExportFault>
    requires { partial_of out.old ≡ [] }
    ensures cells { OnOk result (fields_of out.new ≡ fields_of out.old ++ cell.now ∷ []) }
    ensures whole { OnOk result (partial_of out.new ≡ []) }
{
    out.push_field(cell.as_bytes())?;
    Ok(())
}

fn kind_name(marker: bool) -> &'static str
    ensures { result.now ≡ kind_of marker }
{
    if marker { "marker" } else { "version" }
}

fn bypass_name(bypass: bool) -> &'static str
    ensures { result.now ≡ spec.bypass_name bypass }
{
    if bypass { "true" } else { "false" }
}

/// Adds which entry it is, what happened to it, when and by whom.
pub(crate) fn push_first(
    alloc: Global,
    out: &mut ByteRecord,
    entry: &Entry,
    what: &str,
    at: Moment,
    by: &str,
) -> Result<(), ExportFault>
    requires { partial_of out.old ≡ [] }
    ensures cells { OnOk result (fields_of out.new ≡ fields_of out.old ++ decimal entry.now.id ∷ what.now ∷ moment_text at ∷ by.now ∷ []) }
    ensures whole { OnOk result (partial_of out.new ≡ []) }
{
    let id = entry.id.number().to_string(alloc)?;
    let moment = at.text(alloc)?;
    push_cell(out, id.as_str())?;
    push_cell(out, what)?;
    push_cell(out, moment.as_str())?;
    push_cell(out, by)
}

/// Adds what the entry is from its admission on.
#[tactic(auto, unfolding(crate::specs::EventsText::entry_cells))]
pub(crate) fn push_entry(
    alloc: Global,
    out: &mut ByteRecord,
    entry: &Entry,
) -> Result<(), ExportFault>
    requires { partial_of out.old ≡ [] }
    ensures cells { OnOk result (fields_of out.new ≡ fields_of out.old ++ spec.entry_cells (events.as_admitted entry.now)) }
    ensures whole { OnOk result (partial_of out.new ≡ []) }
{
    let size = entry.size.to_string(alloc)?;
    let digest = digest_text(alloc, entry.digest.as_ref())?;
    push_cell(out, entry.bucket.as_str())?;
    push_cell(out, entry.key.as_str())?;
    push_cell(out, kind_name(entry.marker))?;
    push_cell(out, size.as_str())?;
    push_cell(out, digest.as_str())
}

fn push_retention(
    alloc: Global,
    out: &mut ByteRecord,
    retention: Option<Retention>,
) -> Result<(), ExportFault>
    requires { partial_of out.old ≡ [] }
    ensures cells { OnOk result (fields_of out.new ≡ fields_of out.old ++ spec.retention_cells retention) }
    ensures whole { OnOk result (partial_of out.new ≡ []) }
{
    let Some(retention) = retention else {
        push_cell(out, "")?;
        return push_cell(out, "");
    };
    let until = retention.until.text(alloc)?;
    push_cell(out, mode_name(retention.mode))?;
    push_cell(out, until.as_str())
}

/// Adds what was set of a lock.
#[tactic(auto, unfolding(crate::specs::EventsText::lock_cells))]
pub(crate) fn push_lock(
    alloc: Global,
    out: &mut ByteRecord,
    setting: &Setting,
) -> Result<(), ExportFault>
    requires { partial_of out.old ≡ [] }
    ensures cells { OnOk result (fields_of out.new ≡ fields_of out.old ++ spec.lock_cells (events.Locked setting.now)) }
    ensures whole { OnOk result (partial_of out.new ≡ []) }
{
    push_retention(alloc, out, setting.lock.retention)?;
    push_cell(out, hold_name(setting.lock.hold))?;
    push_cell(out, bypass_name(setting.bypass))
}

/// Adds four empty cells, where no lock was set.
pub(crate) fn push_no_lock(out: &mut ByteRecord) -> Result<(), ExportFault>
    requires { partial_of out.old ≡ [] }
    ensures cells { OnOk result (fields_of out.new ≡ fields_of out.old ++ [] ∷ [] ∷ [] ∷ [] ∷ []) }
    ensures whole { OnOk result (partial_of out.new ≡ []) }
{
    push_cell(out, "")?;
    push_cell(out, "")?;
    push_cell(out, "")?;
    push_cell(out, "")
}

/// Adds a removal's cause, the department that has the entry from then on, and the number of the move.
pub(crate) fn push_last(
    out: &mut ByteRecord,
    cause: &str,
    department: &str,
    number: &str,
) -> Result<(), ExportFault>
    requires { partial_of out.old ≡ [] }
    ensures cells { OnOk result (fields_of out.new ≡ fields_of out.old ++ cause.now ∷ department.now ∷ number.now ∷ []) }
    ensures whole { OnOk result (partial_of out.new ≡ []) }
{
    push_cell(out, cause)?;
    push_cell(out, department)?;
    push_cell(out, number)
}
