//! Records as CSV.
ghost use Rattle.std.specs.Prelude.{◌≡◌, [], ◌∷◌, ◌++◌, IfOk, OnOk};
ghost use Rattle.csv.specs.Records.{fields_of, partial_of};
ghost use Rattle.vault_files_texts.specs.Register as spec;

use crate::fault::ExportFault;
use crate::removed::{author_text, cause_kind, cause_name, days_between, digest_text};
use csv::{ByteRecord, WriterBuilder};
use std::alloc::Global;
use vault_core_model::records::{Entry, Removal};

/// Adds a cell to a record that has no cell half made.
fn push_cell(out: &mut ByteRecord, cell: &str) -> Result<(), ExportFault>
    requires { partial_of out.old ≡ [] }
    ensures cells { OnOk result (fields_of out.new ≡ fields_of out.old ++ cell.now ∷ []) }
    ensures whole { OnOk result (partial_of out.new ≡ []) }
{
    out.push_field(cell.as_bytes())?;
    Ok(())
}

fn kind_name(marker: bool) -> &'static str
    ensures { result.now ≡ spec.kind_name marker }
{
    if marker { "marker" } else { "version" }
}

/// Adds which entry it was.
#[tactic(auto, unfolding(crate::specs::Register::name_cells))]
fn push_name(alloc: Global, out: &mut ByteRecord, entry: &Entry) -> Result<(), ExportFault>
    requires { partial_of out.old ≡ [] }
    ensures cells { OnOk result (fields_of out.new ≡ fields_of out.old ++ spec.name_cells entry.now) }
    ensures whole { OnOk result (partial_of out.new ≡ []) }
{
    let id = entry.id.number().to_string(alloc)?;
    push_cell(out, id.as_str())?;
    push_cell(out, entry.bucket.as_str())?;
    push_cell(out, entry.key.as_str())?;
    push_cell(out, kind_name(entry.marker))
}

/// Adds what it was, and when and by whom it was admitted.
#[tactic(auto, unfolding(crate::specs::Register::origin_cells))]
fn push_origin(alloc: Global, out: &mut ByteRecord, entry: &Entry) -> Result<(), ExportFault>
    requires { partial_of out.old ≡ [] }
    ensures cells { OnOk result (fields_of out.new ≡ fields_of out.old ++ spec.origin_cells entry.now) }
    ensures whole { OnOk result (partial_of out.new ≡ []) }
{
    let size = entry.size.to_string(alloc)?;
    let digest = digest_text(alloc, entry.digest.as_ref())?;
    let admitted = entry.admitted.text(alloc)?;
    let author = author_text(alloc, &entry.by)?;
    push_cell(out, size.as_str())?;
    push_cell(out, digest.as_str())?;
    push_cell(out, admitted.as_str())?;
    push_cell(out, author.as_str())
}

/// Adds when, why and by whom it was removed, and how long it was held.
#[tactic(auto, unfolding(crate::specs::Register::removal_cells))]
fn push_removal(
    alloc: Global,
    out: &mut ByteRecord,
    entry: &Entry,
    removal: &Removal,
) -> Result<(), ExportFault>
    requires { partial_of out.old ≡ [] }
    ensures cells { OnOk result (fields_of out.new ≡ fields_of out.old ++ spec.removal_cells entry.now removal.now) }
    ensures whole { OnOk result (partial_of out.new ≡ []) }
{
    let removed = removal.at.text(alloc)?;
    let days = days_between(entry.admitted, removal.at).to_string(alloc)?;
    push_cell(out, removed.as_str())?;
    push_cell(out, cause_kind(&removal.cause))?;
    push_cell(out, cause_name(&removal.cause))?;
    push_cell(out, days.as_str())
}

/// The cells of a removed entry's record.
fn cells(alloc: Global, entry: &Entry, removal: &Removal) -> Result<ByteRecord, ExportFault>
    ensures { IfOk result (λ cells. fields_of cells ≡ spec.cells entry.now removal.now) }
{
    let mut out = ByteRecord::new(alloc);
    push_name(alloc, &mut out, entry)?;
    push_origin(alloc, &mut out, entry)?;
    push_removal(alloc, &mut out, entry, removal)?;
    Ok(out)
}

/// The text of a record. Memory is all that it can want.
fn record_text(alloc: Global, cells: &ByteRecord) -> Result<Vec<u8>, ExportFault>
    ensures { IfOk result (λ text. text.items ≡ spec.record_text (fields_of cells.now)) }
{
    let mut writer = WriterBuilder::new().from_writer(Vec::new(alloc));
    let Ok(()) = writer.write_byte_record(cells) else {
        return Err(ExportFault::Memory);
    };
    let Ok(text) = writer.into_inner() else {
        return Err(ExportFault::Memory);
    };
    Ok(text)
}

/// The record of a removed entry.
fn removed_row(alloc: Global, entry: &Entry, removal: &Removal) -> Result<Vec<u8>, ExportFault>
    ensures { IfOk result (λ text. text.items ≡ spec.record_text (spec.cells entry.now removal.now)) }
{
    let cells = cells(alloc, entry, removal)?;
    record_text(alloc, &cells)
}

/// The record that the register has of an entry; of one that is held no byte. The error is `Memory`.
#[tactic(auto, unfolding(crate::specs::Register::row))]
pub fn row(alloc: Global, entry: &Entry) -> Result<Vec<u8>, ExportFault>
    ensures { IfOk result (λ text. text.items ≡ spec.row entry.now) }
{
    match entry.removal.as_ref() {
        None => Ok(Vec::new(alloc)),
        Some(removal) => removed_row(alloc, entry, removal),
    }
}
