//! What a record asks for.
ghost use Rattle.std.specs.Prelude.{◌≡◌, option_map};
ghost use Rattle.csv.specs.Records.{fields_of};
ghost use Rattle.vault_values.specs.Fault.{Gives};
ghost use Rattle.vault_files_intake.specs.Row as spec;

use crate::file_name::{self, FileName};
use csv::ByteRecord;
use std::alloc::Global;
use vault_base::name::ObjectKey;
use vault_base::refusal::Refusal;
use vault_lock::retention::Retention;
use vault_values::fault::LineFault;
use vault_values::locks::{both_or_none, is_on};
use vault_values::named::key_named;

/// A file to be taken in: under which key, and with which retention and hold.
#[derive(Drop)]
pub struct Row {
    pub file: FileName,
    pub key: ObjectKey,
    pub retention: Option<Retention>,
    /// ON, OFF or not given.
    pub hold: Option<bool>,
}

/// The cell at a place of a record; after the last cell it is empty.
pub(crate) fn cell(cells: &ByteRecord, place: usize) -> &[u8]
    ensures { result.now ≡ spec.cell_at place (fields_of cells.now) }
{
    match cells.get(place) {
        Some(cell) => cell,
        None => &[],
    }
}

fn text(cell: &[u8]) -> Result<&str, LineFault>
    ensures { Gives (λ t. t.now) result (spec.text_named cell.now) }
{
    match file_name::text(cell) {
        Some(text) => Ok(text),
        None => Err(LineFault::Refused(Refusal::InvalidArgument)),
    }
}

#[tactic(auto, unfolding(crate::specs::Row::optional_text_named))]
fn optional_text(cell: &[u8]) -> Result<Option<&str>, LineFault>
    ensures { Gives (λ o. option_map (λ t. t.now) o) result (spec.optional_text_named cell.now) }
{
    if cell.is_empty() {
        return Ok(None);
    }
    Ok(Some(text(cell)?))
}

#[tactic(auto, unfolding(crate::specs::Row::file_of))]
fn file(alloc: Global, cell: &[u8]) -> Result<FileName, LineFault>
    ensures { Gives (λ x. x) result (spec.file_of cell.now) }
{
    let text = text(cell)?;
    match FileName::read(alloc, text)? {
        Ok(file) => Ok(file),
        Err(_) => Err(LineFault::Refused(Refusal::InvalidArgument)),
    }
}

#[tactic(auto, unfolding(crate::specs::Row::key_of))]
fn key(alloc: Global, cell: &[u8]) -> Result<ObjectKey, LineFault>
    ensures { Gives (λ x. x) result (spec.key_of cell.now) }
{
    let text = text(cell)?;
    key_named(alloc, text)
}

#[tactic(auto, unfolding(crate::specs::Row::retention_of))]
fn retention(mode: &[u8], until: &[u8]) -> Result<Option<Retention>, LineFault>
    ensures { Gives (λ x. x) result (spec.retention_of mode.now until.now) }
{
    let mode = optional_text(mode)?;
    let until = optional_text(until)?;
    both_or_none(mode, until)
}

#[tactic(auto, unfolding(crate::specs::Row::hold_of))]
fn hold(cell: &[u8]) -> Result<Option<bool>, LineFault>
    ensures { Gives (λ x. x) result (spec.hold_of cell.now) }
{
    let Some(text) = optional_text(cell)? else {
        return Ok(None);
    };
    Ok(Some(is_on(text)?))
}

/// What a record asks for by its cells: file, key, mode, until and hold, of which the last three are left
/// out where they are empty.
///
/// The first fault in the order of the cells is the refusal: `KeyTooLongError` for a long key,
/// `RetentionOutOfRange` for a moment outside 1970 to 9999, and else `InvalidArgument`, also for bytes that
/// aren't UTF-8 and for one of mode and until without the other.
#[tactic(auto, unfolding(crate::specs::Row::row_of))]
pub fn read_row(alloc: Global, cells: &ByteRecord) -> Result<Row, LineFault>
    ensures { Gives (λ x. x) result (spec.row_of (fields_of cells.now)) }
{
    let file = file(alloc, cell(cells, 0))?;
    let key = key(alloc, cell(cells, 1))?;
    let retention = retention(cell(cells, 2), cell(cells, 3))?;
    let hold = hold(cell(cells, 4))?;
    Ok(Row {
        file,
        key,
        retention,
        hold,
    })
}
