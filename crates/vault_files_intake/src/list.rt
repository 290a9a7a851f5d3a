//! The records of a list.
ghost use Rattle.std.specs.Prelude.{◌≡◌, IfOk, map};
ghost use Rattle.csv.specs.Records.{fields_of};
ghost use Rattle.std.specs.Str.{bytes_eq};
ghost use Rattle.vault_files_intake.specs.List as spec;
ghost use Rattle.vault_files_intake.specs.Row.{cell_at};

use crate::row::cell;
use csv::{ByteRecord, ReaderBuilder};
use std::alloc::{AllocError, Global};

/// The bytes that a list has at most.
pub const MOST_LIST: usize = 16_777_216;

/// The records of a list: CSV (RFC 4180), after a byte order mark if there is one. Records may differ in
/// length; blank lines are none. The error is out of memory.
pub fn records(alloc: Global, list: &[u8]) -> Result<Vec<ByteRecord>, AllocError>
    ensures { IfOk result (λ records. spec.AreRecordsOf list.now (map fields_of records.items)) }
{
    let reader = ReaderBuilder::new()
        .has_headers(false)
        .flexible(true)
        .from_reader(alloc, list);
    let mut records = Vec::new(alloc);
    for record in reader.into_byte_records() {
        let Ok(record) = record else {
            return Err(AllocError);
        };
        records.push(record)?;
    }
    Ok(records)
}

fn is_cell(cells: &ByteRecord, place: usize, word: &[u8]) -> bool
    ensures { result ≡ bytes_eq (cell_at place (fields_of cells.now)) word.now }
{
    cell(cells, place) == word
}

/// Whether a record is the first one of a list: file, key, mode, until, hold.
#[tactic(auto, unfolding(crate::specs::List::is_header))]
pub fn is_header(cells: &ByteRecord) -> bool
    ensures { result ≡ spec.is_header (fields_of cells.now) }
{
    cells.len() == 5
        && is_cell(cells, 0, b"file")
        && is_cell(cells, 1, b"key")
        && is_cell(cells, 2, b"mode")
        && is_cell(cells, 3, b"until")
        && is_cell(cells, 4, b"hold")
}
