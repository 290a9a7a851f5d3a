//! Which cell of a row is at fault, and why.
ghost use Rattle.std.specs.Prelude.{◌↔◌, IfOk, IsOk};
ghost use Rattle.csv.specs.Records.{fields_of};
ghost use Rattle.vault_files_intake.specs.Row.{row_of};

use crate::shown::{Explanation, Given, explained};
use csv::ByteRecord;
use std::alloc::{AllocError, Global};
use std::str;
use vault_base::moment::{Moment, MomentFault};
use vault_files_intake::file_name::FileName;
use vault_files_intake::row::{Row, read_row};
use vault_values::fault::LineFault;
use vault_values::words::{hold_named, mode_named};

/// The bytes that a key has at most.
const MOST_KEY: usize = 1_024;

/// The bytes that a file's name has at most.
const MOST_NAME: usize = 255;

/// What is said of a cell that isn't UTF-8, by its place.
const NOT_TEXT: [&str; 5] = [
    "the file's name isn't UTF-8 but `{}`; save the list as CSV in UTF-8",
    "the key isn't UTF-8 but `{}`; save the list as CSV in UTF-8",
    "the mode isn't UTF-8 but `{}`; save the list as CSV in UTF-8",
    "`until` isn't UTF-8 but `{}`; save the list as CSV in UTF-8",
    "hold isn't UTF-8 but `{}`; save the list as CSV in UTF-8",
];

/// The cell at a place of a record; after the last cell it is empty.
pub(crate) fn cell(cells: &ByteRecord, place: usize) -> &[u8] {
    match cells.get(place) {
        Some(cell) => cell,
        None => &[],
    }
}

fn name_words(text: &str) -> &'static str {
    let bytes = text.as_bytes();
    match text {
        "" => "the row names no file",
        _ if bytes.len() > MOST_NAME => "the file's name has {n} bytes; 255 are allowed",
        _ if text == "." || text == ".." || bytes.contains(&b'/') || bytes.contains(&0) =>
            "a row names a file of the folder itself, by a name without `/` and NUL",
        _ => "",
    }
}

fn key_words(text: &str) -> &'static str {
    match text.as_bytes() {
        [] => "the key is empty",
        bytes if bytes.len() > MOST_KEY => "the key has {n} bytes; 1024 are allowed",
        bytes if bytes.iter().any(|byte| *byte < 0x20 || *byte == 0x7F) =>
            "the key `{}` has a control character",
        _ => "",
    }
}

/// What is wrong with a mode, beside an `until`; nothing beside one that isn't UTF-8.
fn mode_words(mode: &str, until: &[u8]) -> &'static str {
    match str::from_utf8(until) {
        Err(_) => "",
        Ok("") if mode.is_empty() => "",
        Ok("") => "a mode is given without `until`; give both or neither",
        Ok(_) if mode.is_empty() => "`until` is given without a mode; give both or neither",
        Ok(_) if mode_named(mode).is_none() =>
            "the mode is `{}`; it has to be GOVERNANCE or COMPLIANCE, in capitals, or empty",
        Ok(_) => "",
    }
}

fn until_words(text: &str) -> &'static str {
    match Moment::read(text) {
        Err(MomentFault::Form) if !text.is_empty() =>
            "`until` is `{}`; it has to be a moment as 2030-01-01T00:00:00Z",
        Err(MomentFault::Range) => "`until` is `{}`; it has to lie in the years 1970 to 9999",
        _ => "",
    }
}

fn hold_words(text: &str) -> &'static str {
    if text.is_empty() || hold_named(text).is_some() {
        ""
    } else {
        "hold is `{}`; it has to be ON or OFF, in capitals, or empty"
    }
}

/// What is wrong with the cell at a place, with its bytes in place of `{}`; the empty text where nothing is.
fn words_of(cells: &ByteRecord, place: usize, not_text: &'static str) -> &'static str {
    let Ok(text) = str::from_utf8(cell(cells, place)) else {
        return not_text;
    };
    match place {
        0 => name_words(text),
        1 => key_words(text),
        2 => mode_words(text, cell(cells, 3)),
        3 => until_words(text),
        _ => hold_words(text),
    }
}

/// The fault of cells that were refused: the first one, in their order.
fn fault_in(cells: &ByteRecord) -> Explanation<'_> {
    for (place, not_text) in NOT_TEXT.iter().enumerate() {
        let words = words_of(cells, place, not_text);
        if !words.is_empty() {
            let given = Given::Bytes(cell(cells, place));
            return Explanation { words, given };
        }
    }
    explained("one of the cells isn't as its column has to be")
}

/// The file of a row, of which nothing else is wanted.
fn file_of(row: Row) -> FileName {
    let Row { file, .. } = row;
    file
}

/// The file that a record asks for, or why its cells ask for nothing. The error is out of memory.
pub(crate) fn file_asked<'a>(
    alloc: Global,
    cells: &'a ByteRecord,
) -> Result<Result<FileName, Explanation<'a>>, AllocError>
    // A fault is named just where the cells are refused.
    ensures { IfOk result (λ asked. IsOk asked ↔ IsOk (row_of (fields_of cells.now))) }
{
    match read_row(alloc, cells) {
        Ok(row) => Ok(Ok(file_of(row))),
        Err(LineFault::Refused(_)) => Ok(Err(fault_in(cells))),
        Err(LineFault::Memory) => Err(AllocError),
    }
}
