//! Why a list isn't taken in, or a record of it.
use crate::shown::{Explanation, Given};
use csv::ByteRecord;
use std::str;

/// The first record of a list.
const HEAD: &[u8] = b"file,key,mode,until,hold";

/// A UTF-8 byte order mark.
const MARK: &[u8] = b"\xEF\xBB\xBF";

fn is_line_end(byte: u8) -> bool {
    byte == b'\n' || byte == b'\r'
}

/// A list without the byte order mark and the line ends that it begins with.
fn without_mark(list: &[u8]) -> &[u8] {
    let text = list.strip_prefix(MARK).unwrap_or(list);
    match text.iter().position(|byte| !is_line_end(*byte)) {
        Some(start) => text.get(start..).unwrap_or(text),
        None => &[],
    }
}

/// The first line of a list that has letters.
fn first_line(list: &[u8]) -> &[u8] {
    let text = without_mark(list);
    match text.iter().position(|byte| is_line_end(*byte)) {
        Some(end) => text.get(..end).unwrap_or(text),
        None => text,
    }
}

/// Whether a text is UTF-16, by its byte order mark or by the NUL that each letter of English has there.
fn is_utf16(list: &[u8]) -> bool {
    list.starts_with(b"\xFF\xFE")
        || list.starts_with(b"\xFE\xFF")
        || matches!(list, [0, _, ..] | [_, 0, ..])
}

/// Whether a line is the first record but for blanks and the letters' case.
fn is_head_misspelt(line: &[u8]) -> bool {
    let mut wanted = HEAD.iter();
    for byte in line {
        if *byte == b' ' || *byte == b'"' {
            continue;
        }
        if wanted.next().copied() != Some(byte.to_ascii_lowercase()) {
            return false;
        }
    }
    wanted.next().is_none()
}

/// Whether a line begins with a word for files in German.
fn is_german(line: &[u8]) -> bool {
    match line.get(..5) {
        Some(word) => word.eq_ignore_ascii_case(b"datei"),
        None => false,
    }
}

fn head_words(list: &[u8], line: &[u8]) -> &'static str {
    match str::from_utf8(line) {
        _ if is_utf16(list) => "it is UTF-16; save it as CSV in UTF-8",
        Ok("") => "it is empty; its first record has to be file,key,mode,until,hold",
        Err(_) =>
            "its first record isn't UTF-8 but `{}`; save it as CSV in UTF-8, with the first record file,key,mode,until,hold",
        _ if line.contains(&b';') =>
            "its cells are separated by semicolons; they have to be by commas, and the first record file,key,mode,until,hold, not `{}`",
        _ if line.contains(&b'\t') =>
            "its cells are separated by tabs; they have to be by commas, and the first record file,key,mode,until,hold, not `{}`",
        _ if is_german(line) =>
            "its first record is `{}`; it has to be file,key,mode,until,hold, in English whatever the language of the office",
        _ if is_head_misspelt(line) =>
            "its first record is `{}`; it has to be file,key,mode,until,hold, in small letters and without blanks or quotes inside",
        _ => "its first record is `{}`; it has to be file,key,mode,until,hold",
    }
}

/// What is wrong with the first record of a list.
pub(crate) fn head_fault(list: &[u8]) -> Explanation<'_> {
    let line = first_line(list);
    let words = head_words(list, line);
    let given = Given::Bytes(line);
    Explanation { words, given }
}

fn has_byte(cells: &ByteRecord, wanted: u8) -> bool {
    cells.iter().any(|cell| cell.contains(&wanted))
}

/// What is wrong with a record that hasn't five cells.
pub(crate) fn shape_fault(cells: &ByteRecord) -> Explanation<'static> {
    let words = match cells.len() {
        _ if has_byte(cells, b'\n') =>
            "a cell of it goes over several lines; a quote may be missing",
        6.. => "it has {} cells in place of 5; a cell with a comma stands in quotes",
        _ if has_byte(cells, b';') =>
            "its cells are separated by semicolons; they have to be by commas",
        _ => "it has {} cells in place of 5; empty cells keep their commas, as in a.txt,2024/a,,,",
    };
    let given = Given::Count(cells.len() as u64);
    Explanation { words, given }
}
