//! What is said of an intake on standard error: a second look at what was refused, after its lines were printed.
use crate::cell_fault::{cell, file_asked};
use crate::command_fault::command_fault;
use crate::file_fault::{look, read_again};
use crate::list_fault::{head_fault, shape_fault};
use crate::shown::{Explanation, Given, Shown};
use csv::ByteRecord;
use std::alloc::{AllocError, Global};
use std::io::{self, Write};
use std::rt::Files;
use std::str;
use vault_base::moment::Moment;
use vault_base::refusal::Refusal;
use vault_core_model::reply::{Answer, Reply, TakenIn};
use vault_files_intake::list::{is_header, records};
use vault_files_intake::report::IntakeReport;

/// How many years ahead the end of a retention may lie without a word about it.
const MOST_YEARS: u16 = 30;

/// An intake that came to its end or stopped: its list, its folder, and its moment.
#[derive(Clone, Copy)]
pub struct TakenList<'a, R> {
    pub alloc: Global,
    pub files: &'a R,
    pub list: &'a [u8],
    pub folder: &'a str,
    pub at: Moment,
}

/// Why a row was refused: for the first of its cells that is at fault, for its file, or for its command.
fn refused<'a, R: Files>(
    taken: &TakenList<'_, R>,
    cells: &'a ByteRecord,
    refusal: Refusal,
) -> Result<Explanation<'a>, AllocError> {
    let name = match file_asked(taken.alloc, cells)? {
        Ok(name) => name,
        Err(fault) => return Ok(fault),
    };
    if matches!(refusal, Refusal::InvalidArgument | Refusal::EntityTooLarge) {
        if let Some(fault) = look(taken, &name)? {
            return Ok(fault);
        }
    }
    Ok(command_fault(refusal))
}

/// The end of a row's retention, where it has one.
fn end_of(cells: &ByteRecord) -> Option<Moment> {
    let text = str::from_utf8(cell(cells, 3)).ok()?;
    Moment::read(text).ok()
}

/// What is said of a row that was admitted at a moment, where its retention ends late.
fn late(cells: &ByteRecord, at: Moment) -> Option<Explanation<'_>> {
    let (end, latest) = (end_of(cells)?, at.plus_years(MOST_YEARS)?);
    if end <= latest {
        return None;
    }
    Some(Explanation {
        words: "`until` is {}, more than 30 years ahead; it was taken in as asked",
        given: Given::Bytes(cell(cells, 3)),
    })
}

/// What is said of a row that was answered so.
fn row_words<'a, R: Files>(
    taken: &TakenList<'_, R>,
    cells: &'a ByteRecord,
    reply: &Reply,
) -> Result<Option<Explanation<'a>>, AllocError> {
    match reply {
        Reply::Refused(refusal) => Ok(Some(refused(taken, cells, *refusal)?)),
        Reply::Done(Answer::TakenIn(TakenIn { again: false, .. })) => Ok(late(cells, taken.at)),
        _ => Ok(None),
    }
}

/// Writes what is said of a row, with the file that it names.
fn write_row<E: Write>(
    err: &mut E,
    line: usize,
    cells: &ByteRecord,
    said: Explanation<'_>,
) -> io::Result<()> {
    let name = cell(cells, 0);
    if name.is_empty() {
        return writeln!(err, "row {line}: {said}");
    }
    let file = Shown(name);
    writeln!(err, "row {line}: {file}: {said}")
}

/// Says which record stopped the intake by its shape: the first, or the one after the rows.
fn explain_shape<E: Write>(
    list: &[u8],
    line: usize,
    records: &[ByteRecord],
    err: &mut E,
) -> io::Result<()> {
    if !records.first().is_some_and(is_header) {
        let fault = head_fault(list);
        return writeln!(err, "list: {fault}");
    }
    match records.get(line) {
        Some(cells) => {
            let fault = shape_fault(cells);
            writeln!(err, "row {line}: {fault}")
        }
        None => Ok(()),
    }
}

/// Says which file the folder couldn't read, and why.
fn explain_unread<R: Files, E: Write>(
    taken: &TakenList<'_, R>,
    line: usize,
    records: &[ByteRecord],
    err: &mut E,
) -> io::Result<()> {
    let Some(cells) = records.get(line) else {
        return Ok(());
    };
    match file_asked(taken.alloc, cells)? {
        Ok(name) => write_row(err, line, cells, read_again(taken, &name)?),
        Err(_) => Ok(()),
    }
}

/// Says of each row what there is to say, and of the one after them where it stopped the intake.
fn explain_rows<R: Files, E: Write>(
    taken: &TakenList<'_, R>,
    report: &IntakeReport,
    records: &[ByteRecord],
    has_folder_failed: bool,
    err: &mut E,
) -> io::Result<()> {
    for (row, cells) in report.rows.iter().zip(records.iter().skip(1)) {
        if let Some(said) = row_words(taken, cells, &row.reply)? {
            write_row(err, row.line as usize, cells, said)?;
        }
    }
    let line = report.rows.len() + 1;
    if report.stopped == Some(Refusal::MalformedBody) {
        return explain_shape(taken.list, line, records, err);
    }
    if has_folder_failed {
        return explain_unread(taken, line, records, err);
    }
    Ok(())
}

/// Says what came of an intake.
fn explain_all<R: Files, E: Write>(
    taken: &TakenList<'_, R>,
    report: &IntakeReport,
    has_folder_failed: bool,
    err: &mut E,
) -> io::Result<()> {
    if report.stopped != Some(Refusal::EntityTooLarge) {
        let records = records(taken.alloc, taken.list)?;
        explain_rows(taken, report, records.as_slice(), has_folder_failed, err)?;
    }
    let words = match report.stopped {
        Some(Refusal::EntityTooLarge) =>
            "list: it has more than 16777216 bytes; cut it into lists, each with a batch of its own\n",
        Some(Refusal::Memory) => "intake: memory ran out; given again, the same intake goes on\n",
        Some(Refusal::Device) if !has_folder_failed =>
            "intake: the vault's file failed; given again, the same intake goes on\n",
        _ => "",
    };
    err.write_all(words.as_bytes())
}

/// Says on `err` what came of an intake beside its lines: a line for each row that was refused, with its file and the
/// cause, and for each that was admitted for more than thirty years; and at last what stopped the intake. Whether the
/// folder failed is what distinguishes a file that can't be read from the vault's.
///
/// It looks at the list and at the files of refused rows again, and reads a file again only where one couldn't be read.
/// Where a line can't be written, or room for one is refused, nothing more is written.
pub fn explain<R: Files, E: Write>(
    taken: &TakenList<'_, R>,
    report: &IntakeReport,
    has_folder_failed: bool,
    err: &mut E,
) {
    let _ = explain_all(taken, report, has_folder_failed, err);
}
