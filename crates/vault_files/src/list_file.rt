//! The list of an intake, read from a file.
use crate::opening::{is_missing, opened};
use crate::reading::read_at_most;
use crate::shown::{Explanation, Given, Shown, explained};
use std::alloc::Global;
use std::fs;
use std::io::{self, ErrorKind, Write};
use std::rt::Files;
use vault_core_model::halt::Fault;
use vault_files_intake::list::MOST_LIST;

/// One byte more than a list may have.
const MOST_READ: u64 = MOST_LIST as u64 + 1;

/// The bytes of the list at a path; of one that is too long, one byte more than a list may have, so that an
/// intake of them is refused as too long.
///
/// `Device` comes where it isn't there or can't be read, `Memory` where room for it was refused.
pub fn read_list<R: Files>(alloc: Global, files: &R, path: &str) -> Result<Vec<u8>, Fault> {
    match opened(files, path)? {
        Some(file) => read_at_most(alloc, file, MOST_READ),
        None => Err(Fault::Device),
    }
}

fn unread(error: io::Error) -> Explanation<'static> {
    let words = match error.kind() {
        _ if is_missing(&error) => "it isn't there; check the path of LIST",
        ErrorKind::PermissionDenied =>
            "it isn't yours to read; have its owner let you, or give a copy",
        _ => "it can't be read: {}; check the disk, or give a copy",
    };
    let given = Given::Error(error);
    Explanation { words, given }
}

/// Whether a file stands there that is no folder.
fn is_file<R: Files>(files: &R, path: &str) -> bool {
    match fs::metadata(files, path) {
        Ok(metadata) => metadata.is_file(),
        Err(_) => false,
    }
}

/// Why a list couldn't be read, as a second look shows it.
fn unread_list<R: Files>(files: &R, list: &str, folder: &str) -> Explanation<'static> {
    match fs::metadata(files, list) {
        Ok(metadata) if metadata.is_dir() && is_file(files, folder) => {
            explained("it is a folder, and FOLDER is a file; the list is given before the folder")
        }
        Ok(metadata) if metadata.is_dir() => explained("it is a folder; a list is a file"),
        Ok(_) => match fs::open(files, list) {
            Ok(_) => explained(
                "it couldn't be read, and can be by now; give the same intake again",
            ),
            Err(error) => unread(error),
        },
        Err(error) => unread(error),
    }
}

/// Says on `err` why the list at a path couldn't be read. Where the line can't be written, nothing is said.
pub fn explain_unread_list<R: Files, E: Write>(files: &R, list: &str, folder: &str, err: &mut E) {
    let fault = unread_list(files, list, folder);
    let path = Shown(list.as_bytes());
    let _ = writeln!(err, "list: {path}: {fault}");
}
