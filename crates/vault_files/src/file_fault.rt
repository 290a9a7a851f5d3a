//! Why the file of a row isn't taken in.
use crate::disk_folder::path_of;
use crate::opening::is_missing;
use crate::second_look::TakenList;
use crate::shown::{Explanation, Given, explained};
use std::alloc::{AllocError, Global};
use std::fs::{self, Metadata};
use std::io::{self, ErrorKind, Read};
use std::rt::Files;
use unicode_normalization::{to_nfc, to_nfd};
use vault_base::limits::MOST_CONTENT;
use vault_files_intake::file_name::FileName;

fn unread(error: io::Error) -> Explanation<'static> {
    if error.kind() == ErrorKind::PermissionDenied {
        return explained(
            "it isn't yours to read; have its owner let you, and give the same intake again",
        );
    }
    Explanation {
        words: "it can't be read: {}; mend or replace it, and give the same intake again",
        given: Given::Error(error),
    }
}

/// What of a file that is there keeps it from being taken in.
fn kind_fault(metadata: &Metadata) -> Option<Explanation<'static>> {
    let words = match metadata.len() {
        _ if metadata.is_symlink() =>
            "it is a link, and an intake follows none; put the file itself into the folder",
        _ if metadata.is_dir() => "it is a folder; a row names a file",
        _ if !metadata.is_file() =>
            "it is no regular file; put a copy of what it gives into the folder",
        length if length > MOST_CONTENT as u64 =>
            "it has {} bytes, and a version 1048576 at most; cut it into parts",
        _ => return None,
    };
    let given = Given::Count(metadata.len());
    Some(Explanation { words, given })
}

/// Whether there is anything under that name.
fn is_there<R: Files>(taken: &TakenList<'_, R>, name: &str) -> Result<bool, AllocError> {
    let path = std::path::Path::new(taken.folder).join(taken.alloc, name)?;
    Ok(fs::symlink_metadata(taken.files, path.as_str()).is_ok())
}

/// Whether a file has that name in another Unicode form.
fn has_other_form<R: Files>(taken: &TakenList<'_, R>, name: &str) -> Result<bool, AllocError> {
    let composed = to_nfc(taken.alloc, name)?;
    if is_there(taken, composed.as_str())? {
        return Ok(true);
    }
    let decomposed = to_nfd(taken.alloc, name)?;
    is_there(taken, decomposed.as_str())
}

/// Why there is no such file.
fn missing_words<R: Files>(
    taken: &TakenList<'_, R>,
    name: &str,
) -> Result<&'static str, AllocError> {
    match fs::metadata(taken.files, taken.folder) {
        Err(_) => Ok("the folder isn't there; check the path of FOLDER"),
        Ok(metadata) if !metadata.is_dir() => Ok(
            "FOLDER is no folder; give the one that has the files",
        ),
        Ok(_) if has_other_form(taken, name)? => Ok(
            "no such file is in the folder, but one whose name is the same in another Unicode form (NFC, NFD); rename it as the list has it",
        ),
        Ok(_) if name.starts_with(' ') || name.ends_with(' ') => Ok(
            "no such file is in the folder; the name in the list begins or ends with a blank",
        ),
        Ok(_) => Ok("no such file is in the folder; check its name, letter by letter"),
    }
}

/// Why the file of that name isn't taken in; none where nothing that a look shows is against it. The error is want of
/// memory.
pub(crate) fn look<R: Files>(
    taken: &TakenList<'_, R>,
    name: &FileName,
) -> Result<Option<Explanation<'static>>, AllocError> {
    let path = path_of(taken.alloc, taken.folder, name)?;
    match fs::symlink_metadata(taken.files, path.as_str()) {
        Ok(metadata) => Ok(kind_fault(&metadata)),
        Err(error) if is_missing(&error) => Ok(Some(explained(missing_words(
            taken,
            name.as_str(),
        )?))),
        Err(error) => Ok(Some(unread(error))),
    }
}

/// The error of reading a file to its end.
fn read_error<R: Read + Drop>(alloc: Global, reader: R) -> Explanation<'static> {
    let mut bytes = Vec::new(alloc);
    match reader.take(MOST_CONTENT as u64).read_to_end(&mut bytes) {
        Ok(_) => explained("it couldn't be read, and can be by now; give the same intake again"),
        Err(error) => unread(error),
    }
}

/// Why the file of that name couldn't be read. The error is out of memory.
pub(crate) fn read_again<R: Files>(
    taken: &TakenList<'_, R>,
    name: &FileName,
) -> Result<Explanation<'static>, AllocError> {
    if let Some(fault) = look(taken, name)? {
        return Ok(fault);
    }
    let path = path_of(taken.alloc, taken.folder, name)?;
    match fs::open(taken.files, path.as_str()) {
        Ok(file) => Ok(read_error(taken.alloc, file)),
        Err(error) => Ok(unread(error)),
    }
}
