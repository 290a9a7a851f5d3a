//! Files opened by their path.
ghost use Rattle.std.specs.Prelude.{◌≡◌, ◌≢◌, ◌⊎◌, ◌↔◌, IsSome, IsTrue, IfErr, OnErr, OnOk};
ghost use Rattle.std.specs.Fs.{file_type, IsFile};
ghost use Rattle.std.specs.IoError.{error_kind};

use crate::reading::fault_of;
use std::fs::{self, Metadata, OpenFile};
use std::io::{self, ErrorKind};
use std::os::unix::fs::MetadataExt;
use std::rt::Files;
use vault_core_model::halt::Fault;

/// Whether an error says that there is no such file.
pub(crate) fn is_missing(error: &io::Error) -> bool
    ensures { IsTrue result ↔ ((error_kind error.now ≡ ErrorKind.NotFound) ⊎ (error_kind error.now ≡ ErrorKind.NotADirectory)) }
{
    error.kind() == ErrorKind::NotFound || error.kind() == ErrorKind::NotADirectory
}

/// Nothing where an error says that there is no such file; any other is a fault.
fn missing_or_fault(error: &io::Error) -> Result<(), Fault>
    ensures missing { OnOk result ((error_kind error.now ≡ ErrorKind.NotFound) ⊎ (error_kind error.now ≡ ErrorKind.NotADirectory)) }
    ensures there { OnErr result ((error_kind error.now ≢ ErrorKind.NotFound) × (error_kind error.now ≢ ErrorKind.NotADirectory)) }
    ensures fault { IfErr result (λ fault. (fault ≡ Fault.Memory) ↔ (error_kind error.now ≡ ErrorKind.OutOfMemory)) }
{
    if is_missing(error) {
        Ok(())
    } else {
        Err(fault_of(error))
    }
}

/// A file of a disk: its device and its number there.
#[derive(Clone, Copy, PartialEq, Eq)]
struct Node {
    device: u64,
    number: u64,
}

/// The regular file that was looked at; none where something else was, as a link or a folder.
fn regular_file(metadata: &Metadata) -> Option<Node>
    ensures { IsSome result ↔ IsFile (file_type metadata.now) }
{
    if !metadata.is_file() {
        return None;
    }
    Some(Node {
        device: metadata.dev(),
        number: metadata.ino(),
    })
}

/// The regular file at a path itself; a link isn't one.
fn file_at<R: Files>(files: &R, path: &str) -> Result<Option<Node>, Fault> {
    match fs::symlink_metadata(files, path) {
        Ok(metadata) => Ok(regular_file(&metadata)),
        Err(error) => {
            missing_or_fault(&error)?;
            Ok(None)
        }
    }
}

/// Whether the file that was opened is the one that was looked at.
fn is_opened<F: OpenFile>(file: &F, looked_at: Node) -> Result<bool, Fault> {
    match file.metadata() {
        Ok(metadata) => Ok(regular_file(&metadata) == Some(looked_at)),
        Err(error) => Err(fault_of(&error)),
    }
}

/// The file there, opened for reading, also where a link leads to it; none where there is no such file.
pub(crate) fn opened<R: Files>(files: &R, path: &str) -> Result<Option<R::File>, Fault> {
    match fs::open(files, path) {
        Ok(file) => Ok(Some(file)),
        Err(error) => {
            missing_or_fault(&error)?;
            Ok(None)
        }
    }
}

/// The regular file at that path itself, opened for reading; none where anything else stands there, or nothing.
///
/// What was looked at is what is read: a file that another program put there between the look and the opening is none.
pub(crate) fn opened_itself<R: Files>(files: &R, path: &str) -> Result<Option<R::File>, Fault> {
    let Some(looked_at) = file_at(files, path)? else {
        return Ok(None);
    };
    let Some(file) = opened(files, path)? else {
        return Ok(None);
    };
    if is_opened(&file, looked_at)? {
        Ok(Some(file))
    } else {
        Ok(None)
    }
}
