//! The files of a vault by their names, as they were when they were opened.
ghost use Rattle.std.specs.Prelude.{◌≡◌, ◌≢◌, ◌↔◌, IsTrue, IfOk, OnErr, false};
ghost use Rattle.std.specs.IoError.{error_kind};

use crate::watch::Watch;
use std::fs;
use std::io::{self, ErrorKind, Write};
use std::os::unix::fs::MetadataExt;
use vault_base::refusal::Refusal;

/// Which file a name means: two files of one moment differ in these numbers.
#[derive(Clone, Copy, PartialEq, Eq)]
struct FileId {
    device: u64,
    number: u64,
}

/// The file that stands at a name. A link isn't followed: the files lie where links led when they were opened.
fn id_at(rt: &HostRuntime, path: &str) -> io::Result<FileId> {
    let found = fs::symlink_metadata(rt, path)?;
    Ok(FileId {
        device: found.dev(),
        number: found.ino(),
    })
}

/// Whether a look at a name found that file.
fn is_same(found: io::Result<FileId>, id: FileId) -> bool
    ensures there { IfOk found (λ it. IsTrue result ↔ (it ≡ id)) }
    ensures gone { OnErr found (result ≡ false) }
{
    match found {
        Ok(found) => found == id,
        Err(_) => false,
    }
}

/// A name, and the file that stood there.
#[derive(Drop)]
struct NamedFile {
    path: String,
    id: FileId,
}

impl NamedFile {
    /// The file that stands at a name. The error is that none can be seen there.
    fn at(rt: &HostRuntime, path: String) -> io::Result<NamedFile> {
        let id = id_at(rt, path.as_str())?;
        Ok(NamedFile { path, id })
    }

    /// Whether the same file stands there.
    fn is_in_place(&self, rt: &HostRuntime) -> bool {
        is_same(id_at(rt, self.path.as_str()), self.id)
    }
}

/// The two files of a vault, by their names without links.
#[derive(Drop)]
pub struct OpenedFiles<'a> {
    rt: &'a HostRuntime,
    file: NamedFile,
    log: NamedFile,
}

/// The file at a path and its log.
fn files_at<'a>(rt: &'a HostRuntime, path: &str) -> io::Result<OpenedFiles<'a>> {
    let real = fs::canonicalize(rt, path)?;
    let log = format!(in rt.alloc(); "{}-wal", real.as_str())?;
    let file = format!(in rt.alloc(); "{}", real.as_str())?;
    Ok(OpenedFiles {
        rt,
        file: NamedFile::at(rt, file)?,
        log: NamedFile::at(rt, log)?,
    })
}

/// What it is reported as that one can't see the files.
fn unseen(error: io::Error) -> Refusal
    ensures memory { (result ≡ Refusal.Memory) ↔ (error_kind error ≡ ErrorKind.OutOfMemory) }
    ensures other { error_kind error ≢ ErrorKind.OutOfMemory → result ≡ Refusal.Device }
{
    if error.kind() == ErrorKind::OutOfMemory {
        return Refusal::Memory;
    }
    Refusal::Device
}

impl<'a> OpenedFiles<'a> {
    /// The files at a path, where a vault was opened just now.
    ///
    /// `Memory` where memory was refused, and `Device` where one can't see them.
    pub fn at(rt: &'a HostRuntime, path: &str) -> Result<OpenedFiles<'a>, Refusal> {
        match files_at(rt, path) {
            Ok(files) => Ok(files),
            Err(error) => Err(unseen(error)),
        }
    }
}

impl Watch for OpenedFiles<'_> {
    ghost saw = { λ _ _. Unit {0} };

    ghost warned = { λ _. Unit {0} };

    fn are_in_place(&self) -> bool {
        self.file.is_in_place(self.rt) && self.log.is_in_place(self.rt)
    }

    /// Writes a line on standard error; one that can't be written is lost.
    fn report(&self) {
        let mut err = self.rt.stderr();
        let _ = writeln!(
            err,
            "the vault's file or its log isn't where it was opened: it was moved, removed or replaced, and no more changes are made"
        );
    }
}
