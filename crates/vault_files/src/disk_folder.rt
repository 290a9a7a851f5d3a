//! A folder of the file system.
ghost use Rattle.std.specs.Prelude.{◌≡◌, IfOk};
ghost use Rattle.std.specs.Path.{path_buf_bytes, path_join};

use crate::opening::opened_itself;
use crate::reading::read_at_most;
use std::alloc::{AllocError, Global};
use std::path::{Path, PathBuf};
use std::rt::Files;
use vault_base::limits::MOST_CONTENT;
use vault_core_model::halt::Fault;
use vault_files_intake::file_name::FileName;
use vault_files_intake::folder::Folder;

/// One byte more than a version may have.
const MOST_READ: u64 = MOST_CONTENT as u64 + 1;

/// The path of a file of a folder. The error is out of memory.
pub(crate) fn path_of(alloc: Global, folder: &str, name: &FileName) -> Result<PathBuf, AllocError>
    ensures { IfOk result (λ path. path_buf_bytes path ≡ path_join folder.now name.now) }
{
    Path::new(folder).join(alloc, name.as_str())
}

/// The bytes of a regular file, of a large one `MOST_READ`; none where no such file is there.
fn bytes_of<R: Files>(alloc: Global, files: &R, path: &str) -> Result<Option<Vec<u8>>, Fault> {
    match opened_itself(files, path)? {
        Some(file) => Ok(Some(read_at_most(alloc, file, MOST_READ)?)),
        None => Ok(None),
    }
}

/// The bytes of the file of that name in a folder.
fn read_file<R: Files>(
    alloc: Global,
    files: &R,
    folder: &str,
    name: &FileName,
) -> Result<Option<Vec<u8>>, Fault> {
    let path = path_of(alloc, folder, name)?;
    bytes_of(alloc, files, path.as_str())
}

/// A folder of the file system.
///
/// A file that is larger than a version may be is read up to one byte more than that, so that its row is
/// refused as too large. What isn't a regular file of the folder itself is no file of it: a link, whatever it
/// leads to, a folder, a FIFO, a device. The path of the folder may lead through links. `Device` comes where a file
/// is there and can't be read, and each time one more failure is counted. What a disk holds no contract can say.
#[derive(Drop)]
pub struct DiskFolder<'f, R> {
    alloc: Global,
    files: &'f R,
    path: &'f str,
    failures: u64,
}

impl<'f, R: Files> DiskFolder<'f, R> {
    ghost use Rattle.std.specs.Prelude.{◌≡◌};

    /// The folder at a path, of which nothing was read.
    pub fn new(alloc: Global, files: &'f R, path: &'f str) -> DiskFolder<'f, R>
        ensures path { result.path.now ≡ path.now }
        ensures failures { result.failures ≡ 0 }
    {
        DiskFolder {
            alloc,
            files,
            path,
            failures: 0,
        }
    }
}

impl<R: Files> Folder for DiskFolder<'_, R> {
    ghost use Rattle.std.specs.Prelude.{None};

    ghost files = { λ _. None };

    ghost count = { λ f. f.failures };

    fn faults(&self) -> u64 {
        self.failures
    }

    fn read(&mut self, name: &FileName) -> Result<Option<Vec<u8>>, Fault> {
        match read_file(self.alloc, self.files, self.path, name) {
            Ok(found) => Ok(found),
            Err(Fault::Memory) => Err(Fault::Memory),
            Err(Fault::Device) => {
                self.failures = self.failures.saturating_add(1);
                Err(Fault::Device)
            }
        }
    }
}
