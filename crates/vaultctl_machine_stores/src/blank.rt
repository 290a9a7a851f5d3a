//! An empty database in files that hold none.
ghost use Rattle.std.specs.Prelude.{◌≡◌, ◌^◌, ◌<◌, ℕ, [], IsTrue, IfOk, IfErr};
ghost use Rattle.sqlite.specs.Files.{file_state, IsOpened, IsEmpty};
ghost use Rattle.sqlite.specs.State.{HasCleanDisk};
ghost use Rattle.sqlite.specs.Steps.{IsFresh};
ghost use Rattle.sqlite_store.specs.FileStore.{view};
ghost use Rattle.sqlite_store.specs.Unopened.{files_of, wanted_by};
ghost use Rattle.sqlite_trees.specs.View.{IsClean};
ghost use Rattle.vaultctl_machine_stores.specs.Openings as spec;

use sqlite::{Connection, Error, ErrorCode, FileStore, Leftover, Options};
use sqlite_disk::{Disk, Files};
use sqlite_pager::Pager;
use sqlite_store::{OpenError, Unopened};
use sqlite_wal::PageSize;
use std::alloc::{AllocFailed, Global};

const NO_MEMORY: Error = Error::SqliteFailure(ErrorCode::OutOfMemory);

const IO: Error = Error::SqliteFailure(ErrorCode::SystemIoFailure);

/// What a failure to make the first page is reported as. Files that hold something aren't written over.
fn unmade(error: OpenError) -> Error
    ensures { result ≡ spec.unmade_of error }
{
    Error::SqliteFailure(match error {
        OpenError::OutOfMemory => ErrorCode::OutOfMemory,
        OpenError::Io => ErrorCode::SystemIoFailure,
        OpenError::Full => ErrorCode::DiskFull,
        OpenError::Refused => ErrorCode::NotADatabase,
    })
}

/// What a failure to read the first page that was just written is reported as.
fn unread(error: Error) -> Error
    ensures { result ≡ spec.unread_of error }
{
    match error {
        Error::SqliteFailure(ErrorCode::OutOfMemory) => NO_MEMORY,
        _ => IO,
    }
}

/// Two files, with pages of a size, of which nothing is known yet.
fn unopened<D: Disk>(
    alloc: Global,
    files: Files<D>,
    size: PageSize,
    options: Options,
) -> Result<Unopened<D>, Files<D>>
    ensures files { IfOk result (λ it. files_of it ≡ (files.log, files.db)) }
    ensures none { IfOk result (λ it. wanted_by it ≡ []) }
{
    let pager = match Pager::new(alloc, files, size, options) {
        Ok(pager) => pager,
        Err(AllocFailed { value }) => return Err(value),
    };
    match Unopened::new(alloc, pager, &[]) {
        Ok(it) => Ok(it),
        Err(AllocFailed { value }) => Err(value.close()),
    }
}

/// A store with no table in files that hold none, with pages of a size.
fn blank_store<D: Disk>(
    alloc: Global,
    files: Files<D>,
    size: PageSize,
    options: Options,
) -> Result<FileStore<D>, (Error, Leftover<D>)>
    requires log { IsTrue (D.Disk.is_usable files.log) }
    requires db { IsTrue (D.Disk.is_usable files.db) }
    ensures fresh { IfOk result (λ store. IsClean (view store) → IsFresh (view store)) }
    ensures empty { IfOk result (λ store. IsClean (view store) → (tree : ℕ) → tree < 2 ^ 32 → (view store).trees tree ≡ []) }
{
    let it = match unopened(alloc, files, size, options) {
        Ok(it) => it,
        Err(files) => return Err((NO_MEMORY, Leftover::Files(files))),
    };
    match it.create() {
        Ok(store) => Ok(store),
        Err((error, left)) => Err((unmade(error), Leftover::Unopened(left))),
    }
}

/// A connection to a store with no table, in files that hold none, with pages of a size.
///
/// `NotADatabase` where the files hold something, which stays as it is.
pub(crate) fn connect_blank<D: Disk + Drop>(
    alloc: Global,
    files: Files<D>,
    size: PageSize,
    options: Options,
) -> Result<Connection<FileStore<D>>, (Error, Leftover<D>)>
    requires log { IsTrue (D.Disk.is_usable files.log) }
    requires db { IsTrue (D.Disk.is_usable files.db) }
    ensures opened { IfOk result (λ c. HasCleanDisk (file_state c) → IsOpened c) }
    ensures empty { IfOk result (λ c. HasCleanDisk (file_state c) → (tree : ℕ) → tree < 2 ^ 32 → (file_state c).now.trees tree ≡ []) }
{
    let store = blank_store(alloc, files, size, options)?;
    match Connection::over(alloc, store) {
        Ok(conn) => Ok(conn),
        Err((error, store)) => Err((unread(error), Leftover::Store(store))),
    }
}
