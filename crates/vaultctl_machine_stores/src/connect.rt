//! Connections to the files at a path.
ghost use Rattle.std.specs.Prelude.{◌≡◌, ◌≢◌, ◌↔◌, true, false, IsTrue, IfOk, Err};
ghost use Rattle.std.specs.IoError.{error_kind};
ghost use Rattle.sqlite.specs.Files.{file_state, IsOpened};
ghost use Rattle.sqlite.specs.State.{HasCleanDisk};
ghost use Rattle.sqlite.specs.Start.{FindsIn};
ghost use Rattle.sqlite_std_file.specs.File.{file_is_usable, IsFresh};
ghost use Rattle.sqlite_wal.specs.Files.{image_at};
ghost use Rattle.vaultctl_machine_stores.specs.Openings as spec;

use crate::before::Before;
use crate::blank::connect_blank;
use crate::progress_disk::{Opening, ProgressFile, reported};
use crate::site::{Site, is_no_path};
use sqlite::{
    Alter, Connection, Error, ErrorCode, FileFrom, FileStore, Files, Leftover, Options, Start,
};
use sqlite_disk::Disk;
use sqlite_pool::probe_blank;
use sqlite_std_file::OpenError;
use sqlite_wal::PageSize;
use std::alloc::Global;
use std::hash::{BuildHasher, RandomState};
use std::io::{self, ErrorKind};

/// The bytes of a page in a file that is new.
const PAGE_BYTES: usize = 1024;

const NO_MEMORY: Error = Error::SqliteFailure(ErrorCode::OutOfMemory);

const CANNOT_OPEN: Error = Error::SqliteFailure(ErrorCode::CannotOpen);

/// The files at a path, where those that are missing are made. No name of something other than a file is a path, as in
/// `Connection::open_from`.
fn open_pair<S: Start>(rt: &HostRuntime, path: &str, start: S) -> Result<Files<FileFrom<S>>, Error>
    ensures usable { IfOk result (λ files. IsTrue (file_is_usable S.Start files.log) × IsTrue (file_is_usable S.Start files.db)) }
    ensures fresh { IfOk result (λ files. IsFresh true files.log × IsFresh false files.db) }
    ensures named { IsTrue (spec.is_no_path path.now) → result ≡ Err (Error.SqliteFailure ErrorCode.CannotOpen) }
{
    if is_no_path(path) {
        return Err(CANNOT_OPEN);
    }
    match sqlite_std_file::open(rt, path, start) {
        Ok(files) => Ok(files),
        Err(OpenError::OutOfMemory) => Err(NO_MEMORY),
        Err(OpenError::Busy) => Err(Error::SqliteFailure(ErrorCode::DatabaseBusy)),
        Err(OpenError::Io(error)) if error.kind() == ErrorKind::OutOfMemory => Err(NO_MEMORY),
        Err(_) => Err(CANNOT_OPEN),
    }
}

/// The same files, of which a terminal is reported while that opening goes on.
fn open_reported<S: Start>(
    rt: &HostRuntime,
    path: &str,
    start: S,
    opening: &Opening,
) -> Result<Files<ProgressFile<S>>, Error>
    ensures usable { IfOk result (λ files. IsTrue (file_is_usable S.Start files.log.disk) × IsTrue (file_is_usable S.Start files.db.disk)) }
    ensures fresh { IfOk result (λ files. IsFresh true files.log.disk × IsFresh false files.db.disk) }
{
    let files = open_pair(rt, path, start)?;
    Ok(reported(rt, files, opening))
}

/// How many frames a log has before it is copied into its file: so it is as long as one of the kit's own with 1,000 frames
/// of 4,096 bytes.
const CHECKPOINT_FRAMES: usize = 4000;

/// What the store keeps in memory and in its log, with a random number for the log.
fn options(rt: &HostRuntime) -> Result<Options, Error>
    ensures { IfOk result (λ options. options.checkpoint_frames ≡ 4000) }
{
    match RandomState::new(rt) {
        Ok(state) => {
            let mut options = Options::new(state.hash_one(&0u8));
            options.checkpoint_frames = CHECKPOINT_FRAMES;
            Ok(options)
        }
        Err(_) => Err(CANNOT_OPEN),
    }
}

/// What it is reported as that one can't see whether the files hold something.
fn unprobed(error: sqlite_wal::Error) -> Error
    ensures { result ≡ spec.unprobed_of error }
{
    match error {
        sqlite_wal::Error::OutOfMemory => NO_MEMORY,
        sqlite_wal::Error::Io(_) => Error::SqliteFailure(ErrorCode::SystemIoFailure),
        _ => Error::SqliteFailure(ErrorCode::NotADatabase),
    }
}

/// A connection to files that hold something. With an error they are as they were.
fn connect_whole<D: Disk + Drop>(
    site: &Site<'_>,
    files: Files<D>,
    options: Options,
    before: &Before,
) -> Result<Connection<FileStore<D>>, Error>
    requires log { IsTrue (D.Disk.is_usable files.log) }
    requires db { IsTrue (D.Disk.is_usable files.db) }
    ensures opened { IfOk result (λ c. HasCleanDisk (file_state c) → IsOpened c) }
{
    match Connection::open_files_with(site.runtime().alloc(), files, options, false) {
        Ok(conn) => Ok(conn),
        Err((error, left)) => {
            site.leave(left.into_files(), before);
            Err(error)
        }
    }
}

/// A connection to files that hold nothing yet, and get pages of a size. With an error they are as they were.
fn connect_unmade<D: Disk + Drop>(
    site: &Site<'_>,
    files: Files<D>,
    size: PageSize,
    options: Options,
    before: &Before,
) -> Result<Connection<FileStore<D>>, Error>
    requires log { IsTrue (D.Disk.is_usable files.log) }
    requires db { IsTrue (D.Disk.is_usable files.db) }
    ensures opened { IfOk result (λ c. HasCleanDisk (file_state c) → IsOpened c) }
{
    match connect_blank(site.runtime().alloc(), files, size, options) {
        Ok(conn) => Ok(conn),
        Err((error, left)) => {
            site.leave_unmade(left.into_files(), before);
            Err(error)
        }
    }
}

/// A connection to files, which get pages of `PAGE_BYTES` if they hold nothing yet. With an error they are as they were.
fn connect_files<D: Disk + Drop>(
    site: &Site<'_>,
    mut files: Files<D>,
    options: Options,
    before: &Before,
) -> Result<Connection<FileStore<D>>, Error>
    requires log { IsTrue (D.Disk.is_usable files.log) }
    requires db { IsTrue (D.Disk.is_usable files.db) }
    ensures opened { IfOk result (λ c. HasCleanDisk (file_state c) → IsOpened c) }
{
    let Some(size) = PageSize::new(PAGE_BYTES) else {
        return connect_whole(site, files, options, before);
    };
    match probe_blank(site.runtime().alloc(), &mut files, size, false) {
        Ok(true) => connect_unmade(site, files, size, options, before),
        Ok(false) => connect_whole(site, files, options, before),
        Err(error) => {
            site.leave(files, before);
            Err(unprobed(error))
        }
    }
}

/// A connection to files, what they held before they were opened, and the opening that a terminal is reported of.
pub struct Opened<S: Alter> {
    pub conn: Connection<S>,
    pub before: Before,
    pub opening: Opening,
}

/// What it is reported as that files can't be read before they are opened, or that one can't be made.
fn untouched(error: io::Error) -> Error
    ensures memory { (result ≡ Error.SqliteFailure ErrorCode.OutOfMemory) ↔ (error_kind error ≡ ErrorKind.OutOfMemory) }
    ensures other { error_kind error ≢ ErrorKind.OutOfMemory → result ≡ Error.SqliteFailure ErrorCode.CannotOpen }
{
    if error.kind() == ErrorKind::OutOfMemory {
        return NO_MEMORY;
    }
    CANNOT_OPEN
}

/// A connection to the files at a path, which are made if they are missing, with pages of `PAGE_BYTES` if they hold
/// nothing yet. `start` is what they hold.
///
/// The errors are those of `Connection::open_from`, and with each the files are as they were.
pub fn connect_new<S: Start>(
    site: &Site<'_>,
    start: S,
) -> Result<Opened<FileStore<ProgressFile<S>>>, Error>
    ensures opened { IfOk result (λ it. HasCleanDisk (file_state it.conn) → IsOpened it.conn) }
{
    let rt = site.runtime();
    let options = options(rt)?;
    let opening = Opening::silent();
    let mut files = open_reported(rt, site.path(), start, &opening)?;
    let before = match Before::of(rt.alloc(), &mut files) {
        Ok(before) => before,
        Err(error) => return Err(untouched(error)),
    };
    match connect_files(site, files, options, &before) {
        Ok(conn) => Ok(Opened {
            conn,
            before,
            opening,
        }),
        Err(error) => Err(error),
    }
}

/// The same of files that hold what `S` says, with clauses for what is found in them. None is made but the log.
///
/// The errors are those of `Connection::open_from`, and with each the files are as they were.
pub fn connect_there<S: Start>(
    site: &Site<'_>,
    start: S,
) -> Result<Opened<FileStore<ProgressFile<S>>>, Error>
    ensures opened { IfOk result (λ it. HasCleanDisk (file_state it.conn) → IsOpened it.conn) }
    ensures found { IfOk result (λ it. HasCleanDisk (file_state it.conn) → FindsIn (image_at S.Start) (file_state it.conn)) }
{
    let rt = site.runtime();
    let options = options(rt)?;
    let opening = Opening::new(rt);
    let mut files = open_reported(rt, site.path(), start, &opening)?;
    let before = match Before::of(rt.alloc(), &mut files) {
        Ok(before) => before,
        Err(error) => return Err(untouched(error)),
    };
    match Connection::open_files_with(rt.alloc(), files, options, false) {
        Ok(conn) => Ok(Opened {
            conn,
            before,
            opening,
        }),
        Err((error, left)) => {
            site.leave(left.into_files(), &before);
            Err(error)
        }
    }
}
