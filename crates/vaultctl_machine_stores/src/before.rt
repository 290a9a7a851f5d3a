//! What files hold before they are opened, and how they get it back.
ghost use Rattle.std.specs.Prelude.{◌≡◌, ◌==◌, ◌<◌, length, nat_lt, option_map, unwrap_or, true, false, None, IsTrue, IfOk, IfSome, OnOk};
ghost use Rattle.sqlite_disk.specs.Disk.{Only};
ghost use Rattle.sqlite_wal.specs.Reads.{AreClean, IsClean, OnlyReads};

use sqlite_disk::{Disk, Files};
use std::alloc::Global;
use std::io::{self, ErrorKind};

/// The largest file of which all bytes are kept: an opening writes into no larger one.
const FIRST_PAGE: usize = 4096;

/// What a log and its file held before they were opened.
#[derive(Drop)]
pub struct Before {
    log: Vec<u8>,
    /// All bytes of a file in which an opening may make the first page.
    db: Option<Vec<u8>>,
}

/// All bytes of a file.
fn read_all<D: Disk>(alloc: Global, file: &mut D) -> io::Result<Vec<u8>>
    requires usable { IsTrue (D.Disk.is_usable file.old) }
    ensures bytes { IfOk result (λ bytes. IsClean D.Disk file.new → bytes.items ≡ D.Disk.seen file.old) }
    ensures same { OnlyReads D.Disk file.old file.new }
{
    let len = file.len()?;
    let mut bytes = vec![in alloc; 0; len]?;
    file.read_at(0, &mut bytes)?;
    Ok(bytes)
}

/// All bytes of a file in which an opening may make the first page; none of a longer one.
fn read_short<D: Disk>(alloc: Global, file: &mut D) -> io::Result<Option<Vec<u8>>>
    requires usable { IsTrue (D.Disk.is_usable file.old) }
    ensures bytes { IfOk result (λ found. IsClean D.Disk file.new → IfSome found (λ bytes. bytes.items ≡ D.Disk.seen file.old)) }
    ensures longer { IfOk result (λ found. IsClean D.Disk file.new → found ≡ None → 4096 < length (D.Disk.seen file.old)) }
    ensures same { OnlyReads D.Disk file.old file.new }
{
    if file.len()? > FIRST_PAGE {
        return Ok(None);
    }
    match read_all(alloc, file) {
        Ok(bytes) => Ok(Some(bytes)),
        Err(error) => Err(error),
    }
}

/// Has a file hold these bytes alone, also after a crash.
fn write_all<D: Disk>(file: &mut D, bytes: &[u8]) -> io::Result<()>
    requires usable { IsTrue (D.Disk.is_usable file.old) }
    ensures written { OnOk result (D.Disk.seen file.new ≡ bytes.now) }
    ensures durable { OnOk result (Only bytes.now (D.Disk.may_leave file.new)) }
{
    file.write_at(0, bytes)?;
    file.set_len(bytes.len())?;
    file.sync()
}

/// Has a file hold these bytes alone, also after a crash. The error is that it can't be written, and then it may hold a
/// part of them.
fn put_back<D: Disk>(file: &mut D, bytes: &[u8]) -> io::Result<()>
    ensures written { OnOk result (D.Disk.seen file.new ≡ bytes.now) }
    ensures durable { OnOk result (Only bytes.now (D.Disk.may_leave file.new)) }
{
    if !file.may_be_used() {
        return Err(io::Error::from(ErrorKind::Other));
    }
    write_all(file, bytes)
}

impl Before {
    /// What two files hold, which are only read. The error is that one can't be read, or out of memory.
    pub fn of<D: Disk>(alloc: Global, files: &mut Files<D>) -> io::Result<Before>
        requires log { IsTrue (D.Disk.is_usable files.old.log) }
        requires db { IsTrue (D.Disk.is_usable files.old.db) }
        ensures bytes { IfOk result (λ it. IsClean D.Disk files.new.log → it.log.items ≡ D.Disk.seen files.old.log) }
        ensures short { IfOk result (λ it. IsClean D.Disk files.new.db → IfSome it.db (λ bytes. bytes.items ≡ D.Disk.seen files.old.db)) }
        ensures longer { IfOk result (λ it. IsClean D.Disk files.new.db → it.db ≡ None → 4096 < length (D.Disk.seen files.old.db)) }
        ensures log { OnlyReads D.Disk files.old.log files.new.log }
        ensures db { OnlyReads D.Disk files.old.db files.new.db }
    {
        let log = read_all(alloc, &mut files.log)?;
        let db = read_short(alloc, &mut files.db)?;
        Ok(Before { log, db })
    }

    /// Whether the log held nothing.
    pub fn had_no_log(&self) -> bool
        ensures { result ≡ (length self.now.log.items == 0) }
    {
        self.log.is_empty()
    }

    /// Whether the file held nothing.
    pub fn had_no_file(&self) -> bool
        ensures { result ≡ unwrap_or (option_map (λ bytes. length bytes.items == 0) self.now.db) false }
    {
        match &self.db {
            Some(bytes) => bytes.is_empty(),
            None => false,
        }
    }

    /// Whether the file held more than a byte. A byte may be the beginning of a first page by itself, more of it only by the
    /// log beside it.
    pub fn had_more_than_a_byte(&self) -> bool
        ensures { result ≡ unwrap_or (option_map (λ bytes. nat_lt 1 (length bytes.items)) self.now.db) true }
    {
        match &self.db {
            Some(bytes) => bytes.len() > 1,
            None => true,
        }
    }

    /// Has a log hold again what it held, also after a crash. The error is that it can't be written.
    pub fn put_back_log<D: Disk>(&self, log: &mut D) -> io::Result<()>
        ensures written { OnOk result (D.Disk.seen log.new ≡ self.now.log.items) }
        ensures durable { OnOk result (Only self.now.log.items (D.Disk.may_leave log.new)) }
    {
        put_back(log, self.log.as_slice())
    }

    /// Has a file that was short hold again what it held, also after a crash; a longer one, which no opening wrote, stays
    /// as it is. The error is that it can't be written.
    pub fn put_back_file<D: Disk>(&self, file: &mut D) -> io::Result<()>
        ensures written { OnOk result (IfSome self.now.db (λ bytes. D.Disk.seen file.new ≡ bytes.items)) }
        ensures durable { OnOk result (IfSome self.now.db (λ bytes. Only bytes.items (D.Disk.may_leave file.new))) }
        ensures left { self.now.db ≡ None → file.new ≡ file.old }
    {
        match &self.db {
            Some(bytes) => put_back(file, bytes.as_slice()),
            None => Ok(()),
        }
    }
}
