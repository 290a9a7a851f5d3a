//! Each method asks the file's contents, and then notes the call with its answer.
ghost use Rattle.std.specs.Prelude.{◌≡◌, ◌<◌, ◌≤◌, ◌^◌, [], ◌∷◌, length, IfOk};
ghost use Rattle.sqlite_disk.specs.Events.{settled};

use crate::device::contents::Contents;
use crate::device::record::Record;
use sqlite_disk::{Calls, is_no_room};
use std::cell::RefCell;
use std::io;
use std::rc::Rc;

const SETTLED: u64 = 0;

const MEASURED: u64 = 1;

const READ: u64 = 2;

const WRITTEN: u64 = 3;

const CUT: u64 = 4;

const FLUSHED: u64 = 5;

const TESTED: u64 = 6;

const MAX_OFFSET: usize = (1 << 63) - 1;

/// A file in memory that somebody has open.
pub struct MemoryFile {
    contents: Rc<RefCell<Contents>>,
    log: Record,
}

// It is written out, so that a caller does not prove again how each part is let go of.
impl Drop for MemoryFile {
    fn drop(self) {
        let MemoryFile {
            contents: _,
            log: _,
        } = self;
    }
}

impl MemoryFile {
    pub(crate) fn new(contents: Rc<RefCell<Contents>>, key: u64) -> MemoryFile
        ensures { result.log.events ≡ settled key ∷ [] }
    {
        let mut log = Record::new();
        log.note(&[SETTLED, key, 0, 1], &[]);
        MemoryFile { contents, log }
    }
}

fn measure(contents: &Rc<RefCell<Contents>>) -> io::Result<usize> {
    match contents.try_borrow() {
        Ok(contents) => Ok(contents.len()),
        Err(_) => Err(io::ErrorKind::ResourceBusy.into()),
    }
}

fn read(contents: &Rc<RefCell<Contents>>, at: usize, buf: &mut [u8]) -> io::Result<usize>
    ensures { IfOk result (λ n. (0 < n) × (n ≤ length buf.old) × (at < 2 ^ 63)) }
{
    if at > MAX_OFFSET || buf.is_empty() {
        return Err(io::ErrorKind::InvalidInput.into());
    }
    match contents.try_borrow_mut() {
        Ok(mut contents) => contents.read(at, buf)?,
        Err(_) => return Err(io::ErrorKind::ResourceBusy.into()),
    }
    Ok(buf.len())
}

fn write(contents: &Rc<RefCell<Contents>>, at: usize, bytes: &[u8]) -> io::Result<usize>
    ensures { IfOk result (λ n. (0 < n) × (n ≤ length bytes.now) × (at < 2 ^ 63)) }
{
    if at > MAX_OFFSET || bytes.is_empty() {
        return Err(io::ErrorKind::InvalidInput.into());
    }
    match contents.try_borrow_mut() {
        Ok(mut contents) => contents.write(at, bytes)?,
        Err(_) => return Err(io::ErrorKind::ResourceBusy.into()),
    }
    Ok(bytes.len())
}

fn resize(contents: &Rc<RefCell<Contents>>, len: usize) -> io::Result<()> {
    match contents.try_borrow_mut() {
        Ok(mut contents) => Ok(contents.resize(len)?),
        Err(_) => Err(io::ErrorKind::ResourceBusy.into()),
    }
}

fn sync(contents: &Rc<RefCell<Contents>>) -> io::Result<()> {
    match contents.try_borrow_mut() {
        Ok(mut contents) => Ok(contents.sync()?),
        Err(_) => Err(io::ErrorKind::ResourceBusy.into()),
    }
}

impl Calls for MemoryFile {
    ghost history = { λ f. f.log.events };

    fn len(&mut self) -> io::Result<usize> {
        let answer = measure(&self.contents);
        match answer {
            Ok(n) => self.log.note(&[MEASURED, n as u64, 0, 1], &[]),
            Err(_) => self.log.note(&[MEASURED, 0, 0, 0], &[]),
        }
        answer
    }

    fn read_some(&mut self, at: usize, buf: &mut [u8]) -> io::Result<usize> {
        let (at64, len) = (at as u64, buf.len() as u64);
        let answer = read(&self.contents, at, buf);
        match answer {
            Ok(n) => self.log.note(&[READ, at64, len, 1], &buf[..n]),
            Err(_) => self.log.note(&[READ, at64, len, 0], &[]),
        }
        answer
    }

    fn read_under(&mut self, key: u64, want: u64, at: usize, buf: &mut [u8]) -> io::Result<usize> {
        let (at64, len) = (at as u64, buf.len() as u64);
        let answer = read(&self.contents, at, buf);
        match answer {
            Ok(n) => self.log.note(&[TESTED, at64, len, 1, key, want], &buf[..n]),
            Err(_) => self.log.note(&[TESTED, at64, len, 0, key, want], &[]),
        }
        answer
    }

    fn write_some(&mut self, at: usize, bytes: &[u8]) -> io::Result<usize> {
        let answer = write(&self.contents, at, bytes);
        match answer {
            Ok(n) => self.log.note(&[WRITTEN, at as u64, n as u64, 1], bytes),
            Err(error) => self.log.note(
                &[WRITTEN, at as u64, u64::from(is_no_room(&error)), 0],
                bytes,
            ),
        }
        answer
    }

    fn resize(&mut self, len: usize) -> io::Result<()> {
        let answer = resize(&self.contents, len);
        match answer {
            Ok(()) => self.log.note(&[CUT, len as u64, 0, 1], &[]),
            Err(error) => self
                .log
                .note(&[CUT, len as u64, u64::from(is_no_room(&error)), 0], &[]),
        }
        answer
    }

    fn sync(&mut self) -> io::Result<()> {
        let answer = sync(&self.contents);
        match answer {
            Ok(()) => self.log.note(&[FLUSHED, 0, 0, 1], &[]),
            Err(error) => self
                .log
                .note(&[FLUSHED, 0, u64::from(is_no_room(&error)), 0], &[]),
        }
        answer
    }
}
