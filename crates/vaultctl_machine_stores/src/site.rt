//! The files at a path, which a refused command leaves as it found them.
ghost use Rattle.std.specs.Prelude.{◌≡◌, ◌==◌, ◌&&◌, length, option_map, unwrap_or, is_some, not, false, IsTrue, IfSome};
ghost use Rattle.sqlite_disk.specs.Disk.{Only};
ghost use Rattle.vaultctl_machine_stores.specs.Openings as spec;

use crate::before::Before;
use crate::places::{Place, place_at};
use sqlite_disk::{Disk, Files};
use std::fs::{self, OpenOptions};
use std::io::{self, ErrorKind};
use std::os::unix::fs::OpenOptionsExt;
use std::path::PathBuf;

/// The mode of a file that is made: its owner alone may read and write it.
const OWNERS_ALONE: u32 = 0o600;

/// The path of a vault's file, and which of its two files were missing there.
#[derive(Clone, Copy)]
pub struct Site<'a> {
    rt: &'a HostRuntime,
    path: &'a str,
    lacks_file: bool,
    lacks_log: bool,
}

/// What a file and its log are called, with no link in it.
#[derive(Drop)]
struct Names {
    file: PathBuf,
    log: String,
}

/// Whether a path names something other than a file, as `Connection::open_from` reads it.
pub fn is_no_path(path: &str) -> bool
    ensures { result ≡ spec.is_no_path path.now }
{
    path == ":memory:" || path.as_bytes().starts_with(b"file:")
}

/// The name of the log of a file. The error is out of memory.
fn log_of(rt: &HostRuntime, file: &str) -> io::Result<String> {
    Ok(format!(in rt.alloc(); "{file}-wal")?)
}

impl<'a> Site<'a> {
    /// A path, and what stood there.
    pub fn new(rt: &'a HostRuntime, path: &'a str, place: Place) -> Site<'a>
        ensures file { result.lacks_file ≡ not place.is_there }
        ensures log { result.lacks_log ≡ not (is_some place.log) }
    {
        Site {
            rt,
            path,
            lacks_file: place.lacks_file(),
            lacks_log: place.lacks_log(),
        }
    }

    /// The runtime.
    pub fn runtime(&self) -> &'a HostRuntime {
        self.rt
    }

    /// The path.
    pub fn path(&self) -> &'a str {
        self.path
    }

    /// Makes the file if it is missing, which its owner alone may then read and write.
    pub fn make_file(&self) -> io::Result<()> {
        if !self.lacks_file || is_no_path(self.path) {
            return Ok(());
        }
        match OpenOptions::new()
            .write(true)
            .create_new(true)
            .mode(OWNERS_ALONE)
            .open(self.rt, self.path)
        {
            Ok(_) => Ok(()),
            // Another program made it by now, and the opening finds what is in it.
            Err(error) if error.kind() == ErrorKind::AlreadyExists => Ok(()),
            Err(error) => Err(error),
        }
    }

    /// What the file and its log are called. The error is that the file isn't there, or out of memory.
    fn names(&self) -> io::Result<Names> {
        let file = fs::canonicalize(self.rt, self.path)?;
        let log = log_of(self.rt, file.as_str())?;
        Ok(Names { file, log })
    }

    /// Has a log hold again what it held before it was opened, or removes it if it was missing; whether that worked.
    fn gives_log_back<D: Disk>(
        &self,
        log: &mut D,
        before: &Before,
        names: &io::Result<Names>,
    ) -> bool
        // One that was there, or held something, isn't removed.
        ensures back { IsTrue result → (self.now.lacks_log && (length before.now.log.items == 0)) ≡ false → D.Disk.seen log.new ≡ before.now.log.items }
        ensures durable { IsTrue result → (self.now.lacks_log && (length before.now.log.items == 0)) ≡ false → Only before.now.log.items (D.Disk.may_leave log.new) }
    {
        let is_back = before.put_back_log(log).is_ok();
        let is_gone = self.lacks_log && before.had_no_log() && self.removes_log(names);
        is_back || is_gone
    }

    /// The same of a file.
    fn gives_file_back<D: Disk>(
        &self,
        file: &mut D,
        before: &Before,
        names: &io::Result<Names>,
    ) -> bool
        ensures back { IsTrue result → self.now.lacks_file ≡ false → IfSome before.now.db (λ bytes. D.Disk.seen file.new ≡ bytes.items) }
        ensures durable { IsTrue result → self.now.lacks_file ≡ false → IfSome before.now.db (λ bytes. Only bytes.items (D.Disk.may_leave file.new)) }
    {
        let is_back = before.put_back_file(file).is_ok();
        let is_gone = self.lacks_file && before.had_no_file() && self.removes_file(names);
        is_back || is_gone
    }

    /// Removes a log, while this program has it open; whether that worked.
    fn removes_log(&self, names: &io::Result<Names>) -> bool {
        match names {
            Ok(names) => fs::remove_file(self.rt, names.log.as_str()).is_ok(),
            Err(_) => false,
        }
    }

    /// The same of a file.
    fn removes_file(&self, names: &io::Result<Names>) -> bool {
        match names {
            Ok(names) => fs::remove_file(self.rt, names.file.as_str()).is_ok(),
            Err(_) => false,
        }
    }

    /// Lets go of files, which hold again what they held before they were opened. One that was made for the opening is
    /// removed. What can't be written or removed stays.
    ///
    /// The log goes first. As long as changes are in it the file keeps its first page: beside an empty file they would be
    /// taken for those of a vault whose file is lost.
    pub fn leave<D: Disk + Drop>(&self, files: Files<D>, before: &Before) {
        let mut files = files;
        let names = self.names();
        if self.gives_log_back(&mut files.log, before, &names) {
            self.gives_file_back(&mut files.db, before, &names);
        }
    }

    /// The same of files in which a store couldn't be made. Where they can't be looked at they stay as they are.
    pub fn leave_unmade<D: Disk + Drop>(&self, files: Files<D>, before: &Before) {
        match place_at(self.rt, self.path) {
            Ok(place) if before.had_more_than_a_byte() || place.may_hold_tables() => {
                self.leave(files, before)
            }
            Ok(_) => self.leave_part(files, before),
            Err(_) => drop(files),
        }
    }

    /// The same of files that have a part of a first page at most.
    ///
    /// The file goes first: without the log beside it, a part of a first page would be taken for somebody's file. A part
    /// that was there before comes back after its log, by `leave`.
    fn leave_part<D: Disk + Drop>(&self, files: Files<D>, before: &Before) {
        let mut files = files;
        let names = self.names();
        if self.gives_file_back(&mut files.db, before, &names) {
            self.gives_log_back(&mut files.log, before, &names);
        }
    }
}
