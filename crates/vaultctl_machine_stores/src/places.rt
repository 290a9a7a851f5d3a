//! What stands at a path before its files are opened: so nothing is made or changed where no vault can be.
ghost use Rattle.std.specs.Prelude.{◌≡◌, ◌≢◌, ◌↔◌, ◌==◌, Ok, Err, Some, None, IfOk, IfErr, IfSome, OnErr, OnOk, IsTrue, false, true, is_some, not, option_map, take};
ghost use Rattle.std.specs.Fs.{IsFile, file_type, metadata_len};
ghost use Rattle.std.specs.IoError.{error_kind};
ghost use Rattle.std.specs.Str.{bytes_eq};
ghost use Rattle.vaultctl_machine_stores.specs.Places as spec;

use crate::cause::Cause;
use std::alloc::Global;
use std::fs::{self, Metadata};
use std::io::{self, ErrorKind, Read};

/// How many bytes of a file are looked at.
const FIRST_BYTES: u64 = 16;

/// The bytes of the shortest log that can have a change: its own header, and that of a frame. No opening reads a shorter one.
const LEAST_LOG: u64 = 56;

/// The files at a path, as they stand before they are opened.
#[derive(Clone, Copy, Debug, PartialEq, Eq)]
pub struct Place {
    /// Whether a file is there.
    is_there: bool,
    /// Whether no file is there, or an empty one.
    is_free: bool,
    /// Whether the file begins as one that holds tables.
    begins_well: bool,
    /// How many bytes are in the log beside it, if there is one.
    log: Option<u64>,
}

impl Place {
    /// Whether tables may be in the files. Of a file that doesn't begin as it should, the log may have the first page;
    /// that of an empty one is never read.
    pub fn may_hold_tables(self) -> bool
        ensures { result ≡ spec.may_hold_tables self }
    {
        self.begins_well || (!self.is_free && self.has_changes())
    }

    /// Whether a vault may be made in the files, which their opening has to say of a file that is there. A log beside a
    /// file that is lost may have the last changes of a vault, and an opening would drop it.
    pub fn may_be_made(self) -> bool
        ensures { result ≡ spec.may_be_made self }
    {
        if self.is_free {
            return !self.has_changes();
        }
        // Where another file began to be made, its log was made first.
        self.begins_well || self.log.is_some()
    }

    /// Whether no file is there.
    pub fn lacks_file(self) -> bool
        ensures { result ≡ not self.is_there }
    {
        !self.is_there
    }

    /// Whether no log is there.
    pub fn lacks_log(self) -> bool
        ensures { result ≡ not (is_some self.log) }
    {
        self.log.is_none()
    }

    /// Why no tables are opened in the files.
    pub fn why_without_tables(self) -> Cause
        ensures { result ≡ spec.why_without_tables self }
    {
        if self.is_free && self.has_changes() {
            return Cause::LostFile;
        }
        if !self.is_there {
            return Cause::NoFile;
        }
        if self.is_free {
            return Cause::Empty;
        }
        if self.begins_well {
            return Cause::Damaged;
        }
        Cause::OtherFile
    }

    /// Why no vault is made in the files.
    pub fn why_taken(self) -> Cause
        ensures { result ≡ spec.why_taken self }
    {
        if self.is_free {
            return Cause::LostFile;
        }
        Cause::Taken
    }

    /// Whether a change may be in the log.
    fn has_changes(self) -> bool
        ensures { result ≡ spec.may_have_changes self.log }
    {
        self.log.is_some_and(|size| size >= LEAST_LOG)
    }
}

/// Whether these are the first bytes of a file that holds tables.
fn are_first_bytes(bytes: &[u8]) -> bool
    ensures { result ≡ bytes_eq bytes.now spec.first_bytes }
{
    bytes == b"SQLite format 3\0".as_slice()
}

/// Whether a file begins as one that holds tables, by what the read of its first bytes returned. A shorter file doesn't.
fn begins_as_read(read: io::Result<usize>, first: &[u8]) -> io::Result<bool>
    ensures whole { OnOk read (result ≡ Ok (bytes_eq first.now spec.first_bytes)) }
    ensures fails { IfErr read (λ e. result ≡ Err e) }
{
    match read {
        Ok(_) => Ok(are_first_bytes(first)),
        Err(error) => Err(error),
    }
}

/// Whether what a reader gives begins as a file that holds tables. The error is that it can't be read, or out of memory.
fn begins_as_tables<R: Read + Drop>(alloc: Global, reader: R) -> io::Result<bool>
    ensures { IfOk result (λ begins. IfSome (R.remaining reader) (λ bytes. begins ≡ bytes_eq (take 16 bytes) spec.first_bytes)) }
{
    let mut first = Vec::new(alloc);
    let read = reader.take(FIRST_BYTES).read_to_end(&mut first);
    begins_as_read(read, first.as_slice())
}

/// Whether a file begins as one that holds tables. The error is that it can't be read, or out of memory.
fn begins_well(rt: &HostRuntime, file: &str) -> io::Result<bool> {
    begins_as_tables(rt.alloc(), fs::open(rt, file)?)
}

/// What a look at a path found, if anything is there. Any other error of the look stays one.
fn unless_missing<T>(found: io::Result<T>) -> io::Result<Option<T>>
    ensures there { IfOk found (λ it. result ≡ Ok (Some it)) }
    ensures none { IfErr found (λ e. error_kind e ≡ ErrorKind.NotFound → result ≡ Ok None) }
    ensures fails { IfErr found (λ e. error_kind e ≢ ErrorKind.NotFound → result ≡ Err e) }
{
    match found {
        Ok(found) => Ok(Some(found)),
        Err(error) if error.kind() == ErrorKind::NotFound => Ok(None),
        Err(error) => Err(error),
    }
}

/// How many bytes are in a file, if there is one.
fn size_of(found: &Option<Metadata>) -> Option<u64>
    ensures { result ≡ option_map metadata_len found.now }
{
    match found {
        Some(found) => Some(found.len()),
        None => None,
    }
}

/// How many bytes are in the log beside a file, if there is one.
fn log_size(rt: &HostRuntime, file: &str) -> io::Result<Option<u64>> {
    let log = format!(in rt.alloc(); "{file}-wal")?;
    let found = unless_missing(fs::metadata(rt, log.as_str()))?;
    Ok(size_of(&found))
}

/// What is at a path where no file is, beside a log of that many bytes.
fn missing_with(log: Option<u64>) -> Place
    ensures { result ≡ record { is_there = false; is_free = true; begins_well = false; log = log } }
{
    Place {
        is_there: false,
        is_free: true,
        begins_well: false,
        log,
    }
}

/// What stands at a path where no file is.
fn missing(rt: &HostRuntime, path: &str) -> io::Result<Place>
    ensures { IfOk result spec.IsMissing }
{
    let log = log_size(rt, path)?;
    Ok(missing_with(log))
}

/// What was found, which is a file. Whoever opens what is no file may have to wait for another program.
fn plain(found: Metadata) -> io::Result<Metadata>
    ensures kept { IfOk result (λ it. it ≡ found) }
    ensures file { OnOk result (IsFile (file_type found)) }
    // A file is never refused.
    ensures other { OnErr result (¬ IsFile (file_type found)) }
    ensures kind { IfErr result (λ e. error_kind e ≡ ErrorKind.Unsupported) }
{
    if !found.is_file() {
        return Err(io::Error::from(ErrorKind::Unsupported));
    }
    Ok(found)
}

/// What is at a path where that file is, beside a log of that many bytes.
fn there_with(found: &Metadata, begins_well: bool, log: Option<u64>) -> Place
    ensures { result ≡ record { is_there = true; is_free = (metadata_len found.now == 0); begins_well = begins_well; log = log } }
{
    Place {
        is_there: true,
        is_free: found.len() == 0,
        begins_well,
        log,
    }
}

/// What is at a path that leads to something, by no link.
fn there(rt: &HostRuntime, file: &str) -> io::Result<Place>
    ensures { IfOk result (λ place. IsTrue place.is_there) }
{
    let found = plain(fs::metadata(rt, file)?)?;
    let begins_well = begins_well(rt, file)?;
    let log = log_size(rt, file)?;
    Ok(there_with(&found, begins_well, log))
}

/// What stands at a path. What is no file, as a folder, is an error, and so is what can't be read.
pub fn place_at(rt: &HostRuntime, path: &str) -> io::Result<Place> {
    match unless_missing(fs::canonicalize(rt, path))? {
        Some(file) => there(rt, file.as_str()),
        None => missing(rt, path),
    }
}
