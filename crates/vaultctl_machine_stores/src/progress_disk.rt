//! How much of a vault's file was read, reported on a terminal while the vault is opened.
ghost use Rattle.std.specs.Prelude.{◌≡◌};

use sqlite_disk::{Disk, Files, Tally};
use sqlite_std_file::FileFrom;
use std::cell::Cell;
use std::io::{self, IsTerminal, Write};
use std::rc::Rc;
use std::time::Instant;

/// How many seconds a terminal waits for a line.
const PAUSE: u64 = 1;

/// The bytes of a MiB.
const MIB: u64 = 1_048_576;

/// Writes how many bytes were read of a file that has `len`, as `opening: 120 MiB read, of a file of 38 MiB`.
///
/// That a line can't be written is reported to nobody.
fn show_read<W: Write>(writer: &mut W, bytes: u64, len: u64) {
    let (read, whole) = (bytes / MIB, len / MIB);
    let _ = writeln!(writer, "opening: {read} MiB read, of a file of {whole} MiB");
}

/// An opening of a vault, which is over once this value is let go of. Its file shares it, to write no more lines then.
pub struct Opening {
    goes_on: Option<Rc<Cell<bool>>>,
}

impl Drop for Opening {
    fn drop(self) {
        let Opening { goes_on } = self;
        if let Some(goes_on) = &goes_on {
            goes_on.set(false);
        }
    }
}

impl Opening {
    /// An opening of which no terminal is reported.
    pub fn silent() -> Opening {
        Opening { goes_on: None }
    }

    /// An opening that begins now. No terminal is reported where standard error is none, or memory is wanted.
    pub fn new(rt: &HostRuntime) -> Opening {
        if !rt.stderr().is_terminal() {
            return Opening::silent();
        }
        match Rc::new(rt.alloc(), Cell::new(true)) {
            Ok(goes_on) => Opening {
                goes_on: Some(goes_on),
            },
            Err(_) => Opening::silent(),
        }
    }

    /// What reports a terminal of it, if one is to be.
    fn gauge(&self, rt: &HostRuntime) -> Option<Gauge> {
        let Some(goes_on) = &self.goes_on else {
            return None;
        };
        match Gauge::new(rt, goes_on) {
            Ok(gauge) => Some(gauge),
            Err(_) => None,
        }
    }
}

/// How many bytes were read for an opening, and when a line was last written of it.
struct Gauge {
    rt: HostRuntime,
    goes_on: Rc<Cell<bool>>,
    /// How many bytes the file has.
    len: u64,
    bytes: u64,
    since: Instant,
}

impl Drop for Gauge {
    fn drop(self) {
        let Gauge {
            rt: _,
            goes_on: _,
            len: _,
            bytes: _,
            since: _,
        } = self;
    }
}

impl Gauge {
    /// One of an opening of which nothing was read yet. The error is that memory is wanted, or the clock can't be read.
    fn new(rt: &HostRuntime, goes_on: &Rc<Cell<bool>>) -> io::Result<Gauge> {
        Ok(Gauge {
            rt: *rt,
            goes_on: goes_on.clone()?,
            len: 0,
            bytes: 0,
            since: Instant::now(rt)?,
        })
    }

    /// Counts bytes that are read, and writes a line if the last one is a second ago.
    fn note(&mut self, bytes: usize) {
        if !self.goes_on.get() {
            return;
        }
        self.bytes = self.bytes.saturating_add(bytes as u64);
        let Ok(now) = Instant::now(&self.rt) else {
            return;
        };
        if now.duration_since(self.since).as_secs() >= PAUSE {
            self.since = now;
            show_read(&mut self.rt.stderr(), self.bytes, self.len);
        }
    }
}

/// Counts bytes that are read of a file, where a terminal is shown them.
fn note(gauge: &mut Option<Gauge>, bytes: usize) {
    if let Some(gauge) = gauge {
        gauge.note(bytes);
    }
}

/// Notes how many bytes a file has, where a terminal is shown how many were read.
fn note_len(gauge: &mut Option<Gauge>, answer: io::Result<usize>) {
    if let (Some(gauge), Ok(len)) = (gauge, answer) {
        gauge.len = len as u64;
    }
}

/// A file of which a line is written each second while a vault is opened from it.
///
/// What it holds and answers is what the file within it holds and answers. That a line can't be written or the clock not
/// be read is no failure of it, and is reported to nobody; without a terminal nothing is written.
pub struct ProgressDisk<D: Disk> {
    disk: D,
    gauge: Option<Gauge>,
}

/// The file at a path, which held what `S` says.
pub type ProgressFile<S> = ProgressDisk<FileFrom<S>>;

impl<D: Disk + Drop> Drop for ProgressDisk<D> {
    fn drop(self) {
        let ProgressDisk { disk: _, gauge: _ } = self;
    }
}

impl<D: Disk> ProgressDisk<D> {
    ghost use Rattle.std.specs.Prelude.{◌≡◌};

    /// A file that is read for an opening.
    fn new(disk: D, gauge: Option<Gauge>) -> ProgressDisk<D>
        ensures { result.disk ≡ disk }
    {
        ProgressDisk { disk, gauge }
    }
}

/// The log and the file of a vault, of which the file is reported as long as an opening goes on.
pub(crate) fn reported<D: Disk>(
    rt: &HostRuntime,
    files: Files<D>,
    opening: &Opening,
) -> Files<ProgressDisk<D>>
    ensures log { result.log.disk ≡ files.log }
    ensures db { result.db.disk ≡ files.db }
{
    let Files { log, db } = files;
    Files {
        log: ProgressDisk::new(log, None),
        db: ProgressDisk::new(db, opening.gauge(rt)),
    }
}

impl<D: Disk> Disk for ProgressDisk<D> {
    ghost seen = { λ f. D.Disk.seen f.disk };

    ghost may_leave = { λ f. D.Disk.may_leave f.disk };

    ghost is_usable = { λ f. D.Disk.is_usable f.disk };

    ghost faults = { λ f. D.Disk.faults f.disk };

    ghost tally_of = { λ f. D.Disk.tally_of f.disk };

    ghost is_clean = { λ f. D.Disk.is_clean f.disk };

    ghost key_of = { λ f. D.Disk.key_of f.disk };

    ghost is_fair = { λ f. D.Disk.is_fair f.disk };

    ghost is_frozen = { λ f. D.Disk.is_frozen f.disk };

    ghost is_rotten = { λ f. D.Disk.is_rotten f.disk };

    ghost is_mixing = { λ f. D.Disk.is_mixing f.disk };

    ghost seen_may_stay = { λ f. D.Disk.seen_may_stay f.disk };

    ghost fair_if_clean = { λ f. D.Disk.fair_if_clean f.disk };

    fn mixes(&self) -> bool {
        self.disk.mixes()
    }

    fn key(&self) -> u64 {
        self.disk.key()
    }

    fn tally(&self) -> Tally {
        self.disk.tally()
    }

    fn may_be_used(&self) -> bool {
        self.disk.may_be_used()
    }

    fn len(&mut self) -> io::Result<usize> {
        let answer = self.disk.len();
        note_len(&mut self.gauge, answer);
        answer
    }

    fn read_at(&mut self, at: usize, buf: &mut [u8]) -> io::Result<()> {
        note(&mut self.gauge, buf.len());
        self.disk.read_at(at, buf)
    }

    fn read_checked(&mut self, key: u64, want: u64, at: usize, buf: &mut [u8]) -> io::Result<()> {
        note(&mut self.gauge, buf.len());
        self.disk.read_checked(key, want, at, buf)
    }

    fn write_at(&mut self, at: usize, bytes: &[u8]) -> io::Result<()> {
        self.disk.write_at(at, bytes)
    }

    fn set_len(&mut self, len: usize) -> io::Result<()> {
        self.disk.set_len(len)
    }

    fn sync(&mut self) -> io::Result<()> {
        self.disk.sync()
    }
}
