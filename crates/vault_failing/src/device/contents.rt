//! The bytes of a file, and what a crash leaves of them.
use rand_core::utils::NextWord;
use rand_pcg::Pcg32;
use std::alloc::{AllocError, Global};
use std::io;

/// A call that changed a file.
#[derive(Drop)]
enum FileChange {
    /// These bytes were written from there on.
    Written(usize, Vec<u8>),
    /// The file was cut or grown to that length.
    Resized(usize),
}

/// A file, and how it was changed since its last sync.
#[derive(Drop)]
pub(crate) struct Contents {
    alloc: Global,
    bytes: Vec<u8>,
    synced: Vec<u8>,
    changes: Vec<FileChange>,
    reads: u64,
    syncs: u64,
}

/// What becomes of the changes after the last sync.
#[derive(Clone, Copy)]
pub enum Crash {
    /// All are there, as where a process alone ends.
    Keeps,
    /// None is there.
    Loses,
    /// Each is there or not, and of a write that was cut each byte has its old value or the one that was
    /// written. Another number draws other bytes.
    Mixes(u64),
    /// The same, but a byte that hasn't the one that was written may have any value.
    Tears(u64),
}

/// Of n bytes that a crash cuts, as many as one of `STAYING` are not as they were written.
const CUT: u32 = 4096;

const STAYING: [u32; 5] = [0, 1, 2048, 4095, CUT];

impl Contents {
    /// A file that has these bytes, also after a crash.
    pub(crate) fn new(alloc: Global, bytes: &[u8]) -> Result<Contents, AllocError> {
        Ok(Contents {
            alloc,
            bytes: copied(alloc, bytes)?,
            synced: copied(alloc, bytes)?,
            changes: Vec::new(alloc),
            reads: 0,
            syncs: 0,
        })
    }

    pub(crate) fn len(&self) -> usize {
        self.bytes.len()
    }

    /// How often it was read.
    pub(crate) fn reads(&self) -> u64 {
        self.reads
    }

    /// How often it was synced.
    pub(crate) fn syncs(&self) -> u64 {
        self.syncs
    }

    /// Whether it was changed since its last sync.
    pub(crate) fn is_changed(&self) -> bool {
        !self.changes.is_empty()
    }

    pub(crate) fn read(&mut self, at: usize, buf: &mut [u8]) -> io::Result<()> {
        self.reads = self.reads.saturating_add(1);
        if at > self.bytes.len() || buf.len() > self.bytes.len() - at {
            return Err(io::ErrorKind::UnexpectedEof.into());
        }
        buf.copy_from_slice(&self.bytes[at..at + buf.len()]);
        Ok(())
    }

    pub(crate) fn write(&mut self, at: usize, bytes: &[u8]) -> Result<(), AllocError> {
        let change = FileChange::Written(at, copied(self.alloc, bytes)?);
        self.changes.push(change)?;
        grow(&mut self.bytes, at, bytes.len())?;
        lay(&mut self.bytes, at, bytes);
        Ok(())
    }

    pub(crate) fn resize(&mut self, len: usize) -> Result<(), AllocError> {
        self.changes.push(FileChange::Resized(len))?;
        self.bytes.resize(len, 0)
    }

    pub(crate) fn sync(&mut self) -> Result<(), AllocError> {
        self.synced = copied(self.alloc, &self.bytes)?;
        self.changes.clear();
        self.syncs = self.syncs.saturating_add(1);
        Ok(())
    }

    /// What the crash leaves of the file.
    pub(crate) fn left_by(&self, crash: Crash) -> Result<Vec<u8>, AllocError> {
        match crash {
            Crash::Keeps => copied(self.alloc, &self.bytes),
            Crash::Loses => copied(self.alloc, &self.synced),
            Crash::Mixes(seed) => self.cut(seed, true),
            Crash::Tears(seed) => self.cut(seed, false),
        }
    }

    fn cut(&self, seed: u64, mixes: bool) -> Result<Vec<u8>, AllocError> {
        let mut words = Pcg32::new(seed, 1);
        let mut left = copied(self.alloc, &self.synced)?;
        for change in &self.changes {
            cut_change(&mut left, change, mixes, &mut words)?;
        }
        Ok(left)
    }
}

fn copied(alloc: Global, bytes: &[u8]) -> Result<Vec<u8>, AllocError> {
    let mut copy = Vec::new(alloc);
    copy.extend_from_slice(bytes)?;
    Ok(copy)
}

/// Makes room for n bytes from there on.
fn grow(file: &mut Vec<u8>, at: usize, count: usize) -> Result<(), AllocError> {
    let end = at.checked_add(count).ok_or(AllocError)?;
    if end > file.len() {
        file.resize(end, 0)?;
    }
    Ok(())
}

/// Writes the bytes, as far as there is room for them.
fn lay(file: &mut [u8], at: usize, bytes: &[u8]) {
    for (place, byte) in file.iter_mut().skip(at).zip(bytes) {
        *place = *byte;
    }
}

fn cut_change(
    file: &mut Vec<u8>,
    change: &FileChange,
    mixes: bool,
    words: &mut Pcg32,
) -> Result<(), AllocError> {
    let word: u32 = words.next_word();
    let staying = STAYING[word as usize % STAYING.len()];
    if staying == CUT {
        return Ok(());
    }
    match change {
        FileChange::Written(at, bytes) => {
            let synced = file.len();
            grow(file, *at, bytes.len())?;
            lay_some(file, *at, bytes, staying, mixes, words);
            if staying != 0 {
                shorten(file, synced, words);
            }
            Ok(())
        }
        FileChange::Resized(len) => file.resize(*len, 0),
    }
}

/// Cuts off some of what is after n bytes.
fn shorten(file: &mut Vec<u8>, least: usize, words: &mut Pcg32) {
    let word: u32 = words.next_word();
    let more = file.len().saturating_sub(least);
    let kept = word as usize % more.saturating_add(1);
    file.truncate(least.saturating_add(kept));
}

/// Writes the bytes but for as many as stay.
fn lay_some(
    file: &mut [u8],
    at: usize,
    bytes: &[u8],
    staying: u32,
    mixes: bool,
    words: &mut Pcg32,
) {
    for (place, byte) in file.iter_mut().skip(at).zip(bytes) {
        let word: u32 = words.next_word();
        if word % CUT >= staying {
            *place = *byte;
        } else if !mixes {
            *place = word.to_le_bytes()[3];
        }
    }
}
