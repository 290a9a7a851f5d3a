//! A vault's two files, of which one may fail, and what a crash leaves of them.
use crate::device::contents::Crash;
use crate::device::medium::{Medium, opened};
use crate::device::memory_file::MemoryFile;
use sqlite_disk::{Files, Fuse, Modelled, Start};
use std::alloc::{AllocError, Global};
use std::io;

/// What a crash may leave of a write that it cuts.
#[derive(Clone, Copy)]
pub enum TornWrites {
    /// Of a write that is cut each byte is the old or the new one, so that most changes sync once.
    Mixing,
    /// Such a byte may be any, so that each change syncs twice.
    Tearing,
}

impl TornWrites {
    /// The crashes of a file that are tried.
    pub fn crashes(self) -> [Crash; 4] {
        match self {
            TornWrites::Mixing => [Crash::Keeps, Crash::Loses, Crash::Mixes(1), Crash::Mixes(2)],
            TornWrites::Tearing => [Crash::Keeps, Crash::Loses, Crash::Tears(1), Crash::Tears(2)],
        }
    }
}

/// The bytes of both files.
pub struct Bytes {
    pub log: Vec<u8>,
    pub database: Vec<u8>,
}

// What is let go of in several places is written out here and below, so that these don't prove again how each part is.
impl Drop for Bytes {
    fn drop(self) {
        let Bytes {
            log: _,
            database: _,
        } = self;
    }
}

impl Bytes {
    /// Those of empty files.
    pub fn none(alloc: Global) -> Bytes {
        Bytes {
            log: Vec::new(alloc),
            database: Vec::new(alloc),
        }
    }
}

/// One of the two files.
#[derive(Clone, Copy)]
pub enum Which {
    Log,
    Database,
}

impl Which {
    /// This file fails after n calls, and the other doesn't.
    pub fn passing(self, calls: u64) -> Calls {
        match self {
            Which::Log => Calls {
                log: calls,
                database: u64::MAX,
            },
            Which::Database => Calls {
                log: u64::MAX,
                database: calls,
            },
        }
    }
}

/// How many calls each of the two files passes on, before it fails.
#[derive(Clone, Copy)]
pub struct Calls {
    pub log: u64,
    pub database: u64,
}

/// More calls than any visit makes.
pub const ALL_CALLS: Calls = Calls {
    log: u64::MAX,
    database: u64::MAX,
};

/// Both files, which are there also when nobody has them open.
pub struct Media {
    log: Medium,
    database: Medium,
    torn: TornWrites,
}

impl Drop for Media {
    fn drop(self) {
        let Media {
            log: _,
            database: _,
            torn: _,
        } = self;
    }
}

impl Media {
    /// Files with these bytes. The error is out of memory.
    pub fn new(alloc: Global, bytes: &Bytes, torn: TornWrites) -> Result<Media, AllocError> {
        Ok(Media {
            log: Medium::new(alloc, &bytes.log)?,
            database: Medium::new(alloc, &bytes.database)?,
            torn,
        })
    }

    /// Files with what a crash leaves of these that loses all that was written since the last sync. Fails for want of
    /// memory.
    pub fn reopened(&self, alloc: Global) -> io::Result<Media> {
        let bytes = self.left_by(Crash::Loses, Crash::Loses)?;
        Ok(Media::new(alloc, &bytes, self.torn)?)
    }

    /// What these crashes leave of the one and of the other. Fails where memory runs out.
    pub fn left_by(&self, log: Crash, database: Crash) -> io::Result<Bytes> {
        Ok(Bytes {
            log: self.log.left_by(log)?,
            database: self.database.left_by(database)?,
        })
    }

    /// Whether both were changed since their last sync as far as these crashes take something of them.
    pub fn may_be_left_by(&self, log: Crash, database: Crash) -> bool {
        (keeps(log) || self.log.is_changed()) && (keeps(database) || self.database.is_changed())
    }

    /// How often the log was synced.
    pub fn log_syncs(&self) -> u64 {
        self.log.syncs()
    }

    /// How often they were read.
    pub fn reads(&self) -> u64 {
        self.log.reads().saturating_add(self.database.reads())
    }

    /// What a crash may leave of a write to them that it cuts.
    pub fn torn(&self) -> TornWrites {
        self.torn
    }

    /// Opens them; each fails after n calls. The error is out of memory.
    pub fn opened<S: Start>(&self, calls: Calls) -> Result<Files<Fuse<InMemory<S>>>, AllocError> {
        let Files { log, db } = opened::<S>(&self.log, &self.database)?;
        Ok(Files {
            log: Fuse::new(log, calls.log),
            db: Fuse::new(db, calls.database),
        })
    }
}

fn keeps(crash: Crash) -> bool {
    matches!(crash, Crash::Keeps)
}

/// A file in memory of which a crash leaves what `S` says.
pub type InMemory<S> = Modelled<MemoryFile, S>;
