//! A file that is there also when nobody has it open.
ghost use Rattle.std.specs.Prelude.{◌≡◌, [], ◌∷◌, IfOk};
ghost use Rattle.sqlite_disk.specs.Events.{settled};
ghost use Rattle.vault_failing.specs.File.{events_of};

use crate::device::contents::{Contents, Crash};
use crate::device::memory_file::MemoryFile;
use sqlite_disk::{Files, Modelled, Start};
use std::alloc::{AllocError, Global};
use std::cell::RefCell;
use std::io;
use std::rc::Rc;

/// A file in memory.
pub struct Medium {
    contents: Rc<RefCell<Contents>>,
}

// It is written out, so that a caller does not prove again how each part is let go of.
impl Drop for Medium {
    fn drop(self) {
        let Medium { contents: _ } = self;
    }
}

/// The key under which the digests of both files are taken. A program draws it.
const KEY: u64 = 1;

impl Medium {
    /// A file that has these bytes, also after a crash. Fails where memory runs out.
    pub fn new(alloc: Global, bytes: &[u8]) -> Result<Medium, AllocError> {
        let contents = Contents::new(alloc, bytes)?;
        Ok(Medium {
            contents: Rc::new(alloc, RefCell::new(contents))?,
        })
    }

    fn open(&self) -> Result<MemoryFile, AllocError>
        ensures { IfOk result (λ file. events_of file ≡ settled 1 ∷ []) }
    {
        Ok(MemoryFile::new(self.contents.clone()?, KEY))
    }

    /// What this crash would leave now. Fails where memory runs out.
    pub fn left_by(&self, crash: Crash) -> io::Result<Vec<u8>> {
        match self.contents.try_borrow() {
            Ok(contents) => Ok(contents.left_by(crash)?),
            Err(_) => Err(io::ErrorKind::ResourceBusy.into()),
        }
    }

    /// Whether the file was changed since its last sync, so that a crash may leave something else of it.
    pub fn is_changed(&self) -> bool {
        match self.contents.try_borrow() {
            Ok(contents) => contents.is_changed(),
            Err(_) => true,
        }
    }

    /// How often the file was read.
    pub fn reads(&self) -> u64 {
        match self.contents.try_borrow() {
            Ok(contents) => contents.reads(),
            Err(_) => 0,
        }
    }

    /// How often the file was synced.
    pub fn syncs(&self) -> u64 {
        match self.contents.try_borrow() {
            Ok(contents) => contents.syncs(),
            Err(_) => 0,
        }
    }
}

/// Opens a log and its database file. Fails where memory runs out.
pub fn opened<S: Start>(
    log: &Medium,
    database: &Medium,
) -> Result<Files<Modelled<MemoryFile, S>>, AllocError> {
    let log = log.open()?;
    let database = database.open()?;
    Ok(Files {
        log: Modelled::new(log, true, KEY),
        db: Modelled::new(database, false, KEY),
    })
}
