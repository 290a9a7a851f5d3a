//! What a refusal of the store is to a keeper, and what the keeper notes of it.

ghost use Rattle.std.specs.Prelude.{◌≡◌, false, true};
ghost use Rattle.vault_core_model.specs.Halts.{is_device_fault};
ghost use Rattle.vault_core_model.specs.Leaves.{count_after};
ghost use Rattle.vault_store.specs.Blame.{fault_of};

use sqlite::{Error, ErrorCode};
use vault_core_model::halt::Fault;

/// What a keeper notes of the errors of its store: how often the store failed, and whether the last error may
/// have shut the connection. One call alone notes either, so no error is doubted and left uncounted.
#[derive(Drop)]
pub struct Blamed {
    doubted: bool,
    faults: u64,
}

impl Blamed {
    /// Of a connection that is open, whose store never failed.
    pub(crate) fn new() -> Blamed
        ensures { result ≡ record { doubted = false; faults = 0 } }
    {
        Blamed {
            doubted: false,
            faults: 0,
        }
    }

    /// How often the store failed.
    pub(crate) fn faults(&self) -> u64
        ensures { result ≡ self.now.faults }
    {
        self.faults
    }

    /// Whether an error may have shut the connection, and nothing has shown since that it is open.
    pub(crate) fn is_doubted(&self) -> bool
        ensures { result ≡ self.now.doubted }
    {
        self.doubted
    }

    /// The connection is open.
    pub(crate) fn trust(&mut self)
        ensures { self.new ≡ record self.old { doubted = false } }
    {
        self.doubted = false;
    }

    /// Out of memory is reported as such; any other cause is the device's, and is counted. After either the
    /// connection may be shut, so that it is open is doubted.
    pub(crate) fn blame(&mut self, error: Error) -> Fault
        ensures reported { result ≡ fault_of error }
        ensures counted { self.new.faults ≡ count_after self.old.faults (is_device_fault result) }
        ensures doubted { self.new.doubted ≡ true }
    {
        self.doubted = true;
        match error {
            Error::SqliteFailure(ErrorCode::OutOfMemory) => Fault::Memory,
            _ => {
                self.faults = self.faults.saturating_add(1);
                Fault::Device
            }
        }
    }
}
