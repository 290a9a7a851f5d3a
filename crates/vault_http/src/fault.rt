//! Why a request was not served to its end.
ghost use Rattle.vault_http.specs.Left.{FromRead};

use thiserror::Error;
use vault_http_request::read::bytes::ReadFault;

/// Why a request was not served to its end.
#[derive(Clone, Copy, Debug, PartialEq, Eq, Error)]
pub enum ServeFault {
    /// The reader failed.
    #[error("Read")]
    Read,
    /// The writer failed.
    #[error("Write")]
    Write,
    /// Room for the request or for its answer was refused.
    #[error("Memory")]
    Memory,
}

impl From<ReadFault> for ServeFault {
    ghost from_gives = { FromRead };

    fn from(fault: ReadFault) -> ServeFault {
        match fault {
            ReadFault::Read => ServeFault::Read,
            ReadFault::Memory => ServeFault::Memory,
        }
    }
}
