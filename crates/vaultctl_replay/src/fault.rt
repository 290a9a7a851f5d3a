//! Why an input was not answered to its end.
use thiserror::Error;

/// Why an input was not answered to its end.
#[derive(Clone, Copy, Debug, PartialEq, Eq, Error)]
pub enum ReplayFault {
    /// The reader failed.
    #[error("Read")]
    Read,
    /// The writer failed.
    #[error("Write")]
    Write,
    /// Room for a line or for a reply was refused.
    #[error("Memory")]
    Memory,
}
