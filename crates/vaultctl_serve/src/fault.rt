//! Why nothing was served.
use thiserror::Error;

/// Why nothing was served.
#[derive(Clone, Copy, Debug, PartialEq, Eq, Error)]
pub enum PortFault {
    /// The port isn't free.
    #[error("Device")]
    Device,
}
