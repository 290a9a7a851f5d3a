//! Why nothing was served.
use thiserror::Error;

/// Which of two doors nobody can listen at.
#[derive(Clone, Copy, Debug, PartialEq, Eq, Error)]
pub enum DoorFault {
    /// That of requests: the port isn't free, or isn't for this user.
    #[error("Requests")]
    Requests,
    /// That of lines: the same of its port; or no socket can be made at its path.
    #[error("Lines")]
    Lines,
}
