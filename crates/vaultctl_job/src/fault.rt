//! Why words are no job.
use thiserror::Error;

/// Why words are no job.
#[derive(Debug, Drop, Error)]
pub enum WordsFault {
    /// The words aren't of the form that a subcommand has, or ask for help; with the text that says so.
    #[error("{0}")]
    Refused(String),
    #[error("out of memory")]
    Memory,
}
