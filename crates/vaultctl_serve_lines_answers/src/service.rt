//! What a server says of itself.
use std::alloc::Global;
use vault_base::moment::Moment;

/// What a server says of itself, and where it keeps what it reads.
#[derive(Clone, Copy)]
pub struct Service {
    /// Where what is read is kept.
    pub alloc: Global,
    /// The version of the program.
    pub version: &'static str,
    /// When the server began to listen; none where the clock showed no moment then.
    pub since: Option<Moment>,
}
