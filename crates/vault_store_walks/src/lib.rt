//! Reads of a vault's tables that go through many rows, one at a time: none is kept.
//!
//! Each answers what its name says of the vault that the connection keeps, and changes nothing. An error
//! is out of memory, reported as `ErrorCode::OutOfMemory`, or a failure of the store.
#![tactic(auto)]

pub mod held;
pub mod removed;
