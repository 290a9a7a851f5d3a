//! Reads and writes that a signal may interrupt, and all of some bytes to a writer.
//!
//! What stands written after a fault is reported, which the standard library's `write_all` leaves open.
#![tactic(auto)]

pub mod retry;
pub mod writing;
