//! Looks at tenures: each version has departments from its admission to its end, and each department has the
//! sums over its tenures.
//!
//! An error is out of memory, reported as `ErrorCode::OutOfMemory`, or a failure of the store.
#![tactic(auto)]

pub mod chain;
pub mod owned_tenures;
pub mod present;
pub mod second_look;
pub mod sums;
