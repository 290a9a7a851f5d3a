//! Looks at what stands beside the entries: contents, settings, notes of intakes, and the heads of their keys.
//!
//! An error is out of memory, reported as `ErrorCode::OutOfMemory`, or a failure of the store.
#![tactic(auto)]

pub mod contents;
pub mod heads;
pub mod held;
pub mod intake;
pub mod settings;
