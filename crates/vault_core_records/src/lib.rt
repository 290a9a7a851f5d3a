//! What each command on departments, callers, buckets and their configuration answers and changes, over
//! any keeper. A command makes its checks in their order, then at most one change; all memory that it
//! takes is taken before the change.
//!
//! `Halt::Refused` has the refusal of the first check that fails: each command's refusals and their order
//! stand in `docs/RULES.md`, "Order of checks". `Halt::Fault` comes where memory runs out or a failing device.
//! Either leaves the vault as it was.
#![tactic(auto)]

pub mod config;
mod laws;
pub mod moves;
pub mod records;
