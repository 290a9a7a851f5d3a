//! What each command on entries and their locks answers and changes, over any keeper: puts and lines of
//! an intake batch, reads, removals, retention and legal hold. A command makes its checks in their order,
//! then at most one change; all memory that it takes is taken before the change.
//!
//! `Halt::Refused` has the refusal of the first check that fails: each command's refusals and their order
//! stand in `docs/RULES.md`, "Order of checks". `Halt::Fault` comes where memory runs out or a failing device.
//! Either leaves the vault as it was.
#![tactic(auto)]

mod admission;
pub mod deletions;
pub mod intake;
pub mod locks;
pub mod put;
pub mod reads;
