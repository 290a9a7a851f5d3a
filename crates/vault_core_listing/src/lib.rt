//! The commands that list a bucket's versions and certify a removed one, over any keeper.
//!
//! `Halt::Refused` has the refusal of the first check that fails: each command's refusals and their order
//! stand in `docs/RULES.md`, "Order of checks". `Halt::Fault` comes where memory runs out or a failing device.
//! Either leaves the vault as it was.
#![tactic(auto)]

pub mod certificates;
pub mod listings;
