//! The audit of a vault's tables: a first pass over each table by itself, and a second over what their rows
//! are to each other.
//!
//! Within it an error is out of memory, reported as `ErrorCode::OutOfMemory`, or a failure of the store;
//! `audit` reports each as a refusal.
#![tactic(auto)]

pub mod first_pass;
pub mod found;
mod second_pass;
mod whole;

pub use crate::whole::audit;
