//! Edits of the tables of a vault: the statements, one function for each, and the transaction that makes
//! them as a whole or not at all.
//!
//! An error is out of memory, reported as `ErrorCode::OutOfMemory`, `ErrorCode::TooBig` for a number that a
//! column can't take, or a failure of the store.
#![tactic(auto)]

pub mod buckets;
pub mod callers;
pub mod contents;
pub mod departments;
pub mod entries;
pub mod entry_parameters;
pub mod external;
pub mod heads;
pub mod intake;
mod laws;
pub mod meta;
pub mod parameters;
mod put;
pub mod rowids;
pub mod rules;
pub mod settings;
pub mod tenures;
pub mod transaction;
