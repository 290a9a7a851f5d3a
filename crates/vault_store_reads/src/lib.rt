//! Reads of a vault's tables: records by their keys, and several rows in order.
//!
//! Each answers what its name says of the vault that the connection keeps, and changes nothing. An error
//! is out of memory, reported as `ErrorCode::OutOfMemory`, or a failure of the store.
#![tactic(auto)]

pub mod entries;
pub mod heads;
pub mod meta;
pub mod names;
pub mod notes;
pub mod query;
pub mod rows_in_order;
