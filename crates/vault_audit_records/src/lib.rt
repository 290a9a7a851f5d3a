//! Looks at the rows of each table by themselves, and at those that the office is made of: the row of `meta`,
//! names in their order, rules at their places, and entries by their ids.
//!
//! An error is out of memory, reported as `ErrorCode::OutOfMemory`, or a failure of the store.
#![tactic(auto)]

pub mod buckets;
pub mod callers;
pub mod departments;
pub mod entries;
pub mod meta;
pub mod row_check;
pub mod rules;
