//! Every change of the vault, made in one transaction, as a whole or not at all.
//!
//! An error is out of memory, reported as `ErrorCode::OutOfMemory`, `ErrorCode::TooBig` for a number that a
//! column can't take, or a failure of the store.
#![tactic(auto)]

pub mod apply;
pub mod commit;
pub mod entries;
pub mod parts;
pub mod records;
