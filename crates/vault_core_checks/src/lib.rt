//! The checks that commands share, each with what its definition gives. They are made in this order:
//! the clock, the caller, the bucket, its department, the right, the arguments, the entry, the lock,
//! the quota, the ids.
#![tactic(auto)]

pub mod argument;
pub mod caller;
pub mod entry;
pub mod limit;
