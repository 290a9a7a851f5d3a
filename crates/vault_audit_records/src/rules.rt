//! The rows of `rules`: each bucket has no rules or a set that it may have.

pub mod owners;
pub mod placed;
pub mod second_look;
