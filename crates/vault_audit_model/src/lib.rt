//! The tables of a vault's file: what they are, what their rows mean, and which vault they spell.
#![tactic(auto)]

pub mod faults;
pub mod rows;
pub mod schema;
