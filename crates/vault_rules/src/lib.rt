//! Lifecycle rules: which entries they make due, and the plan of a run at one key.
#![tactic(auto)]

pub mod due;
pub mod plan;
pub mod rule;
pub mod rule_set;
