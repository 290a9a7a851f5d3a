//! The running row of a department.
#![tactic(auto)]

pub mod row;
