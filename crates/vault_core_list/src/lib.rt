//! The plain program of a vault: one list of whole histories, and records in the order of their names.
//!
//! Its reads filter and sum over the whole list, as their definitions do. A keeper that looks up rows
//! and running sums has to answer what this one answers.
#![tactic(auto)]

mod bucket;
mod change;
mod find;
mod ids;
mod keys;
pub mod list_keeper;
mod lists;
mod place;
mod removed;
mod sums;
