//! The history machine: what is kept, what is asked and what is answered.
#![tactic(auto)]

pub mod access;
pub mod change;
pub mod command;
pub mod halt;
pub mod held;
pub mod keeper;
pub mod kept;
pub mod records;
pub mod reply;
pub mod rights;
pub mod wrapper;
