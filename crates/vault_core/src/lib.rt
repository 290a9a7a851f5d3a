//! The history machine: one step of a command, and a run of timed commands, over any keeper.
#![tactic(auto)]

pub mod fuse_keeper;
pub mod hearing;
pub mod run;
pub mod step;
