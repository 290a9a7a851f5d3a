//! A reader, a writer and files that fail, for tests of what a fault or a crash leaves.
#![tactic(auto)]

pub mod device;
pub mod streams;
