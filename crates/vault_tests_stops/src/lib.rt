//! Days over a vault in files, for tests that stop them: what is asked on each, what is to be found after each of its changes,
//! and a day that one of the files stops at each of its calls.
#![tactic(auto)]

pub mod day;
mod expected;
mod seen;
mod stopped;
pub mod trial;
mod visit;
