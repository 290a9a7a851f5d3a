//! What a job does with a vault, over any keeper: a command, an intake, a script, requests, and what is printed of a vault.
#![tactic(auto)]

pub mod asked;
pub mod evidence;
pub mod intake;
pub mod jobs;
mod noting;
pub mod saying;
mod serving;
pub mod terminal;
pub mod work;
