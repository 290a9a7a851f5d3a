//! What a job asks of a vault carried out over any keeper, and its answer printed.
#![tactic(auto)]

pub mod asked;
pub mod carrying;
pub mod evidence;
pub mod fault;
pub mod intake;
pub mod outcome;
pub mod printing;
pub mod progress_keeper;
pub mod progress_writer;
pub mod rows;
pub mod text;
mod words;
