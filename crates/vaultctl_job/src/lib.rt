//! What the words of a command line ask the program to do.
#![tactic(auto)]

mod arguments;
pub mod fault;
pub mod job;
mod reading;
mod subcommands;
pub mod word;
pub mod words;
