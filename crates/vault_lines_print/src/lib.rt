//! Commands, printed as the lines that ask for them.
//!
//! A line is read into a command by `vault_lines_read`; what is printed here is read there as the same command.
#![tactic(auto)]

pub mod command_line;
mod config_members;
mod entry_members;
mod laws;
mod lock_members;
mod members;
mod record_members;
