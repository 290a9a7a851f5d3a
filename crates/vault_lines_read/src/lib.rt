//! Script lines, read into commands.
//!
//! What a line's members spell is read by `vault_lines_json`.
#![tactic(auto)]

mod config_lines;
mod entry_lines;
pub mod laws;
mod list_line;
mod lock_lines;
pub mod read_line;
mod record_lines;
pub mod stamped;
pub mod verb;
