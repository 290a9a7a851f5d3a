//! A request as it is read: its head, and its body, from a reader's bytes; and what it asks for: its head judged point by
//! point, and the command that it makes with its body.
#![tactic(auto)]

pub mod command;
pub mod host;
pub mod operation;
pub mod plan;
pub mod read;
pub mod request_headers;
pub mod supported;
