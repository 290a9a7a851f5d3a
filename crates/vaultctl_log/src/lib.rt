//! A server's log: a line of JSON for each request and each line that it took, of who asked for what, and what became of
//! it. No content is in it.
#![tactic(auto)]

mod answered;
mod asked;
pub mod entry;
mod members;
pub mod seen;
