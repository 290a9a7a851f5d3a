//! What a line of a server's second door asks for, and what it is answered: a command, or what only that door has.
#![tactic(auto)]

pub mod asked;
pub mod asking;
pub mod buckets_line;
pub mod heard;
pub mod inquiry;
pub mod lawful_line;
pub mod line;
pub mod page_line;
pub mod service;
pub mod status_line;
