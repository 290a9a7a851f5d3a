//! Replies, printed as lines of JSON.
#![tactic(auto)]

pub mod object;
pub mod reply_line;
pub mod rule_value;
