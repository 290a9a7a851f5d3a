//! Object Lock: retention, legal hold, and who may lift them.
#![tactic(auto)]

pub mod lock;
pub mod retention;
