//! HTTP and JSON for whoever serves requests or reads lines: one exchange over any reader, any writer and any
//! keeper (a request, at most one step, and its answer), script lines, and replies printed as lines.
#![tactic(auto)]

pub mod answer;
pub mod carrying;
pub mod command;
pub mod fault;
pub mod judging;
pub mod laws;
mod send;
pub mod serve;

pub use crate::fault::ServeFault;
pub use crate::serve::{Occasion, serve_for, serve_one};
pub use vault_http_request::host::Hosts;
