//! The text of all that happened to each entry of a vault, and the seal over what happened before a moment.
#![tactic(auto)]

mod cells;
mod counted;
mod export;
pub mod laws;
pub mod page;
mod past;
mod record;
pub mod register_page;
mod rows;
mod seal_lines;
mod sealing;
mod taker;
mod takers;
pub mod typed;
mod walk;

pub use crate::counted::Counted;
pub use crate::export::export_events;
pub use crate::seal_lines::{Seal, seal_text};
pub use crate::sealing::seal;
