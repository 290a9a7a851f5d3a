//! Changes of entries, and moves of buckets with all that they hold, each made in one transaction.

pub mod admission;
mod context;
pub mod moves;
pub mod removal;
mod removal_context;
pub mod settings;
