//! Changes, each as a part of a transaction that edits the tables.

pub mod bucket;
pub mod caller;
pub mod department;
pub mod entry;
mod given;
pub mod moves;
pub mod setting;
