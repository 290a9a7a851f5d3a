//! JSON objects of lines and bodies: the shapes that they may have, and what their members spell.
//!
//! First the shape is looked at, as a whole (`shape`), and then the values are read one after
//! another (`values`, `locks`, `rules`), so that a fault of shape comes before any of a value.
#![tactic(auto)]

pub mod document;
pub mod locks;
pub mod members;
pub mod rules;
pub mod shape;
pub mod values;
