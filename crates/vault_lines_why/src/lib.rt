//! Why a script line is refused, in words: which member is wrong, and an example of what is right.
//!
//! It is a second look at a line that was refused, so an accepted line costs nothing. `members` has a row for each
//! thing that can be wrong with a value, and `looks` goes through the rows. Texts are read by the readers that a
//! command is read by.
#![tactic(auto)]

mod explain;
mod looks;
mod members;
mod words;

pub use crate::explain::explain_line;
