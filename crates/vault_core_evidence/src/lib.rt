//! What a history shows to somebody who doesn't trust the machine that the vault is kept on: the events before
//! a moment stay what they are, and each setting and each removal keeps the lock rules.
#![tactic(auto)]

pub mod breach;
mod history;
pub mod holders;
pub mod laws;
mod locks;
pub mod parts;
mod rights;
pub mod seen_moves;
mod shown;
pub mod walk;
