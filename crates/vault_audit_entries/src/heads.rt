//! The rows of `heads`: heads by rising bucket and key, each with the count of its key's held entries, and one
//! over each held entry.

pub mod by_key;
pub mod counts;
pub mod second_look;
