//! A new vault in a store that is empty: its tables and their first rows, or the rows of the vault of an earlier
//! schema version, copied.
#![tactic(auto)]

pub mod copy;
pub mod create;
mod first_rows;
pub mod tables;
