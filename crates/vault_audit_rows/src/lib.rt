//! Rows of the tables: read as what they say, and walks over those of a query, one row at a time, also of rows that
//! stand next to those of another table.
//!
//! `Misread::Wrong`: the columns state no such value in its limits. `Misread::Memory`: there was no memory for it.
//! The error of a walk is out of memory, reported as `ErrorCode::OutOfMemory`, or a failure of the store.
#![tactic(auto)]

pub mod absence;
pub mod cell;
pub mod check;
pub mod misread;
pub mod name;
pub mod records;
pub mod several_columns;
pub mod walk;
