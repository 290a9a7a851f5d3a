//! The tables as a file has them: their columns, and the texts that are made of these; whether a file's schema is the
//! vault's, at which table it first differs, and the statements that make the tables.
#![tactic(auto)]

mod column;
mod columns;
mod compare;
mod difference;
mod index;
mod statements;
mod table;
mod texts;

pub use difference::{check_schema, first_difference};
pub use statements::{creation, index_creation};
