//! The first pass over the tables, in their order: each by itself, its form and its rows.

pub mod buckets;
pub mod callers;
pub mod contents;
pub mod departments;
pub mod entries;
pub mod external;
pub mod heads;
pub mod in_order;
pub mod intake;
pub mod meta;
pub mod record;
pub mod rules;
pub mod settings;
pub mod tenures;
