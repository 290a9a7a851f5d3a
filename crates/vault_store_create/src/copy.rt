//! The vault of a file of an earlier schema version, copied into the tables of a new one.

pub mod begin;
mod listing;
mod row;
mod tables;
