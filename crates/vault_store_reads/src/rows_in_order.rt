//! Reads of a vault that show several rows in order.

mod buckets;
mod count;
mod decode;
mod find;
mod ids;
pub mod reads;
pub(crate) mod rows;
mod shown;
