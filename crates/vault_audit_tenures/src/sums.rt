//! The running rows of the departments, beside the sums over their tenures.

pub mod departments;
pub mod owned_entries;
pub mod second_look;
pub mod tenures;
pub mod totals;
pub mod versions;
