//! Looks at `meta`: its one row, and the next id beside the number of entries.

pub mod row;
pub mod second_look;
