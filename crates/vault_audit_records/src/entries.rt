//! Looks at `entries`: each row by itself, and all of them by their ids.

pub mod row;
pub mod second_look;
