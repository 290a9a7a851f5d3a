//! Looks at `departments`: the query for its rows, and these by rising name.

pub mod by_name;
pub mod query;
