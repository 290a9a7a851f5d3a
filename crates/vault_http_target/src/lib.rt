//! What the first line and the headers of a request name: headers by name, a path's bucket and key,
//! and a query's subresource with its values.
//!
//! Each fault of a request is the refusal that it is answered with; out of memory is the other one.
#![tactic(auto)]

pub mod fields;
pub mod number;
pub mod path;
pub mod query;
pub mod resource_path;
pub mod routes;
pub mod target;
pub mod text;
