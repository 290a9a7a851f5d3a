//! The vault over HTTP on a port of this machine: one request a connection, one connection after another, none of
//! which keeps the next one waiting for long.
#![tactic(auto)]

pub mod arrivals;
pub mod clock;
mod connection;
pub mod deadline;
mod fault;
pub mod inbound;
pub mod lingering;
pub mod noted;
pub mod peer;
pub mod reporter;
mod scan;
mod server;
pub mod timed;

pub use connection::{serve_connection, serve_in_time};
pub use fault::PortFault;
pub use server::{Means, Port, serve, serve_arrivals, trouble_of};
