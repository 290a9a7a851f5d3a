//! A server's second door: lines beside requests, and the line that ends the server. One thread waits at both doors,
//! and each turn is at most one request or one line.
#![tactic(auto)]

mod both;
pub mod door_reporter;
pub mod doors;
mod fault;
pub mod hearing;
mod line_door;
mod place;
mod talk;
mod turns;
mod two_doors;

pub use both::{Places, serve_with_lines};
pub use fault::DoorFault;
pub use place::LinePlace;
pub use turns::{Server, serve_doors};
pub use vaultctl_serve_lines_answers::{heard, line, service};
