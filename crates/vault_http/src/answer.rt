//! Answers of HTTP, byte for byte: the status line, the headers in their order, and the body.

pub mod bytes;
pub mod date;
pub mod head;
pub mod lines;
pub mod reply;
pub mod text;
