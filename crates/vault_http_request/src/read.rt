//! What a request begins with, and its body: bytes that are taken from a reader, and not one more.

pub mod body;
pub mod bytes;
pub mod head;
