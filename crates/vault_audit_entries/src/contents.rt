//! The contents of the held versions, beside their entries: bytes in `contents`, or bytes that are kept outside.

pub mod beside;
pub mod outside;
pub mod second_look;
