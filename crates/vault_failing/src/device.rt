//! Files in memory, for tests: a crash leaves a part of what was written since the last sync.

mod contents;
mod media;
mod medium;
mod memory_file;
mod record;

pub use crate::device::contents::Crash;
pub use crate::device::media::{ALL_CALLS, Bytes, Calls, InMemory, Media, TornWrites, Which};
pub use crate::device::medium::{Medium, opened};
pub use crate::device::memory_file::MemoryFile;
