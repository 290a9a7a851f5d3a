//! Requests that are served, and texts of requests and answers.
use std::alloc::{AllocError, Global};
use std::io::{Read, Write};
use std::test::Fail;
use vault_core_model::keeper::Keeper;
use vault_http::{ServeFault, serve_one};
use vault_transcript::requests::wire;

/// 2024-01-15T10:30:00Z.
pub const READING: i64 = 1_705_314_600;

/// The headers that come first in each answer at that reading.
const FIRST: &str = "date: Mon, 15 Jan 2024 10:30:00 GMT|connection: close";

/// A text with CR LF for each `|`, and those headers for `~`.
pub fn spelled(alloc: Global, text: &str) -> Result<String, AllocError> {
    let text = text.replace(alloc, "~", FIRST)?;
    wire(alloc, text.as_str())
}

/// Serves one request. This has no clause, so that the proof of a test does not carry what `serve_one` promises.
pub fn serve<R: Read, W: Write, K: Keeper>(
    alloc: Global,
    reader: &mut R,
    writer: &mut W,
    keeper: &mut K,
    reading: i64,
) -> Result<(), ServeFault> {
    serve_one(alloc, reader, writer, keeper, reading)
}

/// The text that is answered to the next request of a reader. Out of memory is an error here: no request of these tests
/// is to get it as its answer.
pub fn answer<R: Read, K: Keeper>(
    alloc: Global,
    reader: &mut R,
    keeper: &mut K,
    reading: i64,
) -> Result<String, Fail> {
    let mut written = Vec::new(alloc);
    serve(alloc, reader, &mut written, keeper, reading)?;
    let text = String::from_utf8(written)?;
    if text.as_str().contains("\"Memory\"") {
        return Err(Fail::from(AllocError));
    }
    Ok(text)
}
