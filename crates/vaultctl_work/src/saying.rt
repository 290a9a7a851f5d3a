//! What standard error says in words.
use std::io::Write;

/// Says something in words, on a line of its own. Where this can't be written, what stands before it says it alone.
pub fn say<E: Write>(err: &mut E, words: &str) {
    let _ = writeln!(err, "{words}");
}
