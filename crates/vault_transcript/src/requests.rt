//! Texts of requests.
use std::alloc::{AllocError, Global};

fn push_wire(bytes: &mut String, text: &str) -> Result<(), AllocError> {
    for c in text.chars() {
        if c == '|' {
            bytes.push_str("\r\n")?;
        } else {
            bytes.push(c)?;
        }
    }
    Ok(())
}

/// A text with CR LF for each `|`.
pub fn wire(alloc: Global, text: &str) -> Result<String, AllocError> {
    let mut bytes = String::new(alloc);
    push_wire(&mut bytes, text)?;
    Ok(bytes)
}
