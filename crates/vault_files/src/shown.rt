//! Sentences on standard error, and bytes of others as they are shown in them.
use std::fmt::{self, Display, Formatter, Write};
use std::io;

/// How many bytes of a text are shown. A file's name has no more.
const MOST_SHOWN: usize = 255;

/// Bytes as text, up to `MOST_SHOWN` of them. A character that could end a line or turn its direction stands there
/// escaped, as `\u{2028}`, and a byte that is no UTF-8 as `\xE9`.
#[derive(Clone, Copy, Debug)]
pub(crate) struct Shown<'a>(pub(crate) &'a [u8]);

/// Whether a character is shown as it is.
fn is_plain(letter: char) -> bool {
    !letter.is_control()
        && !matches!(
            letter,
            '\u{61C}' | '\u{200E}' | '\u{200F}' | '\u{2028}'..='\u{202E}' | '\u{2066}'..='\u{2069}' | '\u{FEFF}'
        )
}

fn show_text<W: Write>(f: &mut Formatter<W>, text: &str) -> fmt::Result {
    for letter in text.chars() {
        if is_plain(letter) {
            f.write_char(letter)?;
        } else {
            let code = letter as u32;
            write!(f, "\\u{{{code:X}}}")?;
        }
    }
    Ok(())
}

fn show_bytes<W: Write>(f: &mut Formatter<W>, bytes: &[u8]) -> fmt::Result {
    for byte in bytes {
        write!(f, "\\x{byte:02X}")?;
    }
    Ok(())
}

impl Display for Shown<'_> {
    fn fmt<W: Write>(&self, f: &mut Formatter<W>) -> fmt::Result {
        for chunk in beginning(self.0).utf8_chunks() {
            show_text(f, chunk.valid())?;
            show_bytes(f, chunk.invalid())?;
        }
        if self.0.len() > MOST_SHOWN {
            f.write_str(" ..")?;
        }
        Ok(())
    }
}

/// The first of some bytes, `MOST_SHOWN` at most.
fn beginning(bytes: &[u8]) -> &[u8] {
    match bytes.get(..MOST_SHOWN) {
        Some(first) => first,
        None => bytes,
    }
}

/// What a sentence is about.
#[derive(Clone, Copy)]
pub(crate) enum Given<'a> {
    Bytes(&'a [u8]),
    Count(u64),
    Error(io::Error),
}

/// A sentence, which has what it is about in place of `{}`, or of bytes their number in place of `{n}`.
#[derive(Clone, Copy)]
pub(crate) struct Explanation<'a> {
    pub(crate) words: &'static str,
    pub(crate) given: Given<'a>,
}

/// A sentence without such a place.
pub(crate) fn explained(words: &'static str) -> Explanation<'static> {
    let given = Given::Count(0);
    Explanation { words, given }
}

impl Display for Explanation<'_> {
    fn fmt<W: Write>(&self, f: &mut Formatter<W>) -> fmt::Result {
        let words = self.words;
        let (before, after) = match words.split_once("{}").or(words.split_once("{n}")) {
            Some(parts) => parts,
            None => return f.write_str(words),
        };
        f.write_str(before)?;
        match self.given {
            Given::Bytes(bytes) if words.contains("{n}") => bytes.len().fmt(f)?,
            Given::Bytes(bytes) => Shown(bytes).fmt(f)?,
            Given::Count(count) => count.fmt(f)?,
            Given::Error(error) => error.fmt(f)?,
        }
        f.write_str(after)
    }
}
