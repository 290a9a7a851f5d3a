//! The words that are written of more than one mistake.
use crate::members::Object;
use std::alloc::{AllocError, Global};
use strsim::levenshtein;
use vault_lines_read::verb::FORMS;

/// The words for a fault, where there is one; the error is that memory is wanting.
pub(crate) type Words = Result<Option<String>, AllocError>;

/// Words; the error is that memory is wanting.
pub(crate) type Text = Result<String, AllocError>;

/// The longest name of a line's own that is shown or compared, in bytes.
const LONGEST: usize = 40;

/// The words for a rule as S3's XML nests it.
const NESTED: &str =
    "a rule has no \"Filter\": the prefix and the bounds on sizes stand beside \"ID\", as \"Prefix\":\"a/\"";

/// A text of the line as it may be shown on a terminal: a short one of printable ASCII as it stands, else dots.
fn shown(text: &str) -> &str {
    let is_plain = text
        .as_bytes()
        .iter()
        .all(|byte| 32u8 <= *byte && *byte < 127u8);
    if is_plain && text.len() <= LONGEST {
        text
    } else {
        ".."
    }
}

/// How many letters have to be edited; none where they differ in their case alone.
fn edits(alloc: Global, given: &str, name: &str) -> Result<usize, AllocError> {
    if name.eq_ignore_ascii_case(given) {
        Ok(0)
    } else {
        levenshtein(alloc, given, name)
    }
}

/// The name that a given one is nearest to, of those of which at most half has to be edited; else the empty text.
fn nearest(alloc: Global, given: &str, names: &[&'static str]) -> Result<&'static str, AllocError> {
    let mut found = "";
    let mut least = usize::MAX;
    if given.len() > LONGEST {
        return Ok(found);
    }
    for name in names {
        let edits = edits(alloc, given, name)?;
        if edits < least && edits <= name.len() / 2 {
            least = edits;
            found = name;
        }
    }
    Ok(found)
}

/// The words for a member of another name than these, which an object can have.
pub(crate) fn unknown_words(alloc: Global, of: &str, given: &str, names: &[&'static str]) -> Text {
    if of == "a rule" && given == "Filter" {
        return String::from_str(alloc, NESTED);
    }
    let name = shown(given);
    let nearest = nearest(alloc, given, names)?;
    if !nearest.is_empty() {
        return format!(in alloc; "{of} has no member \"{name}\"; the nearest is \"{nearest}\"");
    }
    let mut words = format!(in alloc; "{of} has no member \"{name}\"; it has")?;
    for name in names {
        words.push_str(" \"")?;
        words.push_str(name)?;
        words.push_str("\"")?;
    }
    Ok(words)
}

/// The words for a `do` that names no command.
pub(crate) fn no_command(alloc: Global, given: &str) -> Text {
    let mut names = Vec::new(alloc);
    for (_, name, _) in &FORMS {
        names.push(*name)?;
    }
    let name = shown(given);
    let nearest = nearest(alloc, given, names.as_slice())?;
    if nearest.is_empty() {
        format!(in alloc; "\"do\" names no command: \"{name}\"")
    } else {
        format!(in alloc; "\"do\" names no command: \"{name}\"; the nearest is \"{nearest}\"")
    }
}

/// The words for a member that is missing.
pub(crate) fn lacks(alloc: Global, object: &Object, name: &str) -> Text {
    let (of, example) = (object.name, object.example(name));
    format!(in alloc; "{of} lacks the member \"{name}\", as \"{name}\":{example}")
}

/// The words for a member that has to be something else.
pub(crate) fn has_to_be(alloc: Global, object: &Object, name: &str, what: &str) -> Text {
    let example = object.example(name);
    format!(in alloc; "\"{name}\" has to be {what}, as \"{name}\":{example}")
}
