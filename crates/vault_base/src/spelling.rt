//! Tests of the texts of names and ids.
ghost use Rattle.std.specs.Prelude.{◌≡◌, Some, None, ◌&&◌};
ghost use Rattle.std.specs.List.{list_all};
ghost use Rattle.vault_base.specs.Name as spec;

use crate::limits::MOST_IDS;

fn is_lower_or_digit(byte: u8) -> bool
    ensures { result ≡ spec.is_lower_or_digit byte }
{
    matches!(byte, b'a'..=b'z' | b'0'..=b'9')
}

fn is_bucket_byte(byte: u8) -> bool
    ensures { result ≡ spec.is_bucket_byte byte }
{
    is_lower_or_digit(byte) || byte == b'-'
}

fn is_plain_byte(byte: u8) -> bool
    ensures { result ≡ spec.is_plain_byte byte }
{
    is_bucket_byte(byte) || byte == b'_' || byte == b'.'
}

fn is_printable(byte: u8) -> bool
    ensures { result ≡ spec.is_printable byte }
{
    byte >= 32 && byte != 127
}

fn has_bucket_bytes(text: &str) -> bool
    ensures { result ≡ list_all spec.is_bucket_byte text.now }
{
    text.as_bytes().iter().all(|b| is_bucket_byte(*b))
}

fn has_plain_bytes(text: &str) -> bool
    ensures { result ≡ list_all spec.is_plain_byte text.now }
{
    text.as_bytes().iter().all(|b| is_plain_byte(*b))
}

fn has_printable_bytes(text: &str) -> bool
    ensures { result ≡ list_all spec.is_printable text.now }
{
    text.as_bytes().iter().all(|b| is_printable(*b))
}

/// Whether no '-' stands at either end of a text that isn't empty.
fn has_bucket_ends(text: &str) -> bool
    ensures { result ≡ spec.has_bucket_ends text.now }
{
    match text.as_bytes() {
        [] => false,
        [only] => is_lower_or_digit(*only),
        [first, .., last] => is_lower_or_digit(*first) && is_lower_or_digit(*last),
    }
}

/// How many characters a text has.
pub fn character_count(text: &str) -> usize
    ensures { result ≡ spec.character_count text.now }
{
    text.as_bytes()
        .iter()
        .filter(|b| !matches!(**b, 128..=191))
        .count()
}

/// Whether a text is the name of a bucket.
pub fn is_bucket_name(text: &str) -> bool
    ensures { result ≡ spec.is_bucket_name text.now }
{
    text.len() >= 3 && text.len() <= 63 && has_bucket_bytes(text) && has_bucket_ends(text)
}

/// Whether a text is a key, or empty.
pub fn is_key_prefix(text: &str) -> bool
    ensures { result ≡ spec.is_key_prefix text.now }
{
    text.len() <= 1024 && has_printable_bytes(text)
}

/// Whether a text is a key.
pub fn is_object_key(text: &str) -> bool
    ensures { result ≡ spec.is_object_key text.now }
{
    !text.is_empty() && is_key_prefix(text)
}

/// Whether a text is the name of a caller, a department or a batch.
pub fn is_plain_name(text: &str) -> bool
    ensures { result ≡ spec.is_plain_name text.now }
{
    text.len() >= 1 && text.len() <= 64 && has_plain_bytes(text)
}

/// Whether a text is the id of a rule.
pub fn is_rule_id(text: &str) -> bool
    ensures { result ≡ spec.is_rule_id text.now }
{
    let count = character_count(text);
    count >= 1 && count <= 255 && has_printable_bytes(text)
}

fn has_digits(text: &str) -> bool
    ensures { result ≡ spec.has_digits text.now }
{
    text.as_bytes().iter().all(|b| b.is_ascii_digit())
}

/// Whether a text is a number in decimal from 1 on, with no sign and no leading zero.
fn is_numeral(text: &str) -> bool
    ensures { result ≡ spec.is_numeral text.now }
{
    match text.as_bytes().first() {
        Some(b'1'..=b'9') => has_digits(text),
        _ => false,
    }
}

/// The number of the version id that a text writes.
pub fn version_number(text: &str) -> Option<u32>
    ensures { result ≡ spec.version_number text.now }
{
    if !is_numeral(text) {
        return None;
    }
    match text.parse::<u32>() {
        Ok(number) if number >= 1 && number <= MOST_IDS => Some(number),
        Ok(_) => None,
        Err(_) => None,
    }
}
