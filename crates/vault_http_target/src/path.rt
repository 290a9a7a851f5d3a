//! The parts of a path, and the texts that they mean.
ghost use Rattle.std.specs.Prelude.{◌≡◌, ◌≤◌, drop, length};
ghost use Rattle.std.specs.Option.{option_copied};
ghost use Rattle.vault_values.specs.Fault.{Gives};
ghost use Rattle.vault_http_target.specs.Path as spec;

use crate::text::Text;
use percent_encoding::percent_decode;
use std::alloc::Global;
use std::str;
use vault_base::refusal::Refusal;
use vault_values::fault::LineFault;

/// How many bytes stand before the first such byte.
fn count_before(bytes: &[u8], stop: u8) -> usize
    ensures value { result ≡ spec.count_before stop bytes.now }
    ensures bound { result ≤ length bytes.now }
{
    bytes.iter().take_while(|b| **b != stop).count()
}

/// The bytes before the first such byte, or all of them.
pub fn before(bytes: &[u8], stop: u8) -> &[u8]
    ensures { result.now ≡ spec.before stop bytes.now }
{
    &bytes[..count_before(bytes, stop)]
}

/// The bytes after the first such byte, if there are any.
pub fn after(bytes: &[u8], stop: u8) -> &[u8]
    ensures { result.now ≡ spec.after stop bytes.now }
{
    let n = count_before(bytes, stop);
    if n < bytes.len() {
        &bytes[n + 1..]
    } else {
        &[]
    }
}

/// The bytes after the first one.
pub fn after_first(bytes: &[u8]) -> &[u8]
    ensures { result.now ≡ drop 1 bytes.now }
{
    if bytes.is_empty() { bytes } else { &bytes[1..] }
}

/// The text that the bytes are in UTF-8.
pub fn as_text(bytes: &[u8]) -> Option<&str>
    ensures { option_copied result ≡ spec.as_text bytes.now }
{
    match str::from_utf8(bytes) {
        Ok(text) => Some(text),
        Err(_) => None,
    }
}

/// The text that a part of a path means once it is percent-decoded (RFC 3986, section 2.1), or
/// that refusal where it isn't UTF-8. A `%` without two digits is itself.
#[tactic(auto, unfolding(crate::specs::Path::decoded))]
pub fn decoded(alloc: Global, part: &[u8], refusal: Refusal) -> Result<Text, LineFault>
    ensures { Gives (λ x. x) result (spec.decoded refusal part.now) }
{
    let mut bytes = Vec::new(alloc);
    percent_decode(part).append_to(&mut bytes)?;
    match as_text(bytes.as_slice()) {
        Some(text) => Ok(Text::of(alloc, text)?),
        None => Err(LineFault::Refused(refusal)),
    }
}
