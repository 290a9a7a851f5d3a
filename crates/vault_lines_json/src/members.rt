//! The members of an object, each by its JSON type.
ghost use Rattle.std.specs.Prelude.{◌≡◌, map, option_map};
ghost use Rattle.serde_json.specs.View.{view, items_view};
ghost use Rattle.vault_values.specs.Fault.{Gives};
ghost use Rattle.vault_lines_json.specs.Members as spec;

use hex::FromHex as _;
use serde_json::Value;
use std::alloc::{AllocError, Global};
use vault_base::content::Digest;
use vault_base::refusal::Refusal;
use vault_values::fault::LineFault;

/// A whole number as JSON gives it: below zero, or of at most 64 bits.
#[derive(Clone, Copy, Debug, PartialEq, Eq)]
pub enum Whole {
    Negative,
    Natural(u64),
}

/// A member that must be there, a text.
#[tactic(auto, unfolding(crate::specs::Members::text_of))]
pub fn text_of<'v>(name: &str, value: &'v Value) -> Result<&'v str, LineFault>
    ensures { Gives (λ x. x.now) result (spec.text_of name.now (view value.now)) }
{
    match value.get(name).and_then(Value::as_str) {
        Some(text) => Ok(text),
        None => Err(LineFault::Refused(Refusal::MalformedBody)),
    }
}

/// A member that may be left out, a text.
#[tactic(auto, unfolding(crate::specs::Members::optional_text_of))]
pub fn optional_text_of<'v>(name: &str, value: &'v Value) -> Result<Option<&'v str>, LineFault>
    ensures { Gives (λ o. option_map (λ x. x.now) o) result (spec.optional_text_of name.now (view value.now)) }
{
    let Some(member) = value.get(name) else {
        return Ok(None);
    };
    match member.as_str() {
        Some(text) => Ok(Some(text)),
        None => Err(LineFault::Refused(Refusal::MalformedBody)),
    }
}

/// The digest that a text writes in 64 hex digits.
fn digest_written(text: &str) -> Option<Digest>
    ensures { result ≡ spec.digest_written text.now }
{
    let bytes = <[u8; 32]>::from_hex(text).ok()?;
    Digest::from_slice(&bytes)
}

/// The digest that a value is.
pub fn as_digest(value: &Value) -> Option<Digest>
    ensures { result ≡ spec.as_digest (view value.now) }
{
    value.as_str().and_then(digest_written)
}

/// A member that may be left out, a digest.
#[tactic(auto, unfolding(crate::specs::Members::optional_digest_of))]
pub fn optional_digest_of(name: &str, value: &Value) -> Result<Option<Digest>, LineFault>
    ensures { Gives (λ x. x) result (spec.optional_digest_of name.now (view value.now)) }
{
    let Some(member) = value.get(name) else {
        return Ok(None);
    };
    match as_digest(member) {
        Some(digest) => Ok(Some(digest)),
        None => Err(LineFault::Refused(Refusal::MalformedBody)),
    }
}

/// The whole number that a value is.
pub fn as_whole(value: &Value) -> Option<Whole>
    ensures { result ≡ spec.as_whole (view value.now) }
{
    match value.as_u64() {
        Some(number) => Some(Whole::Natural(number)),
        None => value.as_i64().map(|_| Whole::Negative),
    }
}

/// A member that must be there, a whole number.
#[tactic(auto, unfolding(crate::specs::Members::whole_of))]
pub fn whole_of(name: &str, value: &Value) -> Result<Whole, LineFault>
    ensures { Gives (λ x. x) result (spec.whole_of name.now (view value.now)) }
{
    match value.get(name).and_then(as_whole) {
        Some(number) => Ok(number),
        None => Err(LineFault::Refused(Refusal::MalformedBody)),
    }
}

/// A member that may be left out, a whole number.
#[tactic(auto, unfolding(crate::specs::Members::optional_whole_of))]
pub fn optional_whole_of(name: &str, value: &Value) -> Result<Option<Whole>, LineFault>
    ensures { Gives (λ x. x) result (spec.optional_whole_of name.now (view value.now)) }
{
    let Some(member) = value.get(name) else {
        return Ok(None);
    };
    match as_whole(member) {
        Some(number) => Ok(Some(number)),
        None => Err(LineFault::Refused(Refusal::MalformedBody)),
    }
}

fn texts_in(alloc: Global, items: &[Value]) -> Result<Vec<&str>, LineFault>
    ensures { Gives (λ v. map (λ x. x.now) v.items) result (spec.as_texts (items_view items.now)) }
{
    let mut texts = Vec::new(alloc);
    for item in items {
        let Some(text) = item.as_str() else {
            return Err(LineFault::Refused(Refusal::MalformedBody));
        };
        texts.push(text).map_err(AllocError::from)?;
    }
    Ok(texts)
}

/// A member that must be there, a list of texts.
#[tactic(auto, unfolding(crate::specs::Members::texts_of))]
pub fn texts_of<'v>(alloc: Global, name: &str, value: &'v Value) -> Result<Vec<&'v str>, LineFault>
    ensures { Gives (λ v. map (λ x. x.now) v.items) result (spec.texts_of name.now (view value.now)) }
{
    match value.get(name).and_then(Value::as_array) {
        Some(items) => texts_in(alloc, items.as_slice()),
        None => Err(LineFault::Refused(Refusal::MalformedBody)),
    }
}

/// A member that must be there, a list.
#[tactic(auto, unfolding(crate::specs::Members::items_of))]
pub fn items_of<'v>(name: &str, value: &'v Value) -> Result<&'v [Value], LineFault>
    ensures { Gives (λ v. items_view v.now) result (spec.items_of name.now (view value.now)) }
{
    match value.get(name).and_then(Value::as_array) {
        Some(items) => Ok(items.as_slice()),
        None => Err(LineFault::Refused(Refusal::MalformedBody)),
    }
}

/// A member that may be left out, a truth value; left out, it is false.
#[tactic(auto, unfolding(crate::specs::Members::flag_of))]
pub fn flag_of(name: &str, value: &Value) -> Result<bool, LineFault>
    ensures { Gives (λ x. x) result (spec.flag_of name.now (view value.now)) }
{
    let Some(member) = value.get(name) else {
        return Ok(false);
    };
    match member.as_bool() {
        Some(flag) => Ok(flag),
        None => Err(LineFault::Refused(Refusal::MalformedBody)),
    }
}
