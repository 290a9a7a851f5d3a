//! The shape of an object: which members it has, each of its JSON type.
ghost use Rattle.std.specs.Prelude.{◌≡◌, map, string_bytes};
ghost use Rattle.std.specs.List.{list_all, list_any};
ghost use Rattle.std.specs.Str.{bytes_eq};
ghost use Rattle.serde_json.specs.Find.{get};
ghost use Rattle.serde_json.specs.View.{view, items_view, members_view};
ghost use Rattle.vault_lines_json.specs.Shape as spec;

use crate::members::{as_digest, as_whole};
use serde_json::{Map, Value};

/// The JSON type of a member, and whether it may be left out.
#[derive(Clone, Copy, Debug, PartialEq, Eq)]
pub enum Kind {
    Text,
    OptionalText,
    /// A text of 64 hex digits.
    OptionalDigest,
    Number,
    OptionalNumber,
    /// A truth value.
    OptionalFlag,
    /// A list of texts.
    Texts,
    /// A list of lifecycle rules as S3's JSON has them.
    Rules,
}

fn is_text(value: &Value) -> bool
    ensures { result ≡ spec.is_text (view value.now) }
{
    value.is_string()
}

fn has_text(name: &str, value: &Value) -> bool
    ensures { result ≡ spec.needed spec.is_text (get name.now (view value.now)) }
{
    match value.get(name) {
        Some(member) => member.is_string(),
        None => false,
    }
}

fn may_have_text(name: &str, value: &Value) -> bool
    ensures { result ≡ spec.optional spec.is_text (get name.now (view value.now)) }
{
    match value.get(name) {
        Some(member) => member.is_string(),
        None => true,
    }
}

fn may_have_digest(name: &str, value: &Value) -> bool
    ensures { result ≡ spec.optional spec.is_digest (get name.now (view value.now)) }
{
    match value.get(name) {
        Some(member) => as_digest(member).is_some(),
        None => true,
    }
}

fn has_number(name: &str, value: &Value) -> bool
    ensures { result ≡ spec.needed spec.is_number (get name.now (view value.now)) }
{
    match value.get(name) {
        Some(member) => as_whole(member).is_some(),
        None => false,
    }
}

fn may_have_number(name: &str, value: &Value) -> bool
    ensures { result ≡ spec.optional spec.is_number (get name.now (view value.now)) }
{
    match value.get(name) {
        Some(member) => as_whole(member).is_some(),
        None => true,
    }
}

fn may_have_flag(name: &str, value: &Value) -> bool
    ensures { result ≡ spec.optional spec.is_flag (get name.now (view value.now)) }
{
    match value.get(name) {
        Some(member) => member.as_bool().is_some(),
        None => true,
    }
}

fn all_texts(items: &[Value]) -> bool
    ensures { result ≡ list_all (λ v. spec.is_text (view v)) items.now }
{
    items.iter().all(is_text)
}

fn are_texts(items: &[Value]) -> bool
    ensures { result ≡ spec.all_items spec.is_text (items_view items.now) }
{
    all_texts(items)
}

fn has_texts(name: &str, value: &Value) -> bool
    ensures { result ≡ spec.needed spec.are_texts (get name.now (view value.now)) }
{
    match value.get(name).and_then(Value::as_array) {
        Some(items) => are_texts(items.as_slice()),
        None => false,
    }
}

fn is_among(name: &str, names: &[&str]) -> bool
    ensures { result ≡ list_any (λ n. bytes_eq name.now n.now) names.now }
{
    names.iter().any(|n| name == *n)
}

fn all_among(object: &Map<String, Value>, names: &[&str]) -> bool
    ensures { result ≡ list_all (λ e. list_any (λ n. bytes_eq (string_bytes e.0) n.now) names.now) object.now.entries }
{
    object
        .iter()
        .all(|(name, _)| is_among(name.as_str(), names))
}

fn are_within(object: &Map<String, Value>, names: &[&str]) -> bool
    ensures { result ≡ spec.are_within (map (λ n. n.now) names.now) (members_view object.now.entries) }
{
    all_among(object, names)
}

/// The value is an object, and no member has another name than these.
fn is_within(value: &Value, names: &[&str]) -> bool
    ensures { result ≡ spec.is_within (map (λ n. n.now) names.now) (view value.now) }
{
    match value.as_object() {
        Some(object) => are_within(object, names),
        None => false,
    }
}

fn is_expiration(value: &Value) -> bool
    ensures { result ≡ spec.is_expiration (view value.now) }
{
    is_within(value, &["Days", "ExpiredObjectDeleteMarker"])
        && may_have_number("Days", value)
        && may_have_flag("ExpiredObjectDeleteMarker", value)
}

fn may_have_expiration(value: &Value) -> bool
    ensures { result ≡ spec.may_have_expiration (view value.now) }
{
    match value.get("Expiration") {
        Some(member) => is_expiration(member),
        None => true,
    }
}

fn is_noncurrent(value: &Value) -> bool
    ensures { result ≡ spec.is_noncurrent (view value.now) }
{
    is_within(value, &["NoncurrentDays", "NewerNoncurrentVersions"])
        && has_number("NoncurrentDays", value)
        && may_have_number("NewerNoncurrentVersions", value)
}

fn may_have_noncurrent(value: &Value) -> bool
    ensures { result ≡ spec.may_have_noncurrent (view value.now) }
{
    match value.get("NoncurrentVersionExpiration") {
        Some(member) => is_noncurrent(member),
        None => true,
    }
}

fn may_have_bounds(value: &Value) -> bool
    ensures { result ≡ spec.may_have_bounds (view value.now) }
{
    may_have_number("ObjectSizeGreaterThan", value) && may_have_number("ObjectSizeLessThan", value)
}

fn has_rule_names(value: &Value) -> bool
    ensures { result ≡ spec.has_rule_names (view value.now) }
{
    is_within(
        value,
        &[
            "ID",
            "Prefix",
            "ObjectSizeGreaterThan",
            "ObjectSizeLessThan",
            "Status",
            "Expiration",
            "NoncurrentVersionExpiration",
        ],
    )
}

fn is_rule(value: &Value) -> bool
    ensures { result ≡ spec.is_rule (view value.now) }
{
    has_rule_names(value)
        && has_text("ID", value)
        && may_have_text("Prefix", value)
        && may_have_bounds(value)
        && has_text("Status", value)
        && may_have_expiration(value)
        && may_have_noncurrent(value)
}

fn all_rules(items: &[Value]) -> bool
    ensures { result ≡ list_all (λ v. spec.is_rule (view v)) items.now }
{
    items.iter().all(is_rule)
}

fn are_rules(items: &[Value]) -> bool
    ensures { result ≡ spec.all_items spec.is_rule (items_view items.now) }
{
    all_rules(items)
}

fn has_rules(name: &str, value: &Value) -> bool
    ensures { result ≡ spec.needed spec.are_rules (get name.now (view value.now)) }
{
    match value.get(name).and_then(Value::as_array) {
        Some(items) => are_rules(items.as_slice()),
        None => false,
    }
}

fn fits(kind: Kind, name: &str, value: &Value) -> bool
    ensures { result ≡ spec.fits kind (get name.now (view value.now)) }
{
    match kind {
        Kind::Text => has_text(name, value),
        Kind::OptionalText => may_have_text(name, value),
        Kind::OptionalDigest => may_have_digest(name, value),
        Kind::Number => has_number(name, value),
        Kind::OptionalNumber => may_have_number(name, value),
        Kind::OptionalFlag => may_have_flag(name, value),
        Kind::Texts => has_texts(name, value),
        Kind::Rules => has_rules(name, value),
    }
}

fn each_fits(members: &[(&str, Kind)], value: &Value) -> bool
    ensures { result ≡ list_all (λ m. spec.fits m.1 (get m.0.now (view value.now))) members.now }
{
    members.iter().all(|(name, kind)| fits(*kind, name, value))
}

fn fits_each(members: &[(&str, Kind)], value: &Value) -> bool
    ensures { result ≡ spec.fits_each (map (λ m. (m.0.now, m.1)) members.now) (view value.now) }
{
    each_fits(members, value)
}

fn is_named(name: &str, members: &[(&str, Kind)]) -> bool
    ensures { result ≡ list_any (λ m. bytes_eq name.now m.0.now) members.now }
{
    members.iter().any(|(n, _)| name == *n)
}

fn all_named(object: &Map<String, Value>, members: &[(&str, Kind)]) -> bool
    ensures { result ≡ list_all (λ e. list_any (λ m. bytes_eq (string_bytes e.0) m.0.now) members.now) object.now.entries }
{
    object
        .iter()
        .all(|(name, _)| is_named(name.as_str(), members))
}

fn have_names(object: &Map<String, Value>, members: &[(&str, Kind)]) -> bool
    ensures { result ≡ spec.have_names (map (λ m. (m.0.now, m.1)) members.now) (members_view object.now.entries) }
{
    all_named(object, members)
}

fn are_named(value: &Value, members: &[(&str, Kind)]) -> bool
    ensures { result ≡ spec.are_named (map (λ m. (m.0.now, m.1)) members.now) (view value.now) }
{
    match value.as_object() {
        Some(object) => have_names(object, members),
        None => false,
    }
}

/// The value is an object of just these members, each of its kind.
pub fn has_members(value: &Value, members: &[(&str, Kind)]) -> bool
    ensures { result ≡ spec.has_members (map (λ m. (m.0.now, m.1)) members.now) (view value.now) }
{
    are_named(value, members) && fits_each(members, value)
}

/// Of `text`, `hex`, `sha256` and `size`, those are there that write one content: `text`, or `hex`, or the two others.
pub fn has_one_content(value: &Value) -> bool
    ensures { result ≡ spec.has_one_content (view value.now) }
{
    let text = value.get("text").is_some();
    let hex = value.get("hex").is_some();
    let digest = value.get("sha256").is_some();
    let size = value.get("size").is_some();
    matches!(
        (text, hex, digest, size),
        (true, false, false, false) | (false, true, false, false) | (false, false, true, true)
    )
}
