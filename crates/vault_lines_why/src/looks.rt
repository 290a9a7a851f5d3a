//! What is looked at in an object of a line: its shape, then the values of its members.
use crate::members::{Check, Object};
use crate::words::{Words, has_to_be, lacks, unknown_words};
use serde_json::Value;
use std::alloc::{AllocError, Global};
use vault_base::limits::MOST_RULES;
use vault_base::moment::Moment;
use vault_base::name::{BucketName, CallerName, KeyPrefix, ObjectKey, RuleId};
use vault_base::right::Right;
use vault_lines_json::members::{as_digest, as_whole};
use vault_lines_json::shape::{Kind, has_one_content};
use vault_values::words::{hold_named, mode_named, status_named};

fn are_texts(member: &Value) -> bool {
    match member.as_array() {
        Some(items) => items.iter().all(Value::is_string),
        None => false,
    }
}

/// Whether a member that is there has its JSON type, and that type in words. Of a list of rules that is a list.
fn typed(kind: Kind, member: &Value) -> (bool, &'static str) {
    match kind {
        Kind::Text | Kind::OptionalText => (member.is_string(), "a text in double quotes"),
        Kind::OptionalDigest => (as_digest(member).is_some(), "a text of 64 hex digits"),
        Kind::Number | Kind::OptionalNumber => (as_whole(member).is_some(), WHOLE_NUMBER),
        Kind::OptionalFlag => (member.as_bool().is_some(), "true or false without quotes"),
        Kind::Texts => (are_texts(member), "a list of texts"),
        Kind::Rules => (member.as_array().is_some(), "a list of rules"),
    }
}

const WHOLE_NUMBER: &str = "a whole number without quotes or a point";

fn is_optional(kind: Kind) -> bool {
    matches!(
        kind,
        Kind::OptionalText | Kind::OptionalDigest | Kind::OptionalNumber | Kind::OptionalFlag
    )
}

/// The words for the first member that is missing, or is of another JSON type.
fn member_words(alloc: Global, object: &Object, value: &Value) -> Words {
    for (name, kind) in object.members {
        let Some(member) = value.get(*name) else {
            if is_optional(*kind) {
                continue;
            }
            return Ok(Some(lacks(alloc, object, name)?));
        };
        let (is_right, words) = typed(*kind, member);
        if !is_right {
            return Ok(Some(has_to_be(alloc, object, name, words)?));
        }
    }
    Ok(None)
}

/// The words for the first fault of an object's shape: a member of another name, then one that is missing or of another
/// JSON type.
pub(crate) fn shape_words(alloc: Global, object: &Object, value: &Value) -> Words {
    let of = object.name;
    let Some(members) = value.as_object() else {
        return Ok(Some(format!(in alloc; "{of} has to be an object, in braces")?));
    };
    let names = object.names(alloc)?;
    for (name, _) in members.iter() {
        let name = name.as_str();
        if !names.as_slice().contains(&name) {
            let words = unknown_words(alloc, of, name, names.as_slice())?;
            return Ok(Some(words));
        }
    }
    member_words(alloc, object, value)
}

fn is_hex(text: &str) -> bool {
    let digits = text.as_bytes();
    digits.len() % 2 == 0 && digits.iter().all(|digit| digit.is_ascii_hexdigit())
}

/// Whether a text is as it has to be. The error is that memory is wanting.
fn is_spelt(alloc: Global, check: Check, text: &str) -> Result<bool, AllocError> {
    match check {
        Check::Moment => Ok(Moment::read(text).is_ok()),
        Check::Name => Ok(CallerName::read(alloc, text)?.is_ok()),
        Check::Bucket => Ok(BucketName::read(alloc, text)?.is_ok()),
        Check::Key => Ok(ObjectKey::read(alloc, text)?.is_ok()),
        Check::Prefix => Ok(KeyPrefix::read(alloc, text)?.is_ok()),
        Check::RuleId => Ok(RuleId::read(alloc, text)?.is_ok()),
        Check::Hex => Ok(is_hex(text)),
        Check::Mode => Ok(mode_named(text).is_some()),
        Check::Hold => Ok(hold_named(text).is_some()),
        Check::Status => Ok(status_named(text).is_some()),
        _ => Ok(true),
    }
}

fn names_right(item: &Value) -> bool {
    item.as_str().and_then(Right::read).is_some()
}

/// Whether a value of the right JSON type is as it has to be. The error is that memory is wanting.
fn is_right(alloc: Global, check: Check, member: &Value) -> Result<bool, AllocError> {
    if let Some(text) = member.as_str() {
        return is_spelt(alloc, check, text);
    }
    match (check, member.as_array(), member.as_u64()) {
        (Check::Rights, Some(items), _) => Ok(items.iter().all(names_right)),
        (Check::Number(least, most, _), _, Some(number)) => Ok(least <= number && number <= most),
        (Check::Number(_, _, _), _, None) => Ok(false),
        _ => Ok(true),
    }
}

fn has(name: &str, value: &Value) -> bool {
    value.get(name).is_some()
}

fn number(name: &str, value: &Value) -> Option<u64> {
    value.get(name).and_then(Value::as_u64)
}

/// Whether an action asks that lone markers are removed.
fn has_flag(action: &Value) -> bool {
    let flag = action.get("ExpiredObjectDeleteMarker");
    flag.and_then(Value::as_bool) == Some(true)
}

fn has_action(rule: &Value) -> bool {
    let expires = match rule.get("Expiration") {
        Some(action) => has("Days", action) || has_flag(action),
        None => false,
    };
    expires || has("NoncurrentVersionExpiration", rule)
}

/// Whether the bounds on sizes, where both are there, leave a size between them.
fn has_sizes(rule: &Value) -> bool {
    match (
        number("ObjectSizeGreaterThan", rule),
        number("ObjectSizeLessThan", rule),
    ) {
        (Some(lower), Some(upper)) => lower < upper,
        _ => true,
    }
}

/// How many rules there are.
fn count(member: &Value) -> usize {
    match member.as_array() {
        Some(rules) => rules.len(),
        None => 0,
    }
}

/// What is wrong with the members `days` and `years` of a default that has a mode, in words.
fn period_words(value: &Value) -> &'static str {
    match (has("days", value), has("years", value)) {
        (true, true) => "a default has one of \"days\" and \"years\", not both",
        (false, false) => "\"mode\" stands beside days or years, as \"days\":30",
        _ => "",
    }
}

/// What is wrong with the members that don't write one content, in words; the empty text of a line that has no content.
fn content_words(of: &str, value: &Value) -> &'static str {
    let is_inside = has("text", value) || has("hex", value);
    match (of, is_inside, has("sha256", value), has("size", value)) {
        (_, false, true, false) => "\"sha256\" stands beside size, as \"size\":5",
        (_, false, false, true) => LONE_SIZE,
        ("put", _, _, _) =>
            "put has one of \"text\", \"hex\", and \"sha256\" with \"size\", as \"text\":\"hello\"",
        ("intake", _, _, _) =>
            "intake has one of \"text\", \"hex\", and \"sha256\" with \"size\", as \"text\":\"hello\"",
        _ => "",
    }
}

const LONE_SIZE: &str =
    "\"size\" stands beside sha256, as \"sha256\":\"2cf24dba5fb0a30e26e83b2ac5b9e29e1b161e5c1fa7425e73043362938b9824\"";

/// What is wrong with what is beside a member of an object, in words; the empty text where nothing is.
fn beside_words(of: &str, name: &str, member: &Value, value: &Value) -> &'static str {
    let has_mode = has("mode", value);
    match name {
        "at" if !has_one_content(value) => content_words(of, value),
        "mode" if of == "set-default" => period_words(value),
        "mode" if !has("until", value) =>
            "\"mode\" stands beside until, as \"until\":\"2030-01-01T00:00:00Z\"",
        "until" if !has_mode => "\"until\" stands beside mode, as \"mode\":\"GOVERNANCE\"",
        "days" if !has_mode => "\"days\" stands beside mode, as \"mode\":\"GOVERNANCE\"",
        "years" if !has_mode => "\"years\" stands beside mode, as \"mode\":\"GOVERNANCE\"",
        "after_id" if !has("after_key", value) =>
            "\"after_id\" stands beside after_key, as \"after_key\":\"2024/a\"",
        "rules" if count(member) == 0 =>
            "\"rules\" is empty; drop-rules takes a bucket's rules away",
        "rules" if count(member) > MOST_RULES => "\"rules\" has more than 1,000 rules",
        "Status" if !has_action(value) => "the rule has no action, as \"Expiration\":{\"Days\":30}",
        "Expiration" if has("Days", member) && has_flag(member) =>
            "\"Expiration\" has one of \"Days\" and \"ExpiredObjectDeleteMarker\", not both",
        "ObjectSizeLessThan" if !has_sizes(value) =>
            "\"ObjectSizeGreaterThan\" has to be below \"ObjectSizeLessThan\"",
        _ => "",
    }
}

/// The words for the first value of an object that isn't allowed.
pub(crate) fn value_words(alloc: Global, object: &Object, value: &Value) -> Words {
    for (name, check, _) in object.rows {
        let Some(member) = value.get(*name) else {
            continue;
        };
        if !is_right(alloc, *check, member)? {
            return Ok(Some(has_to_be(alloc, object, name, check.words())?));
        }
        if matches!(check, Check::Beside) {
            let words = beside_words(object.name, name, member, value);
            if !words.is_empty() {
                return Ok(Some(String::from_str(alloc, words)?));
            }
        }
    }
    Ok(None)
}
