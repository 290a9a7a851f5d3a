//! Which keys a run looks at: those that the prefix of an enabled rule begins. It goes from range to range.
ghost use Rattle.std.specs.Prelude.{◌≡◌, IfOk, None};
ghost use Rattle.vault_core_runs.specs.Ranges.{begins, is_next, is_nearer, is_ruled, nearer, nearest};

use std::alloc::AllocError;
use vault_base::name::{KeyPrefix, ObjectKey};
use vault_rules::rule::Rule;
use vault_rules::rule_set::RuleSet;

/// Whether the prefix of an enabled rule begins the key.
pub fn is_key_ruled(rules: &RuleSet, key: &ObjectKey) -> bool
    ensures { result ≡ is_ruled rules.now key.now }
{
    is_ruled(rules.as_slice(), key.as_str())
}

/// Whether the prefix of an enabled rule begins the place.
pub fn is_place_ruled(rules: &RuleSet, place: &KeyPrefix) -> bool
    ensures { result ≡ is_ruled rules.now place.now }
{
    is_ruled(rules.as_slice(), place.as_str())
}

fn is_ruled(rules: &[Rule], text: &str) -> bool
    ensures { result ≡ is_ruled rules.now text.now }
{
    rules.iter().any(|rule| begins(text, rule))
}

/// Whether the rule is enabled and its prefix begins the text.
fn begins(text: &str, rule: &Rule) -> bool
    ensures { result ≡ begins text.now rule.now }
{
    let prefix = rule.prefix.as_str().as_bytes();
    rule.enabled && text.as_bytes().starts_with(prefix)
}

/// The least prefix of an enabled rule after the place.
pub fn nearest(rules: &RuleSet, place: &KeyPrefix) -> Result<Option<KeyPrefix>, AllocError>
    ensures { IfOk result (λ found. found ≡ nearest place.now None rules.now) }
{
    nearest_of(rules.as_slice(), place)
}

fn nearest_of(rules: &[Rule], place: &KeyPrefix) -> Result<Option<KeyPrefix>, AllocError>
    ensures { IfOk result (λ found. found ≡ nearest place.now None rules.now) }
{
    let mut found: Option<KeyPrefix> = None;
    for rule in rules {
        let next = nearer(place, rule, found)?;
        found = next;
    }
    Ok(found)
}

/// The prefix of this rule where it is nearer than what was found, else what was found.
fn nearer(
    place: &KeyPrefix,
    rule: &Rule,
    found: Option<KeyPrefix>,
) -> Result<Option<KeyPrefix>, AllocError>
    ensures { IfOk result (λ next. next ≡ nearer place.now rule.now found) }
{
    if !is_next(place, rule, &found) {
        return Ok(found);
    }
    Ok(Some(rule.prefix.clone()?))
}

/// Whether the rule is enabled and its prefix comes after the place and before what was found.
fn is_next(place: &KeyPrefix, rule: &Rule, found: &Option<KeyPrefix>) -> bool
    ensures { result ≡ is_next place.now rule.now found.now }
{
    rule.enabled && rule.prefix.as_str() > place.as_str() && is_nearer(&rule.prefix, found)
}

/// Whether the text comes before what was found, if anything was.
fn is_nearer(text: &KeyPrefix, found: &Option<KeyPrefix>) -> bool
    ensures { result ≡ is_nearer text.now found.now }
{
    match found {
        None => true,
        Some(nearest) => nearest.as_str() > text.as_str(),
    }
}
