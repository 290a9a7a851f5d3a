//! Lifecycle rules as S3's JSON has them (API Reference, "GetBucketLifecycleConfiguration").
ghost use Rattle.std.specs.Prelude.{◌≡◌, All, IfOk, IsTrue, OnOk, codes, map, option_map};
ghost use Rattle.serde_json.specs.View.{view, members_view};
ghost use Rattle.vault_base.specs.Name.{is_key_prefix};
ghost use Rattle.vault_lines_reply.specs.Putting.{put_if};
ghost use Rattle.vault_lines_reply.specs.ReplyLine as spec;
ghost use Rattle.vault_lines_reply.specs.SpelledRule.{IsSpelledRule};

use crate::object::{Plain, object_of, plain_object, put_plain};
use serde_json::{Map, Value, put};
use std::alloc::{AllocError, Global};
use vault_rules::rule::{Noncurrent, Rule};
use vault_rules::rule_set::RuleSet;
use vault_values::words::status_name;

/// The rules, in configuration order.
pub(crate) fn rules_value(alloc: Global, rules: &RuleSet) -> Result<Value, AllocError>
    ensures { IfOk result (λ value. view value ≡ spec.rules_value rules.now) }
{
    let list = Value::Array(rule_values(alloc, rules.as_slice())?);
    object_of(alloc, "rules", list)
}

/// The value of each rule, in order. Each has an id and a prefix, as its type says. The only error is out of memory.
pub fn rule_values(alloc: Global, rules: &[Rule]) -> Result<Vec<Value>, AllocError>
    ensures values { IfOk result (λ list. map view list.items ≡ map spec.rule_value rules.now) }
    ensures spelled { IfOk result (λ list. All IsSpelledRule rules.now) }
{
    let mut list = Vec::new(alloc);
    for rule in rules {
        list.push(rule_value(alloc, rule)?)?;
    }
    Ok(list)
}

/// What is absent is left out; a prefix is printed also where it is empty.
fn rule_value(alloc: Global, rule: &Rule) -> Result<Value, AllocError>
    ensures value { IfOk result (λ value. view value ≡ spec.rule_value rule.now) }
    ensures spelled { IfOk result (λ value. IsSpelledRule rule.now) }
{
    Ok(Value::Object(rule_members(alloc, rule)?))
}

/// The members of a rule that are always there, but for its id.
fn named_members(alloc: Global, rule: &Rule) -> Result<Map<String, Value>, AllocError>
    ensures members { IfOk result (λ members. members_view members.entries ≡ spec.named_members rule.now) }
    ensures prefix { IfOk result (λ members. IsTrue (is_key_prefix rule.now.prefix)) }
{
    let mut members = Map::new(alloc);
    put_plain(
        &mut members,
        alloc,
        &[
            ("Prefix", Plain::Text(rule.prefix.as_str())),
            ("Status", Plain::Text(status_name(rule.enabled))),
        ],
    )?;
    Ok(members)
}

/// Puts in a bound of sizes, where there is one.
fn put_size(
    members: &mut Map<String, Value>,
    alloc: Global,
    name: &str,
    size: Option<u64>,
) -> Result<(), AllocError>
    ensures { OnOk result (members_view members.new.entries ≡ put_if name.now (option_map spec.whole size) (members_view members.old.entries)) }
{
    let Some(size) = size else {
        return Ok(());
    };
    put_plain(members, alloc, &[(name, Plain::Whole(size))])
}

/// Those, with the bounds of sizes.
#[tactic(auto, using(crate::proofs::RuleLemmas::bounded))]
fn bounded_members(alloc: Global, rule: &Rule) -> Result<Map<String, Value>, AllocError>
    ensures members { IfOk result (λ members. members_view members.entries ≡ spec.bounded_members rule.now) }
    ensures prefix { IfOk result (λ members. IsTrue (is_key_prefix rule.now.prefix)) }
{
    let mut members = named_members(alloc, rule)?;
    put_size(&mut members, alloc, "ObjectSizeLessThan", rule.smaller)?;
    put_size(&mut members, alloc, "ObjectSizeGreaterThan", rule.larger)?;
    Ok(members)
}

/// All members of a rule.
#[tactic(auto, using(crate::proofs::RuleLemmas::all_members))]
fn rule_members(alloc: Global, rule: &Rule) -> Result<Map<String, Value>, AllocError>
    ensures members { IfOk result (λ members. members_view members.entries ≡ spec.rule_members rule.now) }
    ensures spelled { IfOk result (λ members. IsSpelledRule rule.now) }
{
    let mut members = bounded_members(alloc, rule)?;
    put_noncurrent(&mut members, alloc, rule.noncurrent)?;
    put_plain(
        &mut members,
        alloc,
        &[("ID", Plain::Text(rule.id.as_str()))],
    )?;
    put_expiration(&mut members, alloc, rule.days, rule.lone_markers)?;
    Ok(members)
}

/// Puts in when an entry is removed, where that is said.
fn put_expiration(
    members: &mut Map<String, Value>,
    alloc: Global,
    days: Option<u32>,
    lone_markers: bool,
) -> Result<(), AllocError>
    ensures { OnOk result (members_view members.new.entries ≡ put_if (codes "Expiration") (spec.expiration_of days lone_markers) (members_view members.old.entries)) }
{
    match expiration_of(alloc, days, lone_markers)? {
        Some(value) => put(members, alloc, "Expiration", value),
        None => Ok(()),
    }
}

fn expiration_of(
    alloc: Global,
    days: Option<u32>,
    lone_markers: bool,
) -> Result<Option<Value>, AllocError>
    ensures { IfOk result (λ value. option_map view value ≡ spec.expiration_of days lone_markers) }
{
    let member = match days {
        Some(days) => ("Days", Plain::Whole(u64::from(days))),
        None if lone_markers => ("ExpiredObjectDeleteMarker", Plain::Flag(true)),
        None => return Ok(None),
    };
    Ok(Some(plain_object(alloc, &[member])?))
}

/// Puts in when an entry that isn't current is removed, where that is said.
fn put_noncurrent(
    members: &mut Map<String, Value>,
    alloc: Global,
    noncurrent: Option<Noncurrent>,
) -> Result<(), AllocError>
    ensures { OnOk result (members_view members.new.entries ≡ put_if (codes "NoncurrentVersionExpiration") (option_map spec.noncurrent_value noncurrent) (members_view members.old.entries)) }
{
    let Some(noncurrent) = noncurrent else {
        return Ok(());
    };
    let value = noncurrent_value(alloc, noncurrent)?;
    put(members, alloc, "NoncurrentVersionExpiration", value)
}

fn noncurrent_value(alloc: Global, noncurrent: Noncurrent) -> Result<Value, AllocError>
    ensures { IfOk result (λ value. view value ≡ spec.noncurrent_value noncurrent) }
{
    let days = ("NoncurrentDays", Plain::Whole(u64::from(noncurrent.days)));
    match noncurrent.newer {
        Some(newer) => {
            let newer = ("NewerNoncurrentVersions", Plain::Whole(u64::from(newer)));
            plain_object(alloc, &[newer, days])
        }
        None => plain_object(alloc, &[days]),
    }
}
