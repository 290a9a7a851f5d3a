//! Lifecycle rules as S3's JSON has them (API Reference, "PutBucketLifecycleConfiguration").
ghost use Rattle.serde_json.specs.View.{view, items_view};
ghost use Rattle.vault_values.specs.Fault.{Gives};
ghost use Rattle.vault_lines_json.specs.Rules as spec;
ghost use Rattle.vault_lines_json.specs.Values.{optional_number_of};

use crate::members::{flag_of, items_of, text_of};
use crate::values::{number_of, optional_number_of, prefix};
use serde_json::Value;
use std::alloc::{AllocError, Global};
use vault_base::name::RuleId;
use vault_base::refusal::Refusal;
use vault_rules::rule::{Noncurrent, Rule};
use vault_rules::rule_set::RuleSet;
use vault_values::fault::LineFault;
use vault_values::words::status_named;

/// What an Expiration asks for.
#[derive(Clone, Copy, Debug, PartialEq, Eq)]
struct Expiration {
    days: Option<u32>,
    lone_markers: bool,
}

/// The sizes that a rule is for.
#[derive(Clone, Copy, Debug, PartialEq, Eq)]
struct Bounds {
    larger: Option<u64>,
    smaller: Option<u64>,
}

#[tactic(auto, unfolding(crate::specs::Rules::rule_id_in))]
fn rule_id(alloc: Global, value: &Value) -> Result<RuleId, LineFault>
    ensures { Gives (λ x. x) result (spec.rule_id_in (view value.now)) }
{
    let text = text_of("ID", value)?;
    match RuleId::read(alloc, text)? {
        Ok(id) => Ok(id),
        Err(_) => Err(LineFault::Refused(Refusal::InvalidArgument)),
    }
}

#[tactic(auto, unfolding(crate::specs::Rules::status_in))]
fn status(value: &Value) -> Result<bool, LineFault>
    ensures { Gives (λ x. x) result (spec.status_in (view value.now)) }
{
    let text = text_of("Status", value)?;
    match status_named(text) {
        Some(enabled) => Ok(enabled),
        None => Err(LineFault::Refused(Refusal::InvalidArgument)),
    }
}

#[tactic(auto, unfolding(crate::specs::Rules::expiration_spelled))]
fn expiration_spelled(value: &Value) -> Result<Expiration, LineFault>
    ensures { Gives (λ x. x) result (spec.expiration_spelled (view value.now)) }
{
    let days = optional_number_of("Days", value)?;
    let lone_markers = flag_of("ExpiredObjectDeleteMarker", value)?;
    Ok(Expiration { days, lone_markers })
}

#[tactic(auto, unfolding(crate::specs::Rules::expiration_in))]
fn expiration_in(value: &Value) -> Result<Expiration, LineFault>
    ensures { Gives (λ x. x) result (spec.expiration_in (view value.now)) }
{
    match value.get("Expiration") {
        Some(member) => expiration_spelled(member),
        None => Ok(Expiration {
            days: None,
            lone_markers: false,
        }),
    }
}

#[tactic(auto, unfolding(crate::specs::Rules::noncurrent_spelled))]
fn noncurrent_spelled(value: &Value) -> Result<Noncurrent, LineFault>
    ensures { Gives (λ x. x) result (spec.noncurrent_spelled (view value.now)) }
{
    let days = number_of("NoncurrentDays", value)?;
    let newer = optional_number_of("NewerNoncurrentVersions", value)?;
    Ok(Noncurrent { days, newer })
}

#[tactic(auto, unfolding(crate::specs::Rules::noncurrent_in))]
fn noncurrent_in(value: &Value) -> Result<Option<Noncurrent>, LineFault>
    ensures { Gives (λ x. x) result (spec.noncurrent_in (view value.now)) }
{
    match value.get("NoncurrentVersionExpiration") {
        Some(member) => Ok(Some(noncurrent_spelled(member)?)),
        None => Ok(None),
    }
}

fn optional_size(name: &str, value: &Value) -> Result<Option<u64>, LineFault>
    ensures { Gives (λ x. x) result (optional_number_of name.now (view value.now)) }
{
    let Some(size) = optional_number_of(name, value)? else {
        return Ok(None);
    };
    Ok(Some(u64::from(size)))
}

#[tactic(auto, unfolding(crate::specs::Rules::bounds_in))]
fn bounds_in(value: &Value) -> Result<Bounds, LineFault>
    ensures { Gives (λ x. x) result (spec.bounds_in (view value.now)) }
{
    let larger = optional_size("ObjectSizeGreaterThan", value)?;
    let smaller = optional_size("ObjectSizeLessThan", value)?;
    Ok(Bounds { larger, smaller })
}

#[tactic(auto, unfolding(crate::specs::Rules::rule_of))]
fn rule(alloc: Global, value: &Value) -> Result<Rule, LineFault>
    ensures { Gives (λ x. x) result (spec.rule_of (view value.now)) }
{
    let id = rule_id(alloc, value)?;
    let prefix = prefix(alloc, "Prefix", value)?;
    let bounds = bounds_in(value)?;
    let enabled = status(value)?;
    let expiration = expiration_in(value)?;
    let noncurrent = noncurrent_in(value)?;
    Ok(Rule {
        id,
        prefix,
        enabled,
        days: expiration.days,
        lone_markers: expiration.lone_markers,
        noncurrent,
        larger: bounds.larger,
        smaller: bounds.smaller,
    })
}

fn rules_in(alloc: Global, items: &[Value]) -> Result<Vec<Rule>, LineFault>
    ensures { Gives (λ v. v.items) result (spec.rules_in (items_view items.now)) }
{
    let mut rules = Vec::new(alloc);
    for item in items {
        rules.push(rule(alloc, item)?).map_err(AllocError::from)?;
    }
    Ok(rules)
}

/// The lifecycle rules of the member `rules`, where a bucket may have them.
#[tactic(auto, unfolding(crate::specs::Rules::rules_of))]
pub fn rules(alloc: Global, value: &Value) -> Result<RuleSet, LineFault>
    ensures { Gives (λ x. x) result (spec.rules_of (view value.now)) }
{
    let items = items_of("rules", value)?;
    let rules = rules_in(alloc, items)?;
    match RuleSet::read(rules) {
        Ok(set) => Ok(set),
        Err(_) => Err(LineFault::Refused(Refusal::InvalidArgument)),
    }
}
