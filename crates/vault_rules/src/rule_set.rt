//! The lifecycle rules of a bucket.
ghost use Rattle.std.specs.Prelude.{◌≡◌, []};
ghost use Rattle.vault_rules.specs.Rules.{has_id, fault_of, first_fault};

use crate::rule::Rule;
use std::alloc::AllocError;
use std::marker::Model;
use thiserror::Error;
use vault_base::limits::MOST_RULES;
use vault_base::name::RuleId;

/// What is wrong with a list of rules.
#[derive(Clone, Copy, Debug, PartialEq, Eq, Error)]
pub enum RuleFault {
    /// It is empty.
    #[error("there are no rules")]
    NoRules,
    /// It has more than 1,000 rules.
    #[error("there are more than 1,000 rules")]
    TooMany,
    /// A rule has the id of one before it.
    #[error("a rule has the id of one before it")]
    SameId,
    /// A rule has no action.
    #[error("a rule has no action")]
    NoAction,
    /// A rule has Days and ExpiredObjectDeleteMarker.
    #[error("a rule has Days and ExpiredObjectDeleteMarker")]
    DaysAndMarkers,
    /// A number of a rule is out of its range.
    #[error("a number of a rule is out of its range")]
    OutOfRange,
}

/// The rules of a bucket, in configuration order.
#[derive(Drop)]
pub struct RuleSet {
    rules: Vec<Rule>,
}

impl Model for RuleSet {
    ghost use Rattle.std.specs.Prelude.{List, IsTrue};
    ghost use Rattle.vault_rules.specs.declared.rule.Rule.{Rule};
    ghost use Rattle.vault_rules.specs.Rules.{is_rule_set};

    ghost Value = { List Rule };

    ghost view = { λ s. s.rules.items };

    ghost invariant = { λ s. IsTrue (is_rule_set s.rules.items) };
}

impl RuleSet {
    ghost use Rattle.std.specs.Prelude.{◌≡◌, IsTrue, MatchResult, None, Some};
    ghost use Rattle.vault_rules.specs.Rules.{rules_fault, is_rule_set};

    /// The rules, where a bucket may have them: 1 to 1,000 rules with different ids, each with an
    /// action, not with both kinds of Expiration, and with numbers in their ranges (Amazon S3
    /// User Guide, "Lifecycle configuration elements").
    ///
    /// The error is `NoRules`, `TooMany`, or else the fault of the first rule at fault, and of
    /// its faults the first in the order in which `RuleFault` has them.
    pub fn read(rules: Vec<Rule>) -> Result<RuleSet, RuleFault>
        ensures { MatchResult result
            (λ set. (rules_fault rules.items ≡ None) × (set ≡ rules.items))
            (λ fault. rules_fault rules.items ≡ Some fault) }
    {
        if rules.is_empty() {
            return Err(RuleFault::NoRules);
        }
        if rules.len() > MOST_RULES {
            return Err(RuleFault::TooMany);
        }
        match first_fault(&rules) {
            Some(fault) => Err(fault),
            None => Ok(RuleSet { rules }),
        }
    }

    /// The rules, in configuration order.
    pub fn as_slice(&self) -> &[Rule]
        ensures rules { result.now ≡ self.now }
        ensures set { IsTrue (is_rule_set self.now) }
    {
        self.rules.as_slice()
    }
}

impl Clone for RuleSet {
    ghost is_clone = { λ s t. t ≡ s };

    fn clone(&self) -> Result<RuleSet, AllocError> {
        Ok(RuleSet {
            rules: self.rules.clone()?,
        })
    }
}

/// Whether a rule of that id is among these.
fn has_id(rules: &[Rule], id: &RuleId) -> bool
    ensures { result ≡ has_id rules.now id.now }
{
    rules.iter().any(|rule| rule.id == *id)
}

/// The fault of a rule that stands after these.
fn fault_of(before: &[Rule], rule: &Rule) -> Option<RuleFault>
    ensures { result ≡ fault_of before.now rule.now }
{
    if has_id(before, &rule.id) {
        return Some(RuleFault::SameId);
    }
    if !rule.has_action() {
        return Some(RuleFault::NoAction);
    }
    if rule.has_days_and_markers() {
        return Some(RuleFault::DaysAndMarkers);
    }
    if !rule.is_in_range() {
        return Some(RuleFault::OutOfRange);
    }
    None
}

/// The fault of the first rule at fault.
fn first_fault(rules: &[Rule]) -> Option<RuleFault>
    ensures { result ≡ first_fault [] rules.now }
{
    for (i, rule) in rules.iter().enumerate() {
        if let Some(fault) = fault_of(&rules[..i], rule) {
            return Some(fault);
        }
    }
    None
}
