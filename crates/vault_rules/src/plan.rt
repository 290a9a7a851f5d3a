//! The plan of a run at one key.
ghost use Rattle.std.specs.Prelude.{◌≡◌, ℕ, ◌+◌, ◌++◌, ◌∷◌, [], length, IsTrue, IfOk, OnOk};
ghost use Rattle.vault_rules.specs.KeyPlan.{ids_rise, key_plan};
ghost use Rattle.vault_rules.specs.KeyRepeats.{is_in_order, Repeats};
ghost use Rattle.vault_rules.specs.Rules.{is_rule_set};
ghost use Rattle.vault_rules.specs.Walk.{dues, last_mark, marked_above, removal, removals, left_over, lone_removal};

use crate::due::{first_for_current, first_for_marker, first_for_noncurrent};
use crate::rule::Rule;
use crate::rule_set::RuleSet;
use std::alloc::{AllocError, Global};
use vault_base::moment::Moment;
use vault_base::name::{ObjectKey, VersionId};
use vault_lock::lock::{Lock, in_force};

/// A held entry of a key.
#[derive(Clone, Copy, PartialEq, Eq)]
pub struct Held {
    pub id: VersionId,
    pub marker: bool,
    /// In bytes; 0 for a marker.
    pub size: u64,
    pub admitted: Moment,
    /// What its last setting says; for a marker no retention and no hold.
    pub lock: Lock,
}

/// A step of a run at a key, with the place of the rule that is its cause.
#[derive(Clone, Copy, PartialEq, Eq)]
pub enum Step {
    /// A delete marker goes on top.
    Mark(usize),
    /// A noncurrent entry goes.
    Remove(VersionId, usize),
    /// A marker goes that is the key's only entry.
    RemoveLone(VersionId, usize),
}

/// The steps of a run now at a key with these held entries, oldest first: a marker over content
/// that is due, then the removal of each noncurrent entry that is due and not locked, then that
/// of a lone marker that is due (Amazon S3 User Guide, "Lifecycle configuration elements").
///
/// Each step names the first rule that makes its entry due. A run that stopped within the key may
/// be given again: after some of these steps, made at that moment, the plan is the rest of them.
/// The error is out of memory.
pub fn plan_key(
    alloc: Global,
    rules: &RuleSet,
    key: &ObjectKey,
    held: &[Held],
    now: Moment,
) -> Result<Vec<Step>, AllocError>
    requires { IsTrue (ids_rise held.now) }
    ensures plan { IfOk result (λ steps. steps.items ≡ key_plan rules.now key.now held.now now) }
    ensures repeats { IsTrue (is_in_order 0 0 now held.now) →
        IfOk result (λ steps. Repeats rules.now key.now held.now now steps.items) }
{
    steps_of(alloc, rules.as_slice(), key, held, now)
}

/// The steps of a run now at a key by these rules, which are a rule set.
fn steps_of(
    alloc: Global,
    rules: &[Rule],
    key: &ObjectKey,
    held: &[Held],
    now: Moment,
) -> Result<Vec<Step>, AllocError>
    requires set { IsTrue (is_rule_set rules.now) }
    requires order { IsTrue (ids_rise held.now) }
    ensures { IfOk result (λ steps. steps.items ≡ key_plan rules.now key.now held.now now) }
{
    let mut steps = Vec::new(alloc);
    if let Some(rule) = mark_of(rules, key, held, now) {
        steps.push(Step::Mark(rule))?;
        remove_noncurrent(rules, key, held, true, now, &mut steps)?;
        // The content below became noncurrent just now, so it stays, and no marker is alone.
        return Ok(steps);
    }
    let left = remove_noncurrent(rules, key, held, false, now, &mut steps)?;
    if left == 1 {
        if let Some(last) = held.last() {
            remove_lone(rules, key, last, now, &mut steps)?;
        }
    }
    Ok(steps)
}

/// The rule that marks the key, where its current entry is content that is due.
fn mark_of(rules: &[Rule], key: &ObjectKey, held: &[Held], now: Moment) -> Option<usize>
    ensures { result ≡ last_mark (dues rules.now key.now now) held.now }
{
    let last = held.last()?;
    if last.marker {
        return None;
    }
    first_for_current(rules, key, last.size, last.admitted, now)
}

/// The rule that removes an entry below these newer ones and, if the key is marked now, below
/// the new marker, whatever its id.
fn removal_of(
    rules: &[Rule],
    key: &ObjectKey,
    entry: &Held,
    newer: &[Held],
    marked: bool,
    now: Moment,
) -> Option<usize>
    ensures { (id : ℕ) → let above = newer.now ++ marked_above id now marked in
        result ≡ removal (dues rules.now key.now now) entry.now above }
{
    if in_force(&entry.lock, now) {
        return None;
    }
    match newer.first() {
        Some(successor) => {
            let rank = newer.len() - 1 + usize::from(marked);
            first_for_noncurrent(rules, key, entry.size, successor.admitted, rank, now)
        }
        None if marked => first_for_noncurrent(rules, key, entry.size, now, 0, now),
        None => None,
    }
}

/// Adds the removals of noncurrent entries, and answers how many entries stay.
fn remove_noncurrent(
    rules: &[Rule],
    key: &ObjectKey,
    held: &[Held],
    marked: bool,
    now: Moment,
    steps: &mut Vec<Step>,
) -> Result<usize, AllocError>
    ensures steps { OnOk result ((id : ℕ) →
        let entries = held.now ++ marked_above id now marked in
        steps.new.items ≡ steps.old.items ++ removals (dues rules.now key.now now) entries) }
    ensures left { IfOk result (λ left. (id : ℕ) →
        let d = dues rules.now key.now now in
        let above = marked_above id now marked in
        left + length (left_over d above) ≡ length (left_over d (held.now ++ above))) }
{
    let mut left = 0;
    for (i, entry) in held.iter().enumerate() {
        match removal_of(rules, key, entry, &held[i + 1..], marked, now) {
            Some(rule) => steps.push(Step::Remove(entry.id, rule))?,
            None => left += 1,
        }
    }
    Ok(left)
}

/// Adds the removal of a lone marker, where the key's only entry is one that is due.
fn remove_lone(
    rules: &[Rule],
    key: &ObjectKey,
    only: &Held,
    now: Moment,
    steps: &mut Vec<Step>,
) -> Result<(), AllocError>
    ensures { OnOk result (steps.new.items ≡
        steps.old.items ++ lone_removal (dues rules.now key.now now) (only.now ∷ [])) }
{
    if only.marker {
        if let Some(rule) = first_for_marker(rules, key, only.size, only.admitted, now) {
            steps.push(Step::RemoveLone(only.id, rule))?;
        }
    }
    Ok(())
}
