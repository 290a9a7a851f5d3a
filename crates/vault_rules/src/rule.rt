//! A lifecycle rule.
ghost use Rattle.std.specs.Prelude.{◌≡◌};
ghost use Rattle.vault_rules.specs.Rules.{is_day_count, is_newer_count, is_noncurrent_action, is_lower_bound, is_upper_bound, are_in_order, are_bounds, has_action, has_days_and_markers, is_in_range};
ghost use Rattle.vault_rules.specs.Due.{have_passed, fits, days_have_passed, noncurrent_has_passed};

use std::alloc::AllocError;
use vault_base::limits::MOST_CONTENT;
use vault_base::moment::{DAY, Moment};
use vault_base::name::{KeyPrefix, ObjectKey, RuleId};

/// The action on noncurrent entries.
#[derive(Clone, Copy, Debug, PartialEq, Eq)]
pub struct Noncurrent {
    /// NoncurrentDays: of 86,400 seconds, up to the next midnight.
    pub days: u32,
    /// NewerNoncurrentVersions.
    pub newer: Option<u32>,
}

/// A lifecycle rule.
#[derive(Drop)]
pub struct Rule {
    pub id: RuleId,
    pub prefix: KeyPrefix,
    pub enabled: bool,
    /// Expiration by Days: of 86,400 seconds, up to the next midnight.
    pub days: Option<u32>,
    /// Expiration by ExpiredObjectDeleteMarker.
    pub lone_markers: bool,
    pub noncurrent: Option<Noncurrent>,
    /// ObjectSizeGreaterThan, in bytes: entries of this size or less don't fit.
    pub larger: Option<u64>,
    /// ObjectSizeLessThan, in bytes: entries of this size or more don't fit.
    pub smaller: Option<u64>,
}

impl Clone for Rule {
    ghost is_clone = { λ s t. t ≡ s };

    fn clone(&self) -> Result<Rule, AllocError> {
        Ok(Rule {
            id: self.id.clone()?,
            prefix: self.prefix.clone()?,
            enabled: self.enabled,
            days: self.days,
            lone_markers: self.lone_markers,
            noncurrent: self.noncurrent,
            larger: self.larger,
            smaller: self.smaller,
        })
    }
}

/// Whether a number of days that a rule names is from 1 to 2,147,483,647.
pub fn is_day_count(days: u32) -> bool
    ensures { result ≡ is_day_count days }
{
    1 <= days && days <= 2_147_483_647
}

/// Whether a number of newer noncurrent entries that a rule names is from 1 to 100.
pub fn is_newer_count(newer: u32) -> bool
    ensures { result ≡ is_newer_count newer }
{
    1 <= newer && newer <= 100
}

/// Whether a lower bound of sizes that a rule names is at most 1,048,576.
fn is_lower_bound(bound: u64) -> bool
    ensures { result ≡ is_lower_bound bound }
{
    bound <= MOST_CONTENT as u64
}

/// Whether an upper bound of sizes that a rule names is from 1 to 1,048,577.
fn is_upper_bound(bound: u64) -> bool
    ensures { result ≡ is_upper_bound bound }
{
    1 <= bound && bound <= MOST_CONTENT as u64 + 1
}

/// Whether the lower bound is below the upper one, where both are given.
fn are_in_order(larger: Option<u64>, smaller: Option<u64>) -> bool
    ensures { result ≡ are_in_order larger smaller }
{
    match (larger, smaller) {
        (Some(lower), Some(upper)) => lower < upper,
        _ => true,
    }
}

/// Whether a rule may name these bounds of sizes.
pub fn are_bounds(larger: Option<u64>, smaller: Option<u64>) -> bool
    ensures { result ≡ are_bounds larger smaller }
{
    larger.map_or(true, is_lower_bound)
        && smaller.map_or(true, is_upper_bound)
        && are_in_order(larger, smaller)
}

/// Whether the midnight has come that ends n days from a moment.
fn have_passed(days: u32, from: Moment, now: Moment) -> bool
    ensures { result ≡ have_passed days from now }
{
    let end = from.secs() + DAY * u64::from(days);
    end.next_multiple_of(DAY) <= now.secs()
}

impl Noncurrent {
    /// Whether its numbers are in their ranges.
    fn is_in_range(&self) -> bool
        ensures { result ≡ is_noncurrent_action self.now }
    {
        is_day_count(self.days) && self.newer.map_or(true, is_newer_count)
    }
}

impl Rule {
    /// Whether it has one action at least.
    pub(crate) fn has_action(&self) -> bool
        ensures { result ≡ has_action self.now }
    {
        self.days.is_some() || self.lone_markers || self.noncurrent.is_some()
    }

    /// Whether it has both kinds of Expiration at once.
    pub(crate) fn has_days_and_markers(&self) -> bool
        ensures { result ≡ has_days_and_markers self.now }
    {
        self.days.is_some() && self.lone_markers
    }

    /// Whether each number that it gives is in its range.
    pub(crate) fn is_in_range(&self) -> bool
        ensures { result ≡ is_in_range self.now }
    {
        self.days.map_or(true, is_day_count)
            && self.noncurrent.map_or(true, |action| action.is_in_range())
            && are_bounds(self.larger, self.smaller)
    }

    /// Whether it is for entries of that key and size.
    pub(crate) fn fits(&self, key: &ObjectKey, size: u64) -> bool
        ensures { result ≡ fits self.now key.now size }
    {
        let prefix = self.prefix.as_str().as_bytes();
        self.enabled
            && key.as_str().as_bytes().starts_with(prefix)
            && self.larger.map_or(true, |bound| bound < size)
            && self.smaller.map_or(true, |bound| size < bound)
    }

    /// Whether its Days have passed since that moment.
    pub(crate) fn days_have_passed(&self, from: Moment, now: Moment) -> bool
        ensures { result ≡ days_have_passed self.now.days from now }
    {
        self.days.is_some_and(|days| have_passed(days, from, now))
    }

    /// Whether its NoncurrentDays have passed since that moment, under enough newer noncurrent
    /// entries.
    pub(crate) fn noncurrent_has_passed(&self, since: Moment, rank: usize, now: Moment) -> bool
        ensures { result ≡ noncurrent_has_passed self.now.noncurrent since rank now }
    {
        let Some(action) = self.noncurrent else {
            return false;
        };
        have_passed(action.days, since, now) && action.newer.unwrap_or(0) as usize <= rank
    }
}
