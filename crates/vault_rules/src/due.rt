//! Which entries the lifecycle rules make due.
ghost use Rattle.std.specs.Prelude.{◌≡◌};
ghost use Rattle.vault_rules.specs.Due.{due_current, due_noncurrent, due_marker};

use crate::rule::Rule;
use crate::rule_set::RuleSet;
use vault_base::moment::Moment;
use vault_base::name::ObjectKey;

/// The place of the first rule that makes the key's current content due, which has that size and
/// was admitted then.
pub fn due_current(
    rules: &RuleSet,
    key: &ObjectKey,
    size: u64,
    admitted: Moment,
    now: Moment,
) -> Option<usize>
    ensures { result ≡ due_current rules.now key.now size admitted now }
{
    first_for_current(rules.as_slice(), key, size, admitted, now)
}

/// The place of the first rule that makes a noncurrent entry due, which has that size, became
/// noncurrent then and has n newer noncurrent entries above it.
pub fn due_noncurrent(
    rules: &RuleSet,
    key: &ObjectKey,
    size: u64,
    since: Moment,
    rank: usize,
    now: Moment,
) -> Option<usize>
    ensures { result ≡ due_noncurrent rules.now key.now size since rank now }
{
    first_for_noncurrent(rules.as_slice(), key, size, since, rank, now)
}

/// The place of the first rule that makes a marker due that is its key's only entry, has that
/// size and was admitted then.
pub fn due_marker(
    rules: &RuleSet,
    key: &ObjectKey,
    size: u64,
    admitted: Moment,
    now: Moment,
) -> Option<usize>
    ensures { result ≡ due_marker rules.now key.now size admitted now }
{
    first_for_marker(rules.as_slice(), key, size, admitted, now)
}

/// The place of the first of these rules that makes current content due.
pub(crate) fn first_for_current(
    rules: &[Rule],
    key: &ObjectKey,
    size: u64,
    admitted: Moment,
    now: Moment,
) -> Option<usize>
    ensures { result ≡ due_current rules.now key.now size admitted now }
{
    rules.iter().position(|rule| rule.fits(key, size) && rule.days_have_passed(admitted, now))
}

/// The place of the first of these rules that makes a noncurrent entry due.
pub(crate) fn first_for_noncurrent(
    rules: &[Rule],
    key: &ObjectKey,
    size: u64,
    since: Moment,
    rank: usize,
    now: Moment,
) -> Option<usize>
    ensures { result ≡ due_noncurrent rules.now key.now size since rank now }
{
    rules.iter().position(|rule| rule.fits(key, size)
        && rule.noncurrent_has_passed(since, rank, now))
}

/// The place of the first of these rules that makes a lone marker due.
pub(crate) fn first_for_marker(
    rules: &[Rule],
    key: &ObjectKey,
    size: u64,
    admitted: Moment,
    now: Moment,
) -> Option<usize>
    ensures { result ≡ due_marker rules.now key.now size admitted now }
{
    rules.iter().position(|rule| {
        rule.fits(key, size) && (rule.lone_markers || rule.days_have_passed(admitted, now))
    })
}
