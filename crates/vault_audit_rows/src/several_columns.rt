//! Values that stand in several columns of a row.
ghost use Rattle.std.specs.Prelude.{◌≡◌, ◌≢◌, ◌↔◌, ◌==◌, ◌/◌, ◌%◌, ◌<◌, ◌^◌, ◌≤◌, ℕ, Bool, List, length, Option, IsTrue, IfOk, IfErr, IfSome, MatchOption};
ghost use Rattle.sqlite_value.specs.declared.value.Value.TheVariants.{Null, Text};
ghost use Rattle.sqlite_value.specs.Order.{column};
ghost use Rattle.vault_core_model.specs.Sound.{most_bytes};
ghost use Rattle.vault_lock.specs.Retention.{is_period};
ghost use Rattle.vault_lock.specs.declared.retention.Mode.{Mode};
ghost use Rattle.vault_lock.specs.declared.retention.Period.{Period};
ghost use Rattle.vault_lock.specs.declared.retention.Default.{Default};
ghost use Rattle.vault_lock.specs.declared.retention.Retention.{Retention};
ghost use Rattle.vault_rules.specs.Rules.{passes_if_given, is_day_count, is_newer_count, is_noncurrent_action, are_bounds};
ghost use Rattle.vault_rules.specs.declared.rule.Noncurrent.{Noncurrent};
ghost use Rattle.vault_core_model.specs.Rights.{rights_number};
ghost use Rattle.vault_core_model.specs.declared.rights.Rights.{Rights};
ghost use Rattle.vault_core_model.specs.declared.records.Author.{Author};
ghost use Rattle.vault_core_model.specs.declared.records.Cause.{Cause};
ghost use Rattle.vault_audit_model.specs.Limits.{IsSizedAs, IsRetention, IsAuthor, IsCause, IsRemoval};
ghost use Rattle.vault_audit_model.specs.Rows.{mode_number, days_of, years_of, cause_number, cause_text, default_mode, default_days, default_years, retention_mode, retention_until, noncurrent_days, noncurrent_newer, author_kind, author_name, removal_at, removal_cause, removal_by};
ghost use Rattle.vault_audit_model.specs.Values.{number, number_or_null, bytes_or_null, flag};
ghost use Rattle.vault_audit_rows.specs.Cells.{ShowNoRemoval};

use crate::cell::{
    digest_or_null, flag, is_null, moment, number, number_up_to, small_number, small_number_or_null,
};
use crate::misread::Misread;
use crate::name::{caller_name, rule_id};
use sqlite::Row;
use vault_base::content::Digest;
use vault_base::limits::{MOST_CONTENT, MOST_EXTERNAL};
use vault_core_model::records::{Author, Cause, Removal};
use vault_core_model::rights::Rights;
use vault_lock::retention::{Default, Mode, Period, Retention};
use vault_rules::rule::{Noncurrent, are_bounds, is_day_count, is_newer_count};

/// The mode in a column, or none.
pub fn mode(row: &Row, at: usize) -> Option<Option<Mode>>
    ensures { MatchOption result ((m : Option Mode) → column row.now at ≢ number (mode_number m)) (λ m. column row.now at ≡ number (mode_number m)) }
{
    match number(row, at)? {
        0 => Some(None),
        1 => Some(Some(Mode::Governance)),
        2 => Some(Some(Mode::Compliance)),
        _ => None,
    }
}

/// The retention whose mode and end stand in these columns, or none.
pub fn retention(row: &Row, mode_at: usize, until_at: usize) -> Option<Option<Retention>>
    ensures { MatchOption result
        ((r : Option Retention) → IfSome r IsRetention → column row.now mode_at ≡ retention_mode r → column row.now until_at ≢ retention_until r)
        (λ r. (column row.now mode_at ≡ retention_mode r) × (column row.now until_at ≡ retention_until r) × IfSome r IsRetention) }
{
    match mode(row, mode_at)? {
        None => is_null(row, until_at).then_some(None),
        Some(mode) => {
            let until = moment(row, until_at)?;
            Some(Some(Retention { mode, until }))
        }
    }
}

/// The period, where it is one that a default may have.
fn in_range(period: Period) -> Option<Period>
    ensures { MatchOption result (¬ IsTrue (is_period period)) (λ p. (p ≡ period) × IsTrue (is_period p)) }
{
    period.is_in_range().then_some(period)
}

/// The period of n days or years, of which one is given.
fn period_of(days: Option<u32>, years: Option<u32>) -> Option<Period>
    ensures { MatchOption result
        ((p : Period) → IsTrue (is_period p) → days ≡ days_of p → years ≢ years_of p)
        (λ p. (days ≡ days_of p) × (years ≡ years_of p) × IsTrue (is_period p)) }
{
    match (days, years) {
        (Some(days), None) => in_range(Period::Days(days)),
        (None, Some(years)) => in_range(Period::Years(u16::try_from(years).ok()?)),
        _ => None,
    }
}

/// The period whose days or years stand in these columns.
fn period(row: &Row, days_at: usize, years_at: usize) -> Option<Period>
    ensures { MatchOption result
        ((p : Period) → IsTrue (is_period p) → column row.now days_at ≡ number_or_null (days_of p) → column row.now years_at ≢ number_or_null (years_of p))
        (λ p. (column row.now days_at ≡ number_or_null (days_of p)) × (column row.now years_at ≡ number_or_null (years_of p)) × IsTrue (is_period p)) }
{
    let days = small_number_or_null(row, days_at)?;
    let years = small_number_or_null(row, years_at)?;
    period_of(days, years)
}

/// The default retention in three columns, or none.
pub fn default(
    row: &Row,
    mode_at: usize,
    days_at: usize,
    years_at: usize,
) -> Option<Option<Default>>
    ensures { MatchOption result
        ((d : Option Default) → IfSome d (λ d. IsTrue (is_period d.period)) → column row.now mode_at ≡ default_mode d → column row.now days_at ≡ default_days d → column row.now years_at ≢ default_years d)
        (λ d. (column row.now mode_at ≡ default_mode d) × (column row.now days_at ≡ default_days d) × (column row.now years_at ≡ default_years d) × IfSome d (λ d. IsTrue (is_period d.period))) }
{
    let Some(mode) = mode(row, mode_at)? else {
        if is_null(row, days_at) && is_null(row, years_at) {
            return Some(None);
        }
        return None;
    };
    let period = period(row, days_at, years_at)?;
    Some(Some(Default { mode, period }))
}

/// The days in a column of a rule, or none.
pub fn days_or_null(row: &Row, at: usize) -> Option<Option<u32>>
    ensures { MatchOption result
        ((o : Option ℕ) → IsTrue (passes_if_given is_day_count o) → column row.now at ≢ number_or_null o)
        (λ o. (column row.now at ≡ number_or_null o) × IsTrue (passes_if_given is_day_count o)) }
{
    let days = small_number_or_null(row, at)?;
    days.map_or(true, is_day_count).then_some(days)
}

/// The number of newer noncurrent entries in a column of a rule, or none.
fn newer_or_null(row: &Row, at: usize) -> Option<Option<u32>>
    ensures { MatchOption result
        ((o : Option ℕ) → IsTrue (passes_if_given is_newer_count o) → column row.now at ≢ number_or_null o)
        (λ o. (column row.now at ≡ number_or_null o) × IsTrue (passes_if_given is_newer_count o)) }
{
    let newer = small_number_or_null(row, at)?;
    newer.map_or(true, is_newer_count).then_some(newer)
}

/// What a rule does to noncurrent entries, whose numbers stand in these columns, or nothing.
pub fn noncurrent(row: &Row, days_at: usize, newer_at: usize) -> Option<Option<Noncurrent>>
    ensures { MatchOption result
        ((n : Option Noncurrent) → IsTrue (passes_if_given is_noncurrent_action n) → column row.now days_at ≡ noncurrent_days n → column row.now newer_at ≢ noncurrent_newer n)
        (λ n. (column row.now days_at ≡ noncurrent_days n) × (column row.now newer_at ≡ noncurrent_newer n) × IsTrue (passes_if_given is_noncurrent_action n)) }
{
    let days = days_or_null(row, days_at)?;
    let newer = newer_or_null(row, newer_at)?;
    match days {
        Some(days) => Some(Some(Noncurrent { days, newer })),
        None => newer.is_none().then_some(None),
    }
}

/// The bounds of sizes of a rule.
#[derive(Clone, Copy)]
pub struct Bounds {
    pub larger: Option<u64>,
    pub smaller: Option<u64>,
}

/// The bound in a column of a rule, where it is below 2^32, or none.
fn bound_or_null(row: &Row, at: usize) -> Option<Option<u64>>
    ensures { MatchOption result ((o : Option ℕ) → IfSome o (λ n. n < 2 ^ 32) → column row.now at ≢ number_or_null o) (λ o. column row.now at ≡ number_or_null o) }
{
    match small_number_or_null(row, at)? {
        Some(bound) => Some(Some(u64::from(bound))),
        None => Some(None),
    }
}

/// The bounds of sizes in two columns of a rule.
#[tactic(auto, using(crate::proofs::ColumnLemmas::bounds_fit))]
pub fn bounds_of(row: &Row, larger_at: usize, smaller_at: usize) -> Option<Bounds>
    ensures { MatchOption result
        ((l s : Option ℕ) → IsTrue (are_bounds l s) → column row.now larger_at ≡ number_or_null l → column row.now smaller_at ≢ number_or_null s)
        (λ b. (column row.now larger_at ≡ number_or_null b.larger) × (column row.now smaller_at ≡ number_or_null b.smaller) × IsTrue (are_bounds b.larger b.smaller)) }
{
    let larger = bound_or_null(row, larger_at)?;
    let smaller = bound_or_null(row, smaller_at)?;
    are_bounds(larger, smaller).then_some(Bounds { larger, smaller })
}

/// Who admitted an entry, by two columns.
pub fn author(row: &Row, kind_at: usize, name_at: usize) -> Result<Author, Misread>
    ensures ok { IfOk result (λ a. (column row.now kind_at ≡ author_kind a) × (column row.now name_at ≡ author_name a) × IsAuthor a) }
    ensures wrong { IfErr result (λ e. e ≡ Misread.Wrong → (a : Author) → IsAuthor a → column row.now kind_at ≡ author_kind a → column row.now name_at ≢ author_name a) }
{
    match flag(row, kind_at) {
        Some(true) => Ok(Author::Rule(rule_id(row, name_at)?)),
        Some(false) => Ok(Author::Caller(caller_name(row, name_at)?)),
        None => Err(Misread::Wrong),
    }
}

/// Why an entry was removed, by two columns.
fn cause(row: &Row, kind_at: usize, name_at: usize) -> Result<Cause, Misread>
    ensures ok { IfOk result (λ c. (column row.now kind_at ≡ number (cause_number c)) × (column row.now name_at ≡ Text (cause_text c)) × IsCause c) }
    ensures wrong { IfErr result (λ e. e ≡ Misread.Wrong → (c : Cause) → IsCause c → column row.now kind_at ≡ number (cause_number c) → column row.now name_at ≢ Text (cause_text c)) }
{
    match number(row, kind_at) {
        Some(0) => Ok(Cause::Request(caller_name(row, name_at)?)),
        Some(1) => Ok(Cause::Bypass(caller_name(row, name_at)?)),
        Some(2) => Ok(Cause::Rule(rule_id(row, name_at)?)),
        _ => Err(Misread::Wrong),
    }
}

/// Whether three columns are NULL.
fn are_null(row: &Row, first: usize, second: usize, third: usize) -> bool
    ensures { IsTrue result ↔ ((column row.now first ≡ Null) × (column row.now second ≡ Null) × (column row.now third ≡ Null)) }
{
    is_null(row, first) && is_null(row, second) && is_null(row, third)
}

/// The removal in three columns, or none.
pub fn removal(
    row: &Row,
    at: usize,
    kind_at: usize,
    name_at: usize,
) -> Result<Option<Removal>, Misread>
    ensures ok { IfOk result (λ r. (column row.now at ≡ removal_at r) × (column row.now kind_at ≡ removal_cause r) × (column row.now name_at ≡ removal_by r) × IfSome r IsRemoval) }
    ensures wrong { IfErr result (λ e. e ≡ Misread.Wrong → ShowNoRemoval (column row.now at) (column row.now kind_at) (column row.now name_at)) }
{
    if are_null(row, at, kind_at, name_at) {
        return Ok(None);
    }
    let Some(at) = moment(row, at) else {
        return Err(Misread::Wrong);
    };
    let cause = cause(row, kind_at, name_at)?;
    Ok(Some(Removal { at, cause }))
}

/// The rights in a column.
#[tactic(auto, using(crate::proofs::ColumnLemmas::rights_fit))]
pub fn rights(row: &Row, at: usize) -> Option<Rights>
    ensures { MatchOption result ((r : Rights) → column row.now at ≢ number (rights_number r)) (λ r. column row.now at ≡ number (rights_number r)) }
{
    Rights::of_number(small_number(row, at)?)
}

/// Whether an entry is a delete marker, its size and its digest.
pub struct Extent {
    pub marker: bool,
    /// In bytes; a marker has 0.
    pub size: u64,
    pub digest: Option<Digest>,
}

/// The greatest size of a version, whose content may be gone: a vault may register contents that are kept outside.
fn greatest_size(external: bool) -> u64
    ensures { result ≡ most_bytes external None }
{
    if external {
        MOST_EXTERNAL
    } else {
        MOST_CONTENT as u64
    }
}

/// The size of a version in a column.
pub fn size(row: &Row, at: usize, external: bool) -> Option<u64>
    ensures { MatchOption result ((n : ℕ) → n ≤ most_bytes external None → column row.now at ≢ number n) (λ n. (column row.now at ≡ number n) × (n ≤ most_bytes external None)) }
{
    number_up_to(row, at, greatest_size(external))
}

/// Whether a marker has no size and no digest, and a version has one.
fn is_sized(marker: bool, size: u64, digest: &Option<Digest>) -> bool
    requires { IfSome digest.now (λ d. length d ≡ 32) }
    ensures { (external : Bool) → size ≤ most_bytes external None → IsTrue result ↔ IsSizedAs marker external size digest.now }
{
    match digest {
        None => marker && size == 0,
        Some(_) => !marker,
    }
}

/// What three columns say of an entry's size.
#[tactic(auto, using(crate::proofs::ColumnLemmas::sized_within, crate::proofs::ColumnLemmas::sized_digest))]
pub fn extent_of(
    row: &Row,
    external: bool,
    marker_at: usize,
    size_at: usize,
    digest_at: usize,
) -> Option<Extent>
    ensures { MatchOption result
        ((m : Bool) → (s : ℕ) → (d : Option (List ℕ)) → IsSizedAs m external s d → column row.now marker_at ≡ flag m → column row.now size_at ≡ number s → column row.now digest_at ≢ bytes_or_null d)
        (λ x. (column row.now marker_at ≡ flag x.marker) × (column row.now size_at ≡ number x.size) × (column row.now digest_at ≡ bytes_or_null x.digest) × IsSizedAs x.marker external x.size x.digest) }
{
    let marker = flag(row, marker_at)?;
    let size = size(row, size_at, external)?;
    let digest = digest_or_null(row, digest_at)?;
    if !is_sized(marker, size, &digest) {
        return None;
    }
    Some(Extent {
        marker,
        size,
        digest,
    })
}
