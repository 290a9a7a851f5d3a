//! The version of each bucket that is held longest of those that were seen. It shows the department of the bucket for
//! all of them, from the last admission on.
ghost use Rattle.std.specs.Prelude.{◌≡◌, ℕ, List, None, IfOk, OnOk};
ghost use Rattle.vault_core_evidence.specs.Departments as spec;
ghost use Rattle.vault_core_evidence.specs.Holders.{holder_of, fits_holder, is_by, is_later, outlasts, Keeps, SeesVersion};

use std::alloc::{AllocError, Global};
use std::collections::BTreeMap;
use vault_base::moment::Moment;
use vault_base::name::{BucketName, DeptName};
use vault_core_model::records::{Tenure, Tenures};

/// The tenures of a version, and when it was removed, if it was.
#[derive(Drop)]
pub struct Holder {
    pub tenures: Tenures,
    pub end: Option<Moment>,
}

/// The version of each bucket that is held longest.
#[derive(Drop)]
pub struct Holders {
    holders: BTreeMap<BucketName, Holder>,
}

/// Whether a moment is before an end, where there is an end.
fn is_before(at: Moment, end: &Option<Moment>) -> bool
    ensures { result ≡ spec.is_before at end.now }
{
    match end {
        Some(end) => at < *end,
        None => true,
    }
}

/// Whether the one end is after the other. No end is after each.
fn is_later(own: &Option<Moment>, end: &Option<Moment>) -> bool
    ensures { result ≡ is_later own.now end.now }
{
    match end {
        Some(end) => !is_before_or_at(own, *end),
        None => false,
    }
}

fn is_before_or_at(own: &Option<Moment>, end: Moment) -> bool
    ensures { result ≡ is_by own.now end }
{
    match own {
        Some(own) => *own <= end,
        None => false,
    }
}

/// When the tenure before these ended: as the next one began, or else at that end.
fn until(later: &[Tenure], end: &Option<Moment>) -> Option<Moment>
    ensures { result ≡ spec.until later.now end.now }
{
    match later {
        [next, ..] => Some(next.from),
        [] => *end,
    }
}

fn is_before_both(at: Moment, end: &Option<Moment>, other: &Option<Moment>) -> bool
    ensures { result ≡ spec.is_before_both at end.now other.now }
{
    is_before(at, end) && is_before(at, other)
}

/// Whether some second ended in both times.
fn share(from: Moment, to: &Option<Moment>, begin: Moment, end: &Option<Moment>) -> bool
    ensures { result ≡ spec.share from to.now begin end.now }
{
    is_before_both(from, to, end) && is_before_both(begin, to, end)
}

/// Whether a tenure is of one department with each of the others that shares a second with it.
fn tenure_fits(
    from: Moment,
    to: &Option<Moment>,
    dept: &DeptName,
    others: &[Tenure],
    end: &Option<Moment>,
) -> bool
    ensures { result ≡ spec.tenure_fits from to.now dept.now others.now end.now }
{
    let mut rest = others;
    while let [other, later @ ..] = rest {
        let ended = until(later, end);
        if share(from, to, other.from, &ended) && *dept != other.dept {
            return false;
        }
        rest = later;
    }
    true
}

/// Whether each of the tenures fits the others.
fn tenures_fit(
    tenures: &[Tenure],
    own: &Option<Moment>,
    others: &[Tenure],
    end: &Option<Moment>,
) -> bool
    ensures { result ≡ spec.tenures_fit tenures.now own.now others.now end.now }
{
    let mut rest = tenures;
    while let [tenure, later @ ..] = rest {
        let ended = until(later, own);
        if !tenure_fits(tenure.from, &ended, &tenure.dept, others, end) {
            return false;
        }
        rest = later;
    }
    true
}

impl Holders {
    /// No version.
    pub fn new(alloc: Global) -> Holders
        ensures { (name : List ℕ) → holder_of result name ≡ None }
    {
        Holders {
            holders: BTreeMap::new(alloc),
        }
    }

    /// Whether a version with these tenures, of that bucket and held to that end, agrees with the one that is held
    /// longest.
    fn fits(&self, bucket: &BucketName, tenures: &[Tenure], end: &Option<Moment>) -> bool
        ensures { result ≡ fits_holder (holder_of self.now bucket.now) tenures.now end.now }
    {
        match self.holders.get(bucket) {
            Some(holder) => tenures_fit(tenures, end, holder.tenures.as_slice(), &holder.end),
            None => true,
        }
    }

    /// Whether a version of that bucket with that end is held longest.
    fn is_outlasted(&self, bucket: &BucketName, end: &Option<Moment>) -> bool
        ensures { result ≡ outlasts end.now (holder_of self.now bucket.now) }
    {
        match self.holders.get(bucket) {
            Some(holder) => is_later(end, &holder.end),
            None => true,
        }
    }

    /// Sees a version of that bucket, which has these tenures and was removed then, if it was. False where it shows
    /// another department in a second than the versions before it.
    pub fn see(
        &mut self,
        bucket: &BucketName,
        tenures: Tenures,
        end: Option<Moment>,
    ) -> Result<bool, AllocError>
        ensures { IfOk result (λ passes. SeesVersion self.old bucket.now tenures end passes self.new) }
    {
        if !self.fits(bucket, tenures.as_slice(), &end) {
            return Ok(false);
        }
        if tenures.as_slice().is_empty() {
            return Ok(true);
        }
        if !self.is_outlasted(bucket, &end) {
            return Ok(true);
        }
        let name = bucket.clone()?;
        self.keep(name, Holder { tenures, end })?;
        Ok(true)
    }

    fn keep(&mut self, bucket: BucketName, holder: Holder) -> Result<(), AllocError>
        ensures { OnOk result (Keeps self.old bucket holder self.new) }
    {
        self.holders.insert(bucket, holder)?;
        Ok(())
    }
}
