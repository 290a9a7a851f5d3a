//! The held versions of a bucket: their sums, and the tenures that a move begins.
ghost use Rattle.std.specs.Prelude.{◌≡◌, ◌*◌, ◌^◌, ◌<◌, ℕ, List, length, filter, map, sum_by, IfOk};
ghost use Rattle.vault_core_model.specs.declared.records.Tenure.{Tenure};
ghost use Rattle.vault_core_model.specs.Change.{tenured_if};
ghost use Rattle.vault_core_model.specs.Places.{is_held_version_in};
ghost use Rattle.vault_core_model.specs.Totals.{last_day_from};
ghost use Rattle.vault_core_list.specs.Moves.{longer_if};

use std::alloc::{AllocError, Global};
use vault_base::name::BucketName;
use vault_core_model::records::{Entry, History, Tenure, Tenures};

/// Whether the entry is a held version in that bucket.
fn is_held_version_in(bucket: &BucketName, entry: &Entry) -> bool
    ensures { result ≡ is_held_version_in bucket.now entry.now }
{
    !entry.marker && entry.bucket == *bucket && entry.removal.is_none()
}

/// The day from which the department has it: that of the last tenure.
fn last_day_from(tenures: &Tenures) -> u64
    ensures { result ≡ last_day_from tenures.now }
{
    let Some(last) = tenures.as_slice().last() else {
        return 0;
    };
    last.from.day()
}

/// The bytes of the held versions of a bucket, and their weight: each size times the day from which the
/// department has it.
pub(crate) fn held(histories: &[History], bucket: &BucketName) -> (u64, u64)
    requires weight_fits { sum_by (λ h. h.entry.size * last_day_from h.tenures) (filter (λ h. is_held_version_in bucket.now h.entry) histories.now) < 2 ^ 64 }
    requires bytes_fit { sum_by (λ h. h.entry.size) (filter (λ h. is_held_version_in bucket.now h.entry) histories.now) < 2 ^ 64 }
    ensures bytes { result.0 ≡ sum_by (λ h. h.entry.size) (filter (λ h. is_held_version_in bucket.now h.entry) histories.now) }
    ensures weight { result.1 ≡ sum_by (λ h. h.entry.size * last_day_from h.tenures) (filter (λ h. is_held_version_in bucket.now h.entry) histories.now) }
{
    let mut bytes = 0;
    let mut weight = 0;
    for history in histories {
        if is_held_version_in(bucket, &history.entry) {
            let size = history.entry.size;
            bytes += size;
            weight += size * last_day_from(&history.tenures);
        }
    }
    (bytes, weight)
}

/// The tenures of a history and that one more, where it is a held version of the bucket.
fn longer_if(
    history: &History,
    bucket: &BucketName,
    tenure: &Tenure,
) -> Result<Option<Tenures>, AllocError>
    ensures { IfOk result (λ longer. longer ≡ longer_if bucket.now tenure.now history.now) }
{
    if !is_held_version_in(bucket, &history.entry) {
        return Ok(None);
    }
    let mut tenures = history.tenures.clone()?;
    tenures.push(tenure.clone()?)?;
    Ok(Some(tenures))
}

/// For each history, the tenures that it gets with that one more; none where it keeps its own.
pub(crate) fn longer(
    alloc: Global,
    histories: &[History],
    bucket: &BucketName,
    tenure: &Tenure,
) -> Result<Vec<Option<Tenures>>, AllocError>
    ensures { IfOk result (λ list. list.items ≡ map (longer_if bucket.now tenure.now) histories.now) }
{
    let mut list = Vec::new(alloc);
    for history in histories {
        list.push(longer_if(history, bucket, tenure)?)?;
    }
    Ok(list)
}

/// Puts in the tenures that each history gets. It takes no memory.
pub(crate) fn put_in(histories: &mut [History], longer: &mut [Option<Tenures>])
    requires { length longer.old ≡ length histories.old }
    ensures { (bucket : List ℕ) (tenure : Tenure) → longer.old ≡ map (longer_if bucket tenure) histories.old → histories.new ≡ map (tenured_if bucket tenure) histories.old }
{
    for (index, history) in histories.iter_mut().enumerate() {
        if let Some(tenures) = longer[index].take() {
            history.tenures = tenures;
        }
    }
}
