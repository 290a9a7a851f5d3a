//! The keys of a bucket that a rule may be for, page by page.
ghost use Rattle.std.specs.Prelude.{◌≡◌, ◌≤◌, ◌<◌, [], length, IfOk, MatchOption};
ghost use Rattle.vault_base.specs.Limits.{most_keys};
ghost use Rattle.vault_core_model.specs.Leaves.{Leaves};
ghost use Rattle.vault_core_model.specs.Halts.{is_device};
ghost use Rattle.vault_core_model.specs.Plan.{rules_in};
ghost use Rattle.vault_core_run_laws.specs.KeyOrder.{IsRising};
ghost use Rattle.vault_core_run_laws.specs.KeyRuns.{MayRun};
ghost use Rattle.vault_core_runs.specs.Making.{IsLastKey, MakesPlan, MakesPlanAt, MakesPlansAt};
ghost use Rattle.vault_core_runs.specs.Ranges.{GoesOn};

use crate::change::BucketRun;
use crate::key::run_key;
use crate::ranges::{is_place_ruled, nearest};
use std::alloc::{AllocError, Global};
use vault_base::limits::MOST_KEYS;
use vault_base::name::{KeyPrefix, ObjectKey};
use vault_core_model::halt::{Fault, Halt};
use vault_core_model::keeper::Keeper;
use vault_core_model::reply::Counts;

/// Makes the plan of a bucket, range by range and in pages of keys.
pub fn run_pages<K: Keeper>(
    alloc: Global,
    keeper: &mut K,
    run: &BucketRun,
    counts: &mut Counts,
) -> Result<(), Halt>
    requires may { K.is_honest keeper.old → MayRun (K.vault keeper.old) run.now.bucket run.now.at }
    requires given { K.is_honest keeper.old → rules_in (K.vault keeper.old) run.now.bucket ≡ run.now.rules }
    ensures makes { K.is_honest keeper.new → MakesPlan result (K.vault keeper.old) run.now.bucket run.now.at counts.old counts.new (K.vault keeper.new) }
    ensures leaves { Leaves K.Kept keeper.old keeper.new (is_device result) }
{
    let mut place = before_all(alloc)?;
    for _ in 0..u64::MAX {
        let Some(next) = run_next(alloc, keeper, run, &place, counts)? else {
            return Ok(());
        };
        place = next;
    }
    // No bucket has n pages.
    Err(Halt::Fault(Fault::Memory))
}

/// Goes on from a place: where no rule reaches, to the next that one does, and then a page of keys further.
fn run_next<K: Keeper>(
    alloc: Global,
    keeper: &mut K,
    run: &BucketRun,
    place: &KeyPrefix,
    counts: &mut Counts,
) -> Result<Option<KeyPrefix>, Halt>
    requires may { K.is_honest keeper.old → MayRun (K.vault keeper.old) run.now.bucket run.now.at }
    requires given { K.is_honest keeper.old → rules_in (K.vault keeper.old) run.now.bucket ≡ run.now.rules }
    ensures goes { K.is_honest keeper.new → GoesOn result (K.vault keeper.old) run.now.bucket run.now.at place.now counts.old counts.new (K.vault keeper.new) }
    ensures leaves { Leaves K.Kept keeper.old keeper.new (is_device result) }
{
    let Some(start) = run_start(alloc, keeper, run, place, counts)? else {
        return Ok(None);
    };
    run_after(alloc, keeper, run, &start, counts)
}

/// Goes on from a place to the nearest at which a rule reaches. A prefix is the first text that it begins,
/// so no key between them is ruled; it may be a key itself.
fn run_start<K: Keeper>(
    alloc: Global,
    keeper: &mut K,
    run: &BucketRun,
    place: &KeyPrefix,
    counts: &mut Counts,
) -> Result<Option<KeyPrefix>, Halt>
    requires may { K.is_honest keeper.old → MayRun (K.vault keeper.old) run.now.bucket run.now.at }
    requires given { K.is_honest keeper.old → rules_in (K.vault keeper.old) run.now.bucket ≡ run.now.rules }
    ensures goes { K.is_honest keeper.new → GoesOn result (K.vault keeper.old) run.now.bucket run.now.at place.now counts.old counts.new (K.vault keeper.new) }
    ensures leaves { Leaves K.Kept keeper.old keeper.new (is_device result) }
{
    if is_place_ruled(&run.rules, place) {
        let same = place.clone()?;
        return Ok(Some(same));
    }
    let Some(start) = nearest(&run.rules, place)? else {
        return Ok(None);
    };
    run_prefix(alloc, keeper, run, &start, counts)?;
    Ok(Some(start))
}

/// Makes the plan of the key that a prefix is.
fn run_prefix<K: Keeper>(
    alloc: Global,
    keeper: &mut K,
    run: &BucketRun,
    prefix: &KeyPrefix,
    counts: &mut Counts,
) -> Result<(), Halt>
    requires named { 1 ≤ length prefix.now }
    requires may { K.is_honest keeper.old → MayRun (K.vault keeper.old) run.now.bucket run.now.at }
    requires given { K.is_honest keeper.old → rules_in (K.vault keeper.old) run.now.bucket ≡ run.now.rules }
    ensures makes { K.is_honest keeper.new → MakesPlanAt result (K.vault keeper.old) run.now.bucket run.now.at prefix.now counts.old counts.new (K.vault keeper.new) }
    ensures leaves { Leaves K.Kept keeper.old keeper.new (is_device result) }
{
    let Some(key) = prefix.to_key()? else {
        return Ok(());
    };
    run_key(alloc, keeper, run, &key, counts)
}

/// Goes on from a place over the next page of keys.
fn run_after<K: Keeper>(
    alloc: Global,
    keeper: &mut K,
    run: &BucketRun,
    place: &KeyPrefix,
    counts: &mut Counts,
) -> Result<Option<KeyPrefix>, Halt>
    requires may { K.is_honest keeper.old → MayRun (K.vault keeper.old) run.now.bucket run.now.at }
    requires given { K.is_honest keeper.old → rules_in (K.vault keeper.old) run.now.bucket ≡ run.now.rules }
    ensures goes { K.is_honest keeper.new → GoesOn result (K.vault keeper.old) run.now.bucket run.now.at place.now counts.old counts.new (K.vault keeper.new) }
    ensures leaves { Leaves K.Kept keeper.old keeper.new (is_device result) }
{
    let keys = keeper.keys(&run.bucket, place, MOST_KEYS)?;
    run_page(alloc, keeper, run, &keys, counts)?;
    let last = last_seen(&keys)?;
    Ok(last)
}

/// The place before every key.
fn before_all(alloc: Global) -> Result<KeyPrefix, AllocError>
    ensures { IfOk result (λ place. place ≡ []) }
{
    match KeyPrefix::read(alloc, "")? {
        Ok(place) => Ok(place),
        Err(_) => Err(AllocError),
    }
}

/// The last key of a whole page, after which the next page begins; none of the last page.
fn last_seen(keys: &[ObjectKey]) -> Result<Option<KeyPrefix>, AllocError>
    ensures { IfOk result (λ found. MatchOption found (length keys.now < most_keys) (λ last. IsLastKey keys.now last)) }
{
    if keys.len() < MOST_KEYS as usize {
        return Ok(None);
    }
    let Some(last) = keys.last() else {
        return Ok(None);
    };
    Ok(Some(last.to_prefix()?))
}

/// Makes the plans of these keys, one after another.
fn run_page<K: Keeper>(
    alloc: Global,
    keeper: &mut K,
    run: &BucketRun,
    keys: &[ObjectKey],
    counts: &mut Counts,
) -> Result<(), Halt>
    requires may { K.is_honest keeper.old → MayRun (K.vault keeper.old) run.now.bucket run.now.at }
    requires given { K.is_honest keeper.old → rules_in (K.vault keeper.old) run.now.bucket ≡ run.now.rules }
    requires rising { K.is_honest keeper.old → IsRising keys.now }
    ensures makes { K.is_honest keeper.new → MakesPlansAt result (K.vault keeper.old) run.now.bucket run.now.at keys.now counts.old counts.new (K.vault keeper.new) }
    ensures leaves { Leaves K.Kept keeper.old keeper.new (is_device result) }
{
    for key in keys {
        run_key(alloc, keeper, run, key, counts)?;
    }
    Ok(())
}
