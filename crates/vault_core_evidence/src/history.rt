//! The tests of one entry by itself.
ghost use Rattle.std.specs.Prelude.{◌≡◌, IfOk, false, [], ◌∷◌};
ghost use Rattle.vault_core_model.specs.Leaves.{ReadsAs};
ghost use Rattle.vault_core_model.specs.Vault.{last_lock};
ghost use Rattle.vault_core_evidence.specs.Lawful.{last_at};
ghost use Rattle.vault_core_evidence.specs.Breaches as spec;

use crate::breach::Law;
use crate::locks::{ends_after, removal_breach, setting_breach};
use crate::rights::{is_admitted, is_author, may_hold, remover};
use vault_base::moment::Moment;
use vault_core_model::halt::Fault;
use vault_core_model::keeper::Keeper;
use vault_core_model::records::{Author, Entry, Removal, Setting, Tenure};
use vault_lock::lock::Lock;

/// What the first setting breaks, of a version that was admitted then, by that author.
fn first_breach<K: Keeper>(
    keeper: &mut K,
    admitted: Moment,
    by: &Author,
    first: &Setting,
) -> Result<Option<Law>, Fault>
    ensures value { K.is_honest keeper.new → IfOk result (λ found. found ≡ spec.broken (spec.first_tests (K.vault keeper.old) admitted by.now first.now)) }
    ensures leaves { ReadsAs K.Kept keeper.old keeper.new result }
{
    if first.at != admitted || first.bypass || !is_author(by, &first.by) {
        return Ok(Some(Law::FirstSetting));
    }
    if !ends_after(admitted, first.lock.retention) {
        return Ok(Some(Law::FirstSetting));
    }
    if !first.lock.hold {
        return Ok(None);
    }
    let caller = keeper.caller(&first.by)?;
    if may_hold(&caller) {
        Ok(None)
    } else {
        Ok(Some(Law::Setter))
    }
}

/// What a setting breaks after the one before it.
fn next_breach<K: Keeper>(
    keeper: &mut K,
    last: &Setting,
    next: &Setting,
) -> Result<Option<Law>, Fault>
    ensures value { K.is_honest keeper.new → IfOk result (λ found. found ≡ spec.broken (spec.next_tests (K.vault keeper.old) last.now next.now)) }
    ensures leaves { ReadsAs K.Kept keeper.old keeper.new result }
{
    if next.at < last.at {
        return Ok(Some(Law::Order));
    }
    let caller = keeper.caller(&next.by)?;
    Ok(setting_breach(&caller, &last.lock, next))
}

/// What the settings after the first break.
fn later_breach<K: Keeper>(
    keeper: &mut K,
    first: &Setting,
    later: &[Setting],
) -> Result<Option<Law>, Fault>
    ensures value { K.is_honest keeper.new → IfOk result (λ found. found ≡ spec.broken (spec.after_tests (K.vault keeper.old) first.now later.now)) }
    ensures leaves { ReadsAs K.Kept keeper.old keeper.new result }
{
    let mut last = first;
    for next in later {
        let found = next_breach(keeper, last, next)?;
        if found.is_some() {
            return Ok(found);
        }
        last = next;
    }
    Ok(None)
}

/// What the settings of an entry break.
fn settings_breach<K: Keeper>(
    keeper: &mut K,
    entry: &Entry,
    settings: &[Setting],
) -> Result<Option<Law>, Fault>
    ensures value { K.is_honest keeper.new → IfOk result (λ found. found ≡ spec.broken (spec.settings_tests (K.vault keeper.old) entry.now.admitted entry.now.by settings.now)) }
    ensures leaves { ReadsAs K.Kept keeper.old keeper.new result }
{
    let Some((first, later)) = settings.split_first() else {
        return Ok(None);
    };
    let found = first_breach(keeper, entry.admitted, &entry.by, first)?;
    if found.is_some() {
        return Ok(found);
    }
    later_breach(keeper, first, later)
}

/// The moment of the last setting; that of the admission where there is none.
fn last_at(admitted: Moment, settings: &[Setting]) -> Moment
    ensures { result ≡ last_at admitted settings.now }
{
    let Some(last) = settings.last() else {
        return admitted;
    };
    last.at
}

/// The lock of the last setting; a marker has none.
fn last_lock(settings: &[Setting]) -> Lock
    ensures { result ≡ last_lock settings.now }
{
    let Some(last) = settings.last() else {
        return Lock {
            retention: None,
            hold: false,
        };
    };
    last.lock
}

/// What the end of an entry breaks, after a last setting of that moment and lock. `now` is the last moment.
fn end_breach<K: Keeper>(
    keeper: &mut K,
    now: Moment,
    from: Moment,
    lock: &Lock,
    removal: &Option<Removal>,
) -> Result<Option<Law>, Fault>
    requires { K.is_honest keeper.old → now ≡ (K.vault keeper.old).last }
    ensures value { K.is_honest keeper.new → IfOk result (λ found. found ≡ spec.broken (spec.end_tests (K.vault keeper.old) from lock.now removal.now)) }
    ensures leaves { ReadsAs K.Kept keeper.old keeper.new result }
{
    let Some(removal) = removal else {
        return Ok(order_breach(from <= now));
    };
    if removal.at < from || now < removal.at {
        return Ok(Some(Law::Order));
    }
    let caller = remover(keeper, &removal.cause)?;
    Ok(removal_breach(&caller, lock, removal.at, &removal.cause))
}

fn order_breach(in_order: bool) -> Option<Law>
    ensures { result ≡ spec.broken (spec.test in_order Law.Order ∷ []) }
{
    if in_order { None } else { Some(Law::Order) }
}

/// The first law that an entry breaks by itself, which has these settings and tenures. `now` is the last moment.
pub(crate) fn rule_breach<K: Keeper>(
    keeper: &mut K,
    now: Moment,
    entry: &Entry,
    settings: &[Setting],
    tenures: &[Tenure],
) -> Result<Option<Law>, Fault>
    requires { K.is_honest keeper.old → now ≡ (K.vault keeper.old).last }
    ensures value { K.is_honest keeper.new → IfOk result (λ found. found ≡ spec.broken (spec.rule_tests (K.vault keeper.old) entry.now settings.now tenures.now)) }
    ensures leaves { ReadsAs K.Kept keeper.old keeper.new result }
{
    if !is_admitted(keeper, entry, tenures)? {
        return Ok(Some(Law::Admission));
    }
    let found = settings_breach(keeper, entry, settings)?;
    if found.is_some() {
        return Ok(found);
    }
    let from = last_at(entry.admitted, settings);
    let lock = last_lock(settings);
    end_breach(keeper, now, from, &lock, &entry.removal)
}
