//! What locks permit: the decisions of the commands, made again.
ghost use Rattle.std.specs.Prelude.{◌≡◌, [], ◌∷◌};
ghost use Rattle.vault_core_model.specs.Vault.{Vault, caller_of};
ghost use Rattle.vault_core_evidence.specs.declared.breach.Law.TheVariants as law;
ghost use Rattle.vault_core_evidence.specs.Breaches as spec;

use crate::breach::Law;
use crate::rights::{is_remover, may_bypass, may_hold, may_retain};
use vault_base::moment::Moment;
use vault_core_model::records::{Caller, Cause, Setting};
use vault_lock::lock::{Denial, Lock, Permit};
use vault_lock::retention::Retention;

/// What is permitted freely was made freely, and what is permitted by bypass by bypass.
fn gives(bypass: bool, permit: Result<Permit, Denial>) -> bool
    ensures { result ≡ spec.gives bypass permit }
{
    match permit {
        Ok(Permit::Free) => !bypass,
        Ok(Permit::Bypass) => bypass,
        Err(_) => false,
    }
}

fn same_retention(one: Option<Retention>, other: Option<Retention>) -> bool
    ensures { result ≡ spec.same_retention one other }
{
    let Some(one) = one else {
        return other.is_none();
    };
    let Some(other) = other else {
        return false;
    };
    one.mode == other.mode && one.until == other.until
}

fn same_bool(one: bool, other: bool) -> bool
    ensures { result ≡ spec.same_bool one other }
{
    if one { other } else { !other }
}

/// Whether the retention, where there is one, ends after the moment.
pub(crate) fn ends_after(at: Moment, retention: Option<Retention>) -> bool
    ensures { result ≡ spec.ends_after at retention }
{
    match retention {
        Some(retention) => at < retention.until,
        None => true,
    }
}

/// A new retention that the commands permit as it was set.
fn retains(caller: &Option<Caller>, old: &Lock, setting: &Setting) -> bool
    ensures { (v : Vault) → caller.now ≡ caller_of v setting.now.by → result ≡ spec.retains v setting.now.at old.now setting.now }
{
    let Some(new) = setting.lock.retention else {
        return false;
    };
    let may_bypass = may_bypass(caller);
    let permit = vault_lock::lock::may_retain(old, new, setting.at, setting.bypass, may_bypass);
    setting.at < new.until
        && same_bool(setting.lock.hold, old.hold)
        && gives(setting.bypass, permit)
}

/// The retention is kept, whatever the hold.
fn holds(old: &Lock, setting: &Setting) -> bool
    ensures { result ≡ spec.holds old.now setting.now }
{
    same_retention(setting.lock.retention, old.retention) && !setting.bypass
}

/// What a setting breaks over the lock before it.
pub(crate) fn setting_breach(caller: &Option<Caller>, old: &Lock, setting: &Setting) -> Option<Law>
    ensures { (v : Vault) → caller.now ≡ caller_of v setting.now.by → result ≡ spec.broken (spec.lock_tests v old.now setting.now) }
{
    let retains = retains(caller, old, setting);
    let holds = holds(old, setting);
    if !(retains || holds) {
        return Some(Law::Setting);
    }
    if retains && may_retain(caller) || holds && may_hold(caller) {
        None
    } else {
        Some(Law::Setter)
    }
}

/// A removal that the lock permits as it was made.
fn is_permitted_removal(caller: &Option<Caller>, lock: &Lock, at: Moment, cause: &Cause) -> bool
    ensures { (v : Vault) → caller.now ≡ spec.remover_of v cause.now → result ≡ spec.is_permitted_removal v lock.now at cause.now }
{
    match cause {
        Cause::Request(_) => gives(false, vault_lock::lock::may_remove(lock, at, false, false)),
        Cause::Bypass(_) => {
            let may_bypass = may_bypass(caller);
            gives(
                true,
                vault_lock::lock::may_remove(lock, at, true, may_bypass),
            )
        }
        Cause::Rule(_) => gives(false, vault_lock::lock::may_remove(lock, at, false, false)),
    }
}

/// What a removal breaks under the last lock.
pub(crate) fn removal_breach(
    caller: &Option<Caller>,
    lock: &Lock,
    at: Moment,
    cause: &Cause,
) -> Option<Law>
    ensures { (v : Vault) → caller.now ≡ spec.remover_of v cause.now → result ≡ spec.broken (spec.removal_tests v lock.now at cause.now) }
{
    if !is_permitted_removal(caller, lock, at, cause) {
        return Some(Law::Removal);
    }
    if is_remover(caller, cause) {
        None
    } else {
        Some(Law::Remover)
    }
}
