//! What a setting says of a version, and who may lift it.
ghost use Rattle.std.specs.Prelude.{◌≡◌, ◌↔◌, [], ◌∷◌, slice_get, option_copied, IsTrue, IsNone, IfErr, Some, Ok};
ghost use Rattle.vault_lock.specs.Lock.{guards, is_locked, removable, retainable, permit_to_lower, KeepsRetention, LowersGovernance, HasInForce};
ghost use Rattle.vault_lock.specs.Retention.{in_force, first_lock, DefaultEndsTooLate};

use crate::retention::{Default, Mode, Retention};
use thiserror::Error;
use vault_base::moment::Moment;

/// What a setting says of a version.
#[derive(Clone, Copy, PartialEq, Eq)]
pub struct Lock {
    pub retention: Option<Retention>,
    pub hold: bool,
}

/// How a removal or a change of retention is permitted.
#[derive(Clone, Copy, Debug, PartialEq, Eq)]
pub enum Permit {
    /// Nothing stands against it.
    Free,
    /// A governance retention is in force, and is bypassed.
    Bypass,
}

/// What denies a removal or a change of retention. Of several the first is named.
#[derive(Clone, Copy, Debug, PartialEq, Eq, Error)]
pub enum Denial {
    /// A legal hold.
    #[error("a legal hold is on")]
    Hold,
    /// A compliance retention in force.
    #[error("a compliance retention is in force")]
    Compliance,
    /// A governance retention in force, without a bypass that is asked for and allowed.
    #[error("a governance retention is in force")]
    Governance,
}

/// The first lock of a version that is placed now: the retention that is asked for, else that of
/// the bucket's default, else none; the hold as asked. None where the default would end past the
/// last moment.
pub fn first_lock(
    default: Option<&Default>,
    retention: Option<Retention>,
    hold: bool,
    now: Moment,
) -> Option<Lock>
    ensures exact { result ≡ first_lock (option_copied default.entry) retention hold now }
    ensures out_of_range { IsNone result ↔
        DefaultEndsTooLate (option_copied default.entry) retention now }
{
    if retention.is_some() {
        return Some(Lock { retention, hold });
    }
    let Some(default) = default else {
        return Some(Lock { retention, hold });
    };
    let retention = Some(default.retention(now)?);
    Some(Lock { retention, hold })
}

/// Whether a version with this lock is guarded now, by its hold or by its retention.
pub fn in_force(lock: &Lock, now: Moment) -> bool
    ensures { result ≡ is_locked lock.now now }
{
    lock.hold || retention_in_force(lock, now).is_some()
}

/// The retention, where it is in force.
fn retention_in_force(lock: &Lock, now: Moment) -> Option<Retention>
    ensures { result ≡ in_force lock.now.retention now }
{
    lock.retention.filter(|retention| now < retention.until)
}

/// Whether a retention of that mode may be lifted while it is in force.
fn permit_to_lower(mode: Mode, bypass: bool, may_bypass: bool) -> Result<Permit, Denial>
    ensures { result ≡ permit_to_lower mode bypass may_bypass }
{
    match mode {
        Mode::Compliance => Err(Denial::Compliance),
        Mode::Governance if bypass && may_bypass => Ok(Permit::Bypass),
        Mode::Governance => Err(Denial::Governance),
    }
}

/// Whether a version with this lock may be removed now, where `bypass` says whether a bypass
/// of governance is asked for and `may_bypass` whether the caller has that right.
///
/// A bypass that isn't needed isn't reported. `Denial` names the first of hold, compliance and
/// governance that guards the version.
pub fn may_remove(
    lock: &Lock,
    now: Moment,
    bypass: bool,
    may_bypass: bool,
) -> Result<Permit, Denial>
    ensures exact { result ≡ removable lock.now now bypass may_bypass }
    ensures free { (result ≡ Ok Permit.Free) ↔ (guards lock.now now ≡ []) }
    ensures bypassed { (result ≡ Ok Permit.Bypass) ↔
        ((guards lock.now now ≡ Denial.Governance ∷ []) × IsTrue bypass × IsTrue may_bypass) }
    ensures denied { IfErr result (λ first. slice_get (guards lock.now now) 0 ≡ Some first) }
{
    if lock.hold {
        return Err(Denial::Hold);
    }
    match retention_in_force(lock, now) {
        None => Ok(Permit::Free),
        Some(retention) => permit_to_lower(retention.mode, bypass, may_bypass),
    }
}

/// Whether a version with this lock may get the new retention now, where `bypass` says whether
/// a bypass of governance is asked for and `may_bypass` whether the caller has that right.
///
/// A hold doesn't matter. A retention in force may be kept or prolonged freely; to shorten it,
/// or to change its mode, takes a bypass of governance, and is denied under compliance.
pub fn may_retain(
    lock: &Lock,
    new: Retention,
    now: Moment,
    bypass: bool,
    may_bypass: bool,
) -> Result<Permit, Denial>
    ensures exact { result ≡ retainable lock.now new now bypass may_bypass }
    ensures free { (result ≡ Ok Permit.Free) ↔ KeepsRetention lock.now.retention new now }
    ensures bypassed { (result ≡ Ok Permit.Bypass) ↔
        (LowersGovernance lock.now.retention new now × IsTrue bypass × IsTrue may_bypass) }
    ensures denied { IfErr result (HasInForce lock.now.retention now) }
{
    let Some(old) = retention_in_force(lock, now) else {
        return Ok(Permit::Free);
    };
    if new.mode == old.mode && old.until <= new.until {
        return Ok(Permit::Free);
    }
    permit_to_lower(old.mode, bypass, may_bypass)
}
