//! The clock, the caller, and what the caller may do.
ghost use Rattle.std.specs.Prelude.{◌≡◌, ◌≤◌, OnOk, IfOk, IfErr, Some, false};
ghost use Rattle.vault_core_model.specs.Leaves.{LeavesSame};
ghost use Rattle.vault_core_model.specs.Halts.{ChecksAs, is_device, is_device_refusal};
ghost use Rattle.vault_core_model.specs.Vault.{config_of};
ghost use Rattle.vault_core_model.specs.Checks.{in_time, asking, administrator, needs, needs_if, is_own, access, may_report};

use vault_base::moment::Moment;
use vault_base::name::{BucketName, CallerName, DeptName};
use vault_base::refusal::{Reason, Refusal};
use vault_base::right::Right;
use vault_core_model::access::Access;
use vault_core_model::halt::Halt;
use vault_core_model::keeper::Keeper;
use vault_core_model::records::Caller;

fn denied(reason: Reason) -> Halt
    ensures { result ≡ Halt.Refused (Refusal.AccessDenied reason) }
{
    Halt::Refused(Refusal::AccessDenied(reason))
}

/// The reading isn't before the last moment.
fn check_clock<K: Keeper>(keeper: &mut K, at: Moment) -> Result<(), Halt>
    ensures found { K.is_honest keeper.new → ChecksAs result (in_time (K.vault keeper.old) at) }
    ensures in_time { K.is_honest keeper.new → OnOk result ((K.vault keeper.old).last ≤ at) }
    ensures leaves { LeavesSame K.Kept keeper.old keeper.new (is_device result) }
{
    let last = keeper.last()?;
    if last <= at {
        Ok(())
    } else {
        Err(Halt::Refused(Refusal::ClockBack))
    }
}

/// The clock, and then the caller, who is there and isn't closed.
///
/// ClockBack; AccessDenied `unknown-caller`.
pub fn find_caller<K: Keeper>(keeper: &mut K, at: Moment, who: &CallerName) -> Result<Caller, Halt>
    ensures found { K.is_honest keeper.new → ChecksAs result (asking (K.vault keeper.old) at who.now) }
    ensures in_time { K.is_honest keeper.new → OnOk result ((K.vault keeper.old).last ≤ at) }
    ensures leaves { LeavesSame K.Kept keeper.old keeper.new (is_device result) }
{
    check_clock(keeper, at)?;
    let Some(caller) = keeper.caller(who)? else {
        return Err(denied(Reason::UnknownCaller));
    };
    if caller.closed {
        drop(caller);
        return Err(denied(Reason::UnknownCaller));
    }
    Ok(caller)
}

/// The caller has the right; else AccessDenied with its name.
pub fn check_right(caller: &Caller, right: Right) -> Result<(), Refusal>
    ensures exact { result ≡ needs caller.now right }
    ensures device { IfErr result (λ refusal. is_device_refusal refusal ≡ false) }
{
    if caller.rights.has(right) {
        Ok(())
    } else {
        Err(Refusal::AccessDenied(Reason::Right(right)))
    }
}

/// The caller has the right, where what needs it is asked for; else AccessDenied with its name.
pub fn check_right_if(asked: bool, caller: &Caller, right: Right) -> Result<(), Refusal>
    ensures exact { result ≡ needs_if asked caller.now right }
    ensures device { IfErr result (λ refusal. is_device_refusal refusal ≡ false) }
{
    if asked {
        check_right(caller, right)
    } else {
        Ok(())
    }
}

/// The clock, and then a caller with the right to administer.
///
/// As `find_caller`; AccessDenied `right:admin`.
pub fn find_administrator<K: Keeper>(
    keeper: &mut K,
    at: Moment,
    who: &CallerName,
) -> Result<Caller, Halt>
    ensures found { K.is_honest keeper.new → ChecksAs result (administrator (K.vault keeper.old) at who.now) }
    ensures in_time { K.is_honest keeper.new → OnOk result ((K.vault keeper.old).last ≤ at) }
    ensures leaves { LeavesSame K.Kept keeper.old keeper.new (is_device result) }
{
    let caller = find_caller(keeper, at, who)?;
    check_right(&caller, Right::Admin)?;
    Ok(caller)
}

/// Whether that is the caller's department.
fn is_own(own: &Option<DeptName>, dept: &DeptName) -> bool
    ensures { result ≡ is_own own.now dept.now }
{
    match own {
        None => false,
        Some(own) => *own == *dept,
    }
}

/// The clock, the caller, the bucket, its department, the right.
///
/// As `find_caller`; NoSuchBucket; AccessDenied `department`, or with the name of the right.
pub fn find_access<K: Keeper>(
    keeper: &mut K,
    at: Moment,
    who: &CallerName,
    bucket: &BucketName,
    right: Right,
) -> Result<Access, Halt>
    ensures found { K.is_honest keeper.new → ChecksAs result (access (K.vault keeper.old) at who.now bucket.now right) }
    ensures in_time { K.is_honest keeper.new → OnOk result ((K.vault keeper.old).last ≤ at) }
    ensures there { K.is_honest keeper.new → IfOk result (λ access. config_of (K.vault keeper.old) bucket.now ≡ Some access.bucket) }
    ensures leaves { LeavesSame K.Kept keeper.old keeper.new (is_device result) }
{
    let caller = find_caller(keeper, at, who)?;
    let Some(bucket) = keeper.bucket(bucket)? else {
        return Err(Halt::Refused(Refusal::NoSuchBucket));
    };
    if !is_own(&caller.dept, &bucket.dept) {
        return Err(denied(Reason::Department));
    }
    check_right(&caller, right)?;
    Ok(Access { caller, bucket })
}

/// A report is for administrators, and of the own department for those with the right; else AccessDenied
/// `department` or `right:report`.
pub fn check_report(caller: &Caller, dept: &DeptName) -> Result<(), Refusal>
    ensures exact { result ≡ may_report caller.now dept.now }
    ensures device { IfErr result (λ refusal. is_device_refusal refusal ≡ false) }
{
    if !caller.rights.admin && !is_own(&caller.dept, dept) {
        return Err(Refusal::AccessDenied(Reason::Department));
    }
    if !caller.rights.admin && !caller.rights.report {
        return Err(Refusal::AccessDenied(Reason::Right(Right::Report)));
    }
    Ok(())
}
