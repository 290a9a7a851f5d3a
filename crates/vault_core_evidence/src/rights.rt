//! Who may do what.
ghost use Rattle.std.specs.Prelude.{◌≡◌, ℕ, List, IfOk};
ghost use Rattle.vault_base.specs.declared.right.Right.TheVariants as right;
ghost use Rattle.vault_core_model.specs.Leaves.{ReadsAs};
ghost use Rattle.vault_core_model.specs.Vault.{Vault, caller_of, registrar_name};
ghost use Rattle.vault_core_run_laws.specs.Bypass.{has_bypass};
ghost use Rattle.vault_core_run_laws.specs.Entitled.{has_right};
ghost use Rattle.vault_core_model.specs.declared.records.Author.TheVariants as authors;
ghost use Rattle.vault_core_evidence.specs.Breaches as spec;
ghost use Rattle.vault_core_evidence.specs.Lawful.{is_registrar};

use std::alloc::{AllocError, Global};
use vault_base::name::CallerName;
use vault_base::right::Right;
use vault_core_model::halt::Fault;
use vault_core_model::keeper::Keeper;
use vault_core_model::records::{Author, Caller, Cause, Entry, Tenure};
use vault_core_model::rights::Rights;

/// Whether the caller may bypass governance.
pub(crate) fn may_bypass(caller: &Option<Caller>) -> bool
    ensures { result ≡ has_bypass caller.now }
{
    match caller {
        Some(caller) => caller.rights.bypass,
        None => false,
    }
}

/// Whether the caller may set a retention.
pub(crate) fn may_retain(caller: &Option<Caller>) -> bool
    ensures { result ≡ has_right right.Retain caller.now }
{
    match caller {
        Some(caller) => caller.rights.retain,
        None => false,
    }
}

/// Whether the caller may set a legal hold.
pub(crate) fn may_hold(caller: &Option<Caller>) -> bool
    ensures { result ≡ has_right right.Hold caller.now }
{
    match caller {
        Some(caller) => caller.rights.hold,
        None => false,
    }
}

fn may_remove(caller: &Option<Caller>) -> bool
    ensures { result ≡ has_right right.DeleteVersion caller.now }
{
    match caller {
        Some(caller) => caller.rights.delete_version,
        None => false,
    }
}

fn may_admit(caller: &Option<Caller>, marker: bool) -> bool
    ensures { (v : Vault) (name : List ℕ) → caller.now ≡ caller_of v name → result ≡ spec.is_admitter v marker (authors.Caller name) }
{
    match caller {
        Some(caller) => {
            if marker {
                caller.rights.delete
            } else {
                caller.rights.put
            }
        }
        None => false,
    }
}

/// Whether the caller is of the department of the first tenure. A marker has no tenure: any department will do.
fn is_of_department(caller: &Option<Caller>, marker: bool, tenures: &[Tenure]) -> bool
    ensures { (v : Vault) (name : List ℕ) → caller.now ≡ caller_of v name → result ≡ spec.is_of_department v marker (authors.Caller name) tenures.now }
{
    let Some(caller) = caller else {
        return false;
    };
    let Some(dept) = &caller.dept else {
        return false;
    };
    if marker {
        return true;
    }
    let Some(first) = tenures.first() else {
        return false;
    };
    *dept == first.dept
}

/// Whether the author may admit such an entry, and is of the department of its first tenure.
pub(crate) fn is_admitted<K: Keeper>(
    keeper: &mut K,
    entry: &Entry,
    tenures: &[Tenure],
) -> Result<bool, Fault>
    ensures value { K.is_honest keeper.new → IfOk result (λ may. may ≡ spec.is_admitted (K.vault keeper.old) entry.now tenures.now) }
    ensures leaves { ReadsAs K.Kept keeper.old keeper.new result }
{
    let Author::Caller(name) = &entry.by else {
        return Ok(entry.marker);
    };
    let caller = keeper.caller(name)?;
    Ok(may_admit(&caller, entry.marker) && is_of_department(&caller, entry.marker, tenures))
}

/// Whether the caller has no department, and the right to administer alone.
pub(crate) fn is_first_caller(caller: &Option<Caller>) -> bool
    ensures { result ≡ is_registrar caller.now }
{
    match caller {
        Some(caller) => {
            let first = Rights::none().with(Right::Admin);
            caller.dept.is_none() && caller.rights.number() == first.number()
        }
        None => false,
    }
}

/// The name of the caller whom a new vault has.
pub(crate) fn registrar_name(alloc: Global) -> Result<CallerName, AllocError>
    ensures { IfOk result (λ name. name ≡ registrar_name) }
{
    Ok(CallerName::read(alloc, "registrar")?.unwrap())
}

/// Whether the author is the caller of that name.
pub(crate) fn is_author(by: &Author, who: &CallerName) -> bool
    ensures { result ≡ spec.is_author by.now who.now }
{
    match by {
        Author::Caller(name) => *name == *who,
        Author::Rule(_) => false,
    }
}

/// The caller who removed; none where a rule did.
pub(crate) fn remover<K: Keeper>(keeper: &mut K, cause: &Cause) -> Result<Option<Caller>, Fault>
    ensures value { K.is_honest keeper.new → IfOk result (λ found. found ≡ spec.remover_of (K.vault keeper.old) cause.now) }
    ensures leaves { ReadsAs K.Kept keeper.old keeper.new result }
{
    match cause {
        Cause::Request(name) => keeper.caller(name),
        Cause::Bypass(name) => keeper.caller(name),
        Cause::Rule(_) => Ok(None),
    }
}

/// Whether it was removed by a caller who may remove versions, or by a rule.
pub(crate) fn is_remover(caller: &Option<Caller>, cause: &Cause) -> bool
    ensures { (v : Vault) → caller.now ≡ spec.remover_of v cause.now → result ≡ spec.is_remover v cause.now }
{
    match cause {
        Cause::Request(_) => may_remove(caller),
        Cause::Bypass(_) => may_remove(caller),
        Cause::Rule(_) => true,
    }
}
