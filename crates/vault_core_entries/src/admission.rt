//! What a put and a line of an intake batch have in common.
ghost use Rattle.std.specs.Prelude.{◌≡◌, ◌≤◌, [], ◌∷◌, IfOk, OnOk, Some, false};
ghost use Rattle.vault_base.specs.Content.{size, most_size};
ghost use Rattle.vault_core_model.specs.Leaves.{LeavesSame};
ghost use Rattle.vault_core_model.specs.Halts.{ChecksAs, is_device};
ghost use Rattle.vault_core_model.specs.EntryOutcomes as outcome;
ghost use Rattle.vault_core_model.specs.Sound.{HasPlace};
ghost use Rattle.vault_core_model.specs.Vault.{config_of};
ghost use Rattle.vault_core_entries.specs.Entries.{Fits};

use std::alloc::{AllocError, Global};
use vault_base::moment::Moment;
use vault_base::name::{CallerName, DeptName, VersionId};
use vault_base::right::Right;
use vault_core_checks::argument::{check_end, check_place, check_size};
use vault_core_checks::caller::{check_right_if, find_access};
use vault_core_checks::entry::find_first_lock;
use vault_core_checks::limit::check_quota;
use vault_core_model::access::Access;
use vault_core_model::command::Put;
use vault_core_model::halt::Halt;
use vault_core_model::keeper::Keeper;
use vault_core_model::records::{Author, Entry, History, Setting, Settings, Tenure, Tenures};
use vault_lock::lock::Lock;

/// A caller that may put, and set what is given of retention and hold.
pub(crate) fn find_access_to_put<K: Keeper>(
    keeper: &mut K,
    at: Moment,
    who: &CallerName,
    command: &Put,
) -> Result<Access, Halt>
    ensures found { K.is_honest keeper.new → ChecksAs result (outcome.access_to_put (K.vault keeper.old) at who.now command.now) }
    ensures in_time { K.is_honest keeper.new → OnOk result ((K.vault keeper.old).last ≤ at) }
    ensures there { K.is_honest keeper.new → IfOk result (λ access. config_of (K.vault keeper.old) command.now.bucket ≡ Some access.bucket) }
    ensures leaves { LeavesSame K.Kept keeper.old keeper.new (is_device result) }
{
    let access = find_access(keeper, at, who, &command.bucket, Right::Put)?;
    let may_retain = check_right_if(command.retention.is_some(), &access.caller, Right::Retain);
    if let Err(refusal) = may_retain {
        drop(access);
        return Err(Halt::Refused(refusal));
    }
    let may_hold = check_right_if(command.hold.is_some(), &access.caller, Right::Hold);
    if let Err(refusal) = may_hold {
        drop(access);
        return Err(Halt::Refused(refusal));
    }
    Ok(access)
}

/// The lock of the version that is to be admitted: the arguments, the lock, the quota.
pub(crate) fn find_lock_to_admit<K: Keeper>(
    keeper: &mut K,
    at: Moment,
    command: &Put,
    access: &Access,
) -> Result<Lock, Halt>
    ensures found { K.is_honest keeper.new → ChecksAs result (outcome.lock_to_admit (K.vault keeper.old) at command.now access.now) }
    ensures there { K.is_honest keeper.new → OnOk result (HasPlace (K.vault keeper.old).external (Some command.now.content)) }
    ensures small { OnOk result (size command.now.content ≤ most_size command.now.content) }
    ensures fits { K.is_honest keeper.new → OnOk result (Fits (K.vault keeper.old) access.now.bucket.dept (size command.now.content)) }
    ensures leaves { LeavesSame K.Kept keeper.old keeper.new (is_device result) }
{
    check_place(keeper, &command.content)?;
    check_size(&command.content)?;
    check_end(at, command.retention)?;
    let lock = find_first_lock(&access.bucket, command.retention, command.hold, at)?;
    check_quota(keeper, &access.bucket.dept, command.content.size())?;
    Ok(lock)
}

/// What a new version gets beside what its put says: its id, when and by whom it is admitted, its bucket's department,
/// and its lock.
#[derive(Clone, Copy)]
pub(crate) struct NewVersion<'a> {
    pub(crate) id: VersionId,
    pub(crate) at: Moment,
    pub(crate) who: &'a CallerName,
    pub(crate) dept: &'a DeptName,
    pub(crate) lock: Lock,
}

/// The version that a put admits, with its first setting and its bucket's department.
pub(crate) fn new_version(
    alloc: Global,
    version: &NewVersion<'_>,
    command: &Put,
) -> Result<History, AllocError>
    ensures { IfOk result (λ history. history ≡ outcome.new_version version.now.id version.now.at version.now.who.now version.now.dept.now command.now version.now.lock) }
{
    let at = version.at;
    let settings = first_settings(alloc, at, version.who, version.lock)?;
    let tenures = first_tenures(alloc, at, version.dept)?;
    let content = command.content.clone()?;
    let entry = Entry {
        id: version.id,
        bucket: command.bucket.clone()?,
        key: command.key.clone()?,
        marker: false,
        size: command.content.size(),
        digest: Some(command.content.digest()),
        admitted: at,
        by: Author::Caller(version.who.clone()?),
        removal: None,
    };
    Ok(History {
        entry,
        content: Some(content),
        settings,
        tenures,
    })
}

/// The settings of a new version: the first one alone.
fn first_settings(
    alloc: Global,
    at: Moment,
    who: &CallerName,
    lock: Lock,
) -> Result<Settings, AllocError>
    ensures { IfOk result (λ settings. settings ≡ record { at = at; by = who.now; lock = lock; bypass = false } ∷ []) }
{
    let mut settings = Settings::new(alloc);
    settings.push(Setting {
        at,
        by: who.clone()?,
        lock,
        bypass: false,
    })?;
    Ok(settings)
}

/// The tenures of a new version: that of its bucket's department alone.
fn first_tenures(alloc: Global, at: Moment, dept: &DeptName) -> Result<Tenures, AllocError>
    ensures { IfOk result (λ tenures. tenures ≡ record { dept = dept.now; from = at; number = 0 } ∷ []) }
{
    let mut tenures = Tenures::new(alloc);
    tenures.push(Tenure {
        dept: dept.clone()?,
        from: at,
        number: 0,
    })?;
    Ok(tenures)
}
