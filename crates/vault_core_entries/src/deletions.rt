//! Delete markers, and entries that are removed for good.
ghost use Rattle.std.specs.Prelude.{◌≡◌, ◌≤◌, IfOk, OnOk};
ghost use Rattle.vault_core_model.specs.Leaves.{Leaves, LeavesSame};
ghost use Rattle.vault_core_model.specs.Halts.{ChecksAs, AnswersAs, is_device};
ghost use Rattle.vault_core_model.specs.declared.records.Author.TheVariants as author;
ghost use Rattle.vault_core_model.specs.Allowed.{IsHeldId};
ghost use Rattle.vault_core_model.specs.EntryOutcomes as outcome;
ghost use Rattle.vault_core_entries.specs.Entries.{MayMark};

use std::alloc::{AllocError, Global};
use vault_base::moment::Moment;
use vault_base::name::{CallerName, VersionId};
use vault_base::right::Right;
use vault_core_checks::caller::find_access;
use vault_core_checks::entry::{check_removal, find_held, find_setting};
use vault_core_checks::limit::find_id;
use vault_core_model::access::Access;
use vault_core_model::change::{Admission, Change};
use vault_core_model::command::{Delete, DeleteVersion};
use vault_core_model::halt::Halt;
use vault_core_model::keeper::{Keeper, make_change};
use vault_core_model::records::{Author, Cause, Entry, History, Removal, Settings, Tenures};
use vault_core_model::reply::{Answer, Removed};
use vault_lock::lock::Permit;

/// Admits a delete marker on top of a key, also over a locked version, a marker or nothing.
pub fn delete<K: Keeper>(
    alloc: Global,
    keeper: &mut K,
    at: Moment,
    who: &CallerName,
    command: &Delete,
) -> Result<Answer, Halt>
    ensures meets { K.is_honest keeper.new → AnswersAs result (K.vault keeper.old) (K.vault keeper.new) (outcome.delete (K.vault keeper.old) at who.now command.now) }
    ensures leaves { Leaves K.Kept keeper.old keeper.new (is_device result) }
{
    let id = find_marker_id(keeper, at, who, command)?;
    let marker = Admission {
        history: new_marker(alloc, id, at, who, command)?,
        note: None,
    };
    make_change(keeper, at, Change::Admit(marker))?;
    Ok(Answer::Marked(id))
}

/// The id of the delete marker that a caller may admit.
fn find_marker_id<K: Keeper>(
    keeper: &mut K,
    at: Moment,
    who: &CallerName,
    command: &Delete,
) -> Result<VersionId, Halt>
    ensures found { K.is_honest keeper.new → ChecksAs result (outcome.marker_id (K.vault keeper.old) at who.now command.now) }
    ensures in_time { K.is_honest keeper.new → OnOk result ((K.vault keeper.old).last ≤ at) }
    ensures allowed { K.is_honest keeper.new → IfOk result (MayMark (K.vault keeper.old) at who.now command.now) }
    ensures leaves { LeavesSame K.Kept keeper.old keeper.new (is_device result) }
{
    drop(find_access(keeper, at, who, &command.bucket, Right::Delete)?);
    find_id(keeper)
}

/// The delete marker that a caller admits.
fn new_marker(
    alloc: Global,
    id: VersionId,
    at: Moment,
    who: &CallerName,
    command: &Delete,
) -> Result<History, AllocError>
    ensures { IfOk result (λ history. history ≡ outcome.new_marker id command.now.bucket command.now.key at (author.Caller who.now)) }
{
    let entry = Entry {
        id,
        bucket: command.bucket.clone()?,
        key: command.key.clone()?,
        marker: true,
        size: 0,
        digest: None,
        admitted: at,
        by: Author::Caller(who.clone()?),
        removal: None,
    };
    Ok(History {
        entry,
        content: None,
        settings: Settings::new(alloc),
        tenures: Tenures::new(alloc),
    })
}

/// Removes an entry for good, where no lock denies it.
pub fn delete_version<K: Keeper>(
    keeper: &mut K,
    at: Moment,
    who: &CallerName,
    command: &DeleteVersion,
) -> Result<Answer, Halt>
    ensures meets { K.is_honest keeper.new → AnswersAs result (K.vault keeper.old) (K.vault keeper.new) (outcome.delete_version (K.vault keeper.old) at who.now command.now) }
    ensures leaves { Leaves K.Kept keeper.old keeper.new (is_device result) }
{
    let access = find_access(keeper, at, who, &command.bucket, Right::DeleteVersion)?;
    let found = find_removable(keeper, at, &access, command);
    drop(access);
    let removed = found?;
    let removal = removal_by(at, who, removed.permit)?;
    make_change(keeper, at, Change::Remove(command.id, removal))?;
    Ok(Answer::Removed(removed))
}

/// The held entry that is to be removed, and how its lock permits that.
fn find_removable<K: Keeper>(
    keeper: &mut K,
    at: Moment,
    access: &Access,
    command: &DeleteVersion,
) -> Result<Removed, Halt>
    ensures found { K.is_honest keeper.new → ChecksAs result (outcome.removal_permitted (K.vault keeper.old) at command.now access.now) }
    ensures there { K.is_honest keeper.new → OnOk result (IsHeldId (K.vault keeper.old) command.now.id) }
    ensures leaves { LeavesSame K.Kept keeper.old keeper.new (is_device result) }
{
    let entry = find_held(keeper, &command.bucket, &command.key, command.id)?;
    let marker = entry.marker;
    drop(entry);
    let lock = find_setting(keeper, command.id)?.lock;
    let permit = check_removal(&lock, at, command.bypass, access.caller.rights.bypass)?;
    Ok(Removed {
        id: command.id,
        marker,
        permit,
    })
}

/// The removal that a permit gives.
fn removal_by(at: Moment, who: &CallerName, permit: Permit) -> Result<Removal, AllocError>
    ensures { IfOk result (λ removal. removal ≡ outcome.removal_by at who.now permit) }
{
    let cause = match permit {
        Permit::Free => Cause::Request(who.clone()?),
        Permit::Bypass => Cause::Bypass(who.clone()?),
    };
    Ok(Removal { at, cause })
}
