//! Retention and legal hold of a version.
ghost use Rattle.std.specs.Prelude.{◌≡◌, IfOk, Some};
ghost use Rattle.vault_core_model.specs.Leaves.{Leaves, LeavesSame};
ghost use Rattle.vault_core_model.specs.Halts.{ChecksAs, AnswersAs, is_device};
ghost use Rattle.vault_core_model.specs.Allowed.{IsNextSetting};
ghost use Rattle.vault_core_model.specs.LockOutcomes as outcome;

use std::alloc::AllocError;
use vault_base::moment::Moment;
use vault_base::name::CallerName;
use vault_base::right::Right;
use vault_core_checks::argument::check_end;
use vault_core_checks::caller::find_access;
use vault_core_checks::entry::{check_retention, find_setting, find_version};
use vault_core_checks::limit::check_settings;
use vault_core_model::access::Access;
use vault_core_model::change::{Change, NextSetting};
use vault_core_model::command::{GetHold, GetRetention, SetHold, SetRetention};
use vault_core_model::halt::Halt;
use vault_core_model::keeper::{Keeper, make_change};
use vault_core_model::records::Setting;
use vault_core_model::reply::Answer;
use vault_lock::lock::{Lock, Permit};

/// Reads the retention of the last setting, in force or not.
pub fn get_retention<K: Keeper>(
    keeper: &mut K,
    at: Moment,
    who: &CallerName,
    command: &GetRetention,
) -> Result<Answer, Halt>
    ensures meets { K.is_honest keeper.new → AnswersAs result (K.vault keeper.old) (K.vault keeper.new) (outcome.get_retention (K.vault keeper.old) at who.now command.now) }
    ensures leaves { Leaves K.Kept keeper.old keeper.new (is_device result) }
{
    drop(find_access(keeper, at, who, &command.bucket, Right::Get)?);
    let version = find_version(keeper, &command.bucket, &command.key, command.id)?;
    let id = version.id;
    drop(version);
    let last = find_setting(keeper, id)?;
    Ok(Answer::Retention(last.lock.retention))
}

/// Reads whether a version is on legal hold.
pub fn get_hold<K: Keeper>(
    keeper: &mut K,
    at: Moment,
    who: &CallerName,
    command: &GetHold,
) -> Result<Answer, Halt>
    ensures meets { K.is_honest keeper.new → AnswersAs result (K.vault keeper.old) (K.vault keeper.new) (outcome.get_hold (K.vault keeper.old) at who.now command.now) }
    ensures leaves { Leaves K.Kept keeper.old keeper.new (is_device result) }
{
    drop(find_access(keeper, at, who, &command.bucket, Right::Get)?);
    let version = find_version(keeper, &command.bucket, &command.key, command.id)?;
    let id = version.id;
    drop(version);
    let last = find_setting(keeper, id)?;
    Ok(Answer::Hold(last.lock.hold))
}

/// Sets the retention of a version, where what is in force permits it; the hold is kept.
pub fn set_retention<K: Keeper>(
    keeper: &mut K,
    at: Moment,
    who: &CallerName,
    command: &SetRetention,
) -> Result<Answer, Halt>
    ensures meets { K.is_honest keeper.new → AnswersAs result (K.vault keeper.old) (K.vault keeper.new) (outcome.set_retention (K.vault keeper.old) at who.now command.now) }
    ensures leaves { Leaves K.Kept keeper.old keeper.new (is_device result) }
{
    let access = find_access(keeper, at, who, &command.bucket, Right::Retain)?;
    let found = find_next_retention(keeper, at, who, command, &access);
    drop(access);
    let NextSetting { id, setting } = found?;
    make_change(keeper, at, Change::AddSetting(id, setting))?;
    Ok(Answer::Nothing)
}

/// Sets the legal hold of a version; its retention is kept.
pub fn set_hold<K: Keeper>(
    keeper: &mut K,
    at: Moment,
    who: &CallerName,
    command: &SetHold,
) -> Result<Answer, Halt>
    ensures meets { K.is_honest keeper.new → AnswersAs result (K.vault keeper.old) (K.vault keeper.new) (outcome.set_hold (K.vault keeper.old) at who.now command.now) }
    ensures leaves { Leaves K.Kept keeper.old keeper.new (is_device result) }
{
    drop(find_access(keeper, at, who, &command.bucket, Right::Hold)?);
    let NextSetting { id, setting } = find_next_hold(keeper, at, who, command)?;
    make_change(keeper, at, Change::AddSetting(id, setting))?;
    Ok(Answer::Nothing)
}

/// The setting with the new retention, where what is in force permits it.
fn find_next_retention<K: Keeper>(
    keeper: &mut K,
    at: Moment,
    who: &CallerName,
    command: &SetRetention,
    access: &Access,
) -> Result<NextSetting, Halt>
    ensures found { K.is_honest keeper.new → ChecksAs result (outcome.next_retention (K.vault keeper.old) at who.now command.now access.now) }
    ensures allowed { K.is_honest keeper.new → IfOk result (λ next. IsNextSetting (K.vault keeper.old) at next.id next.setting) }
    ensures leaves { LeavesSame K.Kept keeper.old keeper.new (is_device result) }
{
    check_end(at, Some(command.retention))?;
    let version = find_version(keeper, &command.bucket, &command.key, command.id)?;
    let id = version.id;
    drop(version);
    let last = find_setting(keeper, id)?;
    let permit = check_retention(
        &last.lock,
        command.retention,
        at,
        command.bypass,
        access.caller.rights.bypass,
    )?;
    check_settings(last.count)?;
    let lock = Lock {
        retention: Some(command.retention),
        hold: last.lock.hold,
    };
    Ok(NextSetting {
        id,
        setting: new_setting(at, who, lock, permit)?,
    })
}

/// The setting with the hold on or off.
fn find_next_hold<K: Keeper>(
    keeper: &mut K,
    at: Moment,
    who: &CallerName,
    command: &SetHold,
) -> Result<NextSetting, Halt>
    ensures found { K.is_honest keeper.new → ChecksAs result (outcome.next_hold (K.vault keeper.old) at who.now command.now) }
    ensures allowed { K.is_honest keeper.new → IfOk result (λ next. IsNextSetting (K.vault keeper.old) at next.id next.setting) }
    ensures leaves { LeavesSame K.Kept keeper.old keeper.new (is_device result) }
{
    let version = find_version(keeper, &command.bucket, &command.key, command.id)?;
    let id = version.id;
    drop(version);
    let last = find_setting(keeper, id)?;
    check_settings(last.count)?;
    let lock = Lock {
        retention: last.lock.retention,
        hold: command.hold,
    };
    Ok(NextSetting {
        id,
        setting: new_setting(at, who, lock, Permit::Free)?,
    })
}

/// A setting of this lock.
fn new_setting(
    at: Moment,
    who: &CallerName,
    lock: Lock,
    permit: Permit,
) -> Result<Setting, AllocError>
    ensures { IfOk result (λ setting. setting ≡ outcome.setting at who.now lock permit) }
{
    Ok(Setting {
        at,
        by: who.clone()?,
        lock,
        bypass: permit == Permit::Bypass,
    })
}
