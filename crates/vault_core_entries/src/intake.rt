//! A line of an intake batch.
ghost use Rattle.std.specs.Prelude.{◌≡◌, ◌≤◌, IsTrue, IfOk, IfErr, OnOk, Some, None, false};
ghost use Rattle.vault_base.specs.Content as contents;
ghost use Rattle.vault_core_model.specs.Leaves.{Leaves, LeavesSame};
ghost use Rattle.vault_core_model.specs.Halts.{ChecksAs, AnswersAs, is_device, is_device_refusal};
ghost use Rattle.vault_core_model.specs.EntryOutcomes.{new_version};
ghost use Rattle.vault_core_model.specs.IntakeOutcome as outcome;
ghost use Rattle.vault_core_model.specs.Sound.{HasPlace};
ghost use Rattle.vault_core_model.specs.Vault.{config_of, note_of};
ghost use Rattle.vault_core_entries.specs.Entries.{Fits, intake_as_noted};

use crate::admission::{NewVersion, find_access_to_put, find_lock_to_admit, new_version};
use std::alloc::{AllocError, Global};
use vault_base::content::{Content, Digest};
use vault_base::moment::Moment;
use vault_base::name::{CallerName, DeptName, VersionId};
use vault_base::refusal::Refusal;
use vault_core_checks::limit::find_id;
use vault_core_model::access::Access;
use vault_core_model::change::{Admission, Change};
use vault_core_model::command::{Intake, Put};
use vault_core_model::halt::Halt;
use vault_core_model::keeper::{Keeper, make_change};
use vault_core_model::records::{Entry, Note};
use vault_core_model::reply::{Answer, TakenIn};
use vault_lock::lock::Lock;
use vault_lock::retention::Retention;

/// Admits the version of a line of an intake batch, once: a line that was accepted before is
/// answered by the id that it got, and admits nothing.
pub fn intake<K: Keeper>(
    alloc: Global,
    keeper: &mut K,
    at: Moment,
    who: &CallerName,
    command: &Intake,
) -> Result<Answer, Halt>
    ensures meets { K.is_honest keeper.new → AnswersAs result (K.vault keeper.old) (K.vault keeper.new) (outcome.intake (K.vault keeper.old) at who.now command.now) }
    ensures leaves { Leaves K.Kept keeper.old keeper.new (is_device result) }
{
    let access = find_access_to_put(keeper, at, who, &command.put)?;
    let answer = take_in_once(alloc, keeper, at, who, command, &access);
    drop(access);
    answer
}

/// Admits the version of a line, unless a note says that the line was accepted before.
fn take_in_once<K: Keeper>(
    alloc: Global,
    keeper: &mut K,
    at: Moment,
    who: &CallerName,
    command: &Intake,
    access: &Access,
) -> Result<Answer, Halt>
    requires in_time { K.is_honest keeper.old → (K.vault keeper.old).last ≤ at }
    requires there { K.is_honest keeper.old → config_of (K.vault keeper.old) command.now.put.bucket ≡ Some access.now.bucket }
    ensures meets { K.is_honest keeper.new → AnswersAs result (K.vault keeper.old) (K.vault keeper.new) (intake_as_noted (K.vault keeper.old) at who.now command.now access.now) }
    ensures leaves { Leaves K.Kept keeper.old keeper.new (is_device result) }
{
    let Some(note) = keeper.note(&command.put.bucket, &command.batch, command.line)? else {
        return take_in(alloc, keeper, at, who, command, access);
    };
    let found = taken_before(&command.put, &note);
    drop(note);
    let taken = found?;
    Ok(Answer::TakenIn(taken))
}

/// Admits the version of a line that was not accepted before, and notes it.
fn take_in<K: Keeper>(
    alloc: Global,
    keeper: &mut K,
    at: Moment,
    who: &CallerName,
    command: &Intake,
    access: &Access,
) -> Result<Answer, Halt>
    requires in_time { K.is_honest keeper.old → (K.vault keeper.old).last ≤ at }
    requires there { K.is_honest keeper.old → config_of (K.vault keeper.old) command.now.put.bucket ≡ Some access.now.bucket }
    requires first { K.is_honest keeper.old → note_of (K.vault keeper.old) command.now.put.bucket command.now.batch command.now.line ≡ None }
    ensures meets { K.is_honest keeper.new → AnswersAs result (K.vault keeper.old) (K.vault keeper.new) (outcome.take_in (K.vault keeper.old) at who.now command.now access.now) }
    ensures leaves { Leaves K.Kept keeper.old keeper.new (is_device result) }
{
    let lock = find_lock_to_take_in(keeper, at, command, access)?;
    let id = find_id(keeper)?;
    let version = NewVersion {
        id,
        at,
        who,
        dept: &access.bucket.dept,
        lock,
    };
    let admission = new_admission(alloc, &version, command)?;
    make_change(keeper, at, Change::Admit(admission))?;
    Ok(Answer::TakenIn(TakenIn { id, again: false }))
}

/// The version of an accepted line, and its note.
fn new_admission(
    alloc: Global,
    version: &NewVersion<'_>,
    command: &Intake,
) -> Result<Admission, AllocError>
    ensures history { IfOk result (λ admission. admission.history ≡ new_version version.now.id version.now.at version.now.who.now version.now.dept.now command.now.put version.now.lock) }
    ensures note { IfOk result (λ admission. admission.note ≡ Some (outcome.new_note version.now.id command.now)) }
{
    let history = new_version(alloc, version, &command.put)?;
    let digest = digest_of(&history.entry, &command.put.content);
    match new_note(version.id, command, digest) {
        Ok(note) => Ok(Admission {
            history,
            note: Some(note),
        }),
        Err(error) => {
            drop(history);
            Err(error)
        }
    }
}

/// The lock that a line's version gets: the line's number, then what a put checks.
fn find_lock_to_take_in<K: Keeper>(
    keeper: &mut K,
    at: Moment,
    command: &Intake,
    access: &Access,
) -> Result<Lock, Halt>
    ensures found { K.is_honest keeper.new → ChecksAs result (outcome.lock_to_take_in (K.vault keeper.old) at command.now access.now) }
    ensures line { OnOk result (IsTrue (outcome.is_line command.now.line)) }
    ensures there { K.is_honest keeper.new → OnOk result (HasPlace (K.vault keeper.old).external (Some command.now.put.content)) }
    ensures small { OnOk result (contents.size command.now.put.content ≤ contents.most_size command.now.put.content) }
    ensures fits { K.is_honest keeper.new → OnOk result (Fits (K.vault keeper.old) access.now.bucket.dept (contents.size command.now.put.content)) }
    ensures leaves { LeavesSame K.Kept keeper.old keeper.new (is_device result) }
{
    if command.line == 0 {
        return Err(Halt::Refused(Refusal::InvalidArgument));
    }
    find_lock_to_admit(keeper, at, &command.put, access)
}

/// What a line that was accepted before is answered: its id, where it asks for the same again.
fn taken_before(put: &Put, note: &Note) -> Result<TakenIn, Refusal>
    ensures exact { result ≡ outcome.taken_before put.now note.now }
    ensures device { IfErr result (λ refusal. is_device_refusal refusal ≡ false) }
{
    if agrees(note, put) {
        Ok(TakenIn {
            id: note.id,
            again: true,
        })
    } else {
        Err(Refusal::IntakeConflict)
    }
}

/// Whether a note has the same key, size, digest, retention and hold.
fn agrees(note: &Note, put: &Put) -> bool
    ensures { result ≡ outcome.agrees note.now put.now }
{
    note.key == put.key
        && note.size == put.content.size()
        && note.digest == put.content.digest()
        && is_same_retention(note.retention, put.retention)
        && is_same_hold(note.hold, put.hold)
}

fn is_same_retention(one: Option<Retention>, other: Option<Retention>) -> bool
    ensures { result ≡ outcome.is_same_retention one other }
{
    match (one, other) {
        (None, None) => true,
        (Some(one), Some(other)) => one.mode == other.mode && one.until == other.until,
        _ => false,
    }
}

/// ON, OFF and not given are three.
fn is_same_hold(one: Option<bool>, other: Option<bool>) -> bool
    ensures { result ≡ outcome.is_same_hold one other }
{
    match (one, other) {
        (None, None) => true,
        (Some(one), Some(other)) => one == other,
        _ => false,
    }
}

/// The digest of an entry that has just these bytes, which aren't gone through again.
fn digest_of(entry: &Entry, content: &Content) -> Digest
    ensures { entry.now.digest ≡ Some (contents.digest content.now) → result ≡ contents.digest content.now }
{
    match entry.digest {
        Some(digest) => digest,
        None => content.digest(),
    }
}

/// The note of an accepted line, whose content has that digest.
fn new_note(id: VersionId, command: &Intake, digest: Digest) -> Result<Note, AllocError>
    requires { digest ≡ contents.digest command.now.put.content }
    ensures { IfOk result (λ note. note ≡ outcome.new_note id command.now) }
{
    let put = &command.put;
    Ok(Note {
        bucket: put.bucket.clone()?,
        batch: command.batch.clone()?,
        line: command.line,
        key: put.key.clone()?,
        size: put.content.size(),
        digest,
        retention: put.retention,
        hold: put.hold,
        id,
    })
}
