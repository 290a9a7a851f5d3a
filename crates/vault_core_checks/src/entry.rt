//! Which entry is meant, and whether its lock permits its removal.
ghost use Rattle.std.specs.Prelude.{◌≡◌, IfOk, IfErr, IfSome, false, Some, None, Err, option_map};
ghost use Rattle.vault_core_model.specs.Leaves.{LeavesSame, ReadsAs};
ghost use Rattle.vault_core_model.specs.Halts.{ChecksAs, is_device, is_device_refusal, is_refused};
ghost use Rattle.vault_core_model.specs.Places.{current};
ghost use Rattle.vault_core_model.specs.Reads.{entry_of, lock_of, setting_of, count_of_settings};
ghost use Rattle.vault_core_model.specs.Checks.{content_on_top, held_entry, content_version, version_meant, permitted, refusal_of, lock_at_admission};
ghost use Rattle.vault_lock.specs.Lock.{removable, retainable};

use vault_base::moment::Moment;
use vault_base::name::{BucketName, ObjectKey, VersionId};
use vault_base::refusal::{Reason, Refusal};
use vault_core_model::halt::{Fault, Halt};
use vault_core_model::held::is_held_at;
use vault_core_model::keeper::Keeper;
use vault_core_model::records::{BucketConfig, Entry, LastSetting};
use vault_lock::lock::{Denial, Lock, Permit, first_lock, may_remove, may_retain};
use vault_lock::retention::Retention;

/// The entry of that id, held or removed, which has that id.
fn read_entry<K: Keeper>(keeper: &mut K, id: VersionId) -> Result<Option<Entry>, Fault>
    ensures value { K.is_honest keeper.new → IfOk result (λ found. found ≡ entry_of (K.vault keeper.old) id) }
    ensures own { K.is_honest keeper.new → IfOk result (λ found. IfSome found (λ entry. entry_of (K.vault keeper.old) entry.id ≡ Some entry)) }
    ensures leaves { ReadsAs K.Kept keeper.old keeper.new result }
{
    keeper.entry(id)
}

/// The held entry of that id, in that bucket and under that key; else NoSuchVersion.
pub fn find_held<K: Keeper>(
    keeper: &mut K,
    bucket: &BucketName,
    key: &ObjectKey,
    id: VersionId,
) -> Result<Entry, Halt>
    ensures found { K.is_honest keeper.new → ChecksAs result (held_entry (K.vault keeper.old) bucket.now key.now id) }
    ensures there { K.is_honest keeper.new → IfOk result (λ entry. entry_of (K.vault keeper.old) id ≡ Some entry) }
    ensures own { K.is_honest keeper.new → IfOk result (λ entry. entry_of (K.vault keeper.old) entry.id ≡ Some entry) }
    ensures held { IfOk result (λ entry. entry.removal ≡ None) }
    ensures leaves { LeavesSame K.Kept keeper.old keeper.new (is_device result) }
{
    let Some(entry) = read_entry(keeper, id)? else {
        return Err(Halt::Refused(Refusal::NoSuchVersion));
    };
    if is_held_at(bucket, key, &entry) {
        Ok(entry)
    } else {
        drop(entry);
        Err(Halt::Refused(Refusal::NoSuchVersion))
    }
}

/// The entry is a content version.
fn check_version(entry: Entry) -> Result<Entry, Refusal>
    ensures exact { result ≡ content_version entry }
    ensures kept { IfOk result (λ version. (version ≡ entry) × (version.marker ≡ false)) }
    ensures device { IfErr result (λ refusal. is_device_refusal refusal ≡ false) }
{
    if entry.marker {
        drop(entry);
        Err(Refusal::MethodNotAllowed)
    } else {
        Ok(entry)
    }
}

/// The newest held entry of a key.
fn find_newest<K: Keeper>(
    keeper: &mut K,
    bucket: &BucketName,
    key: &ObjectKey,
) -> Result<Option<Entry>, Fault>
    ensures value { K.is_honest keeper.new → IfOk result (λ found. found ≡ option_map (λ h. h.entry) (current (K.vault keeper.old) bucket.now key.now)) }
    ensures own { K.is_honest keeper.new → IfOk result (λ found. IfSome found (λ entry. entry_of (K.vault keeper.old) entry.id ≡ Some entry)) }
    ensures held { K.is_honest keeper.new → IfOk result (λ found. IfSome found (λ entry. entry.removal ≡ None)) }
    ensures leaves { ReadsAs K.Kept keeper.old keeper.new result }
{
    let Some(head) = keeper.head(bucket, key)? else {
        return Ok(None);
    };
    read_entry(keeper, head.newest)
}

/// The content version on top of its key.
fn find_current<K: Keeper>(
    keeper: &mut K,
    bucket: &BucketName,
    key: &ObjectKey,
) -> Result<Entry, Halt>
    ensures found { K.is_honest keeper.new → ChecksAs result (content_on_top (current (K.vault keeper.old) bucket.now key.now)) }
    ensures own { K.is_honest keeper.new → IfOk result (λ entry. entry_of (K.vault keeper.old) entry.id ≡ Some entry) }
    ensures held { K.is_honest keeper.new → IfOk result (λ entry. entry.removal ≡ None) }
    ensures version { IfOk result (λ entry. entry.marker ≡ false) }
    ensures leaves { LeavesSame K.Kept keeper.old keeper.new (is_device result) }
{
    let Some(entry) = find_newest(keeper, bucket, key)? else {
        return Err(Halt::Refused(Refusal::NoSuchKey(false)));
    };
    if entry.marker {
        drop(entry);
        Err(Halt::Refused(Refusal::NoSuchKey(true)))
    } else {
        Ok(entry)
    }
}

/// The content version that is meant: the current one, or that of the id.
///
/// Without an id NoSuchKey, which says whether a marker is on top; with one NoSuchVersion, and
/// MethodNotAllowed for a marker.
pub fn find_version<K: Keeper>(
    keeper: &mut K,
    bucket: &BucketName,
    key: &ObjectKey,
    id: Option<VersionId>,
) -> Result<Entry, Halt>
    ensures found { K.is_honest keeper.new → ChecksAs result (version_meant (K.vault keeper.old) bucket.now key.now id) }
    ensures own { K.is_honest keeper.new → IfOk result (λ entry. entry_of (K.vault keeper.old) entry.id ≡ Some entry) }
    ensures held { K.is_honest keeper.new → IfOk result (λ entry. entry.removal ≡ None) }
    ensures version { IfOk result (λ entry. entry.marker ≡ false) }
    ensures leaves { LeavesSame K.Kept keeper.old keeper.new (is_device result) }
{
    let Some(id) = id else {
        return find_current(keeper, bucket, key);
    };
    let entry = find_held(keeper, bucket, key, id)?;
    Ok(check_version(entry)?)
}

/// The last setting of the entry of that id; a delete marker has none and is not locked. It refuses nothing.
pub fn find_setting<K: Keeper>(keeper: &mut K, id: VersionId) -> Result<LastSetting, Halt>
    ensures lock { K.is_honest keeper.new → IfOk result (λ last. last.lock ≡ lock_of (K.vault keeper.old) id) }
    ensures settings { K.is_honest keeper.new → IfOk result (λ last. last.count ≡ count_of_settings (setting_of (K.vault keeper.old) id)) }
    ensures refused { is_refused result ≡ false }
    ensures leaves { LeavesSame K.Kept keeper.old keeper.new (is_device result) }
{
    match keeper.setting(id)? {
        None => Ok(LastSetting {
            lock: Lock {
                retention: None,
                hold: false,
            },
            count: 0,
        }),
        Some(last) => Ok(last),
    }
}

fn denial(denial: Denial) -> Refusal
    ensures { result ≡ refusal_of denial }
{
    match denial {
        Denial::Hold => Refusal::AccessDenied(Reason::LegalHold),
        Denial::Compliance => Refusal::AccessDenied(Reason::RetentionCompliance),
        Denial::Governance => Refusal::AccessDenied(Reason::RetentionGovernance),
    }
}

/// The lock permits the removal: freely, or by a bypass that is asked for and allowed; else AccessDenied with
/// what guards the version.
pub fn check_removal(
    lock: &Lock,
    at: Moment,
    bypass: bool,
    may_bypass: bool,
) -> Result<Permit, Refusal>
    ensures exact { result ≡ permitted (removable lock.now at bypass may_bypass) }
    ensures device { IfErr result (λ refusal. is_device_refusal refusal ≡ false) }
{
    match may_remove(lock, at, bypass, may_bypass) {
        Ok(permit) => Ok(permit),
        Err(guard) => Err(denial(guard)),
    }
}

/// The first lock of a version placed in a bucket: the retention that is asked for, else the bucket's
/// default, else none; a hold is on only where ON was asked. RetentionOutOfRange where the default ends after
/// the last moment.
pub fn find_first_lock(
    bucket: &BucketConfig,
    retention: Option<Retention>,
    hold: Option<bool>,
    at: Moment,
) -> Result<Lock, Refusal>
    ensures exact { result ≡ lock_at_admission bucket.now retention hold at }
    ensures device { IfErr result (λ refusal. is_device_refusal refusal ≡ false) }
{
    let hold = hold.unwrap_or(false);
    first_lock(bucket.default.as_ref(), retention, hold, at).ok_or(Refusal::RetentionOutOfRange)
}

/// The lock permits the new retention: freely, or by a bypass that is asked for and allowed; else AccessDenied
/// with the mode in force.
pub fn check_retention(
    lock: &Lock,
    retention: Retention,
    at: Moment,
    bypass: bool,
    may_bypass: bool,
) -> Result<Permit, Refusal>
    ensures exact { result ≡ permitted (retainable lock.now retention at bypass may_bypass) }
    ensures device { IfErr result (λ refusal. is_device_refusal refusal ≡ false) }
{
    match may_retain(lock, retention, at, bypass, may_bypass) {
        Ok(permit) => Ok(permit),
        Err(guard) => Err(denial(guard)),
    }
}
