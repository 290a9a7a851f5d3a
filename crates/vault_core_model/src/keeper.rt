//! What keeps a vault.
ghost use Rattle.std.specs.Prelude.{◌≡◌, ◌≤◌, IfOk, OnOk, OnErr};
ghost use Rattle.vault_core_model.specs.Leaves.{Leaves, ReadsAs};
ghost use Rattle.vault_core_model.specs.Vault.{caller_of, config_of, has_department, next_id, note_of, rules_of};
ghost use Rattle.vault_core_model.specs.Reads.{buckets_after, content_of, entries_of, entry_of, head_of, ids_before, keys_after, removed_entries, setting_of, settings_of, tenures_of};
ghost use Rattle.vault_core_model.specs.Change.{changed};
ghost use Rattle.vault_core_model.specs.Allowed.{Allows};
ghost use Rattle.vault_core_model.specs.Halts.{is_device_given};
ghost use Rattle.vault_core_model.specs.Handing.{Hands, Taking};
ghost use Rattle.vault_core_model.specs.Totals.{IsRowFor, bucket_bytes, bucket_weight};

use crate::change::Change;
use crate::halt::Fault;
use crate::kept::Kept;
use crate::records::{BucketConfig, Caller, Entry, Head, LastSetting, Note, Settings, Tenures};
use vault_base::content::Content;
use vault_base::moment::Moment;
use vault_base::name::{
    BatchName, BucketName, CallerName, DeptName, KeyPrefix, ObjectKey, VersionId,
};
use vault_rules::plan::Held;
use vault_rules::rule_set::RuleSet;
use vault_tally::row::Row;

/// What takes the removed entries that a keeper hands on.
pub trait Sink {
    /// What it does with an entry: the sink before, the entry, whether it took it, the sink after.
    ghost takes: { Taking Self };

    /// Takes an entry, or refuses it and every one after it.
    fn take(&mut self, entry: &Entry) -> bool
        ensures { takes self.old entry.now result self.new };
}

/// What keeps a vault: a list of histories, or tables in a file.
///
/// A read answers what its name says of the vault and changes nothing, also where it fails. What it says
/// holds while the device has returned what was written (`is_honest`). The count of failures rises by one, up
/// to its greatest value, exactly where the answer is `Device`.
pub trait Keeper: Kept {
    /// How often its device failed, up to the greatest number.
    fn faults(&self) -> u64
        ensures { result ≡ Self.count self.now };

    /// The moment of the last change.
    fn last(&mut self) -> Result<Moment, Fault>
        ensures value { Self.is_honest self.new → IfOk result (λ at. at ≡ (Self.vault self.old).last) }
        ensures leaves { ReadsAs Self.Kept self.old self.new result };

    /// The id that the next entry gets.
    fn next_id(&mut self) -> Result<u64, Fault>
        ensures value { Self.is_honest self.new → IfOk result (λ id. id ≡ next_id (Self.vault self.old)) }
        ensures leaves { ReadsAs Self.Kept self.old self.new result };

    /// The caller of that name, open or closed.
    fn caller(&mut self, name: &CallerName) -> Result<Option<Caller>, Fault>
        ensures value { Self.is_honest self.new → IfOk result (λ found. found ≡ caller_of (Self.vault self.old) name.now) }
        ensures leaves { ReadsAs Self.Kept self.old self.new result };

    /// Whether there is such a department.
    fn dept(&mut self, name: &DeptName) -> Result<bool, Fault>
        ensures value { Self.is_honest self.new → IfOk result (λ found. found ≡ has_department (Self.vault self.old) name.now) }
        ensures leaves { ReadsAs Self.Kept self.old self.new result };

    /// The department and the default retention of a bucket.
    fn bucket(&mut self, name: &BucketName) -> Result<Option<BucketConfig>, Fault>
        ensures value { Self.is_honest self.new → IfOk result (λ found. found ≡ config_of (Self.vault self.old) name.now) }
        ensures leaves { ReadsAs Self.Kept self.old self.new result };

    /// The lifecycle rules of a bucket; none where it has none.
    fn rules(&mut self, bucket: &BucketName) -> Result<Option<RuleSet>, Fault>
        ensures value { Self.is_honest self.new → IfOk result (λ found. found ≡ rules_of (Self.vault self.old) bucket.now) }
        ensures leaves { ReadsAs Self.Kept self.old self.new result };

    /// The newest held entry of a key and how many are held; none where none is.
    fn head(&mut self, bucket: &BucketName, key: &ObjectKey) -> Result<Option<Head>, Fault>
        ensures value { Self.is_honest self.new → IfOk result (λ found. found ≡ head_of (Self.vault self.old) bucket.now key.now) }
        ensures leaves { ReadsAs Self.Kept self.old self.new result };

    /// The held entries of a key, oldest first.
    fn entries(&mut self, bucket: &BucketName, key: &ObjectKey) -> Result<Vec<Held>, Fault>
        ensures value { Self.is_honest self.new → IfOk result (λ held. held.items ≡ entries_of (Self.vault self.old) bucket.now key.now) }
        ensures leaves { ReadsAs Self.Kept self.old self.new result };

    /// The entry of an id, held or removed.
    fn entry(&mut self, id: VersionId) -> Result<Option<Entry>, Fault>
        ensures value { Self.is_honest self.new → IfOk result (λ found. found ≡ entry_of (Self.vault self.old) id) }
        ensures leaves { ReadsAs Self.Kept self.old self.new result };

    /// The last setting of a version, and how many it has; a marker has none.
    fn setting(&mut self, id: VersionId) -> Result<Option<LastSetting>, Fault>
        ensures value { Self.is_honest self.new → IfOk result (λ found. found ≡ setting_of (Self.vault self.old) id) }
        ensures leaves { ReadsAs Self.Kept self.old self.new result };

    /// The settings of an entry, oldest first; a marker has none.
    fn settings(&mut self, id: VersionId) -> Result<Settings, Fault>
        ensures value { Self.is_honest self.new → IfOk result (λ found. found ≡ settings_of (Self.vault self.old) id) }
        ensures leaves { ReadsAs Self.Kept self.old self.new result };

    /// Whether it registers contents that are kept outside.
    fn external(&mut self) -> Result<bool, Fault>
        ensures value { Self.is_honest self.new → IfOk result (λ external. external ≡ (Self.vault self.old).external) }
        ensures leaves { ReadsAs Self.Kept self.old self.new result };

    /// The content of a held version.
    fn content(&mut self, id: VersionId) -> Result<Option<Content>, Fault>
        ensures value { Self.is_honest self.new → IfOk result (λ found. found ≡ content_of (Self.vault self.old) id) }
        ensures leaves { ReadsAs Self.Kept self.old self.new result };

    /// The first of the bucket's keys after `after` that have a held entry, by their bytes: at most `most`.
    fn keys(
        &mut self,
        bucket: &BucketName,
        after: &KeyPrefix,
        most: u32,
    ) -> Result<Vec<ObjectKey>, Fault>
        ensures value { Self.is_honest self.new → IfOk result (λ keys. keys.items ≡ keys_after (Self.vault self.old) bucket.now after.now most) }
        ensures leaves { ReadsAs Self.Kept self.old self.new result };

    /// At most `most` ids of a key's held entries, newest first: those older than `than`, or all if it is none.
    fn ids(
        &mut self,
        bucket: &BucketName,
        key: &ObjectKey,
        than: Option<VersionId>,
        most: u32,
    ) -> Result<Vec<VersionId>, Fault>
        ensures value { Self.is_honest self.new → IfOk result (λ ids. ids.items ≡ ids_before (Self.vault self.old) bucket.now key.now than most) }
        ensures leaves { ReadsAs Self.Kept self.old self.new result };

    /// At most `most` names of buckets, by their bytes: those after `after`, or all if it is empty.
    fn buckets(&mut self, after: &str, most: u32) -> Result<Vec<BucketName>, Fault>
        ensures value { Self.is_honest self.new → IfOk result (λ names. names.items ≡ buckets_after (Self.vault self.old) after.now most) }
        ensures leaves { ReadsAs Self.Kept self.old self.new result };

    /// The note of an accepted line of an intake batch.
    fn note(
        &mut self,
        bucket: &BucketName,
        batch: &BatchName,
        line: u32,
    ) -> Result<Option<Note>, Fault>
        ensures value { Self.is_honest self.new → IfOk result (λ found. found ≡ note_of (Self.vault self.old) bucket.now batch.now line) }
        ensures leaves { ReadsAs Self.Kept self.old self.new result };

    /// Hands on each removed entry by rising id: true after all of them, false where the sink refused.
    fn walk_removed<S: Sink>(&mut self, sink: &mut S) -> Result<bool, Fault>
        ensures value { Self.is_honest self.new → Hands S.takes sink.old (removed_entries (Self.vault self.old)) result sink.new }
        ensures leaves { ReadsAs Self.Kept self.old self.new result };

    /// How many moves of buckets were made.
    fn moves(&mut self) -> Result<u32, Fault>
        ensures value { Self.is_honest self.new → IfOk result (λ made. made ≡ (Self.vault self.old).moves) }
        ensures leaves { ReadsAs Self.Kept self.old self.new result };

    /// The tenures of an entry, oldest first; a marker has none.
    fn tenures(&mut self, id: VersionId) -> Result<Tenures, Fault>
        ensures value { Self.is_honest self.new → IfOk result (λ found. found ≡ tenures_of (Self.vault self.old) id) }
        ensures leaves { ReadsAs Self.Kept self.old self.new result };

    /// The bytes held in a bucket, and their weight: each byte times the day from which its department has it.
    fn bucket_held(&mut self, bucket: &BucketName) -> Result<(u64, u64), Fault>
        ensures value { Self.is_honest self.new → IfOk result (λ held. (held.0 ≡ bucket_bytes (Self.vault self.old) bucket.now) × (held.1 ≡ bucket_weight (Self.vault self.old) bucket.now)) }
        ensures leaves { ReadsAs Self.Kept self.old self.new result };

    /// The sums of a department.
    fn totals(&mut self, dept: &DeptName) -> Result<Row, Fault>
        ensures value { Self.is_honest self.new → IfOk result (λ row. IsRowFor (Self.vault self.old) dept.now row) }
        ensures leaves { ReadsAs Self.Kept self.old self.new result };

    /// Makes a change at a moment, which becomes the last one; or changes nothing.
    fn apply(&mut self, at: Moment, change: &Change) -> Result<(), Fault>
        requires in_time { Self.is_honest self.old → (Self.vault self.old).last ≤ at }
        requires allowed { Self.is_honest self.old → Allows (Self.vault self.old) at change.now }
        ensures ok { OnOk result (Self.vault self.new ≡ changed (Self.vault self.old) at change.now) }
        ensures err { OnErr result (Self.vault self.new ≡ Self.vault self.old) }
        ensures leaves { Leaves Self.Kept self.old self.new (is_device_given result) };
}

/// Makes a change at a moment and drops it, so that a command has none to drop on each of its own ways out.
pub fn make_change<K: Keeper>(keeper: &mut K, at: Moment, change: Change) -> Result<(), Fault>
    requires in_time { K.is_honest keeper.old → (K.vault keeper.old).last ≤ at }
    requires allowed { K.is_honest keeper.old → Allows (K.vault keeper.old) at change }
    ensures ok { OnOk result (K.vault keeper.new ≡ changed (K.vault keeper.old) at change) }
    ensures err { OnErr result (K.vault keeper.new ≡ K.vault keeper.old) }
    ensures leaves { Leaves K.Kept keeper.old keeper.new (is_device_given result) }
{
    keeper.apply(at, &change)
}
