//! What is asked of the vault.
use crate::rights::Rights;
use vault_base::content::Content;
use vault_base::moment::Moment;
use vault_base::name::{
    BatchName, BucketName, CallerName, DeptName, KeyPrefix, ObjectKey, VersionId,
};
use vault_lock::retention::{Default, Retention};
use vault_rules::rule_set::RuleSet;

/// A department to be added.
#[derive(Drop)]
pub struct AddDept {
    pub dept: DeptName,
}

/// A caller to be added.
#[derive(Drop)]
pub struct AddCaller {
    pub caller: CallerName,
    pub dept: Option<DeptName>,
    pub rights: Rights,
}

/// A caller to be closed for good.
#[derive(Drop)]
pub struct CloseCaller {
    pub caller: CallerName,
}

/// A bucket to be added to a department.
#[derive(Drop)]
pub struct AddBucket {
    pub bucket: BucketName,
    pub dept: DeptName,
}

/// A bucket that becomes another department's, with its held content.
#[derive(Drop)]
pub struct MoveBucket {
    pub bucket: BucketName,
    pub dept: DeptName,
}

/// The default retention that a bucket gets; none clears it.
#[derive(Drop)]
pub struct SetDefault {
    pub bucket: BucketName,
    pub default: Option<Default>,
}

/// The default retention of a bucket is asked for.
#[derive(Drop)]
pub struct GetDefault {
    pub bucket: BucketName,
}

/// The lifecycle rules that a bucket gets in place of those it has.
#[derive(Drop)]
pub struct SetRules {
    pub bucket: BucketName,
    pub rules: RuleSet,
}

/// The lifecycle rules of a bucket are asked for.
#[derive(Drop)]
pub struct GetRules {
    pub bucket: BucketName,
}

/// A bucket loses its lifecycle rules.
#[derive(Drop)]
pub struct DropRules {
    pub bucket: BucketName,
}

/// A content version to be admitted. The hold is ON, OFF or not given.
#[derive(Drop)]
pub struct Put {
    pub bucket: BucketName,
    pub key: ObjectKey,
    pub content: Content,
    pub retention: Option<Retention>,
    pub hold: Option<bool>,
}

/// With no id, the current entry is meant.
#[derive(Drop)]
pub struct Get {
    pub bucket: BucketName,
    pub key: ObjectKey,
    pub id: Option<VersionId>,
}

/// A version without its bytes; with no id, the current entry is meant.
#[derive(Drop)]
pub struct Head {
    pub bucket: BucketName,
    pub key: ObjectKey,
    pub id: Option<VersionId>,
}

/// A listing of the held entries of a bucket: keys by their bytes, within a key newest first.
#[derive(Drop)]
pub struct ListVersions {
    pub bucket: BucketName,
    /// Only keys that begin so are listed.
    pub prefix: KeyPrefix,
    /// Only what comes after this key is listed, and with `after_id` also the key's older entries.
    pub after_key: KeyPrefix,
    /// The entry of `after_key` after which the listing begins; with none, after all of them.
    pub after_id: Option<VersionId>,
    /// How many entries are listed at most: 1 to 1,000.
    pub most: u32,
}

/// A key that gets a delete marker on top.
#[derive(Drop)]
pub struct Delete {
    pub bucket: BucketName,
    pub key: ObjectKey,
}

/// An entry to be removed for good.
#[derive(Drop)]
pub struct DeleteVersion {
    pub bucket: BucketName,
    pub key: ObjectKey,
    pub id: VersionId,
    pub bypass: bool,
}

/// The retention that a version gets; its hold is kept. With no id, the current version is meant.
#[derive(Drop)]
pub struct SetRetention {
    pub bucket: BucketName,
    pub key: ObjectKey,
    pub id: Option<VersionId>,
    pub retention: Retention,
    pub bypass: bool,
}

/// The retention of a version; with no id, the current entry is meant.
#[derive(Drop)]
pub struct GetRetention {
    pub bucket: BucketName,
    pub key: ObjectKey,
    pub id: Option<VersionId>,
}

/// Whether a version is on legal hold; its retention is kept. With no id, the current version is meant.
#[derive(Drop)]
pub struct SetHold {
    pub bucket: BucketName,
    pub key: ObjectKey,
    pub id: Option<VersionId>,
    pub hold: bool,
}

/// Whether a version is on legal hold; with no id, the current entry is meant.
#[derive(Drop)]
pub struct GetHold {
    pub bucket: BucketName,
    pub key: ObjectKey,
    pub id: Option<VersionId>,
}

/// A run of the lifecycle rules over a bucket.
#[derive(Drop)]
pub struct Run {
    pub bucket: BucketName,
}

/// A report on a department.
#[derive(Drop)]
pub struct Report {
    pub dept: DeptName,
}

/// A certificate of destruction of a removed content version.
#[derive(Drop)]
pub struct Certificate {
    pub bucket: BucketName,
    pub id: VersionId,
}

/// A line of an intake batch, and the version that it asks for.
#[derive(Drop)]
pub struct Intake {
    pub batch: BatchName,
    /// From 1 on.
    pub line: u32,
    pub put: Put,
}

/// What is asked of the vault.
#[derive(Drop)]
pub enum Command {
    AddDept(AddDept),
    AddCaller(AddCaller),
    CloseCaller(CloseCaller),
    AddBucket(AddBucket),
    MoveBucket(MoveBucket),
    SetDefault(SetDefault),
    GetDefault(GetDefault),
    SetRules(SetRules),
    GetRules(GetRules),
    DropRules(DropRules),
    Put(Put),
    Get(Get),
    Head(Head),
    ListVersions(ListVersions),
    Delete(Delete),
    DeleteVersion(DeleteVersion),
    SetRetention(SetRetention),
    GetRetention(GetRetention),
    SetHold(SetHold),
    GetHold(GetHold),
    Run(Run),
    Report(Report),
    Certificate(Certificate),
    Intake(Intake),
}

/// A command with the reading and the caller that it is given with.
#[derive(Drop)]
pub struct Timed {
    pub at: Moment,
    pub who: CallerName,
    pub command: Command,
}
