//! What a row of a table says, where the machine has no record of its own for it.

use vault_base::content::Bytes;
use vault_base::moment::Moment;
use vault_base::name::{BucketName, DeptName, ObjectKey, VersionId};
use vault_core_model::records::{BucketConfig, Head, Setting, Tenure};
use vault_rules::rule::Rule;
use vault_tally::row::Row;

/// The one row of `meta`.
#[derive(Clone, Copy)]
pub struct MetaRow {
    /// The number of the schema.
    pub schema: u64,
    /// The last moment.
    pub last: Moment,
    /// The id that the next entry gets.
    pub next: u64,
    /// How often a bucket was moved to another department.
    pub moves: u64,
}

/// A department and its running row.
#[derive(Drop)]
pub struct DepartmentRow {
    pub name: DeptName,
    pub sums: Row,
}

/// A bucket without its rules.
#[derive(Drop)]
pub struct BucketRow {
    pub name: BucketName,
    pub config: BucketConfig,
}

/// A rule at its place, from 1, among those of a bucket.
#[derive(Drop)]
pub struct RuleRow {
    pub bucket: BucketName,
    pub place: u32,
    pub rule: Rule,
}

/// The bytes of a version.
#[derive(Drop)]
pub struct ContentRow {
    pub id: VersionId,
    pub content: Bytes,
}

/// A setting at its place, from 1, among those of a version.
#[derive(Drop)]
pub struct SettingRow {
    pub id: VersionId,
    pub place: u32,
    pub setting: Setting,
}

/// The head of a key.
#[derive(Drop)]
pub struct HeadRow {
    pub bucket: BucketName,
    pub key: ObjectKey,
    pub head: Head,
}

/// A tenure of a version.
#[derive(Drop)]
pub struct TenureRow {
    pub id: VersionId,
    pub tenure: Tenure,
}
