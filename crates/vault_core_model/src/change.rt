//! What may change in the vault.
use crate::records::{Caller, History, Note, Removal, Setting};
use vault_base::name::{BucketName, CallerName, DeptName, VersionId};
use vault_lock::retention::Default;
use vault_rules::rule_set::RuleSet;

/// A new history, and the note of the intake line that it came by.
#[derive(Drop)]
pub struct Admission {
    pub history: History,
    pub note: Option<Note>,
}

/// A version, and the setting that it gets.
#[derive(Drop)]
pub struct NextSetting {
    pub id: VersionId,
    pub setting: Setting,
}

/// One change of the vault.
#[derive(Drop)]
pub enum Change {
    AddDept(DeptName),
    AddCaller(Caller),
    CloseCaller(CallerName),
    AddBucket(BucketName, DeptName),
    MoveBucket(BucketName, DeptName),
    SetDefault(BucketName, Option<Default>),
    SetRules(BucketName, Option<RuleSet>),
    Admit(Admission),
    AddSetting(VersionId, Setting),
    Remove(VersionId, Removal),
}
