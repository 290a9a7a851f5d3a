//! What the vault keeps.
ghost use Rattle.std.specs.Prelude.{◌≡◌, [], ◌∷◌, ◌++◌, OnOk, OnErr};

use crate::rights::Rights;
use std::alloc::{AllocError, Global};
use std::marker::Model;
use vault_base::content::{Content, Digest};
use vault_base::moment::Moment;
use vault_base::name::{BatchName, BucketName, CallerName, DeptName, ObjectKey, RuleId, VersionId};
use vault_lock::lock::Lock;
use vault_lock::retention::{Default, Retention};
use vault_rules::rule_set::RuleSet;

/// Who asks: open, or closed for good.
#[derive(Drop)]
pub struct Caller {
    pub name: CallerName,
    pub dept: Option<DeptName>,
    pub rights: Rights,
    pub closed: bool,
}

impl Clone for Caller {
    ghost is_clone = { λ s t. t ≡ s };

    fn clone(&self) -> Result<Caller, AllocError> {
        Ok(Caller {
            name: self.name.clone()?,
            dept: self.dept.clone()?,
            rights: self.rights,
            closed: self.closed,
        })
    }
}

/// Whose a bucket is, and the retention that it gives to versions placed later.
#[derive(Drop)]
pub struct BucketConfig {
    pub dept: DeptName,
    pub default: Option<Default>,
}

impl Clone for BucketConfig {
    ghost is_clone = { λ s t. t ≡ s };

    fn clone(&self) -> Result<BucketConfig, AllocError> {
        Ok(BucketConfig {
            dept: self.dept.clone()?,
            default: self.default,
        })
    }
}

/// A bucket, with its lifecycle rules where it has any.
#[derive(Drop)]
pub struct Bucket {
    pub name: BucketName,
    pub config: BucketConfig,
    pub rules: Option<RuleSet>,
}

/// Who admitted an entry.
#[derive(Drop)]
pub enum Author {
    Caller(CallerName),
    Rule(RuleId),
}

impl Clone for Author {
    ghost is_clone = { λ s t. t ≡ s };

    fn clone(&self) -> Result<Author, AllocError> {
        match self {
            Author::Caller(caller) => Ok(Author::Caller(caller.clone()?)),
            Author::Rule(rule) => Ok(Author::Rule(rule.clone()?)),
        }
    }
}

/// Why an entry was removed.
#[derive(Drop)]
pub enum Cause {
    Request(CallerName),
    Bypass(CallerName),
    Rule(RuleId),
}

impl Clone for Cause {
    ghost is_clone = { λ s t. t ≡ s };

    fn clone(&self) -> Result<Cause, AllocError> {
        match self {
            Cause::Request(caller) => Ok(Cause::Request(caller.clone()?)),
            Cause::Bypass(caller) => Ok(Cause::Bypass(caller.clone()?)),
            Cause::Rule(rule) => Ok(Cause::Rule(rule.clone()?)),
        }
    }
}

/// The end of an entry.
#[derive(Drop)]
pub struct Removal {
    pub at: Moment,
    pub cause: Cause,
}

impl Clone for Removal {
    ghost is_clone = { λ s t. t ≡ s };

    fn clone(&self) -> Result<Removal, AllocError> {
        Ok(Removal {
            at: self.at,
            cause: self.cause.clone()?,
        })
    }
}

/// A content version or a delete marker, held or removed.
#[derive(Drop)]
pub struct Entry {
    pub id: VersionId,
    pub bucket: BucketName,
    pub key: ObjectKey,
    pub marker: bool,
    /// In bytes; a marker has 0.
    pub size: u64,
    /// The digest of the content; a marker has none.
    pub digest: Option<Digest>,
    pub admitted: Moment,
    pub by: Author,
    pub removal: Option<Removal>,
}

impl Clone for Entry {
    ghost is_clone = { λ s t. t ≡ s };

    fn clone(&self) -> Result<Entry, AllocError> {
        Ok(Entry {
            id: self.id,
            bucket: self.bucket.clone()?,
            key: self.key.clone()?,
            marker: self.marker,
            size: self.size,
            digest: self.digest,
            admitted: self.admitted,
            by: self.by.clone()?,
            removal: self.removal.clone()?,
        })
    }
}

/// What a caller set of a version's lock.
#[derive(Drop)]
pub struct Setting {
    pub at: Moment,
    pub by: CallerName,
    pub lock: Lock,
    pub bypass: bool,
}

impl Clone for Setting {
    ghost is_clone = { λ s t. t ≡ s };

    fn clone(&self) -> Result<Setting, AllocError> {
        Ok(Setting {
            at: self.at,
            by: self.by.clone()?,
            lock: self.lock,
            bypass: self.bypass,
        })
    }
}

/// The settings of a version, oldest first.
#[derive(Drop)]
pub struct Settings {
    settings: Vec<Setting>,
}

impl Model for Settings {
    ghost use Rattle.std.specs.Prelude.{List};
    ghost use Rattle.vault_core_model.specs.declared.records.Setting.{Setting};

    ghost Value = { List Setting };

    ghost view = { λ s. s.settings.items };
}

impl Settings {
    /// No setting.
    pub fn new(alloc: Global) -> Settings
        ensures { result ≡ [] }
    {
        Settings {
            settings: Vec::new(alloc),
        }
    }

    /// One setting more, the newest.
    pub fn push(&mut self, setting: Setting) -> Result<(), AllocError>
        ensures ok { OnOk result (self.new ≡ self.old ++ setting ∷ []) }
        ensures err { OnErr result (self.new ≡ self.old) }
    {
        self.settings.push(setting)?;
        Ok(())
    }

    /// The settings, oldest first.
    pub fn as_slice(&self) -> &[Setting]
        ensures { result.now ≡ self.now }
    {
        self.settings.as_slice()
    }
}

impl Clone for Settings {
    ghost is_clone = { λ s t. t ≡ s };

    fn clone(&self) -> Result<Settings, AllocError> {
        Ok(Settings {
            settings: self.settings.clone()?,
        })
    }
}

/// A department that has a version, and since when.
#[derive(Drop)]
pub struct Tenure {
    pub dept: DeptName,
    pub from: Moment,
    /// The move of the bucket that began it, counted over the vault from 1; 0 is the admission.
    pub number: u32,
}

impl Clone for Tenure {
    ghost is_clone = { λ s t. t ≡ s };

    fn clone(&self) -> Result<Tenure, AllocError> {
        Ok(Tenure {
            dept: self.dept.clone()?,
            from: self.from,
            number: self.number,
        })
    }
}

/// The tenures of a version, oldest first.
#[derive(Drop)]
pub struct Tenures {
    tenures: Vec<Tenure>,
}

impl Model for Tenures {
    ghost use Rattle.std.specs.Prelude.{List};
    ghost use Rattle.vault_core_model.specs.declared.records.Tenure.{Tenure};

    ghost Value = { List Tenure };

    ghost view = { λ t. t.tenures.items };
}

impl Tenures {
    /// No tenure.
    pub fn new(alloc: Global) -> Tenures
        ensures { result ≡ [] }
    {
        Tenures {
            tenures: Vec::new(alloc),
        }
    }

    /// One tenure more, the newest.
    pub fn push(&mut self, tenure: Tenure) -> Result<(), AllocError>
        ensures ok { OnOk result (self.new ≡ self.old ++ tenure ∷ []) }
        ensures err { OnErr result (self.new ≡ self.old) }
    {
        self.tenures.push(tenure)?;
        Ok(())
    }

    /// The tenures, oldest first.
    pub fn as_slice(&self) -> &[Tenure]
        ensures { result.now ≡ self.now }
    {
        self.tenures.as_slice()
    }
}

impl Clone for Tenures {
    ghost is_clone = { λ s t. t ≡ s };

    fn clone(&self) -> Result<Tenures, AllocError> {
        Ok(Tenures {
            tenures: self.tenures.clone()?,
        })
    }
}

/// An entry with its content, while it is held, its settings and its tenures.
#[derive(Drop)]
pub struct History {
    pub entry: Entry,
    pub content: Option<Content>,
    pub settings: Settings,
    pub tenures: Tenures,
}

impl Clone for History {
    ghost is_clone = { λ s t. t ≡ s };

    fn clone(&self) -> Result<History, AllocError> {
        Ok(History {
            entry: self.entry.clone()?,
            content: self.content.clone()?,
            settings: self.settings.clone()?,
            tenures: self.tenures.clone()?,
        })
    }
}

/// What an accepted line of an intake batch asked for, and the version that it admitted.
#[derive(Drop)]
pub struct Note {
    pub bucket: BucketName,
    pub batch: BatchName,
    /// From 1 on.
    pub line: u32,
    pub key: ObjectKey,
    /// In bytes.
    pub size: u64,
    pub digest: Digest,
    pub retention: Option<Retention>,
    pub hold: Option<bool>,
    pub id: VersionId,
}

impl Clone for Note {
    ghost is_clone = { λ s t. t ≡ s };

    fn clone(&self) -> Result<Note, AllocError> {
        Ok(Note {
            bucket: self.bucket.clone()?,
            batch: self.batch.clone()?,
            line: self.line,
            key: self.key.clone()?,
            size: self.size,
            digest: self.digest,
            retention: self.retention,
            hold: self.hold,
            id: self.id,
        })
    }
}

/// The newest held entry of a key, and how many are held.
#[derive(Clone, Copy, PartialEq, Eq)]
pub struct Head {
    pub newest: VersionId,
    pub count: u64,
}

/// The lock that counts of a version, and how many settings it ever had.
#[derive(Clone, Copy)]
pub struct LastSetting {
    pub lock: Lock,
    pub count: u64,
}
