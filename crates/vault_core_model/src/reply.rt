//! What the vault answers.
ghost use Rattle.std.specs.Prelude.{◌≡◌, [], ◌∷◌, ◌++◌, OnOk, OnErr};

use crate::records::{Entry, Tenures};
use std::alloc::{AllocError, Global};
use std::marker::Model;
use vault_base::content::Content;
use vault_base::moment::Moment;
use vault_base::name::{DeptName, VersionId};
use vault_base::refusal::Refusal;
use vault_lock::lock::{Lock, Permit};
use vault_lock::retention::{Default, Retention};
use vault_rules::rule_set::RuleSet;

/// A held version and its last lock.
#[derive(Drop)]
pub struct Version {
    pub entry: Entry,
    pub lock: Lock,
}

/// An entry of a listing.
#[derive(Drop)]
pub struct Listed {
    pub entry: Entry,
    pub current: bool,
}

/// The entries of a listing, in order.
#[derive(Drop)]
pub struct Listing {
    entries: Vec<Listed>,
}

impl Model for Listing {
    ghost use Rattle.std.specs.Prelude.{List};
    ghost use Rattle.vault_core_model.specs.declared.reply.Listed.{Listed};

    ghost Value = { List Listed };

    ghost view = { λ l. l.entries.items };
}

impl Listing {
    /// No entry.
    pub fn new(alloc: Global) -> Listing
        ensures { result ≡ [] }
    {
        Listing {
            entries: Vec::new(alloc),
        }
    }

    /// One entry more, the last.
    pub fn push(&mut self, entry: Listed) -> Result<(), AllocError>
        ensures ok { OnOk result (self.new ≡ self.old ++ entry ∷ []) }
        ensures err { OnErr result (self.new ≡ self.old) }
    {
        self.entries.push(entry)?;
        Ok(())
    }

    /// The entries, in order.
    pub fn as_slice(&self) -> &[Listed]
        ensures { result.now ≡ self.now }
    {
        self.entries.as_slice()
    }
}

/// A listing, and whether entries after it were left out.
#[derive(Drop)]
pub struct Page {
    pub entries: Listing,
    pub more: bool,
}

/// A removed entry, and how its removal was permitted.
#[derive(Clone, Copy, PartialEq, Eq)]
pub struct Removed {
    pub id: VersionId,
    pub marker: bool,
    pub permit: Permit,
}

/// How many changes a lifecycle run made, and of which kind.
#[derive(Clone, Copy, Debug, PartialEq, Eq)]
pub struct Counts {
    pub changes: u64,
    /// Delete markers put on top.
    pub marked: u64,
    /// Noncurrent entries removed.
    pub removed: u64,
    /// Markers removed that were their key's only entry.
    pub lone: u64,
}

/// The sums of a department at a moment.
#[derive(Drop)]
pub struct Report {
    pub dept: DeptName,
    pub at: Moment,
    /// The bytes ever admitted.
    pub admitted: u64,
    /// The bytes ever received with buckets.
    pub received: u64,
    /// The bytes held.
    pub held: u64,
    /// The bytes removed.
    pub removed: u64,
    /// The bytes handed over with buckets.
    pub handed: u64,
    /// Bytes times whole days that the department had them, of removed and handed over versions too.
    pub byte_days: u64,
}

/// The version of an intake line, and whether it was there before.
#[derive(Clone, Copy, PartialEq, Eq)]
pub struct TakenIn {
    pub id: VersionId,
    pub again: bool,
}

/// What a command that was done answers.
#[derive(Drop)]
pub enum Answer {
    Nothing,
    Default(Option<Default>),
    Rules(RuleSet),
    Admitted(VersionId),
    Version(Version, Content),
    Head(Version),
    Versions(Page),
    Marked(VersionId),
    Removed(Removed),
    Retention(Option<Retention>),
    Hold(bool),
    Ran(Counts),
    Report(Report),
    /// The removed version, and the departments that had it.
    Certificate(Entry, Tenures),
    /// The bytes of the held content that moved with its bucket.
    Moved(u64),
    TakenIn(TakenIn),
}

/// What stops a lifecycle run.
#[derive(Clone, Copy, Debug, PartialEq, Eq)]
pub enum Stop {
    /// No memory was left for a growth.
    Memory,
    /// The device failed.
    Device,
    /// No id was left for a delete marker.
    VaultFull,
}

/// The reply to a command.
#[derive(Drop)]
pub enum Reply {
    Done(Answer),
    Refused(Refusal),
    /// A lifecycle run stopped after that many changes, which stand.
    Stopped(u64, Stop),
}
