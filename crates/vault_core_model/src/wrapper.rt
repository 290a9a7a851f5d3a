//! Keepers that hand on what a keeper within them does.
ghost use Rattle.std.specs.Prelude.{◌≡◌, OnOk, false};
ghost use Rattle.std.specs.Borrow.{sem, Lends};
ghost use Rattle.vault_core_model.specs.Halts.{is_device_given};
ghost use Rattle.vault_core_model.specs.Wrapping.{AnswersFor, HasSeen, Wraps};

use crate::change::Change;
use crate::halt::Fault;
use crate::keeper::{Keeper, Sink};
use crate::kept::Kept;
use crate::records::{BucketConfig, Caller, Entry, Head, LastSetting, Note, Settings, Tenures};
use vault_base::content::Content;
use vault_base::moment::Moment;
use vault_base::name::{
    BatchName, BucketName, CallerName, DeptName, KeyPrefix, ObjectKey, VersionId,
};
use vault_rules::plan::Held;
use vault_rules::rule_set::RuleSet;
use vault_tally::row::Row;

/// A read of a keeper, and what it is of. A key, a prefix or a batch stands without its bucket.
#[derive(Clone, Copy)]
pub enum Read<'a> {
    Last,
    NextId,
    Caller(&'a CallerName),
    Dept(&'a DeptName),
    Bucket(&'a BucketName),
    Rules(&'a BucketName),
    Head(&'a ObjectKey),
    Entries(&'a ObjectKey),
    Entry(VersionId),
    Setting(VersionId),
    Settings(VersionId),
    External,
    Content(VersionId),
    Keys(&'a KeyPrefix, u32),
    Ids(&'a ObjectKey, Option<VersionId>, u32),
    Buckets(&'a str, u32),
    Note(&'a BatchName, u32),
    Removed,
    Moves,
    Tenures(VersionId),
    BucketHeld(&'a BucketName),
    Totals(&'a DeptName),
}

/// What hands on what a keeper within it does, and so is a keeper of the same vault.
///
/// It sees each read and change first. It may refuse a change, and answer some reads otherwise where it isn't honest.
pub trait Wrapper: Kept {
    /// The type of the keeper within it.
    type Below: Keeper;

    /// The keeper within it.
    ghost within: { Self → Self.Below };

    /// The same wrapper, over another keeper.
    ghost with_below: { Self → Self.Below → Self };

    /// Lends the keeper within it.
    fn below(&mut self) -> &mut Self::Below
        ensures* writes_back { sem 𝓛 (Lends Self.row Self.Below.row self.entry result (with_below self.entry.now)) }
        ensures value { result.now ≡ within self.old };

    /// How often its device failed, up to the greatest number. A change that it refused with `Device` counts too.
    fn all_faults(&self) -> u64
        ensures { result ≡ Self.count self.now };

    /// Sees what is about to be read.
    fn before_read(&mut self, _read: &Read<'_>)
        ensures { HasSeen Self.Kept within self.old self.new false }
    {}

    /// Sees what is about to be changed. At an error the change isn't handed on.
    fn before_change(&mut self, change: &Change) -> Result<(), Fault>
        ensures seen { HasSeen Self.Kept within self.old self.new (is_device_given result) }
        // It hands a change on only where it is honest, if the keeper within it is.
        ensures passes { OnOk result (Self.Below.is_honest (within self.old) → Self.is_honest self.old) };

    /// The next id that it answers, where the keeper within it answers this.
    fn shown_id(&self, id: Result<u64, Fault>) -> Result<u64, Fault>
        ensures { AnswersFor (Self.is_honest self.now) result id }
    {
        id
    }

    /// The moves that it answers, where the keeper within it answers these.
    fn shown_moves(&self, moves: Result<u32, Fault>) -> Result<u32, Fault>
        ensures { AnswersFor (Self.is_honest self.now) result moves }
    {
        moves
    }

    /// The sums that it answers, where the keeper within it answers these.
    fn shown_totals(&self, totals: Result<Row, Fault>) -> Result<Row, Fault>
        ensures { AnswersFor (Self.is_honest self.now) result totals }
    {
        totals
    }

    /// It keeps what the keeper within it keeps.
    ghost wraps: { Wraps Self.Kept Self.Below.Kept within with_below };
}

impl<W: Wrapper> Keeper for W {
    fn faults(&self) -> u64 {
        self.all_faults()
    }

    fn last(&mut self) -> Result<Moment, Fault> {
        self.before_read(&Read::Last);
        self.below().last()
    }

    fn next_id(&mut self) -> Result<u64, Fault> {
        self.before_read(&Read::NextId);
        let id = self.below().next_id();
        self.shown_id(id)
    }

    fn caller(&mut self, name: &CallerName) -> Result<Option<Caller>, Fault> {
        self.before_read(&Read::Caller(name));
        self.below().caller(name)
    }

    fn dept(&mut self, name: &DeptName) -> Result<bool, Fault> {
        self.before_read(&Read::Dept(name));
        self.below().dept(name)
    }

    fn bucket(&mut self, name: &BucketName) -> Result<Option<BucketConfig>, Fault> {
        self.before_read(&Read::Bucket(name));
        self.below().bucket(name)
    }

    fn rules(&mut self, bucket: &BucketName) -> Result<Option<RuleSet>, Fault> {
        self.before_read(&Read::Rules(bucket));
        self.below().rules(bucket)
    }

    fn head(&mut self, bucket: &BucketName, key: &ObjectKey) -> Result<Option<Head>, Fault> {
        self.before_read(&Read::Head(key));
        self.below().head(bucket, key)
    }

    fn entries(&mut self, bucket: &BucketName, key: &ObjectKey) -> Result<Vec<Held>, Fault> {
        self.before_read(&Read::Entries(key));
        self.below().entries(bucket, key)
    }

    fn entry(&mut self, id: VersionId) -> Result<Option<Entry>, Fault> {
        self.before_read(&Read::Entry(id));
        self.below().entry(id)
    }

    fn setting(&mut self, id: VersionId) -> Result<Option<LastSetting>, Fault> {
        self.before_read(&Read::Setting(id));
        self.below().setting(id)
    }

    fn settings(&mut self, id: VersionId) -> Result<Settings, Fault> {
        self.before_read(&Read::Settings(id));
        self.below().settings(id)
    }

    fn external(&mut self) -> Result<bool, Fault> {
        self.before_read(&Read::External);
        self.below().external()
    }

    fn content(&mut self, id: VersionId) -> Result<Option<Content>, Fault> {
        self.before_read(&Read::Content(id));
        self.below().content(id)
    }

    fn keys(
        &mut self,
        bucket: &BucketName,
        after: &KeyPrefix,
        most: u32,
    ) -> Result<Vec<ObjectKey>, Fault> {
        self.before_read(&Read::Keys(after, most));
        self.below().keys(bucket, after, most)
    }

    fn ids(
        &mut self,
        bucket: &BucketName,
        key: &ObjectKey,
        than: Option<VersionId>,
        most: u32,
    ) -> Result<Vec<VersionId>, Fault> {
        self.before_read(&Read::Ids(key, than.as_ref().copied(), most));
        self.below().ids(bucket, key, than, most)
    }

    fn buckets(&mut self, after: &str, most: u32) -> Result<Vec<BucketName>, Fault> {
        self.before_read(&Read::Buckets(after, most));
        self.below().buckets(after, most)
    }

    fn note(
        &mut self,
        bucket: &BucketName,
        batch: &BatchName,
        line: u32,
    ) -> Result<Option<Note>, Fault> {
        self.before_read(&Read::Note(batch, line));
        self.below().note(bucket, batch, line)
    }

    fn walk_removed<S: Sink>(&mut self, sink: &mut S) -> Result<bool, Fault> {
        self.before_read(&Read::Removed);
        self.below().walk_removed(sink)
    }

    fn moves(&mut self) -> Result<u32, Fault> {
        self.before_read(&Read::Moves);
        let moves = self.below().moves();
        self.shown_moves(moves)
    }

    fn tenures(&mut self, id: VersionId) -> Result<Tenures, Fault> {
        self.before_read(&Read::Tenures(id));
        self.below().tenures(id)
    }

    fn bucket_held(&mut self, bucket: &BucketName) -> Result<(u64, u64), Fault> {
        self.before_read(&Read::BucketHeld(bucket));
        self.below().bucket_held(bucket)
    }

    fn totals(&mut self, dept: &DeptName) -> Result<Row, Fault> {
        self.before_read(&Read::Totals(dept));
        let totals = self.below().totals(dept);
        self.shown_totals(totals)
    }

    fn apply(&mut self, at: Moment, change: &Change) -> Result<(), Fault> {
        self.before_change(change)?;
        self.below().apply(at, change)
    }
}
