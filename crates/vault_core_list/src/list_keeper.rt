//! The keeper that keeps one list of histories.
ghost use Rattle.std.specs.Prelude.{◌≡◌, IfOk};
ghost use Rattle.vault_core_model.specs.Vault as vaults;

use crate::lists::{self, Lists};
use crate::{bucket, find, ids, keys, removed, sums};
use std::alloc::{AllocError, Global};
use std::marker::Model;
use vault_base::content::Content;
use vault_base::moment::Moment;
use vault_base::moment::laws::moment_is_in_range;
use vault_base::name::{
    BatchName, BucketName, CallerName, DeptName, KeyPrefix, ObjectKey, VersionId,
};
use vault_base::right::Right;
use vault_core_model::change::Change;
use vault_core_model::halt::Fault;
use vault_core_model::keeper::{Keeper, Sink};
use vault_core_model::kept::Kept;
use vault_core_model::records::{
    BucketConfig, Caller, Entry, Head, LastSetting, Note, Settings, Tenures,
};
use vault_core_model::rights::Rights;
use vault_rules::plan::Held;
use vault_rules::rule_set::RuleSet;
use vault_tally::row::Row;

/// A vault in memory: one list of whole histories in the order of admission, and the records beside it
/// in the order of their names.
///
/// It has no device, so its answers are always those of its vault, or `Fault::Memory`.
#[derive(Drop)]
pub struct ListKeeper {
    alloc: Global,
    lists: Lists,
}

impl Model for ListKeeper {
    ghost use Rattle.vault_core_model.specs.Vault.{Vault};
    ghost use Rattle.vault_core_model.specs.Sound.{Sound};
    ghost use Rattle.vault_core_list.specs.Lists.{vault_of};

    ghost Value = { Vault };

    ghost view = { λ k. vault_of k.lists };

    ghost invariant = { λ k. Sound (vault_of k.lists) };
}

/// The caller of a new vault, who may administer it.
fn registrar(alloc: Global) -> Result<Caller, AllocError>
    ensures { IfOk result (λ caller. caller ≡ vaults.registrar) }
{
    Ok(Caller {
        name: CallerName::read(alloc, "registrar")?.unwrap(),
        dept: None,
        rights: Rights::none().with(Right::Admin),
        closed: false,
    })
}

impl ListKeeper {
    ghost use Rattle.std.specs.Prelude.{◌≡◌, IfOk};
    ghost use Rattle.vault_core_model.specs.Vault.{opening, opening_of};

    /// A new vault, which keeps every content itself: its one caller is `registrar`, who may administer it.
    pub fn new(alloc: Global) -> Result<ListKeeper, AllocError>
        ensures { IfOk result (λ keeper. keeper ≡ opening) }
    {
        ListKeeper::new_as(alloc, false)
    }

    /// The same, which registers contents that are kept outside where `external` is true.
    pub fn new_as(alloc: Global, external: bool) -> Result<ListKeeper, AllocError>
        ensures { IfOk result (λ keeper. keeper ≡ opening_of external) }
    {
        let mut callers = Vec::new(alloc);
        callers.push(registrar(alloc)?)?;
        Ok(ListKeeper {
            alloc,
            lists: Lists {
                external,
                last: Moment::from_secs(0).unwrap(),
                departments: Vec::new(alloc),
                callers,
                buckets: Vec::new(alloc),
                notes: Vec::new(alloc),
                histories: Vec::new(alloc),
                moves: 0,
            },
        })
    }
}

impl Kept for ListKeeper {
    ghost use Rattle.vault_core_model.specs.Sound.{Sound};

    // A list has no device, so it has what was written; that is sound by the invariant.
    ghost is_honest = { λ k. Sound k };

    ghost vault = { λ k. k };

    ghost count = { λ _. 0 };

    ghost sound = { λ _ sound. sound };
}

impl Keeper for ListKeeper {
    ghost use Rattle.std.specs.Prelude.{◌≡◌, IsOkAnd};
    ghost use Rattle.vault_core_model.specs.Handing.{Hands};
    ghost use Rattle.vault_core_model.specs.Reads.{setting_of, head_of, removed_entries};
    ghost use Rattle.vault_core_model.specs.Sound.{Sound};
    ghost use Rattle.vault_core_model.specs.Totals.{IsRowFor, bucket_bytes, bucket_weight};
    ghost use Rattle.vault_core_model.specs.Vault.{has_department, next_id};

    fn faults(&self) -> u64 {
        0
    }

    fn last(&mut self) -> Result<Moment, Fault>
        ensures value { result ≡ Ok self.old.last }
        ensures same { self.new ≡ self.old }
    {
        Ok(self.lists.last)
    }

    fn next_id(&mut self) -> Result<u64, Fault>
        ensures value { result ≡ Ok (next_id self.old) }
        ensures same { self.new ≡ self.old }
    {
        Ok(self.lists.histories.len() as u64 + 1)
    }

    fn caller(&mut self, name: &CallerName) -> Result<Option<Caller>, Fault> {
        Ok(find::caller(&self.lists.callers, name)?)
    }

    fn dept(&mut self, name: &DeptName) -> Result<bool, Fault>
        ensures value { result ≡ Ok (has_department self.old name.now) }
        ensures same { self.new ≡ self.old }
    {
        Ok(find::has_department(&self.lists.departments, name))
    }

    fn bucket(&mut self, name: &BucketName) -> Result<Option<BucketConfig>, Fault> {
        Ok(find::config(&self.lists.buckets, name)?)
    }

    fn rules(&mut self, bucket: &BucketName) -> Result<Option<RuleSet>, Fault> {
        Ok(find::rules(&self.lists.buckets, bucket)?)
    }

    fn head(&mut self, bucket: &BucketName, key: &ObjectKey) -> Result<Option<Head>, Fault>
        ensures value { result ≡ Ok (head_of self.old bucket.now key.now) }
        ensures same { self.new ≡ self.old }
    {
        Ok(find::head(&self.lists.histories, bucket, key))
    }

    fn entries(&mut self, bucket: &BucketName, key: &ObjectKey) -> Result<Vec<Held>, Fault> {
        Ok(find::entries(self.alloc, &self.lists.histories, bucket, key)?)
    }

    fn entry(&mut self, id: VersionId) -> Result<Option<Entry>, Fault> {
        Ok(find::entry(&self.lists.histories, id)?)
    }

    fn setting(&mut self, id: VersionId) -> Result<Option<LastSetting>, Fault>
        ensures value { result ≡ Ok (setting_of self.old id) }
        ensures same { self.new ≡ self.old }
    {
        Ok(find::setting(&self.lists.histories, id))
    }

    fn settings(&mut self, id: VersionId) -> Result<Settings, Fault> {
        Ok(find::settings(self.alloc, &self.lists.histories, id)?)
    }

    fn external(&mut self) -> Result<bool, Fault>
        ensures value { result ≡ Ok self.old.external }
        ensures same { self.new ≡ self.old }
    {
        Ok(self.lists.external)
    }

    fn content(&mut self, id: VersionId) -> Result<Option<Content>, Fault> {
        Ok(find::content(&self.lists.histories, id)?)
    }

    fn keys(
        &mut self,
        bucket: &BucketName,
        after: &KeyPrefix,
        most: u32,
    ) -> Result<Vec<ObjectKey>, Fault> {
        Ok(keys::later(self.alloc, &self.lists.histories, bucket, after, most)?)
    }

    fn ids(
        &mut self,
        bucket: &BucketName,
        key: &ObjectKey,
        than: Option<VersionId>,
        most: u32,
    ) -> Result<Vec<VersionId>, Fault> {
        Ok(ids::older(self.alloc, &self.lists.histories, bucket, key, than, most)?)
    }

    fn buckets(&mut self, after: &str, most: u32) -> Result<Vec<BucketName>, Fault> {
        Ok(find::bucket_names(self.alloc, &self.lists.buckets, after, most)?)
    }

    fn note(
        &mut self,
        bucket: &BucketName,
        batch: &BatchName,
        line: u32,
    ) -> Result<Option<Note>, Fault> {
        Ok(find::note(&self.lists.notes, bucket, batch, line)?)
    }

    fn walk_removed<S: Sink>(&mut self, sink: &mut S) -> Result<bool, Fault>
        ensures value { IsOkAnd result (λ all. Hands S.takes sink.old (removed_entries self.old) (Ok all) sink.new) }
        ensures same { self.new ≡ self.old }
    {
        Ok(removed::walk(&self.lists.histories, sink))
    }

    fn moves(&mut self) -> Result<u32, Fault>
        ensures value { result ≡ Ok self.old.moves }
        ensures same { self.new ≡ self.old }
    {
        Ok(self.lists.moves)
    }

    fn tenures(&mut self, id: VersionId) -> Result<Tenures, Fault> {
        Ok(find::tenures(self.alloc, &self.lists.histories, id)?)
    }

    fn bucket_held(&mut self, bucket: &BucketName) -> Result<(u64, u64), Fault>
        ensures value { result ≡ Ok (bucket_bytes self.old bucket.now, bucket_weight self.old bucket.now) }
        ensures same { self.new ≡ self.old }
    {
        // So no day is past that of the last moment, and the weight fits.
        moment_is_in_range(self.lists.last);
        Ok(bucket::held(&self.lists.histories, bucket))
    }

    fn totals(&mut self, dept: &DeptName) -> Result<Row, Fault>
        ensures value { IsOkAnd result (λ row. IsRowFor self.old dept.now row) }
        ensures same { self.new ≡ self.old }
    {
        // So no day is past that of the last moment; and no department is past its quota: the sums fit.
        moment_is_in_range(self.lists.last);
        Ok(sums::row(&self.lists.histories, dept))
    }

    fn apply(&mut self, at: Moment, change: &Change) -> Result<(), Fault> {
        lists::make(self.alloc, &mut self.lists, at, change)?;
        self.lists.last = at;
        Ok(())
    }
}
