//! A keeper over the tables of a connection.
ghost use Rattle.std.specs.Prelude.{◌≡◌, ◌≢◌, ◌≤◌, [], ◌∷◌, ◌++◌, false, Err, IsTrue, IfOk, IfErr, IsErrAnd, OnOk, OnErr};
ghost use Rattle.sqlite.specs.Held.{state};
ghost use Rattle.sqlite.specs.State.{HasCleanDisk, IsUnchanged, Survives};
ghost use Rattle.vault_base.specs.declared.refusal.Table.{Table};
ghost use Rattle.vault_audit_model.specs.Tables.{no_schema};
ghost use Rattle.vault_audit.specs.Health.{IsHealthy};
ghost use Rattle.vault_audit.specs.Whole.{IsReported};
ghost use Rattle.vault_store_create.specs.Create.{IsFault};
ghost use Rattle.vault_core_model.specs.Vault.{Vault, opening_of};
ghost use Rattle.vault_core_model.specs.Allowed.{Allows};
ghost use Rattle.vault_core_model.specs.Change.{changed};
ghost use Rattle.vault_core_model.specs.Halts.{is_device_given};
ghost use Rattle.vault_core_model.specs.Leaves.{IsLeft};
ghost use Rattle.vault_store_model.specs.Known.{AreKnown};
ghost use Rattle.vault_store_apply.specs.Left.{IsFoundIn, LeavesAlone, MayLeave};
ghost use Rattle.vault_audit_model.specs.Spells.{AreSound};
ghost use Rattle.vault_store.specs.Kept.{kept_vault, IsSettled, StandsFor};
ghost use Rattle.vault_store.specs.Left.{IsKept, LeavesOneOf};
ghost use Rattle.vault_store.specs.Tables.{HasTablesOf};

use crate::blame::Blamed;
use crate::find::{find_bucket, find_external, find_held, find_meta, find_moves, find_sums};
use crate::look::look;
use crate::opening::{Opening, remember};
use crate::shut::refuse_shut;
use http_server::Log;
use sqlite::{Alter, Connection};
use std::alloc::Global;
use vault_base::content::Content;
use vault_base::moment::Moment;
use vault_base::name::{
    BatchName, BucketName, CallerName, DeptName, KeyPrefix, ObjectKey, VersionId,
};
use vault_base::refusal::Refusal;
use vault_core_model::change::Change;
use vault_core_model::halt::Fault;
use vault_core_model::keeper::{Keeper, Sink};
use vault_core_model::kept::Kept;
use vault_core_model::records::{
    BucketConfig, Caller, Entry, Head, LastSetting, Note, Settings, Tenures,
};
use vault_rules::plan::Held;
use vault_rules::rule_set::RuleSet;
use vault_store_apply::apply::apply_change;
use vault_store_create::create::fill;
use vault_store_model::known::Known;
use vault_store_reads::entries::{read_content, read_entry};
use vault_store_reads::heads::read_head;
use vault_store_reads::names::{has_department, read_caller};
use vault_store_reads::notes::read_note;
use vault_store_reads::rows_in_order::reads::{
    read_buckets, read_entries, read_ids, read_keys, read_rules, read_setting, read_settings,
    read_tenures,
};
use vault_store_walks::removed::walk_removed;
use vault_tally::row::Row;

/// A vault in tables.
///
/// Which vault it keeps is what its tables stated when it was opened, with the changes made since;
/// only proofs read that. While its disk returns what was written and no failure has shut the
/// connection, the tables are sound and spell that vault. A crash leaves that vault, or that with one more
/// change, which was refused after the last one that was made; only proofs read which ones these are.
///
/// It can't be let go of but by `into_connection`, so a store is closed, or handed on, wherever it ends.
pub struct SqlKeeper<S: Alter> {
    conn: Connection<S>,
    blamed: Blamed,
    alloc: Global,
    opening: Opening<S>,
    made: Log<Moment, Change>,
    // What was asked last, and what changes made of it.
    known: Known,
    // The changes that were refused since the last one that was made.
    refused: Log<Moment, Change>,
    ghost settled: { conn.in_transaction ≡ false },
    ghost sure: { blamed.doubted ≡ false → HasCleanDisk (state S.Store conn) → IsTrue (state S.Store conn).is_open },
    ghost knows: { ∥ (HasCleanDisk (state S.Store conn) → AreKnown known (kept_vault S.Store opening.at.items opening.known made.items)) ∥₁ },
    ghost kept: { ∥ (HasCleanDisk (state S.Store conn) → IsKept (state S.Store conn) (kept_vault S.Store opening.at.items opening.known made.items) refused.items) ∥₁ },
}

impl<S: Alter> SqlKeeper<S> {
    ghost use Rattle.vault_store.specs.ReadsAs.{ReadsAs};
    ghost use Rattle.vault_store.specs.VaultOf.{vault_of};

    /// A keeper over a connection, outside any transaction, whose tables are sound.
    pub(crate) fn over(alloc: Global, conn: Connection<S>) -> SqlKeeper<S>
        requires settled { conn.in_transaction ≡ false }
        requires sound { HasCleanDisk (state S.Store conn) → IsSettled (state S.Store conn) }
        requires alone { HasCleanDisk (state S.Store conn) → (v : Vault) → AreSound (state S.Store conn).now v → LeavesAlone (state S.Store conn) v }
        ensures same { result.conn ≡ conn }
        ensures counted { result.blamed.faults ≡ 0 }
        ensures fresh { result.refused.items ≡ [] }
        ensures keeps { HasCleanDisk (state S.Store conn) → AreSound (state S.Store conn).now (vault_of S.Store result) }
    {
        let opening = remember(&conn);
        let made = Log::new();
        let refused = Log::new();
        let blamed = Blamed::new();
        SqlKeeper {
            conn,
            blamed,
            alloc,
            opening,
            made,
            known: Known::new(),
            refused,
        }
    }

    /// The connection, as it stands. It takes no memory.
    pub fn into_connection(self) -> Connection<S>
        ensures same { result ≡ self.conn }
        ensures stands { ∥ (HasCleanDisk (state S.Store result) → StandsFor (state S.Store result) (vault_of S.Store self)) ∥₁ }
        // A crash leaves that vault, or that with one change more, which was refused after all that it has.
        ensures crash { ∥ (HasCleanDisk (state S.Store result) → LeavesOneOf (state S.Store result) (vault_of S.Store self) self.refused.items) ∥₁ }
        // While the connection is open, a crash leaves that vault and nothing else.
        ensures alone { ∥ (HasCleanDisk (state S.Store result) → IsTrue (state S.Store result).is_open → LeavesAlone (state S.Store result) (vault_of S.Store self)) ∥₁ }
    {
        let SqlKeeper {
            conn,
            blamed: _,
            alloc: _,
            opening: _,
            made: _,
            known: _,
            refused: _,
        } = self;
        conn
    }

    /// Opens a vault that was made before: its tables have to be sound. No table is changed.
    ///
    /// `Damaged` with the first table that isn't sound. `Memory` where the store wanted memory. `Device`
    /// where it refused for another cause, and for a connection inside a transaction, which is left as it
    /// was. The connection comes back with each of them, outside a transaction if it came so.
    pub fn open(
        alloc: Global,
        mut conn: Connection<S>,
    ) -> Result<SqlKeeper<S>, (Refusal, Connection<S>)>
        // The vault of the keeper is the one that the tables spell, and they are as they were.
        ensures sound { IfOk result (λ k. HasCleanDisk (state S.Store k.conn) → AreSound (state S.Store k.conn).now (vault_of S.Store k)) }
        ensures same { IfOk result (λ k. HasCleanDisk (state S.Store k.conn) → IsUnchanged (state S.Store conn) (state S.Store k.conn)) }
        ensures crash { IfOk result (λ k. Survives (state S.Store conn) (state S.Store k.conn) (λ _. ⊥)) }
        // A crash leaves that vault after that, and nothing else.
        ensures alone { IfOk result (λ k. HasCleanDisk (state S.Store k.conn) → LeavesAlone (state S.Store k.conn) (vault_of S.Store k)) }
        ensures counted { IfOk result (λ k. k.blamed.faults ≡ 0) }
        // No change was refused yet.
        ensures fresh { IfOk result (λ k. k.refused.items ≡ []) }
        ensures reported { IfErr result (λ e. IsReported e.0) }
        // A store that works, outside a transaction, is never reported as one that failed.
        ensures healthy { conn.in_transaction ≡ false → IfErr result (λ e. IsHealthy (state S.Store e.1) → e.0 ≢ Refusal.Device) }
        ensures damaged { IfErr result (λ e. HasCleanDisk (state S.Store e.1) → (t : Table) → e.0 ≡ Refusal.Damaged t → (v : Vault) → ¬ AreSound (state S.Store conn).now v) }
        ensures harmless { IfErr result (λ e. Survives (state S.Store conn) (state S.Store e.1) (λ _. ⊥)) }
        // Inside a transaction it is refused, and that is left as it was; else none is open after it, and no table was changed.
        ensures inside { IsTrue conn.in_transaction → IsErrAnd result (λ e. (e.0 ≡ Refusal.Device) × (e.1 ≡ conn)) }
        ensures outside { conn.in_transaction ≡ false → IfErr result (λ e. HasCleanDisk (state S.Store e.1) → e.1.in_transaction ≡ false) }
        ensures tables { conn.in_transaction ≡ false → IfErr result (λ e. HasCleanDisk (state S.Store e.1) → HasTablesOf (state S.Store conn) (state S.Store e.1)) }
    {
        if !conn.is_autocommit() {
            return Err((Refusal::Device, conn));
        }
        match look(alloc, &mut conn) {
            Ok(()) => {}
            Err(refusal) => return Err((refusal, conn)),
        }
        Ok(SqlKeeper::over(alloc, conn))
    }

    /// Makes a new vault in an empty store, which registers contents that are kept outside, or doesn't: its tables, and
    /// the one caller `registrar`.
    ///
    /// `NameTaken` where the store has a table, an index or a view. `Memory` where the store wanted memory.
    /// `Device` where it refused for another cause, and inside a transaction, which is left as it was. The
    /// connection comes back with each of them, outside a transaction if it came so.
    pub fn create(
        alloc: Global,
        mut conn: Connection<S>,
        external: bool,
    ) -> Result<SqlKeeper<S>, (Refusal, Connection<S>)>
        ensures opening { IfOk result (λ k. HasCleanDisk (state S.Store k.conn) → vault_of S.Store k ≡ opening_of external) }
        ensures sound { IfOk result (λ k. HasCleanDisk (state S.Store k.conn) → AreSound (state S.Store k.conn).now (opening_of external)) }
        // A crash leaves a new vault after that, and nothing else.
        ensures alone { IfOk result (λ k. HasCleanDisk (state S.Store k.conn) → LeavesAlone (state S.Store k.conn) (opening_of external)) }
        ensures counted { IfOk result (λ k. k.blamed.faults ≡ 0) }
        // No change was refused yet.
        ensures fresh { IfOk result (λ k. k.refused.items ≡ []) }
        ensures taken { (state S.Store conn).now.schema ≢ no_schema → IsErrAnd result (λ e. (e.0 ≡ Refusal.NameTaken) × (e.1 ≡ conn)) }
        ensures free { IfErr result (λ e. e.0 ≡ Refusal.NameTaken → (state S.Store conn).now.schema ≢ no_schema) }
        ensures faults { IfErr result (λ e. e.0 ≢ Refusal.NameTaken → IsFault e.0) }
        // A store that works, outside a transaction, is never reported as one that failed.
        ensures healthy { conn.in_transaction ≡ false → IfErr result (λ e. IsHealthy (state S.Store e.1) → e.0 ≢ Refusal.Device) }
        // A crash leaves what it could leave before, or a new vault.
        ensures crash { IfOk result (λ k. Survives (state S.Store conn) (state S.Store k.conn) (IsFoundIn (opening_of external))) }
        ensures harmless { IfErr result (λ e. Survives (state S.Store conn) (state S.Store e.1) (IsFoundIn (opening_of external))) }
        // Inside a transaction it is refused, and that is left as it was; else none is open after it, and no table was changed.
        ensures inside { IsTrue conn.in_transaction → IsErrAnd result (λ e. (e.0 ≢ Refusal.Memory) × (e.1 ≡ conn)) }
        ensures outside { conn.in_transaction ≡ false → IfErr result (λ e. e.1.in_transaction ≡ false) }
        ensures tables { conn.in_transaction ≡ false → IfErr result (λ e. HasCleanDisk (state S.Store e.1) → HasTablesOf (state S.Store conn) (state S.Store e.1)) }
    {
        match fill(&mut conn, external) {
            Ok(()) => Ok(SqlKeeper::over(alloc, conn)),
            Err(refusal) => Err((refusal, conn)),
        }
    }

    /// Makes sure that the connection is open, where a failure may have shut it: no clause says what a crash
    /// leaves after a read of a connection that is shut. After a failure nothing is known.
    ///
    /// `Memory` where the store wanted memory. `Device` where it refused for another cause.
    fn check_open(&mut self) -> Result<(), Fault>
        ensures open { HasCleanDisk (state S.Store self.new.conn) → OnOk result (IsTrue (state S.Store self.new.conn).is_open) }
        ensures read { ReadsAs S.Store self.old self.new result }
        ensures crash { Survives (state S.Store self.old.conn) (state S.Store self.new.conn) (λ _. ⊥) }
    {
        if !self.blamed.is_doubted() {
            return Ok(());
        }
        self.known.forget();
        match refuse_shut(&mut self.conn) {
            Ok(()) => {
                self.blamed.trust();
                Ok(())
            }
            Err(error) => Err(self.blamed.blame(error)),
        }
    }
}

impl<S: Alter> Kept for SqlKeeper<S> {
    ghost use Rattle.std.proofs.Math.Logic.{∥∥₁_elim};
    ghost use Rattle.vault_core_laws.proofs.SoundProp.{Sound-prop};
    ghost use Rattle.vault_store.specs.VaultOf.{vault_of};

    ghost is_honest = { λ k. HasCleanDisk (state S.Store k.conn) };

    ghost vault = { λ k. vault_of S.Store k };

    ghost count = { λ k. k.blamed.faults };

    ghost sound = { λ k honest. ∥∥₁_elim k.kept (Sound-prop _) (λ kept. (kept honest).sound) };
}

impl<S: Alter> Keeper for SqlKeeper<S> {
    ghost use Rattle.vault_core_model.specs.Handing.{Hands};
    ghost use Rattle.vault_core_model.specs.Reads.{buckets_after, content_of, entries_of, entry_of, head_of, ids_before, keys_after, removed_entries, setting_of, settings_of, tenures_of};
    ghost use Rattle.vault_core_model.specs.Totals.{IsRowFor, bucket_bytes, bucket_weight};
    ghost use Rattle.vault_core_model.specs.Vault.{caller_of, config_of, has_department, next_id, note_of, rules_of};
    ghost use Rattle.vault_store.specs.ReadsAs.{ReadsAs, stands};
    ghost use Rattle.vault_store.specs.VaultOf.{vault_of};

    fn faults(&self) -> u64 {
        self.blamed.faults()
    }

    fn last(&mut self) -> Result<Moment, Fault>
        ensures value { HasCleanDisk (state S.Store self.new.conn) → IfOk result (λ at. at ≡ (vault_of S.Store self.old).last) }
        ensures read { ReadsAs S.Store self.old self.new result }
    {
        self.check_open()?;
        match find_meta(&mut self.conn, &mut self.known) {
            Ok(found) => Ok(found.last),
            Err(error) => Err(self.blamed.blame(error)),
        }
    }

    fn next_id(&mut self) -> Result<u64, Fault>
        ensures value { HasCleanDisk (state S.Store self.new.conn) → IfOk result (λ id. id ≡ next_id (vault_of S.Store self.old)) }
        ensures read { ReadsAs S.Store self.old self.new result }
    {
        self.check_open()?;
        match find_meta(&mut self.conn, &mut self.known) {
            Ok(found) => Ok(found.next),
            Err(error) => Err(self.blamed.blame(error)),
        }
    }

    fn caller(&mut self, name: &CallerName) -> Result<Option<Caller>, Fault>
        ensures value { HasCleanDisk (state S.Store self.new.conn) → IfOk result (λ found. found ≡ caller_of (vault_of S.Store self.old) name.now) }
        ensures read { ReadsAs S.Store self.old self.new result }
    {
        self.check_open()?;
        match read_caller(&mut self.conn, name) {
            Ok(found) => Ok(found),
            Err(error) => Err(self.blamed.blame(error)),
        }
    }

    fn dept(&mut self, name: &DeptName) -> Result<bool, Fault>
        ensures value { HasCleanDisk (state S.Store self.new.conn) → IfOk result (λ found. found ≡ has_department (vault_of S.Store self.old) name.now) }
        ensures read { ReadsAs S.Store self.old self.new result }
    {
        self.check_open()?;
        match has_department(&mut self.conn, name) {
            Ok(found) => Ok(found),
            Err(error) => Err(self.blamed.blame(error)),
        }
    }

    fn bucket(&mut self, name: &BucketName) -> Result<Option<BucketConfig>, Fault>
        ensures value { HasCleanDisk (state S.Store self.new.conn) → IfOk result (λ found. found ≡ config_of (vault_of S.Store self.old) name.now) }
        ensures read { ReadsAs S.Store self.old self.new result }
    {
        self.check_open()?;
        match find_bucket(&mut self.conn, &mut self.known, name) {
            Ok(found) => Ok(found),
            Err(error) => Err(self.blamed.blame(error)),
        }
    }

    fn rules(&mut self, bucket: &BucketName) -> Result<Option<RuleSet>, Fault>
        ensures value { HasCleanDisk (state S.Store self.new.conn) → IfOk result (λ found. found ≡ rules_of (vault_of S.Store self.old) bucket.now) }
        ensures read { ReadsAs S.Store self.old self.new result }
    {
        self.check_open()?;
        match read_rules(&mut self.conn, self.alloc, bucket) {
            Ok(found) => Ok(found),
            Err(error) => Err(self.blamed.blame(error)),
        }
    }

    fn head(&mut self, bucket: &BucketName, key: &ObjectKey) -> Result<Option<Head>, Fault>
        ensures value { HasCleanDisk (state S.Store self.new.conn) → IfOk result (λ found. found ≡ head_of (vault_of S.Store self.old) bucket.now key.now) }
        ensures read { ReadsAs S.Store self.old self.new result }
    {
        self.check_open()?;
        match read_head(&mut self.conn, bucket, key) {
            Ok(found) => Ok(found),
            Err(error) => Err(self.blamed.blame(error)),
        }
    }

    fn entries(&mut self, bucket: &BucketName, key: &ObjectKey) -> Result<Vec<Held>, Fault>
        ensures value { HasCleanDisk (state S.Store self.new.conn) → IfOk result (λ held. held.items ≡ entries_of (vault_of S.Store self.old) bucket.now key.now) }
        ensures read { ReadsAs S.Store self.old self.new result }
    {
        self.check_open()?;
        match read_entries(&mut self.conn, self.alloc, bucket, key) {
            Ok(found) => Ok(found),
            Err(error) => Err(self.blamed.blame(error)),
        }
    }

    fn entry(&mut self, id: VersionId) -> Result<Option<Entry>, Fault>
        ensures value { HasCleanDisk (state S.Store self.new.conn) → IfOk result (λ found. found ≡ entry_of (vault_of S.Store self.old) id) }
        ensures read { ReadsAs S.Store self.old self.new result }
    {
        self.check_open()?;
        match read_entry(&mut self.conn, id) {
            Ok(found) => Ok(found),
            Err(error) => Err(self.blamed.blame(error)),
        }
    }

    fn setting(&mut self, id: VersionId) -> Result<Option<LastSetting>, Fault>
        ensures value { HasCleanDisk (state S.Store self.new.conn) → IfOk result (λ found. found ≡ setting_of (vault_of S.Store self.old) id) }
        ensures read { ReadsAs S.Store self.old self.new result }
    {
        self.check_open()?;
        match read_setting(&mut self.conn, id) {
            Ok(found) => Ok(found),
            Err(error) => Err(self.blamed.blame(error)),
        }
    }

    fn settings(&mut self, id: VersionId) -> Result<Settings, Fault>
        ensures value { HasCleanDisk (state S.Store self.new.conn) → IfOk result (λ found. found ≡ settings_of (vault_of S.Store self.old) id) }
        ensures read { ReadsAs S.Store self.old self.new result }
    {
        self.check_open()?;
        match read_settings(&mut self.conn, self.alloc, id) {
            Ok(found) => Ok(found),
            Err(error) => Err(self.blamed.blame(error)),
        }
    }

    fn external(&mut self) -> Result<bool, Fault>
        ensures value { HasCleanDisk (state S.Store self.new.conn) → IfOk result (λ external. external ≡ (vault_of S.Store self.old).external) }
        ensures read { ReadsAs S.Store self.old self.new result }
    {
        self.check_open()?;
        match find_external(&mut self.conn, &mut self.known) {
            Ok(found) => Ok(found),
            Err(error) => Err(self.blamed.blame(error)),
        }
    }

    fn content(&mut self, id: VersionId) -> Result<Option<Content>, Fault>
        ensures value { HasCleanDisk (state S.Store self.new.conn) → IfOk result (λ found. found ≡ content_of (vault_of S.Store self.old) id) }
        ensures read { ReadsAs S.Store self.old self.new result }
    {
        self.check_open()?;
        match read_content(&mut self.conn, id) {
            Ok(found) => Ok(found),
            Err(error) => Err(self.blamed.blame(error)),
        }
    }

    fn keys(
        &mut self,
        bucket: &BucketName,
        after: &KeyPrefix,
        most: u32,
    ) -> Result<Vec<ObjectKey>, Fault>
        ensures value { HasCleanDisk (state S.Store self.new.conn) → IfOk result (λ keys. keys.items ≡ keys_after (vault_of S.Store self.old) bucket.now after.now most) }
        ensures read { ReadsAs S.Store self.old self.new result }
    {
        self.check_open()?;
        match read_keys(&mut self.conn, self.alloc, bucket, after, most) {
            Ok(found) => Ok(found),
            Err(error) => Err(self.blamed.blame(error)),
        }
    }

    fn ids(
        &mut self,
        bucket: &BucketName,
        key: &ObjectKey,
        than: Option<VersionId>,
        most: u32,
    ) -> Result<Vec<VersionId>, Fault>
        ensures value { HasCleanDisk (state S.Store self.new.conn) → IfOk result (λ ids. ids.items ≡ ids_before (vault_of S.Store self.old) bucket.now key.now than most) }
        ensures read { ReadsAs S.Store self.old self.new result }
    {
        self.check_open()?;
        match read_ids(&mut self.conn, self.alloc, bucket, key, than, most) {
            Ok(found) => Ok(found),
            Err(error) => Err(self.blamed.blame(error)),
        }
    }

    fn buckets(&mut self, after: &str, most: u32) -> Result<Vec<BucketName>, Fault>
        ensures value { HasCleanDisk (state S.Store self.new.conn) → IfOk result (λ names. names.items ≡ buckets_after (vault_of S.Store self.old) after.now most) }
        ensures read { ReadsAs S.Store self.old self.new result }
    {
        self.check_open()?;
        match read_buckets(&mut self.conn, self.alloc, after, most) {
            Ok(found) => Ok(found),
            Err(error) => Err(self.blamed.blame(error)),
        }
    }

    fn note(
        &mut self,
        bucket: &BucketName,
        batch: &BatchName,
        line: u32,
    ) -> Result<Option<Note>, Fault>
        ensures value { HasCleanDisk (state S.Store self.new.conn) → IfOk result (λ found. found ≡ note_of (vault_of S.Store self.old) bucket.now batch.now line) }
        ensures read { ReadsAs S.Store self.old self.new result }
    {
        self.check_open()?;
        match read_note(&mut self.conn, bucket, batch, line) {
            Ok(found) => Ok(found),
            Err(error) => Err(self.blamed.blame(error)),
        }
    }

    fn walk_removed<T: Sink>(&mut self, sink: &mut T) -> Result<bool, Fault>
        ensures value { HasCleanDisk (state S.Store self.new.conn) → Hands T.takes sink.old (removed_entries (vault_of S.Store self.old)) result sink.new }
        ensures read { ReadsAs S.Store self.old self.new result }
    {
        self.check_open()?;
        match walk_removed(&mut self.conn, sink) {
            Ok(found) => Ok(found),
            Err(error) => Err(self.blamed.blame(error)),
        }
    }

    fn moves(&mut self) -> Result<u32, Fault>
        ensures value { HasCleanDisk (state S.Store self.new.conn) → IfOk result (λ made. made ≡ (vault_of S.Store self.old).moves) }
        ensures read { ReadsAs S.Store self.old self.new result }
    {
        self.check_open()?;
        match find_moves(&mut self.conn, &self.known) {
            Ok(found) => Ok(found),
            Err(error) => Err(self.blamed.blame(error)),
        }
    }

    fn tenures(&mut self, id: VersionId) -> Result<Tenures, Fault>
        ensures value { HasCleanDisk (state S.Store self.new.conn) → IfOk result (λ found. found ≡ tenures_of (vault_of S.Store self.old) id) }
        ensures read { ReadsAs S.Store self.old self.new result }
    {
        self.check_open()?;
        match read_tenures(&mut self.conn, self.alloc, id) {
            Ok(found) => Ok(found),
            Err(error) => Err(self.blamed.blame(error)),
        }
    }

    fn bucket_held(&mut self, bucket: &BucketName) -> Result<(u64, u64), Fault>
        ensures value { HasCleanDisk (state S.Store self.new.conn)
            → IfOk result (λ held. (held.0 ≡ bucket_bytes (vault_of S.Store self.old) bucket.now) × (held.1 ≡ bucket_weight (vault_of S.Store self.old) bucket.now)) }
        ensures read { ReadsAs S.Store self.old self.new result }
    {
        self.check_open()?;
        match find_held(&mut self.conn, &mut self.known, bucket) {
            Ok(found) => Ok(found),
            Err(error) => Err(self.blamed.blame(error)),
        }
    }

    fn totals(&mut self, dept: &DeptName) -> Result<Row, Fault>
        ensures value { HasCleanDisk (state S.Store self.new.conn) → IfOk result (λ row. IsRowFor (vault_of S.Store self.old) dept.now row) }
        ensures read { ReadsAs S.Store self.old self.new result }
    {
        self.check_open()?;
        match find_sums(&mut self.conn, &mut self.known, dept) {
            Ok(found) => Ok(found),
            Err(error) => Err(self.blamed.blame(error)),
        }
    }

    fn apply(&mut self, at: Moment, change: &Change) -> Result<(), Fault>
        requires in_time { HasCleanDisk (state S.Store self.old.conn) → (vault_of S.Store self.old).last ≤ at }
        requires allowed { HasCleanDisk (state S.Store self.old.conn) → Allows (vault_of S.Store self.old) at change.now }
        ensures ok { OnOk result (vault_of S.Store self.new ≡ changed (vault_of S.Store self.old) at change.now) }
        ensures err { OnErr result (vault_of S.Store self.new ≡ vault_of S.Store self.old) }
        ensures leaves { IsLeft (stands S.Store self.old) (stands S.Store self.new) (is_device_given result) }
        // Which changes were refused since the last one that was made.
        ensures forgotten { OnOk result (self.new.refused.items ≡ []) }
        ensures refused { OnErr result (self.new.refused.items ≡ self.old.refused.items ++ (at, change.now) ∷ []) }
        // A crash leaves what it could leave before, or the vault with the change; once that is acknowledged, this vault alone.
        ensures crash { HasCleanDisk (state S.Store self.new.conn) → ∥ MayLeave S.Store self.old.conn self.new.conn (changed (vault_of S.Store self.old) at change.now) ∥₁ }
        ensures alone { HasCleanDisk (state S.Store self.new.conn) → OnOk result (∥ LeavesAlone (state S.Store self.new.conn) (vault_of S.Store self.new) ∥₁) }
        ensures open { HasCleanDisk (state S.Store self.new.conn) → OnOk result (IsTrue (state S.Store self.new.conn).is_open) }
    {
        match self.check_open() {
            Ok(()) => {}
            Err(fault) => {
                let refused = self.refused.and(&at, change);
                self.refused = refused;
                return Err(fault);
            }
        }
        match apply_change(&mut self.conn, &self.known, at, change) {
            Ok(()) => {
                self.known.follow(at, change);
                self.made = self.made.and(&at, change);
                self.refused = Log::new();
                self.blamed.trust();
                Ok(())
            }
            Err(error) => {
                self.refused = self.refused.and(&at, change);
                Err(self.blamed.blame(error))
            }
        }
    }
}
