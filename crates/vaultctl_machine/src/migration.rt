//! Vaults of an earlier schema version than the copy's, copied into new files.
ghost use Rattle.std.specs.Prelude.{◌≡◌, ◌≢◌, ◌∷◌, ◌++◌, [], true, false, IfOk, IfErr, OnOk, OnErr};
ghost use Rattle.sqlite.specs.Files.{file_state, over_files, IsOpened};
ghost use Rattle.sqlite.specs.Held.{state};
ghost use Rattle.sqlite.specs.Start.{FindsIn};
ghost use Rattle.sqlite.specs.State.{HasCleanDisk};
ghost use Rattle.sqlite_wal.specs.Files.{image_at};
ghost use Rattle.vault_audit.specs.Health.{IsHealthy};
ghost use Rattle.vault_audit_model.specs.declared.schema.SchemaVersion.{SchemaVersion as AnyVersion};
ghost use Rattle.vault_audit_model.specs.SchemaVersions.{is_external};
ghost use Rattle.vault_audit_model.specs.Spells.{AreSound, AreSoundAs};
ghost use Rattle.vault_base.specs.declared.refusal.Table.{Table};
ghost use Rattle.vault_core_model.specs.Vault.{Vault};
ghost use Rattle.vault_store.specs.Copied.{registering};
ghost use Rattle.vault_store.specs.Kept.{StandsFor};
ghost use Rattle.vault_store.specs.Migrated.{RefusesItsRow};
ghost use Rattle.vault_store.specs.VaultOf.{vault_of};
ghost use Rattle.vaultctl_machine.specs.Closings.{Closes};
ghost use Rattle.vaultctl_machine.specs.Faults.{ReportsFailure, refusal_of};
ghost use Rattle.vaultctl_machine.specs.Files.{AreSoundEarlier, IsCopiedFrom, IsHeldAs};
ghost use Rattle.vaultctl_machine.specs.VaultCounts.{with_copied};
ghost use Rattle.vaultctl_machine.specs.Places.{after_a_look};
ghost use Rattle.vaultctl_machine.specs.Refusals.{FailsForItsRow, IsUncopied, IsUncopiedFrom, LetsBothGo, LetsGo, RefusesItsRowEarlier, Reports};

use crate::looks::{is_one_file, looked_at};
use crate::open_error::OpenError;
use crate::schema_versions::{schema_version_of, why_uncopied};
use crate::starts::Starts;
use crate::vaults::{
    FileVault, Machine, VaultStore, close_keeper, connect_new, connect_there, let_go, refused,
    site_for_new, site_there,
};
use http_server::Log;
use sqlite::{Alter, Connection, Start};
use std::alloc::Global;
use vault_audit_model::schema::SchemaVersion;
use vault_base::refusal::Refusal;
use vault_store::sql_keeper::SqlKeeper;
use vaultctl_machine_stores::cause::Cause;
use vaultctl_machine_stores::connect::Opened;
use vaultctl_machine_stores::site::Site;

/// A copy that is to be made: of the vault in one file, into another.
#[derive(Clone, Copy)]
pub struct Copying<'a> {
    /// The path of the file of an earlier schema version than the copy's.
    pub old: &'a str,
    /// The path of the file that gets the copy.
    pub new: &'a str,
    /// The copy registers contents that are kept outside.
    pub external: bool,
}

/// The files of a copy.
#[derive(Clone, Copy)]
struct Sites<'s, 'a> {
    old: &'s Site<'a>,
    new: &'s Site<'a>,
}

/// A vault that was copied, and the files that it was copied from, which nobody else has before it is closed.
pub struct Migrated<O: Alter, S: Alter> {
    source: Connection<O>,
    vault: SqlKeeper<S>,
}

/// What came of copying the vault of one connection into another.
struct Copied<O: Alter, S: Alter> {
    source: Connection<O>,
    outcome: Result<SqlKeeper<S>, (Refusal, Connection<S>)>,
}

/// Copies the vault of one connection, whose tables are of that schema version, into another, over any stores. The copy
/// registers contents that are kept outside, or doesn't.
///
/// The errors are those of `SqlKeeper::migrate`.
fn copy<O: Alter, S: Alter>(
    alloc: Global,
    source: Connection<O>,
    schema_version: SchemaVersion,
    new: Connection<S>,
    external: bool,
) -> Copied<O, S>
    requires { is_external schema_version ≡ false }
    ensures clean { HasCleanDisk (state O.Store result.source) → HasCleanDisk (state O.Store source) }
    ensures clean_new { IfErr result.outcome (λ e. HasCleanDisk (state S.Store e.1) → HasCleanDisk (state S.Store new)) }
    ensures reported { IfErr result.outcome (λ e. IsUncopied e.0) }
    // The vault of the keeper is the copy of the one that the tables spell which were found, and the new ones spell it.
    ensures found { IfOk result.outcome (λ k. HasCleanDisk (state O.Store result.source) → HasCleanDisk (state S.Store k.conn)
        → (v : Vault) × AreSoundAs schema_version (state O.Store source).now v × (vault_of S.Store k ≡ registering external v)) }
    ensures sound { IfOk result.outcome (λ k. HasCleanDisk (state S.Store k.conn) → AreSound (state S.Store k.conn).now (vault_of S.Store k)) }
    ensures damaged { IfErr result.outcome (λ e. HasCleanDisk (state O.Store result.source) → (t : Table) → e.0 ≡ Refusal.Damaged t →
        (v : Vault) → ¬ AreSoundAs schema_version (state O.Store source).now v) }
    // Two stores that work are reported as failed only where the tables of the copy refuse a row.
    ensures refused { source.in_transaction ≡ false → new.in_transaction ≡ false
        → IfErr result.outcome (λ e. IsHealthy (state O.Store result.source) → IsHealthy (state S.Store e.1) → e.0 ≡ Refusal.Device → RefusesItsRow schema_version external (state O.Store source).now) }
{
    let mut source = source;
    let outcome = SqlKeeper::migrate(alloc, &mut source, schema_version, new, external);
    Copied { source, outcome }
}

/// The same of tables of one of the earlier schema versions, which their tables and columns say.
fn copy_earlier<O: Alter, S: Alter>(
    alloc: Global,
    source: Connection<O>,
    new: Connection<S>,
    external: bool,
) -> Copied<O, S>
    ensures clean { HasCleanDisk (state O.Store result.source) → HasCleanDisk (state O.Store source) }
    ensures clean_new { IfErr result.outcome (λ e. HasCleanDisk (state S.Store e.1) → HasCleanDisk (state S.Store new)) }
    ensures reported { IfErr result.outcome (λ e. IsUncopied e.0) }
    ensures found { IfOk result.outcome (λ k. HasCleanDisk (state O.Store result.source) → HasCleanDisk (state S.Store k.conn)
        → (v : Vault) × AreSoundEarlier external (state O.Store source).now v × (vault_of S.Store k ≡ registering external v)) }
    ensures sound { IfOk result.outcome (λ k. HasCleanDisk (state S.Store k.conn) → AreSound (state S.Store k.conn).now (vault_of S.Store k)) }
    // Tables that are sound as those of one of these are never reported as damaged.
    ensures undamaged { (v : Vault) → AreSoundEarlier external (state O.Store source).now v
        → IfErr result.outcome (λ e. HasCleanDisk (state O.Store result.source) → (t : Table) → e.0 ≢ Refusal.Damaged t) }
    ensures refused { source.in_transaction ≡ false → new.in_transaction ≡ false
        → IfErr result.outcome (λ e. IsHealthy (state O.Store result.source) → IsHealthy (state S.Store e.1) → e.0 ≡ Refusal.Device → RefusesItsRowEarlier external (state O.Store source).now) }
{
    let schema_version = schema_version_of(source.schema(), external);
    copy(alloc, source, schema_version, new, external)
}

/// The same into a file. Each function names one store of files alone: to name both at once takes more steps than the
/// prover has for a function.
fn copy_to_file<O: Alter, B: Start>(
    alloc: Global,
    source: Connection<O>,
    new: Connection<VaultStore<B>>,
    external: bool,
) -> Copied<O, VaultStore<B>>
    ensures clean { HasCleanDisk (state O.Store result.source) → HasCleanDisk (state O.Store source) }
    ensures clean_new { IfErr result.outcome (λ e. HasCleanDisk (file_state e.1) → HasCleanDisk (file_state new)) }
    ensures reported { IfErr result.outcome (λ e. IsUncopied e.0) }
    ensures found { IfOk result.outcome (λ k. HasCleanDisk (state O.Store result.source) → HasCleanDisk (file_state k.conn)
        → (v : Vault) × AreSoundEarlier external (state O.Store source).now v × (vault_of over_files k ≡ registering external v)) }
    ensures sound { IfOk result.outcome (λ k. HasCleanDisk (file_state k.conn) → AreSound (file_state k.conn).now (vault_of over_files k)) }
    ensures undamaged { (v : Vault) → AreSoundEarlier external (state O.Store source).now v
        → IfErr result.outcome (λ e. HasCleanDisk (state O.Store result.source) → (t : Table) → e.0 ≢ Refusal.Damaged t) }
    ensures refused { source.in_transaction ≡ false → new.in_transaction ≡ false
        → IfErr result.outcome (λ e. IsHealthy (state O.Store result.source) → IsHealthy (file_state e.1) → e.0 ≡ Refusal.Device → RefusesItsRowEarlier external (state O.Store source).now) }
{
    copy_earlier(alloc, source, new, external)
}

/// The same from a file.
fn copy_file<A: Start, B: Start>(
    alloc: Global,
    source: Connection<VaultStore<A>>,
    new: Connection<VaultStore<B>>,
    external: bool,
) -> Copied<VaultStore<A>, VaultStore<B>>
    ensures clean { HasCleanDisk (file_state result.source) → HasCleanDisk (file_state source) }
    ensures clean_new { IfErr result.outcome (λ e. HasCleanDisk (file_state e.1) → HasCleanDisk (file_state new)) }
    ensures reported { IfErr result.outcome (λ e. IsUncopied e.0) }
    ensures found { IfOk result.outcome (λ k. HasCleanDisk (file_state result.source) → HasCleanDisk (file_state k.conn)
        → (v : Vault) × AreSoundEarlier external (file_state source).now v × (vault_of over_files k ≡ registering external v)) }
    ensures sound { IfOk result.outcome (λ k. HasCleanDisk (file_state k.conn) → AreSound (file_state k.conn).now (vault_of over_files k)) }
    ensures undamaged { (v : Vault) → AreSoundEarlier external (file_state source).now v
        → IfErr result.outcome (λ e. HasCleanDisk (file_state result.source) → (t : Table) → e.0 ≢ Refusal.Damaged t) }
    ensures refused { source.in_transaction ≡ false → new.in_transaction ≡ false
        → IfErr result.outcome (λ e. IsHealthy (file_state result.source) → IsHealthy (file_state e.1) → e.0 ≡ Refusal.Device → RefusesItsRowEarlier external (file_state source).now) }
{
    copy_to_file(alloc, source, new, external)
}

/// Copies the vault of a connection that was opened just now into another. Where that is refused, all files are as they
/// were.
///
/// The errors are those of `SqlKeeper::migrate`.
fn copy_into<A: Start, B: Start>(
    lost: &mut Log<Connection<VaultStore<A>>, bool>,
    uncopied: &mut Log<Connection<VaultStore<B>>, bool>,
    sites: Sites<'_, '_>,
    found: Opened<VaultStore<A>>,
    empty: Opened<VaultStore<B>>,
    external: bool,
) -> Result<Migrated<VaultStore<A>, VaultStore<B>>, OpenError>
    requires opened { HasCleanDisk (file_state found.conn) → IsOpened found.conn }
    requires found { HasCleanDisk (file_state found.conn) → FindsIn (image_at A.Start) (file_state found.conn) }
    requires opened_new { HasCleanDisk (file_state empty.conn) → IsOpened empty.conn }
    ensures sound { IfOk result (λ m. HasCleanDisk (file_state m.vault.conn) → AreSound (file_state m.vault.conn).now (vault_of over_files m.vault)) }
    ensures found { IfOk result (λ m. HasCleanDisk (file_state m.source) → HasCleanDisk (file_state m.vault.conn)
        → IsCopiedFrom external (image_at A.Start) (vault_of over_files m.vault)) }
    ensures held { (n : AnyVersion) (v : Vault) → IsHeldAs n (image_at A.Start) v → IfOk result (λ m. HasCleanDisk (file_state m.source) → HasCleanDisk (file_state m.vault.conn)
        → vault_of over_files m.vault ≡ registering external v) }
    ensures reported { IfErr result (Reports IsUncopied) }
    ensures lost { IfErr result (λ e. Closes lost.old.items lost.new.items (λ conn. IsUncopiedFrom external (image_at A.Start) (file_state conn) (refusal_of e))) }
    ensures healthy { IfErr result (λ e. LetsBothGo lost.old.items lost.new.items uncopied.old.items uncopied.new.items
        (λ source target. FailsForItsRow external (image_at A.Start) (file_state source) (file_state target) (refusal_of e))) }
    ensures kept { OnOk result ((lost.new ≡ lost.old) × (uncopied.new ≡ uncopied.old)) }
{
    let Opened {
        conn,
        before,
        opening: _opening,
    } = found;
    let Opened {
        conn: target,
        before: new_before,
        opening: _,
    } = empty;
    let Copied { source, outcome } = copy_file(sites.old.runtime().alloc(), conn, target, external);
    match outcome {
        Ok(vault) => Ok(Migrated { source, vault }),
        Err((refusal, target)) => {
            let unsound = why_uncopied(source.schema(), external);
            let _ = let_go(lost, sites.old, source, &before);
            let had_no_room = let_go(uncopied, sites.new, target, &new_before);
            Err(refused(refusal, unsound, had_no_room))
        }
    }
}

/// Lets go of a connection that was opened, as `let_go` does.
fn let_opened_go<S: Start>(
    refused: &mut Log<Connection<VaultStore<S>>, bool>,
    site: &Site<'_>,
    opened: Opened<VaultStore<S>>,
)
    ensures { refused.new.items ≡ refused.old.items ++ (opened.conn, true) ∷ [] }
{
    let Opened {
        conn,
        before,
        opening: _,
    } = opened;
    let _ = let_go(refused, site, conn, &before);
}

/// Why the file that is to get a copy isn't opened or made. That another program has it is reported as `Device`.
fn create_error(rt: &HostRuntime, old: &str, new: &str, cause: OpenError) -> OpenError
    ensures refusal { refusal_of result ≡ refusal_of cause }
    ensures failure { ReportsFailure cause → ReportsFailure result }
{
    match cause {
        OpenError::InUse if is_one_file(rt, old, new) => OpenError::Seen(
            Cause::SameFile,
            Refusal::Device,
        ),
        OpenError::InUse => OpenError::Seen(Cause::NewHeld, Refusal::Device),
        other => looked_at(rt, new, other),
    }
}

/// Copies the vault in the files at one path into those at another.
///
/// The errors are those of `Machine::migrate`.
fn copy_at<A: Start, B: Start>(
    lost: &mut Log<Connection<VaultStore<A>>, bool>,
    uncopied: &mut Log<Connection<VaultStore<B>>, bool>,
    rt: &HostRuntime,
    copying: Copying<'_>,
    starts: Starts<A, B>,
) -> Result<Migrated<VaultStore<A>, VaultStore<B>>, OpenError>
    ensures sound { IfOk result (λ m. HasCleanDisk (file_state m.vault.conn) → AreSound (file_state m.vault.conn).now (vault_of over_files m.vault)) }
    ensures found { IfOk result (λ m. HasCleanDisk (file_state m.source) → HasCleanDisk (file_state m.vault.conn)
        → IsCopiedFrom copying.entry.external (image_at A.Start) (vault_of over_files m.vault)) }
    ensures held { (n : AnyVersion) (v : Vault) → IsHeldAs n (image_at A.Start) v → IfOk result (λ m. HasCleanDisk (file_state m.source) → HasCleanDisk (file_state m.vault.conn)
        → vault_of over_files m.vault ≡ registering copying.entry.external v) }
    ensures reported { IfErr result (Reports IsUncopied) }
    ensures lost { IfErr result (λ e. LetsGo lost.old.items lost.new.items (λ conn. IsUncopiedFrom copying.entry.external (image_at A.Start) (file_state conn) (refusal_of e))) }
    ensures healthy { IfErr result (λ e. LetsBothGo lost.old.items lost.new.items uncopied.old.items uncopied.new.items
        (λ source target. FailsForItsRow copying.entry.external (image_at A.Start) (file_state source) (file_state target) (refusal_of e))) }
    ensures kept { OnOk result ((lost.new ≡ lost.old) × (uncopied.new ≡ uncopied.old)) }
{
    let Starts { first, second } = starts;
    let Copying { old, new, external } = copying;
    let target = match site_for_new(rt, new) {
        Ok(site) => site,
        Err(cause) => return Err(looked_at(rt, new, cause)),
    };
    let origin = match site_there(rt, old) {
        Ok(site) => site,
        Err(cause) => return Err(looked_at(rt, old, cause)),
    };
    let found = match connect_there(&origin, first) {
        Ok(found) => found,
        Err(cause) => return Err(looked_at(rt, old, cause)),
    };
    match connect_new(&target, second) {
        Ok(empty) => {
            let sites = Sites {
                old: &origin,
                new: &target,
            };
            copy_into(lost, uncopied, sites, found, empty, external)
        }
        Err(cause) => {
            let_opened_go(lost, &origin, found);
            Err(create_error(rt, old, new, cause))
        }
    }
}

impl<'a, A: Start, B: Start> Machine<'a, VaultStore<A>, VaultStore<B>> {
    /// Copies the vault in a file of the first or the second schema version, at `old`, into a file at `new` that isn't there, is
    /// empty, or is a store without a table. The copy may register contents that are kept outside; then the file may also be
    /// of the third schema version. `starts` is what the two files and their logs hold.
    ///
    /// `Damaged` with the first table at `old` that isn't sound; with `meta` where no file is there, or where it is empty, of no
    /// schema version before the copy's, or no store of tables whose rows keep its own schema. `NameTaken` where something is in the file at
    /// `new`, or changes may be in the log beside it. `Memory` where memory was refused. `InUse` where another program has
    /// the file at `old`. `Device` where a file can't be read or made, where somebody has the one at `new`, and where
    /// both are one file. With each of the errors the files are as they were, but for an
    /// empty one that was made at `new` and couldn't be opened. With a copy the file at `old` isn't changed; beside it a log
    /// without a change may be left.
    pub fn migrate(
        &mut self,
        copying: Copying<'_>,
        starts: Starts<A, B>,
    ) -> Result<Migrated<VaultStore<A>, VaultStore<B>>, OpenError>
        // It is counted just where there is a copy.
        ensures counted { OnOk result (self.new ≡ record self.old { looked = after_a_look self.old.looked; given = with_copied self.old.given }) }
        ensures uncounted { OnErr result (self.new ≡ record self.old { looked = after_a_look self.old.looked; refused = self.new.refused; uncopied = self.new.uncopied }) }
        ensures sound { IfOk result (λ m. HasCleanDisk (file_state m.vault.conn) → AreSound (file_state m.vault.conn).now (vault_of over_files m.vault)) }
        // It is the copy of the vault that the tables spell which were found in the old files.
        ensures found { IfOk result (λ m. HasCleanDisk (file_state m.source) → HasCleanDisk (file_state m.vault.conn)
            → IsCopiedFrom copying.entry.external (image_at A.Start) (vault_of over_files m.vault)) }
        // Where these held a vault, it is the copy of that one.
        ensures held { (n : AnyVersion) (v : Vault) → IsHeldAs n (image_at A.Start) v → IfOk result (λ m. HasCleanDisk (file_state m.source) → HasCleanDisk (file_state m.vault.conn)
            → vault_of over_files m.vault ≡ registering copying.entry.external v) }
        // A failure of the disk that is seen is reported as one.
        ensures reported { IfErr result (Reports IsUncopied) }
        // Files that hold a sound vault of an earlier schema version aren't reported as damaged.
        ensures refused { IfErr result (λ e. LetsGo self.old.refused.items self.new.refused.items (λ conn. IsUncopiedFrom copying.entry.external (image_at A.Start) (file_state conn) (refusal_of e))) }
        // Two stores that work are reported as a failed device only where the tables of the copy refuse a row of the vault.
        ensures healthy { IfErr result (λ e. LetsBothGo self.old.refused.items self.new.refused.items self.old.uncopied.items self.new.uncopied.items
            (λ source target. FailsForItsRow copying.entry.external (image_at A.Start) (file_state source) (file_state target) (refusal_of e))) }
    {
        self.looked = self.looked.saturating_add(1);
        let rt = self.rt;
        match copy_at(&mut self.refused, &mut self.uncopied, rt, copying, starts) {
            Ok(migrated) => {
                self.given = self.given.with_copied();
                Ok(migrated)
            }
            Err(cause) => Err(cause),
        }
    }

    /// Lets go of the connection to the files that were copied, and writes nothing more there.
    fn let_go_of_source(&mut self, source: Connection<VaultStore<A>>)
        ensures closed { self.new.closed.items ≡ self.old.closed.items ++ (source, true) ∷ [] }
        ensures looked { self.new.looked ≡ self.old.looked }
        ensures given { self.new.given ≡ self.old.given }
        ensures copies { self.new.copies ≡ self.old.copies }
        ensures refused { self.new.refused ≡ self.old.refused }
        ensures uncopied { self.new.uncopied ≡ self.old.uncopied }
    {
        self.closed = self.closed.and(&source, &true);
        drop(source.into_store().close());
    }

    /// Closes a copy as `close` does the first vault.
    fn close_copy(&mut self, vault: FileVault<B>)
        ensures copies { self.new.copies.items ≡ self.old.copies.items ++ (vault.conn, true) ∷ [] }
        ensures stands { ∥ (HasCleanDisk (file_state vault.conn) → StandsFor (file_state vault.conn) (vault_of over_files vault)) ∥₁ }
        ensures looked { self.new.looked ≡ self.old.looked }
        ensures given { self.new.given ≡ self.old.given }
        ensures closed { self.new.closed.items ≡ self.old.closed.items }
        ensures refused { self.new.refused ≡ self.old.refused }
        ensures uncopied { self.new.uncopied ≡ self.old.uncopied }
    {
        drop(close_keeper(&mut self.copies, vault));
    }

    /// Closes a vault that was copied, and leaves the files that it was copied from as they are.
    pub fn close_migrated(&mut self, migrated: Migrated<VaultStore<A>, VaultStore<B>>)
        // Both connections are remembered.
        ensures closed { self.new.closed.items ≡ self.old.closed.items ++ (migrated.source, true) ∷ [] }
        ensures copies { self.new.copies.items ≡ self.old.copies.items ++ (migrated.vault.conn, true) ∷ [] }
        ensures stands { ∥ (HasCleanDisk (file_state migrated.vault.conn) → StandsFor (file_state migrated.vault.conn) (vault_of over_files migrated.vault)) ∥₁ }
        ensures looked { self.new.looked ≡ self.old.looked }
        ensures given { self.new.given ≡ self.old.given }
        ensures refused { self.new.refused ≡ self.old.refused }
        ensures uncopied { self.new.uncopied ≡ self.old.uncopied }
    {
        let Migrated { source, vault } = migrated;
        self.close_copy(vault);
        self.let_go_of_source(source);
    }
}
