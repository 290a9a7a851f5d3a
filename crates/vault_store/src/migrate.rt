//! The vault of a file of an earlier schema version, copied into an empty store.
ghost use Rattle.std.specs.Prelude.{◌≡◌, ◌≢◌, ◌↔◌, [], false, IsTrue, IfOk, IfErr, IsErrAnd, OnOk, OnErr};
ghost use Rattle.sqlite.specs.Effect.{IsDatabase};
ghost use Rattle.sqlite.specs.Held.{state};
ghost use Rattle.sqlite.specs.State.{HasCleanDisk, IsRolledBack, IsUnchanged, Shows, Survives};
ghost use Rattle.vault_base.specs.declared.refusal.Table.{Table};
ghost use Rattle.vault_core_model.specs.Vault.{Vault};
ghost use Rattle.vault_audit.specs.Health.{IsHealthy};
ghost use Rattle.vault_audit.specs.Whole.{IsReported};
ghost use Rattle.vault_audit_model.specs.Faults.{refusal_of};
ghost use Rattle.vault_audit_model.specs.SchemaVersions.{edition_of, is_external};
ghost use Rattle.vault_audit_model.specs.Spells.{AreSound, AreSoundAs};
ghost use Rattle.vault_audit_model.specs.Tables.{no_schema};
ghost use Rattle.vault_store_apply.specs.Left.{LeavesAlone};
ghost use Rattle.vault_store_create.specs.Create.{IsFault};
ghost use Rattle.vault_store.specs.Kept.{IsSettled};
ghost use Rattle.vault_store.specs.Migrated.{IsMigrated, RefusesItsRow};
ghost use Rattle.vault_store_create.specs.Copied.{registering};
ghost use Rattle.vault_store.specs.Tables.{HasTablesOf, IsAtRest, IsUndone};
ghost use Rattle.vault_store.specs.VaultOf.{vault_of};

use crate::laws::connection_is_at_rest;
use crate::look::{end_transaction, look_as};
use crate::sql_keeper::SqlKeeper;
use sqlite::{Alter, Connection, Error};
use std::alloc::Global;
use vault_audit::audit;
use vault_audit_laws::connection::tables_obey_their_schema;
use vault_audit_model::faults::refusal_of;
use vault_audit_model::schema::SchemaVersion;
use vault_base::refusal::Refusal;
use vault_store_create::copy::begin::begin_copy;

/// Ends the transaction that is open, if there is one.
fn settle<S: Alter>(conn: &mut Connection<S>)
    ensures outside { HasCleanDisk (state S.Store conn.new) → conn.new.in_transaction ≡ false }
    ensures rest { HasCleanDisk (state S.Store conn.new) → IsAtRest (state S.Store conn.new) }
    ensures was_open { HasCleanDisk (state S.Store conn.new) → IsTrue (state S.Store conn.new).is_open → IsTrue (state S.Store conn.old).is_open }
    ensures crash { Survives (state S.Store conn.old) (state S.Store conn.new) (λ _. ⊥) }
{
    end_transaction(conn);
    connection_is_at_rest(conn);
}

/// Copies the vault of a file of that schema version into an empty store, inside a transaction that is left open.
/// Where it is refused, none is.
///
/// The errors are those of `migrate`.
fn take_copy<O: Alter, S: Alter>(
    alloc: Global,
    old: &mut Connection<O>,
    schema_version: SchemaVersion,
    new: &mut Connection<S>,
    external: bool,
) -> Result<(), Refusal>
    requires version { is_external schema_version ≡ false }
    requires old_outside { old.old.in_transaction ≡ false }
    requires outside { new.old.in_transaction ≡ false }
    ensures spelled { HasCleanDisk (state O.Store old.new) → OnOk result ((v : Vault) × AreSoundAs schema_version (state O.Store old.old).now v) }
    ensures copied { HasCleanDisk (state O.Store old.new) → HasCleanDisk (state S.Store new.new)
        → OnOk result ((v : Vault) → AreSoundAs schema_version (state O.Store old.old).now v → AreSound (state S.Store new.new).now (registering external v) × IsDatabase (state S.Store new.new).now) }
    ensures reported { IfErr result (λ r. r ≢ Refusal.NameTaken → IsReported r) }
    ensures damaged { IfErr result (λ r. HasCleanDisk (state O.Store old.new) → (t : Table) → r ≡ Refusal.Damaged t → (v : Vault) → ¬ AreSoundAs schema_version (state O.Store old.old).now v) }
    ensures free { OnOk result ((state S.Store new.old).now.schema ≡ no_schema) }
    ensures taken { IfErr result (λ r. r ≡ Refusal.NameTaken → (state S.Store new.old).now.schema ≢ no_schema) }
    ensures named { (state S.Store new.old).now.schema ≢ no_schema → IfErr result (λ r. IsHealthy (state O.Store old.new) → r ≢ Refusal.Device) }
    ensures unsound { ((v : Vault) → ¬ AreSoundAs schema_version (state O.Store old.old).now v) → IfErr result (λ r. IsHealthy (state O.Store old.new) → r ≢ Refusal.Device) }
    ensures refused { IfErr result (λ r. IsHealthy (state O.Store old.new) → IsHealthy (state S.Store new.new) → r ≡ Refusal.Device
        → RefusesItsRow schema_version external (state O.Store old.old).now) }
    ensures inside { HasCleanDisk (state O.Store old.new) → HasCleanDisk (state S.Store new.new) → OnOk result (IsTrue new.new.in_transaction) }
    ensures outside { OnErr result (HasCleanDisk (state S.Store new.new) → new.new.in_transaction ≡ false) }
    ensures crash { Survives (state S.Store new.old) (state S.Store new.new) (λ _. ⊥) }
    ensures old_outside { HasCleanDisk (state O.Store old.new) → old.new.in_transaction ≡ false }
    ensures old_tables { HasCleanDisk (state O.Store old.new) → HasTablesOf (state O.Store old.old) (state O.Store old.new) }
    ensures old_crash { Survives (state O.Store old.old) (state O.Store old.new) (λ _. ⊥) }
{
    match look_as(alloc, old, schema_version) {
        Ok(()) => {}
        Err(refusal) => return Err(refusal),
    }
    match begin_copy(alloc, old, new, schema_version, external) {
        Ok(()) => Ok(()),
        Err(refusal) => {
            // No clause of the copying says that it leaves none.
            end_transaction(new);
            settle(old);
            Err(refusal)
        }
    }
}

/// What is reported where a copy isn't kept: what isn't sound was read wrongly.
fn fault_of_copy(refusal: Refusal) -> Refusal
    ensures fault { IsFault result }
    ensures memory { (result ≡ Refusal.Memory) ↔ (refusal ≡ Refusal.Memory) }
{
    match refusal {
        Refusal::Memory => Refusal::Memory,
        _ => Refusal::Device,
    }
}

/// Looks at the tables of a copy inside a transaction, which is ended where they aren't sound.
///
/// `Memory` where the store wanted memory. `Device` where it refused for another cause, and where the tables
/// aren't sound.
fn look_at_copy<S: Alter>(
    alloc: Global,
    new: &mut Connection<S>,
    external: bool,
) -> Result<(), Refusal>
    ensures sound { HasCleanDisk (state S.Store new.new) → OnOk result ((v : Vault) × AreSound (state S.Store new.new).now v) }
    ensures same { HasCleanDisk (state S.Store new.new) → OnOk result (IsUnchanged (state S.Store new.old) (state S.Store new.new)) }
    ensures faults { IfErr result IsFault }
    ensures healthy { (v : Vault) → AreSoundAs (edition_of external) (state S.Store new.old).now v → IfErr result (λ r. IsHealthy (state S.Store new.new) → r ≢ Refusal.Device) }
    ensures outside { OnErr result (HasCleanDisk (state S.Store new.new) → new.new.in_transaction ≡ false) }
    ensures crash { Survives (state S.Store new.old) (state S.Store new.new) (λ _. ⊥) }
{
    let schema_version = SchemaVersion::of(external);
    match audit(alloc, new, schema_version) {
        Ok(()) => Ok(()),
        Err(refusal) => {
            end_transaction(new);
            Err(fault_of_copy(refusal))
        }
    }
}

/// Sends the statement that commits.
fn send_commit<S: Alter>(conn: &mut Connection<S>) -> Result<usize, Error>
    requires { IsTrue conn.old.in_transaction }
    ensures committed { HasCleanDisk (state S.Store conn.new) → OnOk result (Shows (state S.Store conn.old) (state S.Store conn.new) (state S.Store conn.old).now (state S.Store conn.old).now false) }
    ensures undone { HasCleanDisk (state S.Store conn.new) → OnErr result (IsRolledBack (state S.Store conn.old) (state S.Store conn.new)) }
    ensures memory { IfErr result (λ e. IsHealthy (state S.Store conn.new) → refusal_of e ≢ Refusal.Device) }
    ensures crash { Survives (state S.Store conn.old) (state S.Store conn.new) (λ trees. trees ≡ (state S.Store conn.old).now.trees) }
{
    conn.execute("COMMIT", &[])
}

/// Commits what a transaction wrote, which is ended in any case.
///
/// `Memory` where the store wanted memory. `Device` where it refused for another cause.
fn commit<S: Alter>(conn: &mut Connection<S>) -> Result<(), Refusal>
    ensures committed { HasCleanDisk (state S.Store conn.new) → OnOk result (IsTrue (state S.Store conn.new).is_open
        × ((state S.Store conn.new).now ≡ (state S.Store conn.old).now) × ((state S.Store conn.new).committed ≡ (state S.Store conn.new).now)) }
    ensures settled { OnOk result (conn.new.in_transaction ≡ false) }
    ensures faults { IfErr result IsFault }
    ensures healthy { IsTrue conn.old.in_transaction → IfErr result (λ r. IsHealthy (state S.Store conn.new) → r ≢ Refusal.Device) }
    ensures outside { conn.old.in_transaction ≡ false → result ≡ Err Refusal.Device }
    ensures undone { HasCleanDisk (state S.Store conn.new) → OnErr result (IsUndone (state S.Store conn.old) (state S.Store conn.new)) }
    ensures crash { Survives (state S.Store conn.old) (state S.Store conn.new) (λ trees. trees ≡ (state S.Store conn.old).now.trees) }
{
    if conn.is_autocommit() {
        return Err(Refusal::Device);
    }
    match send_commit(conn) {
        Ok(_) => {}
        Err(error) => return Err(refusal_of(error)),
    }
    if !conn.is_autocommit() {
        return Err(Refusal::Device);
    }
    Ok(())
}

/// Copies the vault of a file of that schema version into an empty store, by one transaction. Neither connection is
/// inside one.
///
/// The errors are those of `migrate`.
fn copy_vault<O: Alter, S: Alter>(
    alloc: Global,
    old: &mut Connection<O>,
    schema_version: SchemaVersion,
    new: &mut Connection<S>,
    external: bool,
) -> Result<(), Refusal>
    requires version { is_external schema_version ≡ false }
    requires old_outside { old.old.in_transaction ≡ false }
    requires outside { new.old.in_transaction ≡ false }
    ensures spelled { HasCleanDisk (state O.Store old.new) → OnOk result ((v : Vault) × AreSoundAs schema_version (state O.Store old.old).now v) }
    ensures copied { HasCleanDisk (state O.Store old.new) → HasCleanDisk (state S.Store new.new)
        → OnOk result ((v : Vault) → AreSoundAs schema_version (state O.Store old.old).now v → AreSound (state S.Store new.new).now (registering external v)) }
    ensures sound { HasCleanDisk (state S.Store new.new) → OnOk result (IsSettled (state S.Store new.new)) }
    ensures settled { OnOk result (new.new.in_transaction ≡ false) }
    ensures alone { HasCleanDisk (state S.Store new.new) → OnOk result ((v : Vault) → AreSound (state S.Store new.new).now v → LeavesAlone (state S.Store new.new) v) }
    ensures reported { IfErr result (λ r. r ≢ Refusal.NameTaken → IsReported r) }
    ensures damaged { IfErr result (λ r. HasCleanDisk (state O.Store old.new) → (t : Table) → r ≡ Refusal.Damaged t → (v : Vault) → ¬ AreSoundAs schema_version (state O.Store old.old).now v) }
    ensures free { OnOk result ((state S.Store new.old).now.schema ≡ no_schema) }
    ensures taken { IfErr result (λ r. r ≡ Refusal.NameTaken → (state S.Store new.old).now.schema ≢ no_schema) }
    ensures named { (state S.Store new.old).now.schema ≢ no_schema → IfErr result (λ r. IsHealthy (state O.Store old.new) → r ≢ Refusal.Device) }
    ensures unsound { ((v : Vault) → ¬ AreSoundAs schema_version (state O.Store old.old).now v) → IfErr result (λ r. IsHealthy (state O.Store old.new) → r ≢ Refusal.Device) }
    ensures refused { IfErr result (λ r. IsHealthy (state O.Store old.new) → IsHealthy (state S.Store new.new) → r ≡ Refusal.Device
        → RefusesItsRow schema_version external (state O.Store old.old).now) }
    ensures outside { OnErr result (HasCleanDisk (state S.Store new.new) → new.new.in_transaction ≡ false) }
    ensures tables { OnErr result (HasCleanDisk (state S.Store new.new) → HasTablesOf (state S.Store new.old) (state S.Store new.new)) }
    ensures crash { Survives (state S.Store new.old) (state S.Store new.new) (λ trees. HasCleanDisk (state O.Store old.new) → IsMigrated schema_version external (state O.Store old.old).now trees) }
    ensures old_outside { HasCleanDisk (state O.Store old.new) → old.new.in_transaction ≡ false }
    ensures old_tables { HasCleanDisk (state O.Store old.new) → HasTablesOf (state O.Store old.old) (state O.Store old.new) }
    ensures old_crash { Survives (state O.Store old.old) (state O.Store old.new) (λ _. ⊥) }
{
    connection_is_at_rest(new);
    match take_copy(alloc, old, schema_version, new, external) {
        Ok(()) => {}
        Err(refusal) => {
            connection_is_at_rest(new);
            return Err(refusal);
        }
    }
    match look_at_copy(alloc, new, external) {
        Ok(()) => {}
        Err(refusal) => {
            connection_is_at_rest(new);
            return Err(refusal);
        }
    }
    tables_obey_their_schema(new);
    match commit(new) {
        Ok(()) => {}
        Err(refusal) => return Err(refusal),
    }
    connection_is_at_rest(new);
    Ok(())
}

impl<S: Alter> SqlKeeper<S> {
    /// Copies the vault of a file of that schema version into an empty store, by one transaction, and looks at
    /// the copy before it is committed. The copy registers contents that are kept outside, or doesn't. No table of the
    /// file is changed.
    ///
    /// `Damaged` with the first table of the file that isn't sound. `NameTaken` where the empty store has a
    /// table, an index or a view. `Memory` where a store wanted memory. `Device` where one refused for
    /// another cause, and for a connection inside a transaction, which is left as it was. The new connection
    /// comes back with each of them, and either is outside a transaction if it came so.
    pub fn migrate<O: Alter>(
        alloc: Global,
        old: &mut Connection<O>,
        schema_version: SchemaVersion,
        mut new: Connection<S>,
        external: bool,
    ) -> Result<SqlKeeper<S>, (Refusal, Connection<S>)>
        requires { is_external schema_version ≡ false }
        // The old tables spell a vault, and it is the keeper's but for what it registers,
        ensures spelled { IfOk result (λ k. HasCleanDisk (state O.Store old.new) → (v : Vault) × AreSoundAs schema_version (state O.Store old.old).now v) }
        ensures vault { IfOk result (λ k. HasCleanDisk (state O.Store old.new) → HasCleanDisk (state S.Store k.conn)
            → (v : Vault) → AreSoundAs schema_version (state O.Store old.old).now v → vault_of S.Store k ≡ registering external v) }
        // as do the new tables.
        ensures sound { IfOk result (λ k. HasCleanDisk (state S.Store k.conn) → AreSound (state S.Store k.conn).now (vault_of S.Store k)) }
        // A crash leaves that vault after that, and nothing else.
        ensures alone { IfOk result (λ k. HasCleanDisk (state S.Store k.conn) → LeavesAlone (state S.Store k.conn) (vault_of S.Store k)) }
        ensures counted { IfOk result (λ k. k.blamed.faults ≡ 0) }
        ensures fresh { IfOk result (λ k. k.refused.items ≡ []) }
        ensures reported { IfErr result (λ e. e.0 ≢ Refusal.NameTaken → IsReported e.0) }
        ensures damaged { IfErr result (λ e. HasCleanDisk (state O.Store old.new) → (t : Table) → e.0 ≡ Refusal.Damaged t → (v : Vault) → ¬ AreSoundAs schema_version (state O.Store old.old).now v) }
        ensures free { OnOk result ((state S.Store new).now.schema ≡ no_schema) }
        ensures taken { IfErr result (λ e. e.0 ≡ Refusal.NameTaken → (state S.Store new).now.schema ≢ no_schema) }
        // A store with anything in it is never reported as one that failed, while the old one works.
        ensures named { old.old.in_transaction ≡ false → new.in_transaction ≡ false → (state S.Store new).now.schema ≢ no_schema
            → IfErr result (λ e. IsHealthy (state O.Store old.new) → e.0 ≢ Refusal.Device) }
        // Nor is an old file whose tables state no vault.
        ensures unsound { old.old.in_transaction ≡ false → new.in_transaction ≡ false → ((v : Vault) → ¬ AreSoundAs schema_version (state O.Store old.old).now v)
            → IfErr result (λ e. IsHealthy (state O.Store old.new) → e.0 ≢ Refusal.Device) }
        // Nor are stores that work, unless the tables of the copy refuse a row of the old vault.
        ensures healthy { old.old.in_transaction ≡ false → new.in_transaction ≡ false
            → IfErr result (λ e. IsHealthy (state O.Store old.new) → IsHealthy (state S.Store e.1) → e.0 ≡ Refusal.Device → RefusesItsRow schema_version external (state O.Store old.old).now) }
        // Inside a transaction it is refused, and that is left as it was; else none is open after it, and no table was changed.
        ensures inside { IsTrue new.in_transaction → IsErrAnd result (λ e. (e.0 ≡ Refusal.Device) × (e.1 ≡ new)) }
        ensures outside { new.in_transaction ≡ false → IfErr result (λ e. HasCleanDisk (state S.Store e.1) → e.1.in_transaction ≡ false) }
        ensures tables { new.in_transaction ≡ false → IfErr result (λ e. HasCleanDisk (state S.Store e.1) → HasTablesOf (state S.Store new) (state S.Store e.1)) }
        // A crash leaves what it could leave before, or the vault of the old tables, if these were read as they stand.
        ensures crash { IfOk result (λ k. Survives (state S.Store new) (state S.Store k.conn)
            (λ trees. HasCleanDisk (state O.Store old.new) → IsMigrated schema_version external (state O.Store old.old).now trees)) }
        ensures harmless { IfErr result (λ e. Survives (state S.Store new) (state S.Store e.1)
            (λ trees. HasCleanDisk (state O.Store old.new) → IsMigrated schema_version external (state O.Store old.old).now trees)) }
        // The same of the old connection, of which a crash leaves what it could leave before, and no more.
        ensures old_inside { IsTrue old.old.in_transaction → IsErrAnd result (λ e. (e.0 ≡ Refusal.Device) × (old.new ≡ old.old)) }
        ensures old_outside { old.old.in_transaction ≡ false → HasCleanDisk (state O.Store old.new) → old.new.in_transaction ≡ false }
        ensures old_tables { old.old.in_transaction ≡ false → HasCleanDisk (state O.Store old.new) → HasTablesOf (state O.Store old.old) (state O.Store old.new) }
        ensures old_crash { Survives (state O.Store old.old) (state O.Store old.new) (λ _. ⊥) }
    {
        if !old.is_autocommit() || !new.is_autocommit() {
            return Err((Refusal::Device, new));
        }
        match copy_vault(alloc, old, schema_version, &mut new, external) {
            Ok(()) => Ok(SqlKeeper::over(alloc, new)),
            Err(refusal) => Err((refusal, new)),
        }
    }
}
