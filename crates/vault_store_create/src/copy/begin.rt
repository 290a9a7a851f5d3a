//! The vault of a file of an earlier schema version, copied into a store that is empty.
ghost use Rattle.std.specs.Prelude.{◌≡◌, ◌≢◌, ◌↔◌, Err, false, IsTrue, OnOk, IfErr};
ghost use Rattle.sqlite.specs.Effect.{IsDatabase};
ghost use Rattle.sqlite.specs.Held.{state};
ghost use Rattle.sqlite.specs.State.{HasCleanDisk, Survives};
ghost use Rattle.vault_core_model.specs.Vault.{Vault};
ghost use Rattle.vault_audit_model.specs.SchemaVersions.{is_external};
ghost use Rattle.vault_audit_model.specs.Spells.{AreSound, AreSoundAs};
ghost use Rattle.vault_audit_model.specs.Tables.{no_schema};
ghost use Rattle.vault_audit_rows.specs.Health.{IsHealthy, IsOfSchemaVersion, OnlyLooks};
ghost use Rattle.vault_store_create.specs.Create.{Moves, HasFirst, IsFault};
ghost use Rattle.vault_store_create.specs.Copied.{HasCopied, IsRefusedFor, RefusesARow, registering};

use crate::copy::tables::copy_tables;
use crate::create::is_blank;
use crate::tables::make_tables;
use sqlite::{Alter, Connection, Error, Transaction};
use std::alloc::Global;
use std::mem::ManuallyDrop;
use vault_audit_model::faults::refusal_of;
use vault_audit_model::schema::SchemaVersion;
use vault_base::refusal::Refusal;

/// Makes the tables, and copies their rows.
fn put_copy<O: Alter, S: Alter>(
    alloc: Global,
    old: &mut Connection<O>,
    tx: &mut Transaction<'_, S>,
    schema_version: SchemaVersion,
    external: bool,
) -> Result<(), Error>
    requires { IsOfSchemaVersion O.Store old.old schema_version }
    ensures same_reference { tx.new.conn.ghost_name ≡ tx.old.conn.ghost_name }
    ensures copied { HasCleanDisk (state O.Store old.new) → HasCleanDisk (state S.Store tx.new.conn.now) → IsTrue tx.old.conn.now.in_transaction
        → OnOk result (Moves (state S.Store tx.old.conn.now) (state S.Store tx.new.conn.now) (HasFirst external 0) (HasCopied schema_version external (state O.Store old.old).now 11)) }
    // Stores that work refuse the copy of a sound vault where memory runs out, or for a row of it.
    ensures refused { (v : Vault) → AreSoundAs schema_version (state O.Store old.old).now v → IsHealthy (state O.Store old.new) → IsHealthy (state S.Store tx.new.conn.now)
        → IsTrue tx.old.conn.now.in_transaction → HasFirst external 0 (state S.Store tx.old.conn.now).now → IfErr result (IsRefusedFor (registering external v)) }
    ensures survives { Survives (state S.Store tx.old.conn.now) (state S.Store tx.new.conn.now) (λ _. ⊥) }
    ensures look { OnlyLooks O.Store old.old old.new result }
{
    make_tables(tx, external)?;
    copy_tables(alloc, old, tx, schema_version, external)
}

/// The same in a transaction of its own, which stays open. Where it is refused, the transaction is undone.
fn write_copy<O: Alter, S: Alter>(
    alloc: Global,
    old: &mut Connection<O>,
    new: &mut Connection<S>,
    schema_version: SchemaVersion,
    external: bool,
) -> Result<(), Error>
    requires outside { new.old.in_transaction ≡ false }
    requires known { IsOfSchemaVersion O.Store old.old schema_version }
    ensures copied { HasCleanDisk (state O.Store old.new) → HasCleanDisk (state S.Store new.new)
        → OnOk result (Moves (state S.Store new.old) (state S.Store new.new) (HasFirst external 0) (HasCopied schema_version external (state O.Store old.old).now 11)) }
    ensures refused { (v : Vault) → AreSoundAs schema_version (state O.Store old.old).now v → IsHealthy (state O.Store old.new) → IsHealthy (state S.Store new.new)
        → HasFirst external 0 (state S.Store new.old).now → IfErr result (IsRefusedFor (registering external v)) }
    ensures crash { Survives (state S.Store new.old) (state S.Store new.new) (λ _. ⊥) }
    ensures look { OnlyLooks O.Store old.old old.new result }
{
    let mut tx = new.transaction();
    put_copy(alloc, old, &mut tx, schema_version, external)?;
    // Let go of without its rollback.
    let _open = ManuallyDrop::new(tx);
    Ok(())
}

/// Copies the vault of a file of that schema version, which has every content inside, into the tables of an empty store,
/// inside a transaction that is left open: nothing is committed. No table of the file is changed. Where `external` is set,
/// the copy is a vault that registers contents which are kept outside; it has no such content.
///
/// `NameTaken` where the store has a table, an index or a view. `Memory` where a store wanted memory.
/// `Device` where one refused for another cause. A transaction may be left open then too.
pub fn begin_copy<O: Alter, S: Alter>(
    alloc: Global,
    old: &mut Connection<O>,
    new: &mut Connection<S>,
    schema_version: SchemaVersion,
    external: bool,
) -> Result<(), Refusal>
    requires known { IsOfSchemaVersion O.Store old.old schema_version }
    requires inside { is_external schema_version ≡ false }
    requires outside { new.old.in_transaction ≡ false }
    // The tables are sound for the copy of each vault that those of the file are sound for.
    ensures copied { HasCleanDisk (state O.Store old.new) → HasCleanDisk (state S.Store new.new)
        → OnOk result ((v : Vault) → AreSoundAs schema_version (state O.Store old.old).now v → AreSound (state S.Store new.new).now (registering external v) × IsDatabase (state S.Store new.new).now) }
    ensures free { OnOk result ((state S.Store new.old).now.schema ≡ no_schema) }
    ensures taken { (result ≡ Err Refusal.NameTaken) ↔ ((state S.Store new.old).now.schema ≢ no_schema) }
    ensures faults { IfErr result (λ r. r ≢ Refusal.NameTaken → IsFault r) }
    // Where a store failed though both work, the tables of the copy refused a row of the vault.
    ensures refused { (v : Vault) → AreSoundAs schema_version (state O.Store old.old).now v → IsHealthy (state O.Store old.new) → IsHealthy (state S.Store new.new)
        → IfErr result (λ r. r ≡ Refusal.Device → RefusesARow (registering external v)) }
    ensures inside { HasCleanDisk (state O.Store old.new) → HasCleanDisk (state S.Store new.new) → OnOk result (IsTrue new.new.in_transaction) }
    ensures crash { Survives (state S.Store new.old) (state S.Store new.new) (λ _. ⊥) }
    ensures look { OnlyLooks O.Store old.old old.new result }
{
    if !is_blank(new.schema()) {
        return Err(Refusal::NameTaken);
    }
    match write_copy(alloc, old, new, schema_version, external) {
        Ok(()) => Ok(()),
        Err(error) => Err(refusal_of(error)),
    }
}
