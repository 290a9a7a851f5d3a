//! A new vault in a store that is empty.
ghost use Rattle.std.specs.Prelude.{◌≡◌, ◌≢◌, ◌↔◌, false, IsTrue, OnOk, OnErr, IfErr, IsErrAnd};
ghost use Rattle.sqlite.specs.State.{HasCleanDisk, Survives};
ghost use Rattle.sqlite.specs.Held.{state};
ghost use Rattle.vault_core_model.specs.Vault.{opening_of};
ghost use Rattle.vault_audit_model.specs.Spells.{AreSound};
ghost use Rattle.vault_audit_model.specs.Tables.{no_schema};
ghost use Rattle.vault_store_create.specs.Create.{HasFirst, IsFilled, AreOpening, IsFault, without_tables, MovesInside, FailsForMemory};
ghost use Rattle.vault_audit_rows.specs.Health.{IsHealthy};
ghost use Rattle.vault_store_edits.specs.Inside.{CommitsNothing};

use crate::first_rows::{put_meta, put_registrar};
use crate::tables::make_tables;
use sqlite::{Alter, Connection, Error, Transaction};
use sqlite_schema::schema::Schema;
use vault_audit_model::faults::refusal_of;
use vault_base::refusal::{Refusal, Table};

/// Whether a store has no table, index or view.
pub fn is_blank(schema: &Schema) -> bool
    ensures { IsTrue result ↔ (schema.now ≡ no_schema) }
{
    schema.tables.is_empty() && schema.indexes.is_empty() && schema.views.is_empty()
}

/// The refusal of a store that has no table where a vault should have some: the first of a vault's isn't there.
pub fn without_tables() -> Refusal
    ensures { result ≡ without_tables }
{
    Refusal::Damaged(Table::Meta)
}

/// Makes the tables and their first rows.
fn put_opening<S: Alter>(tx: &mut Transaction<'_, S>, external: bool) -> Result<(), Error>
    ensures same_reference { tx.new.conn.ghost_name ≡ tx.old.conn.ghost_name }
    ensures made { MovesInside S.Store tx.old.conn.now tx.new.conn.now result (HasFirst external 0) (IsFilled external) }
    ensures memory { FailsForMemory S.Store tx.old.conn.now tx.new.conn.now result (HasFirst external 0) }
    ensures kept { CommitsNothing S.Store tx.old.conn.now tx.new.conn.now result }
    ensures survives { Survives (state S.Store tx.old.conn.now) (state S.Store tx.new.conn.now) (λ _. ⊥) }
{
    make_tables(tx, external)?;
    put_meta(tx, external)?;
    put_registrar(tx, external)?;
    Ok(())
}

/// Makes a new vault, which registers contents that are kept outside or doesn't, in an empty store, by one transaction: its
/// tables, and the one caller `registrar`.
///
/// `NameTaken` where the store has a table, an index or a view. `Memory` where the store wanted memory.
/// `Device` where it refused for another cause, as for a transaction that is already begun. Nothing is changed then.
pub fn fill<S: Alter>(conn: &mut Connection<S>, external: bool) -> Result<(), Refusal>
    ensures opening { HasCleanDisk (state S.Store conn.new) → OnOk result (AreSound (state S.Store conn.new).now (opening_of external)) }
    ensures committed { HasCleanDisk (state S.Store conn.new)
        → OnOk result (IsTrue (state S.Store conn.new).is_open × ((state S.Store conn.new).committed ≡ (state S.Store conn.new).now)) }

    // What a crash may leave after that is this vault alone.
    ensures alone { HasCleanDisk (state S.Store conn.new) → OnOk result ((db : _) → (state S.Store conn.new).may_leave db → AreOpening external db) }
    ensures settled { OnOk result (conn.new.in_transaction ≡ false) }
    ensures taken { (result ≡ Err Refusal.NameTaken) ↔ ((state S.Store conn.old).now.schema ≢ no_schema) }
    ensures untouched { result ≡ Err Refusal.NameTaken → conn.new ≡ conn.old }
    ensures faults { IfErr result (λ r. r ≢ Refusal.NameTaken → IsFault r) }
    // A store that works, outside a transaction, is never reported as one that failed.
    ensures healthy { conn.old.in_transaction ≡ false → IsHealthy (state S.Store conn.new) → IfErr result (λ r. r ≢ Refusal.Device) }
    ensures nothing { HasCleanDisk (state S.Store conn.new) → IsTrue (state S.Store conn.new).is_open
        → OnErr result (((state S.Store conn.new).now ≡ (state S.Store conn.old).now) × ((state S.Store conn.new).committed ≡ (state S.Store conn.old).committed)) }
    ensures mode { conn.old.in_transaction ≡ false → conn.new.in_transaction ≡ false }
    // Inside a transaction no memory is wanted.
    ensures inside { IsTrue conn.old.in_transaction → IsErrAnd result (λ r. (r ≢ Refusal.Memory) × (conn.new ≡ conn.old)) }

    // What a crash may leave, at any moment of the call: what it could leave before, or this vault.
    ensures crash { Survives (state S.Store conn.old) (state S.Store conn.new) (AreOpening external) }
{
    if !is_blank(conn.schema()) {
        return Err(Refusal::NameTaken);
    }
    if !conn.is_autocommit() {
        return Err(Refusal::Device);
    }
    let mut tx = conn.transaction();
    match put_opening(&mut tx, external) {
        Ok(()) => {}
        Err(error) => return Err(refusal_of(error)),
    }
    match tx.commit() {
        Ok(()) => Ok(()),
        Err(error) => Err(refusal_of(error)),
    }
}
