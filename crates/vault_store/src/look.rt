//! A look at the tables of a connection that is to be opened, or whose vault is to be copied.
ghost use Rattle.std.specs.Prelude.{◌≡◌, ◌≢◌, false, IsTrue, IfErr, OnOk, OnErr};
ghost use Rattle.sqlite.specs.Held.{state};
ghost use Rattle.sqlite.specs.State.{HasCleanDisk, IsUnchanged, Survives};
ghost use Rattle.vault_base.specs.declared.refusal.Table.{Table};
ghost use Rattle.vault_core_model.specs.Vault.{Vault};
ghost use Rattle.vault_audit.specs.Whole.{IsReported};
ghost use Rattle.vault_audit_model.specs.Spells.{AreSound, AreSoundAs};
ghost use Rattle.vault_audit.specs.Health.{IsHealthy};
ghost use Rattle.vault_store_apply.specs.Left.{LeavesAlone};
ghost use Rattle.vault_store.specs.Tables.{IsAtRest, HasTablesOf};

use crate::edition::is_external;
use crate::laws::connection_is_at_rest;
use sqlite::{Alter, Connection};
use std::alloc::Global;
use vault_audit::audit;
use vault_audit_model::schema::SchemaVersion;
use vault_base::refusal::Refusal;

/// Ends the transaction that is open, if there is one.
pub(crate) fn end_transaction<S: Alter>(conn: &mut Connection<S>)
    ensures mode { HasCleanDisk (state S.Store conn.new) → conn.new.in_transaction ≡ false }
    ensures was_open { HasCleanDisk (state S.Store conn.new) → IsTrue (state S.Store conn.new).is_open → IsTrue (state S.Store conn.old).is_open }
    ensures crash { Survives (state S.Store conn.old) (state S.Store conn.new) (λ _. ⊥) }
{
    if conn.is_autocommit() {
        return;
    }
    let _ended = conn.execute("ROLLBACK", &[]);
}

/// Looks at the tables of a connection outside a transaction, which are to be of that schema version. It is outside
/// one after it, and no table is changed.
///
/// The errors are those of `audit`.
pub(crate) fn look_as<S: Alter>(
    alloc: Global,
    conn: &mut Connection<S>,
    schema_version: SchemaVersion,
) -> Result<(), Refusal>
    requires { conn.old.in_transaction ≡ false }
    ensures sound { HasCleanDisk (state S.Store conn.new) → OnOk result ((v : Vault) × AreSoundAs schema_version (state S.Store conn.new).now v) }
    ensures same { HasCleanDisk (state S.Store conn.new) → OnOk result (IsUnchanged (state S.Store conn.old) (state S.Store conn.new)) }
    ensures rest { OnOk result (IsAtRest (state S.Store conn.new)) }
    ensures settled { OnOk result (conn.new.in_transaction ≡ false) }
    ensures reported { IfErr result IsReported }
    ensures healthy { IfErr result (λ r. IsHealthy (state S.Store conn.new) → r ≢ Refusal.Device) }
    ensures damaged { IfErr result (λ r. HasCleanDisk (state S.Store conn.new) → (t : Table) → r ≡ Refusal.Damaged t → (v : Vault) → ¬ AreSoundAs schema_version (state S.Store conn.old).now v) }
    ensures mode { OnErr result (HasCleanDisk (state S.Store conn.new) → conn.new.in_transaction ≡ false) }
    ensures tables { OnErr result (HasCleanDisk (state S.Store conn.new) → HasTablesOf (state S.Store conn.old) (state S.Store conn.new)) }
    ensures crash { Survives (state S.Store conn.old) (state S.Store conn.new) (λ _. ⊥) }
{
    connection_is_at_rest(conn);
    match audit(alloc, conn, schema_version) {
        Ok(()) => {}
        Err(refusal) => {
            // No clause of the audit says that it leaves none.
            end_transaction(conn);
            connection_is_at_rest(conn);
            return Err(refusal);
        }
    }
    if !conn.is_autocommit() {
        return Err(Refusal::Device);
    }
    connection_is_at_rest(conn);
    Ok(())
}

/// The same of the schema version that such a vault's file has, which its columns say.
///
/// The errors are those of `audit`.
pub(crate) fn look<S: Alter>(alloc: Global, conn: &mut Connection<S>) -> Result<(), Refusal>
    requires { conn.old.in_transaction ≡ false }
    ensures sound { HasCleanDisk (state S.Store conn.new) → OnOk result ((v : Vault) × AreSound (state S.Store conn.new).now v) }
    ensures same { HasCleanDisk (state S.Store conn.new) → OnOk result (IsUnchanged (state S.Store conn.old) (state S.Store conn.new)) }
    ensures settled { OnOk result (conn.new.in_transaction ≡ false) }
    ensures alone { HasCleanDisk (state S.Store conn.new) → OnOk result ((v : Vault) → AreSound (state S.Store conn.new).now v → LeavesAlone (state S.Store conn.new) v) }
    ensures reported { IfErr result IsReported }
    ensures healthy { IfErr result (λ r. IsHealthy (state S.Store conn.new) → r ≢ Refusal.Device) }
    ensures damaged { IfErr result (λ r. HasCleanDisk (state S.Store conn.new) → (t : Table) → r ≡ Refusal.Damaged t → (v : Vault) → ¬ AreSound (state S.Store conn.old).now v) }
    ensures mode { OnErr result (HasCleanDisk (state S.Store conn.new) → conn.new.in_transaction ≡ false) }
    ensures tables { OnErr result (HasCleanDisk (state S.Store conn.new) → HasTablesOf (state S.Store conn.old) (state S.Store conn.new)) }
    ensures crash { Survives (state S.Store conn.old) (state S.Store conn.new) (λ _. ⊥) }
{
    let schema_version = SchemaVersion::of(is_external(conn.schema()));
    look_as(alloc, conn, schema_version)
}
