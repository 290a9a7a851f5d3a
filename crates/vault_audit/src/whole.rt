//! Both passes, and what they say.
ghost use Rattle.std.specs.Prelude.{◌≡◌, ◌≢◌, None, IfOk, OnOk, IfErr, IfSome};
ghost use Rattle.sqlite.specs.State.{HasCleanDisk, IsUnchanged, Survives};
ghost use Rattle.sqlite.specs.Held.{state};
ghost use Rattle.vault_base.specs.declared.refusal.Table.{Table};
ghost use Rattle.vault_core_model.specs.Vault.{Vault};
ghost use Rattle.vault_audit_model.specs.Spells.{AreSoundAs};
ghost use Rattle.vault_audit.specs.InOrder.{IsReportedInOrder};
ghost use Rattle.vault_audit.specs.Whole.{IsAudited, IsJudged, IsReported};
ghost use Rattle.vault_audit_rows.specs.Health.{IsHealthy, IsMemory, OnlyLooks};

use crate::first_pass::in_order::{is_at, look_at_tables};
use crate::first_pass::meta::check_meta;
use crate::second_pass::look_again;
use sqlite::{Alter, Connection, Error};
use std::alloc::Global;
use vault_audit_laws::connection::references_hold;
use vault_audit_model::faults::refusal_of;
use vault_audit_model::schema::SchemaVersion;
use vault_audit_schema::check_schema;
use vault_base::refusal::{Refusal, Table};

/// The first table of a file that is damaged.
fn find_damage<S: Alter>(
    alloc: Global,
    conn: &mut Connection<S>,
    schema_version: SchemaVersion,
) -> Result<Option<Table>, Error>
    ensures reported { HasCleanDisk (state S.Store conn.new) → IfOk result (IsAudited schema_version (state S.Store conn.new).now) }
    ensures order { HasCleanDisk (state S.Store conn.new) → IfOk result (λ found. IfSome found (IsReportedInOrder schema_version (state S.Store conn.new).now)) }
    ensures same { HasCleanDisk (state S.Store conn.new) → IfOk result (λ found. found ≡ None → IsUnchanged (state S.Store conn.old) (state S.Store conn.new)) }
    ensures kept { HasCleanDisk (state S.Store conn.new) → OnOk result ((state S.Store conn.new).now ≡ (state S.Store conn.old).now) }
    ensures err { IsHealthy (state S.Store conn.new) → IfErr result IsMemory }
    ensures crash { Survives (state S.Store conn.old) (state S.Store conn.new) (λ _. ⊥) }
{
    let difference = check_schema(conn, schema_version);
    if is_at(difference, Table::Meta) {
        return Ok(Some(Table::Meta));
    }
    let Some(meta) = check_meta(conn, schema_version)? else {
        return Ok(Some(Table::Meta));
    };
    if let Some(table) = look_at_tables(conn, schema_version, difference, &meta)? {
        return Ok(Some(table));
    }
    if let Some(table) = look_again(alloc, conn, schema_version, meta)? {
        return Ok(Some(table));
    }
    references_hold(conn, schema_version);
    Ok(None)
}

/// Looks at every table of a file, and changes nothing: they are to be those of a sound vault of that schema version, with its
/// running numbers and heads.
///
/// `Damaged` with the first table that isn't, in their order: first each is looked at by itself, for its
/// columns and for the values of its rows, and then beside the others. `Memory` where the store wanted memory. `Device`
/// where it refused for another cause, as where its disk failed; a store that works never does.
pub fn audit<S: Alter>(
    alloc: Global,
    conn: &mut Connection<S>,
    schema_version: SchemaVersion,
) -> Result<(), Refusal>
    // There is a vault that the tables are those of,
    ensures sound { HasCleanDisk (state S.Store conn.new) → OnOk result ((v : Vault) × AreSoundAs schema_version (state S.Store conn.new).now v) }
    // or they are those of none.
    ensures damaged { HasCleanDisk (state S.Store conn.new) → IfErr result (λ r. (t : Table) → r ≡ Refusal.Damaged t → (v : Vault) → ¬ AreSoundAs schema_version (state S.Store conn.new).now v) }
    // The table that is reported is the first in order that isn't right by itself, whatever the schema; or all are.
    ensures first { HasCleanDisk (state S.Store conn.new) → IfErr result (λ r. (t : Table) → r ≡ Refusal.Damaged t → IsReportedInOrder schema_version (state S.Store conn.new).now t) }
    ensures faults { IfErr result IsReported }
    // A store that works is never reported as one that failed.
    ensures healthy { IsHealthy (state S.Store conn.new) → IfErr result (λ r. r ≢ Refusal.Device) }
    ensures look { OnlyLooks S.Store conn.old conn.new result }
    ensures kept { HasCleanDisk (state S.Store conn.new) → IsJudged result → (state S.Store conn.new).now ≡ (state S.Store conn.old).now }
{
    match find_damage(alloc, conn, schema_version) {
        Ok(None) => Ok(()),
        Ok(Some(table)) => Err(Refusal::Damaged(table)),
        Err(error) => Err(refusal_of(error)),
    }
}
