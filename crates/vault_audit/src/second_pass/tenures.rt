//! The tenures of the versions.
ghost use Rattle.std.specs.Prelude.{IsTrue, IfOk, IfErr};
ghost use Rattle.sqlite.specs.State.{HasCleanDisk};
ghost use Rattle.sqlite.specs.Held.{state};
ghost use Rattle.vault_audit.specs.Looks.{ReportedOf, TenuresFound};
ghost use Rattle.vault_audit_rows.specs.Health.{IsHealthy, IsMemory, IsOfSchemaVersion, OnlyLooks};

use sqlite::{Alter, Connection, Error};
use vault_audit_model::rows::MetaRow;
use vault_audit_model::schema::SchemaVersion;
use vault_audit_tenures::second_look::check_tenures;
use vault_base::refusal::Table;

/// Tenures, where they are damaged. It is meant for buckets and entries that other looks find in order.
pub fn look_at_tenures<S: Alter>(
    conn: &mut Connection<S>,
    schema_version: SchemaVersion,
    meta: MetaRow,
) -> Result<Option<Table>, Error>
    requires schema { IsOfSchemaVersion S.Store conn.old schema_version }
    requires open { HasCleanDisk (state S.Store conn.old) → IsTrue (state S.Store conn.old).is_open }
    ensures reported { HasCleanDisk (state S.Store conn.new) →
        IfOk result (ReportedOf schema_version (state S.Store conn.new).now meta (TenuresFound schema_version (state S.Store conn.new).now meta)) }
    ensures look { OnlyLooks S.Store conn.old conn.new result }
    ensures err { IsHealthy (state S.Store conn.new) → IfErr result IsMemory }
{
    let tenures = check_tenures(conn, schema_version, meta)?;
    if !tenures {
        return Ok(Some(Table::Tenures));
    }
    Ok(None)
}
