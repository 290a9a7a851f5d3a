//! Callers, and buckets with their rules.
ghost use Rattle.std.specs.Prelude.{IfOk, IfErr};
ghost use Rattle.sqlite.specs.State.{HasCleanDisk};
ghost use Rattle.sqlite.specs.Held.{state};
ghost use Rattle.vault_audit.specs.Looks.{Reported, NamesFound};
ghost use Rattle.vault_audit_rows.specs.Health.{IsHealthy, IsMemory, IsOfSchemaVersion, OnlyLooks};

use sqlite::{Alter, Connection, Error};
use std::alloc::Global;
use vault_audit_model::schema::SchemaVersion;
use vault_audit_records::callers::check_callers_by_name;
use vault_audit_records::rules::second_look::check_rules_of_buckets;
use vault_base::refusal::Table;

/// The first of callers and rules that is damaged: a caller's name stands there twice, or a bucket's
/// rules aren't a set that it may have.
pub fn look_at_names<S: Alter>(
    alloc: Global,
    conn: &mut Connection<S>,
    schema_version: SchemaVersion,
) -> Result<Option<Table>, Error>
    requires { IsOfSchemaVersion S.Store conn.old schema_version }
    ensures reported { HasCleanDisk (state S.Store conn.new) → IfOk result (Reported schema_version (state S.Store conn.new).now (NamesFound schema_version (state S.Store conn.new).now)) }
    ensures look { OnlyLooks S.Store conn.old conn.new result }
    ensures err { IsHealthy (state S.Store conn.new) → IfErr result IsMemory }
{
    let callers = check_callers_by_name(conn, schema_version)?;
    if !callers {
        return Ok(Some(Table::Callers));
    }
    let rules = check_rules_of_buckets(alloc, conn, schema_version)?;
    if !rules {
        return Ok(Some(Table::Rules));
    }
    Ok(None)
}
