//! The second pass over the tables: what their rows are to each other.

pub mod departments;
pub mod names;
pub mod tenures;
pub mod versions;

ghost use Rattle.std.specs.Prelude.{IfOk, IfErr};
ghost use Rattle.sqlite.specs.State.{HasCleanDisk};
ghost use Rattle.sqlite.specs.Held.{state};
ghost use Rattle.vault_audit.specs.Looks.{Reported, ReportedOf};
ghost use Rattle.vault_audit.specs.Whole.{VersionsAndHeads, AllFound};
ghost use Rattle.vault_audit_rows.specs.Health.{IsHealthy, IsMemory, IsOfSchemaVersion, OnlyLooks};

use crate::second_pass::departments::look_at_departments;
use crate::second_pass::names::look_at_names;
use crate::second_pass::tenures::look_at_tenures;
use crate::second_pass::versions::look_at_versions;
use sqlite::{Alter, Connection, Error};
use std::alloc::Global;
use vault_audit_entries::heads::second_look::check_heads;
use vault_audit_model::rows::MetaRow;
use vault_audit_model::schema::SchemaVersion;
use vault_audit_records::entries::second_look::check_numbers;
use vault_base::refusal::Table;

/// The first of entries, contents or external, settings, intake and heads that is damaged.
pub(crate) fn look_at_entries<S: Alter>(
    conn: &mut Connection<S>,
    schema_version: SchemaVersion,
) -> Result<Option<Table>, Error>
    requires { IsOfSchemaVersion S.Store conn.old schema_version }
    ensures reported { HasCleanDisk (state S.Store conn.new) → IfOk result (Reported schema_version (state S.Store conn.new).now (VersionsAndHeads schema_version (state S.Store conn.new).now)) }
    ensures look { OnlyLooks S.Store conn.old conn.new result }
    ensures err { IsHealthy (state S.Store conn.new) → IfErr result IsMemory }
{
    let Some(_next) = check_numbers(conn, schema_version)? else {
        return Ok(Some(Table::Entries));
    };
    if let Some(table) = look_at_versions(conn, schema_version)? {
        return Ok(Some(table));
    }
    let heads = check_heads(conn, schema_version)?;
    if !heads {
        return Ok(Some(Table::Heads));
    }
    Ok(None)
}

/// The first table whose rows aren't what they have to be to each other, where this is the row of `meta`.
pub(crate) fn look_again<S: Alter>(
    alloc: Global,
    conn: &mut Connection<S>,
    schema_version: SchemaVersion,
    meta: MetaRow,
) -> Result<Option<Table>, Error>
    requires { IsOfSchemaVersion S.Store conn.old schema_version }
    ensures reported { HasCleanDisk (state S.Store conn.new) → IfOk result (ReportedOf schema_version (state S.Store conn.new).now meta (AllFound schema_version (state S.Store conn.new).now meta)) }
    ensures look { OnlyLooks S.Store conn.old conn.new result }
    ensures err { IsHealthy (state S.Store conn.new) → IfErr result IsMemory }
{
    if let Some(table) = look_at_departments(alloc, conn, schema_version, &meta)? {
        return Ok(Some(table));
    }
    if let Some(table) = look_at_names(alloc, conn, schema_version)? {
        return Ok(Some(table));
    }
    if let Some(table) = look_at_entries(conn, schema_version)? {
        return Ok(Some(table));
    }
    if let Some(table) = look_at_tenures(conn, schema_version, meta)? {
        return Ok(Some(table));
    }
    Ok(None)
}
