//! The next id, and the departments with their sums.
ghost use Rattle.std.specs.Prelude.{IfOk, IfErr};
ghost use Rattle.sqlite.specs.State.{HasCleanDisk};
ghost use Rattle.sqlite.specs.Held.{state};
ghost use Rattle.vault_audit.specs.Looks.{ReportedOf, DepartmentsFound};
ghost use Rattle.vault_audit_rows.specs.Health.{IsHealthy, IsMemory, IsOfSchemaVersion, OnlyLooks};

use sqlite::{Alter, Connection, Error};
use std::alloc::Global;
use vault_audit_model::rows::MetaRow;
use vault_audit_model::schema::SchemaVersion;
use vault_audit_records::departments::by_name::check_departments_by_name;
use vault_audit_records::meta::second_look::check_next;
use vault_audit_tenures::sums::second_look::check_sums;
use vault_base::refusal::Table;

/// The first of meta and departments that is damaged: the next id isn't one above the entries, a
/// department's name stands there twice, or one lacks the sums over its tenures.
pub fn look_at_departments<S: Alter>(
    alloc: Global,
    conn: &mut Connection<S>,
    schema_version: SchemaVersion,
    meta: &MetaRow,
) -> Result<Option<Table>, Error>
    requires { IsOfSchemaVersion S.Store conn.old schema_version }
    ensures reported { HasCleanDisk (state S.Store conn.new) →
        IfOk result (ReportedOf schema_version (state S.Store conn.new).now meta.now (DepartmentsFound schema_version (state S.Store conn.new).now meta.now)) }
    ensures look { OnlyLooks S.Store conn.old conn.new result }
    ensures err { IsHealthy (state S.Store conn.new) → IfErr result IsMemory }
{
    let next = check_next(conn, schema_version, meta.next)?;
    if !next {
        return Ok(Some(Table::Meta));
    }
    let departments = check_departments_by_name(conn, schema_version)?;
    if !departments {
        return Ok(Some(Table::Departments));
    }
    let sums = check_sums(alloc, conn, schema_version)?;
    if !sums {
        return Ok(Some(Table::Departments));
    }
    Ok(None)
}
