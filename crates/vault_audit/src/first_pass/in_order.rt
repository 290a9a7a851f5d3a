//! All tables, one after the other.
ghost use Rattle.std.specs.Prelude.{◌≡◌, ◌≢◌, ◌↔◌, false, Some, IsTrue, IfOk, IfErr};
ghost use Rattle.sqlite.specs.State.{HasCleanDisk};
ghost use Rattle.sqlite.specs.Held.{state};
ghost use Rattle.vault_base.specs.declared.refusal.Table.TheVariants as table;
ghost use Rattle.vault_core_model.specs.Vault.{Vault};
ghost use Rattle.vault_audit_model.specs.Spells.{AreSoundAs};
ghost use Rattle.vault_audit_schema.specs.Places.{BeginTo};
ghost use Rattle.vault_audit_records.specs.Meta.{IsMetaOf};
ghost use Rattle.vault_audit.specs.InOrder.{AreRowsRight, ReportedInOrder};
ghost use Rattle.vault_audit.specs.Looks.{Differs};
ghost use Rattle.vault_audit_rows.specs.Health.{IsHealthy, IsMemory, OnlyLooks};

use crate::first_pass::buckets::check_buckets;
use crate::first_pass::callers::check_callers;
use crate::first_pass::contents::check_contents;
use crate::first_pass::departments::check_departments;
use crate::first_pass::entries::check_entries;
use crate::first_pass::external::check_external;
use crate::first_pass::heads::check_heads;
use crate::first_pass::intake::check_intake;
use crate::first_pass::meta::check_meta;
use crate::first_pass::rules::check_rules;
use crate::first_pass::settings::check_settings;
use crate::first_pass::tenures::check_tenures;
use sqlite::{Alter, Connection, Error};
use vault_audit_model::rows::MetaRow;
use vault_audit_model::schema::SchemaVersion;
use vault_base::refusal::Table;

/// The tables after `meta`, in their order.
static AFTER_META: [Table; 11] = [
    Table::Departments,
    Table::Callers,
    Table::Buckets,
    Table::Rules,
    Table::Entries,
    Table::Contents,
    Table::Settings,
    Table::Intake,
    Table::Heads,
    Table::Tenures,
    Table::External,
];

/// Whether the schema differs first at this table, where that is where it does.
pub fn is_at(difference: Option<Table>, table: Table) -> bool
    ensures { IsTrue result ↔ (difference ≡ Some table) }
{
    difference == Some(table)
}

/// Whether the rows of a table state records in their limits, each by itself, where this is the row of `meta`.
fn check_rows_of<S: Alter>(
    conn: &mut Connection<S>,
    schema_version: SchemaVersion,
    meta: &MetaRow,
    table: Table,
) -> Result<bool, Error>
    requires begin { HasCleanDisk (state S.Store conn.old) → BeginTo schema_version (state S.Store conn.old).now.schema.tables table }
    requires meta { HasCleanDisk (state S.Store conn.old) → IsMetaOf schema_version (state S.Store conn.old).now (Some meta.now) }
    requires open { HasCleanDisk (state S.Store conn.old) → IsTrue (state S.Store conn.old).is_open }
    ensures reported { HasCleanDisk (state S.Store conn.new) → IfOk result (AreRowsRight schema_version (state S.Store conn.new).now table) }
    ensures damaged { HasCleanDisk (state S.Store conn.new) → IfOk result (λ right. right ≡ false → (v : Vault) → ¬ AreSoundAs schema_version (state S.Store conn.new).now v) }
    ensures look { OnlyLooks S.Store conn.old conn.new result }
    ensures err { IsHealthy (state S.Store conn.new) → IfErr result IsMemory }
{
    match table {
        Table::Meta => {
            let found = check_meta(conn, schema_version)?;
            Ok(found.is_some())
        }
        Table::Departments => check_departments(conn, schema_version),
        Table::Callers => check_callers(conn, schema_version),
        Table::Buckets => check_buckets(conn, schema_version),
        Table::Rules => check_rules(conn, schema_version),
        Table::Entries => check_entries(conn, schema_version, meta.last),
        Table::Contents => check_contents(conn, schema_version),
        Table::Settings => check_settings(conn, schema_version),
        Table::Intake => check_intake(conn, schema_version),
        Table::Heads => check_heads(conn, schema_version),
        Table::Tenures => check_tenures(conn, schema_version),
        Table::External => check_external(conn, schema_version),
    }
}

/// The first table after `meta` that isn't right by itself, where this is the row of `meta`: the schema differs at it,
/// or one of its rows holds no record in its limits.
pub fn look_at_tables<S: Alter>(
    conn: &mut Connection<S>,
    schema_version: SchemaVersion,
    difference: Option<Table>,
    meta: &MetaRow,
) -> Result<Option<Table>, Error>
    requires difference { HasCleanDisk (state S.Store conn.old) → Differs schema_version (state S.Store conn.old).now.schema difference }
    requires after { difference ≢ Some table.Meta }
    requires meta { HasCleanDisk (state S.Store conn.old) → IsMetaOf schema_version (state S.Store conn.old).now (Some meta.now) }
    requires open { HasCleanDisk (state S.Store conn.old) → IsTrue (state S.Store conn.old).is_open }
    ensures reported { HasCleanDisk (state S.Store conn.new) → IfOk result (ReportedInOrder schema_version (state S.Store conn.new).now) }
    ensures look { OnlyLooks S.Store conn.old conn.new result }
    ensures err { IsHealthy (state S.Store conn.new) → IfErr result IsMemory }
{
    for table in &AFTER_META {
        if is_at(difference, *table) {
            return Ok(Some(*table));
        }
        let right = check_rows_of(conn, schema_version, meta, *table)?;
        if !right {
            return Ok(Some(*table));
        }
    }
    Ok(None)
}
