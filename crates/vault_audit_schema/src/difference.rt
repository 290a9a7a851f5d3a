//! At which table a schema differs from the vault's.

ghost use Rattle.std.specs.Prelude.{◌≡◌, ◌↔◌, ◌<◌, ◌≤◌, length, None, Some, MatchOption, IfSome};
ghost use Rattle.sqlite.specs.Held.{state};
ghost use Rattle.vault_base.specs.declared.refusal.Table.{Table};
ghost use Rattle.vault_audit_model.specs.Order.{place_of};
ghost use Rattle.vault_audit_model.specs.Tables.{schema_of};
ghost use Rattle.vault_audit_schema.specs.Places.{HasTable, IsInPlace, IsReportedOf, IsReportedIn};

use crate::compare::first_unlike;
use crate::index::indexes_of;
use crate::table::tables_of;
use sqlite::{Alter, Connection};
use sqlite_schema::schema::{self, Index, Schema};
use vault_audit_model::schema::SchemaVersion;
use vault_base::refusal::Table;

/// The schema version's table at this place, or `meta` past the last.
fn table_at(schema_version: SchemaVersion, at: usize) -> Table
    ensures at { (t : Table) → HasTable schema_version t → place_of t ≡ at → result ≡ t }
    ensures past { length (schema_of schema_version).tables ≤ at → result ≡ Table.Meta }
{
    match tables_of(schema_version).get(at) {
        Some(form) => form.table,
        None => Table::Meta,
    }
}

/// The first table that is missing or of another form, or `meta` where another table stands beside them.
fn table_difference(schema_version: SchemaVersion, tables: &[schema::Table]) -> Option<Table>
    ensures { MatchOption result (tables.now ≡ (schema_of schema_version).tables) (IsReportedOf schema_version tables.now) }
{
    let at = first_unlike(tables, tables_of(schema_version))?;
    Some(table_at(schema_version, at))
}

/// The table that an index is on, or `meta` where that is none of the schema version's.
fn owner(schema_version: SchemaVersion, index: &Index) -> Table {
    for form in tables_of(schema_version) {
        if form.tree == index.table {
            return form.table;
        }
    }
    Table::Meta
}

/// The table whose index is to stand at this place, or past the last that of the index that stands there.
fn index_table(schema_version: SchemaVersion, indexes: &[Index], at: usize) -> Table {
    if let Some(form) = indexes_of(schema_version).get(at) {
        return form.of.table;
    }
    match indexes.get(at) {
        Some(index) => owner(schema_version, index),
        None => Table::Meta,
    }
}

/// A table whose index is missing or of another form, or that has one index more.
fn index_difference(schema_version: SchemaVersion, indexes: &[Index]) -> Option<Table>
    ensures { (result ≡ None) ↔ (indexes.now ≡ (schema_of schema_version).indexes) }
{
    let at = first_unlike(indexes, indexes_of(schema_version))?;
    Some(index_table(schema_version, indexes, at))
}

/// The first table at which a schema differs from that of a schema version, or none where it is that.
///
/// A table that the schema version doesn't have is reported as `meta`. So are its indexes, and views.
pub fn first_difference(schema_version: SchemaVersion, schema: &Schema) -> Option<Table>
    ensures found { (result ≡ None) ↔ (schema.now ≡ schema_of schema_version) }

    // All before the table that is reported are in their places, and it isn't, or all are.
    ensures reported { IfSome result (IsReportedIn schema_version schema.now) }

    // The tables before this one are in their places, and this one isn't.
    ensures first { (t : Table) → ((u : Table) → place_of u < place_of t → IsInPlace schema_version schema.now.tables u) → ¬ IsInPlace schema_version schema.now.tables t → result ≡ Some t }
{
    if let Some(table) = table_difference(schema_version, schema.tables.as_slice()) {
        return Some(table);
    }
    if let Some(table) = index_difference(schema_version, schema.indexes.as_slice()) {
        return Some(table);
    }
    if schema.views.is_empty() {
        None
    } else {
        Some(Table::Meta)
    }
}

/// The first table at which the schema of a connection's file differs from the vault's, as `first_difference` reports it.
pub fn check_schema<S: Alter>(conn: &Connection<S>, schema_version: SchemaVersion) -> Option<Table>
    ensures found { (result ≡ None) ↔ ((state S.Store conn.now).now.schema ≡ schema_of schema_version) }
    ensures reported { IfSome result (IsReportedIn schema_version (state S.Store conn.now).now.schema) }
{
    first_difference(schema_version, conn.schema())
}
