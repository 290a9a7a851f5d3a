//! The schema version of tables whose vault is to be copied, and whether tables are a vault's at all.
ghost use Rattle.std.specs.Prelude.{◌≡◌, IsTrue, codes};
ghost use Rattle.std.specs.List.{list_any};
ghost use Rattle.std.specs.Str.{bytes_eq};
ghost use Rattle.vault_audit_model.specs.declared.schema.SchemaVersion.{SchemaVersion as AnyVersion};
ghost use Rattle.vault_audit_model.specs.Tables.{schema_of};
ghost use Rattle.vaultctl_machine.specs.Files.{is_earlier};
ghost use Rattle.vaultctl_machine.specs.SchemaVersions as spec;

use sqlite_schema::schema::{self, Column, Schema};
use vault_audit_model::schema::SchemaVersion;
use vault_base::refusal::Table;
use vault_store::edition::is_external;
use vaultctl_machine_stores::cause::Cause;

/// Whether a column has the larger one of the bounds of sizes.
fn has_bound(column: &Column) -> bool
    ensures { result ≡ bytes_eq column.now.name (codes "larger") }
{
    column.name.as_slice() == "larger".as_bytes()
}

/// Whether the rules of a table may have bounds of sizes.
fn has_bounds(table: &schema::Table) -> bool
    ensures { result ≡ spec.has_bounds table.now }
{
    table.columns.as_slice().iter().any(has_bound)
}

/// Whether a table is that of the rules.
fn has_rules(table: &schema::Table) -> bool
    ensures { result ≡ bytes_eq table.now.name (codes "rules") }
{
    table.name.as_slice() == Table::Rules.name().as_bytes()
}

/// Whether a table is that of the rules, and these may have bounds of sizes.
fn has_bounded_rules(table: &schema::Table) -> bool
    ensures { result ≡ spec.has_bounded_rules table.now }
{
    has_rules(table) && has_bounds(table)
}

/// Whether the rules of these tables may have bounds of sizes.
fn have_bounds(tables: &[schema::Table]) -> bool
    ensures { result ≡ list_any spec.has_bounded_rules tables.now }
{
    tables.iter().any(has_bounded_rules)
}

/// Whether a table is that of the tenures.
fn has_tenures(table: &schema::Table) -> bool
    ensures { result ≡ spec.has_tenures table.now }
{
    table.name.as_slice() == "tenures".as_bytes()
}

/// Whether these tables have tenures.
fn have_tenures(tables: &[schema::Table]) -> bool
    ensures { result ≡ list_any spec.has_tenures tables.now }
{
    tables.iter().any(has_tenures)
}

/// The schema version of tables, by whether their rules may have bounds of sizes, and whether they have tenures: the third
/// only where the copy registers contents that are kept outside.
fn version_by(bounds: bool, tenures: bool, external: bool) -> SchemaVersion
    ensures { result ≡ spec.version_by bounds tenures external }
{
    match (bounds, tenures, external) {
        (false, _, _) => SchemaVersion::First,
        (true, true, true) => SchemaVersion::Third,
        (true, _, _) => SchemaVersion::Second,
    }
}

/// The schema version of tables whose vault is to be copied, by their tables and columns: one before that of the copy,
/// which registers contents that are kept outside, or doesn't.
///
/// Where they are of none of these, they aren't sound as those of any.
pub(crate) fn schema_version_of(schema: &Schema, external: bool) -> SchemaVersion
    ensures exact { (n : AnyVersion) → IsTrue (is_earlier external n) → schema.now ≡ schema_of n → result ≡ n }
    ensures earlier { IsTrue (is_earlier external result) }
{
    let tables = schema.tables.as_slice();
    version_by(have_bounds(tables), have_tenures(tables), external)
}

/// Whether one of these tables has that name.
fn have_table(tables: &[schema::Table], name: &[u8]) -> bool {
    tables.iter().any(|table| table.name.as_slice() == name)
}

/// Whether these tables have the names of a vault's, of any schema version.
fn are_of_a_vault(tables: &[schema::Table]) -> bool {
    have_table(tables, b"meta") && have_table(tables, b"entries") && have_table(tables, b"heads")
}

/// Why tables that could be opened aren't those of a sound vault of this program, by their names.
pub(crate) fn why_unsound(schema: &Schema) -> Cause {
    let tables = schema.tables.as_slice();
    if !are_of_a_vault(tables) {
        return Cause::OtherTables;
    }
    if have_table(tables, b"tenures") {
        return Cause::Damaged;
    }
    Cause::Earlier
}

/// Why the tables of a file that was to be copied aren't those of a sound vault of an earlier schema version than the
/// copy's, by their names and columns.
pub(crate) fn why_uncopied(schema: &Schema, external: bool) -> Cause {
    match why_unsound(schema) {
        Cause::Damaged if external && !is_external(schema) => Cause::Damaged,
        Cause::Damaged => Cause::Newest,
        Cause::Earlier => Cause::Damaged,
        other => other,
    }
}
