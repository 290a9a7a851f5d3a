//! Whether the tables of a connection are those of a vault that registers contents which are kept outside.
ghost use Rattle.std.specs.Prelude.{◌≡◌, Bool};
ghost use Rattle.vault_audit_model.specs.Tables.{vault_schema};
ghost use Rattle.vault_store.specs.Editions as spec;

use sqlite_schema::schema::{Column, Schema, Table};

/// Whether a column is the place in a list of commands, which only such a vault's `meta` has.
fn is_place(column: &Column) -> bool
    ensures { result ≡ spec.is_place column.now }
{
    column.name.as_slice() == "place".as_bytes()
}

/// Whether a table has that column.
fn has_place(table: &Table) -> bool
    ensures { result ≡ spec.has_place table.now }
{
    table.columns.as_slice().iter().any(is_place)
}

/// Whether tables are those of a vault that registers contents which are kept outside, by the columns of the first table,
/// which is `meta`. Of tables that are no vault's it may answer either.
pub fn is_external(schema: &Schema) -> bool
    ensures { (external : Bool) → schema.now ≡ vault_schema external → result ≡ external }
{
    match schema.tables.as_slice().first() {
        Some(meta) => has_place(meta),
        None => false,
    }
}
