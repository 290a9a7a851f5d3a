//! A record that is one row of a table, and the check of all rows of such a table.
ghost use Rattle.std.specs.Prelude.{◌≡◌, false, map, IfOk, IfErr};
ghost use Rattle.sqlite.specs.State.{HasCleanDisk};
ghost use Rattle.sqlite.specs.Held.{state};
ghost use Rattle.vault_core_model.specs.Vault.{Vault};
ghost use Rattle.vault_audit_model.specs.Spells.{AreSoundAs};
ghost use Rattle.vault_audit_schema.specs.Places.{BeginTo};
ghost use Rattle.vault_audit_rows.specs.Health.{IsHealthy, IsMemory, OnlyLooks};
ghost use Rattle.vault_audit_rows.specs.Records.{AreRecords};

use sqlite::{Alter, Connection, Error, Row};
use std::marker::PhantomData;
use vault_audit_model::schema::SchemaVersion;
use vault_audit_records::row_check::refused;
use vault_audit_rows::check::{Check, check_rows};
use vault_audit_rows::misread::Misread;

/// A record that is one row of a table, whatever the other rows are.
pub trait Record: Sized + Drop {
    ghost use Rattle.std.specs.Prelude.{◌≡◌, ◌≢◌, ℕ, List, [], IfOk, IfErr, map, false};
    ghost use Rattle.sqlite_value.specs.Order.{Row as Values};
    ghost use Rattle.sqlite_sql.specs.Program.{overlay};
    ghost use Rattle.sqlite_schema.specs.declared.schema.Schema.{Schema};
    ghost use Rattle.sqlite_trees.specs.Tree.{Trees};
    ghost use Rattle.sqlite.specs.Effect.{Database};
    ghost use Rattle.vault_base.specs.declared.refusal.Table.{Table};
    ghost use Rattle.vault_core_model.specs.Vault.{Vault};
    ghost use Rattle.vault_audit_model.specs.declared.schema.SchemaVersion.{SchemaVersion as SchemaVersions};
    ghost use Rattle.vault_audit_model.specs.Spells.{AreSoundAs};
    ghost use Rattle.vault_audit_schema.specs.Places.{BeginTo};
    ghost use Rattle.vault_audit_rows.specs.Records.{AreRecords};
    ghost use Rattle.vault_audit.specs.ShowsAll.{ShowsAll};

    // The table, where its rows are kept, and which schema versions have it.
    ghost table: { Table };

    ghost tree: { ℕ };

    ghost has_table: { SchemaVersions → Type 0 };

    // The columns of the record's row, and whether its values are in their limits.
    ghost as_row: { Self → Values };

    ghost is_in_limits: { SchemaVersions → Self → Type 0 };

    // The columns of a row as it is kept.
    ghost columns: { SchemaVersions → Values → Values };

    // The query for all rows.
    ghost select: { SchemaVersions → List ℕ };

    /// The query for all rows.
    fn select(schema_version: SchemaVersion) -> &'static str
        ensures { result.now ≡ select schema_version };

    /// The record that a row holds: `Wrong` where it holds none in its limits, `Memory` where memory runs out.
    fn read(row: &Row, schema_version: SchemaVersion) -> Result<Self, Misread>
        ensures ok { IfOk result (λ x. (row.now ≡ as_row x) × is_in_limits schema_version x) }
        ensures wrong { IfErr result (λ e. e ≡ Misread.Wrong → (x : Self) → is_in_limits schema_version x → row.now ≢ as_row x) };

    // The query shows the columns of all rows.
    ghost shows_all: { (n : SchemaVersions) (s : Schema) → has_table n → BeginTo n s.tables table → ShowsAll s (select n) tree (columns n) };

    ghost bare: { (trees : Trees) → overlay trees [] tree ≡ trees tree };

    // Where the rows aren't those of such records, the tables are sound for no vault.
    ghost unsound: { (n : SchemaVersions) (db : Database) (v : Vault) → has_table n → AreRecords as_row (is_in_limits n) (map (columns n) (db.trees tree)) false → ¬ AreSoundAs n db v };
}

/// The check of single rows.
#[derive(Drop)]
struct RecordCheck<R> {
    schema_version: SchemaVersion,
    of: PhantomData<R>,
}

impl<R: Record> Check for RecordCheck<R> {
    ghost use Rattle.vault_audit_rows.specs.Records.{ReportsOne};

    ghost takes = { λ c. ReportsOne R.as_row (R.is_in_limits c.schema_version) };

    fn is_passed_by(&self, row: &Row) -> Result<bool, Error> {
        match R::read(row, self.schema_version) {
            Ok(_) => Ok(true),
            Err(misread) => refused(misread),
        }
    }
}

/// Whether each row of the table holds a record in its limits.
pub fn check_table<S: Alter, R: Record>(
    conn: &mut Connection<S>,
    schema_version: SchemaVersion,
) -> Result<bool, Error>
    requires has { R.has_table schema_version }
    requires begin { HasCleanDisk (state S.Store conn.old) → BeginTo schema_version (state S.Store conn.old).now.schema.tables R.table }
    ensures reported { HasCleanDisk (state S.Store conn.new) → IfOk result (AreRecords R.as_row
        (R.is_in_limits schema_version) (map (R.columns schema_version) ((state S.Store conn.new).now.trees R.tree))) }
    ensures damaged { HasCleanDisk (state S.Store conn.new) → IfOk result (λ stated. stated ≡ false → (v : Vault) → ¬ AreSoundAs schema_version (state S.Store conn.new).now v) }
    ensures look { OnlyLooks S.Store conn.old conn.new result }
    ensures err { IsHealthy (state S.Store conn.new) → IfErr result IsMemory }
{
    check_rows(
        conn,
        R::select(schema_version),
        &RecordCheck::<R> {
            schema_version,
            of: PhantomData,
        },
    )
}
