//! The first look at `external`: its rows hold records, with values in their limits.
ghost use Rattle.std.specs.Prelude.{◌≡◌, false, IsTrue, IfOk, IfErr};
ghost use Rattle.sqlite.specs.State.{HasCleanDisk};
ghost use Rattle.sqlite.specs.Held.{state};
ghost use Rattle.vault_base.specs.declared.refusal.Table.TheVariants as table;
ghost use Rattle.vault_core_model.specs.Vault.{Vault};
ghost use Rattle.vault_audit_model.specs.Limits.{IsExternalRow};
ghost use Rattle.vault_audit_model.specs.Rows.{external_row};
ghost use Rattle.vault_audit_model.specs.Spells.{AreSoundAs, external_rows_in};
ghost use Rattle.vault_audit_schema.specs.Places.{BeginTo};
ghost use Rattle.vault_audit_rows.specs.Health.{IsHealthy, IsMemory, OnlyLooks};
ghost use Rattle.vault_audit_rows.specs.Records.{AreRecords};

use crate::first_pass::record::{Record, check_table};
use sqlite::{Alter, Connection, Error, Row};
use vault_audit_model::schema::SchemaVersion;
use vault_audit_rows::misread::Misread;
use vault_audit_rows::records::read_external;
use vault_audit_schema::{external_columns, select_text};
use vault_base::name::VersionId;

impl Record for VersionId {
    ghost use Rattle.std.specs.Prelude.{[], refl};
    ghost use Rattle.vault_base.specs.declared.refusal.Table.TheVariants as table;
    ghost use Rattle.vault_audit_model.specs.Limits.{IsExternalRow};
    ghost use Rattle.vault_audit_model.specs.Rows.{external_row, external_columns};
    ghost use Rattle.vault_audit_model.specs.Tables.{external, external_tree};
    ghost use Rattle.vault_audit_schema.specs.Texts.{select_text};
    ghost use Rattle.vault_audit.specs.ExternalLaws.{HasExternalTable, external_shows_all, external_unsound};

    ghost table = { table.External };

    ghost tree = { external_tree };

    ghost has_table = { HasExternalTable };

    ghost as_row = { external_row };

    ghost is_in_limits = { λ _. IsExternalRow };

    ghost columns = { λ _. external_columns };

    ghost select = { λ _. select_text external [] };

    fn select(_: SchemaVersion) -> &'static str {
        external_columns!(select_text)
    }

    fn read(row: &Row, _: SchemaVersion) -> Result<VersionId, Misread> {
        read_external(row)
    }

    ghost shows_all = { external_shows_all };

    ghost bare = { λ trees. refl };

    ghost unsound = { external_unsound };
}

/// Whether each row of `external` holds a record in its limits. A schema version without that table has none.
pub fn check_external<S: Alter>(
    conn: &mut Connection<S>,
    schema_version: SchemaVersion,
) -> Result<bool, Error>
    requires begin { HasCleanDisk (state S.Store conn.old) → BeginTo schema_version (state S.Store conn.old).now.schema.tables table.External }
    requires open { HasCleanDisk (state S.Store conn.old) → IsTrue (state S.Store conn.old).is_open }
    ensures reported { HasCleanDisk (state S.Store conn.new) → IfOk result (AreRecords external_row IsExternalRow (external_rows_in schema_version (state S.Store conn.new).now)) }
    ensures damaged { HasCleanDisk (state S.Store conn.new) → IfOk result (λ stated. stated ≡ false → (v : Vault) → ¬ AreSoundAs schema_version (state S.Store conn.new).now v) }
    ensures look { OnlyLooks S.Store conn.old conn.new result }
    ensures err { IsHealthy (state S.Store conn.new) → IfErr result IsMemory }
{
    match schema_version {
        SchemaVersion::First | SchemaVersion::Second | SchemaVersion::Third => Ok(true),
        SchemaVersion::Fourth => check_table::<S, VersionId>(conn, schema_version),
    }
}
