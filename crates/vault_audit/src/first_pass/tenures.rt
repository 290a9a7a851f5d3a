//! The first look at `tenures`: its rows hold records, with values in their limits.
ghost use Rattle.std.specs.Prelude.{◌≡◌, false, IsTrue, IfOk, IfErr};
ghost use Rattle.sqlite.specs.State.{HasCleanDisk};
ghost use Rattle.sqlite.specs.Held.{state};
ghost use Rattle.vault_base.specs.declared.refusal.Table.TheVariants as table;
ghost use Rattle.vault_core_model.specs.Vault.{Vault};
ghost use Rattle.vault_audit_model.specs.Limits.{IsTenureRow};
ghost use Rattle.vault_audit_model.specs.Rows.{tenure_row};
ghost use Rattle.vault_audit_model.specs.Spells.{AreSoundAs, tenure_rows_in};
ghost use Rattle.vault_audit_schema.specs.Places.{BeginTo};
ghost use Rattle.vault_audit_rows.specs.Health.{IsHealthy, IsMemory, OnlyLooks};
ghost use Rattle.vault_audit_rows.specs.Records.{AreRecords};

use crate::first_pass::record::{Record, check_table};
use sqlite::{Alter, Connection, Error, Row};
use vault_audit_model::rows::TenureRow;
use vault_audit_model::schema::SchemaVersion;
use vault_audit_rows::misread::Misread;
use vault_audit_rows::records::read_tenure;
use vault_audit_schema::{select_text, tenures_columns};

impl Record for TenureRow {
    ghost use Rattle.std.specs.Prelude.{[], refl};
    ghost use Rattle.vault_base.specs.declared.refusal.Table.TheVariants as table;
    ghost use Rattle.vault_audit_model.specs.Limits.{IsTenureRow};
    ghost use Rattle.vault_audit_model.specs.Rows.{tenure_row, tenure_columns};
    ghost use Rattle.vault_audit_model.specs.Tables.{tenures, tenures_tree};
    ghost use Rattle.vault_audit_schema.specs.Texts.{select_text};
    ghost use Rattle.vault_audit_tenures.specs.Decided.{HasTenuresTable};
    ghost use Rattle.vault_audit.specs.TenureLaws.{tenure_shows_all, tenure_unsound};

    ghost table = { table.Tenures };

    ghost tree = { tenures_tree };

    ghost has_table = { HasTenuresTable };

    ghost as_row = { tenure_row };

    ghost is_in_limits = { λ _. IsTenureRow };

    ghost columns = { λ _. tenure_columns };

    ghost select = { λ _. select_text tenures [] };

    fn select(_: SchemaVersion) -> &'static str {
        tenures_columns!(select_text)
    }

    fn read(row: &Row, _: SchemaVersion) -> Result<TenureRow, Misread> {
        read_tenure(row)
    }

    ghost shows_all = { tenure_shows_all };

    ghost bare = { λ trees. refl };

    ghost unsound = { tenure_unsound };
}

/// Whether each row of `tenures` holds a record in its limits. A schema version without that table has none.
pub fn check_tenures<S: Alter>(
    conn: &mut Connection<S>,
    schema_version: SchemaVersion,
) -> Result<bool, Error>
    requires begin { HasCleanDisk (state S.Store conn.old) → BeginTo schema_version (state S.Store conn.old).now.schema.tables table.Tenures }
    requires open { HasCleanDisk (state S.Store conn.old) → IsTrue (state S.Store conn.old).is_open }
    ensures reported { HasCleanDisk (state S.Store conn.new) → IfOk result (AreRecords tenure_row IsTenureRow (tenure_rows_in schema_version (state S.Store conn.new).now)) }
    ensures damaged { HasCleanDisk (state S.Store conn.new) → IfOk result (λ stated. stated ≡ false → (v : Vault) → ¬ AreSoundAs schema_version (state S.Store conn.new).now v) }
    ensures look { OnlyLooks S.Store conn.old conn.new result }
    ensures err { IsHealthy (state S.Store conn.new) → IfErr result IsMemory }
{
    match schema_version {
        SchemaVersion::First | SchemaVersion::Second => Ok(true),
        SchemaVersion::Third | SchemaVersion::Fourth => {
            check_table::<S, TenureRow>(conn, schema_version)
        }
    }
}
