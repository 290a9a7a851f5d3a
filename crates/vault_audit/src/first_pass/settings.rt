//! The first look at `settings`: its rows hold records, with values in their limits.
ghost use Rattle.std.specs.Prelude.{◌≡◌, false, IfOk, IfErr};
ghost use Rattle.sqlite.specs.State.{HasCleanDisk};
ghost use Rattle.sqlite.specs.Held.{state};
ghost use Rattle.vault_base.specs.declared.refusal.Table.TheVariants as table;
ghost use Rattle.vault_core_model.specs.Vault.{Vault};
ghost use Rattle.vault_audit_model.specs.Spells.{AreSoundAs};
ghost use Rattle.vault_audit_schema.specs.Places.{BeginTo};
ghost use Rattle.vault_audit.specs.InOrder.{AreRowsRight};
ghost use Rattle.vault_audit_rows.specs.Health.{IsHealthy, IsMemory, OnlyLooks};

use crate::first_pass::record::{Record, check_table};
use sqlite::{Alter, Connection, Error, Row};
use vault_audit_model::rows::SettingRow;
use vault_audit_model::schema::SchemaVersion;
use vault_audit_rows::misread::Misread;
use vault_audit_rows::records::read_setting;
use vault_audit_schema::{select_text, settings_columns};

impl Record for SettingRow {
    ghost use Rattle.std.specs.Prelude.{[], refl, ⊤};
    ghost use Rattle.vault_base.specs.declared.refusal.Table.TheVariants as table;
    ghost use Rattle.vault_audit_model.specs.Limits.{IsSettingRow};
    ghost use Rattle.vault_audit_model.specs.Rows.{setting_row, setting_columns};
    ghost use Rattle.vault_audit_model.specs.Tables.{settings, settings_tree};
    ghost use Rattle.vault_audit_schema.specs.Texts.{select_text};
    ghost use Rattle.vault_audit.specs.SettingLaws.{setting_shows_all, setting_unsound};

    ghost table = { table.Settings };

    ghost tree = { settings_tree };

    ghost has_table = { λ _. ⊤ };

    ghost as_row = { setting_row };

    ghost is_in_limits = { λ _. IsSettingRow };

    ghost columns = { λ _. setting_columns };

    ghost select = { λ _. select_text settings [] };

    fn select(_: SchemaVersion) -> &'static str {
        settings_columns!(select_text)
    }

    fn read(row: &Row, _: SchemaVersion) -> Result<SettingRow, Misread> {
        read_setting(row)
    }

    ghost shows_all = { setting_shows_all };

    ghost bare = { λ trees. refl };

    ghost unsound = { setting_unsound };
}

/// Whether each row of `settings` holds a record in its limits.
pub fn check_settings<S: Alter>(
    conn: &mut Connection<S>,
    schema_version: SchemaVersion,
) -> Result<bool, Error>
    requires { HasCleanDisk (state S.Store conn.old) → BeginTo schema_version (state S.Store conn.old).now.schema.tables table.Settings }
    ensures reported { HasCleanDisk (state S.Store conn.new) → IfOk result (AreRowsRight schema_version (state S.Store conn.new).now table.Settings) }
    ensures damaged { HasCleanDisk (state S.Store conn.new) → IfOk result (λ stated. stated ≡ false → (v : Vault) → ¬ AreSoundAs schema_version (state S.Store conn.new).now v) }
    ensures look { OnlyLooks S.Store conn.old conn.new result }
    ensures err { IsHealthy (state S.Store conn.new) → IfErr result IsMemory }
{
    check_table::<S, SettingRow>(conn, schema_version)
}
