//! The first look at `contents`: its rows hold records, with values in their limits.
ghost use Rattle.std.specs.Prelude.{◌≡◌, false, IfOk, IfErr};
ghost use Rattle.sqlite.specs.State.{HasCleanDisk};
ghost use Rattle.sqlite.specs.Held.{state};
ghost use Rattle.vault_base.specs.declared.refusal.Table.TheVariants as table;
ghost use Rattle.vault_core_model.specs.Vault.{Vault};
ghost use Rattle.vault_audit_model.specs.Spells.{AreSoundAs};
ghost use Rattle.vault_audit_schema.specs.Places.{BeginTo};
ghost use Rattle.vault_audit.specs.InOrder.{AreRowsRight};
ghost use Rattle.vault_audit_rows.specs.Health.{IsHealthy, IsMemory, OnlyLooks};

use crate::first_pass::record::{Record, check_table};
use sqlite::{Alter, Connection, Error, Row};
use vault_audit_model::rows::ContentRow;
use vault_audit_model::schema::SchemaVersion;
use vault_audit_rows::misread::Misread;
use vault_audit_rows::records::read_content;
use vault_audit_schema::{contents_columns, select_text};

impl Record for ContentRow {
    ghost use Rattle.std.specs.Prelude.{[], refl, ⊤};
    ghost use Rattle.vault_base.specs.declared.refusal.Table.TheVariants as table;
    ghost use Rattle.vault_audit_model.specs.Limits.{IsContentRow};
    ghost use Rattle.vault_audit_model.specs.Rows.{content_row, content_columns};
    ghost use Rattle.vault_audit_model.specs.Tables.{contents, contents_tree};
    ghost use Rattle.vault_audit_schema.specs.Texts.{select_text};
    ghost use Rattle.vault_audit.specs.ContentLaws.{content_shows_all, content_unsound};

    ghost table = { table.Contents };

    ghost tree = { contents_tree };

    ghost has_table = { λ _. ⊤ };

    ghost as_row = { content_row };

    ghost is_in_limits = { λ _. IsContentRow };

    ghost columns = { λ _. content_columns };

    ghost select = { λ _. select_text contents [] };

    fn select(_: SchemaVersion) -> &'static str {
        contents_columns!(select_text)
    }

    fn read(row: &Row, _: SchemaVersion) -> Result<ContentRow, Misread> {
        read_content(row)
    }

    ghost shows_all = { content_shows_all };

    ghost bare = { λ trees. refl };

    ghost unsound = { content_unsound };
}

/// Whether each row of `contents` holds a record in its limits.
pub fn check_contents<S: Alter>(
    conn: &mut Connection<S>,
    schema_version: SchemaVersion,
) -> Result<bool, Error>
    requires { HasCleanDisk (state S.Store conn.old) → BeginTo schema_version (state S.Store conn.old).now.schema.tables table.Contents }
    ensures reported { HasCleanDisk (state S.Store conn.new) → IfOk result (AreRowsRight schema_version (state S.Store conn.new).now table.Contents) }
    ensures damaged { HasCleanDisk (state S.Store conn.new) → IfOk result (λ stated. stated ≡ false → (v : Vault) → ¬ AreSoundAs schema_version (state S.Store conn.new).now v) }
    ensures look { OnlyLooks S.Store conn.old conn.new result }
    ensures err { IsHealthy (state S.Store conn.new) → IfErr result IsMemory }
{
    check_table::<S, ContentRow>(conn, schema_version)
}
