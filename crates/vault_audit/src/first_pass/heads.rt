//! The first look at `heads`: its rows hold records, with values in their limits.
ghost use Rattle.std.specs.Prelude.{◌≡◌, false, IfOk, IfErr};
ghost use Rattle.sqlite.specs.State.{HasCleanDisk};
ghost use Rattle.sqlite.specs.Held.{state};
ghost use Rattle.vault_base.specs.declared.refusal.Table.TheVariants as table;
ghost use Rattle.vault_core_model.specs.Vault.{Vault};
ghost use Rattle.vault_audit_model.specs.Spells.{AreSoundAs};
ghost use Rattle.vault_audit_schema.specs.Places.{BeginTo};
ghost use Rattle.vault_audit.specs.InOrder.{AreRowsRight};
ghost use Rattle.vault_audit_rows.specs.Health.{IsHealthy, IsMemory, OnlyLooks};

use crate::first_pass::record::{Record, check_table};
use sqlite::{Alter, Connection, Error, Row};
use vault_audit_model::rows::HeadRow;
use vault_audit_model::schema::SchemaVersion;
use vault_audit_rows::misread::Misread;
use vault_audit_rows::records::read_head;
use vault_audit_schema::{heads_columns, select_text};

impl Record for HeadRow {
    ghost use Rattle.std.specs.Prelude.{[], refl, ⊤};
    ghost use Rattle.vault_base.specs.declared.refusal.Table.TheVariants as table;
    ghost use Rattle.vault_audit_model.specs.Limits.{IsHeadRow};
    ghost use Rattle.vault_audit_model.specs.Rows.{head_row, head_columns};
    ghost use Rattle.vault_audit_model.specs.Tables.{heads, heads_tree};
    ghost use Rattle.vault_audit_schema.specs.Texts.{select_text};
    ghost use Rattle.vault_audit.specs.HeadLaws.{head_shows_all, head_unsound};

    ghost table = { table.Heads };

    ghost tree = { heads_tree };

    ghost has_table = { λ _. ⊤ };

    ghost as_row = { head_row };

    ghost is_in_limits = { λ _. IsHeadRow };

    ghost columns = { λ _. head_columns };

    ghost select = { λ _. select_text heads [] };

    fn select(_: SchemaVersion) -> &'static str {
        heads_columns!(select_text)
    }

    fn read(row: &Row, _: SchemaVersion) -> Result<HeadRow, Misread> {
        read_head(row)
    }

    ghost shows_all = { head_shows_all };

    ghost bare = { λ trees. refl };

    ghost unsound = { head_unsound };
}

/// Whether each row of `heads` holds a record in its limits.
pub fn check_heads<S: Alter>(
    conn: &mut Connection<S>,
    schema_version: SchemaVersion,
) -> Result<bool, Error>
    requires { HasCleanDisk (state S.Store conn.old) → BeginTo schema_version (state S.Store conn.old).now.schema.tables table.Heads }
    ensures reported { HasCleanDisk (state S.Store conn.new) → IfOk result (AreRowsRight schema_version (state S.Store conn.new).now table.Heads) }
    ensures damaged { HasCleanDisk (state S.Store conn.new) → IfOk result (λ stated. stated ≡ false → (v : Vault) → ¬ AreSoundAs schema_version (state S.Store conn.new).now v) }
    ensures look { OnlyLooks S.Store conn.old conn.new result }
    ensures err { IsHealthy (state S.Store conn.new) → IfErr result IsMemory }
{
    check_table::<S, HeadRow>(conn, schema_version)
}
