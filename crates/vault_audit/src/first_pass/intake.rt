//! The first look at `intake`: its rows hold records, with values in their limits.
ghost use Rattle.std.specs.Prelude.{◌≡◌, false, IfOk, IfErr};
ghost use Rattle.sqlite.specs.State.{HasCleanDisk};
ghost use Rattle.sqlite.specs.Held.{state};
ghost use Rattle.vault_base.specs.declared.refusal.Table.TheVariants as table;
ghost use Rattle.vault_core_model.specs.Vault.{Vault};
ghost use Rattle.vault_audit_model.specs.Spells.{AreSoundAs};
ghost use Rattle.vault_audit_schema.specs.Places.{BeginTo};
ghost use Rattle.vault_audit.specs.InOrder.{AreRowsRight};
ghost use Rattle.vault_audit_rows.specs.Health.{IsHealthy, IsMemory, OnlyLooks};

use crate::first_pass::record::{Record, check_table};
use sqlite::{Alter, Connection, Error, Row};
use vault_audit_model::schema::SchemaVersion;
use vault_audit_rows::misread::Misread;
use vault_audit_rows::records::read_note;
use vault_audit_schema::{intake_columns, select_text};
use vault_core_model::records::Note;

impl Record for Note {
    ghost use Rattle.std.specs.Prelude.{[], refl, ⊤};
    ghost use Rattle.vault_base.specs.declared.refusal.Table.TheVariants as table;
    ghost use Rattle.vault_audit_model.specs.Limits.{IsNote};
    ghost use Rattle.vault_audit_model.specs.Rows.{note_row, note_columns};
    ghost use Rattle.vault_audit_model.specs.SchemaVersions.{is_external};
    ghost use Rattle.vault_audit_model.specs.Tables.{intake, intake_tree};
    ghost use Rattle.vault_audit_schema.specs.Texts.{select_text};
    ghost use Rattle.vault_audit.specs.NoteLaws.{note_shows_all, note_unsound};

    ghost table = { table.Intake };

    ghost tree = { intake_tree };

    ghost has_table = { λ _. ⊤ };

    ghost as_row = { note_row };

    ghost is_in_limits = { λ n. IsNote (is_external n) };

    ghost columns = { λ _. note_columns };

    ghost select = { λ _. select_text intake [] };

    fn select(_: SchemaVersion) -> &'static str {
        intake_columns!(select_text)
    }

    fn read(row: &Row, schema_version: SchemaVersion) -> Result<Note, Misread> {
        read_note(row, schema_version.is_external())
    }

    ghost shows_all = { note_shows_all };

    ghost bare = { λ trees. refl };

    ghost unsound = { note_unsound };
}

/// Whether each row of `intake` holds a record in its limits.
pub fn check_intake<S: Alter>(
    conn: &mut Connection<S>,
    schema_version: SchemaVersion,
) -> Result<bool, Error>
    requires { HasCleanDisk (state S.Store conn.old) → BeginTo schema_version (state S.Store conn.old).now.schema.tables table.Intake }
    ensures reported { HasCleanDisk (state S.Store conn.new) → IfOk result (AreRowsRight schema_version (state S.Store conn.new).now table.Intake) }
    ensures damaged { HasCleanDisk (state S.Store conn.new) → IfOk result (λ stated. stated ≡ false → (v : Vault) → ¬ AreSoundAs schema_version (state S.Store conn.new).now v) }
    ensures look { OnlyLooks S.Store conn.old conn.new result }
    ensures err { IsHealthy (state S.Store conn.new) → IfErr result IsMemory }
{
    check_table::<S, Note>(conn, schema_version)
}
