//! The first look at `callers`: its rows hold records, with values in their limits.
ghost use Rattle.std.specs.Prelude.{◌≡◌, false, IfOk, IfErr};
ghost use Rattle.sqlite.specs.State.{HasCleanDisk};
ghost use Rattle.sqlite.specs.Held.{state};
ghost use Rattle.vault_base.specs.declared.refusal.Table.TheVariants as table;
ghost use Rattle.vault_core_model.specs.Vault.{Vault};
ghost use Rattle.vault_audit_model.specs.Spells.{AreSoundAs};
ghost use Rattle.vault_audit_schema.specs.Places.{BeginTo};
ghost use Rattle.vault_audit.specs.InOrder.{AreRowsRight};
ghost use Rattle.vault_audit_rows.specs.Health.{IsHealthy, IsMemory, OnlyLooks};

use crate::first_pass::record::{Record, check_table};
use sqlite::{Alter, Connection, Error, Row};
use vault_audit_model::schema::SchemaVersion;
use vault_audit_rows::misread::Misread;
use vault_audit_rows::records::read_caller;
use vault_audit_schema::{callers_columns, select_text};
use vault_core_model::records::Caller;

impl Record for Caller {
    ghost use Rattle.std.specs.Prelude.{[], refl, ⊤};
    ghost use Rattle.vault_base.specs.declared.refusal.Table.TheVariants as table;
    ghost use Rattle.vault_audit_model.specs.Limits.{IsCaller};
    ghost use Rattle.vault_audit_model.specs.Rows.{caller_row, caller_columns};
    ghost use Rattle.vault_audit_model.specs.Tables.{callers, callers_tree};
    ghost use Rattle.vault_audit_schema.specs.Texts.{select_text};
    ghost use Rattle.vault_audit.specs.CallerLaws.{caller_shows_all, caller_unsound};

    ghost table = { table.Callers };

    ghost tree = { callers_tree };

    ghost has_table = { λ _. ⊤ };

    ghost as_row = { caller_row };

    ghost is_in_limits = { λ _. IsCaller };

    ghost columns = { λ _. caller_columns };

    ghost select = { λ _. select_text callers [] };

    fn select(_: SchemaVersion) -> &'static str {
        callers_columns!(select_text)
    }

    fn read(row: &Row, _: SchemaVersion) -> Result<Caller, Misread> {
        read_caller(row)
    }

    ghost shows_all = { caller_shows_all };

    ghost bare = { λ trees. refl };

    ghost unsound = { caller_unsound };
}

/// Whether each row of `callers` holds a record in its limits.
pub fn check_callers<S: Alter>(
    conn: &mut Connection<S>,
    schema_version: SchemaVersion,
) -> Result<bool, Error>
    requires { HasCleanDisk (state S.Store conn.old) → BeginTo schema_version (state S.Store conn.old).now.schema.tables table.Callers }
    ensures reported { HasCleanDisk (state S.Store conn.new) → IfOk result (AreRowsRight schema_version (state S.Store conn.new).now table.Callers) }
    ensures damaged { HasCleanDisk (state S.Store conn.new) → IfOk result (λ stated. stated ≡ false → (v : Vault) → ¬ AreSoundAs schema_version (state S.Store conn.new).now v) }
    ensures look { OnlyLooks S.Store conn.old conn.new result }
    ensures err { IsHealthy (state S.Store conn.new) → IfErr result IsMemory }
{
    check_table::<S, Caller>(conn, schema_version)
}
