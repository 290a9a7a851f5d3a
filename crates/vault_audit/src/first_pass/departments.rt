//! The first look at `departments`: its rows hold records, with values in their limits.
ghost use Rattle.std.specs.Prelude.{◌≡◌, false, IfOk, IfErr};
ghost use Rattle.sqlite.specs.State.{HasCleanDisk};
ghost use Rattle.sqlite.specs.Held.{state};
ghost use Rattle.vault_base.specs.declared.refusal.Table.TheVariants as table;
ghost use Rattle.vault_core_model.specs.Vault.{Vault};
ghost use Rattle.vault_audit_model.specs.Spells.{AreSoundAs};
ghost use Rattle.vault_audit_schema.specs.Places.{BeginTo};
ghost use Rattle.vault_audit.specs.InOrder.{AreRowsRight};
ghost use Rattle.vault_audit_rows.specs.Health.{IsHealthy, IsMemory, OnlyLooks};

use crate::first_pass::record::{Record, check_table};
use sqlite::{Alter, Connection, Error, Row};
use vault_audit_model::rows::DepartmentRow;
use vault_audit_model::schema::SchemaVersion;
use vault_audit_records::departments::query::departments_query;
use vault_audit_rows::misread::Misread;
use vault_audit_rows::records::read_department;

impl Record for DepartmentRow {
    ghost use Rattle.std.specs.Prelude.{[], refl, ⊤};
    ghost use Rattle.vault_base.specs.declared.refusal.Table.TheVariants as table;
    ghost use Rattle.vault_audit_model.specs.Limits.{IsDepartmentRow};
    ghost use Rattle.vault_audit_model.specs.Rows.{department_row, department_columns_as};
    ghost use Rattle.vault_audit_model.specs.Tables.{departments_tree};
    ghost use Rattle.vault_audit_schema.specs.Selects.{departments_select};
    ghost use Rattle.vault_audit.specs.DepartmentLaws.{department_shows_all, department_unsound};

    ghost table = { table.Departments };

    ghost tree = { departments_tree };

    ghost has_table = { λ _. ⊤ };

    ghost as_row = { department_row };

    ghost is_in_limits = { λ _. IsDepartmentRow };

    ghost columns = { department_columns_as };

    ghost select = { λ n. departments_select n [] };

    fn select(schema_version: SchemaVersion) -> &'static str {
        departments_query(schema_version)
    }

    fn read(row: &Row, _: SchemaVersion) -> Result<DepartmentRow, Misread> {
        read_department(row)
    }

    ghost shows_all = { department_shows_all };

    ghost bare = { λ trees. refl };

    ghost unsound = { department_unsound };
}

/// Whether each row of `departments` holds a record in its limits.
pub fn check_departments<S: Alter>(
    conn: &mut Connection<S>,
    schema_version: SchemaVersion,
) -> Result<bool, Error>
    requires { HasCleanDisk (state S.Store conn.old) → BeginTo schema_version (state S.Store conn.old).now.schema.tables table.Departments }
    ensures reported { HasCleanDisk (state S.Store conn.new) → IfOk result (AreRowsRight schema_version (state S.Store conn.new).now table.Departments) }
    ensures damaged { HasCleanDisk (state S.Store conn.new) → IfOk result (λ stated. stated ≡ false → (v : Vault) → ¬ AreSoundAs schema_version (state S.Store conn.new).now v) }
    ensures look { OnlyLooks S.Store conn.old conn.new result }
    ensures err { IsHealthy (state S.Store conn.new) → IfErr result IsMemory }
{
    check_table::<S, DepartmentRow>(conn, schema_version)
}
