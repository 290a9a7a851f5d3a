//! Whether the rows of `departments` are departments, by rising name.
ghost use Rattle.std.specs.Prelude.{◌≡◌, ◌↔◌, codes, false, IsTrue, IfOk, IfErr};
ghost use Rattle.sqlite.specs.State.{HasCleanDisk};
ghost use Rattle.sqlite.specs.Held.{state};
ghost use Rattle.vault_core_model.specs.Vault.{Vault};
ghost use Rattle.vault_audit_model.specs.Spells.{AreSoundAs};
ghost use Rattle.vault_audit_model.specs.Relations.{IsAfter};
ghost use Rattle.vault_audit_schema.specs.Selects.{departments_select};
ghost use Rattle.vault_audit_records.specs.ByName.{DecidesDepartments};
ghost use Rattle.vault_audit_rows.specs.Health.{IsHealthy, IsMemory, IsOfSchemaVersion, OnlyLooks};

use crate::row_check::refused;
use sqlite::{Alter, Connection, Error, Row};
use std::marker::Model;
use vault_audit_model::schema::SchemaVersion;
use vault_audit_rows::records::read_department;
use vault_audit_rows::walk::{Pass, walk};
use vault_audit_schema::{departments_columns, earlier_select_text, select_text};
use vault_base::name::DeptName;

/// The check of departments by rising name.
#[derive(Drop)]
pub struct DepartmentPass {
    last: Option<DeptName>,
}

impl Model for DepartmentPass {
    ghost use Rattle.std.specs.Prelude.{ℕ, List, Option};

    ghost Value = { Option (List ℕ) };

    ghost view = { λ p. p.last };
}

/// Whether a name comes after another, or there is no other.
fn is_after(before: &Option<DeptName>, name: &DeptName) -> bool
    ensures { IsTrue result ↔ IsAfter before.now name.now }
{
    match before {
        None => true,
        Some(before) => before < name,
    }
}

impl Pass for DepartmentPass {
    ghost use Rattle.vault_audit_rows.specs.Pass.{Takes, Refuses};
    ghost use Rattle.vault_audit_model.specs.Rows.{department_row};
    ghost use Rattle.vault_audit_records.specs.ByName.{IsNextDepartment, with_department};

    ghost goes = { λ p row q. Takes department_row IsNextDepartment with_department p row q };

    ghost stops = { λ p row. Refuses department_row IsNextDepartment with_department p row };

    #[tactic(auto, using(crate::proofs::NameRowLemmas::one_name))]
    fn take(&mut self, row: &Row) -> Result<bool, Error> {
        let found = match read_department(row) {
            Ok(found) => found,
            Err(misread) => return refused(misread),
        };
        if !is_after(&self.last, &found.name) {
            drop(found);
            return Ok(false);
        }
        self.last = Some(found.name);
        Ok(true)
    }
}

/// The query for the departments by name. What a schema version has no column for is 0.
fn departments_walk(schema_version: SchemaVersion) -> &'static str
    ensures { result.now ≡ departments_select schema_version (codes " ORDER BY name") }
{
    match schema_version {
        SchemaVersion::First | SchemaVersion::Second => {
            departments_columns!(earlier_select_text, " ORDER BY name")
        }
        SchemaVersion::Third | SchemaVersion::Fourth => {
            departments_columns!(select_text, " ORDER BY name")
        }
    }
}

/// Whether the rows of `departments` hold departments with values in their limits, of which no two have one name.
pub fn check_departments_by_name<S: Alter>(
    conn: &mut Connection<S>,
    schema_version: SchemaVersion,
) -> Result<bool, Error>
    requires { IsOfSchemaVersion S.Store conn.old schema_version }
    ensures reported { HasCleanDisk (state S.Store conn.new) → IfOk result (DecidesDepartments schema_version (state S.Store conn.new).now) }
    ensures damaged { HasCleanDisk (state S.Store conn.new) → IfOk result (λ stated. stated ≡ false → (v : Vault) → ¬ AreSoundAs schema_version (state S.Store conn.new).now v) }
    ensures look { OnlyLooks S.Store conn.old conn.new result }
    ensures err { IsHealthy (state S.Store conn.new) → IfErr result IsMemory }
{
    let mut pass = DepartmentPass { last: None };
    walk(conn, departments_walk(schema_version), &mut pass)
}
