//! The rows of the departments beside the sums that were taken.
ghost use Rattle.std.specs.Prelude.{◌≡◌, ◌↔◌, Some, IsTrue, IfOk, IfErr};
ghost use Rattle.sqlite.specs.State.{HasCleanDisk};
ghost use Rattle.sqlite.specs.Held.{state};
ghost use Rattle.vault_audit_tenures.specs.DepartmentSums.{HaveTotals};
ghost use Rattle.vault_audit_tenures.specs.Totals.{total_of};
ghost use Rattle.vault_audit_rows.specs.Health.{IsHealthy, IsMemory, IsOfSchemaVersion, OnlyLooks};

use crate::sums::totals::Totals;
use sqlite::{Alter, Connection, Error, Row};
use vault_audit_model::rows::DepartmentRow;
use vault_audit_model::schema::SchemaVersion;
use vault_audit_records::departments::query::departments_query;
use vault_audit_records::row_check::refused;
use vault_audit_rows::check::{Check, check_rows};
use vault_audit_rows::records::read_department;

/// The check that a row of `departments` has these sums.
#[derive(Drop)]
pub struct SumsCheck {
    pub totals: Totals,
}

/// Whether the department's row has the sums that were taken.
fn has_total(totals: &Totals, department: &DepartmentRow) -> bool
    ensures { IsTrue result ↔ (total_of totals.now department.now.name ≡ Some department.now.sums) }
{
    match totals.total(&department.name) {
        Some(sums) => sums == department.sums,
        None => false,
    }
}

impl Check for SumsCheck {
    ghost use Rattle.vault_audit_model.specs.Rows.{department_row};
    ghost use Rattle.vault_audit_tenures.specs.DepartmentSums.{HasTotal};
    ghost use Rattle.vault_audit_rows.specs.Records.{ReportsOne};

    ghost takes = { λ c. ReportsOne department_row (HasTotal c.totals) };

    #[tactic(auto, using(crate::proofs::SumRowLemmas::one_department))]
    fn is_passed_by(&self, row: &Row) -> Result<bool, Error> {
        match read_department(row) {
            Ok(department) => Ok(has_total(&self.totals, &department)),
            Err(misread) => refused(misread),
        }
    }
}

/// Whether each row of `departments` holds a department in its limits that has these sums.
pub fn check_totals<S: Alter>(
    conn: &mut Connection<S>,
    schema_version: SchemaVersion,
    check: &SumsCheck,
) -> Result<bool, Error>
    requires { IsOfSchemaVersion S.Store conn.old schema_version }
    ensures reported { HasCleanDisk (state S.Store conn.new) → IfOk result (HaveTotals check.now.totals schema_version (state S.Store conn.new).now) }
    ensures look { OnlyLooks S.Store conn.old conn.new result }
    ensures err { IsHealthy (state S.Store conn.new) → IfErr result IsMemory }
{
    check_rows(conn, departments_query(schema_version), check)
}
