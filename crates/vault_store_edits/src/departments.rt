//! Rows of `departments`.
ghost use Rattle.std.specs.Prelude.{◌≡◌};
ghost use Rattle.vault_base.specs.declared.refusal.Table.TheVariants as table;
ghost use Rattle.vault_audit_model.specs.Limits.{IsPlainName};
ghost use Rattle.vault_audit_model.specs.Rows.{department_row};
ghost use Rattle.vault_store_model.specs.Edits.{with_row, with_changed};
ghost use Rattle.vault_store_model.specs.Tests.{is_named, with_sums};
ghost use Rattle.vault_store_edits.specs.Inside.{IsEdit, IsEditOfSound};
ghost use Rattle.vault_store_edits.specs.NewRows.{new_department};

use crate::parameters::whole;
use crate::put::{Put, put_row};
use crate::rowids::check_rowids;
use sqlite::{Alter, Error, Transaction, params};
use vault_audit_schema::{departments_columns, insert_text};
use vault_base::name::DeptName;
use vault_base::refusal::Table;
use vault_tally::row::Row;

/// A department with nothing admitted.
#[derive(Clone, Copy)]
struct NewDepartment<'a> {
    name: &'a DeptName,
}

impl<'a> Put for NewDepartment<'a> {
    ghost use Rattle.vault_base.specs.declared.refusal.Table.TheVariants as table;
    ghost use Rattle.vault_audit_model.specs.Rows.{department_row};
    ghost use Rattle.vault_store_edits.specs.DepartmentLaws.{department_inserts};
    ghost use Rattle.vault_audit_model.specs.Limits.{IsPlainName};
    ghost use Rattle.vault_store_edits.specs.NewRows.{new_department};

    ghost table = { table.Departments };

    ghost as_row = { λ x. department_row (new_department x.name.now) };

    ghost typed = { λ x r. IsPlainName x.name.now };

    fn insert<S: Alter>(&self, tx: &mut Transaction<'_, S>) -> Result<usize, Error> {
        tx.execute(
            departments_columns!(insert_text),
            params![self.name.as_str(), 0u32, 0u32, 0u32, 0u32, 0u32, 0u32, 0u32],
        )
    }

    ghost inserts = { λ external there x. department_inserts external (new_department x.name.now) };
}

/// Puts in a department with nothing admitted.
pub fn put_department<S: Alter>(
    tx: &mut Transaction<'_, S>,
    name: &DeptName,
) -> Result<usize, Error>
    ensures same_reference { tx.new.conn.ghost_name ≡ tx.old.conn.ghost_name }
    ensures edit { IsEdit S.Store tx.old.conn.now tx.new.conn.now result (with_row table.Departments (department_row (new_department name.now))) }
    ensures limits { IsPlainName name.now }
{
    put_row(tx, &NewDepartment { name })
}

/// Writes these sums into the row of the department. `TooBig` where one is 2^63 or more.
pub fn set_sums<S: Alter>(
    tx: &mut Transaction<'_, S>,
    name: &DeptName,
    sums: &Row,
) -> Result<usize, Error>
    ensures same_reference { tx.new.conn.ghost_name ≡ tx.old.conn.ghost_name }
    ensures edit { IsEditOfSound S.Store tx.old.conn.now tx.new.conn.now result (with_changed table.Departments (is_named name.now) (with_sums sums.now)) }
{
    let admitted = whole(sums.admitted)?;
    let held = whole(sums.held)?;
    let removed = whole(sums.removed)?;
    let weighted = whole(sums.weighted)?;
    let closed = whole(sums.closed)?;
    let received = whole(sums.received)?;
    let handed = whole(sums.handed)?;
    check_rowids(
        tx,
        Table::Departments,
        "SELECT rowid FROM departments WHERE name = ?1",
        params![name.as_str()],
    )?;
    tx.execute(
        "UPDATE departments SET admitted = ?2, held = ?3, removed = ?4, weighted = ?5, closed = ?6, received = ?7, handed = ?8 WHERE name = ?1",
        params![
            name.as_str(),
            admitted,
            held,
            removed,
            weighted,
            closed,
            received,
            handed
        ],
    )
}
