//! A check of rows that are to say whether a row of another table stands beside one.

use crate::cell::{flag, is_null};
use crate::check::Check;
use sqlite::{Error, Row};

/// The check of such rows: the first value is whether the second is NULL.
pub struct AbsenceCheck {}

impl Check for AbsenceCheck {
    ghost use Rattle.vault_audit_rows.specs.Beside.{ReportsAbsence};

    ghost takes = { λ _. ReportsAbsence };

    fn is_passed_by(&self, row: &Row) -> Result<bool, Error> {
        match flag(row, 0) {
            Some(absent) => Ok(absent == is_null(row, 1)),
            None => Ok(false),
        }
    }
}
