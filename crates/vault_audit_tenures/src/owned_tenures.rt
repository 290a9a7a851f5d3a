//! Tenures beside their versions and the departments of their buckets.
ghost use Rattle.std.specs.Prelude.{◌≡◌, ◌≢◌, Option, IfOk, IfErr};
ghost use Rattle.vault_audit_tenures.specs.declared.owned_tenures.OwnedTenure.{OwnedTenure as Reported};
ghost use Rattle.vault_audit_tenures.specs.OwnedTenures.{owned_row, IsOwned};

use sqlite::Row;
use vault_audit_rows::cell::{moment, moment_or_null, number_within, version_id};
use vault_audit_rows::misread::Misread;
use vault_audit_rows::name::{dept_name, dept_name_or_null};
use vault_base::limits::MOST_MOVES;
use vault_base::moment::Moment;
use vault_base::name::{DeptName, VersionId};
use vault_core_model::records::Tenure;

/// A tenure of a version, and what it is compared with.
#[derive(Drop)]
pub struct OwnedTenure {
    /// The version's id.
    pub id: VersionId,
    pub tenure: Tenure,
    /// The moment of the version's admission.
    pub admitted: Moment,
    /// The moment of its removal, if it was removed.
    pub removed: Option<Moment>,
    /// The department of its bucket; none where there is no such bucket.
    pub owner: Option<DeptName>,
}

/// The tenure that a row holds.
#[tactic(auto, using(vault_audit_rows::proofs::RowLemmas::row_of_7))]
pub fn read_owned(row: &Row) -> Result<OwnedTenure, Misread>
    ensures ok { IfOk result (λ t. (row.now ≡ owned_row t) × IsOwned t) }
    ensures wrong { IfErr result (λ e. e ≡ Misread.Wrong → (x : Reported) → IsOwned x → row.now ≢ owned_row x) }
{
    if row.column_count() != 7 {
        return Err(Misread::Wrong);
    }
    let id = version_id(row, 0).ok_or(Misread::Wrong)?;
    let number = number_within(row, 1, 0, MOST_MOVES).ok_or(Misread::Wrong)?;
    let from = moment(row, 3).ok_or(Misread::Wrong)?;
    let admitted = moment(row, 4).ok_or(Misread::Wrong)?;
    let removed = moment_or_null(row, 5).ok_or(Misread::Wrong)?;
    let dept = dept_name(row, 2)?;
    let owner = dept_name_or_null(row, 6)?;
    Ok(OwnedTenure {
        id,
        tenure: Tenure { dept, from, number },
        admitted,
        removed,
        owner,
    })
}
