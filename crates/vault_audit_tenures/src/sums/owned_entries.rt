//! Entries beside the departments of their buckets.
ghost use Rattle.std.specs.Prelude.{◌≡◌, ◌≢◌, Option, IfOk, IfErr};
ghost use Rattle.vault_audit_tenures.specs.declared.sums.owned_entries.OwnedEntry.{OwnedEntry as Reported};
ghost use Rattle.vault_audit_tenures.specs.OwnedEntries.{owned_row, IsOwned};

use sqlite::Row;
use vault_audit_rows::cell::{flag, moment, moment_or_null, number, version_id};
use vault_audit_rows::misread::Misread;
use vault_audit_rows::name::dept_name_or_null;
use vault_base::moment::Moment;
use vault_base::name::{DeptName, VersionId};

/// What counts of an entry, and whose it is.
#[derive(Drop)]
pub struct OwnedEntry {
    pub id: VersionId,
    /// Whether it is a marker, which counts nowhere.
    pub marker: bool,
    pub size: u64,
    pub admitted: Moment,
    /// The moment of its removal, if it was removed.
    pub removed: Option<Moment>,
    /// The department of its bucket; none where there is no such bucket.
    pub dept: Option<DeptName>,
}

/// The entry that a row holds.
#[tactic(auto, using(vault_audit_rows::proofs::RowLemmas::row_of_6))]
pub fn read_owned(row: &Row) -> Result<OwnedEntry, Misread>
    ensures ok { IfOk result (λ e. row.now ≡ owned_row e) }
    ensures wrong { IfErr result (λ e. e ≡ Misread.Wrong → (x : Reported) → IsOwned x → row.now ≢ owned_row x) }
{
    if row.column_count() != 6 {
        return Err(Misread::Wrong);
    }
    let id = version_id(row, 0).ok_or(Misread::Wrong)?;
    let marker = flag(row, 1).ok_or(Misread::Wrong)?;
    let size = number(row, 2).ok_or(Misread::Wrong)?;
    let admitted = moment(row, 3).ok_or(Misread::Wrong)?;
    let removed = moment_or_null(row, 4).ok_or(Misread::Wrong)?;
    let dept = dept_name_or_null(row, 5)?;
    Ok(OwnedEntry {
        id,
        marker,
        size,
        admitted,
        removed,
        dept,
    })
}
