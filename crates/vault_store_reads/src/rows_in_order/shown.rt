//! Rows of the ordered reads, each read as what it says.
ghost use Rattle.std.specs.Prelude.{◌≡◌, ◌≢◌, ℕ, List, IsTrue, MatchOption, IfOk, IfErr};
ghost use Rattle.vault_base.specs.Name.{is_version_id};
ghost use Rattle.vault_core_model.specs.declared.records.LastSetting.{LastSetting as Last};
ghost use Rattle.vault_audit_model.specs.Limits.{IsBucketName, IsObjectKey};
ghost use Rattle.vault_store_reads.specs.Readable.{IsHeldRow, IsLastSetting};
ghost use Rattle.vault_store_reads.specs.Shown.{last_row, held_row, key_row, id_row, name_row};
ghost use Rattle.vault_store_reads.specs.declared.rows_in_order.shown.HeldRow.{HeldRow as Held};

use sqlite::Row;
use vault_audit_rows::cell::{flag, moment, number_up_to, number_within, version_id};
use vault_audit_rows::misread::Misread;
use vault_audit_rows::name::{bucket_name, object_key};
use vault_audit_rows::several_columns::retention;
use vault_base::limits::{MOST_EXTERNAL, MOST_SETTINGS};
use vault_base::moment::Moment;
use vault_base::name::{BucketName, ObjectKey, VersionId};
use vault_core_model::records::LastSetting;
use vault_lock::lock::Lock;

/// The last setting of a version.
pub fn read_last(row: &Row) -> Option<LastSetting>
    ensures { MatchOption result ((x : Last) → IsLastSetting x → row.now ≢ last_row x) (λ x. row.now ≡ last_row x) }
{
    if row.column_count() != 4 {
        return None;
    }
    let count = number_within(row, 0, 1, MOST_SETTINGS as u32)?;
    let retention = retention(row, 1, 2)?;
    let hold = flag(row, 3)?;
    Some(LastSetting {
        lock: Lock { retention, hold },
        count: u64::from(count),
    })
}

/// A held entry without its lock.
#[derive(Clone, Copy)]
pub struct HeldRow {
    pub id: VersionId,
    pub marker: bool,
    /// In bytes; a marker has 0.
    pub size: u64,
    pub admitted: Moment,
}

/// A held entry without its lock.
pub fn read_held(row: &Row) -> Option<HeldRow>
    ensures { MatchOption result ((x : Held) → IsHeldRow x → row.now ≢ held_row x) (λ x. row.now ≡ held_row x) }
{
    if row.column_count() != 4 {
        return None;
    }
    let id = version_id(row, 0)?;
    let marker = flag(row, 1)?;
    let size = number_up_to(row, 2, MOST_EXTERNAL)?;
    let admitted = moment(row, 3)?;
    Some(HeldRow {
        id,
        marker,
        size,
        admitted,
    })
}

/// A key.
pub fn read_key(row: &Row) -> Result<ObjectKey, Misread>
    ensures ok { IfOk result (λ key. row.now ≡ key_row key) }
    ensures wrong { IfErr result (λ e. e ≡ Misread.Wrong → (key : List ℕ) → IsObjectKey key → row.now ≢ key_row key) }
{
    if row.column_count() != 1 {
        return Err(Misread::Wrong);
    }
    object_key(row, 0)
}

/// The name of a bucket.
pub fn read_name(row: &Row) -> Result<BucketName, Misread>
    ensures ok { IfOk result (λ name. row.now ≡ name_row name) }
    ensures wrong { IfErr result (λ e. e ≡ Misread.Wrong → (name : List ℕ) → IsBucketName name → row.now ≢ name_row name) }
{
    if row.column_count() != 1 {
        return Err(Misread::Wrong);
    }
    bucket_name(row, 0)
}

/// The id of an entry.
pub fn read_id(row: &Row) -> Option<VersionId>
    ensures { MatchOption result ((id : ℕ) → IsTrue (is_version_id id) → row.now ≢ id_row id) (λ id. row.now ≡ id_row id) }
{
    if row.column_count() != 1 {
        return None;
    }
    version_id(row, 0)
}
