//! What a bucket holds, summed in one pass over its held versions, of which none is kept.
//!
//! Each comes with its last tenure, which is the one that none of the same version follows. Their tenures are found by
//! their key. No index has a bucket's held versions alone, so its removed ones are passed over one by one.
ghost use Rattle.std.specs.Prelude.{◌≡◌, ◌≢◌, ◌+◌, ◌<◌, ◌^◌, MatchOption};
ghost use Rattle.vault_core_model.specs.Totals.{bucket_bytes, bucket_weight};
ghost use Rattle.vault_store_reads.specs.Quiet.{OnlyReads, ReadsQuietly, IsOpenIfOk, SaysOf};
ghost use Rattle.vault_store_reads.specs.Wants.{WantsMemoryIfErr};
ghost use Rattle.vault_store_walks.specs.Sized.{IsSizedRow, sized_row, weight_of};
ghost use Rattle.vault_store_walks.specs.declared.held.SizedRow.{SizedRow as Sized};

use sqlite::{Alter, Connection, Error, ErrorCode, Row, params};
use vault_audit_rows::cell::{moment, number_up_to};
use vault_base::limits::MOST_EXTERNAL;
use vault_base::moment::Moment;
use vault_base::name::BucketName;
use vault_store_reads::query::UNREADABLE;

/// The size of a version, and since when its department has it.
#[derive(Clone, Copy)]
pub struct SizedRow {
    /// In bytes.
    pub size: u64,
    /// When its last tenure began.
    pub from: Moment,
}

/// The size of a version, and since when its department has it.
pub fn read_sized(row: &Row) -> Option<SizedRow>
    ensures { MatchOption result ((x : Sized) → IsSizedRow x → row.now ≢ sized_row x) (λ x. row.now ≡ sized_row x) }
{
    if row.column_count() != 2 {
        return None;
    }
    let size = number_up_to(row, 0, MOST_EXTERNAL)?;
    let from = moment(row, 1)?;
    Some(SizedRow { size, from })
}

/// The bytes and their weight with a version more, where they are numbers of 64 bits.
fn with_version(bytes: u64, weight: u64, version: SizedRow) -> Option<(u64, u64)>
    ensures { MatchOption result (bytes + version.size < 2 ^ 64 → ¬ (weight + weight_of version < 2 ^ 64)) (λ sums. (sums.0 ≡ bytes + version.size) × (sums.1 ≡ weight + weight_of version)) }
{
    let bytes = bytes.checked_add(version.size)?;
    let own = version.size.checked_mul(version.from.day())?;
    let weight = weight.checked_add(own)?;
    Some((bytes, weight))
}

/// The same with the version of a row.
fn with_row(bytes: u64, weight: u64, row: &Row) -> Option<(u64, u64)>
    ensures { MatchOption result ((x : Sized) → IsSizedRow x → row.now ≡ sized_row x → bytes + x.size < 2 ^ 64 → ¬ (weight + weight_of x < 2 ^ 64))
        (λ sums. (x : Sized) × (row.now ≡ sized_row x) × (sums.0 ≡ bytes + x.size) × (sums.1 ≡ weight + weight_of x)) }
{
    match read_sized(row) {
        Some(version) => with_version(bytes, weight, version),
        None => None,
    }
}

/// What `read_bucket_held` does. The sums of a vault are numbers of 64 bits.
fn find_bucket_held<S: Alter>(
    conn: &mut Connection<S>,
    bucket: &BucketName,
) -> Result<(u64, u64), Error>
    ensures value { SaysOf S.Store conn.old conn.new result (λ v held. (held.0 ≡ bucket_bytes v bucket.now) × (held.1 ≡ bucket_weight v bucket.now)) }
    ensures read { ReadsQuietly S.Store conn.old conn.new }
    ensures open { IsOpenIfOk S.Store conn.new result }
    ensures memory { WantsMemoryIfErr S.Store conn.old conn.new result }
{
    let mut rows = conn.query(
        "SELECT e.size, t.moment FROM entries AS e JOIN tenures AS t ON t.id = e.id WHERE e.bucket = ?1 AND e.marker = 0 AND e.removed IS NULL AND NOT EXISTS (SELECT 1 FROM tenures AS u WHERE u.id = t.id AND t.n < u.n)",
        params![bucket.as_str()],
    )?;
    let mut bytes = 0;
    let mut weight = 0;
    'rows: for _ in 0..u64::MAX {
        let Some(row) = rows.next()? else {
            return Ok((bytes, weight));
        };
        let Some(sums) = with_row(bytes, weight, row) else {
            return Err(UNREADABLE);
        };
        bytes = sums.0;
        weight = sums.1;
    }
    Err(Error::SqliteFailure(ErrorCode::OutOfMemory))
}

/// The bytes of a bucket's held versions, and their weight: each size times the day from which the
/// department has the version.
pub fn read_bucket_held<S: Alter>(
    conn: &mut Connection<S>,
    bucket: &BucketName,
) -> Result<(u64, u64), Error>
    ensures value { SaysOf S.Store conn.old conn.new result (λ v held. (held.0 ≡ bucket_bytes v bucket.now) × (held.1 ≡ bucket_weight v bucket.now)) }
    ensures read { OnlyReads S.Store conn.old conn.new }
    ensures open { IsOpenIfOk S.Store conn.new result }
    ensures memory { WantsMemoryIfErr S.Store conn.old conn.new result }
{
    find_bucket_held(conn, bucket)
}
