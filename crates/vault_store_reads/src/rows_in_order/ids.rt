//! The ids of a key's held entries, the newest first: all of them, or those that are older than one.
//!
//! An index has a key's entries by their removals, those that are held at its end. So the ids of as many as the key's
//! head counts are read from there, and no removed entry is looked at. Another index has a key's entries by their ids:
//! it is read where the key holds more than are asked for, and begins at the one that they have to be older than.
ghost use Rattle.std.specs.Prelude.{◌≡◌, map, filter, take, nat_lt, None, Some, IfOk, IfErr, IsTrue};
ghost use Rattle.vault_base.specs.Name.{is_version_id};
ghost use Rattle.vault_core_model.specs.Reads.{ids_before};
ghost use Rattle.vault_audit_rows.specs.Health.{IsMemory};
ghost use Rattle.vault_store_reads.specs.Quiet.{ReadsQuietly, IsOpenIfOk, SaysOf};
ghost use Rattle.vault_store_reads.specs.Readable.{AreReadable};
ghost use Rattle.vault_store_reads.specs.Shown.{id_row, ids_at};
ghost use Rattle.vault_store_reads.specs.Wants.{WantsMemoryIfErr};

use crate::query::UNREADABLE;
use crate::rows_in_order::count::find_count;
use crate::rows_in_order::rows::open_rows;
use crate::rows_in_order::shown::read_id;
use sqlite::{Alter, Connection, Error, Row, params};
use std::alloc::Global;
use vault_base::name::{BucketName, ObjectKey, VersionId};

/// The rows of the ids of a key's held entries, the newest first: at most `most`. Where that is at most how many the key holds, no removed one is looked at.
fn newest_id_rows<S: Alter>(
    conn: &mut Connection<S>,
    bucket: &BucketName,
    key: &ObjectKey,
    most: u32,
) -> Result<Vec<Row>, Error>
    ensures rows { SaysOf S.Store conn.old conn.new result (λ v rows. rows.items ≡ map id_row (take most (ids_at v bucket.now key.now))) }
    ensures readable { SaysOf S.Store conn.old conn.new result (λ v rows. AreReadable id_row (λ id. IsTrue (is_version_id id)) rows.items) }
    ensures read { ReadsQuietly S.Store conn.old conn.new }
    ensures open { IsOpenIfOk S.Store conn.new result }
    ensures memory { WantsMemoryIfErr S.Store conn.old conn.new result }
{
    open_rows(
        conn,
        "SELECT id FROM entries WHERE bucket = ?1 AND key = ?2 AND removed IS NULL ORDER BY removed, id DESC LIMIT ?3",
        params![bucket.as_str(), key.as_str(), most],
    )
}

/// The rows of those that are older than one: at most `most`. That one and the newer ones aren't looked at. A removed one is, where it lies between those that are found, or where they are fewer.
fn older_id_rows<S: Alter>(
    conn: &mut Connection<S>,
    bucket: &BucketName,
    key: &ObjectKey,
    than: VersionId,
    most: u32,
) -> Result<Vec<Row>, Error>
    ensures rows { SaysOf S.Store conn.old conn.new result (λ v rows. rows.items ≡ map id_row (ids_before v bucket.now key.now (Some than) most)) }
    ensures readable { SaysOf S.Store conn.old conn.new result (λ v rows. AreReadable id_row (λ id. IsTrue (is_version_id id)) rows.items) }
    ensures read { ReadsQuietly S.Store conn.old conn.new }
    ensures open { IsOpenIfOk S.Store conn.new result }
    ensures memory { WantsMemoryIfErr S.Store conn.old conn.new result }
{
    open_rows(
        conn,
        "SELECT id FROM entries WHERE bucket = ?1 AND key = ?2 AND id < ?3 AND removed IS NULL ORDER BY id DESC LIMIT ?4",
        params![bucket.as_str(), key.as_str(), than.number(), most],
    )
}

/// Ids.
fn decode_ids(alloc: Global, rows: &[Row]) -> Result<Vec<VersionId>, Error>
    ensures ok { IfOk result (λ ids. map id_row ids.items ≡ rows.now) }
    ensures memory { AreReadable id_row (λ id. IsTrue (is_version_id id)) rows.now → IfErr result IsMemory }
{
    let mut ids = Vec::new(alloc);
    for row in rows {
        let Some(one) = read_id(row) else {
            return Err(UNREADABLE);
        };
        ids.push(one)?;
    }
    Ok(ids)
}

/// The ids of a key's held entries, the newest first: at most `most`.
fn find_newest<S: Alter>(
    conn: &mut Connection<S>,
    alloc: Global,
    bucket: &BucketName,
    key: &ObjectKey,
    most: u32,
) -> Result<Vec<VersionId>, Error>
    ensures value { SaysOf S.Store conn.old conn.new result (λ v ids. ids.items ≡ take most (ids_at v bucket.now key.now)) }
    ensures read { ReadsQuietly S.Store conn.old conn.new }
    ensures open { IsOpenIfOk S.Store conn.new result }
    ensures memory { WantsMemoryIfErr S.Store conn.old conn.new result }
{
    let rows = newest_id_rows(conn, bucket, key, most)?;
    decode_ids(alloc, &rows)
}

/// Those that are older than one, of the newest: of at most `most`.
fn find_among<S: Alter>(
    conn: &mut Connection<S>,
    alloc: Global,
    bucket: &BucketName,
    key: &ObjectKey,
    than: VersionId,
    most: u32,
) -> Result<Vec<VersionId>, Error>
    ensures value { SaysOf S.Store conn.old conn.new result (λ v ids. ids.items ≡ filter (λ id. nat_lt id than) (take most (ids_at v bucket.now key.now))) }
    ensures read { ReadsQuietly S.Store conn.old conn.new }
    ensures open { IsOpenIfOk S.Store conn.new result }
    ensures memory { WantsMemoryIfErr S.Store conn.old conn.new result }
{
    let mut ids = find_newest(conn, alloc, bucket, key, most)?;
    ids.retain(|id| id.number() < than.number());
    Ok(ids)
}

/// Those that are older than one: at most `most`.
fn find_older<S: Alter>(
    conn: &mut Connection<S>,
    alloc: Global,
    bucket: &BucketName,
    key: &ObjectKey,
    than: VersionId,
    most: u32,
) -> Result<Vec<VersionId>, Error>
    ensures value { SaysOf S.Store conn.old conn.new result (λ v ids. ids.items ≡ ids_before v bucket.now key.now (Some than) most) }
    ensures read { ReadsQuietly S.Store conn.old conn.new }
    ensures open { IsOpenIfOk S.Store conn.new result }
    ensures memory { WantsMemoryIfErr S.Store conn.old conn.new result }
{
    let rows = older_id_rows(conn, bucket, key, than, most)?;
    decode_ids(alloc, &rows)
}

/// The ids of a key's held entries, the newest first: at most `most`, and as many as the key's head counts.
fn find_counted<S: Alter>(
    conn: &mut Connection<S>,
    alloc: Global,
    bucket: &BucketName,
    key: &ObjectKey,
    most: u32,
) -> Result<Vec<VersionId>, Error>
    ensures value { SaysOf S.Store conn.old conn.new result (λ v ids. ids.items ≡ ids_before v bucket.now key.now None most) }
    ensures read { ReadsQuietly S.Store conn.old conn.new }
    ensures open { IsOpenIfOk S.Store conn.new result }
    ensures memory { WantsMemoryIfErr S.Store conn.old conn.new result }
{
    let count = find_count(conn, bucket, key)?;
    find_newest(conn, alloc, bucket, key, most.min(count))
}

/// Those that are older than one: at most `most`. They are sought among all that the key holds, where these are no more.
fn find_below<S: Alter>(
    conn: &mut Connection<S>,
    alloc: Global,
    bucket: &BucketName,
    key: &ObjectKey,
    than: VersionId,
    most: u32,
) -> Result<Vec<VersionId>, Error>
    ensures value { SaysOf S.Store conn.old conn.new result (λ v ids. ids.items ≡ ids_before v bucket.now key.now (Some than) most) }
    ensures read { ReadsQuietly S.Store conn.old conn.new }
    ensures open { IsOpenIfOk S.Store conn.new result }
    ensures memory { WantsMemoryIfErr S.Store conn.old conn.new result }
{
    let count = find_count(conn, bucket, key)?;
    if count <= most {
        return find_among(conn, alloc, bucket, key, than, count);
    }
    find_older(conn, alloc, bucket, key, than, most)
}

/// The ids of a key's held entries that are older than `than`, newest first: at most `most`. Each is older where none
/// is given.
pub fn find_ids<S: Alter>(
    conn: &mut Connection<S>,
    alloc: Global,
    bucket: &BucketName,
    key: &ObjectKey,
    than: Option<VersionId>,
    most: u32,
) -> Result<Vec<VersionId>, Error>
    ensures value { SaysOf S.Store conn.old conn.new result (λ v ids. ids.items ≡ ids_before v bucket.now key.now than most) }
    ensures read { ReadsQuietly S.Store conn.old conn.new }
    ensures open { IsOpenIfOk S.Store conn.new result }
    ensures memory { WantsMemoryIfErr S.Store conn.old conn.new result }
{
    match than {
        Some(than) => find_below(conn, alloc, bucket, key, than, most),
        None => find_counted(conn, alloc, bucket, key, most),
    }
}
