//! The reads that ask more than once, where each leaves the connection open for the next.
ghost use Rattle.std.specs.Prelude.{◌≡◌, false, map, IsTrue, OnOk};
ghost use Rattle.sqlite.specs.Held.{state};
ghost use Rattle.sqlite.specs.State.{HasCleanDisk};
ghost use Rattle.vault_core_model.specs.Reads.{entries_of, setting_of};
ghost use Rattle.vault_core_model.specs.Sound.{Sound};
ghost use Rattle.vault_store_model.specs.Sums.{last_tenure_of};
ghost use Rattle.vault_store_reads.specs.Quiet.{ReadsQuietly, IsOpenIfOk, SaysOf};
ghost use Rattle.vault_store_reads.specs.Wants.{WantsMemoryIfErr};
ghost use Rattle.vault_store_reads.specs.Shown.{held_row, entry_shown, with_lock_in};

use crate::query::UNREADABLE;
use crate::rows_in_order::count::find_count;
use crate::rows_in_order::decode::{decode_held, decode_tenure};
use crate::rows_in_order::rows::{entry_rows, last_tenure_rows, setting_rows};
use crate::rows_in_order::shown::{HeldRow, read_last};
use sqlite::{Alter, Connection, Error};
use std::alloc::Global;
use vault_base::name::{BucketName, ObjectKey, VersionId};
use vault_core_model::records::{LastSetting, Tenure};
use vault_lock::lock::Lock;
use vault_rules::plan::Held;

/// The last setting of a version, and how many it has; a marker has none.
pub fn find_setting<S: Alter>(
    conn: &mut Connection<S>,
    id: VersionId,
) -> Result<Option<LastSetting>, Error>
    ensures value { SaysOf S.Store conn.old conn.new result (λ v found. found ≡ setting_of v id) }
    ensures read { ReadsQuietly S.Store conn.old conn.new }
    ensures open { IsOpenIfOk S.Store conn.new result }
    ensures memory { WantsMemoryIfErr S.Store conn.old conn.new result }
{
    let rows = setting_rows(conn, id)?;
    let Some(row) = rows.first() else {
        return Ok(None);
    };
    let Some(last) = read_last(row) else {
        return Err(UNREADABLE);
    };
    Ok(Some(last))
}

/// The last tenure of a version; a marker has none.
pub fn find_last_tenure<S: Alter>(
    conn: &mut Connection<S>,
    id: VersionId,
) -> Result<Option<Tenure>, Error>
    ensures value { SaysOf S.Store conn.old conn.new result (λ v found. found ≡ last_tenure_of v id) }
    ensures read { ReadsQuietly S.Store conn.old conn.new }
    ensures open { IsOpenIfOk S.Store conn.new result }
    ensures memory { WantsMemoryIfErr S.Store conn.old conn.new result }
{
    let rows = last_tenure_rows(conn, id)?;
    let Some(row) = rows.first() else {
        return Ok(None);
    };
    let tenure = decode_tenure(row)?;
    Ok(Some(tenure))
}

/// The entry with the lock that its last setting gives; one without settings has none.
fn with_lock<S: Alter>(conn: &mut Connection<S>, held: HeldRow) -> Result<Held, Error>
    ensures value { SaysOf S.Store conn.old conn.new result (λ v locked. locked ≡ with_lock_in v held) }
    ensures read { ReadsQuietly S.Store conn.old conn.new }
    ensures open { IsOpenIfOk S.Store conn.new result }
    ensures memory { WantsMemoryIfErr S.Store conn.old conn.new result }
{
    let last = find_setting(conn, held.id)?;
    let lock = last.map_or(
        Lock {
            retention: None,
            hold: false,
        },
        |last| last.lock,
    );
    Ok(Held {
        id: held.id,
        marker: held.marker,
        size: held.size,
        admitted: held.admitted,
        lock,
    })
}

/// These entries, each with its lock.
fn with_locks<S: Alter>(
    conn: &mut Connection<S>,
    alloc: Global,
    entries: &[HeldRow],
) -> Result<Vec<Held>, Error>
    ensures value { SaysOf S.Store conn.old conn.new result (λ v locked. locked.items ≡ map (with_lock_in v) entries.now) }
    ensures read { ReadsQuietly S.Store conn.old conn.new }
    ensures open { HasCleanDisk (state S.Store conn.new) → IsTrue (state S.Store conn.old).is_open → OnOk result (IsTrue (state S.Store conn.new).is_open) }
    ensures memory { WantsMemoryIfErr S.Store conn.old conn.new result }
{
    let mut locked = Vec::new(alloc);
    for entry in entries {
        let one = with_lock(conn, *entry)?;
        locked.push(one)?;
    }
    Ok(locked)
}

/// The held entries of a key, oldest first, without their locks.
fn find_bare<S: Alter>(
    conn: &mut Connection<S>,
    alloc: Global,
    bucket: &BucketName,
    key: &ObjectKey,
) -> Result<Vec<HeldRow>, Error>
    ensures value { SaysOf S.Store conn.old conn.new result (λ v held. (map held_row held.items ≡ map entry_shown (entries_of v bucket.now key.now)) × Sound v) }
    ensures read { ReadsQuietly S.Store conn.old conn.new }
    ensures open { IsOpenIfOk S.Store conn.new result }
    ensures memory { WantsMemoryIfErr S.Store conn.old conn.new result }
{
    let count = find_count(conn, bucket, key)?;
    if count == 0 {
        return Ok(Vec::new(alloc));
    }
    let rows = entry_rows(conn, bucket, key, count)?;
    let mut held = decode_held(alloc, &rows)?;
    held.reverse();
    Ok(held)
}

/// The held entries of a key, oldest first.
pub fn find_entries<S: Alter>(
    conn: &mut Connection<S>,
    alloc: Global,
    bucket: &BucketName,
    key: &ObjectKey,
) -> Result<Vec<Held>, Error>
    ensures value { SaysOf S.Store conn.old conn.new result (λ v held. held.items ≡ entries_of v bucket.now key.now) }
    ensures read { ReadsQuietly S.Store conn.old conn.new }
    ensures open { IsOpenIfOk S.Store conn.new result }
    ensures memory { WantsMemoryIfErr S.Store conn.old conn.new result }
{
    let entries = find_bare(conn, alloc, bucket, key)?;
    with_locks(conn, alloc, &entries)
}
