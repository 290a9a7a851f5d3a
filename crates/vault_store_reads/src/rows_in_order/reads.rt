//! The ordered reads.
ghost use Rattle.std.specs.Prelude.{◌≡◌, IfOk};
ghost use Rattle.sqlite.specs.Held.{state};
ghost use Rattle.sqlite.specs.State.{HasCleanDisk};
ghost use Rattle.vault_core_model.specs.Reads.{buckets_after, entries_of, ids_before, keys_after, setting_of, settings_of, tenures_of};
ghost use Rattle.vault_core_model.specs.Vault.{Vault, rules_of};
ghost use Rattle.vault_store_model.specs.Keeping.{Keeps};
ghost use Rattle.vault_store_model.specs.Sums.{last_tenure_of};
ghost use Rattle.vault_store_reads.specs.Shown.{newest_but};
ghost use Rattle.vault_store_reads.specs.Quiet.{OnlyReads, IsOpenIfOk};
ghost use Rattle.vault_store_reads.specs.Wants.{WantsMemoryIfErr};

use crate::query::UNREADABLE;
use crate::rows_in_order::buckets::find_buckets;
use crate::rows_in_order::decode::{decode_keys, decode_rules, decode_settings, decode_tenures};
use crate::rows_in_order::find::{find_entries, find_last_tenure, find_setting};
use crate::rows_in_order::ids::find_ids;
use crate::rows_in_order::rows::{key_rows, newest_rows, rule_rows, settings_rows, tenure_rows};
use crate::rows_in_order::shown::read_id;
use sqlite::{Alter, Connection, Error};
use std::alloc::Global;
use vault_base::name::{BucketName, KeyPrefix, ObjectKey, VersionId};
use vault_core_model::records::{LastSetting, Settings, Tenure, Tenures};
use vault_rules::plan::Held;
use vault_rules::rule_set::RuleSet;

/// The last setting of a version, and how many it has; a marker has none.
pub fn read_setting<S: Alter>(
    conn: &mut Connection<S>,
    id: VersionId,
) -> Result<Option<LastSetting>, Error>
    ensures value { HasCleanDisk (state S.Store conn.new) → IfOk result (λ found. (v : Vault) → Keeps (state S.Store conn.old) v → found ≡ setting_of v id) }
    ensures read { OnlyReads S.Store conn.old conn.new }
    ensures open { IsOpenIfOk S.Store conn.new result }
    ensures memory { WantsMemoryIfErr S.Store conn.old conn.new result }
{
    find_setting(conn, id)
}

/// The tenures of a version, oldest first; a marker has none, nor has an id that no entry has.
pub fn read_tenures<S: Alter>(
    conn: &mut Connection<S>,
    alloc: Global,
    id: VersionId,
) -> Result<Tenures, Error>
    ensures value { HasCleanDisk (state S.Store conn.new) → IfOk result (λ found. (v : Vault) → Keeps (state S.Store conn.old) v → found ≡ tenures_of v id) }
    ensures read { OnlyReads S.Store conn.old conn.new }
    ensures open { IsOpenIfOk S.Store conn.new result }
    ensures memory { WantsMemoryIfErr S.Store conn.old conn.new result }
{
    let rows = tenure_rows(conn, id)?;
    decode_tenures(alloc, &rows)
}

/// The last tenure of a version; a marker has none.
pub fn read_last_tenure<S: Alter>(
    conn: &mut Connection<S>,
    id: VersionId,
) -> Result<Option<Tenure>, Error>
    ensures value { HasCleanDisk (state S.Store conn.new) → IfOk result (λ found. (v : Vault) → Keeps (state S.Store conn.old) v → found ≡ last_tenure_of v id) }
    ensures read { OnlyReads S.Store conn.old conn.new }
    ensures open { IsOpenIfOk S.Store conn.new result }
    ensures memory { WantsMemoryIfErr S.Store conn.old conn.new result }
{
    find_last_tenure(conn, id)
}

/// The newest held entry of a key besides one.
pub fn read_newest_but<S: Alter>(
    conn: &mut Connection<S>,
    bucket: &BucketName,
    key: &ObjectKey,
    id: VersionId,
) -> Result<Option<VersionId>, Error>
    ensures value { HasCleanDisk (state S.Store conn.new) → IfOk result (λ found. (v : Vault) → Keeps (state S.Store conn.old) v → found ≡ newest_but v bucket.now key.now id) }
    ensures read { OnlyReads S.Store conn.old conn.new }
    ensures open { IsOpenIfOk S.Store conn.new result }
    ensures memory { WantsMemoryIfErr S.Store conn.old conn.new result }
{
    let rows = newest_rows(conn, bucket, key, id)?;
    let Some(row) = rows.first() else {
        return Ok(None);
    };
    let Some(newest) = read_id(row) else {
        return Err(UNREADABLE);
    };
    Ok(Some(newest))
}

/// The lifecycle rules of a bucket, in configuration order; none where it has none.
pub fn read_rules<S: Alter>(
    conn: &mut Connection<S>,
    alloc: Global,
    bucket: &BucketName,
) -> Result<Option<RuleSet>, Error>
    ensures value { HasCleanDisk (state S.Store conn.new) → IfOk result (λ found. (v : Vault) → Keeps (state S.Store conn.old) v → found ≡ rules_of v bucket.now) }
    ensures read { OnlyReads S.Store conn.old conn.new }
    ensures open { IsOpenIfOk S.Store conn.new result }
    ensures memory { WantsMemoryIfErr S.Store conn.old conn.new result }
{
    let rows = rule_rows(conn, bucket)?;
    decode_rules(alloc, &rows)
}

/// The first of a bucket's keys after `after` that have a held entry, by their bytes: at most `most`.
pub fn read_keys<S: Alter>(
    conn: &mut Connection<S>,
    alloc: Global,
    bucket: &BucketName,
    after: &KeyPrefix,
    most: u32,
) -> Result<Vec<ObjectKey>, Error>
    ensures value { HasCleanDisk (state S.Store conn.new) → IfOk result (λ keys. (v : Vault) → Keeps (state S.Store conn.old) v → keys.items ≡ keys_after v bucket.now after.now most) }
    ensures read { OnlyReads S.Store conn.old conn.new }
    ensures open { IsOpenIfOk S.Store conn.new result }
    ensures memory { WantsMemoryIfErr S.Store conn.old conn.new result }
{
    let rows = key_rows(conn, bucket, after, most)?;
    decode_keys(alloc, &rows)
}

/// The ids of a key's held entries that are older than `than`, newest first: at most `most`. Each is older where
/// none is given.
pub fn read_ids<S: Alter>(
    conn: &mut Connection<S>,
    alloc: Global,
    bucket: &BucketName,
    key: &ObjectKey,
    than: Option<VersionId>,
    most: u32,
) -> Result<Vec<VersionId>, Error>
    ensures value { HasCleanDisk (state S.Store conn.new) → IfOk result (λ ids. (v : Vault) → Keeps (state S.Store conn.old) v → ids.items ≡ ids_before v bucket.now key.now than most) }
    ensures read { OnlyReads S.Store conn.old conn.new }
    ensures open { IsOpenIfOk S.Store conn.new result }
    ensures memory { WantsMemoryIfErr S.Store conn.old conn.new result }
{
    find_ids(conn, alloc, bucket, key, than, most)
}

/// The names of the first buckets after `after`, by their bytes: at most `most`. Each name comes after the empty
/// text.
pub fn read_buckets<S: Alter>(
    conn: &mut Connection<S>,
    alloc: Global,
    after: &str,
    most: u32,
) -> Result<Vec<BucketName>, Error>
    ensures value { HasCleanDisk (state S.Store conn.new) → IfOk result (λ names. (v : Vault) → Keeps (state S.Store conn.old) v → names.items ≡ buckets_after v after.now most) }
    ensures read { OnlyReads S.Store conn.old conn.new }
    ensures open { IsOpenIfOk S.Store conn.new result }
    ensures memory { WantsMemoryIfErr S.Store conn.old conn.new result }
{
    find_buckets(conn, alloc, after, most)
}

/// The held entries of a key, oldest first.
pub fn read_entries<S: Alter>(
    conn: &mut Connection<S>,
    alloc: Global,
    bucket: &BucketName,
    key: &ObjectKey,
) -> Result<Vec<Held>, Error>
    ensures value { HasCleanDisk (state S.Store conn.new) → IfOk result (λ held. (v : Vault) → Keeps (state S.Store conn.old) v → held.items ≡ entries_of v bucket.now key.now) }
    ensures read { OnlyReads S.Store conn.old conn.new }
    ensures open { IsOpenIfOk S.Store conn.new result }
    ensures memory { WantsMemoryIfErr S.Store conn.old conn.new result }
{
    find_entries(conn, alloc, bucket, key)
}

/// The settings of a version, oldest first; a marker has none, nor has an id that no entry has.
pub fn read_settings<S: Alter>(
    conn: &mut Connection<S>,
    alloc: Global,
    id: VersionId,
) -> Result<Settings, Error>
    ensures value { HasCleanDisk (state S.Store conn.new) → IfOk result (λ found. (v : Vault) → Keeps (state S.Store conn.old) v → found ≡ settings_of v id) }
    ensures read { OnlyReads S.Store conn.old conn.new }
    ensures open { IsOpenIfOk S.Store conn.new result }
    ensures memory { WantsMemoryIfErr S.Store conn.old conn.new result }
{
    let rows = settings_rows(conn, id)?;
    decode_settings(alloc, &rows)
}
