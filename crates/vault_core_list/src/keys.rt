//! The keys of a bucket, each once, in the order of their bytes.
ghost use Rattle.std.specs.Prelude.{◌≡◌, IfOk, OnOk, Some, filter, map, slice_get, take};
ghost use Rattle.std.specs.Cmp.Lexicographic.{slice_cmp};
ghost use Rattle.std.specs.List.{prefix_len};
ghost use Rattle.std.specs.Option.{option_eq};
ghost use Rattle.std.specs.Ordering.{is_gt, nat_cmp};
ghost use Rattle.std.specs.Str.{bytes_eq};
ghost use Rattle.vault_core_model.specs.Places.{comes_after, is_held_in, key_set, with_key};

use std::alloc::{AllocError, Global};
use vault_base::name::{BucketName, KeyPrefix, ObjectKey};
use vault_core_model::records::{Entry, History};

/// Whether the entry is held in that bucket.
fn is_held_in(bucket: &BucketName, entry: &Entry) -> bool
    ensures { result ≡ is_held_in bucket.now entry.now }
{
    entry.bucket == *bucket && entry.removal.is_none()
}

/// How many of the keys come before this one.
fn count_before(keys: &[ObjectKey], key: &ObjectKey) -> usize
    ensures { result ≡ prefix_len (λ other. is_gt (slice_cmp nat_cmp key.now other)) keys.now }
{
    keys.iter().take_while(|other| *key > **other).count()
}

/// Whether that key stands at that place.
fn is_at(keys: &[ObjectKey], index: usize, key: &ObjectKey) -> bool
    ensures { result ≡ option_eq bytes_eq (slice_get keys.now index) (Some key.now) }
{
    keys.get(index) == Some(key)
}

/// Puts a key at its place among the others, where it isn't one of them.
fn add(keys: &mut Vec<ObjectKey>, key: &ObjectKey) -> Result<(), AllocError>
    ensures { OnOk result (keys.new.items ≡ with_key key.now keys.old.items) }
{
    let index = count_before(keys, key);
    if !is_at(keys, index, key) {
        keys.insert(index, key.clone()?)?;
    }
    Ok(())
}

/// The keys of a bucket that have a held entry.
fn held(
    alloc: Global,
    histories: &[History],
    bucket: &BucketName,
) -> Result<Vec<ObjectKey>, AllocError>
    ensures { IfOk result (λ keys. keys.items ≡ key_set (map (λ h. h.entry.key) (filter (λ h. is_held_in bucket.now h.entry) histories.now))) }
{
    let mut keys = Vec::new(alloc);
    // From the newest back, so that these are always the keys from some entry on.
    for history in histories.iter().rev() {
        if is_held_in(bucket, &history.entry) {
            add(&mut keys, &history.entry.key)?;
        }
    }
    Ok(keys)
}

/// Whether the key comes after that one; every key comes after the empty text.
fn comes_after(key: &ObjectKey, after: &KeyPrefix) -> bool
    ensures { result ≡ comes_after key.now after.now }
{
    after.as_str().is_empty() || key.as_str() > after.as_str()
}

/// The first of the bucket's keys after `after` that have a held entry: at most `most`.
pub(crate) fn later(
    alloc: Global,
    histories: &[History],
    bucket: &BucketName,
    after: &KeyPrefix,
    most: u32,
) -> Result<Vec<ObjectKey>, AllocError>
    ensures { IfOk result (λ keys. keys.items ≡ take most (filter (λ k. comes_after k after.now) (key_set (map (λ h. h.entry.key) (filter (λ h. is_held_in bucket.now h.entry) histories.now))))) }
{
    let keys = held(alloc, histories, bucket)?;
    keys.into_iter()
        .filter(|key| comes_after(key, after))
        .take(most as usize)
        .collect(alloc)
}
