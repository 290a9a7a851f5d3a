//! The ids of a key's held entries, newest first.
ghost use Rattle.std.specs.Prelude.{◌≡◌, IfOk, filter, map, reverse, take};
ghost use Rattle.vault_core_model.specs.Places.{is_held_at};
ghost use Rattle.vault_core_model.specs.Reads.{is_older};

use std::alloc::{AllocError, Global};
use vault_base::name::{BucketName, ObjectKey, VersionId};
use vault_core_model::held::is_held_at;
use vault_core_model::records::History;

/// Whether the entry of that id is older than that one; each is where none is given.
fn is_older(than: Option<VersionId>, id: VersionId) -> bool
    ensures { result ≡ is_older than id }
{
    match than {
        None => true,
        Some(than) => id < than,
    }
}

/// The ids of the held entries of a key, oldest first.
fn held(
    alloc: Global,
    histories: &[History],
    bucket: &BucketName,
    key: &ObjectKey,
) -> Result<Vec<VersionId>, AllocError>
    ensures { IfOk result (λ ids. ids.items ≡ map (λ h. h.entry.id) (filter (λ h. is_held_at bucket.now key.now h.entry) histories.now)) }
{
    histories
        .iter()
        .filter(|history| is_held_at(bucket, key, &history.entry))
        .map(|history| history.entry.id)
        .collect(alloc)
}

/// The ids of a key's held entries that are older than `than`, newest first: at most `most`.
pub(crate) fn older(
    alloc: Global,
    histories: &[History],
    bucket: &BucketName,
    key: &ObjectKey,
    than: Option<VersionId>,
    most: u32,
) -> Result<Vec<VersionId>, AllocError>
    ensures { IfOk result (λ ids. ids.items ≡ take most (filter (is_older than) (reverse (map (λ h. h.entry.id) (filter (λ h. is_held_at bucket.now key.now h.entry) histories.now))))) }
{
    let mut ids = held(alloc, histories, bucket, key)?;
    ids.reverse();
    ids.into_iter()
        .filter(|id| is_older(than, *id))
        .take(most as usize)
        .collect(alloc)
}
