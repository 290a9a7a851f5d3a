//! Which entries are held.
ghost use Rattle.std.specs.Prelude.{◌≡◌};
ghost use Rattle.vault_core_model.specs.Places.{is_held_at};

use crate::records::Entry;
use vault_base::name::{BucketName, ObjectKey};

/// Whether the entry is held in that bucket, under that key.
pub fn is_held_at(bucket: &BucketName, key: &ObjectKey, entry: &Entry) -> bool
    ensures { result ≡ is_held_at bucket.now key.now entry.now }
{
    entry.bucket == *bucket && entry.key == *key && entry.removal.is_none()
}
