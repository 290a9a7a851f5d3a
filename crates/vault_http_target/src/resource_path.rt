//! The bucket that a path names, and its key.
ghost use Rattle.vault_values.specs.Fault.{Gives};
ghost use Rattle.vault_http_target.specs.ResourcePath as spec;

use crate::path::{after, after_first, before, decoded};
use crate::routes::is_routed;
use std::alloc::Global;
use vault_base::name::{BucketName, ObjectKey};
use vault_base::refusal::Refusal;
use vault_values::fault::LineFault;
use vault_values::named::{bucket_named, key_named};

/// What a path names: a bucket, or a key in it.
#[derive(Drop)]
pub enum ResourcePath {
    Bucket(BucketName),
    Key(BucketName, ObjectKey),
}

fn check_route(alloc: Global, path: &[u8]) -> Result<(), LineFault>
    ensures { Gives (λ x. x) result (spec.routed path.now) }
{
    if !is_routed(alloc, path)? {
        return Err(LineFault::Refused(Refusal::InvalidArgument));
    }
    Ok(())
}

#[tactic(auto, unfolding(crate::specs::ResourcePath::bucket_in))]
fn bucket_in(alloc: Global, part: &[u8]) -> Result<BucketName, LineFault>
    ensures { Gives (λ x. x) result (spec.bucket_in part.now) }
{
    let text = decoded(alloc, part, Refusal::InvalidBucketName)?;
    bucket_named(alloc, text.as_str())
}

#[tactic(auto, unfolding(crate::specs::ResourcePath::key_in))]
fn key_in(alloc: Global, part: &[u8]) -> Result<ObjectKey, LineFault>
    ensures { Gives (λ x. x) result (spec.key_in part.now) }
{
    let text = decoded(alloc, part, Refusal::InvalidArgument)?;
    key_named(alloc, text.as_str())
}

#[tactic(auto, unfolding(crate::specs::ResourcePath::resource_path_within))]
fn resource_path_within(
    alloc: Global,
    bucket: BucketName,
    part: &[u8],
) -> Result<ResourcePath, LineFault>
    ensures { Gives (λ x. x) result (spec.resource_path_within bucket part.now) }
{
    if part.is_empty() {
        return Ok(ResourcePath::Bucket(bucket));
    }
    Ok(ResourcePath::Key(bucket, key_in(alloc, part)?))
}

/// The resource that a path names: it has a route, and the bucket is one, and then the key.
///
/// `InvalidArgument` says that there is no route, or that the key isn't UTF-8 or no key;
/// `KeyTooLongError` that it is too long; `InvalidBucketName` is the bucket's only refusal.
#[tactic(auto, unfolding(crate::specs::ResourcePath::resource_path_of))]
pub fn resource_path_of(alloc: Global, path: &[u8]) -> Result<ResourcePath, LineFault>
    ensures { Gives (λ x. x) result (spec.resource_path_of path.now) }
{
    check_route(alloc, path)?;
    let parts = after_first(path);
    let bucket = bucket_in(alloc, before(parts, b'/'))?;
    resource_path_within(alloc, bucket, after(parts, b'/'))
}
