//! What a target asks about: an object, one of its settings, a bucket, or one of its subresources.
ghost use Rattle.std.specs.Prelude.{◌≡◌, map, option_map};
ghost use Rattle.vault_values.specs.Fault.{Gives};
ghost use Rattle.vault_values.specs.Named.{prefix_if};
ghost use Rattle.vault_http_target.specs.Query.{shown};
ghost use Rattle.vault_http_target.specs.Target as spec;

use crate::number::number_upto;
use crate::path::{after, before};
use crate::query::{Pair, are_among, count_among, has_named, pairs_of, value_named};
use crate::resource_path::{ResourcePath, resource_path_of};
use std::alloc::Global;
use vault_base::limits::MOST_LISTED;
use vault_base::name::{BucketName, KeyPrefix, ObjectKey, VersionId};
use vault_base::refusal::Refusal;
use vault_core_model::command::ListVersions;
use vault_values::fault::LineFault;
use vault_values::named::prefix_named;

/// A key of a bucket, and an entry of it; with no id, the current one is meant.
#[derive(Drop)]
pub struct Object {
    pub bucket: BucketName,
    pub key: ObjectKey,
    pub id: Option<VersionId>,
}

/// What a target asks about.
#[derive(Drop)]
pub enum Target {
    Object(Object),
    Retention(Object),
    LegalHold(Object),
    /// A bucket alone.
    Bucket(BucketName),
    /// The entries of a bucket.
    Versions(ListVersions),
    /// The default retention of a bucket.
    ObjectLock(BucketName),
    /// The lifecycle rules of a bucket.
    Lifecycle(BucketName),
}

/// No subresource twice, or beside another; no id twice.
fn are_single_of_key(pairs: &[Pair]) -> bool
    ensures { result ≡ spec.are_single_of_key (map shown pairs.now) }
{
    count_among(pairs, &["retention", "legal-hold"]) <= 1 && count_among(pairs, &["versionId"]) <= 1
}

/// The names of a query of a key.
fn check_names_of_key(pairs: &[Pair]) -> Result<(), LineFault>
    ensures { Gives (λ x. x) result (spec.names_of_key (map shown pairs.now)) }
{
    if !are_among(pairs, &["retention", "legal-hold", "versionId", "x-id"]) {
        return Err(LineFault::Refused(Refusal::NotImplemented));
    }
    if !are_single_of_key(pairs) {
        return Err(LineFault::Refused(Refusal::InvalidArgument));
    }
    Ok(())
}

fn version(text: Option<&str>) -> Result<Option<VersionId>, LineFault>
    ensures { Gives (λ x. x) result (spec.version (option_map (λ t. t.now) text.entry)) }
{
    let Some(text) = text else {
        return Ok(None);
    };
    match VersionId::read(text) {
        Ok(id) => Ok(Some(id)),
        Err(_) => Err(LineFault::Refused(Refusal::InvalidArgument)),
    }
}

/// The id that a query of a key names. A new version can't be given one.
#[tactic(auto, unfolding(crate::specs::Target::id_of))]
fn id_of(pairs: &[Pair], method: &[u8]) -> Result<Option<VersionId>, LineFault>
    ensures { Gives (λ x. x) result (spec.id_of (map shown pairs.now) method.now) }
{
    let id = version(value_named(pairs, "versionId"))?;
    if id.is_some()
        && count_among(pairs, &["retention", "legal-hold"]) == 0
        && method == b"PUT".as_slice()
    {
        return Err(LineFault::Refused(Refusal::InvalidArgument));
    }
    Ok(id)
}

fn about_object(pairs: &[Pair], object: Object) -> Target
    ensures { result ≡ spec.about_object (map shown pairs.now) object }
{
    if has_named(pairs, "retention") {
        Target::Retention(object)
    } else if has_named(pairs, "legal-hold") {
        Target::LegalHold(object)
    } else {
        Target::Object(object)
    }
}

#[tactic(auto, unfolding(crate::specs::Target::target_of_key))]
fn target_of_key(
    bucket: BucketName,
    key: ObjectKey,
    pairs: &[Pair],
    method: &[u8],
) -> Result<Target, LineFault>
    ensures { Gives (λ x. x) result (spec.target_of_key bucket key (map shown pairs.now) method.now) }
{
    check_names_of_key(pairs)?;
    let id = id_of(pairs, method)?;
    Ok(about_object(pairs, Object { bucket, key, id }))
}

/// The names of a listing belong to no other target.
fn are_known_of_bucket(pairs: &[Pair]) -> bool
    ensures { result ≡ spec.are_known_of_bucket (map shown pairs.now) }
{
    if has_named(pairs, "versions") {
        are_among(
            pairs,
            &[
                "versions",
                "object-lock",
                "lifecycle",
                "x-id",
                "prefix",
                "key-marker",
                "version-id-marker",
                "max-keys",
            ],
        )
    } else {
        are_among(pairs, &["versions", "object-lock", "lifecycle", "x-id"])
    }
}

/// No subresource twice, or beside another; no name of a listing twice.
fn are_single_of_bucket(pairs: &[Pair]) -> bool
    ensures { result ≡ spec.are_single_of_bucket (map shown pairs.now) }
{
    count_among(pairs, &["versions", "object-lock", "lifecycle"]) <= 1
        && count_among(pairs, &["prefix"]) <= 1
        && count_among(pairs, &["key-marker"]) <= 1
        && count_among(pairs, &["version-id-marker"]) <= 1
        && count_among(pairs, &["max-keys"]) <= 1
}

/// The names of a query of a bucket.
fn check_names_of_bucket(pairs: &[Pair]) -> Result<(), LineFault>
    ensures { Gives (λ x. x) result (spec.names_of_bucket (map shown pairs.now)) }
{
    if !are_known_of_bucket(pairs) {
        return Err(LineFault::Refused(Refusal::NotImplemented));
    }
    if !are_single_of_bucket(pairs) {
        return Err(LineFault::Refused(Refusal::InvalidArgument));
    }
    Ok(())
}

/// A prefix, or the empty one where there is none.
fn prefix_if_given(alloc: Global, text: Option<&str>) -> Result<KeyPrefix, LineFault>
    ensures { Gives (λ x. x) result (prefix_if (option_map (λ t. t.now) text.entry)) }
{
    match text {
        Some(text) => prefix_named(alloc, text),
        None => prefix_named(alloc, ""),
    }
}

/// The entry after which a listing begins; it means nothing without its key.
#[tactic(auto, unfolding(crate::specs::Target::after_id_of))]
fn after_id(pairs: &[Pair]) -> Result<Option<VersionId>, LineFault>
    ensures { Gives (λ x. x) result (spec.after_id_of (map shown pairs.now)) }
{
    let id = version(value_named(pairs, "version-id-marker"))?;
    if id.is_some() && !has_named(pairs, "key-marker") {
        return Err(LineFault::Refused(Refusal::InvalidArgument));
    }
    Ok(id)
}

/// How many entries are listed at most. Whether a listing may have n is the command's matter.
fn most(text: Option<&str>) -> Result<u32, LineFault>
    ensures { Gives (λ x. x) result (spec.most (option_map (λ t. t.now) text.entry)) }
{
    let Some(text) = text else {
        return Ok(MOST_LISTED);
    };
    match number_upto(text.as_bytes(), 4_294_967_295) {
        Ok(number) => Ok(number as u32),
        Err(_) => Err(LineFault::Refused(Refusal::InvalidArgument)),
    }
}

#[tactic(auto, unfolding(crate::specs::Target::listing_of))]
fn listing_of(alloc: Global, bucket: BucketName, pairs: &[Pair]) -> Result<ListVersions, LineFault>
    ensures { Gives (λ x. x) result (spec.listing_of bucket (map shown pairs.now)) }
{
    let prefix = prefix_if_given(alloc, value_named(pairs, "prefix"))?;
    let after_key = prefix_if_given(alloc, value_named(pairs, "key-marker"))?;
    let after_id = after_id(pairs)?;
    let most = most(value_named(pairs, "max-keys"))?;
    Ok(ListVersions {
        bucket,
        prefix,
        after_key,
        after_id,
        most,
    })
}

fn about_bucket(alloc: Global, bucket: BucketName, pairs: &[Pair]) -> Result<Target, LineFault>
    ensures { Gives (λ x. x) result (spec.about_bucket bucket (map shown pairs.now)) }
{
    if has_named(pairs, "versions") {
        Ok(Target::Versions(listing_of(alloc, bucket, pairs)?))
    } else if has_named(pairs, "object-lock") {
        Ok(Target::ObjectLock(bucket))
    } else if has_named(pairs, "lifecycle") {
        Ok(Target::Lifecycle(bucket))
    } else {
        Ok(Target::Bucket(bucket))
    }
}

#[tactic(auto, unfolding(crate::specs::Target::target_of_bucket))]
fn target_of_bucket(alloc: Global, bucket: BucketName, pairs: &[Pair]) -> Result<Target, LineFault>
    ensures { Gives (λ x. x) result (spec.target_of_bucket bucket (map shown pairs.now)) }
{
    check_names_of_bucket(pairs)?;
    about_bucket(alloc, bucket, pairs)
}

fn target_at(
    alloc: Global,
    path: ResourcePath,
    pairs: &[Pair],
    method: &[u8],
) -> Result<Target, LineFault>
    ensures { Gives (λ x. x) result (spec.target_at path (map shown pairs.now) method.now) }
{
    match path {
        ResourcePath::Bucket(bucket) => target_of_bucket(alloc, bucket, pairs),
        ResourcePath::Key(bucket, key) => target_of_key(bucket, key, pairs, method),
    }
}

/// What a target asks about: first its path, then its query.
///
/// A name that a query of that path can't have is `NotImplemented`; two subresources, a name twice, a bad
/// value and an id for a new version are `InvalidArgument`, but a prefix or a key that is too long is
/// `KeyTooLongError`. A subresource's own value isn't looked at, and neither is `x-id`.
#[tactic(auto, unfolding(crate::specs::Target::target_of))]
pub fn target_of(alloc: Global, method: &[u8], target: &[u8]) -> Result<Target, LineFault>
    ensures { Gives (λ x. x) result (spec.target_of method.now target.now) }
{
    let path = resource_path_of(alloc, before(target, b'?'))?;
    let pairs = pairs_of(alloc, after(target, b'?'))?;
    target_at(alloc, path, pairs.as_slice(), method)
}
