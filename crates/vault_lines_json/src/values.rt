//! Members of an object to names, moments, ids, rights and contents.
ghost use Rattle.std.specs.Prelude.{option_map};
ghost use Rattle.serde_json.specs.View.{view};
ghost use Rattle.vault_values.specs.Fault.{Gives};
ghost use Rattle.vault_lines_json.specs.Values as spec;

use crate::members::{
    Whole, optional_digest_of, optional_text_of, optional_whole_of, text_of, texts_of, whole_of,
};
use hex::FromHexError;
use serde_json::Value;
use std::alloc::Global;
use vault_base::content::{Bytes, Content, Digest, Registered};
use vault_base::moment::Moment;
use vault_base::name::{
    BatchName, BucketName, CallerName, DeptName, KeyPrefix, ObjectKey, VersionId,
};
use vault_base::refusal::Refusal;
use vault_core_model::rights::Rights;
use vault_values::fault::LineFault;
use vault_values::named::{
    asker_named, batch_named, bucket_named, caller_named, dept_named, key_named, prefix_named,
    reading_named,
};
use vault_values::rights::rights_named;

/// The reading that a command is given with: the member `at`.
#[tactic(auto, unfolding(crate::specs::Values::reading_of))]
pub fn reading(value: &Value) -> Result<Moment, LineFault>
    ensures { Gives (λ x. x) result (spec.reading_of (view value.now)) }
{
    let text = text_of("at", value)?;
    reading_named(text)
}

/// The caller who asks: the member `as`.
#[tactic(auto, unfolding(crate::specs::Values::asker_of))]
pub fn asker(alloc: Global, value: &Value) -> Result<CallerName, LineFault>
    ensures { Gives (λ x. x) result (spec.asker_of (view value.now)) }
{
    let text = text_of("as", value)?;
    asker_named(alloc, text)
}

/// The name of a caller who is spoken of: the member `caller`.
#[tactic(auto, unfolding(crate::specs::Values::caller_of))]
pub fn caller(alloc: Global, value: &Value) -> Result<CallerName, LineFault>
    ensures { Gives (λ x. x) result (spec.caller_of (view value.now)) }
{
    let text = text_of("caller", value)?;
    caller_named(alloc, text)
}

/// The name of a department: the member `dept`.
#[tactic(auto, unfolding(crate::specs::Values::dept_of))]
pub fn dept(alloc: Global, value: &Value) -> Result<DeptName, LineFault>
    ensures { Gives (λ x. x) result (spec.dept_of (view value.now)) }
{
    let text = text_of("dept", value)?;
    dept_named(alloc, text)
}

/// The name of a department, if there is one.
#[tactic(auto, unfolding(crate::specs::Values::optional_dept_of))]
pub fn optional_dept(alloc: Global, value: &Value) -> Result<Option<DeptName>, LineFault>
    ensures { Gives (λ x. x) result (spec.optional_dept_of (view value.now)) }
{
    let Some(text) = optional_text_of("dept", value)? else {
        return Ok(None);
    };
    Ok(Some(dept_named(alloc, text)?))
}

/// The name of a bucket: the member `bucket`.
#[tactic(auto, unfolding(crate::specs::Values::bucket_of))]
pub fn bucket(alloc: Global, value: &Value) -> Result<BucketName, LineFault>
    ensures { Gives (λ x. x) result (spec.bucket_of (view value.now)) }
{
    let text = text_of("bucket", value)?;
    bucket_named(alloc, text)
}

/// The key of an object: the member `key`.
#[tactic(auto, unfolding(crate::specs::Values::key_of))]
pub fn key(alloc: Global, value: &Value) -> Result<ObjectKey, LineFault>
    ensures { Gives (λ x. x) result (spec.key_of (view value.now)) }
{
    let text = text_of("key", value)?;
    key_named(alloc, text)
}

/// What keys are held against: what they begin with, or the key after which a listing begins. A member that
/// may be left out, which is the empty text: any key begins with it, and each comes after it.
#[tactic(auto, unfolding(crate::specs::Values::prefix_of))]
pub fn prefix(alloc: Global, name: &str, value: &Value) -> Result<KeyPrefix, LineFault>
    ensures { Gives (λ x. x) result (spec.prefix_of name.now (view value.now)) }
{
    let Some(text) = optional_text_of(name, value)? else {
        return prefix_named(alloc, "");
    };
    prefix_named(alloc, text)
}

/// The name of an intake batch: the member `batch`.
#[tactic(auto, unfolding(crate::specs::Values::batch_of))]
pub fn batch(alloc: Global, value: &Value) -> Result<BatchName, LineFault>
    ensures { Gives (λ x. x) result (spec.batch_of (view value.now)) }
{
    let text = text_of("batch", value)?;
    batch_named(alloc, text)
}

/// A number of 32 bits.
#[tactic(auto, unfolding(crate::specs::Values::below))]
pub(crate) fn small(number: Whole) -> Result<u32, LineFault>
    ensures { Gives (λ x. x) result (spec.below 4294967296 number) }
{
    let Whole::Natural(number) = number else {
        return Err(LineFault::Refused(Refusal::InvalidArgument));
    };
    match u32::try_from(number) {
        Ok(small) => Ok(small),
        Err(_) => Err(LineFault::Refused(Refusal::InvalidArgument)),
    }
}

/// A member that must be there, a number of 32 bits.
#[tactic(auto, unfolding(crate::specs::Values::number_of))]
pub fn number_of(name: &str, value: &Value) -> Result<u32, LineFault>
    ensures { Gives (λ x. x) result (spec.number_of name.now (view value.now)) }
{
    let number = whole_of(name, value)?;
    small(number)
}

/// A member that may be left out, a number of 32 bits.
#[tactic(auto, unfolding(crate::specs::Values::optional_number_of))]
pub fn optional_number_of(name: &str, value: &Value) -> Result<Option<u32>, LineFault>
    ensures { Gives (λ x. x) result (spec.optional_number_of name.now (view value.now)) }
{
    let Some(number) = optional_whole_of(name, value)? else {
        return Ok(None);
    };
    Ok(Some(small(number)?))
}

/// A number of 16 bits.
#[tactic(auto, unfolding(crate::specs::Values::below))]
pub(crate) fn smaller(number: Whole) -> Result<u16, LineFault>
    ensures { Gives (λ x. x) result (spec.below 65536 number) }
{
    let Whole::Natural(number) = number else {
        return Err(LineFault::Refused(Refusal::InvalidArgument));
    };
    match u16::try_from(number) {
        Ok(small) => Ok(small),
        Err(_) => Err(LineFault::Refused(Refusal::InvalidArgument)),
    }
}

#[tactic(auto, unfolding(crate::specs::Values::version_of))]
fn version(number: Whole) -> Result<VersionId, LineFault>
    ensures { Gives (λ x. x) result (spec.version_of number) }
{
    let Whole::Natural(number) = number else {
        return Err(LineFault::Refused(Refusal::InvalidArgument));
    };
    match u32::try_from(number).ok().and_then(VersionId::new) {
        Some(id) => Ok(id),
        None => Err(LineFault::Refused(Refusal::InvalidArgument)),
    }
}

/// The id of an entry: the member `id`.
#[tactic(auto, unfolding(crate::specs::Values::id_of))]
pub fn id(value: &Value) -> Result<VersionId, LineFault>
    ensures { Gives (λ x. x) result (spec.id_of (view value.now)) }
{
    let number = whole_of("id", value)?;
    version(number)
}

/// The id of an entry, in a member that may be left out.
#[tactic(auto, unfolding(crate::specs::Values::optional_id_of))]
pub fn optional_id(name: &str, value: &Value) -> Result<Option<VersionId>, LineFault>
    ensures { Gives (λ x. x) result (spec.optional_id_of name.now (view value.now)) }
{
    let Some(number) = optional_whole_of(name, value)? else {
        return Ok(None);
    };
    Ok(Some(version(number)?))
}

/// The rights that the member `rights` names. A right that is named twice counts once.
#[tactic(auto, unfolding(crate::specs::Values::rights_of))]
pub fn rights(alloc: Global, value: &Value) -> Result<Rights, LineFault>
    ensures { Gives (λ x. x) result (spec.rights_of (view value.now)) }
{
    let names = texts_of(alloc, "rights", value)?;
    rights_named(names.as_slice())
}

/// The bytes that pairs of hex digits write.
#[tactic(auto, unfolding(crate::specs::Values::inside_of))]
fn inside(alloc: Global, hex: &str) -> Result<Content, LineFault>
    ensures { Gives (λ x. x) result (spec.inside_of hex.now) }
{
    match hex::decode(alloc, hex) {
        Ok(bytes) => Ok(Content::Inside(Bytes::new(bytes))),
        Err(FromHexError::OutOfMemory) => Err(LineFault::Memory),
        Err(_) => Err(LineFault::Refused(Refusal::InvalidArgument)),
    }
}

/// Bytes that are kept outside, of that digest and size.
#[tactic(auto, unfolding(crate::specs::Values::external_of))]
fn external(digest: Digest, size: Whole) -> Result<Content, LineFault>
    ensures { Gives (λ x. x) result (spec.external_of digest size) }
{
    let Whole::Natural(size) = size else {
        return Err(LineFault::Refused(Refusal::InvalidArgument));
    };
    Ok(Content::External(Registered { size, digest }))
}

#[tactic(auto, unfolding(crate::specs::Values::content_written))]
fn content_written(
    alloc: Global,
    text: Option<&str>,
    hex: Option<&str>,
    digest: Option<Digest>,
    size: Option<Whole>,
) -> Result<Content, LineFault>
    ensures { Gives (λ x. x) result (spec.content_written (option_map (λ t. t.now) text.entry) (option_map (λ t. t.now) hex.entry) digest size) }
{
    match (text, hex, digest, size) {
        (Some(text), None, None, None) => {
            let bytes = Vec::from_slice(alloc, text.as_bytes())?;
            Ok(Content::Inside(Bytes::new(bytes)))
        }
        (None, Some(hex), None, None) => inside(alloc, hex),
        (None, None, Some(digest), Some(size)) => external(digest, size),
        _ => Err(LineFault::Refused(Refusal::MalformedBody)),
    }
}

/// A content: the bytes of the member `text`, or those that pairs of hex digits write in the
/// member `hex`, or bytes that are kept outside, whose digest and size are the members `sha256` and `size`.
#[tactic(auto, unfolding(crate::specs::Values::content_of))]
pub fn content(alloc: Global, value: &Value) -> Result<Content, LineFault>
    ensures { Gives (λ x. x) result (spec.content_of (view value.now)) }
{
    let text = optional_text_of("text", value)?;
    let hex = optional_text_of("hex", value)?;
    let digest = optional_digest_of("sha256", value)?;
    let size = optional_whole_of("size", value)?;
    content_written(alloc, text, hex, digest, size)
}
