//! Texts to names and moments, each with its refusal.
ghost use Rattle.vault_values.specs.Fault.{Gives};
ghost use Rattle.vault_values.specs.Named as spec;

use crate::fault::LineFault;
use std::alloc::Global;
use vault_base::moment::{Moment, MomentFault};
use vault_base::name::{
    BatchName, BucketName, CallerName, DeptName, KeyPrefix, NameFault, ObjectKey,
};
use vault_base::refusal::{Reason, Refusal};

/// The reading of that text: InvalidArgument where it isn't written as a moment, ClockOutOfRange where it names one
/// outside 1970 to 9999.
pub fn reading_named(text: &str) -> Result<Moment, LineFault>
    ensures { Gives (λ x. x) result (spec.reading_named text.now) }
{
    match Moment::read(text) {
        Ok(moment) => Ok(moment),
        Err(MomentFault::Form) => Err(LineFault::Refused(Refusal::InvalidArgument)),
        Err(MomentFault::Range) => Err(LineFault::Refused(Refusal::ClockOutOfRange)),
    }
}

/// The end of a retention: InvalidArgument where the text isn't written as a moment, RetentionOutOfRange where it
/// names one outside 1970 to 9999.
pub fn until_named(text: &str) -> Result<Moment, LineFault>
    ensures { Gives (λ x. x) result (spec.until_named text.now) }
{
    match Moment::read(text) {
        Ok(moment) => Ok(moment),
        Err(MomentFault::Form) => Err(LineFault::Refused(Refusal::InvalidArgument)),
        Err(MomentFault::Range) => Err(LineFault::Refused(Refusal::RetentionOutOfRange)),
    }
}

/// The caller of that name who asks: AccessDenied `unknown-caller` where no caller can have it.
pub fn asker_named(alloc: Global, text: &str) -> Result<CallerName, LineFault>
    ensures { Gives (λ x. x) result (spec.asker_named text.now) }
{
    match CallerName::read(alloc, text)? {
        Ok(name) => Ok(name),
        Err(_) => Err(LineFault::Refused(Refusal::AccessDenied(Reason::UnknownCaller))),
    }
}

/// The name of a caller who is spoken of; else InvalidArgument.
#[tactic(auto, unfolding(crate::specs::Named::name_of))]
pub fn caller_named(alloc: Global, text: &str) -> Result<CallerName, LineFault>
    ensures { Gives (λ x. x) result (spec.name_of text.now) }
{
    match CallerName::read(alloc, text)? {
        Ok(name) => Ok(name),
        Err(_) => Err(LineFault::Refused(Refusal::InvalidArgument)),
    }
}

/// The name of a department; else InvalidArgument.
#[tactic(auto, unfolding(crate::specs::Named::name_of))]
pub fn dept_named(alloc: Global, text: &str) -> Result<DeptName, LineFault>
    ensures { Gives (λ x. x) result (spec.name_of text.now) }
{
    match DeptName::read(alloc, text)? {
        Ok(name) => Ok(name),
        Err(_) => Err(LineFault::Refused(Refusal::InvalidArgument)),
    }
}

/// The name of an intake batch; else InvalidArgument.
#[tactic(auto, unfolding(crate::specs::Named::name_of))]
pub fn batch_named(alloc: Global, text: &str) -> Result<BatchName, LineFault>
    ensures { Gives (λ x. x) result (spec.name_of text.now) }
{
    match BatchName::read(alloc, text)? {
        Ok(name) => Ok(name),
        Err(_) => Err(LineFault::Refused(Refusal::InvalidArgument)),
    }
}

/// The name of a bucket; else InvalidBucketName.
pub fn bucket_named(alloc: Global, text: &str) -> Result<BucketName, LineFault>
    ensures { Gives (λ x. x) result (spec.bucket_named text.now) }
{
    match BucketName::read(alloc, text)? {
        Ok(name) => Ok(name),
        Err(_) => Err(LineFault::Refused(Refusal::InvalidBucketName)),
    }
}

/// The key of that text. KeyTooLongError where it is longer than a key may be, else InvalidArgument.
pub fn key_named(alloc: Global, text: &str) -> Result<ObjectKey, LineFault>
    ensures { Gives (λ x. x) result (spec.key_named text.now) }
{
    match ObjectKey::read(alloc, text)? {
        Ok(key) => Ok(key),
        Err(NameFault::TooLong) => Err(LineFault::Refused(Refusal::KeyTooLongError)),
        Err(_) => Err(LineFault::Refused(Refusal::InvalidArgument)),
    }
}

/// The prefix of that text, which may be empty. KeyTooLongError where it is longer than a key may be, else
/// InvalidArgument.
#[tactic(auto, unfolding(crate::specs::Named::prefix_named))]
pub fn prefix_named(alloc: Global, text: &str) -> Result<KeyPrefix, LineFault>
    ensures { Gives (λ x. x) result (spec.prefix_named text.now) }
{
    match KeyPrefix::read(alloc, text)? {
        Ok(prefix) => Ok(prefix),
        Err(NameFault::TooLong) => Err(LineFault::Refused(Refusal::KeyTooLongError)),
        Err(_) => Err(LineFault::Refused(Refusal::InvalidArgument)),
    }
}
