//! Lines on departments, callers and buckets, and on certificates.
#![tactic(auto, unfolding(crate::specs::Verb::values_of))]

ghost use Rattle.serde_json.specs.View.{view};
ghost use Rattle.vault_values.specs.Fault.{Gives};
ghost use Rattle.vault_lines_read.specs.Verb.{values_of};
ghost use Rattle.vault_lines_read.specs.declared.verb.Verb.TheVariants as verb;

use serde_json::Value;
use std::alloc::Global;
use vault_core_model::command::{
    AddBucket, AddCaller, AddDept, Certificate, CloseCaller, Command, MoveBucket, Report,
};
use vault_lines_json::values;
use vault_values::fault::LineFault;

/// The command of an `add-dept` line, or its first fault: a value's refusal, or out of memory.
pub fn add_dept(alloc: Global, value: &Value) -> Result<Command, LineFault>
    ensures { Gives (λ x. x) result (values_of verb.AddDept (view value.now)) }
{
    let dept = values::dept(alloc, value)?;
    Ok(Command::AddDept(AddDept { dept }))
}

/// The command of an `add-caller` line, or its first fault: a value's refusal, or out of memory.
pub fn add_caller(alloc: Global, value: &Value) -> Result<Command, LineFault>
    ensures { Gives (λ x. x) result (values_of verb.AddCaller (view value.now)) }
{
    let caller = values::caller(alloc, value)?;
    let dept = values::optional_dept(alloc, value)?;
    let rights = values::rights(alloc, value)?;
    Ok(Command::AddCaller(AddCaller {
        caller,
        dept,
        rights,
    }))
}

/// The command of a `close-caller` line, or its first fault: a value's refusal, or out of memory.
pub fn close_caller(alloc: Global, value: &Value) -> Result<Command, LineFault>
    ensures { Gives (λ x. x) result (values_of verb.CloseCaller (view value.now)) }
{
    let caller = values::caller(alloc, value)?;
    Ok(Command::CloseCaller(CloseCaller { caller }))
}

/// The command of an `add-bucket` line, or its first fault: a value's refusal, or out of memory.
pub fn add_bucket(alloc: Global, value: &Value) -> Result<Command, LineFault>
    ensures { Gives (λ x. x) result (values_of verb.AddBucket (view value.now)) }
{
    let bucket = values::bucket(alloc, value)?;
    let dept = values::dept(alloc, value)?;
    Ok(Command::AddBucket(AddBucket { bucket, dept }))
}

/// The command of a `move-bucket` line, or its first fault: a value's refusal, or out of memory.
pub fn move_bucket(alloc: Global, value: &Value) -> Result<Command, LineFault>
    ensures { Gives (λ x. x) result (values_of verb.MoveBucket (view value.now)) }
{
    let bucket = values::bucket(alloc, value)?;
    let dept = values::dept(alloc, value)?;
    Ok(Command::MoveBucket(MoveBucket { bucket, dept }))
}

/// The command of a `report` line, or its first fault: a value's refusal, or out of memory.
pub fn report(alloc: Global, value: &Value) -> Result<Command, LineFault>
    ensures { Gives (λ x. x) result (values_of verb.Report (view value.now)) }
{
    let dept = values::dept(alloc, value)?;
    Ok(Command::Report(Report { dept }))
}

/// The command of a `certificate` line, or its first fault: a value's refusal, or out of memory.
pub fn certificate(alloc: Global, value: &Value) -> Result<Command, LineFault>
    ensures { Gives (λ x. x) result (values_of verb.Certificate (view value.now)) }
{
    let bucket = values::bucket(alloc, value)?;
    let id = values::id(value)?;
    Ok(Command::Certificate(Certificate { bucket, id }))
}
