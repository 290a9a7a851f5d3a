//! Lines on content versions and delete markers.
#![tactic(auto, unfolding(crate::specs::Verb::values_of))]

ghost use Rattle.serde_json.specs.View.{view};
ghost use Rattle.vault_values.specs.Fault.{Gives};
ghost use Rattle.vault_lines_read.specs.Verb.{values_of};
ghost use Rattle.vault_lines_read.specs.declared.verb.Verb.TheVariants as verb;

use serde_json::Value;
use std::alloc::Global;
use vault_core_model::command::{Command, Delete, DeleteVersion, Get, Head, Intake, Put};
use vault_lines_json::{locks, values};
use vault_values::fault::LineFault;

/// The command of a `get` line, or its first fault: a value's refusal, or out of memory.
pub fn get(alloc: Global, value: &Value) -> Result<Command, LineFault>
    ensures { Gives (λ x. x) result (values_of verb.Get (view value.now)) }
{
    let bucket = values::bucket(alloc, value)?;
    let key = values::key(alloc, value)?;
    let id = values::optional_id("id", value)?;
    Ok(Command::Get(Get { bucket, key, id }))
}

/// The command of a `head` line, or its first fault: a value's refusal, or out of memory.
pub fn head(alloc: Global, value: &Value) -> Result<Command, LineFault>
    ensures { Gives (λ x. x) result (values_of verb.Head (view value.now)) }
{
    let bucket = values::bucket(alloc, value)?;
    let key = values::key(alloc, value)?;
    let id = values::optional_id("id", value)?;
    Ok(Command::Head(Head { bucket, key, id }))
}

/// The command of a `delete` line, or its first fault: a value's refusal, or out of memory.
pub fn delete(alloc: Global, value: &Value) -> Result<Command, LineFault>
    ensures { Gives (λ x. x) result (values_of verb.Delete (view value.now)) }
{
    let bucket = values::bucket(alloc, value)?;
    let key = values::key(alloc, value)?;
    Ok(Command::Delete(Delete { bucket, key }))
}

/// The command of a `delete-version` line, or its first fault: a value's refusal, or out of memory.
pub fn delete_version(alloc: Global, value: &Value) -> Result<Command, LineFault>
    ensures { Gives (λ x. x) result (values_of verb.DeleteVersion (view value.now)) }
{
    let bucket = values::bucket(alloc, value)?;
    let key = values::key(alloc, value)?;
    let id = values::id(value)?;
    let bypass = locks::bypass(value)?;
    Ok(Command::DeleteVersion(DeleteVersion {
        bucket,
        key,
        id,
        bypass,
    }))
}

/// The command of a `put` line, or its first fault: a value's refusal, or out of memory.
pub fn put(alloc: Global, value: &Value) -> Result<Command, LineFault>
    ensures { Gives (λ x. x) result (values_of verb.Put (view value.now)) }
{
    let bucket = values::bucket(alloc, value)?;
    let key = values::key(alloc, value)?;
    let content = values::content(alloc, value)?;
    let retention = locks::optional_retention(value)?;
    let hold = locks::optional_hold(value)?;
    Ok(Command::Put(Put {
        bucket,
        key,
        content,
        retention,
        hold,
    }))
}

/// The command of an `intake` line, or its first fault: a value's refusal, or out of memory.
pub fn intake(alloc: Global, value: &Value) -> Result<Command, LineFault>
    ensures { Gives (λ x. x) result (values_of verb.Intake (view value.now)) }
{
    let bucket = values::bucket(alloc, value)?;
    let batch = values::batch(alloc, value)?;
    let line = values::number_of("line", value)?;
    let key = values::key(alloc, value)?;
    let content = values::content(alloc, value)?;
    let retention = locks::optional_retention(value)?;
    let hold = locks::optional_hold(value)?;
    let put = Put {
        bucket,
        key,
        content,
        retention,
        hold,
    };
    Ok(Command::Intake(Intake { batch, line, put }))
}
