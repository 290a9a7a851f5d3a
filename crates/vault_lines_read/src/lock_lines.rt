//! Lines on the retention and the legal hold of a version.
#![tactic(auto, unfolding(crate::specs::Verb::values_of))]

ghost use Rattle.serde_json.specs.View.{view};
ghost use Rattle.vault_values.specs.Fault.{Gives};
ghost use Rattle.vault_lines_read.specs.Verb.{values_of};
ghost use Rattle.vault_lines_read.specs.declared.verb.Verb.TheVariants as verb;

use serde_json::Value;
use std::alloc::Global;
use vault_core_model::command::{Command, GetHold, GetRetention, SetHold, SetRetention};
use vault_lines_json::{locks, values};
use vault_values::fault::LineFault;

/// The command of a `set-retention` line, or its first fault: a value's refusal, or out of memory.
pub fn set_retention(alloc: Global, value: &Value) -> Result<Command, LineFault>
    ensures { Gives (λ x. x) result (values_of verb.SetRetention (view value.now)) }
{
    let bucket = values::bucket(alloc, value)?;
    let key = values::key(alloc, value)?;
    let id = values::optional_id("id", value)?;
    let retention = locks::retention(value)?;
    let bypass = locks::bypass(value)?;
    Ok(Command::SetRetention(SetRetention {
        bucket,
        key,
        id,
        retention,
        bypass,
    }))
}

/// The command of a `get-retention` line, or its first fault: a value's refusal, or out of memory.
pub fn get_retention(alloc: Global, value: &Value) -> Result<Command, LineFault>
    ensures { Gives (λ x. x) result (values_of verb.GetRetention (view value.now)) }
{
    let bucket = values::bucket(alloc, value)?;
    let key = values::key(alloc, value)?;
    let id = values::optional_id("id", value)?;
    Ok(Command::GetRetention(GetRetention { bucket, key, id }))
}

/// The command of a `set-hold` line, or its first fault: a value's refusal, or out of memory.
pub fn set_hold(alloc: Global, value: &Value) -> Result<Command, LineFault>
    ensures { Gives (λ x. x) result (values_of verb.SetHold (view value.now)) }
{
    let bucket = values::bucket(alloc, value)?;
    let key = values::key(alloc, value)?;
    let id = values::optional_id("id", value)?;
    let hold = locks::hold(value)?;
    Ok(Command::SetHold(SetHold {
        bucket,
        key,
        id,
        hold,
    }))
}

/// The command of a `get-hold` line, or its first fault: a value's refusal, or out of memory.
pub fn get_hold(alloc: Global, value: &Value) -> Result<Command, LineFault>
    ensures { Gives (λ x. x) result (values_of verb.GetHold (view value.now)) }
{
    let bucket = values::bucket(alloc, value)?;
    let key = values::key(alloc, value)?;
    let id = values::optional_id("id", value)?;
    Ok(Command::GetHold(GetHold { bucket, key, id }))
}
