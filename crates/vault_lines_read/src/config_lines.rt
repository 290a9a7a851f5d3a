//! Lines on the configuration of a bucket, and on its lifecycle runs.
#![tactic(auto, unfolding(crate::specs::Verb::values_of))]

ghost use Rattle.serde_json.specs.View.{view};
ghost use Rattle.vault_values.specs.Fault.{Gives};
ghost use Rattle.vault_lines_read.specs.Verb.{values_of};
ghost use Rattle.vault_lines_read.specs.declared.verb.Verb.TheVariants as verb;

use serde_json::Value;
use std::alloc::Global;
use vault_core_model::command::{
    Command, DropRules, GetDefault, GetRules, Run, SetDefault, SetRules,
};
use vault_lines_json::{locks, rules, values};
use vault_values::fault::LineFault;

/// The command of a `set-default` line, or its first fault: a value's refusal, or out of memory.
pub fn set_default(alloc: Global, value: &Value) -> Result<Command, LineFault>
    ensures { Gives (λ x. x) result (values_of verb.SetDefault (view value.now)) }
{
    let bucket = values::bucket(alloc, value)?;
    let default = locks::default(value)?;
    Ok(Command::SetDefault(SetDefault { bucket, default }))
}

/// The command of a `get-default` line, or its first fault: a value's refusal, or out of memory.
pub fn get_default(alloc: Global, value: &Value) -> Result<Command, LineFault>
    ensures { Gives (λ x. x) result (values_of verb.GetDefault (view value.now)) }
{
    let bucket = values::bucket(alloc, value)?;
    Ok(Command::GetDefault(GetDefault { bucket }))
}

/// The command of a `set-rules` line, or its first fault: a value's refusal, or out of memory.
pub fn set_rules(alloc: Global, value: &Value) -> Result<Command, LineFault>
    ensures { Gives (λ x. x) result (values_of verb.SetRules (view value.now)) }
{
    let bucket = values::bucket(alloc, value)?;
    let rules = rules::rules(alloc, value)?;
    Ok(Command::SetRules(SetRules { bucket, rules }))
}

/// The command of a `get-rules` line, or its first fault: a value's refusal, or out of memory.
pub fn get_rules(alloc: Global, value: &Value) -> Result<Command, LineFault>
    ensures { Gives (λ x. x) result (values_of verb.GetRules (view value.now)) }
{
    let bucket = values::bucket(alloc, value)?;
    Ok(Command::GetRules(GetRules { bucket }))
}

/// The command of a `drop-rules` line, or its first fault: a value's refusal, or out of memory.
pub fn drop_rules(alloc: Global, value: &Value) -> Result<Command, LineFault>
    ensures { Gives (λ x. x) result (values_of verb.DropRules (view value.now)) }
{
    let bucket = values::bucket(alloc, value)?;
    Ok(Command::DropRules(DropRules { bucket }))
}

/// The command of a `run` line, or its first fault: a value's refusal, or out of memory.
pub fn run(alloc: Global, value: &Value) -> Result<Command, LineFault>
    ensures { Gives (λ x. x) result (values_of verb.Run (view value.now)) }
{
    let bucket = values::bucket(alloc, value)?;
    Ok(Command::Run(Run { bucket }))
}
