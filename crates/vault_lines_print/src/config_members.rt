//! The members of lines on the configuration of a bucket.
ghost use Rattle.std.specs.Prelude.{◌≡◌, IfOk, OnOk};
ghost use Rattle.serde_json.specs.View.{members_view};
ghost use Rattle.vault_core_model.specs.declared.command.Command.TheVariants as command_of;
ghost use Rattle.vault_lines_print.specs.Members as spec;
ghost use Rattle.vault_lines_print.specs.Spelled.{HasPeriodIfGiven, IsSpelled};

use crate::members::of_bucket;
use serde_json::{Map, Value, put};
use std::alloc::{AllocError, Global};
use vault_core_model::command::{SetDefault, SetRules};
use vault_lines_read::verb::Verb;
use vault_lines_reply::object::{Plain, put_plain};
use vault_lines_reply::rule_value::rule_values;
use vault_lock::retention::{Default, Period};
use vault_values::words::mode_name;

/// Puts in a default retention, where there is one; the line that clears it has none of its members.
fn put_default(
    members: &mut Map<String, Value>,
    alloc: Global,
    default: Option<Default>,
) -> Result<(), AllocError>
    ensures ok { OnOk result (members_view members.new.entries ≡ spec.with_default default (members_view members.old.entries)) }
    ensures spelled { OnOk result (HasPeriodIfGiven default) }
{
    let Some(default) = default else {
        return Ok(());
    };
    let mode = ("mode", Plain::Text(mode_name(default.mode)));
    match default.period {
        Period::Days(days) => {
            let days = ("days", Plain::Whole(u64::from(days)));
            put_plain(members, alloc, &[mode, days])?;
            Ok(())
        }
        Period::Years(years) => {
            let years = ("years", Plain::Whole(u64::from(years)));
            put_plain(members, alloc, &[mode, years])?;
            Ok(())
        }
    }
}

pub fn set_default(alloc: Global, command: &SetDefault) -> Result<Map<String, Value>, AllocError>
    ensures members { IfOk result (λ members. members_view members.entries ≡ spec.members_of (command_of.SetDefault command.now)) }
    ensures spelled { IfOk result (λ members. IsSpelled (command_of.SetDefault command.now)) }
{
    let mut members = of_bucket(alloc, Verb::SetDefault, &command.bucket)?;
    put_default(&mut members, alloc, command.default)?;
    Ok(members)
}

pub fn set_rules(alloc: Global, command: &SetRules) -> Result<Map<String, Value>, AllocError>
    ensures members { IfOk result (λ members. members_view members.entries ≡ spec.members_of (command_of.SetRules command.now)) }
    ensures spelled { IfOk result (λ members. IsSpelled (command_of.SetRules command.now)) }
{
    let mut members = of_bucket(alloc, Verb::SetRules, &command.bucket)?;
    let rules = Value::Array(rule_values(alloc, command.rules.as_slice())?);
    put(&mut members, alloc, "rules", rules)?;
    Ok(members)
}
