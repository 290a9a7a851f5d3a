//! The members of lines on the retention and the legal hold of a version.
ghost use Rattle.std.specs.Prelude.{◌≡◌, IfOk, OnOk};
ghost use Rattle.serde_json.specs.View.{members_view};
ghost use Rattle.vault_core_model.specs.declared.command.Command.TheVariants as command_of;
ghost use Rattle.vault_lines_print.specs.Members as spec;
ghost use Rattle.vault_lines_print.specs.Spelled.{IsSpelled, ReadsBack, ReadsBackIfGiven};

use crate::members::of_entry;
use serde_json::{Map, Value};
use std::alloc::{AllocError, Global};
use vault_core_model::command::{SetHold, SetRetention};
use vault_lines_read::verb::Verb;
use vault_lines_reply::object::{Plain, put_plain};
use vault_lock::retention::Retention;
use vault_values::words::{hold_name, mode_name};

/// Puts in a retention whose text is made.
fn put_texts<'a>(
    members: &mut Map<String, Value>,
    alloc: Global,
    mode: &'a str,
    until: &'a str,
) -> Result<(), AllocError>
    ensures { OnOk result (members_view members.new.entries ≡ spec.with_texts mode.now until.now (members_view members.old.entries)) }
{
    put_plain(
        members,
        alloc,
        &[("mode", Plain::Text(mode)), ("until", Plain::Text(until))],
    )
}

/// Puts in a retention.
fn put_retention(
    members: &mut Map<String, Value>,
    alloc: Global,
    retention: Retention,
) -> Result<(), AllocError>
    ensures ok { OnOk result (members_view members.new.entries ≡ spec.with_retention retention (members_view members.old.entries)) }
    ensures spelled { OnOk result (ReadsBack retention.until) }
{
    let until = retention.until.text(alloc)?;
    put_texts(members, alloc, mode_name(retention.mode), until.as_str())?;
    Ok(())
}

/// Puts in a retention, where one is given.
pub fn put_retention_if(
    members: &mut Map<String, Value>,
    alloc: Global,
    retention: Option<Retention>,
) -> Result<(), AllocError>
    ensures ok { OnOk result (members_view members.new.entries ≡ spec.with_retention_if retention (members_view members.old.entries)) }
    ensures spelled { OnOk result (ReadsBackIfGiven retention) }
{
    match retention {
        Some(retention) => put_retention(members, alloc, retention),
        None => Ok(()),
    }
}

/// Puts in whether a hold is on.
fn put_hold(members: &mut Map<String, Value>, alloc: Global, hold: bool) -> Result<(), AllocError>
    ensures { OnOk result (members_view members.new.entries ≡ spec.with_hold hold (members_view members.old.entries)) }
{
    put_plain(members, alloc, &[("hold", Plain::Text(hold_name(hold)))])
}

/// Puts in whether a hold is on, where that is given.
pub fn put_hold_if(
    members: &mut Map<String, Value>,
    alloc: Global,
    hold: Option<bool>,
) -> Result<(), AllocError>
    ensures { OnOk result (members_view members.new.entries ≡ spec.with_hold_if hold (members_view members.old.entries)) }
{
    match hold {
        Some(hold) => put_hold(members, alloc, hold),
        None => Ok(()),
    }
}

pub fn set_retention(
    alloc: Global,
    command: &SetRetention,
) -> Result<Map<String, Value>, AllocError>
    ensures members { IfOk result (λ members. members_view members.entries ≡ spec.members_of (command_of.SetRetention command.now)) }
    ensures spelled { IfOk result (λ members. IsSpelled (command_of.SetRetention command.now)) }
{
    let verb = Verb::SetRetention;
    let mut members = of_entry(alloc, verb, &command.bucket, &command.key, command.id)?;
    put_retention(&mut members, alloc, command.retention)?;
    let bypass = Plain::Flag(command.bypass);
    put_plain(&mut members, alloc, &[("bypass", bypass)])?;
    Ok(members)
}

pub fn set_hold(alloc: Global, command: &SetHold) -> Result<Map<String, Value>, AllocError>
    ensures members { IfOk result (λ members. members_view members.entries ≡ spec.members_of (command_of.SetHold command.now)) }
    ensures spelled { IfOk result (λ members. IsSpelled (command_of.SetHold command.now)) }
{
    let verb = Verb::SetHold;
    let mut members = of_entry(alloc, verb, &command.bucket, &command.key, command.id)?;
    put_hold(&mut members, alloc, command.hold)?;
    Ok(members)
}
