//! The line that asks for a command.
ghost use Rattle.std.specs.Prelude.{◌≡◌, ◌≤◌, IfOk, OnOk, length, string_bytes};
ghost use Rattle.serde_json.specs.View.{view, members_view};
ghost use Rattle.vault_base.specs.Limits.{longest_line};
ghost use Rattle.vault_lines_read.specs.ReadLine.{line_of};
ghost use Rattle.vault_lines_read.specs.declared.read_line.Line.TheVariants as line;
ghost use Rattle.vault_lines_print.specs.Lines.{HasNoLf, SpellsTimed};
ghost use Rattle.vault_lines_print.specs.Members as spec;
ghost use Rattle.vault_lines_print.specs.Spelled.{IsSpelled, IsTimedSpelled};

use crate::laws::text_is_utf8;
use crate::members::{of_bucket, of_entry, of_key};
use crate::{config_members, entry_members, lock_members, record_members};
use serde_json::{Map, Value};
use std::alloc::{AllocError, Global};
use vault_base::moment::Moment;
use vault_base::name::CallerName;
use vault_core_model::command::Command;
use vault_lines_read::verb::Verb;
use vault_lines_reply::object::{Plain, put_plain};

/// The members of a command's line, but for its reading and the caller who asks.
fn members_of(alloc: Global, command: &Command) -> Result<Map<String, Value>, AllocError>
    ensures members { IfOk result (λ members. members_view members.entries ≡ spec.members_of command.now) }
    ensures spelled { IfOk result (λ members. IsSpelled command.now) }
{
    match command {
        Command::AddDept(c) => record_members::add_dept(alloc, c),
        Command::AddCaller(c) => record_members::add_caller(alloc, c),
        Command::CloseCaller(c) => record_members::close_caller(alloc, c),
        Command::AddBucket(c) => record_members::add_bucket(alloc, c),
        Command::MoveBucket(c) => record_members::move_bucket(alloc, c),
        Command::SetDefault(c) => config_members::set_default(alloc, c),
        Command::GetDefault(c) => of_bucket(alloc, Verb::GetDefault, &c.bucket),
        Command::SetRules(c) => config_members::set_rules(alloc, c),
        Command::GetRules(c) => of_bucket(alloc, Verb::GetRules, &c.bucket),
        Command::DropRules(c) => of_bucket(alloc, Verb::DropRules, &c.bucket),
        Command::Put(c) => entry_members::put(alloc, c),
        Command::Get(c) => of_entry(alloc, Verb::Get, &c.bucket, &c.key, c.id),
        Command::Head(c) => of_entry(alloc, Verb::Head, &c.bucket, &c.key, c.id),
        Command::ListVersions(c) => entry_members::list_versions(alloc, c),
        Command::Delete(c) => of_key(alloc, Verb::Delete, &c.bucket, &c.key),
        Command::DeleteVersion(c) => entry_members::delete_version(alloc, c),
        Command::SetRetention(c) => lock_members::set_retention(alloc, c),
        Command::GetRetention(c) => of_entry(alloc, Verb::GetRetention, &c.bucket, &c.key, c.id),
        Command::SetHold(c) => lock_members::set_hold(alloc, c),
        Command::GetHold(c) => of_entry(alloc, Verb::GetHold, &c.bucket, &c.key, c.id),
        Command::Run(c) => of_bucket(alloc, Verb::Run, &c.bucket),
        Command::Report(c) => record_members::report(alloc, c),
        Command::Certificate(c) => record_members::certificate(alloc, c),
        Command::Intake(c) => entry_members::intake(alloc, c),
    }
}

/// Puts in the caller who asks and the text of the reading.
fn put_heading<'a>(
    members: &mut Map<String, Value>,
    alloc: Global,
    who: &'a str,
    at: &'a str,
) -> Result<(), AllocError>
    ensures { OnOk result (members_view members.new.entries ≡ spec.with_heading who.now at.now (members_view members.old.entries)) }
{
    put_plain(
        members,
        alloc,
        &[("as", Plain::Text(who)), ("at", Plain::Text(at))],
    )
}

fn line_value(
    alloc: Global,
    at: Moment,
    who: &CallerName,
    command: &Command,
) -> Result<Value, AllocError>
    ensures value { IfOk result (λ value. view value ≡ spec.line_value (spec.timed at who.now command.now)) }
    ensures spelled { IfOk result (λ value. IsTimedSpelled (spec.timed at who.now command.now)) }
{
    let text = at.text(alloc)?;
    let mut members = members_of(alloc, command)?;
    put_heading(&mut members, alloc, who.as_str(), text.as_str())?;
    Ok(Value::Object(members))
}

/// The line that asks for a command by a caller, at a reading: compact JSON, without an LF.
///
/// Where it is no longer than a line may be, it is read as that command again. The bytes of a content are
/// printed in hex digits.
pub fn command_line(
    alloc: Global,
    at: Moment,
    who: &CallerName,
    command: &Command,
) -> Result<String, AllocError>
    ensures text { IfOk result (λ text. string_bytes text ≡ spec.line_text (spec.timed at who.now command.now)) }
    ensures spelled { IfOk result (λ text. SpellsTimed (string_bytes text) (spec.timed at who.now command.now)) }
    ensures reads { IfOk result (λ text. length (string_bytes text) ≤ longest_line → line_of (string_bytes text) ≡ line.Command (spec.timed at who.now command.now)) }
    ensures one_line { IfOk result (λ text. HasNoLf (string_bytes text)) }
{
    let value = line_value(alloc, at, who, command)?;
    let text = value.to_string(alloc)?;
    text_is_utf8(&text);
    Ok(text)
}
