//! The members of lines on departments, callers and buckets, and on certificates.
ghost use Rattle.std.specs.Prelude.{◌≡◌, ◌++◌, IfOk, OnOk, codes, map, option_map};
ghost use Rattle.std.specs.List.{flat_map};
ghost use Rattle.serde_json.specs.Data.{string};
ghost use Rattle.serde_json.specs.View.{view, members_view};
ghost use Rattle.vault_lines_reply.specs.Putting.{put_if};
ghost use Rattle.vault_core_model.specs.declared.command.Command.TheVariants as command_of;
ghost use Rattle.vault_lines_print.specs.Members as spec;
ghost use Rattle.vault_lines_print.specs.Spelled.{IsNameIfGiven, IsSpelled};

use crate::members::{named, of_bucket, of_bucket_and_dept, of_dept};
use serde_json::{Map, Value, json, put};
use std::alloc::{AllocError, Global};
use vault_base::name::DeptName;
use vault_base::right::Right;
use vault_core_model::command::{
    AddBucket, AddCaller, AddDept, Certificate, CloseCaller, MoveBucket, Report,
};
use vault_core_model::rights::Rights;
use vault_lines_read::verb::Verb;
use vault_lines_reply::object::{Plain, put_plain};

pub fn add_dept(alloc: Global, command: &AddDept) -> Result<Map<String, Value>, AllocError>
    ensures members { IfOk result (λ members. members_view members.entries ≡ spec.members_of (command_of.AddDept command.now)) }
    ensures spelled { IfOk result (λ members. IsSpelled (command_of.AddDept command.now)) }
{
    of_dept(alloc, Verb::AddDept, &command.dept)
}

/// Puts in a department, where one is given.
fn put_dept(
    members: &mut Map<String, Value>,
    alloc: Global,
    dept: &Option<DeptName>,
) -> Result<(), AllocError>
    ensures ok { OnOk result (members_view members.new.entries ≡ put_if (codes "dept") (option_map string dept.now) (members_view members.old.entries)) }
    ensures spelled { OnOk result (IsNameIfGiven dept.now) }
{
    let Some(dept) = dept else {
        return Ok(());
    };
    put_plain(members, alloc, &[("dept", Plain::Text(dept.as_str()))])?;
    Ok(())
}

/// Adds the name of a right, if it is among these.
fn push_right(
    names: &mut Vec<Value>,
    alloc: Global,
    rights: Rights,
    right: Right,
) -> Result<(), AllocError>
    ensures { OnOk result (map view names.new.items ≡ map view names.old.items ++ spec.right_if rights right) }
{
    if rights.has(right) {
        names.push(json!(in alloc; right.name())?)?;
    }
    Ok(())
}

/// Adds the names of those of all rights that are among these.
fn push_rights(
    names: &mut Vec<Value>,
    alloc: Global,
    rights: Rights,
    all: &[Right],
) -> Result<(), AllocError>
    ensures { OnOk result (map view names.new.items ≡ map view names.old.items ++ flat_map (spec.right_if rights) all.now) }
{
    for right in all {
        push_right(names, alloc, rights, *right)?;
    }
    Ok(())
}

/// The names of these rights.
fn right_names(alloc: Global, rights: Rights) -> Result<Vec<Value>, AllocError>
    ensures { IfOk result (λ names. map view names.items ≡ spec.right_values rights) }
{
    let mut names = Vec::new(alloc);
    push_rights(&mut names, alloc, rights, &Right::ALL)?;
    Ok(names)
}

pub fn add_caller(alloc: Global, command: &AddCaller) -> Result<Map<String, Value>, AllocError>
    ensures members { IfOk result (λ members. members_view members.entries ≡ spec.members_of (command_of.AddCaller command.now)) }
    ensures spelled { IfOk result (λ members. IsSpelled (command_of.AddCaller command.now)) }
{
    let caller = Plain::Text(command.caller.as_str());
    let mut members = named(alloc, Verb::AddCaller, &[("caller", caller)])?;
    put_dept(&mut members, alloc, &command.dept)?;
    let rights = Value::Array(right_names(alloc, command.rights)?);
    put(&mut members, alloc, "rights", rights)?;
    Ok(members)
}

pub fn close_caller(alloc: Global, command: &CloseCaller) -> Result<Map<String, Value>, AllocError>
    ensures members { IfOk result (λ members. members_view members.entries ≡ spec.members_of (command_of.CloseCaller command.now)) }
    ensures spelled { IfOk result (λ members. IsSpelled (command_of.CloseCaller command.now)) }
{
    let caller = Plain::Text(command.caller.as_str());
    let members = named(alloc, Verb::CloseCaller, &[("caller", caller)])?;
    Ok(members)
}

pub fn add_bucket(alloc: Global, command: &AddBucket) -> Result<Map<String, Value>, AllocError>
    ensures members { IfOk result (λ members. members_view members.entries ≡ spec.members_of (command_of.AddBucket command.now)) }
    ensures spelled { IfOk result (λ members. IsSpelled (command_of.AddBucket command.now)) }
{
    of_bucket_and_dept(alloc, Verb::AddBucket, &command.bucket, &command.dept)
}

pub fn move_bucket(alloc: Global, command: &MoveBucket) -> Result<Map<String, Value>, AllocError>
    ensures members { IfOk result (λ members. members_view members.entries ≡ spec.members_of (command_of.MoveBucket command.now)) }
    ensures spelled { IfOk result (λ members. IsSpelled (command_of.MoveBucket command.now)) }
{
    of_bucket_and_dept(alloc, Verb::MoveBucket, &command.bucket, &command.dept)
}

pub fn report(alloc: Global, command: &Report) -> Result<Map<String, Value>, AllocError>
    ensures members { IfOk result (λ members. members_view members.entries ≡ spec.members_of (command_of.Report command.now)) }
    ensures spelled { IfOk result (λ members. IsSpelled (command_of.Report command.now)) }
{
    of_dept(alloc, Verb::Report, &command.dept)
}

pub fn certificate(alloc: Global, command: &Certificate) -> Result<Map<String, Value>, AllocError>
    ensures members { IfOk result (λ members. members_view members.entries ≡ spec.members_of (command_of.Certificate command.now)) }
    ensures spelled { IfOk result (λ members. IsSpelled (command_of.Certificate command.now)) }
{
    let mut members = of_bucket(alloc, Verb::Certificate, &command.bucket)?;
    let id = Plain::Whole(u64::from(command.id.number()));
    put_plain(&mut members, alloc, &[("id", id)])?;
    Ok(members)
}
