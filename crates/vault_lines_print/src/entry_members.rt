//! The members of lines on content versions and delete markers.
ghost use Rattle.std.specs.Prelude.{◌≡◌, ◌<◌, IfOk, OnOk};
ghost use Rattle.hex.specs.Hex.{IsBytes};
ghost use Rattle.serde_json.specs.Data.{put as with_member};
ghost use Rattle.serde_json.specs.View.{members_view};
ghost use Rattle.vault_base.specs.declared.content.Content.TheVariants.{External};
ghost use Rattle.vault_core_model.specs.declared.command.Command.TheVariants as command_of;
ghost use Rattle.vault_lines_print.specs.Members as spec;
ghost use Rattle.vault_lines_print.specs.Spelled.{AreSpelled, IsContentSpelled, IsSpelled};

use crate::lock_members::{put_hold_if, put_retention_if};
use crate::members::{of_bucket, of_key, put_id};
use serde_json::{Map, Value};
use std::alloc::{AllocError, Global};
use vault_base::content::{Content, Registered};
use vault_core_model::command::{DeleteVersion, Intake, ListVersions, Put};
use vault_lines_read::verb::Verb;
use vault_lines_reply::object::{Plain, put_plain};

/// Puts in a number of 32 bits.
fn put_number(
    members: &mut Map<String, Value>,
    alloc: Global,
    name: &str,
    number: u32,
) -> Result<(), AllocError>
    ensures ok { OnOk result (members_view members.new.entries ≡ with_member name.now (spec.whole number) (members_view members.old.entries)) }
    ensures range { OnOk result (number < 4294967296) }
{
    let number = Plain::Whole(u64::from(number));
    put_plain(members, alloc, &[(name, number)])?;
    Ok(())
}

/// Puts in bytes, in hex digits.
fn put_hex(
    members: &mut Map<String, Value>,
    alloc: Global,
    name: &str,
    bytes: &[u8],
) -> Result<(), AllocError>
    ensures ok { OnOk result (members_view members.new.entries ≡ spec.with_hex name.now bytes.now (members_view members.old.entries)) }
    ensures bytes { OnOk result (IsBytes bytes.now) }
{
    let digits = hex::encode(alloc, bytes)?;
    put_plain(members, alloc, &[(name, Plain::Text(digits.as_str()))])?;
    Ok(())
}

/// Puts in the digest and the size of bytes that are kept outside.
fn put_registered(
    members: &mut Map<String, Value>,
    alloc: Global,
    registered: &Registered,
) -> Result<(), AllocError>
    ensures ok { OnOk result (members_view members.new.entries ≡ spec.with_content (External registered.now) (members_view members.old.entries)) }
    ensures spelled { OnOk result (IsContentSpelled (External registered.now)) }
{
    put_hex(members, alloc, "sha256", registered.digest.as_slice())?;
    put_plain(members, alloc, &[("size", Plain::Whole(registered.size))])?;
    Ok(())
}

/// Puts in the bytes of a content, or the digest and the size of one that is kept outside.
fn put_content(
    members: &mut Map<String, Value>,
    alloc: Global,
    content: &Content,
) -> Result<(), AllocError>
    ensures ok { OnOk result (members_view members.new.entries ≡ spec.with_content content.now (members_view members.old.entries)) }
    ensures spelled { OnOk result (IsContentSpelled content.now) }
{
    match content {
        Content::Inside(bytes) => put_hex(members, alloc, "hex", bytes.as_slice()),
        Content::External(registered) => put_registered(members, alloc, registered),
    }
}

/// Puts in what is put, but for its bucket.
fn put_version(members: &mut Map<String, Value>, alloc: Global, put: &Put) -> Result<(), AllocError>
    ensures ok { OnOk result (members_view members.new.entries ≡ spec.put_fields spec.version (spec.version_of put.now) (members_view members.old.entries)) }
    ensures spelled { OnOk result (AreSpelled spec.version (spec.version_of put.now)) }
{
    put_plain(members, alloc, &[("key", Plain::Text(put.key.as_str()))])?;
    put_content(members, alloc, &put.content)?;
    put_retention_if(members, alloc, put.retention)?;
    put_hold_if(members, alloc, put.hold)?;
    Ok(())
}

pub fn put(alloc: Global, command: &Put) -> Result<Map<String, Value>, AllocError>
    ensures members { IfOk result (λ members. members_view members.entries ≡ spec.members_of (command_of.Put command.now)) }
    ensures spelled { IfOk result (λ members. IsSpelled (command_of.Put command.now)) }
{
    let mut members = of_bucket(alloc, Verb::Put, &command.bucket)?;
    put_version(&mut members, alloc, command)?;
    Ok(members)
}

pub fn intake(alloc: Global, command: &Intake) -> Result<Map<String, Value>, AllocError>
    ensures members { IfOk result (λ members. members_view members.entries ≡ spec.members_of (command_of.Intake command.now)) }
    ensures spelled { IfOk result (λ members. IsSpelled (command_of.Intake command.now)) }
{
    let mut members = of_bucket(alloc, Verb::Intake, &command.put.bucket)?;
    let batch = Plain::Text(command.batch.as_str());
    put_plain(&mut members, alloc, &[("batch", batch)])?;
    put_number(&mut members, alloc, "line", command.line)?;
    put_version(&mut members, alloc, &command.put)?;
    Ok(members)
}

pub fn list_versions(
    alloc: Global,
    command: &ListVersions,
) -> Result<Map<String, Value>, AllocError>
    ensures members { IfOk result (λ members. members_view members.entries ≡ spec.members_of (command_of.ListVersions command.now)) }
    ensures spelled { IfOk result (λ members. IsSpelled (command_of.ListVersions command.now)) }
{
    let mut members = of_bucket(alloc, Verb::ListVersions, &command.bucket)?;
    let prefix = Plain::Text(command.prefix.as_str());
    let after_key = Plain::Text(command.after_key.as_str());
    let keys = [("prefix", prefix), ("after_key", after_key)];
    put_plain(&mut members, alloc, &keys)?;
    put_id(&mut members, alloc, "after_id", command.after_id)?;
    put_number(&mut members, alloc, "most", command.most)?;
    Ok(members)
}

pub fn delete_version(
    alloc: Global,
    command: &DeleteVersion,
) -> Result<Map<String, Value>, AllocError>
    ensures members { IfOk result (λ members. members_view members.entries ≡ spec.members_of (command_of.DeleteVersion command.now)) }
    ensures spelled { IfOk result (λ members. IsSpelled (command_of.DeleteVersion command.now)) }
{
    let mut members = of_key(alloc, Verb::DeleteVersion, &command.bucket, &command.key)?;
    put_plain(
        &mut members,
        alloc,
        &[
            ("id", Plain::Whole(u64::from(command.id.number()))),
            ("bypass", Plain::Flag(command.bypass)),
        ],
    )?;
    Ok(members)
}
