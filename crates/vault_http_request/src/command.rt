//! The command that an operation makes with its locks and its body.
ghost use Rattle.std.specs.Prelude.{◌≡◌, map};
ghost use Rattle.serde_json.specs.View.{view};
ghost use Rattle.vault_values.specs.Fault.{Gives};
ghost use Rattle.vault_http_request.specs.Command as spec;

use crate::operation::Operation;
use crate::request_headers::Locks;
use serde_json::Value;
use std::alloc::Global;
use vault_base::content::{Bytes, Content};
use vault_base::name::{BucketName, ObjectKey};
use vault_base::refusal::Refusal;
use vault_core_model::command::{
    Command, DeleteVersion, Put, SetDefault, SetHold, SetRetention, SetRules,
};
use vault_http_target::target::Object;
use vault_lines_json::document::document;
use vault_lines_json::shape::{Kind, has_members};
use vault_lines_json::{locks, rules};
use vault_values::fault::LineFault;

/// The JSON object of just these members that a body is.
#[tactic(auto, unfolding(crate::specs::Command::object_of))]
fn object_of(alloc: Global, body: &[u8], members: &[(&str, Kind)]) -> Result<Value, LineFault>
    ensures { Gives view result (spec.object_of body.now (map (λ m. (m.0.now, m.1)) members.now)) }
{
    let value = document(alloc, body)?;
    if !has_members(&value, members) {
        return Err(LineFault::Refused(Refusal::MalformedBody));
    }
    Ok(value)
}

#[tactic(auto, unfolding(crate::specs::Command::set_retention))]
fn set_retention(
    alloc: Global,
    object: Object,
    bypass: bool,
    body: &[u8],
) -> Result<Command, LineFault>
    ensures { Gives (λ x. x) result (spec.set_retention object bypass body.now) }
{
    let value = object_of(alloc, body, &[("mode", Kind::Text), ("until", Kind::Text)])?;
    let retention = locks::retention(&value)?;
    let Object { bucket, key, id } = object;
    Ok(Command::SetRetention(SetRetention {
        bucket,
        key,
        id,
        retention,
        bypass,
    }))
}

#[tactic(auto, unfolding(crate::specs::Command::set_hold))]
fn set_hold(alloc: Global, object: Object, body: &[u8]) -> Result<Command, LineFault>
    ensures { Gives (λ x. x) result (spec.set_hold object body.now) }
{
    let value = object_of(alloc, body, &[("hold", Kind::Text)])?;
    let hold = locks::hold(&value)?;
    let Object { bucket, key, id } = object;
    Ok(Command::SetHold(SetHold {
        bucket,
        key,
        id,
        hold,
    }))
}

#[tactic(auto, unfolding(crate::specs::Command::set_default))]
fn set_default(alloc: Global, bucket: BucketName, body: &[u8]) -> Result<Command, LineFault>
    ensures { Gives (λ x. x) result (spec.set_default bucket body.now) }
{
    let value = object_of(
        alloc,
        body,
        &[
            ("mode", Kind::OptionalText),
            ("days", Kind::OptionalNumber),
            ("years", Kind::OptionalNumber),
        ],
    )?;
    let default = locks::default(&value)?;
    Ok(Command::SetDefault(SetDefault { bucket, default }))
}

#[tactic(auto, unfolding(crate::specs::Command::set_rules))]
fn set_rules(alloc: Global, bucket: BucketName, body: &[u8]) -> Result<Command, LineFault>
    ensures { Gives (λ x. x) result (spec.set_rules bucket body.now) }
{
    let value = object_of(alloc, body, &[("rules", Kind::Rules)])?;
    let rules = rules::rules(alloc, &value)?;
    Ok(Command::SetRules(SetRules { bucket, rules }))
}

fn put(bucket: BucketName, key: ObjectKey, locks: Locks, bytes: Bytes) -> Command
    ensures { result ≡ spec.put bucket key locks bytes }
{
    Command::Put(Put {
        bucket,
        key,
        content: Content::Inside(bytes),
        retention: locks.retention,
        hold: locks.hold,
    })
}

/// The command that an operation makes with its locks and its body, which is empty where it has none.
///
/// A body that isn't JSON of its form is `MalformedBody`; a bad value in it is refused as in a script line.
pub fn command_of(
    alloc: Global,
    operation: Operation,
    locks: Locks,
    body: Bytes,
) -> Result<Command, LineFault>
    ensures { Gives (λ x. x) result (spec.command_of operation locks body) }
{
    match operation {
        Operation::Ready(command) => Ok(command),
        Operation::Put(bucket, key) => Ok(put(bucket, key, locks, body)),
        Operation::DeleteVersion(bucket, key, id) => Ok(Command::DeleteVersion(DeleteVersion {
            bucket,
            key,
            id,
            bypass: locks.bypass,
        })),
        Operation::SetRetention(object) => {
            set_retention(alloc, object, locks.bypass, body.as_slice())
        }
        Operation::SetHold(object) => set_hold(alloc, object, body.as_slice()),
        Operation::SetDefault(bucket) => set_default(alloc, bucket, body.as_slice()),
        Operation::SetRules(bucket) => set_rules(alloc, bucket, body.as_slice()),
    }
}
