//! What a method does with a target.
ghost use Rattle.std.specs.Prelude.{◌≡◌};
ghost use Rattle.vault_http_request.specs.Operation as spec;

use vault_base::name::{BucketName, ObjectKey, VersionId};
use vault_core_model::command::{
    Command, Delete, DropRules, Get, GetDefault, GetHold, GetRetention, GetRules, Head,
};
use vault_http_target::target::{Object, Target};

/// The kind of a target, by which its methods are reported.
#[derive(Clone, Copy, PartialEq, Eq, Debug)]
pub enum Resource {
    Object,
    /// Retention, legal hold, or the default retention of a bucket.
    Setting,
    Bucket,
    Versions,
    Lifecycle,
}

/// What is asked for, but for what the headers and the body say.
#[derive(Drop)]
pub enum Operation {
    /// A command that they say nothing of.
    Ready(Command),
    Put(BucketName, ObjectKey),
    DeleteVersion(BucketName, ObjectKey, VersionId),
    SetRetention(Object),
    SetHold(Object),
    SetDefault(BucketName),
    SetRules(BucketName),
}

fn remove(object: Object) -> Operation
    ensures { result ≡ spec.delete object }
{
    let Object { bucket, key, id } = object;
    match id {
        Some(id) => Operation::DeleteVersion(bucket, key, id),
        None => Operation::Ready(Command::Delete(Delete { bucket, key })),
    }
}

fn put(object: Object) -> Operation
    ensures { result ≡ spec.put object }
{
    Operation::Put(object.bucket, object.key)
}

fn get(object: Object) -> Operation
    ensures { result ≡ spec.get object }
{
    let Object { bucket, key, id } = object;
    Operation::Ready(Command::Get(Get { bucket, key, id }))
}

fn head(object: Object) -> Operation
    ensures { result ≡ spec.head object }
{
    let Object { bucket, key, id } = object;
    Operation::Ready(Command::Head(Head { bucket, key, id }))
}

fn get_retention(object: Object) -> Operation
    ensures { result ≡ spec.get_retention object }
{
    let Object { bucket, key, id } = object;
    Operation::Ready(Command::GetRetention(GetRetention { bucket, key, id }))
}

fn get_hold(object: Object) -> Operation
    ensures { result ≡ spec.get_hold object }
{
    let Object { bucket, key, id } = object;
    Operation::Ready(Command::GetHold(GetHold { bucket, key, id }))
}

fn on_object(method: &[u8], object: Object) -> Result<Operation, Resource>
    ensures { result ≡ spec.on_object method.now object }
{
    if method == b"PUT".as_slice() {
        Ok(put(object))
    } else if method == b"GET".as_slice() {
        Ok(get(object))
    } else if method == b"HEAD".as_slice() {
        Ok(head(object))
    } else if method == b"DELETE".as_slice() {
        Ok(remove(object))
    } else {
        Err(Resource::Object)
    }
}

fn on_retention(method: &[u8], object: Object) -> Result<Operation, Resource>
    ensures { result ≡ spec.on_retention method.now object }
{
    if method == b"PUT".as_slice() {
        Ok(Operation::SetRetention(object))
    } else if method == b"GET".as_slice() {
        Ok(get_retention(object))
    } else {
        Err(Resource::Setting)
    }
}

fn on_hold(method: &[u8], object: Object) -> Result<Operation, Resource>
    ensures { result ≡ spec.on_hold method.now object }
{
    if method == b"PUT".as_slice() {
        Ok(Operation::SetHold(object))
    } else if method == b"GET".as_slice() {
        Ok(get_hold(object))
    } else {
        Err(Resource::Setting)
    }
}

fn on_default(method: &[u8], bucket: BucketName) -> Result<Operation, Resource>
    ensures { result ≡ spec.on_default method.now bucket }
{
    if method == b"PUT".as_slice() {
        Ok(Operation::SetDefault(bucket))
    } else if method == b"GET".as_slice() {
        Ok(Operation::Ready(Command::GetDefault(GetDefault { bucket })))
    } else {
        Err(Resource::Setting)
    }
}

fn on_rules(method: &[u8], bucket: BucketName) -> Result<Operation, Resource>
    ensures { result ≡ spec.on_rules method.now bucket }
{
    if method == b"PUT".as_slice() {
        Ok(Operation::SetRules(bucket))
    } else if method == b"GET".as_slice() {
        Ok(Operation::Ready(Command::GetRules(GetRules { bucket })))
    } else if method == b"DELETE".as_slice() {
        Ok(Operation::Ready(Command::DropRules(DropRules { bucket })))
    } else {
        Err(Resource::Lifecycle)
    }
}

/// What a method does with a target; where the target hasn't that method, the error states its kind.
/// Methods are compared with their letter case (RFC 9110, section 9.1).
pub fn operation_of(method: &[u8], target: Target) -> Result<Operation, Resource>
    ensures { result ≡ spec.operation_of method.now target }
{
    match target {
        Target::Object(object) => on_object(method, object),
        Target::Retention(object) => on_retention(method, object),
        Target::LegalHold(object) => on_hold(method, object),
        Target::Bucket(_) => Err(Resource::Bucket),
        Target::Versions(listing) => {
            if method == b"GET".as_slice() {
                Ok(Operation::Ready(Command::ListVersions(listing)))
            } else {
                Err(Resource::Versions)
            }
        }
        Target::ObjectLock(bucket) => on_default(method, bucket),
        Target::Lifecycle(bucket) => on_rules(method, bucket),
    }
}
