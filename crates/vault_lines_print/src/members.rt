//! Members that lines of several commands have.
ghost use Rattle.std.specs.Prelude.{◌≡◌, IfOk, IsTrue, OnOk, codes, option_map};
ghost use Rattle.std.specs.List.{fold};
ghost use Rattle.serde_json.specs.Data.{put as with_member};
ghost use Rattle.serde_json.specs.View.{view, members_view};
ghost use Rattle.vault_base.specs.Name.{is_bucket_name, is_object_key, is_plain_name};
ghost use Rattle.vault_lines_reply.specs.Object.{plain_data};
ghost use Rattle.vault_lines_reply.specs.Putting.{put_if};
ghost use Rattle.vault_lines_print.specs.Members as spec;
ghost use Rattle.vault_lines_print.specs.Spelled.{IsIdIfGiven};

use serde_json::{Map, Value};
use std::alloc::{AllocError, Global};
use vault_base::name::{BucketName, DeptName, ObjectKey, VersionId};
use vault_lines_read::verb::Verb;
use vault_lines_reply::object::{Plain, put_plain};

/// The members of a line: its verb, and these.
pub fn named(
    alloc: Global,
    verb: Verb,
    plain: &[(&str, Plain)],
) -> Result<Map<String, Value>, AllocError>
    ensures { IfOk result (λ members. members_view members.entries ≡ fold (λ ms m. with_member m.0.now (plain_data m.1) ms) (spec.named verb) plain.now) }
{
    let mut members = Map::new(alloc);
    put_plain(&mut members, alloc, &[("do", Plain::Text(verb.name()))])?;
    put_plain(&mut members, alloc, plain)?;
    Ok(members)
}

/// The members of a line on a department.
pub fn of_dept(alloc: Global, verb: Verb, dept: &DeptName) -> Result<Map<String, Value>, AllocError>
    ensures members { IfOk result (λ members. members_view members.entries ≡ spec.of_dept verb dept.now) }
    ensures spelled { IfOk result (λ members. IsTrue (is_plain_name dept.now)) }
{
    let dept = Plain::Text(dept.as_str());
    let members = named(alloc, verb, &[("dept", dept)])?;
    Ok(members)
}

/// The members of a line on a bucket.
pub fn of_bucket(
    alloc: Global,
    verb: Verb,
    bucket: &BucketName,
) -> Result<Map<String, Value>, AllocError>
    ensures members { IfOk result (λ members. members_view members.entries ≡ spec.of_bucket verb bucket.now) }
    ensures spelled { IfOk result (λ members. IsTrue (is_bucket_name bucket.now)) }
{
    let bucket = Plain::Text(bucket.as_str());
    let members = named(alloc, verb, &[("bucket", bucket)])?;
    Ok(members)
}

/// The members of a line on a bucket and a department.
pub fn of_bucket_and_dept(
    alloc: Global,
    verb: Verb,
    bucket: &BucketName,
    dept: &DeptName,
) -> Result<Map<String, Value>, AllocError>
    ensures members { IfOk result (λ members. members_view members.entries ≡ spec.of_bucket_and_dept verb bucket.now dept.now) }
    ensures spelled { IfOk result (λ members. IsTrue (is_bucket_name bucket.now) × IsTrue (is_plain_name dept.now)) }
{
    let bucket = Plain::Text(bucket.as_str());
    let dept = Plain::Text(dept.as_str());
    let members = named(alloc, verb, &[("bucket", bucket), ("dept", dept)])?;
    Ok(members)
}

/// The members of a line on a key of a bucket.
pub fn of_key(
    alloc: Global,
    verb: Verb,
    bucket: &BucketName,
    key: &ObjectKey,
) -> Result<Map<String, Value>, AllocError>
    ensures members { IfOk result (λ members. members_view members.entries ≡ spec.of_key verb bucket.now key.now) }
    ensures spelled { IfOk result (λ members. IsTrue (is_bucket_name bucket.now) × IsTrue (is_object_key key.now)) }
{
    let bucket = Plain::Text(bucket.as_str());
    let key = Plain::Text(key.as_str());
    let members = named(alloc, verb, &[("bucket", bucket), ("key", key)])?;
    Ok(members)
}

/// Puts in an id, where one is given.
pub fn put_id(
    members: &mut Map<String, Value>,
    alloc: Global,
    name: &str,
    id: Option<VersionId>,
) -> Result<(), AllocError>
    ensures ok { OnOk result (members_view members.new.entries ≡ put_if name.now (option_map spec.whole id) (members_view members.old.entries)) }
    ensures spelled { OnOk result (IsIdIfGiven id) }
{
    let Some(id) = id else {
        return Ok(());
    };
    let id = Plain::Whole(u64::from(id.number()));
    put_plain(members, alloc, &[(name, id)])?;
    Ok(())
}

/// The members of a line on an entry of a key; without an id the current one is meant.
pub fn of_entry(
    alloc: Global,
    verb: Verb,
    bucket: &BucketName,
    key: &ObjectKey,
    id: Option<VersionId>,
) -> Result<Map<String, Value>, AllocError>
    ensures members { IfOk result (λ members. members_view members.entries ≡ spec.of_entry verb bucket.now key.now id) }
    ensures spelled { IfOk result (λ members. IsTrue (is_bucket_name bucket.now) × IsTrue (is_object_key key.now) × IsIdIfGiven id) }
{
    let mut members = of_key(alloc, verb, bucket, key)?;
    put_id(&mut members, alloc, "id", id)?;
    Ok(members)
}
