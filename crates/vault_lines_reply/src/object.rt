//! Objects of JSON, made of their members.
ghost use Rattle.std.specs.Prelude.{◌≡◌, IfOk, OnOk};
ghost use Rattle.std.specs.List.{fold};
ghost use Rattle.serde_json.specs.Data.{member, no_members, object, put as with_member};
ghost use Rattle.serde_json.specs.View.{view, members_view};
ghost use Rattle.vault_lines_reply.specs.Object.{plain_data};

use serde_json::{Map, Value, json, put};
use std::alloc::{AllocError, Global};

/// A value that has no values inside.
#[derive(Clone, Copy)]
pub enum Plain<'a> {
    Text(&'a str),
    Whole(u64),
    Flag(bool),
}

fn plain_value(alloc: Global, plain: Plain) -> Result<Value, AllocError>
    ensures { IfOk result (λ value. view value ≡ plain_data plain.entry) }
{
    match plain {
        Plain::Text(text) => json!(in alloc; text),
        Plain::Whole(number) => json!(in alloc; number),
        Plain::Flag(flag) => json!(in alloc; flag),
    }
}

/// Puts in each of these members; one that is there already gets the new value. The only error is out of memory.
pub fn put_plain(
    members: &mut Map<String, Value>,
    alloc: Global,
    plain: &[(&str, Plain)],
) -> Result<(), AllocError>
    ensures { OnOk result (members_view members.new.entries ≡ fold (λ ms m. with_member m.0.now (plain_data m.1) ms) (members_view members.old.entries) plain.now) }
{
    for (name, value) in plain {
        let value = plain_value(alloc, *value)?;
        put(members, alloc, name, value)?;
    }
    Ok(())
}

/// The object of these members. The only error is out of memory.
pub fn plain_object(alloc: Global, plain: &[(&str, Plain)]) -> Result<Value, AllocError>
    ensures { IfOk result (λ value. view value ≡ object (fold (λ ms m. with_member m.0.now (plain_data m.1) ms) no_members plain.now)) }
{
    let mut members = Map::new(alloc);
    put_plain(&mut members, alloc, plain)?;
    Ok(Value::Object(members))
}

/// The object of this member alone. The only error is out of memory.
pub fn object_of(alloc: Global, name: &str, value: Value) -> Result<Value, AllocError>
    ensures { IfOk result (λ made. view made ≡ object (member name.now (view value) no_members)) }
{
    let mut members = Map::new(alloc);
    put(&mut members, alloc, name, value)?;
    Ok(Value::Object(members))
}
