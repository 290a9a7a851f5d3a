//! Names of buckets, printed as a line.
ghost use Rattle.std.specs.Prelude.{◌≡◌, IfOk, map, string_bytes};
ghost use Rattle.serde_json.specs.View.{view};
ghost use Rattle.vaultctl_serve_lines_answers.specs.BucketsLine as spec;

use crate::status_line::ok_value;
use serde_json::{Value, json};
use std::alloc::{AllocError, Global};
use std::marker::Model;
use vault_base::name::BucketName;

/// Names of buckets, in order.
#[derive(Drop)]
pub struct BucketNames {
    names: Vec<BucketName>,
}

impl Model for BucketNames {
    ghost use Rattle.std.specs.Prelude.{ℕ, List};

    ghost Value = { List (List ℕ) };

    ghost view = { λ n. n.names.items };
}

impl BucketNames {
    /// These names.
    pub fn new(names: Vec<BucketName>) -> BucketNames
        ensures { result ≡ names.items }
    {
        BucketNames { names }
    }

    /// The names, in order.
    pub fn as_slice(&self) -> &[BucketName]
        ensures { result.now ≡ self.now }
    {
        self.names.as_slice()
    }
}

/// Some names of buckets, and whether names after them were left out.
#[derive(Drop)]
pub struct BucketsPage {
    pub names: BucketNames,
    pub more: bool,
}

fn name_value(alloc: Global, name: &BucketName) -> Result<Value, AllocError>
    ensures { IfOk result (λ value. view value ≡ spec.name_value name.now) }
{
    json!(in alloc; name.as_str())
}

fn name_values(alloc: Global, names: &[BucketName]) -> Result<Vec<Value>, AllocError>
    ensures { IfOk result (λ list. map view list.items ≡ map spec.name_value names.now) }
{
    let mut list = Vec::new(alloc);
    for name in names {
        list.push(name_value(alloc, name)?)?;
    }
    Ok(list)
}

/// The members of a page whose names are made.
fn page_members(alloc: Global, names: &Value, more: bool) -> Result<Value, AllocError>
    ensures { IfOk result (λ value. view value ≡ spec.page_members (view names.now) more) }
{
    json!(in alloc; { "buckets": names, "more": more })
}

fn page_value(alloc: Global, page: &BucketsPage) -> Result<Value, AllocError>
    ensures { IfOk result (λ value. view value ≡ spec.page_value page.now) }
{
    let names = Value::Array(name_values(alloc, page.names.as_slice())?);
    page_members(alloc, &names, page.more)
}

/// The line of some names of buckets, with its LF: compact JSON, members in the order of their names' bytes. The error
/// is out of memory.
#[tactic(auto, unfolding(crate::specs::BucketsLine::buckets_text))]
pub fn buckets_line(alloc: Global, page: &BucketsPage) -> Result<String, AllocError>
    ensures { IfOk result (λ text. string_bytes text ≡ spec.buckets_text page.now) }
{
    let stated = page_value(alloc, page)?;
    let value = ok_value(alloc, &stated)?;
    let mut line = value.to_string(alloc)?;
    line.push_str("\n")?;
    Ok(line)
}
