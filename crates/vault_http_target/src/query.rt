//! The query of a target: its names and values.
ghost use Rattle.std.specs.Prelude.{◌≡◌, IfOk, map};
ghost use Rattle.std.specs.List.{list_any};
ghost use Rattle.std.specs.Option.{option_copied};
ghost use Rattle.std.specs.Str.{bytes_eq};
ghost use Rattle.vault_lines_json.specs.Shape.{is_among as among};
ghost use Rattle.vault_http_target.specs.Query as spec;

use crate::text::Text;
use form_urlencoded::parse;
use std::alloc::{AllocError, Global};

/// A name of a query and its value.
#[derive(Drop)]
pub struct Pair {
    pub name: Text,
    pub value: Text,
}

/// The pairs of a query, as the URL Standard reads forms. Bytes that aren't UTF-8 become U+FFFD.
pub fn pairs_of(alloc: Global, query: &[u8]) -> Result<Vec<Pair>, AllocError>
    ensures { IfOk result (λ pairs. map spec.shown pairs.items ≡ spec.pairs_of query.now) }
{
    let mut pairs = Vec::new(alloc);
    for item in parse(alloc, query) {
        let (name, value) = item?;
        pairs.push(Pair {
            name: Text::of(alloc, name.as_str())?,
            value: Text::of(alloc, value.as_str())?,
        })?;
    }
    Ok(pairs)
}

fn is_any(name: &str, names: &[&str]) -> bool
    ensures { result ≡ list_any (λ n. bytes_eq name.now n.now) names.now }
{
    names.iter().any(|n| name == *n)
}

/// Whether a name is among these.
fn is_among(name: &str, names: &[&str]) -> bool
    ensures { result ≡ among (map (λ n. n.now) names.now) name.now }
{
    is_any(name, names)
}

/// Whether each pair's name is among these.
pub fn are_among(pairs: &[Pair], names: &[&str]) -> bool
    ensures { result ≡ spec.are_among (map (λ n. n.now) names.now) (map spec.shown pairs.now) }
{
    for pair in pairs {
        if !is_among(pair.name.as_str(), names) {
            return false;
        }
    }
    true
}

/// How many pairs have a name among these.
pub fn count_among(pairs: &[Pair], names: &[&str]) -> usize
    ensures { result ≡ spec.count_among (map (λ n. n.now) names.now) (map spec.shown pairs.now) }
{
    let mut count = 0;
    for pair in pairs {
        if is_among(pair.name.as_str(), names) {
            count += 1;
        }
    }
    count
}

/// The value of the first pair of that name.
pub fn value_named<'p>(pairs: &'p [Pair], name: &str) -> Option<&'p str>
    ensures { option_copied result ≡ spec.value_named name.now (map spec.shown pairs.now) }
{
    for pair in pairs {
        if pair.name.as_str() == name {
            return Some(pair.value.as_str());
        }
    }
    None
}

/// Whether a pair has that name.
pub fn has_named(pairs: &[Pair], name: &str) -> bool
    ensures { result ≡ spec.has_named name.now (map spec.shown pairs.now) }
{
    value_named(pairs, name).is_some()
}
