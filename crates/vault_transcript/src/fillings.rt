//! A bucket of n keys, each with a version or with a delete marker.
use crate::transcript::play;
use std::alloc::Global;
use std::test::Fail;
use vault_core_model::keeper::Keeper;

/// What each key gets, as the texts round its name and its id, and what a run does with it.
pub struct Filling {
    before: &'static str,
    between: &'static str,
    later: &'static str,
    /// The calls by which a run makes its change.
    pub change: &'static str,
}

/// Versions, which a run marks; and delete markers alone, with which a run removes the key, and so asks for no id.
pub const FILLINGS: [Filling; 2] = [
    Filling {
        before: "{\"at\":\"2024-03-01T00:00:00Z\",\"as\":\"ann\",\"do\":\"put\",\"bucket\":\"docs\",\"key\":\"k",
        between: "\",\"text\":\"x\"}\n  {\"ok\":{\"version_id\":",
        later: "}}\n",
        change: "next id\nadmit\n",
    },
    Filling {
        before: "{\"at\":\"2024-03-01T00:00:00Z\",\"as\":\"ann\",\"do\":\"delete\",\"bucket\":\"docs\",\"key\":\"k",
        between: "\"}\n  {\"ok\":{\"delete_marker\":true,\"version_id\":",
        later: "}}\n",
        change: "remove\n",
    },
];

/// A number in digits.
pub fn text_of(alloc: Global, number: u32) -> Result<String, Fail> {
    Ok(format!(in alloc; "{number}")?)
}

/// The key `k1001` gets an entry with the id 1, `k1002` one with the id 2 ..
fn fill_key<K: Keeper>(
    alloc: Global,
    keeper: &mut K,
    filling: &Filling,
    id: u32,
) -> Result<(), Fail> {
    let key = text_of(alloc, id.saturating_add(1_000))?;
    let id = text_of(alloc, id)?;
    let pieces = [
        filling.before,
        key.as_str(),
        filling.between,
        id.as_str(),
        filling.later,
    ];
    let lines = pieces.concat(alloc)?;
    play(alloc, keeper, lines.as_str())
}

/// Fills the bucket `docs` with n keys, as `fill_key` does one.
pub fn fill<K: Keeper>(
    alloc: Global,
    keeper: &mut K,
    filling: &Filling,
    keys: u32,
) -> Result<(), Fail> {
    for id in 1..=keys {
        fill_key(alloc, keeper, filling, id)?;
    }
    Ok(())
}
