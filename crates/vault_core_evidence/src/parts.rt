//! Parts of the entries of a vault, by rising id: each begins after an id.
ghost use Rattle.std.specs.Prelude.{◌≡◌, IfOk, length};
ghost use Rattle.vault_core_model.specs.Leaves.{ReadsAs};
ghost use Rattle.vault_core_evidence.specs.Parts as spec;

use vault_core_model::halt::Fault;
use vault_core_model::keeper::Keeper;

/// How many entries one part has at most.
const MOST_ENTRIES: u32 = 1_000;

/// How many entries a vault has, held or removed.
pub fn count_entries<K: Keeper>(keeper: &mut K) -> Result<u32, Fault>
    ensures value { K.is_honest keeper.new → IfOk result (λ n. n ≡ length (K.vault keeper.old).histories) }
    ensures leaves { ReadsAs K.Kept keeper.old keeper.new result }
{
    let next = keeper.next_id()?;
    Ok(u32::try_from(next.saturating_sub(1)).unwrap_or(u32::MAX))
}

/// How many entries the part after an id has, of a vault with `entries` entries.
pub fn most_of(entries: u32, after: u32) -> u32
    ensures { result ≡ spec.most_of entries after }
{
    let left = entries.saturating_sub(after);
    if left > MOST_ENTRIES {
        MOST_ENTRIES
    } else {
        left
    }
}

/// The id after which the next part begins; none where no entry is left.
pub fn next_of(entries: u32, after: u32) -> Option<u32>
    ensures { result ≡ spec.next_of entries after }
{
    let end = after.checked_add(MOST_ENTRIES)?;
    (end < entries).then_some(end)
}
