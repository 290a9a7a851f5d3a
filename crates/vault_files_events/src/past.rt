//! What a vault's keeper reads of one entry.
ghost use Rattle.std.specs.Prelude.{◌≡◌, IfOk, IfSome};
ghost use Rattle.vault_core_model.specs.Leaves.{ReadsAs};
ghost use Rattle.vault_core_model.specs.Vault.{history_of};
ghost use Rattle.vault_files_events.specs.Past.{past_of};
ghost use Rattle.vault_files_events.specs.Typed.{IsTyped};

use crate::typed::entry_is_typed;
use vault_base::name::VersionId;
use vault_core_model::halt::Fault;
use vault_core_model::keeper::Keeper;
use vault_core_model::records::{Entry, Settings, Tenures};

/// An entry with its settings and its tenures.
#[derive(Drop)]
pub(crate) struct Past {
    pub(crate) entry: Entry,
    pub(crate) settings: Settings,
    pub(crate) tenures: Tenures,
}

/// Reads what the vault has of the entry of an id.
pub(crate) fn read_past<K: Keeper>(keeper: &mut K, id: VersionId) -> Result<Option<Past>, Fault>
    ensures value { K.is_honest keeper.new → IfOk result (λ found. found ≡ past_of (history_of (K.vault keeper.old) id)) }
    ensures typed { IfOk result (λ found. IfSome found (λ past. IsTyped past.entry)) }
    ensures leaves { ReadsAs K.Kept keeper.old keeper.new result }
{
    let Some(entry) = keeper.entry(id)? else {
        return Ok(None);
    };
    entry_is_typed(&entry);
    let settings = keeper.settings(id)?;
    let tenures = keeper.tenures(id)?;
    Ok(Some(Past {
        entry,
        settings,
        tenures,
    }))
}
