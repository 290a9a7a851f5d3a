//! A put.
ghost use Rattle.std.specs.Prelude.{◌≡◌, IfOk, Some, None};
ghost use Rattle.vault_core_model.specs.Leaves.{Leaves, LeavesSame};
ghost use Rattle.vault_core_model.specs.Allowed.{IsAdmission};
ghost use Rattle.vault_core_model.specs.Halts.{ChecksAs, AnswersAs, is_device};
ghost use Rattle.vault_core_model.specs.EntryOutcomes as outcome;
ghost use Rattle.vault_core_model.specs.Vault.{config_of};

use crate::admission::{NewVersion, find_access_to_put, find_lock_to_admit, new_version};
use std::alloc::Global;
use vault_base::moment::Moment;
use vault_base::name::{CallerName, VersionId};
use vault_core_checks::limit::find_id;
use vault_core_model::access::Access;
use vault_core_model::change::{Admission, Change};
use vault_core_model::command::Put;
use vault_core_model::halt::Halt;
use vault_core_model::keeper::{Keeper, make_change};
use vault_core_model::records::History;
use vault_core_model::reply::Answer;

/// Admits a new content version above whatever the key has.
pub fn put<K: Keeper>(
    alloc: Global,
    keeper: &mut K,
    at: Moment,
    who: &CallerName,
    command: &Put,
) -> Result<Answer, Halt>
    ensures meets { K.is_honest keeper.new → AnswersAs result (K.vault keeper.old) (K.vault keeper.new) (outcome.put (K.vault keeper.old) at who.now command.now) }
    ensures leaves { Leaves K.Kept keeper.old keeper.new (is_device result) }
{
    let access = find_access_to_put(keeper, at, who, command)?;
    let found = find_version_to_admit(alloc, keeper, at, who, command, &access);
    drop(access);
    let history = found?;
    let id = id_of(&history);
    let admission = Admission {
        history,
        note: None,
    };
    make_change(keeper, at, Change::Admit(admission))?;
    Ok(Answer::Admitted(id))
}

/// The version that a put admits, with the next id.
fn find_version_to_admit<K: Keeper>(
    alloc: Global,
    keeper: &mut K,
    at: Moment,
    who: &CallerName,
    command: &Put,
    access: &Access,
) -> Result<History, Halt>
    requires there { K.is_honest keeper.old → config_of (K.vault keeper.old) command.now.bucket ≡ Some access.now.bucket }
    ensures found { K.is_honest keeper.new → ChecksAs result (outcome.admission (K.vault keeper.old) at who.now command.now access.now) }
    ensures allowed { K.is_honest keeper.new → IfOk result (λ history. IsAdmission (K.vault keeper.old) at (record { history = history; note = None })) }
    ensures leaves { LeavesSame K.Kept keeper.old keeper.new (is_device result) }
{
    let lock = find_lock_to_admit(keeper, at, command, access)?;
    let version = NewVersion {
        id: find_id(keeper)?,
        at,
        who,
        dept: &access.bucket.dept,
        lock,
    };
    Ok(new_version(alloc, &version, command)?)
}

/// The id of a version, read before the version is handed on.
fn id_of(history: &History) -> VersionId
    ensures { result ≡ history.now.entry.id }
{
    history.entry.id
}
