//! The seal over what happened in a vault before a moment.
ghost use Rattle.std.specs.Prelude.{◌≡◌, ◌≤◌, ◌<◌, IfOk, Err, None, unwrap_or, MatchOption};
ghost use Rattle.vault_base.specs.declared.refusal.Refusal.{Refusal as AnyRefusal};
ghost use Rattle.vault_base.specs.declared.refusal.Refusal.TheVariants.{InvalidArgument};
ghost use Rattle.vault_core_model.specs.Leaves.{LeavesSame};
ghost use Rattle.vault_core_model.specs.Halts.{is_device};
ghost use Rattle.vault_files_events.specs.Faults.{keeper_fault_of};
ghost use Rattle.vault_files_events.specs.Seal.{SealsAs};
ghost use Rattle.vault_files_events.specs.Typed.{AreTyped};

use crate::seal_lines::Seal;
use crate::takers::Digesting;
use crate::walk::take_events;
use std::alloc::Global;
use vault_base::moment::Moment;
use vault_base::refusal::Refusal;
use vault_core_model::halt::{Fault, Halt};
use vault_core_model::keeper::Keeper;
use vault_files_texts::ExportFault;

/// A digest takes whatever it is given, so there is no `Write`.
fn keeper_fault(fault: ExportFault) -> Fault
    ensures { result ≡ keeper_fault_of fault }
{
    match fault {
        ExportFault::Write | ExportFault::Memory => Fault::Memory,
        ExportFault::Device => Fault::Device,
    }
}

/// The moment of a seal, which a vault whose last moment is this one has reached.
fn reached(before: Option<Moment>, last: Moment) -> Option<Moment>
    ensures { MatchOption result (last < unwrap_or before last) (λ m. (m ≡ unwrap_or before last) × (m ≤ last)) }
{
    match before {
        None => Some(last),
        Some(before) => (before <= last).then_some(before),
    }
}

/// The seal of what happened in a vault before a moment, and without one, before the last moment of the vault. What was
/// done at the moment itself isn't part of it: more may still be done at the last moment, and so only what is before it is
/// settled. Each value of the entries that are sealed is of its type.
///
/// `InvalidArgument` comes where the vault hasn't reached the moment, and no other refusal. `Memory` comes where room for
/// an entry's records was refused, and `Device` where the vault's device failed, and there always. The vault is never
/// changed.
pub fn seal<K: Keeper>(alloc: Global, keeper: &mut K, before: Option<Moment>) -> Result<Seal, Halt>
    ensures sealed { K.is_honest keeper.new → SealsAs result before (K.vault keeper.old) }
    ensures typed { K.is_honest keeper.new → IfOk result (λ seal. AreTyped (K.vault keeper.old)) }
    ensures leaves { LeavesSame K.Kept keeper.old keeper.new (is_device result) }
    // Whatever the device does, nothing else is refused.
    ensures refused { (r : AnyRefusal) → result ≡ Err (Halt.Refused r) → r ≡ InvalidArgument }
{
    let last = keeper.last()?;
    let Some(before) = reached(before, last) else {
        return Err(Halt::Refused(Refusal::InvalidArgument));
    };
    let mut digesting = Digesting::new();
    match take_events(alloc, keeper, &mut digesting, &Some(before)) {
        Ok(counted) => Ok(Seal {
            before,
            entries: counted.entries,
            events: counted.events,
            digest: digesting.digest(),
        }),
        Err(fault) => Err(Halt::Fault(keeper_fault(fault))),
    }
}
