//! What a job does with a vault.
ghost use Rattle.std.specs.Prelude.{ℕ, List, Option, Result as AnyResult};
ghost use Rattle.vaultctl_commands.specs.declared.fault.JobFault.{JobFault as AnyFault};
ghost use Rattle.vaultctl_commands.specs.declared.outcome.Outcome.{Outcome as AnyOutcome};
ghost use Rattle.vaultctl_work.specs.Scene.{Scene, scene};

use std::io::{Read, Stderr, Write};
use vault_core_model::keeper::Keeper;
use vaultctl_commands::fault::JobFault;
use vaultctl_commands::outcome::Outcome;
use vaultctl_commands::progress_keeper::ProgressKeeper;

/// What a job does with a vault.
pub trait Work {
    /// What it has reported of what came of it.
    ghost prints: { AnyResult AnyOutcome AnyFault → Option (List ℕ) → Option (List ℕ) → Type 0 };

    /// What it did: the job, the vault with what is left of the input and what was printed, the same after it, and what came
    /// of it. It is said where the device has returned what was written.
    ghost does: { Self → Scene → Scene → AnyResult AnyOutcome AnyFault → Type 0 };

    /// The terminal that shows how far it has come; none where nothing is shown.
    fn terminal(&self, rt: &HostRuntime) -> Option<Stderr>;

    /// Does it with any keeper, and answers what came of it.
    ///
    /// The error is the fault that stopped it.
    fn carry_out<K: Keeper, R: Read, W: Write, E: Write>(
        &self,
        rt: &HostRuntime,
        keeper: &mut K,
        reader: &mut R,
        out: &mut W,
        err: &mut E,
    ) -> Result<Outcome, JobFault>
        ensures printed { prints result (W.contents out.old) (W.contents out.new) }
        ensures done { K.is_honest keeper.new → K.is_honest keeper.old
            × does self.now (scene (K.vault keeper.old) (R.remaining reader.old) (W.contents out.old))
            (scene (K.vault keeper.new) (R.remaining reader.new) (W.contents out.new)) result };
}

/// Does it with a keeper, and returns that keeper and what came of it. A terminal shows how far it has come.
///
/// The error within is the fault that stopped it.
pub fn work_with<K: Keeper, T: Work, R: Read, W: Write, E: Write>(
    rt: &HostRuntime,
    keeper: K,
    work: &T,
    reader: &mut R,
    out: &mut W,
    err: &mut E,
) -> (K, Result<Outcome, JobFault>)
    ensures printed { T.prints result.1 (W.contents out.old) (W.contents out.new) }
    ensures done { K.is_honest result.0 → K.is_honest keeper
        × T.does work.now (scene (K.vault keeper) (R.remaining reader.old) (W.contents out.old))
        (scene (K.vault result.0) (R.remaining reader.new) (W.contents out.new)) result.1 }
{
    let mut stated = ProgressKeeper::new(keeper, work.terminal(rt));
    let outcome = work.carry_out(rt, &mut stated, reader, out, err);
    (stated.into_keeper(), outcome)
}
