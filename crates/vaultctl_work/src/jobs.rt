//! A register, and a script.
ghost use Rattle.std.specs.Prelude.{◌≡◌, ⊤};
ghost use Rattle.vaultctl_commands.specs.Rows.{PrintsRegister};
ghost use Rattle.vaultctl_work.specs.Done.{IsAnswered};
ghost use Rattle.vaultctl_work.specs.Outcomes as spec;

use crate::terminal::terminal_apart;
use crate::work::Work;
use std::io::{Read, Stderr, Write};
use vault_core_model::keeper::Keeper;
use vaultctl_commands::fault::JobFault;
use vaultctl_commands::outcome::Outcome;
use vaultctl_commands::rows::print_register;
use vaultctl_job::job::{RegisterJob, ReplayJob};
use vaultctl_remedies::explaining::Explainer;
use vaultctl_replay::{ReplayFault, replay_observed};

/// What a fault of a script is reported as.
pub fn fault_of(fault: ReplayFault) -> JobFault
    ensures { result ≡ spec.replay_fault fault }
{
    match fault {
        ReplayFault::Read => JobFault::Read,
        ReplayFault::Write => JobFault::Write,
        ReplayFault::Memory => JobFault::Memory,
    }
}

/// The register of a vault's removals.
impl Work for RegisterJob {
    ghost prints = { λ outcome before after. ⊤ };

    ghost does = { λ job old new result. (new.vault ≡ old.vault) × PrintsRegister old.vault result old.output new.output };

    fn terminal(&self, _rt: &HostRuntime) -> Option<Stderr> {
        None
    }

    /// On a terminal it says how many rows it has written, unless these are shown there.
    fn carry_out<K: Keeper, R: Read, W: Write, E: Write>(
        &self,
        rt: &HostRuntime,
        keeper: &mut K,
        _reader: &mut R,
        out: &mut W,
        _err: &mut E,
    ) -> Result<Outcome, JobFault> {
        print_register(rt.alloc(), keeper, out, terminal_apart(rt))
    }
}

fn replayed(answered: Result<(), ReplayFault>) -> Result<Outcome, JobFault>
    ensures { result ≡ spec.replayed answered }
{
    match answered {
        Ok(()) => Ok(Outcome::Done),
        Err(fault) => Err(fault_of(fault)),
    }
}

/// The replies to a script.
impl Work for ReplayJob {
    ghost prints = { λ outcome before after. ⊤ };

    ghost does = { λ job old new result. IsAnswered result old new };

    fn terminal(&self, _rt: &HostRuntime) -> Option<Stderr> {
        None
    }

    /// On `err` there is a line of words for each line that is refused.
    fn carry_out<K: Keeper, R: Read, W: Write, E: Write>(
        &self,
        rt: &HostRuntime,
        keeper: &mut K,
        reader: &mut R,
        out: &mut W,
        err: &mut E,
    ) -> Result<Outcome, JobFault> {
        replayed(replay_observed(rt.alloc(), reader, out, keeper, &mut Explainer::new(err)))
    }
}
