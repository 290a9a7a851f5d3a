//! What a vault shows to somebody who doesn't trust the machine: its events, a seal over them, and whether it is
//! lawful.
ghost use Rattle.std.specs.Prelude.{◌≡◌, ⊤};
ghost use Rattle.vaultctl_commands.specs.Rows.{PrintsEvents};
ghost use Rattle.vaultctl_work.specs.Done.{IsJudgedDone, IsSealDone};
ghost use Rattle.vaultctl_work.specs.Printed.{PrintsSealed, PrintsJudged};

use crate::terminal::{terminal, terminal_apart};
use crate::work::Work;
use std::io::{Read, Stderr, Write};
use vault_core_model::keeper::Keeper;
use vaultctl_commands::asked::{AskedEvents, AskedSeal};
use vaultctl_commands::evidence::{answer_lawful, answer_seal};
use vaultctl_commands::fault::JobFault;
use vaultctl_commands::outcome::Outcome;
use vaultctl_commands::rows::print_events;
use vaultctl_job::job::LawfulJob;

impl Work for AskedEvents {
    ghost prints = { λ outcome before after. ⊤ };

    ghost does = { λ asked old new result. (new.vault ≡ old.vault) × PrintsEvents asked.before old.vault result old.output new.output };

    fn terminal(&self, _rt: &HostRuntime) -> Option<Stderr> {
        None
    }

    /// On a terminal it says how many rows it has written, unless these are shown there.
    fn carry_out<K: Keeper, R: Read, W: Write, E: Write>(
        &self,
        rt: &HostRuntime,
        keeper: &mut K,
        _reader: &mut R,
        out: &mut W,
        _err: &mut E,
    ) -> Result<Outcome, JobFault> {
        print_events(rt.alloc(), keeper, self, out, terminal_apart(rt))
    }
}

impl Work for AskedSeal {
    ghost prints = { PrintsSealed };

    ghost does = { λ asked old new result. IsSealDone asked result old.vault new.vault old.output new.output };

    fn terminal(&self, rt: &HostRuntime) -> Option<Stderr> {
        terminal(rt)
    }

    fn carry_out<K: Keeper, R: Read, W: Write, E: Write>(
        &self,
        rt: &HostRuntime,
        keeper: &mut K,
        _reader: &mut R,
        out: &mut W,
        err: &mut E,
    ) -> Result<Outcome, JobFault> {
        answer_seal(rt.alloc(), keeper, self, out, err)
    }
}

impl Work for LawfulJob {
    ghost prints = { PrintsJudged };

    ghost does = { λ job old new result. IsJudgedDone result old.vault new.vault old.output new.output };

    fn terminal(&self, rt: &HostRuntime) -> Option<Stderr> {
        terminal(rt)
    }

    fn carry_out<K: Keeper, R: Read, W: Write, E: Write>(
        &self,
        rt: &HostRuntime,
        keeper: &mut K,
        _reader: &mut R,
        out: &mut W,
        err: &mut E,
    ) -> Result<Outcome, JobFault> {
        answer_lawful(rt.alloc(), keeper, out, err)
    }
}
