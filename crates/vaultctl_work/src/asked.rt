//! One command: the reading, then the step, then what is printed of the reply.
ghost use Rattle.std.specs.Prelude.{◌≡◌, ◌≢◌, ℕ, IfOk, Err, Some};
ghost use Rattle.vault_core_model.specs.LeavesMany.{LeavesSteady};
ghost use Rattle.vault_core_model.specs.Step.{Reached};
ghost use Rattle.vaultctl_commands.specs.Printed.{PrintsReply};
ghost use Rattle.vaultctl_work.specs.Asked as spec;
ghost use Rattle.vaultctl_work.specs.Asked.{IsDoneAt};
ghost use Rattle.vaultctl_work.specs.Printed.{PrintsAsked};

use crate::saying::say;
use crate::terminal::terminal;
use crate::work::Work;
use std::alloc::Global;
use std::io::{Read, Stderr, Write};
use std::time::Clock;
use vault_base::moment::Moment;
use vault_base::refusal::Refusal;
use vault_core_model::keeper::Keeper;
use vaultctl_commands::asked::AskedCommand;
use vaultctl_commands::carrying::{carry_out, print_refusal};
use vaultctl_commands::fault::JobFault;
use vaultctl_commands::outcome::Outcome;
use vaultctl_remedies::remedies::remedy;
use vaultctl_serve::clock::now;

/// The reading that is given, or else the machine's clock.
pub fn reading<C: Clock>(clock: &C, given: Option<Moment>) -> Option<Moment>
    ensures { (at : ℕ) → given ≡ Some at → result ≡ Some at }
{
    match given {
        Some(at) => Some(at),
        None => now(clock),
    }
}

/// The most seconds by which a reading may lie ahead of the machine's clock without a word: those of 366 days.
const AHEAD: u64 = 366 * 86_400;

/// Whether the reading that is given lies more than that ahead of the machine's clock.
fn is_ahead<C: Clock>(clock: &C, given: Option<Moment>) -> bool {
    let Some(at) = given else {
        return false;
    };
    match now(clock) {
        Some(shown) => at.secs().saturating_sub(shown.secs()) > AHEAD,
        None => false,
    }
}

/// Says in words where the reading that is given lies more than a year ahead of the machine's clock.
pub fn say_ahead<C: Clock, E: Write>(clock: &C, given: Option<Moment>, err: &mut E) {
    if is_ahead(clock, given) {
        say(
            err,
            "--at lies more than a year ahead of this machine's clock: a change that is dated so has the vault refuse whatever is dated before it, for good",
        );
    }
}

/// Carries out what is asked of a vault, at the reading that is given or else at the clock's, and prints the
/// reply. A clock that shows no moment is refused ClockOutOfRange.
fn carry_out_asked<C: Clock, K: Keeper, W: Write, E: Write>(
    alloc: Global,
    clock: &C,
    keeper: &mut K,
    asked: &AskedCommand,
    out: &mut W,
    err: &mut E,
) -> Result<Outcome, JobFault>
    // Whatever the device does, what is answered is what the printed reply says.
    ensures printed { IfOk result (λ stated. PrintsReply stated (W.contents out.old) (W.contents out.new)) }
    // It is one step, by the caller who asks and at the reading that is given, and what is printed is the reply to it. That
    // the device failed is reported just where it did, whatever it does.
    ensures leaves { LeavesSteady K.Kept keeper.old keeper.new (spec.IsSteadyAt (K.is_honest keeper.new) asked.now.at asked.now (K.vault keeper.old) (K.vault keeper.new)
        (K.count keeper.old) (K.count keeper.new) result (W.contents out.old) (W.contents out.new)) }
    ensures reached { K.is_honest keeper.new → Reached (K.vault keeper.old) → Reached (K.vault keeper.new) }
    ensures reader { result ≢ Err JobFault.Read }
    ensures device { result ≢ Err JobFault.Device }
{
    let Some(at) = reading(clock, asked.at) else {
        let refused = print_refusal(alloc, Refusal::ClockOutOfRange, out);
        say(err, remedy(Refusal::ClockOutOfRange));
        return refused;
    };
    say_ahead(clock, asked.at, err);
    carry_out(alloc, keeper, at, asked, out, err)
}

impl Work for AskedCommand {
    ghost prints = { PrintsAsked };

    ghost does = { λ asked old new result. IsDoneAt asked.at asked old.vault new.vault result old.output new.output };

    /// On a terminal a run says how far it has come.
    fn terminal(&self, rt: &HostRuntime) -> Option<Stderr> {
        terminal(rt)
    }

    fn carry_out<K: Keeper, R: Read, W: Write, E: Write>(
        &self,
        rt: &HostRuntime,
        keeper: &mut K,
        _reader: &mut R,
        out: &mut W,
        err: &mut E,
    ) -> Result<Outcome, JobFault> {
        carry_out_asked(rt.alloc(), rt, keeper, self, out, err)
    }
}
