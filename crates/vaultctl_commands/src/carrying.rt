//! A command carried out, and its reply printed.
ghost use Rattle.std.specs.Prelude.{◌≡◌, ◌≢◌, IsTrue, IfOk, OnErr, Err, Ok};
ghost use Rattle.std.specs.Io.KnownBytes.{Appends};
ghost use Rattle.vault_core_model.specs.Leaves.{count_after};
ghost use Rattle.vault_core_model.specs.Halts.{is_device_reply};
ghost use Rattle.vault_core_model.specs.Leaves.{RoseOrIsFull};
ghost use Rattle.vault_core_model.specs.LeavesMany.{LeavesSteady};
ghost use Rattle.vault_core_model.specs.Step.{IsStep, Reached};
ghost use Rattle.vault_core_model.specs.declared.reply.Reply.{Reply as AnyReply};
ghost use Rattle.vault_core_model.specs.declared.reply.Reply.TheVariants.{Refused};
ghost use Rattle.vaultctl_commands.specs.Printed as spec;

use crate::asked::AskedCommand;
use crate::fault::JobFault;
use crate::outcome::Outcome;
use crate::printing::print;
use crate::text::{outcome, reply_text};
use std::alloc::Global;
use std::io::Write;
use vault_base::moment::Moment;
use vault_base::refusal::Refusal;
use vault_core::step::step;
use vault_core_model::command::Command;
use vault_core_model::keeper::Keeper;
use vault_core_model::reply::Reply;
use vaultctl_remedies::remedies::say_reply;

/// Prints a reply, and answers what came of it.
fn print_lent<W: Write>(alloc: Global, reply: &Reply, out: &mut W) -> Result<Outcome, JobFault>
    ensures ok { IfOk result (λ outcome. (outcome ≡ spec.outcome_of reply.now) × Appends (W.contents out.old) (W.contents out.new) (spec.printed reply.now)) }
    ensures reader { result ≢ Err JobFault.Read }
    ensures device { result ≢ Err JobFault.Device }
{
    let Ok(text) = reply_text(alloc, reply) else {
        return Err(JobFault::Memory);
    };
    print(out, text.as_str())?;
    Ok(outcome(reply))
}

/// Prints a reply, which is dropped, and answers what came of it.
fn print_reply<W: Write>(alloc: Global, reply: Reply, out: &mut W) -> Result<Outcome, JobFault>
    ensures ok { IfOk result (λ outcome. (outcome ≡ spec.outcome_of reply) × Appends (W.contents out.old) (W.contents out.new) (spec.printed reply)) }
    ensures reader { result ≢ Err JobFault.Read }
    ensures device { result ≢ Err JobFault.Device }
{
    let outcome = print_lent(alloc, &reply, out);
    drop(reply);
    outcome
}

/// Prints the reply to a command, says in words on `err` what it leaves a person to know, and drops it; answers what came
/// of it.
fn print_in_words<W: Write, E: Write>(
    alloc: Global,
    command: &Command,
    reply: Reply,
    out: &mut W,
    err: &mut E,
) -> Result<Outcome, JobFault>
    ensures ok { IfOk result (λ outcome. (outcome ≡ spec.outcome_of reply) × Appends (W.contents out.old) (W.contents out.new) (spec.printed reply)) }
    ensures reader { result ≢ Err JobFault.Read }
    ensures device { result ≢ Err JobFault.Device }
{
    let outcome = print_lent(alloc, &reply, out);
    if outcome.is_ok() {
        say_reply(command, &reply, err);
    }
    drop(reply);
    outcome
}

/// Prints the line of a refusal.
pub fn print_refusal<W: Write>(
    alloc: Global,
    refusal: Refusal,
    out: &mut W,
) -> Result<Outcome, JobFault>
    ensures ok { IfOk result (λ outcome. (outcome ≡ Outcome.Refused) × Appends (W.contents out.old) (W.contents out.new) (spec.printed (Refused refusal))) }
    ensures printed { IfOk result (λ outcome. spec.PrintsReply outcome (W.contents out.old) (W.contents out.new)) }
    ensures reader { result ≢ Err JobFault.Read }
    ensures device { result ≢ Err JobFault.Device }
{
    print_reply(alloc, Reply::Refused(refusal), out)
}

/// Carries out what is asked at a reading, prints the reply, and answers what came of it. Why it was refused, and what to
/// do, stands in words on `err`.
///
/// `Write` comes where the reply can't be written, and `Memory` where there is no room for its text; the
/// command was carried out all the same.
#[tactic(auto, using(vault_core_model::proofs::Counts::rose, vault_core_model::proofs::Counts::stays, vault_core_model::proofs::Counts::no_less))]
pub fn carry_out<K: Keeper, W: Write, E: Write>(
    alloc: Global,
    keeper: &mut K,
    at: Moment,
    asked: &AskedCommand,
    out: &mut W,
    err: &mut E,
) -> Result<Outcome, JobFault>
    // The reply is that of one step of the machine, and it is what is printed. It says that the device failed only
    // where the count of failures rose, or stands at its greatest value.
    ensures ok { K.is_honest keeper.new → IfOk result (λ outcome. (reply : AnyReply) × IsStep (K.vault keeper.old) at asked.now.who asked.now.command reply (K.vault keeper.new)
        × (outcome ≡ spec.outcome_of reply) × Appends (W.contents out.old) (W.contents out.new) (spec.printed reply)
        × (IsTrue (is_device_reply reply) → RoseOrIsFull (K.count keeper.old) (K.count keeper.new))) }
    ensures err { K.is_honest keeper.new → OnErr result ((reply : AnyReply) × IsStep (K.vault keeper.old) at asked.now.who asked.now.command reply (K.vault keeper.new)) }
    // Whatever the device does, what is answered is what the printed reply says.
    ensures printed { IfOk result (λ outcome. spec.PrintsReply outcome (W.contents out.old) (W.contents out.new)) }
    // And there is one reply, printed where anything is, which says that the device failed just where the count of
    // failures rose, or can rise no further; where it doesn't state it, the count is as it was.
    ensures leaves { LeavesSteady K.Kept keeper.old keeper.new ((reply : AnyReply)
        × (K.is_honest keeper.new → IsStep (K.vault keeper.old) at asked.now.who asked.now.command reply (K.vault keeper.new))
        × IfOk result (λ outcome. (outcome ≡ spec.outcome_of reply) × Appends (W.contents out.old) (W.contents out.new) (spec.printed reply))
        × (K.count keeper.new ≡ count_after (K.count keeper.old) (is_device_reply reply))) }
    ensures reached { K.is_honest keeper.new → Reached (K.vault keeper.old) → Reached (K.vault keeper.new) }
    ensures reader { result ≢ Err JobFault.Read }
    ensures device { result ≢ Err JobFault.Device }
{
    let reply = step(alloc, keeper, at, &asked.who, &asked.command);
    print_in_words(alloc, &asked.command, reply, out, err)
}
