//! Commands carried out, and refusals, with their answers written.
ghost use Rattle.std.specs.Prelude.{◌≡◌, ℕ, List, IfErr, OnOk, Ok, Err, Some};
ghost use Rattle.std.specs.Io.KnownBytes.{Appends};
ghost use Rattle.vault_http.specs.Calls.{CarriedBy, JudgedBy, JudgedLeftBy, JudgedLeavesBy};
ghost use Rattle.vault_http.specs.Reply.{AnswersRefusal};
ghost use Rattle.vault_http.specs.Exchange as spec;
ghost use Rattle.vault_core.specs.Hearing.{AtMostOne, HearsOnce};
ghost use Rattle.vault_http.specs.Left as left;
ghost use Rattle.vault_http.specs.declared.fault.ServeFault.TheVariants as faults;

use crate::answer::head::Allow;
use crate::answer::reply::{refusal_bytes, reply_bytes};
use crate::fault::ServeFault;
use crate::send::send;
use std::alloc::Global;
use std::io::Write;
use vault_base::moment::Moment;
use vault_base::name::CallerName;
use vault_base::refusal::Refusal;
use vault_core::hearing::Hears;
use vault_core::step::step;
use vault_core_model::command::Command;
use vault_core_model::keeper::Keeper;

/// Of a request: its moment, its caller, and whether its answer shows a body.
#[derive(Drop)]
pub struct RequestContext {
    pub at: Moment,
    pub caller: CallerName,
    pub shown: bool,
}

/// Why a request is refused, which methods its answer reports to be allowed, and whether it shows a body.
#[derive(Clone, Copy)]
pub struct Denial {
    pub refusal: Refusal,
    pub allow: Option<Allow>,
    pub shown: bool,
}

/// Whether a command drops what it names, and has nothing to say.
fn drops(command: &Command) -> bool
    ensures { result ≡ spec.drops command.now }
{
    matches!(command, Command::DropRules(_))
}

/// Carries a command out, which is then heard of, and writes its answer.
#[tactic(auto, using(vault_core_model::proofs::Counts::no_less))]
fn answer<W: Write, K: Keeper, H: Hears>(
    alloc: Global,
    writer: &mut W,
    keeper: &mut K,
    hears: &mut H,
    context: &RequestContext,
    command: &Command,
) -> Result<(), ServeFault>
    ensures carried { CarriedBy K.Kept keeper.old keeper.new H.hears hears.old hears.new W.Write writer.old writer.new result context.now command.now }
    ensures kind { ¬ (result ≡ Err faults.Read) }
    ensures leaves { JudgedLeavesBy K.Kept keeper.old keeper.new W.Write writer.old writer.new result context.now (Ok command.now) }
{
    let at = context.at;
    let reply = step(alloc, keeper, at, &context.caller, command);
    hears.hear(alloc, at, &context.caller, command, &reply);
    let Ok(bytes) = reply_bytes(alloc, Some(at), drops(command), reply, context.shown) else {
        return Err(ServeFault::Memory);
    };
    send(writer, bytes.as_slice())
}

/// Carries a command out, which is dropped, and writes its answer.
fn finish<W: Write, K: Keeper, H: Hears>(
    alloc: Global,
    writer: &mut W,
    keeper: &mut K,
    hears: &mut H,
    context: &RequestContext,
    command: Command,
) -> Result<(), ServeFault>
    ensures carried { CarriedBy K.Kept keeper.old keeper.new H.hears hears.old hears.new W.Write writer.old writer.new result context.now command }
    ensures kind { ¬ (result ≡ Err faults.Read) }
    ensures leaves { JudgedLeavesBy K.Kept keeper.old keeper.new W.Write writer.old writer.new result context.now (Ok command) }
{
    let written = answer(alloc, writer, keeper, hears, context, &command);
    drop(command);
    written
}

/// Writes the answer to a refusal.
pub fn deny<W: Write>(
    alloc: Global,
    writer: &mut W,
    moment: Option<Moment>,
    denial: &Denial,
) -> Result<(), ServeFault>
    ensures ok { OnOk result ((out : List ℕ) × AnswersRefusal moment denial.now.refusal denial.now.allow denial.now.shown out × Appends (W.contents writer.old) (W.contents writer.new) out) }
    ensures err { IfErr result (λ e. left.DenyLeft e moment denial.now.refusal denial.now.allow denial.now.shown (W.contents writer.old) (W.contents writer.new)) }
    ensures kind { ¬ (result ≡ Err faults.Read) }
{
    let Ok(bytes) = refusal_bytes(alloc, moment, denial.refusal, denial.allow, denial.shown) else {
        return Err(ServeFault::Memory);
    };
    send(writer, bytes.as_slice())
}

/// Carries a command out, where there is one, and writes the answer to it or to its refusal.
pub fn conclude<W: Write, K: Keeper, H: Hears>(
    alloc: Global,
    writer: &mut W,
    keeper: &mut K,
    hears: &mut H,
    context: &RequestContext,
    judged: Result<Command, Refusal>,
) -> Result<(), ServeFault>
    // The reply that is answered is the one that is heard of.
    ensures ok { JudgedBy K.Kept keeper.old keeper.new H.hears hears.old hears.new W.Write writer.old writer.new result context.now judged }
    ensures err { JudgedLeftBy K.Kept keeper.old keeper.new H.hears hears.old hears.new W.Write writer.old writer.new result context.now judged }
    ensures once { K.is_honest keeper.new → AtMostOne (Some context.now.at) (K.vault keeper.old) (K.vault keeper.new) }
    ensures heard { K.is_honest keeper.new → HearsOnce H.hears hears.old hears.new (Some context.now.at) (K.vault keeper.old) (K.vault keeper.new) }
    ensures kind { ¬ (result ≡ Err faults.Read) }
    ensures leaves { JudgedLeavesBy K.Kept keeper.old keeper.new W.Write writer.old writer.new result context.now judged }
{
    match judged {
        Ok(command) => finish(alloc, writer, keeper, hears, context, command),
        Err(refusal) => {
            let denial = Denial {
                refusal,
                allow: None,
                shown: context.shown,
            };
            deny(alloc, writer, Some(context.at), &denial)
        }
    }
}
