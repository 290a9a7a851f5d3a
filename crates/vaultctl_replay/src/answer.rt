//! One line: what it asks for is carried out, and its reply written.
ghost use Rattle.std.specs.Prelude.{◌≡◌, [], ◌∷◌, IfOk, OnOk, OnErr, string_bytes};
ghost use Rattle.vault_core_model.specs.LeavesMany.{LeavesNoLess};
ghost use Rattle.vault_lines_read.specs.ReadLine.{line_of};
ghost use Rattle.vault_lines_reply.specs.ReplyLine.{reply_text};
ghost use Rattle.vault_lines_read.specs.declared.read_line.Line.TheVariants.{Command};
ghost use Rattle.vaultctl_replay.specs.Lines.{unended_of};
ghost use Rattle.vaultctl_replay.specs.Runs.{BeganBy, FinishedBy, HeardBy, Sent};

use crate::fault::ReplayFault;
use crate::observer::Observer;
use crate::writing::write_bytes;
use std::alloc::{AllocError, Global};
use std::io::Write;
use vault_base::refusal::Refusal;
use vault_core::hearing::Hears;
use vault_core::step::step;
use vault_core_model::command::Timed;
use vault_core_model::keeper::Keeper;
use vault_core_model::reply::Reply;
use vault_lines_read::read_line::{Line, read_line};
use vault_lines_reply::reply_line::reply_line;

/// The line of a reply, which is dropped.
fn stated(alloc: Global, reply: Reply) -> Result<String, AllocError>
    ensures { IfOk result (λ text. string_bytes text ≡ reply_text reply) }
{
    let line = reply_line(alloc, &reply);
    drop(reply);
    line
}

/// Carries out a command, which is then heard of with its reply. That is a line.
#[tactic(auto, using(vault_core_model::proofs::Counts::no_less))]
fn carried_out<K: Keeper, H: Hears>(
    alloc: Global,
    keeper: &mut K,
    hears: &mut H,
    timed: Timed,
) -> Result<String, AllocError>
    ensures heard { HeardBy K.Kept keeper.old keeper.new H.hears hears.old hears.new (λ out. IfOk result (λ text. string_bytes text ≡ out)) (Command timed) }
    ensures leaves { LeavesNoLess K.Kept keeper.old keeper.new }
{
    let reply = step(alloc, keeper, timed.at, &timed.who, &timed.command);
    hears.hear(alloc, timed.at, &timed.who, &timed.command, &reply);
    drop(timed);
    stated(alloc, reply)
}

/// Carries out what a line asks for. Its reply is a line, or nothing where the line is empty.
fn reply_to<K: Keeper, H: Hears>(
    alloc: Global,
    keeper: &mut K,
    hears: &mut H,
    asked: Line,
) -> Result<String, AllocError>
    ensures heard { HeardBy K.Kept keeper.old keeper.new H.hears hears.old hears.new (λ out. IfOk result (λ text. string_bytes text ≡ out)) asked }
    ensures leaves { LeavesNoLess K.Kept keeper.old keeper.new }
{
    match asked {
        Line::Skip => Ok(String::new(alloc)),
        Line::Refused(refusal) => stated(alloc, Reply::Refused(refusal)),
        Line::Command(timed) => carried_out(alloc, keeper, hears, timed),
    }
}

/// Carries out what a line asks for, which is then heard of, and writes its reply.
///
/// `Write` comes where the reply can't be written, and `Memory` where room was refused.
pub fn answer<K: Keeper, W: Write, H: Hears>(
    alloc: Global,
    keeper: &mut K,
    writer: &mut W,
    hears: &mut H,
    asked: Line,
) -> Result<(), ReplayFault>
    ensures ok { OnOk result (FinishedBy K.Kept keeper.old keeper.new W.Write writer.old writer.new (asked ∷ [])) }
    ensures err { OnErr result (BeganBy K.Kept keeper.old keeper.new W.Write writer.old writer.new (asked ∷ [])) }
    ensures kind { ¬ (result ≡ Err ReplayFault.Read) }
    // The reply that is heard of is the one that is written.
    ensures heard { HeardBy K.Kept keeper.old keeper.new H.hears hears.old hears.new (Sent result (W.contents writer.old) (W.contents writer.new)) asked }
    ensures leaves { LeavesNoLess K.Kept keeper.old keeper.new }
{
    let Ok(reply) = reply_to(alloc, keeper, hears, asked) else {
        return Err(ReplayFault::Memory);
    };
    write_bytes(writer, reply.as_bytes())
}

/// Carries out a line and writes its reply.
pub fn answer_line<K: Keeper, W: Write, O: Observer>(
    alloc: Global,
    keeper: &mut K,
    writer: &mut W,
    observer: &mut O,
    line: &[u8],
) -> Result<(), ReplayFault>
    ensures ok { OnOk result (FinishedBy K.Kept keeper.old keeper.new W.Write writer.old writer.new (line_of line.now ∷ [])) }
    ensures err { OnErr result (BeganBy K.Kept keeper.old keeper.new W.Write writer.old writer.new (line_of line.now ∷ [])) }
    ensures kind { ¬ (result ≡ Err ReplayFault.Read) }
    ensures leaves { LeavesNoLess K.Kept keeper.old keeper.new }
{
    let Ok(asked) = read_line(alloc, line) else {
        return Err(ReplayFault::Memory);
    };
    observer.line(alloc, line, &asked);
    answer(alloc, keeper, writer, observer, asked)
}

/// Carries out a last line that lacks its LF, and writes its reply.
pub fn answer_unended<K: Keeper, W: Write, O: Observer>(
    alloc: Global,
    keeper: &mut K,
    writer: &mut W,
    observer: &mut O,
    line: &[u8],
) -> Result<(), ReplayFault>
    ensures ok { OnOk result (FinishedBy K.Kept keeper.old keeper.new W.Write writer.old writer.new (unended_of line.now ∷ [])) }
    ensures err { OnErr result (BeganBy K.Kept keeper.old keeper.new W.Write writer.old writer.new (unended_of line.now ∷ [])) }
    ensures kind { ¬ (result ≡ Err ReplayFault.Read) }
    ensures leaves { LeavesNoLess K.Kept keeper.old keeper.new }
{
    if line.len() == 1 && line[0] == b'\r' {
        let asked = Line::Refused(Refusal::MalformedBody);
        observer.line(alloc, line, &asked);
        answer(alloc, keeper, writer, observer, asked)
    } else {
        answer_line(alloc, keeper, writer, observer, line)
    }
}
