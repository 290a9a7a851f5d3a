//! One line of the second door: what it asks for is carried out at the clock's reading, and its reply is written.
ghost use Rattle.std.specs.Prelude.{◌≡◌, IfOk, OnErr, OnOk, Ok};
ghost use Rattle.vault_base.specs.Days.{moment_at};
ghost use Rattle.vault_core_model.specs.Leaves.{standing};
ghost use Rattle.vault_core_model.specs.LeavesMany.{LeavesNoLess};
ghost use Rattle.vault_core.specs.Hearing.{AtMostOne};
ghost use Rattle.vaultctl_replay.specs.Runs.{HeardBy, Sent};
ghost use Rattle.vaultctl_serve_lines_answers.specs.Answered.{AnswersOne, LeavesOne, LineAnswered, LineHeardBy, LineLeft};
ghost use Rattle.vaultctl_serve_lines_answers.specs.Closing.{MayEnd};

use crate::asked::{DoorLine, door_line};
use crate::asking::give;
use crate::heard::Heard;
use crate::service::Service;
use std::alloc::Global;
use std::io::Write;
use vault_base::moment::Moment;
use vault_core::hearing::Hears;
use vault_core_model::keeper::Keeper;
use vault_lines_read::read_line::Line;
use vaultctl_replay::ReplayFault;
use vaultctl_replay::answer::answer;

/// Whether a server goes on.
#[derive(Clone, Copy, Debug, PartialEq, Eq)]
pub enum Next {
    /// It goes on.
    On,
    /// It ends.
    End,
}

/// Answers the line of a command, or one that is refused. The faults are those of `serve_line`.
fn answer_asked<W: Write, K: Keeper, H: Hears>(
    alloc: Global,
    writer: &mut W,
    keeper: &mut K,
    hears: &mut H,
    asked: Line,
) -> Result<Next, ReplayFault>
    ensures ok { OnOk result (AnswersOne (standing K.Kept keeper.old) (standing K.Kept keeper.new) (W.contents writer.old) (W.contents writer.new) asked) }
    ensures err { OnErr result (LeavesOne (standing K.Kept keeper.old) (standing K.Kept keeper.new) (W.contents writer.old) (W.contents writer.new) asked) }
    ensures on { ¬ (result ≡ Ok Next.End) }
    ensures heard { HeardBy K.Kept keeper.old keeper.new H.hears hears.old hears.new (Sent result (W.contents writer.old) (W.contents writer.new)) asked }
    ensures leaves { LeavesNoLess K.Kept keeper.old keeper.new }
{
    match answer(alloc, keeper, writer, hears, asked) {
        Ok(()) => Ok(Next::On),
        Err(fault) => Err(fault),
    }
}

/// As `serve_line`, at the moment that the clock shows.
fn serve_line_at<W: Write, K: Keeper, H: Hears>(
    service: &Service,
    heard: &Heard,
    writer: &mut W,
    keeper: &mut K,
    hears: &mut H,
    moment: &Option<Moment>,
) -> Result<Next, ReplayFault>
    ensures ok { IfOk result (λ next. LineAnswered service.now next (standing K.Kept keeper.old) (standing K.Kept keeper.new)
        (W.contents writer.old) (W.contents writer.new) moment.now heard.now) }
    ensures err { OnErr result (LineLeft service.now (standing K.Kept keeper.old) (standing K.Kept keeper.new)
        (W.contents writer.old) (W.contents writer.new) moment.now heard.now) }
    ensures end { result ≡ Ok Next.End → K.is_honest keeper.new → MayEnd (K.vault keeper.new) moment.now heard.now.bytes.items }
    ensures once { K.is_honest keeper.new → AtMostOne moment.now (K.vault keeper.old) (K.vault keeper.new) }
    ensures heard { LineHeardBy K.Kept keeper.old keeper.new H.hears hears.old hears.new result (W.contents writer.old) (W.contents writer.new) moment.now heard.now }
    ensures leaves { LeavesNoLess K.Kept keeper.old keeper.new }
{
    let Ok(asked) = door_line(service.alloc, heard, moment) else {
        return Err(ReplayFault::Memory);
    };
    match asked {
        DoorLine::Asked(asked) => give(service, writer, keeper, &asked),
        DoorLine::Line(asked) => answer_asked(service.alloc, writer, keeper, hears, asked),
    }
}

/// Carries out what a line asks for, at the reading, which is then heard of, and writes its reply: answers whether the
/// server goes on.
///
/// `Write` comes where the reply can't be written, and `Memory` where room was refused: then the line was carried out,
/// or not. `Read` never comes.
pub fn serve_line<W: Write, K: Keeper, H: Hears>(
    service: &Service,
    heard: &Heard,
    writer: &mut W,
    keeper: &mut K,
    hears: &mut H,
    reading: i64,
) -> Result<Next, ReplayFault>
    // What is written is the reply to what the line asks for at the reading; where the server ends, a beginning of it.
    ensures ok { IfOk result (λ next. LineAnswered service.now next (standing K.Kept keeper.old) (standing K.Kept keeper.new)
        (W.contents writer.old) (W.contents writer.new) (moment_at reading) heard.now) }
    // Of a line that was carried out, or wasn't, a beginning of its reply is written.
    ensures err { OnErr result (LineLeft service.now (standing K.Kept keeper.old) (standing K.Kept keeper.new)
        (W.contents writer.old) (W.contents writer.new) (moment_at reading) heard.now) }
    // Only a line that asks for the end ends the server, and only by a caller who has the right to administer.
    ensures end { result ≡ Ok Next.End → K.is_honest keeper.new → MayEnd (K.vault keeper.new) (moment_at reading) heard.now.bytes.items }
    ensures once { K.is_honest keeper.new → AtMostOne (moment_at reading) (K.vault keeper.old) (K.vault keeper.new) }
    // Its command is heard of, with the reply that is written; where the line asks for none, nothing is.
    ensures heard { LineHeardBy K.Kept keeper.old keeper.new H.hears hears.old hears.new result (W.contents writer.old) (W.contents writer.new) (moment_at reading) heard.now }
    ensures leaves { LeavesNoLess K.Kept keeper.old keeper.new }
{
    serve_line_at(
        service,
        heard,
        writer,
        keeper,
        hears,
        &Moment::from_secs(reading),
    )
}
