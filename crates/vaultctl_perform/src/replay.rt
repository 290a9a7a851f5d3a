//! A script over a new vault in memory.
ghost use Rattle.vaultctl_perform.specs.Replay.{AnswersFromNew};
ghost use Rattle.vaultctl_perform.specs.Status.{Ends};
ghost use Rattle.vaultctl_work.specs.Outcomes.{replayed};

use crate::messages::print_fault;
use std::alloc::Global;
use std::io::{Read, Write};
use vault_core_list::list_keeper::ListKeeper;
use vaultctl_remedies::explaining::Explainer;
use vaultctl_replay::{ReplayFault, replay_observed};
use vaultctl_work::jobs::fault_of;

fn answer_all<R: Read, W: Write, E: Write>(
    alloc: Global,
    reader: &mut R,
    out: &mut W,
    err: &mut E,
) -> Result<(), ReplayFault>
    ensures { AnswersFromNew (replayed result) (R.remaining reader.old) (R.remaining reader.new) (W.contents out.old) (W.contents out.new) }
{
    let Ok(mut keeper) = ListKeeper::new(alloc) else {
        return Err(ReplayFault::Memory);
    };
    replay_observed(alloc, reader, out, &mut keeper, &mut Explainer::new(err))
}

/// Answers the script that the reader gives. On `err` there is a line of words for each line that is refused, and a
/// fault is named, with status 1.
pub fn from_new<R: Read, W: Write, E: Write>(
    alloc: Global,
    reader: &mut R,
    out: &mut W,
    err: &mut E,
) -> u8
    ensures performed { Ends result (λ outcome. AnswersFromNew outcome (R.remaining reader.old) (R.remaining reader.new) (W.contents out.old) (W.contents out.new)) }
{
    match answer_all(alloc, reader, out, err) {
        Ok(()) => 0,
        Err(fault) => print_fault(err, "replay", fault_of(fault)),
    }
}
