//! The command that runs the lifecycle rules over a bucket.
ghost use Rattle.std.specs.Prelude.{◌≡◌};
ghost use Rattle.vault_core_model.specs.Leaves.{Leaves, LeavesSame};
ghost use Rattle.vault_core_model.specs.Halts.{is_device, is_device_halt, is_device_reply, is_device_stop};
ghost use Rattle.vault_core_model.specs.Plan.{plan, rules_in};
ghost use Rattle.vault_core_model.specs.RunOutcome.{planned_run, AnswersRun};
ghost use Rattle.vault_core_run_laws.specs.KeyRuns.{MayRun};
ghost use Rattle.vault_core_runs.specs.Replies.{BeginsAs, not_begun, stop_of};

use crate::change::BucketRun;
use crate::pages::run_pages;
use std::alloc::Global;
use vault_base::moment::Moment;
use vault_base::name::CallerName;
use vault_base::refusal::Refusal;
use vault_base::right::Right;
use vault_core_checks::caller::find_access;
use vault_core_model::command::Run;
use vault_core_model::halt::{Fault, Halt};
use vault_core_model::keeper::Keeper;
use vault_core_model::reply::{Answer, Counts, Reply, Stop};

/// Runs the lifecycle rules over a bucket: done after the whole plan, refused by a check, or stopped
/// after the first changes of the plan.
///
/// A mark that finds no id stops the run; so do out of memory and a failing device at any time, also
/// before a check would fail. What is made stands, and a run at the same moment makes the rest.
pub fn run_rules<K: Keeper>(
    alloc: Global,
    keeper: &mut K,
    at: Moment,
    who: &CallerName,
    command: &Run,
) -> Reply
    ensures step { K.is_honest keeper.new → AnswersRun (planned_run (K.vault keeper.old) at who.now command.now) (K.vault keeper.old) command.now.bucket at result (K.vault keeper.new) }
    ensures leaves { Leaves K.Kept keeper.old keeper.new (is_device_reply result) }
{
    match find_run(keeper, at, who, command) {
        Ok(Some(run)) => run_bucket(alloc, keeper, &run),
        Ok(None) => Reply::Done(Answer::Ran(NO_CHANGE)),
        Err(halt) => not_begun(halt),
    }
}

const NO_CHANGE: Counts = Counts {
    changes: 0,
    marked: 0,
    removed: 0,
    lone: 0,
};

/// The run that is asked for, of a caller that may run; none where the bucket has no rules.
fn find_run<K: Keeper>(
    keeper: &mut K,
    at: Moment,
    who: &CallerName,
    command: &Run,
) -> Result<Option<BucketRun>, Halt>
    ensures found { K.is_honest keeper.new → BeginsAs result (K.vault keeper.old) command.now.bucket at (planned_run (K.vault keeper.old) at who.now command.now) }
    ensures leaves { LeavesSame K.Kept keeper.old keeper.new (is_device result) }
{
    drop(find_access(keeper, at, who, &command.bucket, Right::Run)?);
    let Some(rules) = keeper.rules(&command.bucket)? else {
        return Ok(None);
    };
    Ok(Some(BucketRun {
        bucket: command.bucket.clone()?,
        at,
        rules,
    }))
}

/// The reply where no run began.
fn not_begun(halt: Halt) -> Reply
    ensures { result ≡ not_begun halt }
{
    match halt {
        Halt::Refused(refusal) => Reply::Refused(refusal),
        Halt::Fault(Fault::Memory) => Reply::Stopped(0, Stop::Memory),
        Halt::Fault(Fault::Device) => Reply::Stopped(0, Stop::Device),
    }
}

/// What stops a run that has begun; the only check within it is that of the ids.
fn stop_of(halt: Halt) -> Stop
    ensures reported { result ≡ stop_of halt }
    ensures device { is_device_stop result ≡ is_device_halt halt }
{
    match halt {
        Halt::Refused(Refusal::Device) => Stop::Device,
        Halt::Refused(_) => Stop::VaultFull,
        Halt::Fault(Fault::Memory) => Stop::Memory,
        Halt::Fault(Fault::Device) => Stop::Device,
    }
}

/// Makes the plan of a bucket, and says how far it came.
fn run_bucket<K: Keeper>(alloc: Global, keeper: &mut K, run: &BucketRun) -> Reply
    requires may { K.is_honest keeper.old → MayRun (K.vault keeper.old) run.now.bucket run.now.at }
    requires given { K.is_honest keeper.old → rules_in (K.vault keeper.old) run.now.bucket ≡ run.now.rules }
    ensures step { K.is_honest keeper.new → AnswersRun (Ok (plan (K.vault keeper.old) run.now.bucket run.now.at)) (K.vault keeper.old) run.now.bucket run.now.at result (K.vault keeper.new) }
    ensures leaves { Leaves K.Kept keeper.old keeper.new (is_device_reply result) }
{
    let mut counts = NO_CHANGE;
    match run_pages(alloc, keeper, run, &mut counts) {
        Ok(()) => Reply::Done(Answer::Ran(counts)),
        Err(halt) => Reply::Stopped(counts.changes, stop_of(halt)),
    }
}
