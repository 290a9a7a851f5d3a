//! The steps of a run at one key.
ghost use Rattle.std.specs.Prelude.{◌≡◌, IsTrue, IfOk, false};
ghost use Rattle.vault_core_model.specs.Leaves.{Leaves};
ghost use Rattle.vault_core_model.specs.Halts.{is_device};
ghost use Rattle.vault_core_model.specs.Plan.{rules_in};
ghost use Rattle.vault_core_model.specs.Reads.{entries_of};
ghost use Rattle.vault_core_run_laws.specs.KeyRuns.{MayRun};
ghost use Rattle.vault_core_runs.specs.Making.{HaveCauses, MakesPlanAt, MakesSteps};
ghost use Rattle.vault_rules.specs.KeyPlan.{at_key, ids_rise, key_plan};

use crate::change::{BucketRun, make_step};
use crate::ranges::is_key_ruled;
use std::alloc::{AllocError, Global};
use vault_base::name::ObjectKey;
use vault_core_model::halt::Halt;
use vault_core_model::keeper::Keeper;
use vault_core_model::reply::Counts;
use vault_rules::plan::{Held, Step, plan_key};

/// Makes the plan of one key: its entries are read, and then each change is made by itself. Of a key that no
/// enabled rule's prefix begins nothing is read.
pub fn run_key<K: Keeper>(
    alloc: Global,
    keeper: &mut K,
    run: &BucketRun,
    key: &ObjectKey,
    counts: &mut Counts,
) -> Result<(), Halt>
    requires may { K.is_honest keeper.old → MayRun (K.vault keeper.old) run.now.bucket run.now.at }
    requires given { K.is_honest keeper.old → rules_in (K.vault keeper.old) run.now.bucket ≡ run.now.rules }
    ensures makes { K.is_honest keeper.new → MakesPlanAt result (K.vault keeper.old) run.now.bucket run.now.at key.now counts.old counts.new (K.vault keeper.new) }
    ensures leaves { Leaves K.Kept keeper.old keeper.new (is_device result) }
{
    if !is_key_ruled(&run.rules, key) {
        return Ok(());
    }
    let held = keeper.entries(&run.bucket, key)?;
    let steps = plan_of(alloc, run, key, &held)?;
    make_steps(alloc, keeper, run, key, &steps, counts)
}

/// The plan of a key with these entries. Entries whose ids don't rise are no key's, and stay.
fn plan_of(
    alloc: Global,
    run: &BucketRun,
    key: &ObjectKey,
    held: &[Held],
) -> Result<Vec<Step>, AllocError>
    ensures plan { IsTrue (ids_rise held.now) → IfOk result (λ steps. steps.items ≡ key_plan run.now.rules key.now held.now run.now.at) }
    ensures causes { IfOk result (λ steps. HaveCauses run.now.rules steps.items) }
{
    if !ids_rise(held) {
        return Ok(Vec::new(alloc));
    }
    plan_key(alloc, &run.rules, key, held, run.at)
}

/// Whether each id is above those before it.
fn ids_rise(held: &[Held]) -> bool
    ensures { result ≡ ids_rise held.now }
{
    let Some((first, rest)) = held.split_first() else {
        return true;
    };
    let mut below = first.id;
    for entry in rest {
        if entry.id <= below {
            return false;
        }
        below = entry.id;
    }
    true
}

/// Makes these steps at a key, up to one that can't be made.
fn make_steps<K: Keeper>(
    alloc: Global,
    keeper: &mut K,
    run: &BucketRun,
    key: &ObjectKey,
    steps: &[Step],
    counts: &mut Counts,
) -> Result<(), Halt>
    requires may { K.is_honest keeper.old → MayRun (K.vault keeper.old) run.now.bucket run.now.at }
    requires given { K.is_honest keeper.old → rules_in (K.vault keeper.old) run.now.bucket ≡ run.now.rules }
    requires planned { K.is_honest keeper.old → steps.now ≡ key_plan run.now.rules key.now (entries_of (K.vault keeper.old) run.now.bucket key.now) run.now.at }
    requires causes { HaveCauses run.now.rules steps.now }
    ensures makes { K.is_honest keeper.new → MakesSteps result (K.vault keeper.old) run.now.bucket run.now.at (at_key key.now steps.now) counts.old counts.new (K.vault keeper.new) }
    ensures leaves { Leaves K.Kept keeper.old keeper.new (is_device result) }
{
    for step in steps {
        make_step(alloc, keeper, run, key, step, counts)?;
    }
    Ok(())
}
