//! A run of the history machine.
ghost use Rattle.std.specs.Prelude.{◌≡◌, ◌≤◌, ◌+◌, ℕ, List, IfOk, OnErr};
ghost use Rattle.vault_core_model.specs.LeavesMany.{LeavesByAll};
ghost use Rattle.vault_core_model.specs.Step.{IsRun, Reached};
ghost use Rattle.vault_core.specs.StepByStep.{StepByStep};
ghost use Rattle.vault_core_run_laws.specs.Once.{Extends};
ghost use Rattle.vault_core_run_laws.specs.Removals.{RemovalsWerePermitted};
ghost use Rattle.vault_core_run_laws.specs.Repeated.{BeginRun, CompleteRun};
ghost use Rattle.vault_core_run_laws.specs.Stored.{EachStandsOnce, stored_bytes, all_stored_bytes};
ghost use Rattle.vault_core_run_laws.specs.Worm.{Worm};
ghost use Rattle.vault_core_model.specs.Totals.{admitted_bytes, received_bytes, held_bytes, removed_bytes, handed_bytes, byte_days_at, over_departments, vault_byte_days};

use crate::step::step;
use std::alloc::{AllocError, Global};
use vault_core_model::command::Timed;
use vault_core_model::keeper::Keeper;
use vault_core_model::reply::Reply;

/// Carries out commands one after another, and answers one reply for each.
///
/// The only error is out of memory for the replies; it comes before any command, and the keeper is as it was.
pub fn run<K: Keeper>(
    alloc: Global,
    keeper: &mut K,
    commands: &[Timed],
) -> Result<Vec<Reply>, AllocError>
    ensures run { K.is_honest keeper.new → IfOk result (λ replies. IsRun (K.vault keeper.old) commands.now replies.items (K.vault keeper.new)) }
    ensures err { OnErr result (K.vault keeper.new ≡ K.vault keeper.old) }
    // Nothing was asked of the keeper either.
    ensures untouched { OnErr result (keeper.new ≡ keeper.old) }
    // A vault that is reached from a new one leads to such a vault.
    ensures reached { K.is_honest keeper.new → Reached (K.vault keeper.old) → Reached (K.vault keeper.new) }
    // Of every such vault, each removal was permitted, and each retention and hold was kept.
    ensures permitted { K.is_honest keeper.new → Reached (K.vault keeper.old) → RemovalsWerePermitted (K.vault keeper.new) }
    ensures worm { K.is_honest keeper.new → Reached (K.vault keeper.old) → Worm (K.vault keeper.new) }
    // What was admitted is neither lost nor altered, and its bytes stand in the held content or were removed.
    ensures once { K.is_honest keeper.new → Extends (K.vault keeper.old).histories (K.vault keeper.new).histories }
    ensures stored { K.is_honest keeper.new → EachStandsOnce (K.vault keeper.new) }
    ensures total { K.is_honest keeper.new → (dept : List ℕ) →
        admitted_bytes (K.vault keeper.new) dept + received_bytes (K.vault keeper.new) dept
        ≡ stored_bytes (K.vault keeper.new) dept + (removed_bytes (K.vault keeper.new) dept + handed_bytes (K.vault keeper.new) dept) }
    // Over all departments, what was received was handed over, and what was admitted is held, so stands, or was removed; the byte-days charged are each version's size times its whole days held.
    ensures moved { K.is_honest keeper.new →
        over_departments (K.vault keeper.new) (received_bytes (K.vault keeper.new)) ≡ over_departments (K.vault keeper.new) (handed_bytes (K.vault keeper.new)) }
    ensures balanced { K.is_honest keeper.new →
        over_departments (K.vault keeper.new) (admitted_bytes (K.vault keeper.new)) ≡ over_departments (K.vault keeper.new) (held_bytes (K.vault keeper.new)) + over_departments (K.vault keeper.new) (removed_bytes (K.vault keeper.new)) }
    ensures whole { K.is_honest keeper.new →
        over_departments (K.vault keeper.new) (admitted_bytes (K.vault keeper.new)) ≡ all_stored_bytes (K.vault keeper.new) + over_departments (K.vault keeper.new) (removed_bytes (K.vault keeper.new)) }
    ensures days { K.is_honest keeper.new → (t : ℕ) → (K.vault keeper.new).last ≤ t →
        over_departments (K.vault keeper.new) (λ dept. byte_days_at (K.vault keeper.new) dept t) ≡ vault_byte_days (K.vault keeper.new) t }
    // Lifecycle runs that were cut are the beginning of one run, and a last one that is done completes it.
    ensures begun { K.is_honest keeper.new → IfOk result (λ replies. BeginRun (K.vault keeper.old) commands.now replies.items (K.vault keeper.new)) }
    ensures completed { K.is_honest keeper.new → IfOk result (λ replies. CompleteRun (K.vault keeper.old) commands.now replies.items (K.vault keeper.new)) }
    // These are the numbers that a department's row has.
    ensures conserved { (dept : List ℕ) →
        admitted_bytes (K.vault keeper.new) dept + received_bytes (K.vault keeper.new) dept
        ≡ held_bytes (K.vault keeper.new) dept + (removed_bytes (K.vault keeper.new) dept + handed_bytes (K.vault keeper.new) dept) }
    // The count of failures rises by one for each reply that reports that the device failed, up to its greatest value.
    ensures leaves { LeavesByAll K.Kept keeper.old keeper.new result }
    // The same of each command, from the keeper that the one before left, and as far as the device was honest its reply is that of a step.
    ensures each { IfOk result (λ replies. StepByStep K.Kept keeper.old commands.now replies.items keeper.new) }
{
    let mut replies = Vec::with_capacity(alloc, commands.len())?;
    for timed in commands {
        let reply = step(alloc, keeper, timed.at, &timed.who, &timed.command);
        replies.push(reply)?;
    }
    Ok(replies)
}
