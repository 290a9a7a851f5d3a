//! One step of a run, made as one change.
ghost use Rattle.std.specs.Prelude.{◌≡◌, ◌≤◌, ◌<◌, ◌+◌, ℕ, List, length, IfOk, IfErr, IfSome, OnOk};
ghost use Rattle.vault_core_model.specs.Leaves.{Leaves, LeavesSame};
ghost use Rattle.vault_core_model.specs.declared.records.Author.TheVariants as author;
ghost use Rattle.vault_core_model.specs.declared.records.Cause.TheVariants as cause;
ghost use Rattle.vault_core_model.specs.Halts.{is_device};
ghost use Rattle.vault_core_model.specs.EntryOutcomes.{new_marker};
ghost use Rattle.vault_core_model.specs.Plan.{rules_in, rule_id, change_at, counts as counts_of};
ghost use Rattle.vault_core_runs.specs.Making.{place_of, HasId, MayBeMade, Hinders, MakesSteps, only, plus};

use std::alloc::{AllocError, Global};
use vault_base::moment::Moment;
use vault_base::name::{BucketName, ObjectKey, RuleId, VersionId};
use vault_core_checks::limit::find_id;
use vault_core_model::change::{Admission, Change};
use vault_core_model::halt::{Fault, Halt};
use vault_core_model::keeper::{Keeper, make_change};
use vault_core_model::records::{Author, Cause, Entry, History, Removal, Settings, Tenures};
use vault_core_model::reply::Counts;
use vault_rules::plan::Step;
use vault_rules::rule_set::RuleSet;

/// A run over a bucket: where, when and by which rules.
#[derive(Drop)]
pub struct BucketRun {
    pub bucket: BucketName,
    pub at: Moment,
    pub rules: RuleSet,
}

/// Makes one step at a key and counts it.
pub fn make_step<K: Keeper>(
    alloc: Global,
    keeper: &mut K,
    run: &BucketRun,
    key: &ObjectKey,
    step: &Step,
    counts: &mut Counts,
) -> Result<(), Halt>
    requires known { place_of step.now < length run.now.rules }
    requires given { K.is_honest keeper.old → rules_in (K.vault keeper.old) run.now.bucket ≡ run.now.rules }
    requires in_time { K.is_honest keeper.old → (K.vault keeper.old).last ≤ run.now.at }
    requires allowed { K.is_honest keeper.old → MayBeMade (K.vault keeper.old) run.now.bucket run.now.at key.now step.now }
    ensures makes { K.is_honest keeper.new → MakesSteps result (K.vault keeper.old) run.now.bucket run.now.at (only key.now step.now) counts.old counts.new (K.vault keeper.new) }
    ensures leaves { Leaves K.Kept keeper.old keeper.new (is_device result) }
{
    let Some(more) = one_more(counts, step) else {
        return Err(Halt::Fault(Fault::Memory));
    };
    let change = find_change(alloc, keeper, run, key, step)?;
    make_change(keeper, run.at, change)?;
    *counts = more;
    Ok(())
}

/// The counts with one step more, where their numbers can grow.
fn one_more(counts: &Counts, step: &Step) -> Option<Counts>
    ensures { (key : List ℕ) → IfSome result (λ more. more ≡ plus counts.now (counts_of (only key step.now))) }
{
    match step {
        Step::Mark(_) => one_marked_more(counts),
        Step::Remove(_, _) => one_removed_more(counts),
        Step::RemoveLone(_, _) => one_lone_more(counts),
    }
}

fn one_marked_more(counts: &Counts) -> Option<Counts>
    ensures { IfSome result (λ more. more ≡ record counts.now { changes = counts.now.changes + 1; marked = counts.now.marked + 1 }) }
{
    Some(Counts {
        changes: counts.changes.checked_add(1)?,
        marked: counts.marked.checked_add(1)?,
        removed: counts.removed,
        lone: counts.lone,
    })
}

fn one_removed_more(counts: &Counts) -> Option<Counts>
    ensures { IfSome result (λ more. more ≡ record counts.now { changes = counts.now.changes + 1; removed = counts.now.removed + 1 }) }
{
    Some(Counts {
        changes: counts.changes.checked_add(1)?,
        marked: counts.marked,
        removed: counts.removed.checked_add(1)?,
        lone: counts.lone,
    })
}

fn one_lone_more(counts: &Counts) -> Option<Counts>
    ensures { IfSome result (λ more. more ≡ record counts.now { changes = counts.now.changes + 1; lone = counts.now.lone + 1 }) }
{
    Some(Counts {
        changes: counts.changes.checked_add(1)?,
        marked: counts.marked,
        removed: counts.removed,
        lone: counts.lone.checked_add(1)?,
    })
}

/// The change that a step is; a mark takes the next id.
fn find_change<K: Keeper>(
    alloc: Global,
    keeper: &mut K,
    run: &BucketRun,
    key: &ObjectKey,
    step: &Step,
) -> Result<Change, Halt>
    requires known { place_of step.now < length run.now.rules }
    requires given { K.is_honest keeper.old → rules_in (K.vault keeper.old) run.now.bucket ≡ run.now.rules }
    ensures is { K.is_honest keeper.new → IfOk result (λ change. change ≡ change_at (K.vault keeper.old) run.now.bucket run.now.at key.now step.now) }
    ensures room { K.is_honest keeper.new → OnOk result (HasId (K.vault keeper.old) step.now) }
    ensures hindered { K.is_honest keeper.new → IfErr result (λ halt. Hinders halt (K.vault keeper.old) step.now) }
    ensures leaves { LeavesSame K.Kept keeper.old keeper.new (is_device result) }
{
    match *step {
        Step::Mark(rule) => find_mark(alloc, keeper, run, key, rule),
        Step::Remove(id, rule) => Ok(Change::Remove(id, removal_by(run, rule)?)),
        Step::RemoveLone(id, rule) => Ok(Change::Remove(id, removal_by(run, rule)?)),
    }
}

/// The admission of a delete marker, while an id is left for it.
fn find_mark<K: Keeper>(
    alloc: Global,
    keeper: &mut K,
    run: &BucketRun,
    key: &ObjectKey,
    rule: usize,
) -> Result<Change, Halt>
    requires known { rule < length run.now.rules }
    requires given { K.is_honest keeper.old → rules_in (K.vault keeper.old) run.now.bucket ≡ run.now.rules }
    ensures is { K.is_honest keeper.new → IfOk result (λ change. change ≡ change_at (K.vault keeper.old) run.now.bucket run.now.at key.now (Step.Mark rule)) }
    ensures room { K.is_honest keeper.new → OnOk result (HasId (K.vault keeper.old) (Step.Mark rule)) }
    ensures hindered { K.is_honest keeper.new → IfErr result (λ halt. Hinders halt (K.vault keeper.old) (Step.Mark rule)) }
    ensures leaves { LeavesSame K.Kept keeper.old keeper.new (is_device result) }
{
    let id = find_id(keeper)?;
    let admission = Admission {
        history: new_marker(alloc, id, run, key, rule)?,
        note: None,
    };
    Ok(Change::Admit(admission))
}

/// The delete marker that a rule puts on top of a key.
fn new_marker(
    alloc: Global,
    id: VersionId,
    run: &BucketRun,
    key: &ObjectKey,
    rule: usize,
) -> Result<History, AllocError>
    requires { rule < length run.now.rules }
    ensures { IfOk result (λ history. history ≡ new_marker id run.now.bucket key.now run.now.at (author.Rule (rule_id run.now.rules rule))) }
{
    let entry = Entry {
        id,
        bucket: run.bucket.clone()?,
        key: key.clone()?,
        marker: true,
        size: 0,
        digest: None,
        admitted: run.at,
        by: Author::Rule(rule_id(run, rule)?),
        removal: None,
    };
    Ok(History {
        entry,
        content: None,
        settings: Settings::new(alloc),
        tenures: Tenures::new(alloc),
    })
}

/// A removal now, with that rule as its cause.
fn removal_by(run: &BucketRun, rule: usize) -> Result<Removal, AllocError>
    requires { rule < length run.now.rules }
    ensures { IfOk result (λ removal. removal ≡ record { at = run.now.at; cause = cause.Rule (rule_id run.now.rules rule) }) }
{
    Ok(Removal {
        at: run.at,
        cause: Cause::Rule(rule_id(run, rule)?),
    })
}

/// The id of the rule at that place.
fn rule_id(run: &BucketRun, place: usize) -> Result<RuleId, AllocError>
    requires { place < length run.now.rules }
    ensures { IfOk result (λ id. id ≡ rule_id run.now.rules place) }
{
    let rules = run.rules.as_slice();
    rules[place].id.clone()
}
