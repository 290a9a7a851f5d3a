//! One step of the history machine.
ghost use Rattle.std.specs.Prelude.{◌≡◌, ◌∷◌, [], Result};
ghost use Rattle.vault_base.specs.declared.refusal.Refusal.{Refusal};
ghost use Rattle.vault_core_model.specs.Leaves.{Leaves};
ghost use Rattle.vault_core_model.specs.declared.reply.Answer.{Answer};
ghost use Rattle.vault_core_model.specs.Halts.{AnswersAs, is_device, is_device_reply};
ghost use Rattle.vault_core_model.specs.Step.{Answers, IsStep, Reached};
ghost use Rattle.vault_core_model.specs.Vault.{Vault};
ghost use Rattle.vault_core_run_laws.specs.Once.{Extends};
ghost use Rattle.vault_core_run_laws.specs.Removals.{RemovalsWerePermitted};
ghost use Rattle.vault_core_run_laws.specs.Repeated.{BeginRun, CompleteRun, one_command};
ghost use Rattle.vault_core_run_laws.specs.Worm.{Worm};

use std::alloc::Global;
use vault_base::moment::Moment;
use vault_base::name::CallerName;
use vault_base::refusal::Refusal;
use vault_core_entries::deletions::{delete, delete_version};
use vault_core_entries::intake::intake;
use vault_core_entries::locks::{get_hold, get_retention, set_hold, set_retention};
use vault_core_entries::put::put;
use vault_core_entries::reads::{get, head};
use vault_core_listing::certificates::certificate;
use vault_core_listing::listings::list_versions;
use vault_core_model::command::Command;
use vault_core_model::halt::{Fault, Halt};
use vault_core_model::keeper::Keeper;
use vault_core_model::reply::{Answer, Reply};
use vault_core_records::config::{drop_rules, get_default, get_rules, set_default, set_rules};
use vault_core_records::moves::move_bucket;
use vault_core_records::records::{add_bucket, add_caller, add_dept, close_caller, report};
use vault_core_runs::run::run_rules;

/// One step of the history machine: what a command of a caller, given at a reading, answers and changes.
///
/// The checks are made in their order, and the first that fails is the answer. `Memory` and `Device` may
/// come in the place of any answer. Every refusal leaves the vault as it was; a lifecycle run that stops
/// has made the changes that it reports, the first ones of its plan.
pub fn step<K: Keeper>(
    alloc: Global,
    keeper: &mut K,
    at: Moment,
    who: &CallerName,
    command: &Command,
) -> Reply
    ensures step { K.is_honest keeper.new → IsStep (K.vault keeper.old) at who.now command.now result (K.vault keeper.new) }
    // A vault that is reached from a new one leads to such a vault. Of each, the removals were permitted,
    // retention and holds were kept, and what was admitted is neither lost nor altered.
    ensures reached { K.is_honest keeper.new → Reached (K.vault keeper.old) → Reached (K.vault keeper.new) }
    ensures permitted { K.is_honest keeper.new → Reached (K.vault keeper.old) → RemovalsWerePermitted (K.vault keeper.new) }
    ensures worm { K.is_honest keeper.new → Reached (K.vault keeper.old) → Worm (K.vault keeper.new) }
    ensures once { K.is_honest keeper.new → Extends (K.vault keeper.old).histories (K.vault keeper.new).histories }
    // A lifecycle run that a fault cut has begun its plan, and the rest of it is left to do; one that is done leaves nothing.
    ensures begun { K.is_honest keeper.new → BeginRun (K.vault keeper.old) (one_command at who.now command.now) (result ∷ []) (K.vault keeper.new) }
    ensures completed { K.is_honest keeper.new → CompleteRun (K.vault keeper.old) (one_command at who.now command.now) (result ∷ []) (K.vault keeper.new) }
    ensures leaves { Leaves K.Kept keeper.old keeper.new (is_device_reply result) }
{
    carry_out(alloc, keeper, at, who, command)
}

/// What a command answers and changes.
fn carry_out<K: Keeper>(
    alloc: Global,
    keeper: &mut K,
    at: Moment,
    who: &CallerName,
    command: &Command,
) -> Reply
    ensures step { K.is_honest keeper.new → IsStep (K.vault keeper.old) at who.now command.now result (K.vault keeper.new) }
    ensures leaves { Leaves K.Kept keeper.old keeper.new (is_device_reply result) }
{
    match command {
        Command::AddDept(command) => reply_to(add_dept(keeper, at, who, command)),
        Command::AddCaller(command) => reply_to(add_caller(keeper, at, who, command)),
        Command::CloseCaller(command) => reply_to(close_caller(keeper, at, who, command)),
        Command::AddBucket(command) => reply_to(add_bucket(keeper, at, who, command)),
        Command::MoveBucket(command) => reply_to(move_bucket(keeper, at, who, command)),
        Command::SetDefault(command) => reply_to(set_default(keeper, at, who, command)),
        Command::GetDefault(command) => reply_to(get_default(keeper, at, who, command)),
        Command::SetRules(command) => reply_to(set_rules(keeper, at, who, command)),
        Command::GetRules(command) => reply_to(get_rules(keeper, at, who, command)),
        Command::DropRules(command) => reply_to(drop_rules(keeper, at, who, command)),
        Command::Put(command) => reply_to(put(alloc, keeper, at, who, command)),
        Command::Get(command) => reply_to(get(alloc, keeper, at, who, command)),
        Command::Head(command) => reply_to(head(keeper, at, who, command)),
        Command::ListVersions(command) => reply_to(list_versions(alloc, keeper, at, who, command)),
        Command::Delete(command) => reply_to(delete(alloc, keeper, at, who, command)),
        Command::DeleteVersion(command) => reply_to(delete_version(keeper, at, who, command)),
        Command::SetRetention(command) => reply_to(set_retention(keeper, at, who, command)),
        Command::GetRetention(command) => reply_to(get_retention(keeper, at, who, command)),
        Command::SetHold(command) => reply_to(set_hold(keeper, at, who, command)),
        Command::GetHold(command) => reply_to(get_hold(keeper, at, who, command)),
        Command::Run(command) => run_rules(alloc, keeper, at, who, command),
        Command::Report(command) => reply_to(report(keeper, at, who, command)),
        Command::Certificate(command) => reply_to(certificate(keeper, at, who, command)),
        Command::Intake(command) => reply_to(intake(alloc, keeper, at, who, command)),
    }
}

/// The reply that says what a command gave.
fn reply_to(given: Result<Answer, Halt>) -> Reply
    ensures reported { (v v' : Vault) (judged : Result (Answer × Vault) Refusal) → AnswersAs given v v' judged → Answers judged v result v' }
    ensures device { is_device_reply result ≡ is_device given }
{
    match given {
        Ok(answer) => Reply::Done(answer),
        Err(Halt::Refused(refusal)) => Reply::Refused(refusal),
        Err(Halt::Fault(Fault::Memory)) => Reply::Refused(Refusal::Memory),
        Err(Halt::Fault(Fault::Device)) => Reply::Refused(Refusal::Device),
    }
}
