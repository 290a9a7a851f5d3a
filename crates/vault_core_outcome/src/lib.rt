//! The history machine as a function, where neither memory nor a device fails; and days in a vault,
//! worked out on the definitions.
#![tactic(auto)]

ghost use Rattle.std.specs.Prelude.{◌≡◌, ℕ, List, false};
ghost use Rattle.std.specs.List.{AllByRecursion};
ghost use Rattle.vault_core_model.specs.declared.command.Command.{Command};
ghost use Rattle.vault_core_model.specs.declared.command.Timed.{Timed};
ghost use Rattle.vault_core_model.specs.declared.reply.Reply.{Reply};
ghost use Rattle.vault_core_model.specs.Step.{CanBeGiven, IsRun, IsStep};
ghost use Rattle.vault_core_model.specs.Vault.{Vault};
ghost use Rattle.vault_core_outcome.specs.Outcome.{IsOutcome, outcome, replies_to, reports_fault, vault_after};

/// Every command has its reply, and every list of commands its replies.
pub fn every_command_is_answered()
    ensures step { (v : Vault) (t : ℕ) (who : List ℕ) (c : Command) → CanBeGiven c → IsStep v t who c (outcome v t who c).reply (outcome v t who c).vault }
    ensures run { (v : Vault) (cs : List Timed) → AllByRecursion (λ c. CanBeGiven c.command) cs → IsRun v cs (replies_to v cs) (vault_after v cs) }
{}

/// A command has one reply and leaves one vault, but where memory runs out and a failing device.
pub fn answers_are_one()
    ensures { (v : Vault) (t : ℕ) (who : List ℕ) (c : Command) (r : Reply) (v' : Vault) → reports_fault r ≡ false → IsStep v t who c r v' → IsOutcome (outcome v t who c) r v' }
{}
