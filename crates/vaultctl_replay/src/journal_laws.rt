//! Laws of journals. Each is the contract of a public function that does nothing.
ghost use Rattle.std.specs.Prelude.{◌≡◌, ◌++◌, ℕ, List, Some, false, filter};
ghost use Rattle.std.specs.List.{list_any};
ghost use Rattle.vault_base.specs.declared.refusal.Refusal.TheVariants.{MalformedBody};
ghost use Rattle.vault_core_outcome.specs.Outcome.{reports_fault};
ghost use Rattle.vault_core_model.specs.Step.{IsRun, IsStep};
ghost use Rattle.vault_core_model.specs.Vault.{Vault};
ghost use Rattle.vault_core_model.specs.declared.command.Command.{Command};
ghost use Rattle.vault_core_model.specs.declared.command.Timed.{Timed};
ghost use Rattle.vault_core_model.specs.declared.reply.Reply.{Reply};
ghost use Rattle.vault_lines_read.specs.declared.read_line.Line.TheVariants as line;
ghost use Rattle.vault_lines_read.specs.ReadLine.{line_of};
ghost use Rattle.vaultctl_replay.specs.Changes.{changing, is_change, is_cut};
ghost use Rattle.vaultctl_replay.specs.Entries.{end_line, is_open};
ghost use Rattle.vault_core.specs.Hearing.{AreHeard, HearsAll};
ghost use Rattle.vaultctl_replay.specs.Journal.{Hears, IsJournal, Lacks, LeadTo};
ghost use Rattle.vaultctl_replay.specs.declared.journal.Journal.{Journal};
ghost use Rattle.vaultctl_replay.specs.declared.state.JournalState.TheVariants.{Open};

use crate::laws::input_has_one_reading;
use std::io::Write;
use vault_core_model::kept::Kept;
use vault_core_outcome::answers_are_one;

/// A command whose reply reports no change left the vault as it was: a refused one, a reading one, an intake
/// line that was accepted before, and a lifecycle run that made no change.
pub fn replies_show_changes()
    ensures { (v : Vault) (t : ℕ) (who : List ℕ) (c : Command) (r : Reply) (v' : Vault) → IsStep v t who c r v' → is_change r ≡ false → v' ≡ v }
{}

/// The commands of a run whose replies report a change lead to the same vault, with the same replies.
pub fn changes_lead_there()
    ensures { (v v' : Vault) (cs : List Timed) (rs : List Reply) → IsRun v cs rs v' → IsRun v (changing cs rs) (filter is_change rs) v' }
{}

/// Given once more, over the vault from which the run began, they lead to that vault and to no other, with the
/// same replies, where neither memory nor the device fails. A lifecycle run of which a fault made a part is
/// excepted, as no command makes that part again.
pub fn changes_lead_nowhere_else()
    ensures { (v v' w : Vault) (cs : List Timed) (rs qs : List Reply) → IsRun v cs rs v' → list_any is_cut rs ≡ false → IsRun v (changing cs rs) qs w
        → list_any reports_fault qs ≡ false → (w ≡ v') × (qs ≡ filter is_change rs) }
{
    answers_are_one();
}

/// The line that ends a journal asks for nothing, and is refused.
pub fn last_lines_are_refused()
    ensures { line_of end_line ≡ line.Refused MalformedBody }
{}

/// What a new journal has of the commands that it heard of is a line for each change; where it ended or was lost, for
/// each change of the first commands.
pub fn journals_are_of_their_commands<W: Write>()
    ensures { (j j' : Journal W) (old new : List ℕ) (cs : List Timed) (rs : List Reply)
        → j.state ≡ Open → W.contents j.writer ≡ Some old → W.contents j'.writer ≡ Some new → AreHeard (λ h. is_open h.state) (Hears W.Write) j j' cs rs
        → (text : List ℕ) × (new ≡ old ++ text) × IsJournal j'.state text cs rs }
{}

/// Whoever keeps a copy of the vault of a journal's beginning, and carries out the journal's lines one after another, keeps
/// the vault that was journalled, where no reply reports a fault; where the journal has ended or was lost, that vault or
/// the one before the last command.
pub fn journals_lead_to_the_vault<W: Write, K: Kept>()
    ensures { (j j' : Journal W) (v v' : Vault) (old new : List ℕ)
        → j.state ≡ Open → W.contents j.writer ≡ Some old → W.contents j'.writer ≡ Some new → HearsAll (λ h. is_open h.state) (Hears W.Write) j j' v v'
        → (text : List ℕ) × (new ≡ old ++ text) × (there : Vault) × Lacks j'.state there v' × LeadTo K.Kept j'.state text v there }
{
    changes_lead_nowhere_else();
    input_has_one_reading();
    last_lines_are_refused();
    journals_are_of_their_commands::<W>();
}
