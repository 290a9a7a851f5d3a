//! Laws of whole runs: of lifecycle rules over the buckets of a vault, and of any commands, whatever is asked.
//! Each is the contract of a public function that does nothing.
#![tactic(auto)]

ghost use Rattle.vault_core_run_laws.specs.Noncurrent.{PlacesAgree};
ghost use Rattle.vault_core_run_laws.specs.Repeats.{CutRunsAddUp, RunsRepeat, VaultPlansRepeat};
ghost use Rattle.vault_core_run_laws.specs.RunLaws.{EntriesRise, KeyRunsGoOn, KeyStepsAreAllowed, KeysRise, LaterKeysAreOthers, NextStepsAreAllowed, NextStepsRemoveFree, OtherKeysStay, PagesGoOn, RunsGoOn, VaultPlansAreKeyByKey};
ghost use Rattle.std.specs.Prelude.{◌≡◌, ◌+◌, ℕ, List};
ghost use Rattle.vault_core_model.specs.declared.command.Command.{Command};
ghost use Rattle.vault_core_model.specs.declared.command.Timed.{Timed};
ghost use Rattle.vault_core_model.specs.declared.reply.Reply.{Reply};
ghost use Rattle.vault_core_model.specs.Vault.{Vault};
ghost use Rattle.vault_core_model.specs.Step.{IsStep, IsRun, Reached};
ghost use Rattle.vault_core_model.specs.Sound.{Sound};
ghost use Rattle.vault_core_model.specs.Totals.{admitted_bytes, received_bytes, removed_bytes, handed_bytes, over_departments};
ghost use Rattle.vault_core_run_laws.specs.Callers.{KeepsCallers};
ghost use Rattle.vault_core_run_laws.specs.Chains.{Leads};
ghost use Rattle.vault_core_run_laws.specs.Once.{Extends};
ghost use Rattle.vault_core_run_laws.specs.Removals.{RemovalsWerePermitted};
ghost use Rattle.vault_core_run_laws.specs.Repeated.{BeginRun, CompleteRun};
ghost use Rattle.vault_core_run_laws.specs.Stored.{EachStandsOnce, stored_bytes, all_stored_bytes};
ghost use Rattle.vault_core_run_laws.specs.SumBounds.{DepartmentsAreFarBelow, RowsAreFarBelow};
ghost use Rattle.vault_core_run_laws.specs.Worm.{Worm};

/// The plan of a bucket by three phases over the whole vault is the plans of its keys, one after
/// another; the keys rise, and so do the ids of each key's entries.
pub fn plans_go_key_by_key()
    ensures plans { VaultPlansAreKeyByKey }
    ensures keys { KeysRise }
    ensures entries { EntriesRise }
{}

/// What a run finds in the list of a key is what the vault says, of each entry of a sound vault: which
/// entries are newer, whether it is current, since when it is noncurrent, and how many stand above it.
pub fn places_agree()
    ensures { PlacesAgree }
{}

/// After the first steps at some keys, each mark with an id, the vault is sound and the rest of the
/// steps is left. So it is within one key.
pub fn runs_go_on()
    ensures keys { RunsGoOn }
    ensures key { KeyRunsGoOn }
{}

/// The next step of a run may be made: what it removes is held at its key, and isn't locked; a mark needs an id.
pub fn next_steps_are_allowed()
    ensures keys { NextStepsAreAllowed }
    ensures key { KeyStepsAreAllowed }
    ensures free { NextStepsRemoveFree }
{}

/// The steps at some keys alter no entry of another key.
pub fn other_keys_stay()
    ensures stay { OtherKeysStay }
    ensures others { LaterKeysAreOthers }
{}

/// After all steps of the first keys, the keys after the last of them are the rest: a run may ask
/// for its keys page by page.
pub fn pages_go_on()
    ensures { PagesGoOn }
{}

/// A run that stopped may be given again: after the first changes of a plan, made at one moment, the
/// plan at that moment is the rest.
pub fn plans_repeat()
    ensures { VaultPlansRepeat }
{}

/// Runs over one bucket at one moment, each cut by a fault, have together made a beginning of the
/// one plan, and the rest of it is the plan then. A last one that is done leaves the vault of one
/// unbroken run; their changes add up to its plan; one run more changes nothing. Admissions don't go
/// back, and none is after that moment.
pub fn runs_repeat()
    ensures cut { CutRunsAddUp }
    ensures done { RunsRepeat }
{}

/// A step leaves the vault as it was, or makes a change that the vault allows and that the lock rules
/// permit the caller; a run of the lifecycle rules makes any number of them.
pub fn steps_make_permitted_changes()
    ensures { (v after : Vault) (t : ℕ) (who : List ℕ) (c : Command) (reply : Reply) →
        Sound v → IsStep v t who c reply after → Leads v t who c after }
{}

/// Every vault that is reached from a new one is sound.
pub fn reached_vaults_are_sound()
    ensures { (v : Vault) → Reached v → Sound v }
{}

/// Of every vault that is reached, each removal stood outside retention and legal hold with no bypass
/// named, or under governance alone and by a bypass of a caller who may.
pub fn removals_were_permitted()
    ensures { (v : Vault) → Reached v → RemovalsWerePermitted v }
{}

/// Of every vault that is reached, each retention that a version ever had was kept to its end, but for
/// governance that an allowed bypass lifted, by the removal or by a later setting; and each removed
/// version was off hold.
pub fn retention_and_holds_are_kept()
    ensures { (v : Vault) → Reached v → Worm v }
{}

/// Of every sound vault, each version is held with its content or it was removed, never both; so the bytes that a department ever admitted and received are those that stand in its buckets,
/// those removed, and those handed over. What the vault ever admitted stands there or was removed.
pub fn bytes_are_conserved()
    ensures each { (v : Vault) → Sound v → EachStandsOnce v }
    ensures total { (v : Vault) (dept : List ℕ) → Sound v →
        admitted_bytes v dept + received_bytes v dept ≡ stored_bytes v dept + (removed_bytes v dept + handed_bytes v dept) }
    ensures vault { (v : Vault) → Sound v →
        over_departments v (admitted_bytes v) ≡ all_stored_bytes v + over_departments v (removed_bytes v) }
{}

/// The sums by days of a department's row, and what a charge adds up of them, stay below 2^63: so they never
/// come near what 64 bits hold. Days are in range, as every moment that can be read is.
pub fn sums_stay_far_below()
    ensures rows { RowsAreFarBelow }
    ensures departments { DepartmentsAreFarBelow }
{}

/// Over any run from a sound vault, each history stays at its place: its entry is never altered, but for
/// one removal; its content stands as long as it is held; and settings and tenures are only added.
pub fn histories_are_written_once()
    ensures { (v after : Vault) (commands : List Timed) (replies : List Reply) →
        Sound v → IsRun v commands replies after → Extends v.histories after.histories }
{}

/// Over any run from a sound vault, who was a caller still is, with the same rights; a closed caller
/// stays closed.
pub fn callers_keep_their_rights()
    ensures { (v after : Vault) (commands : List Timed) (replies : List Reply) →
        Sound v → IsRun v commands replies after → KeepsCallers v after }
{}

/// Lifecycle runs over one bucket at one moment, each cut by a fault, are together the beginning of one
/// run, and the rest of it is left to do. With a last one that is done they are one run that nothing
/// stopped, and one run more changes nothing.
pub fn cut_runs_are_completed()
    ensures begun { (v after : Vault) (commands : List Timed) (replies : List Reply) →
        Sound v → IsRun v commands replies after → BeginRun v commands replies after }
    ensures done { (v after : Vault) (commands : List Timed) (replies : List Reply) →
        Sound v → IsRun v commands replies after → CompleteRun v commands replies after }
{}
