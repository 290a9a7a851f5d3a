//! Laws of histories. Each is the contract of a public function that does nothing.
ghost use Rattle.std.specs.Prelude.{◌≡◌, ◌≤◌, ◌+◌, ℕ, List, length, Option, Some, None, IsTrue, true};
ghost use Rattle.std.specs.List.{AllByRecursion};
ghost use Rattle.vault_core_model.specs.declared.change.Change.{Change};
ghost use Rattle.vault_core_model.specs.declared.command.Timed.{Timed};
ghost use Rattle.vault_core_model.specs.declared.records.History.{History};
ghost use Rattle.vault_core_model.specs.declared.reply.Reply.{Reply};
ghost use Rattle.vault_core_model.specs.Allowed.{Allows};
ghost use Rattle.vault_core_model.specs.Change.{changed};
ghost use Rattle.vault_core_model.specs.Sound.{Sound};
ghost use Rattle.vault_core_model.specs.Step.{IsRun, Reached};
ghost use Rattle.vault_core_model.specs.Vault.{Vault};
ghost use Rattle.vault_core_run_laws.specs.Removals.{RemovalsWerePermitted};
ghost use Rattle.vault_core_run_laws.specs.Worm.{Worm};
ghost use Rattle.vault_core_evidence.specs.declared.seen_moves.Move.{Move};
ghost use Rattle.vault_core_evidence.specs.Breaches.{breach, first_breach};
ghost use Rattle.vault_core_evidence.specs.Events.{events_before};
ghost use Rattle.vault_core_evidence.specs.Departments.{Agree, AllAgree, DepartmentsAgree};
ghost use Rattle.vault_core_evidence.specs.Lawful.{IsLawful, Lawful, has_registrar};
ghost use Rattle.vault_core_evidence.specs.Moves.{MovesAgree, are_as_seen};
ghost use Rattle.vault_core_evidence.specs.Parts.{LawfulAfter, next_of, part, part_breach, range};
ghost use Rattle.vault_core_evidence.specs.Shown.{last_shown};

/// Over any run from a sound vault, what happened before a moment that isn't past its last one stays what it
/// was. So it does over each change that a vault allows, permitted or not.
pub fn the_past_stays()
    ensures events { (v after : Vault) (commands : List Timed) (replies : List Reply) (m : ℕ) →
        Sound v → m ≤ v.last → IsRun v commands replies after → events_before m after ≡ events_before m v }
    ensures changes { (m : ℕ) (v : Vault) (t : ℕ) (c : Change) →
        Sound v → m ≤ t → Allows v t c → events_before m (changed v t c) ≡ events_before m v }
{}

/// In every vault that is reached, each setting and each removal keeps the lock rules, by a caller who had the
/// right to it; of a first setting that is asked of a hold alone. Each version was admitted by a caller of the
/// department of its first tenure, and its first retention ends after the admission.
pub fn reached_vaults_are_lawful()
    ensures { (v : Vault) → Reached v → Lawful v }
{}

/// In every vault that is reached, tenures of one number are of one bucket, one department and one moment.
pub fn moves_agree()
    ensures { (v : Vault) → Reached v → MovesAgree v }
{}

/// In every vault that is reached, two versions of one bucket are of one department as each second ends in which both are
/// held.
pub fn departments_agree()
    ensures { (v : Vault) → Reached v → DepartmentsAgree v }
{}

/// Every vault that is reached has the caller of a new vault, open or closed, of no department and with the same rights.
pub fn the_registrar_stays()
    ensures { (v : Vault) → Reached v → IsTrue (has_registrar v) }
{}

/// In a lawful vault each removal was permitted by the lock, and each retention and hold was kept, whoever
/// wrote its rows.
pub fn lawful_vaults_kept_the_rules()
    ensures removals { (v : Vault) → Lawful v → RemovalsWerePermitted v }
    ensures worm { (v : Vault) → Lawful v → Worm v }
{}

/// In a lawful vault no entry shows a moment after the vault's last one. Where none shows that one either, a command gave
/// it that changed no entry, or another program.
pub fn no_moment_is_after_the_last()
    ensures { (v : Vault) → Sound v → Lawful v → last_shown v ≤ v.last }
{}

/// The tests find no breach exactly where every history is lawful, tenures of one number agree, versions of one bucket
/// agree on its department, and the caller of a new vault is there. So they find none in a vault that is reached.
pub fn breaches_are_decided()
    ensures one { (v : Vault) (seen : ℕ → Option Move) (before : List History) (h : History) →
        breach v seen before h ≡ None → IsLawful v h × (are_as_seen seen h.entry.bucket h.tenures ≡ true) × AllByRecursion (λ g. Agree g h) before }
    ensures lawful { (v : Vault) → first_breach v ≡ None → Lawful v }
    ensures moves { (v : Vault) → first_breach v ≡ None → MovesAgree v }
    ensures departments { (v : Vault) → first_breach v ≡ None → DepartmentsAgree v }
    ensures registrar { (v : Vault) → first_breach v ≡ None → IsTrue (has_registrar v) }
    ensures none { (v : Vault) → Lawful v → MovesAgree v → DepartmentsAgree v → IsTrue (has_registrar v) → first_breach v ≡ None }
    ensures reached { (v : Vault) → Reached v → first_breach v ≡ None }
{}

/// Parts of a vault are judged, each after the id that the one before it names. Where none of them has a breach, every
/// history is lawful; and where the vault has none, no part has one. That tenures of one number agree, and versions of one
/// bucket, shows within a part alone, and not between two. What was lawful stays so over any run, so commands may go on
/// between the parts.
pub fn parts_are_judged()
    ensures whole { (v : Vault) → LawfulAfter 0 v → Lawful v }
    ensures next { (v : Vault) (after next : ℕ) → next_of (length v.histories) after ≡ Some next → part_breach after v ≡ None → LawfulAfter next v → LawfulAfter after v }
    ensures last { (v : Vault) (after : ℕ) → next_of (length v.histories) after ≡ None → part_breach after v ≡ None → LawfulAfter after v }
    ensures agree { (v : Vault) (after : ℕ) → part_breach after v ≡ None → AllAgree (part after v) × IsTrue (has_registrar v) }
    ensures stays { (v w : Vault) (commands : List Timed) (replies : List Reply) (after most : ℕ) →
        Sound v → IsRun v commands replies w → after + most ≤ length v.histories → AllByRecursion (IsLawful v) (range v after most) → AllByRecursion (IsLawful w) (range w after most) }
    ensures clean { (v : Vault) (after : ℕ) → first_breach v ≡ None → part_breach after v ≡ None }
{}
