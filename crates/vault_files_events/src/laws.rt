//! The laws of seals, and of the parts of texts.
ghost use Rattle.std.specs.Prelude.{◌≡◌, ◌≢◌, ◌⊎◌, ◌≤◌, ◌++◌, ℕ, List, [], length, IsSome, Some, None};
ghost use Rattle.vault_core_evidence.specs.Events.{events_before, events_in};
ghost use Rattle.vault_core_evidence.specs.Lawful.{Lawful};
ghost use Rattle.vault_core_evidence.specs.Parts.{next_of, part};
ghost use Rattle.vault_core_model.specs.declared.command.Timed.{Timed};
ghost use Rattle.vault_core_model.specs.declared.records.Entry.{Entry};
ghost use Rattle.vault_core_model.specs.declared.records.Removal.{Removal};
ghost use Rattle.vault_core_model.specs.declared.records.Tenure.{Tenure};
ghost use Rattle.vault_core_model.specs.declared.reply.Reply.{Reply};
ghost use Rattle.vault_core_model.specs.Reads.{entry_of, removed_entries};
ghost use Rattle.vault_core_model.specs.Sound.{Sound};
ghost use Rattle.vault_core_model.specs.Step.{IsRun};
ghost use Rattle.vault_core_model.specs.Vault.{Vault};
ghost use Rattle.vault_files_events.specs.EventsText.{event_rows, events_header, events_text};
ghost use Rattle.vault_files_events.specs.Page.{rest_text};
ghost use Rattle.vault_files_events.specs.RegisterPage as removals;
ghost use Rattle.vault_files_events.specs.Seal.{Collide, seal_of, seal_text};
ghost use Rattle.vault_files_events.specs.Typed.{AreDated, AreTyped, IsTyped};
ghost use Rattle.vault_files_texts.specs.Certificate.{certificate_text, tenure_lines};
ghost use Rattle.vault_files_texts.specs.Register.{header, register};

/// The parts of the text of what was before a moment, each after the id that the one before it names, make that text.
/// They do so too where the vault changes between any two of them: what is left of the text after an id stays what it
/// is, where the moment isn't past the vault's last one.
pub fn parts_make_the_text()
    ensures whole { (v : Vault) (m : ℕ) → events_text (events_before m v) ≡ events_header ++ rest_text m 0 v }
    ensures next { (v : Vault) (m after next : ℕ) → next_of (length v.histories) after ≡ Some next →
        rest_text m after v ≡ event_rows (events_in m (part after v)) ++ rest_text m next v }
    ensures last { (v : Vault) (m after : ℕ) → next_of (length v.histories) after ≡ None → rest_text m after v ≡ event_rows (events_in m (part after v)) }
    ensures stays { (v later : Vault) (commands : List Timed) (replies : List Reply) (m after : ℕ) →
        Sound v → m ≤ v.last → IsRun v commands replies later → rest_text m after later ≡ rest_text m after v }
{}

/// The parts of the register, each after the id that the one before it names, make the register. They do so too where the
/// vault changes between any two of them, as long as the removed entries stay the same. Over any run a removed entry stays
/// as it is, and so does its record.
pub fn parts_make_the_register()
    ensures whole { (v : Vault) → register (removed_entries v) ≡ header ++ removals.rest_text 0 v }
    ensures next { (v : Vault) (after next : ℕ) → next_of (length v.histories) after ≡ Some next →
        removals.rest_text after v ≡ removals.rows_in (part after v) ++ removals.rest_text next v }
    ensures last { (v : Vault) (after : ℕ) → next_of (length v.histories) after ≡ None → removals.rest_text after v ≡ removals.rows_in (part after v) }
    ensures stays { (v later : Vault) (commands : List Timed) (replies : List Reply) (after : ℕ) →
        Sound v → IsRun v commands replies later → removed_entries later ≡ removed_entries v → removals.rest_text after later ≡ removals.rest_text after v }
    ensures kept { (v later : Vault) (commands : List Timed) (replies : List Reply) (id : ℕ) (e : Entry) →
        Sound v → IsRun v commands replies later → entry_of v id ≡ Some e → IsSome e.removal → entry_of later id ≡ Some e }
{}

/// Whatever is asked of a vault later, the seal of a moment that isn't past its last one stays what it is.
pub fn seals_stay()
    ensures { (v after : Vault) (commands : List Timed) (replies : List Reply) (m : ℕ) →
        Sound v → m ≤ v.last → IsRun v commands replies after → seal_of m after ≡ seal_of m v }
{}

/// Two vaults whose texts of what happened before a moment are equal have the same events before it: the same admissions,
/// settings, moves and removals, each with all that it says. Two whose seals have the same four lines have them too, or
/// else two different texts have one SHA-256 digest. Neither vault needs to be lawful, only sound, with values of their
/// types, as those in Rust are, and with no setting before the admission of its version.
pub fn equal_texts_have_equal_pasts()
    ensures texts { (v w : Vault) (m : ℕ) → Sound v → Sound w → AreTyped v → AreTyped w → AreDated v → AreDated w →
        events_text (events_before m v) ≡ events_text (events_before m w) → events_before m v ≡ events_before m w }
    ensures seals { (v w : Vault) (m n : ℕ) → Sound v → Sound w → AreTyped v → AreTyped w → AreDated v → AreDated w →
        seal_text (seal_of m v) ≡ seal_text (seal_of n w) →
        (m ≡ n) × ((events_before m v ≡ events_before n w) ⊎ Collide (events_text (events_before m v)) (events_text (events_before n w))) }
    ensures dated { (v : Vault) → Lawful v → AreDated v }
{}

/// Two vaults with equal registers have the same removed entries, each with its removal.
pub fn equal_registers_have_equal_removals()
    ensures { (v w : Vault) → AreTyped v → AreTyped w → register (removed_entries v) ≡ register (removed_entries w) → removed_entries v ≡ removed_entries w }
{}

/// Two equal certificates are of the same entry, with the same removal, and their lines on its departments are equal. A
/// certificate of an entry whose bucket didn't move has no such line.
pub fn equal_certificates_have_equal_facts()
    ensures { (e f : Entry) (ts us : List Tenure) → IsTyped e → IsTyped f → certificate_text e ts ≢ [] → certificate_text e ts ≡ certificate_text f us →
        (e ≡ f) × ((r : Removal) → e.removal ≡ Some r → tenure_lines r.at ts ≡ tenure_lines r.at us) }
{}
