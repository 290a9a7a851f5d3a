//! Laws of the definitions: what every allowed change keeps, and what the definitions have in common.
//! Each is the contract of a public function that does nothing.
#![tactic(auto)]

ghost use Rattle.std.specs.Prelude.{◌≡◌, ◌+◌, ◌*◌, ◌++◌, ℕ, ◌≤◌, List, Some, None, sum_by};
ghost use Rattle.vault_base.specs.Days.{last_moment, day};
ghost use Rattle.vault_tally.specs.Row.{AreBounded, AreBegunBy, last_day, quota};
ghost use Rattle.vault_core_model.specs.declared.change.Change.{Change};
ghost use Rattle.vault_core_model.specs.declared.change.Change.TheVariants.{MoveBucket};
ghost use Rattle.vault_core_model.specs.declared.command.Timed.{Timed};
ghost use Rattle.vault_core_model.specs.declared.records.Head.{Head};
ghost use Rattle.vault_core_model.specs.declared.records.History.{History};
ghost use Rattle.vault_core_model.specs.declared.reply.Reply.{Reply};
ghost use Rattle.vault_core_model.specs.Vault.{Vault};
ghost use Rattle.vault_core_model.specs.Change.{changed};
ghost use Rattle.vault_core_model.specs.Places.{current};
ghost use Rattle.vault_core_model.specs.Reads.{head_of, entry_of};
ghost use Rattle.vault_core_model.specs.Step.{IsRun};
ghost use Rattle.vault_core_model.specs.Sound.{Sound};
ghost use Rattle.vault_core_model.specs.Allowed.{Allows};
ghost use Rattle.vault_core_model.specs.Totals.{items_of, admitted_bytes, received_bytes, held_bytes, removed_bytes, handed_bytes, byte_days_at, over_departments, vault_byte_days, held_versions_in, bucket_bytes, bucket_weight, last_day_from};

/// A sound vault stays sound under every change that it allows.
pub fn allowed_changes_keep_soundness()
    ensures { (v : Vault) (t : ℕ) (c : Change) → Sound v → v.last ≤ t → Allows v t c → Sound (changed v t c) }
{}

/// The days of the tenures of a sound vault's versions are in order, and no department admitted and received
/// more than the quota: so no sum of a department's row overflows.
pub fn sums_of_sound_vaults_are_bounded()
    ensures bounded { (v : Vault) (dept : List ℕ) → Sound v → v.last ≤ last_moment → AreBounded (items_of v dept) }
    ensures begun { (v : Vault) (dept : List ℕ) (t : ℕ) → Sound v → v.last ≤ t → AreBegunBy (day t) (items_of v dept) }
{}

/// What a bucket of a sound vault holds is within its department's quota: so neither the sums over its held
/// versions nor those over the first of them overflow.
pub fn sums_of_buckets_are_bounded()
    ensures bytes { (v : Vault) (name : List ℕ) → Sound v → bucket_bytes v name ≤ quota }
    ensures weight { (v : Vault) (name : List ℕ) → Sound v → v.last ≤ last_moment → bucket_weight v name ≤ quota * last_day }
    ensures first_bytes { (v : Vault) (name : List ℕ) (first rest : List History) → Sound v → held_versions_in v name ≡ first ++ rest →
        sum_by (λ h. h.entry.size) first ≤ quota }
    ensures first_weight { (v : Vault) (name : List ℕ) (first rest : List History) → Sound v → v.last ≤ last_moment → held_versions_in v name ≡ first ++ rest →
        sum_by (λ h. h.entry.size * last_day_from h.tenures) first ≤ quota * last_day }
{}

/// In a sound vault the current entry of a key is the newest that is held: the one that its head names.
pub fn heads_name_the_current_entry()
    ensures found { (v : Vault) (bucket key : List ℕ) (head : Head) → Sound v → head_of v bucket key ≡ Some head →
        (h : History) × (current v bucket key ≡ Some h) × (entry_of v head.newest ≡ Some h.entry) }
    ensures none { (v : Vault) (bucket key : List ℕ) → head_of v bucket key ≡ None → current v bucket key ≡ None }
{}

/// One run after another is a run.
pub fn runs_go_on()
    ensures { (v mid end : Vault) (cs ds : List Timed) (rs ss : List Reply) →
        IsRun v cs rs mid → IsRun mid ds ss end → IsRun v (cs ++ ds) (rs ++ ss) end }
{}

/// Each byte that a department admitted or received is held, was removed, or was handed over.
pub fn each_byte_has_one_place()
    ensures { (v : Vault) (dept : List ℕ) →
        admitted_bytes v dept + received_bytes v dept ≡ held_bytes v dept + (removed_bytes v dept + handed_bytes v dept) }
{}

/// Over all departments of a sound vault, what was received is what was handed over; so what the vault
/// admitted is what it holds and what was removed.
pub fn moves_balance()
    ensures moved { (v : Vault) → Sound v → over_departments v (received_bytes v) ≡ over_departments v (handed_bytes v) }
    ensures conserved { (v : Vault) → Sound v →
        over_departments v (admitted_bytes v) ≡ over_departments v (held_bytes v) + over_departments v (removed_bytes v) }
{}

/// Over all departments of a sound vault, the byte-days that are charged are each version's size times its
/// whole days held.
pub fn days_add_up()
    ensures { (v : Vault) (t : ℕ) → Sound v → v.last ≤ t →
        over_departments v (λ dept. byte_days_at v dept t) ≡ vault_byte_days v t }
{}

/// As long as no bucket moved, no department received bytes or handed any over: what it admitted it holds, or
/// it was removed. No change but a bucket's move counts as one.
pub fn bytes_stay_until_a_move()
    ensures received { (v : Vault) (dept : List ℕ) → Sound v → v.moves ≡ 0 → received_bytes v dept ≡ 0 }
    ensures handed { (v : Vault) (dept : List ℕ) → Sound v → v.moves ≡ 0 → handed_bytes v dept ≡ 0 }
    ensures conserved { (v : Vault) (dept : List ℕ) → Sound v → v.moves ≡ 0 →
        admitted_bytes v dept ≡ held_bytes v dept + removed_bytes v dept }
    ensures moves { (v : Vault) (t : ℕ) (c : Change) → ((name dept : List ℕ) → c ≡ MoveBucket name dept → ⊥) → (changed v t c).moves ≡ v.moves }
{}
