//! The changes of a vault as edits of its tables: which rows are added, changed and dropped, and that
//! what comes of it are the rows of the changed vault. Each law is the contract of a public function
//! that does nothing.

ghost use Rattle.std.specs.Prelude.{◌≡◌, ℕ, ◌≤◌, false, List, Some, ◌≢◌, ◌+◌, ◌-◌, None};
ghost use Rattle.sqlite.specs.Effect.{Database};
ghost use Rattle.vault_base.specs.Days.{day, last_moment};
ghost use Rattle.vault_tally.specs.Row.{IsRowOf};
ghost use Rattle.vault_tally.specs.declared.row.Row.{Row};
ghost use Rattle.vault_core_model.specs.declared.records.BucketConfig.{BucketConfig};
ghost use Rattle.vault_core_model.specs.declared.records.History.{History};
ghost use Rattle.vault_core_model.specs.declared.records.Removal.{Removal};
ghost use Rattle.vault_core_model.specs.declared.records.Tenure.{Tenure};
ghost use Rattle.vault_core_model.specs.declared.change.Admission.{Admission};
ghost use Rattle.vault_core_model.specs.declared.change.Change.TheVariants.{Admit, MoveBucket, Remove};
ghost use Rattle.vault_core_model.specs.declared.change.Change.{Change};
ghost use Rattle.vault_core_model.specs.Allowed.{Allows, IsAdmission, IsMove, IsRemoval};
ghost use Rattle.vault_core_model.specs.Change.{changed};
ghost use Rattle.vault_core_model.specs.Sound.{Sound, last_tenure};
ghost use Rattle.vault_core_model.specs.Totals.{bucket_bytes, bucket_weight, items_of};
ghost use Rattle.vault_core_model.specs.Vault.{Vault, config_of, history_of};
ghost use Rattle.vault_core_model.specs.declared.records.Entry.{Entry};
ghost use Rattle.vault_core_model.specs.declared.records.Head.{Head};
ghost use Rattle.vault_core_model.specs.Reads.{entry_of, head_of, head_over};
ghost use Rattle.vault_audit_model.specs.Spells.{IsKept, department_in};
ghost use Rattle.vault_audit_model.specs.Tables.{vault_schema};
ghost use Rattle.vault_store_model.specs.Edits.{IgnoresOrder};
ghost use Rattle.vault_store_model.specs.Rows.{rows_of, AreSameRows, HasRows, rows_in};
ghost use Rattle.vault_store_model.specs.Beside.{AreSameBesideHeads};
ghost use Rattle.vault_store_model.specs.Changes.{edit_of, others_at};
ghost use Rattle.vault_store_model.specs.Limits.{IsChangeInLimits};
ghost use Rattle.vault_store_model.specs.Sums.{CountsIn, CountsOut, HandsOver, Receives};

/// The order in which rows stand makes no difference to the edits of a change.
pub fn edits_ignore_order()
    ensures { (v : Vault) (t : ℕ) (c : Change) → IgnoresOrder (edit_of v t c) }
{}

/// A vault that may be kept may be kept after each change that it allows, if what the change brings is in
/// its limits.
pub fn changed_vaults_are_kept()
    ensures { (v : Vault) (t : ℕ) (c : Change) → IsKept v → v.last ≤ t → t ≤ last_moment → Allows v t c →
        IsChangeInLimits v.external c → IsKept (changed v t c) }
{}

/// In every table but that of the heads, the edits of a change turn the rows of a vault into those of the
/// changed vault.
pub fn edits_make_all_rows_but_heads()
    ensures { (v : Vault) (t : ℕ) (c : Change) → Sound v → Allows v t c →
        AreSameBesideHeads (rows_of (changed v t c)) (edit_of v t c (rows_of v)) }
{}

/// The sums of a department after the admission or the removal of a version are those that its row comes
/// to by counting the version in, or the end of the tenure that it has of it: what `Row::admit` and
/// `Row::remove` promise. After a bucket's move, those of the department that had it and of the one that
/// gets it come of `Row::hand_over` and `Row::receive`.
pub fn sums_come_of_the_row()
    ensures admitted { (v : Vault) (t : ℕ) (a : Admission) (config : BucketConfig) (row new : Row) → Sound v → v.last ≤ t →
        t ≤ last_moment → IsAdmission v t a → a.history.entry.marker ≡ false →
        config_of v a.history.entry.bucket ≡ Some config → IsRowOf row (items_of v config.dept) →
        CountsIn row a.history.entry.size (day t) new →
        new ≡ (department_in (changed v t (Admit a)) config.dept).sums }
    ensures removed { (v : Vault) (t id : ℕ) (r : Removal) (h : History) (tenure : Tenure) (row new : Row) → Sound v →
        v.last ≤ t → t ≤ last_moment → IsRemoval v t id r → history_of v id ≡ Some h →
        last_tenure h.tenures ≡ Some tenure → IsRowOf row (items_of v tenure.dept) →
        CountsOut row h.entry.size (day tenure.from) (day t) new →
        new ≡ (department_in (changed v t (Remove id r)) tenure.dept).sums }
    ensures handed_over { (v : Vault) (t : ℕ) (name dept : List ℕ) (owner : BucketConfig) (row new : Row) → Sound v → v.last ≤ t →
        t ≤ last_moment → IsMove v name dept → config_of v name ≡ Some owner → IsRowOf row (items_of v owner.dept) →
        HandsOver row (bucket_bytes v name) (bucket_weight v name) (day t) new →
        new ≡ (department_in (changed v t (MoveBucket name dept)) owner.dept).sums }
    ensures received { (v : Vault) (t : ℕ) (name dept : List ℕ) (row new : Row) → Sound v → v.last ≤ t → t ≤ last_moment →
        IsMove v name dept → IsRowOf row (items_of v dept) → Receives row (bucket_bytes v name) (day t) new →
        new ≡ (department_in (changed v t (MoveBucket name dept)) dept).sums }
{}

/// The edits of a change turn the rows of a vault into those of the changed vault, in every table.
pub fn edits_make_the_changed_vault()
    ensures { (v : Vault) (t : ℕ) (c : Change) → IsKept v → v.last ≤ t → Allows v t c →
        AreSameRows (rows_of (changed v t c)) (edit_of v t c (rows_of v)) }
{}

/// Tables that have the rows of a vault have, after the edits of a change, those of the changed vault.
pub fn edited_tables_have_the_changed_vault()
    ensures { (old new : Database) (v : Vault) (t : ℕ) (c : Change) → HasRows old v → v.last ≤ t → t ≤ last_moment →
        Allows v t c → IsChangeInLimits v.external c → new.schema ≡ vault_schema v.external →
        AreSameRows (edit_of v t c (rows_in v.external old)) (rows_in v.external new) → HasRows new (changed v t c) }
{}

/// The head that a key has after the removal of one of its held entries, by the head that it had: none
/// where it held that entry alone, the same newest where that was another, and one entry fewer always.
pub fn heads_after_a_removal()
    ensures alone { (v : Vault) (id : ℕ) (e : Entry) (head : Head) → Sound v → entry_of v id ≡ Some e → e.removal ≡ None →
        head_of v e.bucket e.key ≡ Some head → head.count ≡ 1 → head_over (others_at v id e.bucket e.key) ≡ None }
    ensures older { (v : Vault) (id : ℕ) (e : Entry) (head : Head) → Sound v → entry_of v id ≡ Some e → e.removal ≡ None →
        head_of v e.bucket e.key ≡ Some head → head.newest ≢ id →
        head_over (others_at v id e.bucket e.key) ≡ Some (record { newest = head.newest; count = head.count - 1 }) }
    ensures fewer { (v : Vault) (id : ℕ) (e : Entry) (head new : Head) → Sound v → entry_of v id ≡ Some e → e.removal ≡ None →
        head_of v e.bucket e.key ≡ Some head → head_over (others_at v id e.bucket e.key) ≡ Some new →
        new.count + 1 ≡ head.count }
{}
