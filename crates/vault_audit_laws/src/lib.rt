//! Laws of a vault's tables: their rows spell at most one vault, and what a row names is there. Each is the
//! contract of a public function that does nothing, but for those of `connection`, which hand on what it promises.
#![tactic(auto)]

pub mod connection;
pub mod parts;

ghost use Rattle.std.specs.Prelude.{◌≡◌, ℕ, List, map, IsSome, IsTrue, IsPermutation};
ghost use Rattle.std.specs.List.{AllByRecursion};
ghost use Rattle.sqlite_value.specs.declared.value.Value.TheVariants.{Text};
ghost use Rattle.sqlite_value.specs.Order.{column};
ghost use Rattle.sqlite.specs.Effect.{Database, IsDatabase};
ghost use Rattle.vault_rules.specs.Rules.{passes_if_given};
ghost use Rattle.vault_core_model.specs.declared.records.Bucket.{Bucket};
ghost use Rattle.vault_core_model.specs.declared.records.Caller.{Caller};
ghost use Rattle.vault_core_model.specs.declared.records.Entry.{Entry};
ghost use Rattle.vault_core_model.specs.Vault.{Vault, config_in};
ghost use Rattle.vault_audit_model.specs.declared.schema.SchemaVersion.{SchemaVersion};
ghost use Rattle.vault_audit_model.specs.Rows.{caller_row, bucket_row, entry_row, caller_columns, bucket_columns, entry_columns};
ghost use Rattle.vault_audit_model.specs.Spells.{SpellsAs, Spells, bucket_of, tenure_rows_of, tenure_rows_in};
ghost use Rattle.vault_audit_model.specs.Tables.{schema_of, departments_tree, callers_tree, buckets_tree, entries_tree};
ghost use Rattle.vault_audit_model.specs.Tenures.{IsUnmovedIn};
ghost use Rattle.vault_audit_laws.specs.Ties.{AreTied, is_among};

/// The rows of a database of a schema version spell at most one vault, and so do those of a vault's file, which registers
/// contents that are kept outside or does not.
pub fn one_vault()
    ensures versioned { (n : SchemaVersion) (db : Database) (v w : Vault) → SpellsAs n db v → SpellsAs n db w → v ≡ w }
    ensures filed { (db : Database) (v w : Vault) → Spells db v → Spells db w → v ≡ w }
{}

/// In a database that obeys the schema of a vault, what a row names stands in its table.
pub fn live_tables_are_tied()
    ensures { (n : SchemaVersion) (db : Database) → IsDatabase db → db.schema ≡ schema_of n → AreTied n db }
{}

/// Where it does, the records that the rows hold have what they name: a caller the department, if it has
/// one, a bucket its department, and an entry its bucket; a tenure its department, where the buckets that state it
/// without a row have theirs.
pub fn tied_records_have_what_they_name()
    ensures employed { (n : SchemaVersion) (db : Database) (departments : List (List ℕ)) (callers : List Caller) → AreTied n db →
        IsPermutation (map (λ d. Text d) departments) (map (λ r. column r 1) (db.trees departments_tree)) →
        IsPermutation (map caller_row callers) (map caller_columns (db.trees callers_tree)) →
        AllByRecursion (λ c. IsTrue (passes_if_given (is_among departments) c.dept)) callers }
    ensures owned { (n : SchemaVersion) (db : Database) (departments : List (List ℕ)) (buckets : List Bucket) → AreTied n db →
        IsPermutation (map (λ d. Text d) departments) (map (λ r. column r 1) (db.trees departments_tree)) →
        IsPermutation (map (λ b. bucket_row (bucket_of b)) buckets) (map bucket_columns (db.trees buckets_tree)) →
        AllByRecursion (λ b. IsTrue (is_among departments b.config.dept)) buckets }
    ensures placed { (n : SchemaVersion) (db : Database) (buckets : List Bucket) (entries : List Entry) → AreTied n db →
        IsPermutation (map (λ b. bucket_row (bucket_of b)) buckets) (map bucket_columns (db.trees buckets_tree)) →
        IsPermutation (map entry_row entries) (map entry_columns (db.trees entries_tree)) →
        AllByRecursion (λ e. IsSome (config_in buckets e.bucket)) entries }
    ensures tenured { (n : SchemaVersion) (db : Database) (departments : List (List ℕ)) (v : Vault) → AreTied n db →
        IsPermutation (map (λ d. Text d) departments) (map (λ r. column r 1) (db.trees departments_tree)) →
        IsPermutation (tenure_rows_of n v) (tenure_rows_in n db) → IsUnmovedIn n v →
        AllByRecursion (λ b. IsTrue (is_among departments b.config.dept)) v.buckets →
        AllByRecursion (λ h. AllByRecursion (λ t. IsTrue (is_among departments t.dept)) h.tenures) v.histories }
{}
