//! The vault that the looks at the tables find, each by itself. Its one law is the contract of a public
//! function that does nothing.

ghost use Rattle.std.specs.Prelude.{ℕ, List};
ghost use Rattle.sqlite.specs.Effect.{Database};
ghost use Rattle.vault_core_model.specs.declared.records.Bucket.{Bucket};
ghost use Rattle.vault_core_model.specs.declared.records.Caller.{Caller};
ghost use Rattle.vault_core_model.specs.declared.records.Entry.{Entry};
ghost use Rattle.vault_core_model.specs.declared.records.History.{History};
ghost use Rattle.vault_core_model.specs.declared.records.Note.{Note};
ghost use Rattle.vault_audit_model.specs.declared.rows.DepartmentRow.{DepartmentRow};
ghost use Rattle.vault_audit_model.specs.declared.rows.MetaRow.{MetaRow};
ghost use Rattle.vault_audit_model.specs.declared.schema.SchemaVersion.{SchemaVersion};
ghost use Rattle.vault_audit_model.specs.Spells.{SpellsAs};
ghost use Rattle.vault_audit.specs.Found.{AreFound, found_vault, HaveSums};

/// What the looks find is a vault that the rows spell, and the rows of departments have the sums over
/// its tenures.
pub fn looks_find_a_vault()
    ensures spelled { (ed : SchemaVersion) (db : Database) (m : MetaRow) (departments : List DepartmentRow) (callers : List Caller) (buckets : List Bucket)
        (notes : List Note) (entries : List Entry) (contents settings tenures : List History) (summed : List (List ℕ)) →
        AreFound ed db m departments callers buckets notes entries contents settings tenures summed →
        SpellsAs ed db (found_vault ed m departments callers buckets notes contents settings tenures) }
    ensures sums { (ed : SchemaVersion) (db : Database) (m : MetaRow) (departments : List DepartmentRow) (callers : List Caller) (buckets : List Bucket)
        (notes : List Note) (entries : List Entry) (contents settings tenures : List History) (summed : List (List ℕ)) →
        AreFound ed db m departments callers buckets notes entries contents settings tenures summed →
        HaveSums ed db (found_vault ed m departments callers buckets notes contents settings tenures) }
{}
