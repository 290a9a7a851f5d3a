//! The vault that the rows of the tables spell, put together from what each table says by itself.
//! Its one law is the contract of a public function that does nothing.

ghost use Rattle.std.specs.Prelude.{ℕ, List};
ghost use Rattle.sqlite.specs.Effect.{Database};
ghost use Rattle.vault_core_model.specs.declared.records.Bucket.{Bucket};
ghost use Rattle.vault_core_model.specs.declared.records.Caller.{Caller};
ghost use Rattle.vault_core_model.specs.declared.records.Entry.{Entry};
ghost use Rattle.vault_core_model.specs.declared.records.History.{History};
ghost use Rattle.vault_core_model.specs.declared.records.Note.{Note};
ghost use Rattle.vault_audit_model.specs.declared.rows.MetaRow.{MetaRow};
ghost use Rattle.vault_audit_model.specs.declared.schema.SchemaVersion.{SchemaVersion};
ghost use Rattle.vault_audit_model.specs.Spells.{SpellsAs};
ghost use Rattle.vault_audit_laws.specs.Parts.{AreParts, vault_of};

/// The rows spell the vault that their parts make.
pub fn parts_make_the_vault()
    ensures { (ed : SchemaVersion) (db : Database) (m : MetaRow) (departments : List (List ℕ)) (callers : List Caller) (buckets : List Bucket)
        (notes : List Note) (entries : List Entry) (contents settings tenures : List History) →
        AreParts ed db m departments callers buckets notes entries contents settings tenures →
        SpellsAs ed db (vault_of ed m departments callers buckets notes contents settings tenures) }
{}
