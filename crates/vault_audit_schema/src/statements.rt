//! The statements that make the tables of a new vault, and the index of its entries.
ghost use Rattle.std.specs.Prelude.{Bool};
ghost use Rattle.vault_base.specs.declared.refusal.Table.{Table};
ghost use Rattle.vault_audit_schema.specs.Statements.{IsCreationOf, IsIndexCreation};

use crate::table::{
    BUCKETS, CALLERS, CONTENTS, DEPARTMENTS, ENTRIES, EXTERNAL, HEADS, INTAKE, META, RULES,
    SETTINGS, TENURES, THIRD_META,
};
use vault_base::refusal::Table;

/// The statement that makes a table of a vault's file, all those before it being there. They are made in the order of
/// `Table`'s variants, and the index of the entries before the last, which a file has if its vault registers contents that
/// are kept outside.
pub fn creation(external: bool, table: Table) -> &'static str
    ensures { IsCreationOf external table result.now }
{
    match table {
        Table::Meta => meta_creation(external),
        Table::Departments => DEPARTMENTS.creation,
        Table::Callers => CALLERS.creation,
        Table::Buckets => BUCKETS.creation,
        Table::Rules => RULES.creation,
        Table::Entries => ENTRIES.creation,
        Table::Contents => CONTENTS.creation,
        Table::Settings => SETTINGS.creation,
        Table::Intake => INTAKE.creation,
        Table::Heads => HEADS.creation,
        Table::Tenures => TENURES.creation,
        Table::External => EXTERNAL.creation,
    }
}

/// The one that makes `meta`.
fn meta_creation(external: bool) -> &'static str
    ensures { IsCreationOf external Table.Meta result.now }
{
    if external {
        META.creation
    } else {
        THIRD_META.creation
    }
}

/// The statement that makes the index of the entries, all tables being there but the last.
pub fn index_creation() -> &'static str
    ensures { (external : Bool) → IsIndexCreation external result.now }
{
    "CREATE INDEX entries_held ON entries (bucket, key, removed DESC)"
}
