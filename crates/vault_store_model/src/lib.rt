//! Which vault the tables of a connection spell, what edits of single tables make of the rows of all
//! of them, and what is known of a vault from what was read last.
#![tactic(auto)]

pub mod changes;
pub mod known;

ghost use Rattle.std.specs.Prelude.{◌↔◌};
ghost use Rattle.sqlite.specs.Effect.{Database};
ghost use Rattle.vault_core_model.specs.Vault.{Vault};
ghost use Rattle.vault_audit_model.specs.Spells.{AreSound};
ghost use Rattle.vault_store_model.specs.Rows.{HasRows};

/// The tables are sound and spell a vault exactly where each of them has the rows of that vault, in any
/// order.
pub fn sound_tables_have_the_rows_of_their_vault()
    ensures { (db : Database) (v : Vault) → AreSound db v ↔ HasRows db v }
{}
