//! What is put in as one row of a table, and the statement that does it.
ghost use Rattle.std.specs.Prelude.{◌≡◌};
ghost use Rattle.vault_store_model.specs.Edits.{with_row};
ghost use Rattle.vault_store_edits.specs.Inside.{IsEdit};

use sqlite::{Alter, Error, Transaction};

/// What is put in as one row of a table.
pub(crate) trait Put {
    ghost use Rattle.std.specs.Prelude.{◌≡◌, ℕ, Bool, Result, Ok, IsTrue, IfOk};
    ghost use Rattle.sqlite_value.specs.Order.{Row as Values};
    ghost use Rattle.sqlite.specs.State.{HasCleanDisk, ExecutesInside, Survives};
    ghost use Rattle.sqlite.specs.Held.{state};
    ghost use Rattle.sqlite.specs.declared.error.Error.{Error as Fault};
    ghost use Rattle.vault_base.specs.declared.refusal.Table.{Table};
    ghost use Rattle.vault_audit_schema.specs.Texts.{insert_text};
    ghost use Rattle.vault_store_edits.specs.Inserts.{Inserts};
    ghost use Rattle.vault_store_edits.specs.Trees.{has_table, made_as};
    ghost use Rattle.vault_store_edits.specs.Inside.{CommitsNothing};

    // The table, and what is in each of its columns.
    ghost table: { Table };

    ghost as_row: { Self → Values };

    // What the types of its parts say of it, by whether it was put in.
    ghost typed: { Self → Result ℕ Fault → Type 0 };

    /// Runs the statement that puts the row in. `TooBig` where one of its numbers is 2^63 or more.
    fn insert<S: Alter>(&self, tx: &mut Transaction<'_, S>) -> Result<usize, Error>
        ensures same_reference { tx.new.conn.ghost_name ≡ tx.old.conn.ghost_name }
        ensures ran { (external : Bool) → HasCleanDisk (state S.Store tx.new.conn.now) → IsTrue tx.old.conn.now.in_transaction
            → IfOk result (λ count. ExecutesInside 0 (insert_text (made_as external table)) (as_row self.now) (state S.Store tx.old.conn.now) (state S.Store tx.new.conn.now) (Ok count)) }
        ensures kept { CommitsNothing S.Store tx.old.conn.now tx.new.conn.now result }
        ensures survives { Survives (state S.Store tx.old.conn.now) (state S.Store tx.new.conn.now) (λ _. ⊥) }
        ensures limits { typed self.now result };

    // The statement puts that row into that table, in each vault that has the table.
    ghost inserts: { (external : Bool) → IsTrue (has_table external table) → (x : Self) → Inserts external table (made_as external table) (as_row x) };
}

/// Puts one row in.
pub(crate) fn put_row<S: Alter, P: Put>(
    tx: &mut Transaction<'_, S>,
    what: &P,
) -> Result<usize, Error>
    ensures same_reference { tx.new.conn.ghost_name ≡ tx.old.conn.ghost_name }
    ensures edit { IsEdit S.Store tx.old.conn.now tx.new.conn.now result (with_row P.table (P.as_row what.now)) }
    ensures limits { P.typed what.now result }
{
    what.insert(tx)
}
