//! The first rows of a new vault.
ghost use Rattle.std.specs.Prelude.{◌≡◌};
ghost use Rattle.sqlite.specs.State.{Survives};
ghost use Rattle.sqlite.specs.Held.{state};
ghost use Rattle.vault_store_create.specs.Create.{HasAll, HasMetaRow, IsFilled, MovesInside, FailsForMemory};
ghost use Rattle.vault_store_create.specs.Listings.{first_meta};
ghost use Rattle.vault_store_edits.specs.Inside.{CommitsNothing};

use sqlite::{Alter, Error, Transaction};
use vault_audit_schema::{callers_columns, insert_text, meta_columns, third_insert_text};

/// The statement that puts the row of `meta` of a new vault in.
fn first_meta(external: bool) -> &'static str
    ensures { result.now ≡ first_meta external }
{
    if external {
        return meta_columns!(insert_text, " VALUES (1, 4, 0, 1, 0, 0, 1)");
    }
    meta_columns!(third_insert_text, " VALUES (1, 3, 0, 1, 0)")
}

/// Puts the row of `meta` into the empty tables: the schema's number, the moment 0, 1 for the first entry, and no move. In a
/// vault that registers contents which are kept outside, it also has the place 0, and 1 for done.
pub fn put_meta<S: Alter>(tx: &mut Transaction<'_, S>, external: bool) -> Result<usize, Error>
    ensures same_reference { tx.new.conn.ghost_name ≡ tx.old.conn.ghost_name }
    ensures made { MovesInside S.Store tx.old.conn.now tx.new.conn.now result (HasAll external) (HasMetaRow external) }
    ensures memory { FailsForMemory S.Store tx.old.conn.now tx.new.conn.now result (HasAll external) }
    ensures kept { CommitsNothing S.Store tx.old.conn.now tx.new.conn.now result }
    ensures survives { Survives (state S.Store tx.old.conn.now) (state S.Store tx.new.conn.now) (λ _. ⊥) }
{
    tx.execute(first_meta(external), &[])
}

/// Puts the one caller, `registrar`, in: of no department, with the right to administer alone, not closed.
pub fn put_registrar<S: Alter>(tx: &mut Transaction<'_, S>, external: bool) -> Result<usize, Error>
    ensures same_reference { tx.new.conn.ghost_name ≡ tx.old.conn.ghost_name }
    ensures made { MovesInside S.Store tx.old.conn.now tx.new.conn.now result (HasMetaRow external) (IsFilled external) }
    ensures memory { FailsForMemory S.Store tx.old.conn.now tx.new.conn.now result (HasMetaRow external) }
    ensures kept { CommitsNothing S.Store tx.old.conn.now tx.new.conn.now result }
    ensures survives { Survives (state S.Store tx.old.conn.now) (state S.Store tx.new.conn.now) (λ _. ⊥) }
{
    tx.execute(
        callers_columns!(insert_text, " VALUES ('registrar', NULL, 1, 0)"),
        &[],
    )
}
