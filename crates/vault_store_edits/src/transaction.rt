//! An edit of the tables, made as a whole or not at all.
ghost use Rattle.std.specs.Prelude.{◌≡◌, Bool, false, IsTrue, OnOk, OnErr};
ghost use Rattle.sqlite_trees.specs.Tree.{Trees};
ghost use Rattle.sqlite.specs.Effect.{IsDatabase};
ghost use Rattle.sqlite.specs.Held.{state};
ghost use Rattle.sqlite.specs.State.{HasCleanDisk, IsLive, KeepsCommit, Survives};
ghost use Rattle.vault_audit_model.specs.Tables.{vault_schema};
ghost use Rattle.vault_store_model.specs.Edits.{Edits};
ghost use Rattle.vault_store_edits.specs.Commits.{CommitsEdit, KeepsIfErr, MayCommitPart};
ghost use Rattle.vault_store_edits.specs.Ready.{IsReady};
ghost use Rattle.vault_store_edits.specs.Inside.{CommitsNoPart};

use crate::laws::connection_is_open;
use sqlite::{Alter, Connection, Error, Transaction};
use vault_audit_laws::connection::tables_obey_their_schema;

/// What is done inside a transaction, over the tables of a vault: one that registers contents which are kept outside, or not.
pub trait Part<S: Alter> {
    ghost use Rattle.vault_store_model.specs.Rows.{Rows};

    /// What it makes of the rows of the tables.
    ghost edit: { Self → Rows → Rows };

    /// What the types of the values say that it writes, known once it has written them.
    ghost limits: { Self → Type 0 };

    fn make(&self, tx: &mut Transaction<'_, S>) -> Result<(), Error>
        ensures same_reference { tx.new.conn.ghost_name ≡ tx.old.conn.ghost_name }
        ensures edits { (external : Bool) → HasCleanDisk (state S.Store tx.new.conn.now) → IsTrue tx.old.conn.now.in_transaction → IsReady external (state S.Store tx.old.conn.now)
            → OnOk result (Edits external (state S.Store tx.old.conn.now) (state S.Store tx.new.conn.now) (edit self.now) × IsDatabase (state S.Store tx.new.conn.now).now) }
        ensures limited { OnOk result (limits self.now) }
        ensures kept { CommitsNoPart S.Store tx.old.conn.now tx.new.conn.now result }
        ensures survives { Survives (state S.Store tx.old.conn.now) (state S.Store tx.new.conn.now) (λ _. ⊥) };
}

/// Makes the part where the connection is open.
fn make_open<S: Alter, P: Part<S>>(tx: &mut Transaction<'_, S>, part: &P) -> Result<(), Error>
    ensures same_reference { tx.new.conn.ghost_name ≡ tx.old.conn.ghost_name }
    ensures edits { HasCleanDisk (state S.Store tx.new.conn.now) → IsTrue tx.old.conn.now.in_transaction → IsLive (state S.Store tx.old.conn.now)
        → OnOk result (IsTrue (state S.Store tx.old.conn.now).is_open × ((external : Bool) → (state S.Store tx.old.conn.now).now.schema ≡ vault_schema external → Edits external (state S.Store tx.old.conn.now) (state S.Store tx.new.conn.now) (P.edit part.now) × IsDatabase (state S.Store tx.new.conn.now).now)) }
    ensures limited { OnOk result (P.limits part.now) }
    ensures kept { (external : Bool) → HasCleanDisk (state S.Store tx.new.conn.now) → IsTrue tx.old.conn.now.in_transaction → IsLive (state S.Store tx.old.conn.now)
        → OnErr result ((IsTrue (state S.Store tx.old.conn.now).is_open → (state S.Store tx.old.conn.now).now.schema ≡ vault_schema external) → KeepsCommit (state S.Store tx.old.conn.now) (state S.Store tx.new.conn.now)) }
    ensures survives { Survives (state S.Store tx.old.conn.now) (state S.Store tx.new.conn.now) (λ _. ⊥) }
{
    connection_is_open(tx)?;
    part.make(tx)
}

/// Does it in a transaction of its own, which is committed; where that fails, the tables are as before.
pub fn transact<S: Alter, P: Part<S>>(conn: &mut Connection<S>, part: &P) -> Result<(), Error>
    requires { conn.old.in_transaction ≡ false }
    ensures mode { conn.new.in_transaction ≡ false }
    ensures open { HasCleanDisk (state S.Store conn.new) → OnOk result (IsTrue (state S.Store conn.old).is_open × IsTrue (state S.Store conn.new).is_open) }
    ensures done { CommitsEdit S.Store conn.old conn.new result (P.edit part.now) }
    ensures limited { OnOk result (P.limits part.now) }
    ensures nothing { KeepsIfErr S.Store conn.old conn.new result }
    // What a crash may leave after that are these tables alone.
    ensures alone { HasCleanDisk (state S.Store conn.new) → OnOk result ((trees : Trees) → (state S.Store conn.new).may_leave trees → trees ≡ (state S.Store conn.new).now.trees) }
    // What a crash may leave, at any moment of the call: what it could leave before, or the edited tables,
    // where all has been written.
    ensures crash { Survives (state S.Store conn.old) (state S.Store conn.new) (MayCommitPart (P.limits part.now) (state S.Store conn.old) (P.edit part.now)) }
{
    tables_obey_their_schema(conn);
    let mut tx = conn.transaction();
    make_open(&mut tx, part)?;
    tx.commit()
}
