//! Whether a failure has shut a connection.
ghost use Rattle.std.specs.Prelude.{◌≡◌, false};
ghost use Rattle.sqlite.specs.Held.{state};
ghost use Rattle.sqlite.specs.State.{Survives};
ghost use Rattle.vault_store_reads.specs.Quiet.{IsOpenIfOk};
ghost use Rattle.vault_store_reads.specs.Staying.{LeavesKept};
ghost use Rattle.vault_store_reads.specs.Wants.{WantsMemoryIfErr};

use sqlite::{Alter, Connection, Error};

/// Refuses a connection that a failure has shut; nothing is changed, and a crash leaves what it left before.
pub(crate) fn refuse_shut<S: Alter>(conn: &mut Connection<S>) -> Result<(), Error>
    ensures open { IsOpenIfOk S.Store conn.new result }
    ensures memory { WantsMemoryIfErr S.Store conn.old conn.new result }
    ensures leaves { LeavesKept S.Store conn.old conn.new }
    ensures mode { conn.old.in_transaction ≡ false → conn.new.in_transaction ≡ false }
    ensures survives { Survives (state S.Store conn.old) (state S.Store conn.new) (λ _. ⊥) }
{
    let _statement = conn.prepare("SELECT last FROM meta")?;
    Ok(())
}
