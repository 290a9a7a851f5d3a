//! Commands carried out over a vault in tables, from tables to tables.

ghost use Rattle.std.specs.Prelude.{◌≡◌, ◌≢◌, ◌⊎◌, false, IfOk, IfErr};
ghost use Rattle.sqlite.specs.Held.{state};
ghost use Rattle.sqlite.specs.State.{HasCleanDisk, Survives};
ghost use Rattle.vault_base.specs.declared.refusal.Table.{Table};
ghost use Rattle.vault_core_model.specs.Vault.{Vault};
ghost use Rattle.vault_audit.specs.Health.{IsHealthy};
ghost use Rattle.vault_audit.specs.Whole.{IsReported};
ghost use Rattle.vault_audit_model.specs.Spells.{AreSound};
ghost use Rattle.vault_store_apply.specs.Left.{LeavesAlone};
ghost use Rattle.vault_store.specs.CarriedOut.{AreCarriedOut};
ghost use Rattle.vault_store.specs.Kept.{StandsFor};

use crate::sql_keeper::SqlKeeper;
use sqlite::{Alter, Connection};
use std::alloc::Global;
use vault_base::refusal::Refusal;
use vault_core::run::run;
use vault_core_model::command::Timed;
use vault_core_model::reply::Reply;

/// Opens the vault in a connection's tables, carries commands out one after another, and hands the
/// connection back with a reply for each.
///
/// The errors are those of `SqlKeeper::open`, and `Memory` where there was none for the replies: then no
/// command was carried out.
pub fn run_in_tables<S: Alter>(
    alloc: Global,
    conn: Connection<S>,
    commands: &[Timed],
) -> Result<(Vec<Reply>, Connection<S>), (Refusal, Connection<S>)>
    // The replies are those of the machine from the vault that the tables spelled. While the connection is open the tables spell the vault that it comes to, and a crash leaves that alone; where a
    // failure has shut it, a crash leaves that, or it with one change more, which was refused after all that it has.
    ensures run { IfOk result (λ done. HasCleanDisk (state S.Store done.1) → (v : Vault) → AreSound (state S.Store conn).now v →
        ∥ AreCarriedOut S.Store done.1 v commands.now done.0.items ∥₁) }
    // Commands are carried out over sound tables alone.
    ensures sound { IfOk result (λ done. HasCleanDisk (state S.Store done.1) → (v : Vault) × AreSound (state S.Store conn).now v) }
    ensures reported { IfErr result (λ e. IsReported e.0) }
    // A store that works, outside a transaction, is never reported as one that failed.
    ensures healthy { conn.in_transaction ≡ false → IfErr result (λ e. IsHealthy (state S.Store e.1) → e.0 ≢ Refusal.Device) }
    // What is reported as damaged spells no vault.
    ensures damaged { IfErr result (λ e. HasCleanDisk (state S.Store e.1) → (t : Table) → e.0 ≡ Refusal.Damaged t → (v : Vault) → ¬ AreSound (state S.Store conn).now v) }
    // Where it is refused, a crash leaves nothing but what it could leave before, or the tables spelled a vault and spell it still, and a crash leaves that alone.
    ensures refused { IfErr result (λ e. HasCleanDisk (state S.Store e.1) →
        ∥ Survives (state S.Store conn) (state S.Store e.1) (λ _. ⊥)
        ⊎ ((v : Vault) × AreSound (state S.Store conn).now v × StandsFor (state S.Store e.1) v × LeavesAlone (state S.Store e.1) v) ∥₁) }
{
    let mut keeper = match SqlKeeper::open(alloc, conn) {
        Ok(keeper) => keeper,
        Err(refused) => return Err(refused),
    };
    match run(alloc, &mut keeper, commands) {
        Ok(replies) => Ok((replies, keeper.into_connection())),
        Err(_) => Err((Refusal::Memory, keeper.into_connection())),
    }
}
