//! What a crash leaves of a vault's files, as the next opening finds it.
ghost use Rattle.std.specs.Prelude.{IfOk, IsTrue};
ghost use Rattle.sqlite_store.specs.FileStore.{view};
ghost use Rattle.sqlite_trees.specs.View.{IsClean, IsQuiet, IsRolledBack};
ghost use Rattle.sqlite_wal.specs.Files.{image_at};
ghost use Rattle.sqlite.specs.Files.{file_state};
ghost use Rattle.sqlite.specs.Held.{state};
ghost use Rattle.sqlite.specs.State.{HasCleanDisk};
ghost use Rattle.vault_store.specs.VaultOf.{vault_of};
ghost use Rattle.vault_store_apply.specs.Left.{LeavesAlone};
ghost use Rattle.vaultctl_machine.specs.Openings.{FindsWhatWasLeft, IsFoundAgain, MayLeaveFiles};

use crate::open_error::OpenError;
use crate::vaults::{FileMachine, FileVault, VaultStore};
use sqlite::{Alter, FileStore, Start};
use sqlite_disk::Disk;
use vault_store::sql_keeper::SqlKeeper;
use vaultctl_machine_stores::progress_disk::ProgressFile;

/// The store of a vault, which is let go of.
fn store_of<S: Alter + Drop>(vault: SqlKeeper<S>) -> S
    ensures numbered { IsClean (S.Store.view result) → IsTrue (S.Store.view result).is_numbered }
    ensures undone { IsRolledBack (S.Store.view vault.conn.store) (S.Store.view result) }
    ensures quiet { IsQuiet S.Store.view S.Store.faults S.Store.recovers S.Store.is_shielded vault.conn.store result }
    ensures alone { ∥ (HasCleanDisk (state S.Store vault.conn) → IsTrue (state S.Store vault.conn).is_open → LeavesAlone (state S.Store vault.conn) (vault_of S.Store vault)) ∥₁ }
{
    vault.into_connection().into_store()
}

/// Lets go of a vault in files and copies nothing, as a crash does. The answer is its store.
///
/// Whatever a crash may leave of the files at that moment, the next opening finds the vault in it; where a failure had shut
/// the connection, that vault or it with one refused change. The files of that opening are of a type of their own.
pub fn openings_follow<D: Disk + Drop, E: Disk>(vault: SqlKeeper<FileStore<D>>) -> FileStore<D>
    ensures next { FindsWhatWasLeft vault E.Disk result }
{
    store_of(vault)
}

/// Lets go of a vault in files as a crash does, and opens the vault at a path. `start` is what the files there
/// hold. The answer is the store that was let go of, and the vault that was opened.
///
/// The errors are those of `Machine::open`.
pub fn open_after_a_crash<A: Start, B: Start>(
    machine: &mut FileMachine<'_, B, A>,
    lost: FileVault<A>,
    path: &str,
    start: B,
) -> (VaultStore<A>, Result<FileVault<B>, OpenError>)
    // Where the files hold what a crash may leave of the vault that was lost, that vault is found again.
    ensures again { IsClean (view result.0) → MayLeaveFiles lost (image_at B.Start) → IfOk result.1 (λ vault. HasCleanDisk (file_state vault.conn) → IsFoundAgain lost (file_state vault.conn)) }
{
    let left = openings_follow::<_, ProgressFile<B>>(lost);
    (left, machine.open(path, start))
}
