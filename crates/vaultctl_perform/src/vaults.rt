//! The vault in a file: it is opened, a job is done with it, and it is closed.
ghost use Rattle.std.specs.Prelude.{◌≡◌, ◌⊎◌, IfOk, OnOk, OnErr};
ghost use Rattle.sqlite.specs.Files.{file_state, over_files};
ghost use Rattle.sqlite.specs.State.{HasCleanDisk};
ghost use Rattle.sqlite_wal.specs.Files.{image_at};
ghost use Rattle.vault_store.specs.VaultOf.{vault_of};
ghost use Rattle.vaultctl_machine.specs.Closings.{Carries};
ghost use Rattle.vaultctl_machine.specs.Files.{IsFoundIn};
ghost use Rattle.vaultctl_machine.specs.VaultCounts.{with_opened};
ghost use Rattle.vaultctl_perform.specs.Done.{IsCarriedOut, IsGiven, IsUngiven};
ghost use Rattle.vaultctl_perform.specs.Status.{Ends};
ghost use Rattle.vaultctl_work.specs.Scene.{scene};

use crate::call::Task;
use crate::messages::{print_cause, say_device, status};
use sqlite::Start;
use std::io::{Read, Write};
use vault_core_model::keeper::Keeper;
use vaultctl_commands::fault::JobFault;
use vaultctl_commands::outcome::Outcome;
use vaultctl_machine::open_error::OpenError;
use vaultctl_machine::vaults::{FileMachine, FileVault};
use vaultctl_machine::watched_keeper::WatchedKeeper;
use vaultctl_machine_stores::opened_files::OpenedFiles;
use vaultctl_machine_stores::watch::Watch;
use vaultctl_work::work::{Work, work_with};

/// A vault in files, which looks before each change whether they are still those that were opened.
type WatchedVault<'a, S> = WatchedKeeper<FileVault<S>, OpenedFiles<'a>>;

/// Closes a vault that was opened just now.
pub fn close_found<A: Start, B: Start>(machine: &mut FileMachine<'_, A, B>, vault: FileVault<A>)
    requires found { HasCleanDisk (file_state vault.conn) → IsFoundIn (image_at A.Start) (vault_of over_files vault) }
    ensures given { machine.new.given ≡ machine.old.given }
    ensures done { Carries (image_at A.Start) machine.old.closed.items machine.new.closed.items (λ v w. w ≡ v) }
{
    drop(machine.close(vault));
}

/// Watches the files of a vault, which was opened just now. Where one can't see them, the vault is closed.
fn watch<'a, A: Start, B: Start>(
    machine: &mut FileMachine<'a, A, B>,
    file: &str,
    vault: FileVault<A>,
) -> Result<WatchedVault<'a, A>, OpenError>
    requires found { HasCleanDisk (file_state vault.conn) → IsFoundIn (image_at A.Start) (vault_of over_files vault) }
    ensures machine { OnOk result (machine.new ≡ machine.old) }
    ensures below { IfOk result (λ it. it.keeper ≡ vault) }
    ensures unseen { OnErr result ((machine.new.given ≡ machine.old.given) × Carries (image_at A.Start) machine.old.closed.items machine.new.closed.items (λ v w. w ≡ v)) }
{
    match OpenedFiles::at(machine.runtime(), file) {
        Ok(files) => Ok(WatchedKeeper::new(vault, files)),
        Err(refusal) => {
            close_found(machine, vault);
            Err(OpenError::Refused(refusal))
        }
    }
}

/// Opens the vault in a file, and watches it.
fn open_watched<'a, A: Start, B: Start>(
    machine: &mut FileMachine<'a, A, B>,
    file: &str,
    start: A,
) -> Result<WatchedVault<'a, A>, OpenError>
    ensures given { OnOk result (machine.new.given ≡ with_opened machine.old.given) }
    ensures closed { OnOk result (machine.new.closed ≡ machine.old.closed) }
    ensures found { IfOk result (λ it. HasCleanDisk (file_state it.keeper.conn) → IsFoundIn (image_at A.Start) (vault_of over_files it.keeper)) }
    ensures unseen { OnErr result (IsUngiven machine.old machine.new ⊎ IsGiven (image_at A.Start) machine.old machine.new (λ v w. w ≡ v)) }
{
    match machine.open(file, start) {
        Ok(vault) => watch(machine, file, vault),
        Err(cause) => Err(cause),
    }
}

/// Does it with a keeper whose files are watched, and returns the keeper below and what came of it.
///
/// The error within is the fault that stopped it.
fn work_watched<K: Keeper, V: Watch + Drop, T: Work, R: Read, W: Write, E: Write>(
    rt: &HostRuntime,
    watched: WatchedKeeper<K, V>,
    work: &T,
    reader: &mut R,
    out: &mut W,
    err: &mut E,
) -> (K, Result<Outcome, JobFault>)
    ensures printed { T.prints result.1 (W.contents out.old) (W.contents out.new) }
    ensures done { K.is_honest result.0 → K.is_honest watched.keeper
        × T.does work.now (scene (K.vault watched.keeper) (R.remaining reader.old) (W.contents out.old))
        (scene (K.vault result.0) (R.remaining reader.new) (W.contents out.new)) result.1 }
{
    let (watched, outcome) = work_with(rt, watched, work, reader, out, err);
    (watched.into_keeper(), outcome)
}

/// Does it with a vault, which was opened just now, and closes the vault.
fn with_vault<A: Start, B: Start, T: Work, R: Read, W: Write, E: Write>(
    machine: &mut FileMachine<'_, A, B>,
    vault: WatchedVault<'_, A>,
    work: &T,
    reader: &mut R,
    out: &mut W,
    err: &mut E,
) -> Result<Outcome, JobFault>
    requires found { HasCleanDisk (file_state vault.keeper.conn) → IsFoundIn (image_at A.Start) (vault_of over_files vault.keeper) }
    ensures printed { T.prints result (W.contents out.old) (W.contents out.new) }
    ensures given { machine.new.given ≡ machine.old.given }
    ensures done { Carries (image_at A.Start) machine.old.closed.items machine.new.closed.items
        (λ v w. T.does work.now (scene v (R.remaining reader.old) (W.contents out.old)) (scene w (R.remaining reader.new) (W.contents out.new)) result) }
{
    let (vault, outcome) = work_watched(machine.runtime(), vault, work, reader, out, err);
    drop(machine.close(vault));
    outcome
}

/// Does it with the vault in the file of the call, and answers the exit status.
pub fn in_vault<A: Start, B: Start, T: Work, R: Read, W: Write, E: Write>(
    machine: &mut FileMachine<'_, A, B>,
    start: A,
    task: Task<'_, T>,
    reader: &mut R,
    out: &mut W,
    err: &mut E,
) -> u8
    // Whatever comes of it: it was done with the vault that was found in the file, or that couldn't be opened or watched, and
    // nothing was printed or read.
    ensures performed { Ends result (λ outcome. IsCarriedOut (image_at A.Start) machine.old machine.new outcome
        ((R.remaining reader.new ≡ R.remaining reader.old) × (W.contents out.new ≡ W.contents out.old))
        (T.prints outcome (W.contents out.old) (W.contents out.new))
        (λ v w. T.does task.entry.work.now (scene v (R.remaining reader.old) (W.contents out.old)) (scene w (R.remaining reader.new) (W.contents out.new)) outcome)) }
{
    let Task { call, work } = task;
    match open_watched(machine, call.file, start) {
        Ok(vault) => {
            let outcome = with_vault(machine, vault, work, reader, out, err);
            let ended = status(err, call.subcommand, outcome);
            say_device(err, call.subcommand, outcome);
            ended
        }
        Err(cause) => print_cause(err, "open", cause),
    }
}
