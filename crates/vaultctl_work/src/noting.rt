//! A server that notes each change in a journal.
ghost use Rattle.std.specs.Prelude.{◌≡◌, ◌≢◌, IfErr, IfOk, Ok, false};
ghost use Rattle.vaultctl_replay.specs.Entries.{is_open};
ghost use Rattle.vaultctl_work.specs.Done.{IsServed};
ghost use Rattle.vaultctl_work.specs.Noted.{IsNoted};
ghost use Rattle.vaultctl_work.specs.Outcomes as spec;

use crate::saying::say;
use crate::serving::serve_heard;
use std::fs::{self, File, OpenOptions};
use std::io::{self, ErrorKind, Write};
use std::os::unix::fs::OpenOptionsExt;
use vault_core::hearing::Hears;
use vault_core_model::keeper::Keeper;
use vaultctl_commands::fault::JobFault;
use vaultctl_commands::outcome::Outcome;
use vaultctl_job::job::ServeJob;
use vaultctl_replay::journal_laws::journals_lead_to_the_vault;
use vaultctl_replay::{Journal, JournalState};

/// A journal has what is put into the vault: so its owner alone may read and write it.
const OWNERS_ALONE: u32 = 0o600;

/// The file of a new journal. One that is there is refused: after a crash the vault may have what the last command changed,
/// or a part of it, of which that one has no line.
fn open_new(rt: &HostRuntime, path: &str) -> io::Result<File> {
    OpenOptions::new()
        .append(true)
        .create_new(true)
        .mode(OWNERS_ALONE)
        .open(rt, path)
}

/// Why no journal can be made, and what to do.
fn unmade(kind: ErrorKind) -> &'static str {
    match kind {
        ErrorKind::AlreadyExists => {
            "--journal: something is at that path: a journal and a copy of the vault begin together, so make a new copy, and give a new path"
        }
        ErrorKind::NotFound | ErrorKind::NotADirectory => {
            "--journal: the folder of that path isn't there: check the path, or make the folder"
        }
        ErrorKind::PermissionDenied | ErrorKind::ReadOnlyFilesystem => {
            "--journal: this user may not make files there: give another path, or change the folder's mode"
        }
        _ => "--journal: no file can be made there: look at the path, and at the disk's free space",
    }
}

/// Says in words why a journal doesn't go on, where it doesn't.
fn say_ended<E: Write>(err: &mut E, state: JournalState) {
    match state {
        JournalState::Open => {}
        JournalState::Ended => say(
            err,
            "--journal: it has ended, as no line makes the vault's last change again, such as that of a lifecycle run which a fault stopped: make a new copy of the vault, and a new journal",
        ),
        JournalState::Lost => say(
            err,
            "--journal: it can't be written, as on a full disk, or where memory is wanting, so the vault's last change isn't in it: make room, a new copy of the vault, and a new journal",
        ),
    }
}

/// What came of a server whose journal goes on, or doesn't.
fn with_journal(goes_on: bool, ended: Result<Outcome, JobFault>) -> Result<Outcome, JobFault>
    ensures { result ≡ spec.with_journal goes_on ended }
{
    match ended {
        Ok(_) if !goes_on => Err(JobFault::Write),
        other => other,
    }
}

/// Serves what the job asks for, and notes each change in the journal. The server ends where the journal doesn't go on,
/// and says so in words.
///
/// The faults are those of `serve_heard`, and `Write` where the journal doesn't go on.
fn serve_noted<K: Keeper, W: Write, E: Write>(
    rt: &HostRuntime,
    keeper: &mut K,
    journal: &mut Journal<W>,
    job: &ServeJob,
    err: &mut E,
) -> Result<Outcome, JobFault>
    ensures done { K.is_honest keeper.new → K.is_honest keeper.old × IsServed job.now (K.vault keeper.old) (K.vault keeper.new) }
    // By the journal's lines a copy of the vault of its beginning becomes the vault, or the one before the last command.
    ensures noted { K.is_honest keeper.new → IsNoted W.Write K.Kept journal.old journal.new (K.vault keeper.old) (K.vault keeper.new) }
    // Where the journal doesn't go on, that is reported.
    ensures open { is_open journal.new.state ≡ false → result ≢ Ok Outcome.Done }
{
    let ended = serve_heard(rt, keeper, journal, job, err);
    journals_lead_to_the_vault::<W, K>();
    say_ended(err, journal.state);
    with_journal(journal.goes_on(), ended)
}

/// A new journal at that path, which goes to a file of its own. Where none can be made, why is said in words.
pub fn new_journal<E: Write>(
    rt: &HostRuntime,
    path: &str,
    err: &mut E,
) -> Result<Journal<File>, JobFault>
    ensures open { IfOk result (λ journal. journal.state ≡ JournalState.Open) }
    ensures err { IfErr result (λ fault. fault ≡ JobFault.Device) }
{
    match open_new(rt, path) {
        Ok(file) => Ok(Journal::new(file)),
        Err(error) => {
            say(err, unmade(error.kind()));
            Err(JobFault::Device)
        }
    }
}

/// Serves what the job asks for, and notes each change in the journal, whose file is at that path. Where nothing is
/// served, no file stays there.
///
/// The faults are those of `serve_noted`.
pub fn serve_journal<K: Keeper, W: Write, E: Write>(
    rt: &HostRuntime,
    keeper: &mut K,
    job: &ServeJob,
    path: &str,
    journal: &mut Journal<W>,
    err: &mut E,
) -> Result<Outcome, JobFault>
    ensures done { K.is_honest keeper.new → K.is_honest keeper.old × IsServed job.now (K.vault keeper.old) (K.vault keeper.new) }
    // By the journal's lines a copy of the vault of its beginning becomes the vault, or the one before the last command.
    ensures noted { K.is_honest keeper.new → IsNoted W.Write K.Kept journal.old journal.new (K.vault keeper.old) (K.vault keeper.new) }
    // Where the journal doesn't go on, that is reported.
    ensures open { is_open journal.new.state ≡ false → result ≢ Ok Outcome.Done }
{
    let ended = serve_noted(rt, keeper, journal, job, err);
    if matches!(ended, Err(JobFault::Device | JobFault::Memory)) {
        let _ = fs::remove_file(rt, path);
    }
    ended
}
