//! What is seen of files after they weren't opened or made: the kit's errors don't say why.
ghost use Rattle.std.specs.Prelude.{◌≡◌};
ghost use Rattle.vaultctl_machine.specs.Faults as spec;

use crate::open_error::{OpenError, with_cause};
use std::fs::{self, Metadata, OpenOptions};
use std::io::{self, ErrorKind};
use std::os::unix::fs::MetadataExt;
use vault_base::refusal::Refusal;
use vaultctl_machine_stores::cause::Cause;
use vaultctl_machine_stores::places::place_at;

/// Why a path can't be looked at, or no file can be made there.
pub(crate) fn cause_of_kind(kind: ErrorKind) -> Option<Cause> {
    match kind {
        ErrorKind::NotFound | ErrorKind::NotADirectory => Some(Cause::NoFolder),
        ErrorKind::PermissionDenied | ErrorKind::ReadOnlyFilesystem => Some(Cause::ClosedFolder),
        ErrorKind::StorageFull | ErrorKind::QuotaExceeded => Some(Cause::Full),
        _ => None,
    }
}

/// Whether a file can't be opened for want of rights.
fn is_denied<F: Drop>(opened: io::Result<F>) -> bool {
    match opened {
        Ok(_) => false,
        Err(error) => matches!(
            error.kind(),
            ErrorKind::PermissionDenied | ErrorKind::ReadOnlyFilesystem
        ),
    }
}

/// Whether this user may not read a file.
fn is_unreadable(rt: &HostRuntime, file: &str) -> bool {
    is_denied(fs::open(rt, file))
}

/// Whether this user may not write a file that is there.
fn is_unwritable(rt: &HostRuntime, file: &str) -> bool {
    is_denied(OpenOptions::new().write(true).open(rt, file))
}

/// What stands beside a file, by the end of its name. None where memory is wanted, or it can't be looked at.
fn beside(rt: &HostRuntime, path: &str, end: &str) -> Option<io::Result<Metadata>> {
    let Ok(file) = fs::canonicalize(rt, path) else {
        return None;
    };
    match format!(in rt.alloc(); "{}{end}", file.as_str()) {
        Ok(name) => Some(fs::metadata(rt, name.as_str())),
        Err(_) => None,
    }
}

/// Whether a rollback journal is beside a file.
fn has_journal(rt: &HostRuntime, path: &str) -> bool {
    match beside(rt, path, "-journal") {
        Some(Ok(found)) => found.len() > 0,
        _ => false,
    }
}

/// Why the log of a file can't be opened or made.
fn look_at_log(rt: &HostRuntime, path: &str) -> Option<Cause> {
    match beside(rt, path, "-wal") {
        Some(Ok(found)) if found.nlink() > 1 => Some(Cause::HardLink),
        Some(Err(error)) if error.kind() == ErrorKind::NotFound => Some(Cause::NoLog),
        _ => None,
    }
}

/// Whether this user may not write the log of a file.
fn has_unwritable_log(rt: &HostRuntime, path: &str) -> bool {
    let Ok(file) = fs::canonicalize(rt, path) else {
        return false;
    };
    match format!(in rt.alloc(); "{}-wal", file.as_str()) {
        Ok(log) => is_unwritable(rt, log.as_str()),
        Err(_) => false,
    }
}

/// Why a file that is there can't be opened.
fn look_at_file(rt: &HostRuntime, path: &str) -> Option<Cause> {
    if is_unreadable(rt, path) {
        return Some(Cause::Unreadable);
    }
    if is_unwritable(rt, path) || has_unwritable_log(rt, path) {
        return Some(Cause::Unwritable);
    }
    if has_journal(rt, path) {
        return Some(Cause::Journal);
    }
    look_at_log(rt, path)
}

/// Why what a path leads to can't be opened.
fn look_at_found(rt: &HostRuntime, path: &str, found: Metadata) -> Option<Cause> {
    if found.is_dir() {
        return Some(Cause::Folder);
    }
    if !found.is_file() {
        return Some(Cause::NoPlainFile);
    }
    if found.nlink() > 1 {
        return Some(Cause::HardLink);
    }
    look_at_file(rt, path)
}

/// Why the files at a path can't be opened or made.
fn look_at(rt: &HostRuntime, path: &str) -> Option<Cause> {
    match fs::metadata(rt, path) {
        Ok(found) => look_at_found(rt, path, found),
        // A name of something other than a file, or a link that leads nowhere.
        Err(error) if error.kind() == ErrorKind::NotFound => None,
        Err(error) => cause_of_kind(error.kind()),
    }
}

/// Why no tables are opened in the files at a path.
fn look_inside(rt: &HostRuntime, path: &str) -> Option<Cause> {
    match place_at(rt, path) {
        Ok(place) => Some(place.why_without_tables()),
        Err(_) => None,
    }
}

/// Why no vault is made in the files at a path.
fn look_at_taken(rt: &HostRuntime, path: &str) -> Option<Cause> {
    match place_at(rt, path) {
        Ok(place) => Some(place.why_taken()),
        Err(_) => None,
    }
}

/// The cause of a refusal that is seen at the path.
fn seen_at(rt: &HostRuntime, path: &str, refusal: Refusal) -> Option<Cause> {
    match refusal {
        Refusal::Damaged(_) => look_inside(rt, path),
        Refusal::NameTaken => look_at_taken(rt, path),
        Refusal::Device => look_at(rt, path),
        _ => None,
    }
}

/// The same cause, with what is seen at the path where no other is known. It is reported as before.
pub(crate) fn looked_at(rt: &HostRuntime, path: &str, cause: OpenError) -> OpenError
    ensures refusal { spec.refusal_of result ≡ spec.refusal_of cause }
    ensures failure { spec.ReportsFailure cause → spec.ReportsFailure result }
{
    match cause {
        OpenError::Refused(refusal) => with_cause(refusal, seen_at(rt, path, refusal)),
        other => other,
    }
}

/// Whether two paths lead to one file.
pub(crate) fn is_one_file(rt: &HostRuntime, first: &str, second: &str) -> bool {
    match (fs::metadata(rt, first), fs::metadata(rt, second)) {
        (Ok(a), Ok(b)) => a.dev() == b.dev() && a.ino() == b.ino(),
        _ => false,
    }
}
