//! What each refusal means to a person, and what to do: the words that stand on standard error below its reply.
use std::io::Write;
use vault_base::refusal::{Reason, Refusal};
use vault_base::right::Right;
use vault_core_model::command::{AddCaller, Command};
use vault_core_model::reply::{Reply, Stop};

/// Why access is denied, but for a missing right.
fn denial(reason: Reason) -> &'static str {
    match reason {
        Reason::UnknownCaller =>
            "no open caller of this vault has the name that --as gives: check its spelling; a caller who was closed stays closed, so add one of another name",
        Reason::Department =>
            "the bucket or the report is of another department than the caller's, and registrar is of none: let a caller of that department ask",
        Reason::Right(_) => "the caller lacks a right: let a caller ask who has it",
        Reason::LegalHold =>
            "a legal hold is on the version: it stays until the hold is lifted, by set-hold OFF in a script",
        Reason::RetentionCompliance =>
            "a retention in COMPLIANCE is in force: nobody can remove the version or shorten the retention before its end",
        Reason::RetentionGovernance =>
            "a retention in GOVERNANCE is in force: wait for its end, or let a caller with the right bypass ask for the bypass, by \"bypass\":true in a script",
    }
}

/// What of a command isn't as it has to be: its time, a value, or what it names. Of another refusal it says nothing.
fn unfit(refusal: Refusal) -> &'static str {
    match refusal {
        Refusal::ClockBack =>
            "the time, of --at or of the machine's clock, is before the vault's last change: give a later time or an equal one, or wait for it",
        Refusal::ClockOutOfRange =>
            "the time lies outside 1970 to 9999, or the machine's clock can't be read: correct --at, or set the clock",
        Refusal::MethodNotAllowed =>
            "that version is a delete marker, or isn't of the kind that this needs: name another version",
        Refusal::InvalidArgument =>
            "a value isn't allowed: vaultctl COMMAND --help says what each word may be",
        Refusal::RetentionOutOfRange =>
            "the retention would end outside 1970 to 9999: correct its end",
        Refusal::MalformedBody =>
            "the text isn't of the form that is expected: the manual, docs/formats/LINES.md, has each form",
        Refusal::EntityTooLarge =>
            "the content is larger than 1,048,576 bytes: split it into parts",
        Refusal::KeyTooLongError => "the key has more than 1,024 bytes: shorten it",
        Refusal::InvalidBucketName =>
            "no bucket can have that name: 3 to 63 of a-z, 0-9 and '-', with no '-' at an end, as case-files",
        Refusal::MissingContentLength =>
            "the request doesn't say how long its body is: have the client send content-length",
        Refusal::NotImplemented => "the vault doesn't do that: leave it out",
        Refusal::IntakeConflict =>
            "that line of the batch was taken in before with something else in it: give it as a line of its own, at the list's end",
        _ => "",
    }
}

/// What a refusal means and what to do, whatever was asked.
pub fn remedy(refusal: Refusal) -> &'static str {
    match refusal {
        Refusal::ClockBack
        | Refusal::ClockOutOfRange
        | Refusal::MethodNotAllowed
        | Refusal::InvalidArgument
        | Refusal::RetentionOutOfRange
        | Refusal::MalformedBody
        | Refusal::EntityTooLarge
        | Refusal::KeyTooLongError
        | Refusal::InvalidBucketName
        | Refusal::MissingContentLength
        | Refusal::NotImplemented
        | Refusal::IntakeConflict => unfit(refusal),
        Refusal::AccessDenied(reason) => denial(reason),
        Refusal::NoSuchBucket =>
            "no bucket of this vault has that name: check its spelling, or add it: vaultctl bucket FILE NAME DEPT --as registrar",
        Refusal::NoSuchKey(true) =>
            "a delete marker is on top of that key: list-versions has the versions below it, which are read by their id",
        Refusal::NoSuchKey(false) => "nothing is held under that key: check every letter of it",
        Refusal::NoSuchVersion =>
            "no version with that number was ever in that bucket: check both; the register of this vault has all that were removed: vaultctl register FILE",
        Refusal::BucketAlreadyExists =>
            "the vault has a bucket of that name already: nothing was changed; take another name, or use that bucket",
        Refusal::NameTaken =>
            "that name is taken, perhaps by one that was closed: nothing was changed; take another name",
        Refusal::NoSuchLifecycleConfiguration =>
            "the bucket has no lifecycle rules: nothing is to be done, unless rules are set first, by set-rules in a script",
        Refusal::QuotaExceeded =>
            "the department would have admitted and received more than 1,000,000,000,000 bytes in all, those of removed versions included: nothing was admitted; add another department, with a bucket of its own",
        Refusal::VaultFull => "the vault has no number left to give: begin another vault",
        Refusal::Memory =>
            "the machine refused memory: nothing was changed; stop other programs, and give the command again",
        Refusal::Device =>
            "the disk is full or failed: make room or mend it, run vaultctl verify FILE, and look whether the change was made before it is given again",
        Refusal::Damaged(_) => "a table of the file isn't sound: put the last sound backup back",
    }
}

/// Which value of a command the vault doesn't allow.
fn invalid(command: &Command) -> &'static str {
    match command {
        Command::AddCaller(_) =>
            "--dept names no department of this vault: check its spelling, or add it first: vaultctl dept FILE NAME --as registrar",
        Command::CloseCaller(_) =>
            "NAME is no open caller of this vault: check its spelling; who was closed stays closed",
        Command::AddBucket(_) =>
            "DEPT names no department of this vault: check its spelling, and the order of the words, bucket FILE NAME DEPT; or add it first: vaultctl dept FILE NAME --as registrar",
        Command::MoveBucket(_) =>
            "DEPT names no department of this vault, or the one that has the bucket already: check its spelling, and the order of the words, move FILE BUCKET DEPT",
        Command::Report(_) =>
            "DEPT names no department of this vault: check its spelling; a report is on a department, not on a bucket",
        _ => remedy(Refusal::InvalidArgument),
    }
}

/// Which name is taken.
fn taken(command: &Command) -> &'static str {
    match command {
        Command::AddCaller(_) =>
            "a caller of that name is there, or was closed: nothing was changed. The rights and the department of a caller are fixed for good: add one of another name",
        Command::AddDept(_) =>
            "the vault has a department of that name already: nothing was changed; use it, or take another name",
        _ => remedy(Refusal::NameTaken),
    }
}

/// What a refusal of a command means, and what to do.
pub(crate) fn refused(command: &Command, refusal: Refusal) -> &'static str {
    match (refusal, command) {
        (Refusal::InvalidArgument, command) => invalid(command),
        (Refusal::NameTaken, command) => taken(command),
        (Refusal::QuotaExceeded, Command::MoveBucket(_)) =>
            "the department that gets the bucket would have admitted and received more than 1,000,000,000,000 bytes in all, those of removed versions included: nothing moved; add another department",
        (Refusal::MethodNotAllowed, Command::Certificate(_)) =>
            "that version is held still, or is a delete marker: a certificate is only of a version that was removed",
        (refusal, _) => remedy(refusal),
    }
}

/// Writes what a refusal means and what to do: for a missing right which one it is, else these words.
pub(crate) fn write_refused<E: Write>(refusal: Refusal, words: &str, err: &mut E) {
    let _ = match refusal {
        Refusal::AccessDenied(Reason::Right(right)) => {
            let name = right.name();
            writeln!(
                err,
                "the caller lacks the right {name}, and rights are fixed for good: let a caller ask who has it, or add one"
            )
        }
        _ => writeln!(err, "{words}"),
    };
}

/// What stopped a run, and what to do.
pub(crate) fn stopped(stop: Stop) -> &'static str {
    match stop {
        Stop::Memory =>
            "the run stopped as the machine refused memory: the changes that it counts are made; stop other programs, and give the command again",
        Stop::Device =>
            "the run stopped as the disk is full or failed: the changes that it counts are made; make room or mend it, run vaultctl verify FILE, and give the command again",
        Stop::VaultFull =>
            "the run stopped as the vault has no number left for a delete marker: the changes that it counts are made; begin another vault",
    }
}

/// Whether no command will ever be done for a caller.
fn can_do_nothing(caller: &AddCaller) -> bool {
    caller.dept.is_none() && !caller.rights.has(Right::Admin)
}

/// Writes in words what a reply leaves a person to know: why it was refused and what to do, why a run stopped, and
/// that a caller was added who can do nothing. Of other replies nothing is written. Where this can't be written, the
/// reply says it alone.
pub fn say_reply<E: Write>(command: &Command, reply: &Reply, err: &mut E) {
    match (reply, command) {
        (Reply::Refused(refusal), command) => {
            write_refused(*refusal, refused(command, *refusal), err);
        }
        (Reply::Stopped(_, stop), _) => {
            let _ = writeln!(err, "{}", stopped(*stop));
        }
        (Reply::Done(_), Command::AddCaller(caller)) if can_do_nothing(caller) => {
            let _ = writeln!(
                err,
                "this caller has no department, and not the right admin, so can do nothing in any bucket; name, department and rights are fixed for good: close it by --close, and add one of another name with --dept DEPT"
            );
        }
        _ => {}
    }
}
