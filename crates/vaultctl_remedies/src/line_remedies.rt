//! What the refusal of a script's line means to a person, and what to do, by the members of the line.
use crate::remedies::{refused, stopped, write_refused};
use std::io::Write;
use vault_base::refusal::{Reason, Refusal};
use vault_core_model::command::{Command, Intake, Put};
use vault_core_model::reply::Reply;

const UNTIL: &str = "\"until\" has to lie after \"at\": correct one of them";

/// Which member of a put the vault doesn't allow. Of one with a retention whose bytes are kept outside, it may be either.
fn invalid_put(put: &Put) -> &'static str {
    match (put.content.is_external(), put.retention.is_some()) {
        (true, false) =>
            "this vault keeps the bytes of its contents itself, and takes no \"sha256\" with \"size\": give the bytes by \"text\" or \"hex\"",
        (true, true) =>
            "this vault keeps the bytes of its contents itself, and takes no \"sha256\" with \"size\", or \"until\" doesn't lie after \"at\"",
        (false, _) => UNTIL,
    }
}

/// Which member of an intake line the vault doesn't allow.
fn invalid_intake(intake: &Intake) -> &'static str {
    if intake.line == 0 {
        "\"line\" counts from 1, as \"line\":1"
    } else {
        invalid_put(&intake.put)
    }
}

/// What a content that is too large may have at most.
fn too_large(put: &Put) -> &'static str {
    if put.content.is_external() {
        "the content is larger than 5,368,709,120 bytes: split it into parts"
    } else {
        "the content is larger than 1,048,576 bytes: split it into parts"
    }
}

/// Which member of a line the vault doesn't allow, and what it may be.
fn invalid(command: &Command) -> &'static str {
    match command {
        Command::AddCaller(_) | Command::AddBucket(_) | Command::Report(_) =>
            "\"dept\" names no department of this vault: check its spelling, or add it first by add-dept",
        Command::CloseCaller(_) =>
            "\"caller\" names no open caller of this vault: check its spelling; who was closed stays closed",
        Command::MoveBucket(_) =>
            "\"dept\" names no department of this vault, or the one that has the bucket already: check its spelling",
        Command::SetDefault(_) =>
            "a default has 1 to 36500 days or 1 to 100 years: correct \"days\" or \"years\"",
        Command::ListVersions(_) => "\"most\" has to be 1 to 1000, as \"most\":100",
        Command::Put(put) => invalid_put(put),
        Command::SetRetention(_) => UNTIL,
        Command::Intake(intake) => invalid_intake(intake),
        _ => "a value isn't allowed: the manual, docs/formats/LINES.md, says what each may be",
    }
}

/// What a refusal of a line's command means, and what to do; of a missing right without its name.
fn words(command: &Command, refusal: Refusal) -> &'static str {
    match (refusal, command) {
        (Refusal::InvalidArgument, command) => invalid(command),
        (Refusal::EntityTooLarge, Command::Put(put)) => too_large(put),
        (Refusal::EntityTooLarge, Command::Intake(intake)) => too_large(&intake.put),
        (Refusal::ClockBack, _) =>
            "\"at\" is before the vault's last change: put the lines in the order of their times, or give a later time or an equal one",
        (Refusal::AccessDenied(Reason::UnknownCaller), _) =>
            "\"as\" names no open caller of this vault: check its spelling; who was closed stays closed, so add one of another name",
        (refusal, Command::Certificate(_)) => refused(command, refusal),
        (Refusal::NoSuchVersion, _) =>
            "no version of that \"id\" is held under that key in that bucket: check all three; list-versions has those that are held, and the register those that were removed",
        (Refusal::MethodNotAllowed, _) =>
            "that entry is a delete marker, which has neither content nor a lock: name a version of the key by its \"id\"; list-versions has them",
        (refusal, _) => refused(command, refusal),
    }
}

/// Writes in words why the command of a line was refused, and what to do, or why its run stopped; the number is that of
/// the line. Of other replies nothing is written. Where this can't be written, the reply says it alone.
pub fn say_line<E: Write>(number: u64, command: &Command, reply: &Reply, err: &mut E) {
    match reply {
        Reply::Refused(refusal) => {
            let _ = write!(err, "line {number}: ");
            write_refused(*refusal, words(command, *refusal), err);
        }
        Reply::Stopped(_, stop) => {
            let words = stopped(*stop);
            let _ = writeln!(err, "line {number}: {words}");
        }
        _ => {}
    }
}
