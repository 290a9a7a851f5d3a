//! What is answered to a refusal, and to the reply of a command.
ghost use Rattle.std.specs.Prelude.{◌≡◌, IfOk, Some};
ghost use Rattle.vault_http.specs.Reply as spec;

use crate::answer::bytes::write_answer;
use crate::answer::head::{Allow, Head, Kind, Status};
use crate::answer::text::{answer_text, refusal_text};
use std::alloc::{AllocError, Global};
use vault_base::content::Content;
use vault_base::moment::Moment;
use vault_base::name::VersionId;
use vault_base::refusal::Refusal;
use vault_core_model::reply::{Answer, Removed, Reply, Stop, Version};

/// The status of that number.
fn status_numbered(number: u16) -> Status
    ensures { result ≡ spec.status_numbered number }
{
    match number {
        400 => Status::BadRequest,
        403 => Status::Forbidden,
        404 => Status::NotFound,
        405 => Status::MethodNotAllowed,
        409 => Status::Conflict,
        411 => Status::LengthRequired,
        501 => Status::NotImplemented,
        503 => Status::ServiceUnavailable,
        _ => Status::InternalServerError,
    }
}

/// Whether a refusal is about a delete marker: on top of its key, or named by its id.
fn names_marker(refusal: Refusal, allow: Option<Allow>) -> bool
    ensures { result ≡ spec.names_marker refusal allow }
{
    match refusal {
        Refusal::NoSuchKey(marker) => marker,
        _ => match allow {
            Some(Allow::Marker) => true,
            _ => false,
        },
    }
}

fn refusal_head(refusal: Refusal, allow: Option<Allow>, length: u64) -> Head
    ensures { result ≡ spec.refusal_head refusal allow length }
{
    Head {
        status: status_numbered(refusal.status().unwrap_or(500)),
        kind: Kind::Json(length),
        allow,
        marker: names_marker(refusal, allow),
        version: None,
        retention: None,
        hold: None,
    }
}

/// The bytes of the answer to a refusal, with the methods that are allowed where its method wasn't.
/// `shown` is false for HEAD. The error is out of memory.
pub fn refusal_bytes(
    alloc: Global,
    moment: Option<Moment>,
    refusal: Refusal,
    allow: Option<Allow>,
    shown: bool,
) -> Result<Vec<u8>, AllocError>
    ensures { IfOk result (λ out. spec.AnswersRefusal moment refusal allow shown out.items) }
{
    let body = refusal_text(alloc, refusal)?;
    let head = refusal_head(refusal, allow, body.len() as u64);
    write_answer(alloc, moment, head, body.as_slice(), shown)
}

/// An answer without a body, to a command that was carried out.
fn plain_head(status: Status, kind: Kind, marker: bool, version: Option<VersionId>) -> Head
    ensures { result ≡ spec.plain_head status kind marker version }
{
    Head {
        status,
        kind,
        allow: None,
        marker,
        version,
        retention: None,
        hold: None,
    }
}

fn done_head(drops: bool) -> Head
    ensures { result ≡ spec.done_head drops }
{
    if drops {
        plain_head(Status::NoContent, Kind::Nothing, false, None)
    } else {
        plain_head(Status::Ok, Kind::Empty, false, None)
    }
}

fn version_head(version: &Version, status: Status, kind: Kind) -> Head
    ensures { result ≡ spec.version_head version.now status kind }
{
    Head {
        status,
        kind,
        allow: None,
        marker: false,
        version: Some(version.entry.id),
        retention: version.lock.retention,
        hold: Some(version.lock.hold),
    }
}

fn version_bytes(
    alloc: Global,
    moment: Option<Moment>,
    version: Version,
    content: Content,
    shown: bool,
) -> Result<Vec<u8>, AllocError>
    ensures { IfOk result (λ out. spec.AnswersVersion moment version content shown out.items) }
{
    match content {
        Content::Inside(bytes) => {
            let head = version_head(&version, Status::Ok, Kind::Content(bytes.len() as u64));
            write_answer(alloc, moment, head, bytes.as_slice(), shown)
        }
        Content::External(registered) => {
            let head = version_head(&version, Status::NoContent, Kind::External(registered));
            write_answer(alloc, moment, head, b"", shown)
        }
    }
}

fn head_bytes(
    alloc: Global,
    moment: Option<Moment>,
    version: Version,
    shown: bool,
) -> Result<Vec<u8>, AllocError>
    ensures { IfOk result (λ out. spec.AnswersHead moment version shown out.items) }
{
    let head = version_head(&version, Status::Ok, Kind::Content(version.entry.size));
    write_answer(alloc, moment, head, b"", shown)
}

fn removed_head(removed: Removed) -> Head
    ensures { result ≡ spec.removed_head removed }
{
    plain_head(
        Status::NoContent,
        Kind::Nothing,
        removed.marker,
        Some(removed.id),
    )
}

fn value_bytes(
    alloc: Global,
    moment: Option<Moment>,
    answer: Answer,
    shown: bool,
) -> Result<Vec<u8>, AllocError>
    ensures { IfOk result (λ out. spec.AnswersValue moment answer shown out.items) }
{
    let body = answer_text(alloc, answer)?;
    let head = plain_head(Status::Ok, Kind::Json(body.len() as u64), false, None);
    write_answer(alloc, moment, head, body.as_slice(), shown)
}

fn done_bytes(
    alloc: Global,
    moment: Option<Moment>,
    drops: bool,
    answer: Answer,
    shown: bool,
) -> Result<Vec<u8>, AllocError>
    ensures { IfOk result (λ out. spec.AnswersDone moment drops answer shown out.items) }
{
    match answer {
        Answer::Nothing => write_answer(alloc, moment, done_head(drops), b"", shown),
        Answer::Admitted(id) => {
            let head = plain_head(Status::Ok, Kind::Empty, false, Some(id));
            write_answer(alloc, moment, head, b"", shown)
        }
        Answer::Version(version, content) => {
            version_bytes(alloc, moment, version, content, shown)
        }
        Answer::Head(version) => head_bytes(alloc, moment, version, shown),
        Answer::Marked(id) => {
            let head = plain_head(Status::NoContent, Kind::Nothing, true, Some(id));
            write_answer(alloc, moment, head, b"", shown)
        }
        Answer::Removed(removed) => {
            write_answer(alloc, moment, removed_head(removed), b"", shown)
        }
        answer => value_bytes(alloc, moment, answer, shown),
    }
}

/// Which methods a refused command would have had: the one that removes a marker that was named by its id.
fn refused_allow(refusal: Refusal) -> Option<Allow>
    ensures { result ≡ spec.refused_allow refusal }
{
    match refusal {
        Refusal::MethodNotAllowed => Some(Allow::Marker),
        _ => None,
    }
}

fn stop_refusal(stop: Stop) -> Refusal
    ensures { result ≡ spec.stop_refusal stop }
{
    match stop {
        Stop::Memory => Refusal::Memory,
        Stop::Device => Refusal::Device,
        Stop::VaultFull => Refusal::VaultFull,
    }
}

/// The bytes of the answer to a command's reply. `drops` is true where the command drops what it
/// names and answers nothing; `shown` is false for HEAD. The error is out of memory.
pub fn reply_bytes(
    alloc: Global,
    moment: Option<Moment>,
    drops: bool,
    reply: Reply,
    shown: bool,
) -> Result<Vec<u8>, AllocError>
    ensures { IfOk result (λ out. spec.AnswersReply moment drops reply shown out.items) }
{
    match reply {
        Reply::Done(answer) => done_bytes(alloc, moment, drops, answer, shown),
        Reply::Refused(refusal) => {
            refusal_bytes(alloc, moment, refusal, refused_allow(refusal), shown)
        }
        Reply::Stopped(_, stop) => { refusal_bytes(alloc, moment, stop_refusal(stop), None, shown) }
    }
}
