//! Lines of an answer, each pushed after what is there.
//!
//! Each call fails where a growth was refused, and `out` is then good for nothing.
ghost use Rattle.std.specs.Prelude.{◌≡◌, ◌++◌, OnOk};
ghost use Rattle.std.specs.Fmt.{decimal};
ghost use Rattle.vault_http.specs.Answer as spec;

use crate::answer::head::{Allow, Kind, Status};
use httpdate::HttpDate;
use std::alloc::{AllocError, Global};
use vault_base::content::Registered;
use vault_base::name::VersionId;
use vault_lock::retention::Retention;
use vault_values::words::{hold_name, mode_name};

fn push(out: &mut Vec<u8>, bytes: &[u8]) -> Result<(), AllocError>
    ensures { OnOk result (out.new.items ≡ out.old.items ++ bytes.now) }
{
    out.extend_from_slice(bytes)
}

/// A text, and CR LF.
pub fn push_line(out: &mut Vec<u8>, text: &[u8]) -> Result<(), AllocError>
    ensures { OnOk result (out.new.items ≡ out.old.items ++ spec.line text.now) }
{
    push(out, text)?;
    push(out, b"\r\n")
}

fn push_header(out: &mut Vec<u8>, name: &[u8], value: &[u8]) -> Result<(), AllocError>
    ensures { OnOk result (out.new.items ≡ out.old.items ++ spec.line (name.now ++ value.now)) }
{
    push(out, name)?;
    push_line(out, value)
}

fn push_number(alloc: Global, out: &mut Vec<u8>, name: &[u8], n: u64) -> Result<(), AllocError>
    ensures { OnOk result (out.new.items ≡ out.old.items ++ spec.line (name.now ++ decimal n)) }
{
    let text = n.to_string(alloc)?;
    push_header(out, name, text.as_bytes())
}

fn reason(status: Status) -> &'static [u8]
    ensures { result.now ≡ spec.reason_of status }
{
    match status {
        Status::Ok => b"200 OK",
        Status::NoContent => b"204 No Content",
        Status::BadRequest => b"400 Bad Request",
        Status::Forbidden => b"403 Forbidden",
        Status::NotFound => b"404 Not Found",
        Status::MethodNotAllowed => b"405 Method Not Allowed",
        Status::Conflict => b"409 Conflict",
        Status::LengthRequired => b"411 Length Required",
        Status::InternalServerError => b"500 Internal Server Error",
        Status::NotImplemented => b"501 Not Implemented",
        Status::ServiceUnavailable => b"503 Service Unavailable",
    }
}

/// The status line.
pub fn push_status(out: &mut Vec<u8>, status: Status) -> Result<(), AllocError>
    ensures { OnOk result (out.new.items ≡ out.old.items ++ spec.status_line status) }
{
    push_header(out, b"HTTP/1.1 ", reason(status))
}

/// The date, where there is one.
pub fn push_date(out: &mut Vec<u8>, date: Option<HttpDate>) -> Result<(), AllocError>
    ensures { OnOk result (out.new.items ≡ out.old.items ++ spec.date_lines date) }
{
    match date {
        None => Ok(()),
        Some(date) => push_header(out, b"date: ", &date.to_bytes()),
    }
}

/// The type of the body.
pub fn push_type(out: &mut Vec<u8>, kind: Kind) -> Result<(), AllocError>
    ensures { OnOk result (out.new.items ≡ out.old.items ++ spec.type_lines kind) }
{
    match kind {
        Kind::Nothing | Kind::Empty | Kind::External(_) => Ok(()),
        Kind::Content(_) => push_line(out, b"content-type: application/octet-stream"),
        Kind::Json(_) => push_line(out, b"content-type: application/json"),
    }
}

fn push_size_and_digest(
    alloc: Global,
    out: &mut Vec<u8>,
    registered: Registered,
) -> Result<(), AllocError>
    ensures { OnOk result (out.new.items ≡ (out.old.items ++ spec.size_line registered.size) ++ spec.digest_line registered.digest) }
{
    let digits = hex::encode(alloc, registered.digest.as_slice())?;
    push_number(alloc, out, b"x-vault-external: ", registered.size)?;
    push_header(out, b"x-vault-sha256: ", digits.as_bytes())
}

/// How many bytes the body has; of a content that is kept outside, its size and its digest.
pub fn push_length(alloc: Global, out: &mut Vec<u8>, kind: Kind) -> Result<(), AllocError>
    ensures { OnOk result (out.new.items ≡ out.old.items ++ spec.length_lines kind) }
{
    match kind {
        Kind::Nothing => Ok(()),
        Kind::Empty => push_line(out, b"content-length: 0"),
        Kind::Content(n) => push_number(alloc, out, b"content-length: ", n),
        Kind::External(registered) => push_size_and_digest(alloc, out, registered),
        Kind::Json(n) => push_number(alloc, out, b"content-length: ", n),
    }
}

fn methods(allow: Allow) -> &'static [u8]
    ensures { result.now ≡ spec.methods_of allow }
{
    match allow {
        Allow::Object => b"DELETE, GET, HEAD, PUT",
        Allow::Marker => b"DELETE",
        Allow::Setting => b"GET, PUT",
        Allow::Versions => b"GET",
        Allow::Lifecycle => b"DELETE, GET, PUT",
        Allow::Bucket => b"",
    }
}

/// The methods that are allowed.
pub fn push_allow(out: &mut Vec<u8>, allow: Option<Allow>) -> Result<(), AllocError>
    ensures { OnOk result (out.new.items ≡ out.old.items ++ spec.allow_lines allow) }
{
    match allow {
        None => Ok(()),
        Some(allow) => push_header(out, b"allow: ", methods(allow)),
    }
}

/// That there is a delete marker.
pub fn push_marker(out: &mut Vec<u8>, marker: bool) -> Result<(), AllocError>
    ensures { OnOk result (out.new.items ≡ out.old.items ++ spec.marker_lines marker) }
{
    if marker {
        push_line(out, b"x-amz-delete-marker: true")
    } else {
        Ok(())
    }
}

/// The id of a version.
pub fn push_version(
    alloc: Global,
    out: &mut Vec<u8>,
    version: Option<VersionId>,
) -> Result<(), AllocError>
    ensures { OnOk result (out.new.items ≡ out.old.items ++ spec.version_lines version) }
{
    match version {
        None => Ok(()),
        Some(id) => push_number(alloc, out, b"x-amz-version-id: ", u64::from(id.number())),
    }
}

fn push_mode_and_until(
    alloc: Global,
    out: &mut Vec<u8>,
    retention: Retention,
) -> Result<(), AllocError>
    ensures { OnOk result (out.new.items ≡ (out.old.items ++ spec.mode_line retention.mode) ++ spec.until_line retention.until) }
{
    let mode = mode_name(retention.mode);
    let until = retention.until.text(alloc)?;
    push_header(out, b"x-amz-object-lock-mode: ", mode.as_bytes())?;
    push_header(
        out,
        b"x-amz-object-lock-retain-until-date: ",
        until.as_bytes(),
    )
}

/// The mode and the end of a retention.
pub fn push_retention(
    alloc: Global,
    out: &mut Vec<u8>,
    retention: Option<Retention>,
) -> Result<(), AllocError>
    ensures { OnOk result (out.new.items ≡ out.old.items ++ spec.retention_lines retention) }
{
    match retention {
        None => Ok(()),
        Some(retention) => push_mode_and_until(alloc, out, retention),
    }
}

/// Whether a legal hold is on.
pub fn push_hold(out: &mut Vec<u8>, hold: Option<bool>) -> Result<(), AllocError>
    ensures { OnOk result (out.new.items ≡ out.old.items ++ spec.hold_lines hold) }
{
    match hold {
        None => Ok(()),
        Some(hold) => push_header(
            out,
            b"x-amz-object-lock-legal-hold: ",
            hold_name(hold).as_bytes(),
        ),
    }
}

/// The body, where it is shown.
pub fn push_body(out: &mut Vec<u8>, body: &[u8], shown: bool) -> Result<(), AllocError>
    ensures { OnOk result (out.new.items ≡ out.old.items ++ spec.shown_body body.now shown) }
{
    if shown { push(out, body) } else { Ok(()) }
}
