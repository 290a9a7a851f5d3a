//! What the headers of a request say of its operation: the body's length, who asks, and locks.
ghost use Rattle.std.specs.Prelude.{◌≡◌, ◌≤◌, All, length, map};
ghost use Rattle.std.specs.Option.{option_copied};
ghost use Rattle.httparse.specs.Spans.{header_bytes, IsHeaderWithin};
ghost use Rattle.vault_base.specs.Limits.{longest_body};
ghost use Rattle.vault_values.specs.Fault.{Gives};
ghost use Rattle.vault_http_request.specs.RequestHeaders as spec;

use crate::operation::Operation;
use httparse::spans::HeaderSpan;
use std::alloc::Global;
use vault_base::limits::{LONGEST_BODY, MOST_CONTENT};
use vault_base::moment::Moment;
use vault_base::name::CallerName;
use vault_base::refusal::{Reason, Refusal};
use vault_http_target::fields::{count_of, same_name, value_of};
use vault_http_target::number::{NumberFault, number_upto};
use vault_http_target::path::as_text;
use vault_lock::retention::{Mode, Retention};
use vault_values::fault::LineFault;
use vault_values::named::{asker_named, until_named};
use vault_values::words::{hold_named, mode_named};

/// Which headers an operation accepts.
#[derive(Clone, Copy, PartialEq, Eq, Debug)]
pub struct AcceptedHeaders {
    /// Where it has a body, how many bytes that may have.
    pub limit: Option<u64>,
    /// Retention and legal hold of a new version.
    pub locks: bool,
    /// The wish to bypass governance.
    pub bypass: bool,
}

/// What the lock headers say.
#[derive(Clone, Copy, PartialEq, Eq)]
pub struct Locks {
    pub retention: Option<Retention>,
    pub hold: Option<bool>,
    pub bypass: bool,
}

/// What the headers say.
#[derive(Drop)]
pub struct RequestHeaders {
    /// How many bytes the body has, where there is one.
    pub length: Option<u64>,
    pub caller: CallerName,
    pub locks: Locks,
    /// Whether the client waits to be told to go on.
    pub waits: bool,
}

/// Which headers an operation accepts. A version has at most 1,048,576 bytes, a JSON body 4,194,304.
pub fn accepted_headers_of(operation: &Operation) -> AcceptedHeaders
    ensures { result ≡ spec.accepted_headers_of operation.now }
{
    match operation {
        Operation::Ready(_) => AcceptedHeaders {
            limit: None,
            locks: false,
            bypass: false,
        },
        Operation::DeleteVersion(_, _, _) => AcceptedHeaders {
            limit: None,
            locks: false,
            bypass: true,
        },
        Operation::Put(_, _) => AcceptedHeaders {
            limit: Some(MOST_CONTENT as u64),
            locks: true,
            bypass: false,
        },
        Operation::SetRetention(_) => AcceptedHeaders {
            limit: Some(LONGEST_BODY as u64),
            locks: false,
            bypass: true,
        },
        Operation::SetHold(_) | Operation::SetDefault(_) | Operation::SetRules(_) =>
            AcceptedHeaders {
                limit: Some(LONGEST_BODY as u64),
                locks: false,
                bypass: false,
            },
    }
}

fn length_upto(text: Option<&[u8]>, limit: u64) -> Result<u64, LineFault>
    requires { limit ≤ longest_body }
    ensures { Gives (λ x. x) result (spec.length_upto limit (option_copied text.entry)) }
{
    let Some(text) = text else {
        return Err(LineFault::Refused(Refusal::MissingContentLength));
    };
    match number_upto(text, limit) {
        Ok(length) => Ok(length),
        Err(NumberFault::Form) => Err(LineFault::Refused(Refusal::InvalidArgument)),
        Err(NumberFault::TooLarge) => Err(LineFault::Refused(Refusal::EntityTooLarge)),
    }
}

fn length_of(
    limit: Option<u64>,
    buf: &[u8],
    headers: &[HeaderSpan],
) -> Result<Option<u64>, LineFault>
    requires within { All (IsHeaderWithin (length buf.now)) headers.now }
    requires small { spec.IsLimit limit }
    ensures { Gives (λ x. x) result (spec.length_of limit (map (header_bytes buf.now) headers.now)) }
{
    let Some(limit) = limit else {
        return Ok(None);
    };
    Ok(Some(length_upto(value_of(buf, headers, b"content-length"), limit)?))
}

fn is_twice(buf: &[u8], headers: &[HeaderSpan], name: &[u8]) -> bool
    requires within { All (IsHeaderWithin (length buf.now)) headers.now }
    requires few { length headers.now ≤ 64 }
    ensures { result ≡ spec.is_twice name.now (map (header_bytes buf.now) headers.now) }
{
    count_of(buf, headers, name) > 1
}

fn is_lock_twice(buf: &[u8], headers: &[HeaderSpan]) -> bool
    requires within { All (IsHeaderWithin (length buf.now)) headers.now }
    requires few { length headers.now ≤ 64 }
    ensures { result ≡ spec.is_lock_twice (map (header_bytes buf.now) headers.now) }
{
    is_twice(buf, headers, b"x-amz-object-lock-mode")
        || is_twice(buf, headers, b"x-amz-object-lock-retain-until-date")
        || is_twice(buf, headers, b"x-amz-object-lock-legal-hold")
}

fn is_body_twice(minor: u8, buf: &[u8], headers: &[HeaderSpan]) -> bool
    requires within { All (IsHeaderWithin (length buf.now)) headers.now }
    requires few { length headers.now ≤ 64 }
    ensures { result ≡ spec.is_body_twice minor (map (header_bytes buf.now) headers.now) }
{
    is_twice(buf, headers, b"content-length") || (minor == 1 && is_twice(buf, headers, b"expect"))
}

fn is_used_twice(accepted: AcceptedHeaders, minor: u8, buf: &[u8], headers: &[HeaderSpan]) -> bool
    requires within { All (IsHeaderWithin (length buf.now)) headers.now }
    requires few { length headers.now ≤ 64 }
    ensures { result ≡ spec.is_used_twice accepted minor (map (header_bytes buf.now) headers.now) }
{
    is_twice(buf, headers, b"x-vault-caller")
        || (accepted.limit.is_some() && is_body_twice(minor, buf, headers))
        || (accepted.locks && is_lock_twice(buf, headers))
        || (accepted.bypass && is_twice(buf, headers, b"x-amz-bypass-governance-retention"))
}

fn check_single(
    accepted: AcceptedHeaders,
    minor: u8,
    buf: &[u8],
    headers: &[HeaderSpan],
) -> Result<(), LineFault>
    requires within { All (IsHeaderWithin (length buf.now)) headers.now }
    requires few { length headers.now ≤ 64 }
    ensures { Gives (λ x. x) result (spec.single accepted minor (map (header_bytes buf.now) headers.now)) }
{
    if is_used_twice(accepted, minor, buf, headers) {
        return Err(LineFault::Refused(Refusal::InvalidArgument));
    }
    Ok(())
}

/// The text of a header; none where it isn't there, or isn't UTF-8.
fn text_named<'b>(buf: &'b [u8], headers: &[HeaderSpan], name: &[u8]) -> Option<&'b str>
    requires { All (IsHeaderWithin (length buf.now)) headers.now }
    ensures { option_copied result ≡ spec.text_named name.now (map (header_bytes buf.now) headers.now) }
{
    as_text(value_of(buf, headers, name)?)
}

#[tactic(auto, unfolding(crate::specs::RequestHeaders::caller_of))]
fn caller_of(alloc: Global, buf: &[u8], headers: &[HeaderSpan]) -> Result<CallerName, LineFault>
    requires { All (IsHeaderWithin (length buf.now)) headers.now }
    ensures { Gives (λ x. x) result (spec.caller_of (map (header_bytes buf.now) headers.now)) }
{
    let Some(text) = text_named(buf, headers, b"x-vault-caller") else {
        return Err(LineFault::Refused(Refusal::AccessDenied(Reason::UnknownCaller)));
    };
    asker_named(alloc, text)
}

fn mode(value: &[u8]) -> Result<Mode, LineFault>
    ensures { Gives (λ x. x) result (spec.mode value.now) }
{
    match as_text(value).and_then(mode_named) {
        Some(mode) => Ok(mode),
        None => Err(LineFault::Refused(Refusal::InvalidArgument)),
    }
}

fn until(value: &[u8]) -> Result<Moment, LineFault>
    ensures { Gives (λ x. x) result (spec.until value.now) }
{
    let Some(text) = as_text(value) else {
        return Err(LineFault::Refused(Refusal::InvalidArgument));
    };
    until_named(text)
}

#[tactic(auto, unfolding(crate::specs::RequestHeaders::retention))]
fn retention(
    mode_value: Option<&[u8]>,
    until_value: Option<&[u8]>,
) -> Result<Option<Retention>, LineFault>
    ensures { Gives (λ x. x) result (spec.retention (option_copied mode_value.entry) (option_copied until_value.entry)) }
{
    match (mode_value, until_value) {
        (None, None) => Ok(None),
        (Some(mode_value), Some(until_value)) => {
            let mode = mode(mode_value)?;
            let until = until(until_value)?;
            Ok(Some(Retention { mode, until }))
        }
        _ => Err(LineFault::Refused(Refusal::InvalidArgument)),
    }
}

fn hold(value: Option<&[u8]>) -> Result<Option<bool>, LineFault>
    ensures { Gives (λ x. x) result (spec.hold (option_copied value.entry)) }
{
    let Some(value) = value else {
        return Ok(None);
    };
    match as_text(value).and_then(hold_named) {
        Some(hold) => Ok(Some(hold)),
        None => Err(LineFault::Refused(Refusal::InvalidArgument)),
    }
}

fn bypass(value: Option<&[u8]>) -> Result<bool, LineFault>
    ensures { Gives (λ x. x) result (spec.bypass (option_copied value.entry)) }
{
    let Some(value) = value else {
        return Ok(false);
    };
    if same_name(value, b"true") {
        Ok(true)
    } else if same_name(value, b"false") {
        Ok(false)
    } else {
        Err(LineFault::Refused(Refusal::InvalidArgument))
    }
}

#[tactic(auto, unfolding(crate::specs::RequestHeaders::new_locks))]
fn new_locks(buf: &[u8], headers: &[HeaderSpan]) -> Result<Locks, LineFault>
    requires { All (IsHeaderWithin (length buf.now)) headers.now }
    ensures { Gives (λ x. x) result (spec.new_locks (map (header_bytes buf.now) headers.now)) }
{
    let retention = retention(
        value_of(buf, headers, b"x-amz-object-lock-mode"),
        value_of(buf, headers, b"x-amz-object-lock-retain-until-date"),
    )?;
    let hold = hold(value_of(buf, headers, b"x-amz-object-lock-legal-hold"))?;
    Ok(Locks {
        retention,
        hold,
        bypass: false,
    })
}

fn no_locks(bypass: bool) -> Locks
    ensures { result ≡ spec.no_locks bypass }
{
    Locks {
        retention: None,
        hold: None,
        bypass,
    }
}

#[tactic(auto, unfolding(crate::specs::RequestHeaders::bypass_locks))]
fn bypass_locks(buf: &[u8], headers: &[HeaderSpan]) -> Result<Locks, LineFault>
    requires { All (IsHeaderWithin (length buf.now)) headers.now }
    ensures { Gives (λ x. x) result (spec.bypass_locks (map (header_bytes buf.now) headers.now)) }
{
    let bypass = bypass(value_of(buf, headers, b"x-amz-bypass-governance-retention"))?;
    Ok(no_locks(bypass))
}

fn locks_of(
    accepted: AcceptedHeaders,
    buf: &[u8],
    headers: &[HeaderSpan],
) -> Result<Locks, LineFault>
    requires { All (IsHeaderWithin (length buf.now)) headers.now }
    ensures { Gives (λ x. x) result (spec.locks_of accepted (map (header_bytes buf.now) headers.now)) }
{
    if accepted.locks {
        new_locks(buf, headers)
    } else if accepted.bypass {
        bypass_locks(buf, headers)
    } else {
        Ok(no_locks(false))
    }
}

fn says_wait(value: Option<&[u8]>) -> bool
    ensures { result ≡ spec.says_wait (option_copied value.entry) }
{
    match value {
        None => false,
        Some(value) => same_name(value, b"100-continue"),
    }
}

/// Whether the client waits to be told to go on (RFC 9110, section 10.1.1).
fn waits(size: Option<u64>, minor: u8, buf: &[u8], headers: &[HeaderSpan]) -> bool
    requires { All (IsHeaderWithin (length buf.now)) headers.now }
    ensures { result ≡ spec.waits size minor (map (header_bytes buf.now) headers.now) }
{
    match size {
        None => false,
        Some(size) => size != 0 && minor == 1 && says_wait(value_of(buf, headers, b"expect")),
    }
}

/// What the headers say of an operation: first the body's length, where there is one; then that no header
/// that is used stands twice; then who asks, and the locks.
#[tactic(auto, unfolding(crate::specs::RequestHeaders::request_headers_of))]
pub fn request_headers_of(
    alloc: Global,
    accepted: AcceptedHeaders,
    minor: u8,
    buf: &[u8],
    headers: &[HeaderSpan],
) -> Result<RequestHeaders, LineFault>
    requires within { All (IsHeaderWithin (length buf.now)) headers.now }
    requires few { length headers.now ≤ 64 }
    requires small { spec.IsLimit accepted.limit }
    ensures { Gives (λ x. x) result (spec.request_headers_of accepted minor (map (header_bytes buf.now) headers.now)) }
{
    let length = length_of(accepted.limit, buf, headers)?;
    check_single(accepted, minor, buf, headers)?;
    let caller = caller_of(alloc, buf, headers)?;
    let locks = locks_of(accepted, buf, headers)?;
    let waits = waits(length, minor, buf, headers);
    Ok(RequestHeaders {
        length,
        caller,
        locks,
        waits,
    })
}
