//! Who asked for what: of a line its members say so, of a request its head.
ghost use Rattle.std.specs.Prelude.{◌≡◌, ◌==◌, ◌++◌, ℕ, List, OnOk, Some, map, string_bytes, take};
ghost use Rattle.std.specs.List.{position};
ghost use Rattle.std.specs.Option.{option_copied};
ghost use Rattle.httparse.specs.Spans.{IsRequestWithin, header_bytes, span_bytes};
ghost use Rattle.serde_json.specs.View.{view};
ghost use Rattle.vaultctl_log.specs.Asked as spec;

use crate::members::{push_bytes, push_number, push_text};
use httparse::Status;
use httparse::spans::{EMPTY_HEADER_SPAN, HeaderSpan, RequestSpans, parse_request};
use serde_json::Value;
use std::alloc::{AllocError, Global};
use vault_http_target::fields::value_of;
use vault_lines_json::document::document;
use vault_values::fault::LineFault;

/// The longest text of a line's member that is shown.
const LONGEST: usize = 1_024;

/// Appends a member of a line that is a whole number, or a text that isn't long. The error is out of memory.
fn push_value(alloc: Global, out: &mut String, name: &str, value: &Value) -> Result<(), AllocError>
    ensures { OnOk result (string_bytes out.new ≡ string_bytes out.old ++ spec.found_member name.now (Some (view value.now))) }
{
    if let Some(number) = value.as_u64() {
        return push_number(alloc, out, name, number);
    }
    match value.as_str() {
        Some(text) if text.len() <= LONGEST => push_text(alloc, out, name, text),
        _ => Ok(()),
    }
}

/// Appends the member of that name, where it is there. The error is out of memory.
fn push_member(
    alloc: Global,
    out: &mut String,
    object: &Value,
    name: &str,
) -> Result<(), AllocError>
    ensures { OnOk result (string_bytes out.new ≡ string_bytes out.old ++ spec.member_in (view object.now) name.now) }
{
    match object.get(name) {
        Some(value) => push_value(alloc, out, name, value),
        None => Ok(()),
    }
}

/// Appends the members of a line that say who asks for what, and of which department or caller. The error is want of
/// memory.
#[tactic(auto, unfolding(crate::specs::Asked::asker_members))]
fn push_asker(alloc: Global, out: &mut String, object: &Value) -> Result<(), AllocError>
    ensures { OnOk result (string_bytes out.new ≡ string_bytes out.old ++ spec.asker_members (view object.now)) }
{
    push_member(alloc, out, object, "as")?;
    push_member(alloc, out, object, "do")?;
    push_member(alloc, out, object, "dept")?;
    push_member(alloc, out, object, "caller")
}

/// Appends those that say of which entries. The error is out of memory.
#[tactic(auto, unfolding(crate::specs::Asked::place_members))]
fn push_place(alloc: Global, out: &mut String, object: &Value) -> Result<(), AllocError>
    ensures { OnOk result (string_bytes out.new ≡ string_bytes out.old ++ spec.place_members (view object.now)) }
{
    push_member(alloc, out, object, "bucket")?;
    push_member(alloc, out, object, "key")?;
    push_member(alloc, out, object, "id")?;
    push_member(alloc, out, object, "batch")
}

/// Appends the members of a line that name what is asked for, and by whom. The error is out of memory.
fn push_object(alloc: Global, out: &mut String, object: &Value) -> Result<(), AllocError>
    ensures { OnOk result (string_bytes out.new ≡ string_bytes out.old ++ spec.object_members (view object.now)) }
{
    push_asker(alloc, out, object)?;
    push_place(alloc, out, object)
}

/// Appends the members of a line that name what is asked for, and by whom; nothing where the line isn't JSON. The error
/// is out of memory.
pub(crate) fn push_line(alloc: Global, out: &mut String, line: &[u8]) -> Result<(), AllocError>
    ensures { OnOk result (string_bytes out.new ≡ string_bytes out.old ++ spec.line_members line.now) }
{
    match document(alloc, line) {
        Ok(object) => push_object(alloc, out, &object),
        Err(LineFault::Memory) => Err(AllocError),
        Err(LineFault::Refused(_)) => Ok(()),
    }
}

/// The place of the first question mark.
fn first_mark(bytes: &[u8]) -> Option<usize>
    ensures { result ≡ position (λ b. b == 63) bytes.now }
{
    bytes.iter().position(|byte| *byte == b'?')
}

/// A target up to its query.
fn path_of(target: &[u8]) -> &[u8]
    ensures { result.now ≡ spec.path_of target.now }
{
    match first_mark(target) {
        Some(place) => target.split_at(place).0,
        None => target,
    }
}

fn shown_target(is_understood: bool, target: &[u8]) -> &[u8]
    ensures { result.now ≡ spec.shown_target is_understood target.now }
{
    if is_understood {
        target
    } else {
        path_of(target)
    }
}

/// Appends who asks, if the head says it. The error is out of memory.
fn push_caller(alloc: Global, out: &mut String, caller: Option<&[u8]>) -> Result<(), AllocError>
    ensures { OnOk result (string_bytes out.new ≡ string_bytes out.old ++ spec.caller_member (option_copied caller.entry)) }
{
    match caller {
        Some(caller) => push_bytes(alloc, out, "as", caller),
        None => Ok(()),
    }
}

/// Appends the caller, the method and the target of a head, where they lie in its bytes. The error is out of memory.
#[tactic(auto, unfolding(crate::specs::Asked::request_members))]
fn push_head(
    alloc: Global,
    out: &mut String,
    bytes: &[u8],
    headers: &[HeaderSpan],
    spans: RequestSpans,
    is_understood: bool,
) -> Result<(), AllocError>
    requires { IsRequestWithin bytes.now headers.now spans }
    ensures { OnOk result (string_bytes out.new ≡ string_bytes out.old ++ spec.request_members is_understood
        (span_bytes bytes.now spans.method) (span_bytes bytes.now spans.path) (map (header_bytes bytes.now) (take spans.headers headers.now))) }
{
    let caller = value_of(bytes, &headers[..spans.headers], b"x-vault-caller");
    let target = shown_target(is_understood, spans.path.of(bytes));
    push_caller(alloc, out, caller)?;
    push_bytes(alloc, out, "do", spans.method.of(bytes))?;
    push_bytes(alloc, out, "target", target)
}

/// Appends the caller, the method and the target of a request, whose head these bytes begin with; nothing where they
/// don't.
///
/// The query is shown where the request was understood: another one may have what is nobody's business, as a signature.
/// The error is out of memory.
pub(crate) fn push_request(
    alloc: Global,
    out: &mut String,
    bytes: &[u8],
    is_understood: bool,
) -> Result<(), AllocError>
    ensures { OnOk result ((shown : List ℕ) × spec.IsShown is_understood bytes.now shown × (string_bytes out.new ≡ string_bytes out.old ++ shown)) }
{
    let mut headers = [EMPTY_HEADER_SPAN; 64];
    match parse_request(bytes, &mut headers) {
        Ok(Status::Complete(spans)) => {
            push_head(alloc, out, bytes, &headers, spans, is_understood)
        }
        Ok(Status::Partial) => Ok(()),
        Err(_) => Ok(()),
    }
}
