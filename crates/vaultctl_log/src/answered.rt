//! What was answered: of a request the front of its answer says so, of a line that of its reply.
ghost use Rattle.std.specs.Prelude.{◌≡◌, ◌==◌, ◌++◌, None, OnOk, codes, option_map, string_bytes};
ghost use Rattle.std.specs.Str.Lossy.{utf8_lossy};
ghost use Rattle.std.specs.Char.{is_ascii_digit};
ghost use Rattle.std.specs.List.{list_all, position};
ghost use Rattle.std.specs.Option.{option_copied};
ghost use Rattle.serde_json.specs.View.{view};
ghost use Rattle.vault_lines_json.specs.Document.{document_of};
ghost use Rattle.vaultctl_log.specs.Answered as spec;
ghost use Rattle.vaultctl_log.specs.Members.{named};

use crate::members::{push_name, push_text};
use serde_json::Value;
use std::alloc::{AllocError, Global};
use vault_lines_json::document::document;
use vault_values::fault::LineFault;

/// What comes before an answer where a client waits to go on.
const GO_ON: &[u8] = b"HTTP/1.1 100 Continue\r\n\r\n";

/// Appends the code of a refusal, or that there is one. The error is out of memory.
fn push_code(alloc: Global, out: &mut String, code: Option<&str>) -> Result<(), AllocError>
    ensures { OnOk result (string_bytes out.new ≡ string_bytes out.old ++ spec.code_member (option_copied code.entry)) }
{
    match code {
        Some(code) => push_text(alloc, out, "result", code),
        None => push_text(alloc, out, "result", "refused"),
    }
}

/// Appends the reason of a refusal, if it has one. The error is out of memory.
fn push_reason(alloc: Global, out: &mut String, reason: Option<&str>) -> Result<(), AllocError>
    ensures { OnOk result (string_bytes out.new ≡ string_bytes out.old ++ spec.reason_member (option_copied reason.entry)) }
{
    match reason {
        Some(reason) => push_text(alloc, out, "reason", reason),
        None => Ok(()),
    }
}

/// The text under that name.
fn text_in<'v>(name: &str, value: &'v Value) -> Option<&'v str>
    ensures { option_copied result ≡ spec.text_in name.now (view value.now) }
{
    value.get(name).and_then(Value::as_str)
}

/// Appends the code of a refusal and its reason. The error is out of memory.
fn push_refusal(alloc: Global, out: &mut String, refusal: &Value) -> Result<(), AllocError>
    ensures { OnOk result (string_bytes out.new ≡ string_bytes out.old ++ spec.refusal_members (view refusal.now)) }
{
    push_code(alloc, out, text_in("code", refusal))?;
    push_reason(alloc, out, text_in("reason", refusal))
}

/// Appends the same of a text that has to be one. The error is out of memory.
fn push_stated(alloc: Global, out: &mut String, text: &[u8]) -> Result<(), AllocError>
    ensures { OnOk result (string_bytes out.new ≡ string_bytes out.old ++ spec.stated_members (document_of text.now)) }
{
    match document(alloc, text) {
        Ok(refusal) => push_refusal(alloc, out, &refusal),
        Err(LineFault::Memory) => Err(AllocError),
        Err(LineFault::Refused(_)) => push_code(alloc, out, None),
    }
}

fn is_go_on(front: &[u8]) -> bool
    ensures { result ≡ spec.is_go_on front.now }
{
    front == GO_ON
}

/// An answer without what comes before it.
fn own(answer: &[u8]) -> &[u8]
    ensures { result.now ≡ spec.own answer.now }
{
    if answer.len() < 25 {
        return answer;
    }
    let (front, rest) = answer.split_at(25);
    if is_go_on(front) { rest } else { answer }
}

fn are_digits(bytes: &[u8]) -> bool
    ensures { result ≡ list_all is_ascii_digit bytes.now }
{
    bytes.iter().all(|byte| byte.is_ascii_digit())
}

fn digits_in(bytes: &[u8]) -> Option<&[u8]>
    ensures { option_copied result ≡ spec.digits_in bytes.now }
{
    if are_digits(bytes) { Some(bytes) } else { None }
}

fn status_in(own: &[u8]) -> Option<&[u8]>
    ensures { option_copied result ≡ spec.status_in own.now }
{
    if own.len() < 12 {
        return None;
    }
    digits_in(&own[9..12])
}

/// The three digits of the status of an answer, if its first line came so far.
#[tactic(auto, unfolding(crate::specs::Answered::status_of))]
pub(crate) fn status_of(answer: &[u8]) -> Option<&[u8]>
    ensures { option_copied result ≡ spec.status_of answer.now }
{
    status_in(own(answer))
}

/// The place of the first brace.
fn first_brace(bytes: &[u8]) -> Option<usize>
    ensures { result ≡ position (λ b. b == 123) bytes.now }
{
    bytes.iter().position(|byte| *byte == b'{')
}

/// From the first brace on.
fn body_of(answer: &[u8]) -> &[u8]
    ensures { result.now ≡ spec.body_of answer.now }
{
    match first_brace(answer) {
        Some(place) => answer.split_at(place).1,
        None => &[],
    }
}

/// A status of 400 and more, by its digits.
fn is_refusal(digits: &[u8]) -> bool
    ensures { result ≡ spec.is_refusal digits.now }
{
    match digits {
        [first, ..] => *first > b'3',
        [] => false,
    }
}

/// Appends what is answered beside a status of these digits. The error is out of memory.
fn push_outcome(
    alloc: Global,
    out: &mut String,
    answer: &[u8],
    digits: &[u8],
) -> Result<(), AllocError>
    ensures { OnOk result (string_bytes out.new ≡ string_bytes out.old ++ spec.outcome_members answer.now digits.now) }
{
    if is_refusal(digits) {
        push_stated(alloc, out, body_of(own(answer)))
    } else {
        push_text(alloc, out, "result", "ok")
    }
}

/// Appends a status. The error is out of memory.
fn push_digits(alloc: Global, out: &mut String, digits: &[u8]) -> Result<(), AllocError>
    ensures { OnOk result (string_bytes out.new ≡ string_bytes out.old ++ (named (codes "status") ++ utf8_lossy digits.now)) }
{
    let text = String::from_utf8_lossy(alloc, digits)?;
    push_name(out, "status")?;
    out.push_str(text.as_str())
}

/// Appends what is answered to a request: its status, and `ok` or the code of a refusal; `refused` where that has no
/// body, as to HEAD; `nothing` where nothing was written. The error is out of memory.
pub(crate) fn push_answer(alloc: Global, out: &mut String, answer: &[u8]) -> Result<(), AllocError>
    ensures { OnOk result (string_bytes out.new ≡ string_bytes out.old ++ spec.answer_members answer.now) }
{
    let Some(digits) = status_of(answer) else {
        return push_text(alloc, out, "result", "nothing");
    };
    push_digits(alloc, out, digits)?;
    push_outcome(alloc, out, answer, digits)
}

/// Appends the refusal that is the value of a member, where it is there. The error is out of memory.
fn push_refused(alloc: Global, out: &mut String, refusal: Option<&Value>) -> Result<(), AllocError>
    ensures { OnOk result (string_bytes out.new ≡ string_bytes out.old ++ spec.refused_members (option_map (λ v. view v.now) refusal.entry)) }
{
    match refusal {
        Some(refusal) => push_refusal(alloc, out, refusal),
        None => push_code(alloc, out, None),
    }
}

/// Appends the refusal that a reply is. The error is out of memory.
fn push_error(alloc: Global, out: &mut String, reply: &[u8]) -> Result<(), AllocError>
    ensures { OnOk result (string_bytes out.new ≡ string_bytes out.old ++ spec.error_members (document_of reply.now)) }
{
    match document(alloc, reply) {
        Ok(object) => push_refused(alloc, out, object.get("error")),
        Err(LineFault::Memory) => Err(AllocError),
        Err(LineFault::Refused(_)) => push_code(alloc, out, None),
    }
}

/// A word for a reply by its first member, if it has one.
fn word_of(reply: &[u8]) -> Option<&'static str>
    ensures { option_copied result ≡ spec.word_of reply.now }
{
    if reply.is_empty() {
        Some("nothing")
    } else if reply.starts_with(b"{\"ok\":") {
        Some("ok")
    } else if reply.starts_with(b"{\"stopped\":") {
        Some("stopped")
    } else {
        None
    }
}

/// Appends what a reply says: `ok`, the code of a refusal, or `stopped`; `nothing` where nothing was written. The error
/// is out of memory.
pub(crate) fn push_reply(alloc: Global, out: &mut String, reply: &[u8]) -> Result<(), AllocError>
    ensures { OnOk result (string_bytes out.new ≡ string_bytes out.old ++ spec.reply_members reply.now) }
{
    match word_of(reply) {
        Some(word) => push_text(alloc, out, "result", word),
        None => push_error(alloc, out, reply),
    }
}
