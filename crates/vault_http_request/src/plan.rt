//! What a head asks for, judged point by point.
ghost use Rattle.std.specs.Prelude.{◌≡◌, ◌≤◌, All, IfOk, Some, length, map};
ghost use Rattle.httparse.specs.Spans.{header_bytes, IsHeaderWithin, IsRequestWithin};
ghost use Rattle.vault_values.specs.Fault.{Gives};
ghost use Rattle.vault_http_request.specs.Plan as spec;

use crate::operation::{Operation, Resource, operation_of};
use crate::request_headers::{RequestHeaders, accepted_headers_of, request_headers_of};
use crate::supported::check_supported;
use httparse::spans::{HeaderSpan, RequestSpans};
use std::alloc::Global;
use vault_base::moment::Moment;
use vault_base::refusal::Refusal;
use vault_http_target::target::target_of;
use vault_values::fault::LineFault;

/// What is to be done once the body is there.
#[derive(Drop)]
pub struct Plan {
    pub at: Moment,
    pub operation: Operation,
    pub headers: RequestHeaders,
}

/// What a head asks for.
#[derive(Drop)]
pub enum HeadPlan {
    Plan(Plan),
    /// The target hasn't the method.
    NotAllowed(Resource),
}

fn clock(moment: Option<Moment>) -> Result<Moment, LineFault>
    ensures value { Gives (λ x. x) result (spec.clock moment) }
    ensures at { IfOk result (λ at. moment ≡ Some at) }
{
    match moment {
        Some(at) => Ok(at),
        None => Err(LineFault::Refused(Refusal::ClockOutOfRange)),
    }
}

#[tactic(auto, unfolding(crate::specs::Plan::planned))]
fn planned(
    alloc: Global,
    at: Moment,
    operation: Operation,
    minor: u8,
    buf: &[u8],
    headers: &[HeaderSpan],
) -> Result<HeadPlan, LineFault>
    requires within { All (IsHeaderWithin (length buf.now)) headers.now }
    requires few { length headers.now ≤ 64 }
    ensures value { Gives (λ x. x) result (spec.planned at operation minor (map (header_bytes buf.now) headers.now)) }
    ensures at { IfOk result (spec.IsAt (Some at)) }
{
    match request_headers_of(alloc, accepted_headers_of(&operation), minor, buf, headers) {
        Ok(read) => Ok(HeadPlan::Plan(Plan {
            at,
            operation,
            headers: read,
        })),
        Err(fault) => {
            drop(operation);
            Err(fault)
        }
    }
}

fn allowed(
    alloc: Global,
    at: Moment,
    operation: Result<Operation, Resource>,
    minor: u8,
    buf: &[u8],
    headers: &[HeaderSpan],
) -> Result<HeadPlan, LineFault>
    requires within { All (IsHeaderWithin (length buf.now)) headers.now }
    requires few { length headers.now ≤ 64 }
    ensures value { Gives (λ x. x) result (spec.allowed at operation minor (map (header_bytes buf.now) headers.now)) }
    ensures at { IfOk result (spec.IsAt (Some at)) }
{
    match operation {
        Ok(operation) => planned(alloc, at, operation, minor, buf, headers),
        Err(resource) => Ok(HeadPlan::NotAllowed(resource)),
    }
}

/// What a head asks for at a moment, where the reading is one; its parts lie in a buffer.
///
/// The first fault is the answer, in this order: the reading; a header that asks for what the vault
/// doesn't do; the path; the query; the method; the length of a body; headers twice; the caller; locks.
#[tactic(auto, unfolding(crate::specs::Plan::asked_of))]
pub fn asked_of(
    alloc: Global,
    moment: Option<Moment>,
    buf: &[u8],
    headers: &[HeaderSpan],
    spans: RequestSpans,
) -> Result<HeadPlan, LineFault>
    requires within { IsRequestWithin buf.now headers.now spans }
    requires few { length headers.now ≤ 64 }
    ensures value { Gives (λ x. x) result (spec.asked_in moment buf.now headers.now spans) }
    ensures at { IfOk result (spec.IsAt moment) }
{
    let headers = &headers[..spans.headers];
    let method = spans.method.of(buf);
    let at = clock(moment)?;
    check_supported(buf, headers)?;
    let target = target_of(alloc, method, spans.path.of(buf))?;
    let operation = operation_of(method, target);
    allowed(alloc, at, operation, spans.version, buf, headers)
}
