//! The head of a request, read and judged.
ghost use Rattle.std.specs.Prelude.{◌≡◌, ◌≢◌, ℕ, List, Option, Ok, IfErr, IfOk, length};
ghost use Rattle.std.specs.Io.KnownBytes.{Consumes};
ghost use Rattle.httparse.specs.Spans.{IsRequestWithin, span_bytes};
ghost use Rattle.vault_http_request.specs.Plan.{IsAt};
ghost use Rattle.vault_values.specs.Fault.{Gives};
ghost use Rattle.vault_http.specs.Exchange as spec;
ghost use Rattle.vault_http.specs.Judging.{ComesTo, Judges};
ghost use Rattle.vault_http.specs.declared.fault.ServeFault.TheVariants as faults;

use crate::answer::head::Allow;
use crate::fault::ServeFault;
use httparse::spans::{EMPTY_HEADER_SPAN, HeaderSpan, RequestSpans};
use std::alloc::Global;
use std::io::Read;
use vault_base::moment::Moment;
use vault_base::refusal::Refusal;
use vault_http_request::host::{Hosts, is_for};
use vault_http_request::operation::Resource;
use vault_http_request::plan::{HeadPlan, Plan, asked_of};
use vault_http_request::read::head::{Front, read_head};
use vault_values::fault::LineFault;

/// What comes of the front of what a reader gives.
#[derive(Drop)]
pub enum Judgement {
    /// Not one byte.
    Nothing,
    /// No head, or one that is refused: why, which methods the answer reports to be allowed, and whether it shows a body.
    Denied(Refusal, Option<Allow>, bool),
    /// A head that asks for this, and whether its answer shows a body.
    Planned(Plan, bool),
}

/// Whether an answer to the method shows its body.
fn is_shown(method: &[u8]) -> bool
    ensures { result ≡ spec.is_shown method.now }
{
    method != b"HEAD".as_slice()
}

fn allow_of(resource: Resource) -> Allow
    ensures { result ≡ spec.allow_of resource }
{
    match resource {
        Resource::Object => Allow::Object,
        Resource::Setting => Allow::Setting,
        Resource::Bucket => Allow::Bucket,
        Resource::Versions => Allow::Versions,
        Resource::Lifecycle => Allow::Lifecycle,
    }
}

/// What a head asks for, its parts where they lie in the buffer. It is refused where it is for none of the hosts.
fn spans_asked(
    alloc: Global,
    hosts: &Hosts,
    moment: Option<Moment>,
    buf: &[u8],
    headers: &[HeaderSpan],
    spans: RequestSpans,
) -> Result<HeadPlan, LineFault>
    requires within { IsRequestWithin buf.now headers.now spans }
    requires room { length headers.now ≡ 64 }
    ensures value { Gives (λ x. x) result (spec.spans_asked hosts.now moment buf.now headers.now spans) }
    ensures at { IfOk result (IsAt moment) }
{
    if !is_for(hosts, buf, &headers[..spans.headers]) {
        return Err(LineFault::Refused(Refusal::InvalidArgument));
    }
    asked_of(alloc, moment, buf, headers, spans)
}

/// What a head comes to that asks for this.
fn judgement_of(asked: HeadPlan, shown: bool) -> Judgement
    ensures { (moment : Option ℕ) → IsAt moment asked → ComesTo moment shown (Ok asked) result }
{
    match asked {
        HeadPlan::Plan(plan) => Judgement::Planned(plan, shown),
        HeadPlan::NotAllowed(resource) => Judgement::Denied(
            Refusal::MethodNotAllowed,
            Some(allow_of(resource)),
            shown,
        ),
    }
}

/// Judges a head, whose parts lie in the buffer. The error is out of memory.
fn judge_head(
    alloc: Global,
    hosts: &Hosts,
    moment: Option<Moment>,
    buf: &[u8],
    headers: &[HeaderSpan],
    spans: RequestSpans,
) -> Result<Judgement, ServeFault>
    requires within { IsRequestWithin buf.now headers.now spans }
    requires room { length headers.now ≡ 64 }
    ensures comes { IfOk result (ComesTo moment (spec.is_shown (span_bytes buf.now spans.method)) (spec.spans_asked hosts.now moment buf.now headers.now spans)) }
    ensures kind { IfErr result (λ e. e ≡ faults.Memory) }
{
    let shown = is_shown(spans.method.of(buf));
    match spans_asked(alloc, hosts, moment, buf, headers, spans) {
        Ok(asked) => Ok(judgement_of(asked, shown)),
        Err(LineFault::Memory) => Err(ServeFault::Memory),
        Err(LineFault::Refused(refusal)) => Ok(Judgement::Denied(refusal, None, shown)),
    }
}

/// Reads the head of a request and judges it, at a server that answers for these hosts; nothing after it is read.
///
/// `Read` comes where the reader failed, and `Memory` where a growth was refused.
pub fn judge_request<R: Read>(
    alloc: Global,
    reader: &mut R,
    hosts: &Hosts,
    moment: &Option<Moment>,
) -> Result<Judgement, ServeFault>
    ensures judged { IfOk result (λ judged. (buf : List ℕ) × Consumes (R.remaining reader.old) (R.remaining reader.new) buf × Judges hosts.now moment.now (R.remaining reader.old) buf judged) }
    ensures kind { IfErr result (λ e. e ≢ faults.Write) }
{
    let mut buf = Vec::new(alloc);
    let mut headers = [EMPTY_HEADER_SPAN; 64];
    match read_head(reader, &mut buf, &mut headers)? {
        Front::Nothing => Ok(Judgement::Nothing),
        Front::NoHead => Ok(Judgement::Denied(Refusal::InvalidArgument, None, true)),
        Front::Head(spans) => judge_head(alloc, hosts, *moment, buf.as_slice(), &headers, spans),
    }
}
