//! The bytes of an answer.
ghost use Rattle.std.specs.Prelude.{IfOk};
ghost use Rattle.vault_http.specs.Answer.{Answers};

use crate::answer::date::date_of;
use crate::answer::head::Head;
use crate::answer::lines::{
    push_allow, push_body, push_date, push_hold, push_length, push_line, push_marker,
    push_retention, push_status, push_type, push_version,
};
use std::alloc::{AllocError, Global};
use vault_base::moment::Moment;

/// The bytes of an answer at a moment; where the reading was none, there is no date. `shown` is false
/// for HEAD, whose answer has all headers and no body (RFC 9110, section 9.3.2).
///
/// The error is out of memory.
pub fn write_answer(
    alloc: Global,
    moment: Option<Moment>,
    head: Head,
    body: &[u8],
    shown: bool,
) -> Result<Vec<u8>, AllocError>
    ensures { IfOk result (λ out. Answers moment head body.now shown out.items) }
{
    let mut out = Vec::new(alloc);
    let date = date_of(moment);
    push_status(&mut out, head.status)?;
    push_date(&mut out, date)?;
    push_line(&mut out, b"connection: close")?;
    push_type(&mut out, head.kind)?;
    push_length(alloc, &mut out, head.kind)?;
    push_allow(&mut out, head.allow)?;
    push_marker(&mut out, head.marker)?;
    push_version(alloc, &mut out, head.version)?;
    push_retention(alloc, &mut out, head.retention)?;
    push_hold(&mut out, head.hold)?;
    push_line(&mut out, b"")?;
    push_body(&mut out, body, shown)?;
    Ok(out)
}
