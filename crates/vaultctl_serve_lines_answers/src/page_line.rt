//! A part of a text, printed as a line.
ghost use Rattle.std.specs.Prelude.{◌≡◌, IfOk, string_bytes};
ghost use Rattle.serde_json.specs.View.{view};
ghost use Rattle.vaultctl_serve_lines_answers.specs.PageLine as spec;

use crate::status_line::ok_value;
use serde_json::{Value, json};
use std::alloc::{AllocError, Global};

/// The id after which the next part begins; null after the last one.
pub(crate) fn next_value(alloc: Global, next: Option<u32>) -> Result<Value, AllocError>
    ensures { IfOk result (λ value. view value ≡ spec.next_value next) }
{
    let Some(next) = next else {
        return Ok(Value::Null);
    };
    json!(in alloc; u64::from(next))
}

fn page_members(alloc: Global, text: &str, next: &Value) -> Result<Value, AllocError>
    ensures { IfOk result (λ value. view value ≡ spec.page_members text.now (view next.now)) }
{
    json!(in alloc; { "next": next, "text": text })
}

fn page_value(alloc: Global, text: &str, next: Option<u32>) -> Result<Value, AllocError>
    ensures { IfOk result (λ value. view value ≡ spec.page_value text.now next) }
{
    let next = next_value(alloc, next)?;
    page_members(alloc, text, &next)
}

/// The line of a part of a text, with its LF: compact JSON. `next` is the id after which the next part begins; none after
/// the last one. The error is out of memory.
#[tactic(auto, unfolding(crate::specs::PageLine::page_line_text))]
pub fn page_line(alloc: Global, text: &str, next: Option<u32>) -> Result<String, AllocError>
    ensures { IfOk result (λ line. string_bytes line ≡ spec.page_line_text text.now next) }
{
    let stated = page_value(alloc, text, next)?;
    let value = ok_value(alloc, &stated)?;
    let mut line = value.to_string(alloc)?;
    line.push_str("\n")?;
    Ok(line)
}
