//! The judgement of a part of a vault's entries, printed as a line.
ghost use Rattle.std.specs.Prelude.{◌≡◌, IfOk, string_bytes};
ghost use Rattle.serde_json.specs.Data.{null};
ghost use Rattle.serde_json.specs.View.{view};
ghost use Rattle.vaultctl_serve_lines_answers.specs.LawfulLine as spec;

use crate::page_line::next_value;
use crate::status_line::ok_value;
use serde_json::{Value, json};
use std::alloc::{AllocError, Global};
use vault_base::name::VersionId;

fn breach_value(alloc: Global, id: VersionId, law: &str) -> Result<Value, AllocError>
    ensures { IfOk result (λ value. view value ≡ spec.breach_value id law.now) }
{
    json!(in alloc; { "law": law, "version_id": u64::from(id.number()) })
}

fn no_breach() -> Value
    ensures { view result ≡ null }
{
    Value::Null
}

fn judged_members(alloc: Global, breach: &Value, next: &Value) -> Result<Value, AllocError>
    ensures { IfOk result (λ value. view value ≡ spec.judged_members (view breach.now) (view next.now)) }
{
    json!(in alloc; { "breach": breach, "next": next })
}

fn judged_value(alloc: Global, breach: &Value, next: Option<u32>) -> Result<Value, AllocError>
    ensures { IfOk result (λ value. view value ≡ spec.judged_value (view breach.now) next) }
{
    let next = next_value(alloc, next)?;
    judged_members(alloc, breach, &next)
}

/// The line of a part in which that entry is the first that breaks a law, and that law the first that it breaks; with its
/// LF: compact JSON. `next` is the id after which the next part begins; none after the last one. The error is want of
/// memory.
#[tactic(auto, unfolding(crate::specs::LawfulLine::breach_text))]
pub fn breach_line(
    alloc: Global,
    id: VersionId,
    law: &str,
    next: Option<u32>,
) -> Result<String, AllocError>
    ensures { IfOk result (λ line. string_bytes line ≡ spec.breach_text id law.now next) }
{
    let breach = breach_value(alloc, id, law)?;
    let stated = judged_value(alloc, &breach, next)?;
    let value = ok_value(alloc, &stated)?;
    let mut line = value.to_string(alloc)?;
    line.push_str("\n")?;
    Ok(line)
}

/// The line of a part in which no entry breaks a law, as `breach_line` has it.
#[tactic(auto, unfolding(crate::specs::LawfulLine::clean_text))]
pub fn clean_line(alloc: Global, next: Option<u32>) -> Result<String, AllocError>
    ensures { IfOk result (λ line. string_bytes line ≡ spec.clean_text next) }
{
    let stated = judged_value(alloc, &no_breach(), next)?;
    let value = ok_value(alloc, &stated)?;
    let mut line = value.to_string(alloc)?;
    line.push_str("\n")?;
    Ok(line)
}
