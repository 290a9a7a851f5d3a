//! How a vault and its server are, printed as a line.
ghost use Rattle.std.specs.Prelude.{◌≡◌, IfOk, string_bytes};
ghost use Rattle.serde_json.specs.View.{view};
ghost use Rattle.vaultctl_serve_lines_answers.specs.StatusLine as spec;

use serde_json::{Value, json};
use std::alloc::{AllocError, Global};
use vault_base::moment::Moment;

/// How a vault and its server are.
#[derive(Clone, Copy, PartialEq, Eq)]
pub struct Status {
    /// How many entries were ever admitted, removed ones and delete markers included.
    pub entries: u64,
    /// How often the vault's device failed since the server has it.
    pub failures: u64,
    /// The moment of the last change.
    pub last: Moment,
    /// When the server began; none where the clock showed no moment then.
    pub since: Option<Moment>,
}

/// When a server began, as a text; null where that isn't known.
fn since_value(alloc: Global, since: Option<Moment>) -> Result<Value, AllocError>
    ensures { IfOk result (λ value. view value ≡ spec.since_value since) }
{
    let Some(since) = since else {
        return Ok(Value::Null);
    };
    let text = since.text(alloc)?;
    json!(in alloc; text.as_str())
}

/// The members of a status whose texts are made.
fn status_members(
    alloc: Global,
    version: &str,
    status: &Status,
    last: &str,
    since: &Value,
) -> Result<Value, AllocError>
    ensures { IfOk result (λ value. view value ≡ spec.status_members version.now status.now last.now (view since.now)) }
{
    json!(in alloc; {
        "entries": status.entries,
        "failures": status.failures,
        "last": last,
        "since": since,
        "version": version
    })
}

fn status_value(alloc: Global, version: &str, status: &Status) -> Result<Value, AllocError>
    ensures { IfOk result (λ value. view value ≡ spec.status_value version.now status.now) }
{
    let last = status.last.text(alloc)?;
    let since = since_value(alloc, status.since)?;
    status_members(alloc, version, status, last.as_str(), &since)
}

pub(crate) fn ok_value(alloc: Global, value: &Value) -> Result<Value, AllocError>
    ensures { IfOk result (λ made. view made ≡ spec.ok_value (view value.now)) }
{
    json!(in alloc; { "ok": value })
}

/// The line of a status, by a program of that version, with its LF: compact JSON, members in the order of their names'
/// bytes. The error is out of memory.
#[tactic(auto, unfolding(crate::specs::StatusLine::status_text))]
pub fn status_line(alloc: Global, version: &str, status: &Status) -> Result<String, AllocError>
    ensures { IfOk result (λ text. string_bytes text ≡ spec.status_text version.now status.now) }
{
    let stated = status_value(alloc, version, status)?;
    let value = ok_value(alloc, &stated)?;
    let mut line = value.to_string(alloc)?;
    line.push_str("\n")?;
    Ok(line)
}
