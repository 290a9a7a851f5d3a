//! Members of a line of the log.
ghost use Rattle.std.specs.Prelude.{◌≡◌, ◌++◌, IfOk, OnOk, string_bytes};
ghost use Rattle.std.specs.Str.Lossy.{utf8_lossy};
ghost use Rattle.vaultctl_log.specs.Members as spec;

use serde_json::json;
use std::alloc::{AllocError, Global};

/// A text as JSON has it, in quotes. The error is out of memory.
#[tactic(auto, unfolding(crate::specs::Members::quoted))]
pub(crate) fn quoted(alloc: Global, text: &str) -> Result<String, AllocError>
    ensures { IfOk result (λ made. string_bytes made ≡ spec.quoted text.now) }
{
    let value = json!(in alloc; text)?;
    value.to_string(alloc)
}

/// Appends a comma, the name of a member, and a colon. The error is out of memory.
pub(crate) fn push_name(out: &mut String, name: &str) -> Result<(), AllocError>
    ensures { OnOk result (string_bytes out.new ≡ string_bytes out.old ++ spec.named name.now) }
{
    out.push_str(",\"")?;
    out.push_str(name)?;
    out.push_str("\":")
}

/// Appends a member that is a text. The error is out of memory.
#[tactic(auto, unfolding(crate::specs::Members::text_member))]
pub(crate) fn push_text(
    alloc: Global,
    out: &mut String,
    name: &str,
    text: &str,
) -> Result<(), AllocError>
    ensures { OnOk result (string_bytes out.new ≡ string_bytes out.old ++ spec.text_member name.now text.now) }
{
    let value = quoted(alloc, text)?;
    push_name(out, name)?;
    out.push_str(value.as_str())
}

/// Appends a member that is a text of these bytes, those of which that are none replaced. The error is out of memory.
pub(crate) fn push_bytes(
    alloc: Global,
    out: &mut String,
    name: &str,
    bytes: &[u8],
) -> Result<(), AllocError>
    ensures { OnOk result (string_bytes out.new ≡ string_bytes out.old ++ spec.text_member name.now (utf8_lossy bytes.now)) }
{
    let text = String::from_utf8_lossy(alloc, bytes)?;
    push_text(alloc, out, name, text.as_str())
}

/// Appends a member that is a number. The error is out of memory.
#[tactic(auto, unfolding(crate::specs::Members::number_member))]
pub(crate) fn push_number(
    alloc: Global,
    out: &mut String,
    name: &str,
    number: u64,
) -> Result<(), AllocError>
    ensures { OnOk result (string_bytes out.new ≡ string_bytes out.old ++ spec.number_member name.now number) }
{
    let digits = number.to_string(alloc)?;
    push_name(out, name)?;
    out.push_str(digits.as_str())
}
