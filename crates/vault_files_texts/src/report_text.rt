//! Reports as text.
//!
//! ```text
//! department  records
//! at          2024-01-16T00:00:00Z
//! admitted                     100
//! received                       0
//! held                           0
//! removed                      100
//! handed                         0
//! byte-days                    100
//! ```
ghost use Rattle.std.specs.Prelude.{◌≡◌, ◌++◌, ◌-◌, IfOk, OnOk, string_bytes};
ghost use Rattle.vault_files_texts.specs.ReportText as spec;

use std::alloc::{AllocError, Global};
use vault_core_model::reply::Report;

/// Appends n blanks.
fn push_blanks(out: &mut String, count: usize) -> Result<(), AllocError>
    ensures { OnOk result (string_bytes out.new ≡ string_bytes out.old ++ spec.blanks count) }
{
    for _ in 0..count {
        out.push(' ')?;
    }
    Ok(())
}

/// Appends a label, filled up to its 12 places.
fn push_label(out: &mut String, label: &str) -> Result<(), AllocError>
    ensures { OnOk result (string_bytes out.new ≡ string_bytes out.old ++ spec.left_in_12 label.now) }
{
    out.push_str(label)?;
    push_blanks(out, 12_usize.saturating_sub(label.len()))
}

/// Appends a line of a label and a text.
#[tactic(auto, unfolding(crate::specs::ReportText::text_line))]
fn push_text(out: &mut String, label: &str, value: &str) -> Result<(), AllocError>
    ensures { OnOk result (string_bytes out.new ≡ string_bytes out.old ++ spec.text_line label.now value.now) }
{
    push_label(out, label)?;
    out.push_str(value)?;
    out.push_str("\n")
}

/// Appends a line of a label and a number, which stands right in 20 places.
#[tactic(auto, unfolding(crate::specs::ReportText::text_line, crate::specs::ReportText::number_line))]
fn push_number(alloc: Global, out: &mut String, label: &str, n: u64) -> Result<(), AllocError>
    ensures { OnOk result (string_bytes out.new ≡ string_bytes out.old ++ spec.number_line label.now n) }
{
    let digits = n.to_string(alloc)?;
    push_label(out, label)?;
    push_blanks(out, 20_usize.saturating_sub(digits.len()))?;
    out.push_str(digits.as_str())?;
    out.push_str("\n")
}

/// The report of a department at a moment as text, a line for each of its parts: labels left in 12 places,
/// numbers right in 20. The error is out of memory.
#[tactic(auto, unfolding(crate::specs::ReportText::report_text))]
pub fn report_text(alloc: Global, report: &Report) -> Result<String, AllocError>
    ensures { IfOk result (λ text. string_bytes text ≡ spec.report_text report.now) }
{
    let at = report.at.text(alloc)?;
    let mut out = String::new(alloc);
    push_text(&mut out, "department", report.dept.as_str())?;
    push_text(&mut out, "at", at.as_str())?;
    push_number(alloc, &mut out, "admitted", report.admitted)?;
    push_number(alloc, &mut out, "received", report.received)?;
    push_number(alloc, &mut out, "held", report.held)?;
    push_number(alloc, &mut out, "removed", report.removed)?;
    push_number(alloc, &mut out, "handed", report.handed)?;
    push_number(alloc, &mut out, "byte-days", report.byte_days)?;
    Ok(out)
}
