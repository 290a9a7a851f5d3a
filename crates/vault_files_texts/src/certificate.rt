//! Certificates of destruction.
//!
//! ```text
//! CERTIFICATE OF DESTRUCTION
//! version: 1
//! bucket: docs
//! key: a
//! size: 5
//! sha256: 2cf24dba5fb0a30e26e83b2ac5b9e29e1b161e5c1fa7425e73043362938b9824
//! admitted: 2024-01-15T10:30:00Z by ann
//! removed: 2024-01-16T00:00:00Z
//! cause: request ann
//! days held: 1
//! seal: (64 hex digits)
//! ```
//!
//! Where its bucket moved while the version was held, a line for each department that had it, oldest first (a
//! department that had it twice has two), stands above the seal:
//!
//! ```text
//! days held: 5
//! of which records: 2
//! of which court: 3
//! ```
ghost use Rattle.std.specs.Prelude.{◌≡◌, ◌++◌, IfOk, OnOk, codes, string_bytes};
ghost use Rattle.std.specs.Fmt.{decimal};
ghost use Rattle.hex.specs.Hex.{encode_lower};
ghost use Rattle.sha2.specs.Sha256.{sha256};
ghost use Rattle.vault_files_texts.specs.Certificate as spec;
ghost use Rattle.vault_files_texts.specs.Removed.{author_text as author_of};
ghost use Rattle.vault_base.specs.Moment.{moment_text};

use crate::removed::{author_text, cause_kind, cause_name, days_between, digest_text};
use sha2::{Digest, Sha256};
use std::alloc::{AllocError, Global};
use vault_base::moment::Moment;
use vault_core_model::records::{Cause, Entry, Removal, Tenure};

/// Appends a line of a label and a value.
fn push_line(out: &mut String, label: &str, value: &str) -> Result<(), AllocError>
    ensures { OnOk result (string_bytes out.new ≡ string_bytes out.old ++ spec.labelled label.now value.now) }
{
    out.push_str(label)?;
    out.push_str(": ")?;
    out.push_str(value)?;
    out.push_str("\n")
}

/// Appends a line of a label and a number.
fn push_number(alloc: Global, out: &mut String, label: &str, n: u64) -> Result<(), AllocError>
    ensures { OnOk result (string_bytes out.new ≡ string_bytes out.old ++ spec.labelled label.now (decimal n)) }
{
    let digits = n.to_string(alloc)?;
    push_line(out, label, digits.as_str())
}

/// Appends what was destroyed.
#[tactic(auto, unfolding(crate::specs::Certificate::version_lines))]
fn push_version(alloc: Global, out: &mut String, entry: &Entry) -> Result<(), AllocError>
    ensures { OnOk result (string_bytes out.new ≡ string_bytes out.old ++ spec.version_lines entry.now) }
{
    let digest = digest_text(alloc, entry.digest.as_ref())?;
    push_number(alloc, out, "version", u64::from(entry.id.number()))?;
    push_line(out, "bucket", entry.bucket.as_str())?;
    push_line(out, "key", entry.key.as_str())?;
    push_number(alloc, out, "size", entry.size)?;
    push_line(out, "sha256", digest.as_str())
}

/// When an entry was admitted, and by whom.
fn admission_text(alloc: Global, entry: &Entry) -> Result<String, AllocError>
    ensures { IfOk result (λ text. string_bytes text ≡ moment_text entry.now.admitted ++ codes " by " ++ author_of entry.now.by) }
{
    let mut text = entry.admitted.text(alloc)?;
    let author = author_text(alloc, &entry.by)?;
    text.push_str(" by ")?;
    text.push_str(author.as_str())?;
    Ok(text)
}

/// Why an entry was removed, as `request ann`.
fn cause_text(alloc: Global, cause: &Cause) -> Result<String, AllocError>
    ensures { IfOk result (λ text. string_bytes text ≡ spec.cause_text cause.now) }
{
    let mut text = String::from_str(alloc, cause_kind(cause))?;
    text.push_str(" ")?;
    text.push_str(cause_name(cause))?;
    Ok(text)
}

/// Appends when and why an entry was removed, and how long it was held.
#[tactic(auto, unfolding(crate::specs::Certificate::removal_lines))]
fn push_removal(
    alloc: Global,
    out: &mut String,
    entry: &Entry,
    removal: &Removal,
) -> Result<(), AllocError>
    ensures { OnOk result (string_bytes out.new ≡ string_bytes out.old ++ spec.removal_lines entry.now removal.now) }
{
    let admission = admission_text(alloc, entry)?;
    let removed = removal.at.text(alloc)?;
    let cause = cause_text(alloc, &removal.cause)?;
    push_line(out, "admitted", admission.as_str())?;
    push_line(out, "removed", removed.as_str())?;
    push_line(out, "cause", cause.as_str())?;
    push_number(
        alloc,
        out,
        "days held",
        days_between(entry.admitted, removal.at),
    )
}

/// When a tenure ended, before those: as the next one began, or else as the version was removed.
fn end_before(removed: Moment, later: &[Tenure]) -> Moment
    ensures { result ≡ spec.end_before removed later.now }
{
    match later {
        [next, ..] => next.from,
        [] => removed,
    }
}

/// Appends a line for a department that had the version until that moment, and for how many whole days.
#[tactic(auto, unfolding(crate::specs::Certificate::tenure_line))]
fn push_tenure(
    alloc: Global,
    out: &mut String,
    tenure: &Tenure,
    end: Moment,
) -> Result<(), AllocError>
    ensures { OnOk result (string_bytes out.new ≡ string_bytes out.old ++ spec.tenure_line tenure.now end) }
{
    out.push_str("of which ")?;
    push_number(
        alloc,
        out,
        tenure.dept.as_str(),
        days_between(tenure.from, end),
    )
}

/// Appends a line for each tenure.
fn push_each_tenure(
    alloc: Global,
    out: &mut String,
    tenures: &[Tenure],
    removed: Moment,
) -> Result<(), AllocError>
    ensures { OnOk result (string_bytes out.new ≡ string_bytes out.old ++ spec.of_which removed tenures.now) }
{
    let mut rest = tenures;
    while let [tenure, later @ ..] = rest {
        push_tenure(alloc, out, tenure, end_before(removed, later))?;
        rest = later;
    }
    Ok(())
}

/// Appends which departments had the version, where it has two tenures or more.
fn push_tenures(
    alloc: Global,
    out: &mut String,
    tenures: &[Tenure],
    removed: Moment,
) -> Result<(), AllocError>
    ensures { OnOk result (string_bytes out.new ≡ string_bytes out.old ++ spec.tenure_lines removed tenures.now) }
{
    match tenures {
        [] | [_] => Ok(()),
        _ => push_each_tenure(alloc, out, tenures, removed),
    }
}

/// The lines above the seal.
#[tactic(auto, unfolding(crate::specs::Certificate::body))]
fn body(
    alloc: Global,
    entry: &Entry,
    removal: &Removal,
    tenures: &[Tenure],
) -> Result<String, AllocError>
    ensures { IfOk result (λ text. string_bytes text ≡ spec.body entry.now removal.now tenures.now) }
{
    let mut out = String::from_str(alloc, "CERTIFICATE OF DESTRUCTION\n")?;
    push_version(alloc, &mut out, entry)?;
    push_removal(alloc, &mut out, entry, removal)?;
    push_tenures(alloc, &mut out, tenures, removal.at)?;
    Ok(out)
}

/// The hex digits of the SHA-256 digest of a text (FIPS 180-4).
fn seal(alloc: Global, text: &[u8]) -> Result<String, AllocError>
    ensures { IfOk result (λ seal. string_bytes seal ≡ encode_lower (sha256 text.now)) }
{
    let digest = Sha256::digest(text);
    hex::encode(alloc, digest.as_slice())
}

/// The text with its seal's line below.
fn sealed(alloc: Global, text: String) -> Result<String, AllocError>
    ensures { IfOk result (λ sealed. string_bytes sealed ≡ spec.sealed (string_bytes text)) }
{
    let mut text = text;
    let seal = seal(alloc, text.as_bytes())?;
    push_line(&mut text, "seal", seal.as_str())?;
    Ok(text)
}

/// The certificate of a removed content version: what it was, when and by whom it was admitted and removed,
/// how many whole days it was held, and a seal, which is the SHA-256 digest of all bytes above its line.
/// Of two tenures or more it states each: its department, and the whole days from its beginning to its end.
///
/// A marker and a version that is held have no certificate; their text is empty. The error is out of memory.
#[tactic(auto, unfolding(crate::specs::Certificate::certificate_text))]
pub fn certificate(alloc: Global, entry: &Entry, tenures: &[Tenure]) -> Result<String, AllocError>
    ensures { IfOk result (λ text. string_bytes text ≡ spec.certificate_text entry.now tenures.now) }
{
    if entry.marker {
        return Ok(String::new(alloc));
    }
    let Some(removal) = entry.removal.as_ref() else {
        return Ok(String::new(alloc));
    };
    let text = body(alloc, entry, removal, tenures)?;
    sealed(alloc, text)
}
