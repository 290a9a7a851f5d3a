//! The four lines of a seal.
//!
//! ```text
//! before: 2024-03-20T09:00:00Z
//! entries: 1
//! events: 4
//! sha256: (64 hex digits)
//! ```
ghost use Rattle.std.specs.Prelude.{◌≡◌, ◌++◌, IfOk, OnOk, string_bytes};
ghost use Rattle.vault_files_events.specs.Seal as spec;
ghost use Rattle.vault_files_texts.specs.Certificate.{labelled};

use std::alloc::{AllocError, Global};
use vault_base::moment::Moment;

/// What lies before a moment: how many entries were admitted, how many events there were, and the SHA-256 digest of
/// their text, its header included.
#[derive(Clone, Copy, PartialEq, Eq)]
pub struct Seal {
    pub before: Moment,
    pub entries: u64,
    pub events: u64,
    pub digest: [u8; 32],
}

/// Adds a line of a label and a value.
fn push_line(out: &mut String, label: &str, value: &str) -> Result<(), AllocError>
    ensures { OnOk result (string_bytes out.new ≡ string_bytes out.old ++ labelled label.now value.now) }
{
    out.push_str(label)?;
    out.push_str(": ")?;
    out.push_str(value)?;
    out.push_str("\n")
}

/// The four lines of a seal. The error is out of memory.
pub fn seal_text(alloc: Global, seal: &Seal) -> Result<String, AllocError>
    ensures { IfOk result (λ text. string_bytes text ≡ spec.seal_text seal.now) }
{
    let before = seal.before.text(alloc)?;
    let entries = seal.entries.to_string(alloc)?;
    let events = seal.events.to_string(alloc)?;
    let digest = hex::encode(alloc, &seal.digest)?;
    let mut out = String::new(alloc);
    push_line(&mut out, "before", before.as_str())?;
    push_line(&mut out, "entries", entries.as_str())?;
    push_line(&mut out, "events", events.as_str())?;
    push_line(&mut out, "sha256", digest.as_str())?;
    Ok(out)
}
