//! Which version this is.
ghost use Rattle.std.specs.Prelude.{◌≡◌, ◌≢◌, IfOk, string_bytes};
ghost use Rattle.std.specs.Io.KnownBytes.{Appends};
ghost use Rattle.vaultctl_perform.specs.Printed as spec;

use crate::messages::status;
use std::alloc::{AllocError, Global};
use std::io::Write;
use vaultctl_commands::fault::JobFault;
use vaultctl_commands::outcome::Outcome;
use vaultctl_commands::printing::print;

/// The line of a version, with the commit if there is one. The error is out of memory.
fn version_line(alloc: Global, version: &str, commit: &str) -> Result<String, AllocError>
    ensures { IfOk result (λ line. string_bytes line ≡ spec.version_line version.now commit.now) }
{
    let mut line = String::from_str(alloc, "vaultctl ")?;
    line.push_str(version)?;
    if !commit.is_empty() {
        line.push_str(", commit ")?;
        line.push_str(commit)?;
    }
    line.push_str("\n")?;
    Ok(line)
}

/// Prints that line.
fn print_version<W: Write>(
    alloc: Global,
    version: &str,
    commit: &str,
    out: &mut W,
) -> Result<Outcome, JobFault>
    ensures { IfOk result (λ stated. (stated ≡ Outcome.Done) × Appends (W.contents out.old) (W.contents out.new) (spec.version_line version.now commit.now)) }
{
    let Ok(line) = version_line(alloc, version, commit) else {
        return Err(JobFault::Memory);
    };
    print(out, line.as_str())?;
    Ok(Outcome::Done)
}

/// Prints the version, and the commit if there is one, and answers the status: 0, or 1 where they can't be written, which
/// `err` gets as `version: Write`, or where memory was refused.
pub fn answer_version<W: Write, E: Write>(
    alloc: Global,
    version: &str,
    commit: &str,
    out: &mut W,
    err: &mut E,
) -> u8
    ensures status { result ≢ 2 }
    ensures printed { result ≡ 0 → Appends (W.contents out.old) (W.contents out.new) (spec.version_line version.now commit.now) }
{
    status(err, "version", print_version(alloc, version, commit, out))
}
