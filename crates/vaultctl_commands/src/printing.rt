//! Texts to standard output.
ghost use Rattle.std.specs.Prelude.{◌≢◌, OnOk};
ghost use Rattle.std.specs.Io.KnownBytes.{Appends};

use crate::fault::JobFault;
use std::io::Write;

/// Writes a text, and hands on what the writer holds back. `Write` is its only fault.
pub fn print<W: Write>(out: &mut W, text: &str) -> Result<(), JobFault>
    ensures ok { OnOk result (Appends (W.contents out.old) (W.contents out.new) text.now) }
    ensures reader { result ≢ Err JobFault.Read }
    ensures device { result ≢ Err JobFault.Device }
    ensures memory { result ≢ Err JobFault.Memory }
{
    if out.write_all(text.as_bytes()).is_err() {
        return Err(JobFault::Write);
    }
    match out.flush() {
        Ok(()) => Ok(()),
        Err(_) => Err(JobFault::Write),
    }
}
