//! Bytes to a writer.
ghost use Rattle.std.specs.Prelude.{◌≡◌, [], true, IfErr, OnOk, if◌then◌else◌};
ghost use Rattle.std.specs.Io.KnownBytes.{Appends, Keeps};
ghost use Rattle.vault_io.specs.Begins.{Begins};
ghost use Rattle.vault_http.specs.Exchange.{go_on};
ghost use Rattle.vault_http.specs.declared.fault.ServeFault.TheVariants as faults;

use crate::fault::ServeFault;
use std::io::Write;
use vault_io::writing::write_bytes;

/// Hands on what the writer holds back.
fn hand_on<W: Write>(writer: &mut W) -> Result<(), ServeFault>
    ensures keeps { Keeps (W.contents writer.old) (W.contents writer.new) }
    ensures err { IfErr result (λ e. e ≡ faults.Write) }
{
    match writer.flush() {
        Ok(()) => Ok(()),
        Err(_) => Err(ServeFault::Write),
    }
}

/// Writes all these bytes, and hands on what the writer holds back; what an `Err` leaves written is a beginning
/// of them.
pub fn send<W: Write>(writer: &mut W, bytes: &[u8]) -> Result<(), ServeFault>
    ensures ok { OnOk result (Appends (W.contents writer.old) (W.contents writer.new) bytes.now) }
    ensures err { IfErr result (λ e. (e ≡ faults.Write) × Begins (W.contents writer.old) (W.contents writer.new) bytes.now) }
{
    match write_bytes(writer, bytes) {
        Ok(()) => hand_on(writer),
        Err(_) => Err(ServeFault::Write),
    }
}

/// States a client that waits to go on.
pub fn send_interim<W: Write>(writer: &mut W, waits: bool) -> Result<(), ServeFault>
    ensures ok { OnOk result (Appends (W.contents writer.old) (W.contents writer.new) (if waits then go_on else [])) }
    ensures err { IfErr result (λ e. (e ≡ faults.Write) × (waits ≡ true) × Begins (W.contents writer.old) (W.contents writer.new) go_on) }
{
    if waits {
        send(writer, b"HTTP/1.1 100 Continue\r\n\r\n")
    } else {
        Ok(())
    }
}
