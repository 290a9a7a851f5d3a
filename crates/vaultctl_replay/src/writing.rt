//! Replies to a writer.
ghost use Rattle.std.specs.Prelude.{◌≡◌, IfErr, OnOk, OnErr};
ghost use Rattle.std.specs.Io.KnownBytes.{Appends, Keeps};
ghost use Rattle.vault_io.specs.Begins.{Begins};

use crate::fault::ReplayFault;
use std::io::Write;
use vault_io::writing as bytes;

/// Writes all these bytes; what an `Err` leaves written is a beginning of them.
pub fn write_bytes<W: Write>(writer: &mut W, bytes: &[u8]) -> Result<(), ReplayFault>
    ensures ok { OnOk result (Appends (W.contents writer.old) (W.contents writer.new) bytes.now) }
    ensures err { OnErr result (Begins (W.contents writer.old) (W.contents writer.new) bytes.now) }
    ensures kind { ¬ (result ≡ Err ReplayFault.Read) }
    ensures write { IfErr result (λ e. e ≡ ReplayFault.Write) }
{
    match bytes::write_bytes(writer, bytes) {
        Ok(()) => Ok(()),
        Err(_) => Err(ReplayFault::Write),
    }
}

/// Hands on what the writer holds back.
pub fn flush<W: Write>(writer: &mut W) -> Result<(), ReplayFault>
    ensures keeps { Keeps (W.contents writer.old) (W.contents writer.new) }
    ensures kind { ¬ (result ≡ Err ReplayFault.Read) }
    ensures write { IfErr result (λ e. e ≡ ReplayFault.Write) }
{
    match writer.flush() {
        Ok(()) => Ok(()),
        Err(_) => Err(ReplayFault::Write),
    }
}
