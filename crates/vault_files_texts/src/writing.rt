//! Records to a writer.
ghost use Rattle.std.specs.Prelude.{◌≢◌, OnOk, OnErr};
ghost use Rattle.std.specs.Io.KnownBytes.{Appends, Keeps};
ghost use Rattle.vault_io.specs.Begins.{Begins};

use crate::fault::ExportFault;
use std::io::Write;
use vault_io::writing as bytes;

/// Writes all these bytes; what an `Err` leaves written is a beginning of them.
pub(crate) fn write_bytes<W: Write>(writer: &mut W, bytes: &[u8]) -> Result<(), ExportFault>
    ensures ok { OnOk result (Appends (W.contents writer.old) (W.contents writer.new) bytes.now) }
    ensures err { OnErr result (Begins (W.contents writer.old) (W.contents writer.new) bytes.now) }
    ensures kind { result ≢ Err ExportFault.Device }
{
    match bytes::write_bytes(writer, bytes) {
        Ok(()) => Ok(()),
        Err(_) => Err(ExportFault::Write),
    }
}

/// Hands on what the writer holds back.
pub(crate) fn flush<W: Write>(writer: &mut W) -> Result<(), ExportFault>
    ensures keeps { Keeps (W.contents writer.old) (W.contents writer.new) }
    ensures kind { result ≢ Err ExportFault.Device }
{
    match writer.flush() {
        Ok(()) => Ok(()),
        Err(_) => Err(ExportFault::Write),
    }
}
