//! Bytes to a writer.
ghost use Rattle.std.specs.Prelude.{OnOk, OnErr};
ghost use Rattle.std.specs.Io.KnownBytes.{Appends};
ghost use Rattle.vault_io.specs.Begins.{Begins};

use crate::retry::write_retrying;
use std::io::{self, ErrorKind, Write};

/// Writes all these bytes; what an `Err` leaves written is a beginning of them.
///
/// Any error of the writer ends it, but that a signal interrupted a write, which is tried again. `WriteZero`
/// comes where the writer takes no byte.
pub fn write_bytes<W: Write>(writer: &mut W, bytes: &[u8]) -> io::Result<()>
    ensures ok { OnOk result (Appends (W.contents writer.old) (W.contents writer.new) bytes.now) }
    ensures err { OnErr result (Begins (W.contents writer.old) (W.contents writer.new) bytes.now) }
{
    let mut rest = bytes;
    for _turn in 0..u64::MAX {
        if rest.is_empty() {
            return Ok(());
        }
        match write_retrying(writer, rest) {
            Ok(0) => return Err(io::Error::from(ErrorKind::WriteZero)),
            Ok(n) => rest = rest.split_at(n).1,
            Err(error) => return Err(error),
        }
    }
    Err(io::Error::from(ErrorKind::TimedOut))
}
