//! A reader's bytes, one by one and in pieces.
ghost use Rattle.std.specs.Prelude.{◌≢◌, ◌<◌, IfErr, IfOk, length};
ghost use Rattle.std.specs.Io.{ReadsAtMost};
ghost use Rattle.std.specs.IoError.{error_kind};
ghost use Rattle.vault_http_request.specs.Bytes.{NextByte, NextBytes};

use std::io::{ErrorKind, Read, Result};
use thiserror::Error;
use vault_io::retry::read_retrying;

/// Why a request couldn't be read.
#[derive(Clone, Copy, Debug, PartialEq, Eq, Error)]
pub enum ReadFault {
    /// The reader failed.
    #[error("the reader failed")]
    Read,
    /// No memory was left for what it gave.
    #[error("out of memory")]
    Memory,
}

/// The next bytes, at the front of a buffer, and how many; none only at the end. A read that a signal interrupts is
/// tried again, and never reported.
pub fn next_bytes<R: Read>(reader: &mut R, buf: &mut [u8]) -> Result<usize>
    requires { 0 < length buf.old }
    ensures bound { ReadsAtMost result buf.new }
    ensures next { IfOk result (NextBytes (R.remaining reader.old) (R.remaining reader.new) buf.new) }
    ensures retried { IfErr result (λ e. error_kind e ≢ ErrorKind.Interrupted) }
{
    read_retrying(reader, buf)
}

/// The next byte, or none at the end, likewise.
pub fn next_byte<R: Read>(reader: &mut R) -> Result<Option<u8>>
    ensures next { IfOk result (λ next. NextByte (R.remaining reader.old) (R.remaining reader.new) next) }
    ensures retried { IfErr result (λ e. error_kind e ≢ ErrorKind.Interrupted) }
{
    let mut one = [0u8; 1];
    match next_bytes(reader, &mut one) {
        Ok(0) => Ok(None),
        Ok(_) => Ok(Some(one[0])),
        Err(error) => Err(error),
    }
}
