//! A reader and a writer that fail, for tests of what a fault leaves.

ghost use Rattle.std.specs.Prelude.{◌≡◌, ◌↔◌, ◌+◌, [], length, Some, IsErr, IfErr, IfOk, OnOk};
ghost use Rattle.std.specs.IoError.{error_kind};
ghost use Rattle.std.specs.declared.io.ErrorKind.TheVariants.{BrokenPipe};
ghost use Rattle.std.specs.Io.{ReadsAtMost, WritesAtMost};
ghost use Rattle.std.specs.Io.KnownBytes.{ReadConsumes, WriteAppends};

use std::io::{Error, ErrorKind, Read, Result, Write};

/// Gives its bytes, and then fails where another reader would answer that they have ended.
#[derive(Drop)]
pub struct FailingReader<'a> {
    /// The bytes that are still to be given.
    pub bytes: &'a [u8],
}

impl Read for FailingReader<'_> {
    ghost remaining = { λ r. Some r.bytes.now };

    /// Fails with `BrokenPipe` exactly where no byte is left.
    fn read(&mut self, buf: &mut [u8]) -> Result<usize>
        ensures bound { ReadsAtMost result buf.new }
        ensures bytes { ReadConsumes (Some self.old.bytes.now) (Some self.new.bytes.now) result buf.new }
        ensures fails { IsErr result ↔ (self.old.bytes.now ≡ []) }
    {
        if self.bytes.is_empty() {
            return Err(Error::from(ErrorKind::BrokenPipe));
        }
        self.bytes.read(buf)
    }
}

/// Keeps what is written, and fails once n writes were made.
#[derive(Drop)]
pub struct FailingWriter {
    /// What was written.
    pub written: Vec<u8>,
    /// How many writes are still taken.
    pub writes_left: u64,
}

impl Write for FailingWriter {
    ghost contents = { λ w. Some w.written.items };

    /// Fails with `BrokenPipe` exactly where no write is left, and with `OutOfMemory` where a growth is refused.
    fn write(&mut self, buf: &[u8]) -> Result<usize>
        ensures bound { WritesAtMost result buf.now }
        ensures bytes { WriteAppends (Some self.old.written.items) (Some self.new.written.items) result buf.now }
        ensures whole { IfOk result (λ n. n ≡ length buf.now) }
        ensures fails { self.old.writes_left ≡ 0 → IsErr result }
        ensures broken { IfErr result (λ e. error_kind e ≡ BrokenPipe → self.old.writes_left ≡ 0) }
        ensures counted { OnOk result (self.new.writes_left + 1 ≡ self.old.writes_left) }
    {
        if self.writes_left == 0 {
            return Err(Error::from(ErrorKind::BrokenPipe));
        }
        if self.written.extend_from_slice(buf).is_err() {
            return Err(Error::from(ErrorKind::OutOfMemory));
        }
        self.writes_left -= 1;
        Ok(buf.len())
    }

    fn flush(&mut self) -> Result<()> {
        Ok(())
    }
}
