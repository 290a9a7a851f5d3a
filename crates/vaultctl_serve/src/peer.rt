//! The other side of a connection.
ghost use Rattle.std.specs.Io.{ReadsAtMost, WritesAtMost};

use std::io::{self, Read, Write};
use std::net::{Shutdown, TcpStream};
use std::time::Duration;

/// The other side of a connection, for which one waits so long and no longer.
pub trait Peer {
    /// Reads what has come, or waits for it; that nothing came in time is an error like any other.
    fn read_within(&self, buf: &mut [u8], limit: Duration) -> io::Result<usize>
        ensures bound { ReadsAtMost result buf.new };

    /// Writes what is taken, or waits until something is; that nothing was taken in time is an error like any
    /// other.
    fn write_within(&self, buf: &[u8], limit: Duration) -> io::Result<usize>
        ensures bound { WritesAtMost result buf.now };

    /// States it that nothing more is written.
    fn end(&self) -> io::Result<()>;
}

impl Peer for TcpStream {
    fn read_within(&self, buf: &mut [u8], limit: Duration) -> io::Result<usize> {
        self.set_read_timeout(Some(limit))?;
        let mut stream = self;
        stream.read(buf)
    }

    fn write_within(&self, buf: &[u8], limit: Duration) -> io::Result<usize> {
        self.set_write_timeout(Some(limit))?;
        let mut stream = self;
        stream.write(buf)
    }

    fn end(&self) -> io::Result<()> {
        self.shutdown(Shutdown::Write)
    }
}
