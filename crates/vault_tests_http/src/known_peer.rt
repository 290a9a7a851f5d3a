//! Peers in memory whose bytes are there at once, and a clock that stands still.
use std::alloc::Global;
use std::cell::Cell;
use std::io::{self, Read};
use std::time::{Clock, Duration};
use vaultctl_serve::peer::Peer;

/// A clock that stands still at 2024-01-15T10:30:00Z.
#[derive(Drop)]
pub struct StillClock;

impl Clock for StillClock {
    fn monotonic(&self) -> io::Result<Duration> {
        Ok(Duration::ZERO)
    }

    fn since_1970(&self) -> io::Result<Duration> {
        Ok(Duration::from_secs(1_705_314_600))
    }

    fn sleep(&self, _duration: Duration) {}
}

/// What clients took of their replies and answers, in order, and what others noted among it.
#[derive(Drop)]
pub struct Taken {
    alloc: Global,
    bytes: Cell<Vec<u8>>,
}

impl Taken {
    /// Nothing was taken yet.
    pub fn new(alloc: Global) -> Taken {
        Taken {
            alloc,
            bytes: Cell::new(Vec::new(alloc)),
        }
    }

    /// Adds these bytes. The error is out of memory.
    pub fn push(&self, bytes: &[u8]) -> io::Result<()> {
        let mut all = self.bytes.replace(Vec::new(self.alloc));
        let pushed = all.extend_from_slice(bytes);
        self.bytes.set(all);
        pushed?;
        Ok(())
    }

    /// The bytes, of which none are left.
    pub fn take(&self) -> Vec<u8> {
        self.bytes.replace(Vec::new(self.alloc))
    }
}

/// A peer that has sent these bytes, sends no more, and takes all that it is answered.
#[derive(Drop)]
pub struct KnownPeer<'a> {
    pub sent: Cell<&'static [u8]>,
    pub taken: &'a Taken,
}

impl Peer for KnownPeer<'_> {
    fn read_within(&self, buf: &mut [u8], _limit: Duration) -> io::Result<usize> {
        let mut sent = self.sent.replace(b"");
        if sent.is_empty() {
            return Err(io::Error::from(io::ErrorKind::WouldBlock));
        }
        sent.read(buf)
    }

    fn write_within(&self, buf: &[u8], _limit: Duration) -> io::Result<usize> {
        self.taken.push(buf)?;
        Ok(buf.len())
    }

    fn end(&self) -> io::Result<()> {
        Ok(())
    }
}
