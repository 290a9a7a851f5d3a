//! What comes in on a connection, and what goes out on it.
ghost use Rattle.std.specs.Prelude.{◌≡◌, ℕ, ◌+◌, List, Option, None, IfOk, IsSome};
ghost use Rattle.std.specs.Duration.{as_nanos};
ghost use Rattle.std.specs.Io.{ReadsAtMost, WritesAtMost};
ghost use Rattle.std.specs.Io.KnownBytes.{WriteAppends};
ghost use Rattle.vaultctl_serve.specs.InTime.{Comes, Due};

use crate::peer::Peer;
use std::io;
use std::time::{Clock, Duration, Instant};

/// What comes in on a connection, and when.
pub trait Inbound {
    /// The bytes that come from here on, each with when it comes, where that is known; of a socket it isn't.
    ghost coming: { Self → Option (List Due) };

    /// Nanoseconds since the connection was taken.
    ghost time: { Self → ℕ };

    /// How long ago the connection was taken.
    fn passed(&mut self) -> io::Result<Duration>
        ensures coming { coming self.new ≡ coming self.old }
        ensures value { IsSome (coming self.old) → IfOk result (λ passed. as_nanos passed ≡ time self.new) };

    /// Reads what has come, or waits for it, so long and no longer.
    fn read_within(&mut self, buf: &mut [u8], limit: Duration) -> io::Result<usize>
        ensures bound { ReadsAtMost result buf.new }
        ensures bytes { Comes (coming self.old) (coming self.new) (time self.old + as_nanos limit) result buf.new };
}

/// What goes out on a connection.
pub trait Outbound {
    /// The bytes that were taken, where they are known.
    ghost contents: { Self → Option (List ℕ) };

    /// How long ago the connection was taken.
    fn passed(&mut self) -> io::Result<Duration>
        ensures contents { contents self.new ≡ contents self.old };

    /// Writes what is taken, or waits until something is, so long and no longer.
    fn write_within(&mut self, buf: &[u8], limit: Duration) -> io::Result<usize>
        ensures bound { WritesAtMost result buf.now }
        ensures bytes { WriteAppends (contents self.old) (contents self.new) result buf.now };
}

/// The peer of a connection, and when that was taken.
#[derive(Drop)]
pub struct TimedPeer<'a, C: Clock, P: Peer> {
    /// The clock that counts the time.
    pub clock: &'a C,
    /// The other side.
    pub peer: &'a P,
    /// When the connection was taken.
    pub since: Instant,
}

impl<C: Clock, P: Peer> Inbound for TimedPeer<'_, C, P> {
    ghost coming = { λ _. None };

    ghost time = { λ _. 0 };

    fn passed(&mut self) -> io::Result<Duration> {
        self.since.elapsed(self.clock)
    }

    fn read_within(&mut self, buf: &mut [u8], limit: Duration) -> io::Result<usize> {
        self.peer.read_within(buf, limit)
    }
}

impl<C: Clock, P: Peer> Outbound for TimedPeer<'_, C, P> {
    ghost contents = { λ _. None };

    fn passed(&mut self) -> io::Result<Duration> {
        self.since.elapsed(self.clock)
    }

    fn write_within(&mut self, buf: &[u8], limit: Duration) -> io::Result<usize> {
        self.peer.write_within(buf, limit)
    }
}
