//! Requests that come in time, and answers that are taken in time.
ghost use Rattle.std.specs.Prelude.{◌≡◌, ◌≤◌, ◌*◌, IfOk, IsErr};
ghost use Rattle.std.specs.Duration.{as_nanos};
ghost use Rattle.std.specs.Io.{ReadsAtMost, WritesAtMost};
ghost use Rattle.std.specs.Io.KnownBytes.{ReadConsumes, WriteAppends};
ghost use Rattle.vaultctl_serve.specs.InTime.{allowed as allowed_by, known_in_time};
ghost use Rattle.vaultctl_serve.specs.declared.scan.Scan.TheVariants.{Leading};

use crate::deadline::{ANSWER, HEAD, REQUEST, time_left};
use crate::inbound::{Inbound, Outbound};
use crate::scan::Scan;
use std::io::{self, Read, Write};
use std::time::Duration;

/// The time from when a connection was taken in which the next byte of a request has to come.
fn allowed(scan: Scan) -> Duration
    ensures { as_nanos result ≡ allowed_by scan }
{
    match scan {
        Scan::Ended => Duration::from_millis(REQUEST),
        Scan::Leading | Scan::Within | Scan::Fresh => Duration::from_millis(HEAD),
    }
}

/// A request that has to come in time: its head within 5 seconds from when its connection was taken, all of it
/// within 30. What is late is a failed read, as is one whose time the clock can't say.
#[derive(Drop)]
pub struct TimedRequest<I: Inbound> {
    inbound: I,
    scan: Scan,
}

impl<I: Inbound> TimedRequest<I> {
    /// What a connection has to say of which nothing was read.
    pub fn new(inbound: I) -> TimedRequest<I>
        ensures inbound { result.inbound ≡ inbound }
        ensures scan { result.scan ≡ Leading }
    {
        TimedRequest {
            inbound,
            scan: Scan::Leading,
        }
    }
}

impl<I: Inbound> Read for TimedRequest<I> {
    // The bytes that come in time: what comes after them is never given.
    ghost remaining = { λ request. known_in_time request.scan (I.coming request.inbound) };

    fn read(&mut self, buf: &mut [u8]) -> io::Result<usize> {
        let left = time_left(allowed(self.scan), self.inbound.passed()?)?;
        let count = self.inbound.read_within(buf, left)?;
        self.scan = self.scan.after(&buf[..count]);
        Ok(count)
    }
}

/// An answer that has to be taken in time: where one has waited for its client for 10 seconds, one write or
/// several, the next write fails.
#[derive(Drop)]
pub struct TimedAnswer<O: Outbound> {
    outbound: O,
    waited: Duration,
}

impl<O: Outbound> TimedAnswer<O> {
    /// The answer of a connection.
    pub fn new(outbound: O) -> TimedAnswer<O> {
        TimedAnswer {
            outbound,
            waited: Duration::ZERO,
        }
    }

    /// Counts the time since then as waited for; where the clock can't state it, all of the time that there was.
    fn count(&mut self, before: Duration)
        ensures { O.contents self.new.outbound ≡ O.contents self.old.outbound }
    {
        let took = match self.outbound.passed() {
            Ok(now) => now.saturating_sub(before),
            Err(_) => Duration::from_millis(ANSWER),
        };
        self.waited = self.waited.saturating_add(took);
    }
}

impl<O: Outbound> Write for TimedAnswer<O> {
    ghost contents = { λ answer. O.contents answer.outbound };

    fn write(&mut self, buf: &[u8]) -> io::Result<usize>
        ensures bound { WritesAtMost result buf.now }
        ensures bytes { WriteAppends (O.contents self.old.outbound) (O.contents self.new.outbound) result buf.now }
        // Where one has waited for all of the time that there was, nothing is written any more.
        ensures late { ANSWER * 1_000_000 ≤ as_nanos self.old.waited → IsErr result }
    {
        let left = time_left(Duration::from_millis(ANSWER), self.waited)?;
        let before = self.outbound.passed()?;
        let written = self.outbound.write_within(buf, left);
        self.count(before);
        written
    }

    fn flush(&mut self) -> io::Result<()> {
        Ok(())
    }
}
