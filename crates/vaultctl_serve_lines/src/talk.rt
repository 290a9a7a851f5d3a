//! One connection of lines, which stays open from line to line.
ghost use Rattle.std.specs.Prelude.{◌≡◌, length, nat_eq, not};

use crate::hearing::{News, allowed, cut, hear, take_line};
use crate::line_door::LinePeer;
use std::alloc::Global;
use std::time::{Clock, Duration, Instant};
use std::{io, mem};
use vaultctl_serve::inbound::TimedPeer;
use vaultctl_serve::peer::Peer;
use vaultctl_serve_lines_answers::heard::Heard;

/// A connection of lines, and what was read of it and isn't answered.
#[derive(Drop)]
pub struct Talk {
    peer: LinePeer,
    /// When it was taken.
    since: Instant,
    unread: Vec<u8>,
    /// What is unread may begin with a whole line.
    has_line: bool,
    /// How long one has waited for it since the first byte that is unread came; without one, since its last line was
    /// answered. The time in which others were served isn't counted.
    waited: Duration,
}

impl Peer for Talk {
    fn read_within(&self, buf: &mut [u8], limit: Duration) -> io::Result<usize> {
        self.peer.read_within(buf, limit)
    }

    fn write_within(&self, buf: &[u8], limit: Duration) -> io::Result<usize> {
        self.peer.write_within(buf, limit)
    }

    fn end(&self) -> io::Result<()> {
        self.peer.end()
    }
}

impl Talk {
    /// A connection that was just taken.
    pub fn new(alloc: Global, peer: LinePeer, since: Instant) -> Talk {
        Talk {
            peer,
            since,
            unread: Vec::new(alloc),
            has_line: false,
            waited: Duration::ZERO,
        }
    }

    /// The number of its descriptor.
    pub fn descriptor(&self) -> i32 {
        self.peer.descriptor()
    }

    /// A part of a line has come that isn't answered.
    pub fn has_begun(&self) -> bool
        ensures { result ≡ not (nat_eq (length self.now.unread.items) 0) }
    {
        !self.unread.is_empty()
    }

    /// What was read of it may begin with a whole line, so that one need not wait for it.
    pub fn has_line(&self) -> bool {
        self.has_line
    }

    /// How long one still waits for it, where it may be silent for so long between two lines.
    pub fn patience(&self, silent: Duration) -> Duration {
        let limit = if self.unread.is_empty() {
            silent
        } else {
            allowed(self.unread.len())
        };
        limit.saturating_sub(self.waited)
    }

    /// One has waited for it.
    pub fn wait(&mut self, time: Duration) {
        self.waited = self.waited.saturating_add(time);
    }

    /// Its line was answered, and the time of the next one begins.
    pub fn answered(&mut self) {
        self.waited = Duration::ZERO;
    }

    /// Reads what has come, and takes the next line, if that is whole.
    ///
    /// An error says that no line comes any more: the connection is at its end, or its line is late, or room was
    /// refused.
    pub fn read_on<C: Clock>(&mut self, clock: &C, alloc: Global) -> io::Result<Option<Heard>> {
        if !self.has_line {
            match self.hear(clock)? {
                News::End => return self.last_line(alloc),
                News::Part => {
                    cut(&mut self.unread);
                    return Ok(None);
                }
                News::Line => {}
            }
        }
        let found = take_line(alloc, &mut self.unread)?;
        self.has_line = found.is_some() && !self.unread.is_empty();
        Ok(found)
    }

    /// Reads what has come.
    fn hear<C: Clock>(&mut self, clock: &C) -> io::Result<News> {
        if self.unread.is_empty() {
            self.waited = Duration::ZERO;
        }
        let begun = self.since.elapsed(clock)?.saturating_sub(self.waited);
        let peer = &self.peer;
        let since = self.since;
        let mut inbound = TimedPeer { clock, peer, since };
        hear(&mut inbound, &mut self.unread, begun)
    }

    /// The line that lacks its LF, where the connection ended after one. The error says that nothing is left of it.
    fn last_line(&mut self, alloc: Global) -> io::Result<Option<Heard>> {
        if self.unread.is_empty() {
            return Err(io::Error::from(io::ErrorKind::UnexpectedEof));
        }
        let bytes = mem::replace(&mut self.unread, Vec::new(alloc));
        Ok(Some(Heard {
            bytes,
            is_ended: false,
        }))
    }
}
