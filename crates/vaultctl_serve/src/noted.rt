//! What goes by on a connection, noted for the log. What is read and written is the same as without.
ghost use Rattle.std.specs.Prelude.{◌≡◌, ◌+◌, [], IfErr, IfOk, Some, length, take};
ghost use Rattle.std.specs.Io.{ReadsAtMost, WritesAtMost};
ghost use Rattle.std.specs.Io.KnownBytes.{WriteAppends};
ghost use Rattle.std.specs.Duration.{as_nanos};
ghost use Rattle.vault_base.specs.Days.{moment_at};
ghost use Rattle.vaultctl_serve.specs.InTime.{Comes};
ghost use Rattle.vaultctl_log.specs.Noting.{Notes};

use crate::inbound::Inbound;
use std::alloc::Global;
use std::io::{self, Write};
use std::mem;
use std::time::Duration;
use vault_base::moment::Moment;
use vaultctl_log::entry::{ANSWERED, ASKED, Door, Entry, Facts, Trouble};
use vaultctl_log::seen::Seen;

/// What is read on a connection is noted.
#[derive(Drop)]
pub struct NotedInbound<'n, I: Inbound> {
    pub inbound: I,
    pub seen: &'n mut Seen,
}

impl<I: Inbound> Inbound for NotedInbound<'_, I> {
    ghost coming = { λ noted. I.coming noted.inbound };

    ghost time = { λ noted. I.time noted.inbound };

    fn passed(&mut self) -> io::Result<Duration> {
        self.inbound.passed()
    }

    fn read_within(&mut self, buf: &mut [u8], limit: Duration) -> io::Result<usize>
        ensures bound { ReadsAtMost result buf.new }
        ensures bytes { Comes (I.coming self.old.inbound) (I.coming self.new.inbound) (I.time self.old.inbound + as_nanos limit) result buf.new }
        // What a read gave is noted, and no other bytes.
        ensures noted { IfOk result (λ n. Notes self.old.seen.now self.new.seen.now (take n buf.new)) }
        ensures unread { IfErr result (λ _. self.new.seen.now ≡ self.old.seen.now) }
    {
        let count = self.inbound.read_within(buf, limit)?;
        self.seen.see(&buf[..count]);
        Ok(count)
    }
}

/// What is written on a connection is noted.
#[derive(Drop)]
pub struct NotedAnswer<W: Write> {
    pub writer: W,
    pub seen: Seen,
}

impl<W: Write> Write for NotedAnswer<W> {
    ghost contents = { λ noted. W.contents noted.writer };

    fn write(&mut self, buf: &[u8]) -> io::Result<usize>
        ensures bound { WritesAtMost result buf.now }
        ensures bytes { WriteAppends (W.contents self.old.writer) (W.contents self.new.writer) result buf.now }
        // What a write took is noted, and no other bytes.
        ensures noted { IfOk result (λ n. Notes self.old.seen self.new.seen (take n buf.now)) }
        ensures unwritten { IfErr result (λ _. self.new.seen ≡ self.old.seen) }
    {
        let count = self.writer.write(buf)?;
        self.seen.see(&buf[..count]);
        Ok(count)
    }

    fn flush(&mut self) -> io::Result<()> {
        self.writer.flush()
    }
}

/// What went by on a connection up to the end of its answer.
#[derive(Drop)]
pub struct Noted {
    /// Where what is read is kept.
    pub alloc: Global,
    /// What was read.
    pub asked: Seen,
    /// What was written.
    pub answered: Seen,
    /// How long it took until all was written.
    pub took: Duration,
}

impl Noted {
    /// Nothing went by. Of what is read the first `ASKED` bytes are kept, of what is written the first `ANSWERED`.
    pub fn new(alloc: Global) -> Noted
        ensures asked { (result.asked.front.items ≡ []) × (result.asked.most ≡ 16384) × (result.asked.count ≡ 0) }
        ensures answered { (result.answered.front.items ≡ []) × (result.answered.most ≡ 1024) × (result.answered.count ≡ 0) }
    {
        Noted {
            alloc,
            asked: Seen::new(alloc, ASKED),
            answered: Seen::new(alloc, ANSWERED),
            took: Duration::ZERO,
        }
    }

    /// What was written so far, for whoever writes on; what is written then is noted there.
    pub fn take_answered(&mut self) -> Seen
        ensures { result ≡ self.old.answered }
    {
        mem::replace(&mut self.answered, Seen::new(self.alloc, 0))
    }

    /// How many milliseconds it took.
    fn millis(&self) -> u64 {
        u64::try_from(self.took.as_millis()).unwrap_or(u64::MAX)
    }

    /// The entry of a request that was taken as the clock showed this, with what kept it from its end.
    pub fn request(&self, reading: i64, trouble: Option<Trouble>) -> Entry<'_>
        ensures door { result.facts.door ≡ Door.Requests }
        ensures moment { result.facts.moment ≡ moment_at reading }
        ensures trouble { result.facts.trouble ≡ trouble }
        ensures counts { (result.facts.came ≡ self.now.asked.count) × (result.facts.went ≡ self.now.answered.count) }
        ensures bytes { (result.asked.now ≡ self.now.asked.front.items) × (result.answered.now ≡ self.now.answered.front.items) }
    {
        Entry {
            facts: Facts {
                moment: Moment::from_secs(reading),
                door: Door::Requests,
                came: self.asked.count,
                went: self.answered.count,
                millis: self.millis(),
                trouble,
            },
            asked: self.asked.front.as_slice(),
            answered: self.answered.front.as_slice(),
        }
    }

    /// The entry of a line that was taken as the clock showed this, with what kept it from its end.
    pub fn line<'n>(&'n self, line: &'n [u8], reading: i64, trouble: Option<Trouble>) -> Entry<'n>
        ensures door { result.facts.door ≡ Door.Lines }
        ensures moment { result.facts.moment ≡ moment_at reading }
        ensures trouble { result.facts.trouble ≡ trouble }
        ensures counts { (result.facts.came ≡ length line.now) × (result.facts.went ≡ self.now.answered.count) }
        ensures bytes { (result.asked.now ≡ line.now) × (result.answered.now ≡ self.now.answered.front.items) }
    {
        Entry {
            facts: Facts {
                moment: Moment::from_secs(reading),
                door: Door::Lines,
                came: u64::try_from(line.len()).unwrap_or(u64::MAX),
                went: self.answered.count,
                millis: self.millis(),
                trouble,
            },
            asked: line,
            answered: self.answered.front.as_slice(),
        }
    }
}

/// The entry of a connection that couldn't be taken, or on which nothing came in time.
pub fn nothing(door: Door, reading: i64, trouble: Trouble) -> Entry<'static>
    ensures door { result.facts.door ≡ door }
    ensures moment { result.facts.moment ≡ moment_at reading }
    ensures trouble { result.facts.trouble ≡ Some trouble }
    ensures bytes { (result.asked.now ≡ []) × (result.answered.now ≡ []) }
{
    Entry {
        facts: Facts {
            moment: Moment::from_secs(reading),
            door,
            came: 0,
            went: 0,
            millis: 0,
            trouble: Some(trouble),
        },
        asked: &[],
        answered: &[],
    }
}
