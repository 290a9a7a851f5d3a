//! Connections as they come, and the clock that is read as one is taken.
ghost use Rattle.std.specs.Prelude.{◌≡◌, ℕ, Bool, List, Option, None, is_ok};
ghost use Rattle.vault_base.specs.Days.{moment_at};
ghost use Rattle.vaultctl_log.specs.Logging.{IsLogged};
ghost use Rattle.vaultctl_log.specs.declared.entry.Facts.{Facts};
ghost use Rattle.vaultctl_serve.specs.Serving.{IsTried, ReadsAs, Try};

use crate::clock;
use crate::deadline::BETWEEN_TRIES;
use crate::peer::Peer;
use std::alloc::Global;
use std::io::Write;
use std::net::OpenListener;
use std::time::{Clock, Duration};
use std::{io, thread};
use vault_http::Hosts;
use vaultctl_log::entry::{Entry, log_entry};

/// Connections as they come, and the clock that is read as one is taken.
pub trait Arrivals {
    /// The other side of a connection.
    type Peer: Peer + Drop;

    /// The tries to take a connection that are to come, where they are known: which of them will have one, and what the
    /// clock will show then.
    ghost tries: { Self → Option (List Try) };

    /// What the clock shows now: a moment, or none.
    ghost shown: { Self → Option ℕ };

    /// That nothing was heard of an entry: who hears before and after.
    ghost silent: { Self → Self → Type 0 };

    /// Takes the next connection.
    fn take(&mut self) -> io::Result<Self::Peer>
        ensures tried { IsTried (tries self.old) (tries self.new) (shown self.new) result }
        ensures silent { silent self.old self.new };

    /// The clock's reading now.
    fn reading(&self) -> i64
        ensures { ReadsAs (tries self.now) (shown self.now) (moment_at result) };

    /// The hosts that requests may be for.
    fn hosts(&self) -> &Hosts;

    /// What hears of an entry: who hears it, the entry's facts, the fronts of what was asked and answered, whether all of
    /// it was written, who heard it.
    ghost logs: { Self → Facts → List ℕ → List ℕ → Bool → Self → Type 0 };

    /// Hears what became of a connection. Whatever it does with that, what comes is the same. The error is that the entry
    /// can't be written.
    fn log(&mut self, entry: &Entry<'_>) -> io::Result<()>
        ensures tries { tries self.new ≡ tries self.old }
        ensures logs { logs self.old entry.now.facts entry.now.asked.now entry.now.answered.now (is_ok result) self.new };

    /// Waits a little after a connection that couldn't be taken, so that a fault that lasts doesn't use up the count of
    /// connections.
    fn pause(&self);
}

/// The connections of a listener.
#[derive(Drop)]
pub struct Listened<'a, C: Clock, L, W: Write + Drop> {
    /// The clock that is read.
    pub clock: &'a C,
    /// Where they come.
    pub listener: &'a L,
    /// The hosts that requests may be for.
    pub hosts: &'a Hosts,
    /// Where the room for a line of the log is taken from.
    pub alloc: Global,
    /// Who gets a line of what becomes of each connection; none where nothing is logged.
    pub log: Option<W>,
}

impl<C: Clock, P: Peer + Drop, L: OpenListener<Stream = P>, W: Write + Drop> Arrivals
    for Listened<'_, C, L, W> {
    type Peer = P;

    ghost tries = { λ _. None };

    ghost shown = { λ _. None };

    ghost silent = { λ before after. after.log ≡ before.log };

    ghost logs = { λ before facts asked answered whole after. IsLogged W.contents before.log facts asked answered whole after.log };

    fn take(&mut self) -> io::Result<P> {
        let (peer, _) = self.listener.accept()?;
        Ok(peer)
    }

    fn reading(&self) -> i64 {
        clock::reading(self.clock)
    }

    fn hosts(&self) -> &Hosts {
        self.hosts
    }

    fn log(&mut self, entry: &Entry<'_>) -> io::Result<()> {
        log_entry(self.alloc, &mut self.log, entry)
    }

    fn pause(&self) {
        thread::sleep(self.clock, Duration::from_millis(BETWEEN_TRIES));
    }
}
