//! Two doors of one server, for which one thread waits: requests at a port, lines at another or at a path.
ghost use Rattle.std.specs.Prelude.{◌≡◌, ◌≢◌, IfSome, IsTrue, None, Some, false};
ghost use Rattle.vaultctl_log.specs.Logging.{IsLogged};
ghost use Rattle.vaultctl_serve_lines.specs.Troubles.{LogsAtMostOne, LogsIf, LogsTrouble, LogsUntaken, has_begun as line_begun};

use crate::doors::{Arrived, Doors};
use crate::line_door::LineListener;
use crate::talk::Talk;
use libc::net::{POLLIN, poll};
use libc::types::pollfd;
use std::alloc::Global;
use std::io::{self, ErrorKind, Write};
use std::net::{TcpListener, TcpStream};
use std::os::fd::AsRawFd;
use std::thread;
use std::time::{Clock, Duration, Instant};
use vault_http::Hosts;
use vaultctl_log::entry::{Door, Entry, Trouble, log_entry};
use vaultctl_serve::clock;
use vaultctl_serve::deadline::{BETWEEN_TRIES, HEAD};
use vaultctl_serve::noted::nothing;
use vaultctl_serve_lines_answers::heard::Heard;

/// Milliseconds for which a connection of lines may be silent between two lines where no other waits.
const SILENT: u64 = 60_000;

/// Two doors of one server. Of the door of lines one connection is open at a time.
#[derive(Drop)]
pub struct TwoDoors<'a, C: Clock, W: Write + Drop> {
    /// The clock that is read.
    pub clock: &'a C,
    /// Where what is read is kept.
    pub alloc: Global,
    /// Where requests come in.
    pub requests: &'a TcpListener,
    /// Where lines come in.
    pub lines: &'a LineListener,
    /// The hosts that requests may be for.
    pub hosts: &'a Hosts,
    /// Who gets a line of what becomes of each request and each line; none where nothing is logged.
    pub log: Option<W>,
    /// The connection of lines that is open.
    pub talk: Option<Talk>,
    /// A line came last, so that a request that waits goes before the next one.
    pub line_was_last: bool,
}

/// Who has something to say.
#[derive(Clone, Copy)]
struct Ready {
    /// A connection with a request.
    request: bool,
    /// The open connection of lines.
    talk: bool,
    /// Another connection of lines.
    another: bool,
}

/// A descriptor that is waited for.
fn waited_for(descriptor: i32) -> pollfd {
    pollfd {
        fd: descriptor,
        events: POLLIN,
        revents: 0,
    }
}

/// No descriptor, which `poll` passes over.
const NONE: i32 = -1;

/// The whole milliseconds of a time, as `poll` takes them.
fn millis(time: Duration) -> i32 {
    i32::try_from(time.as_millis()).unwrap_or(i32::MAX)
}

/// How long a connection of lines may be silent between two lines.
fn silence(another: bool) -> Duration {
    Duration::from_millis(if another { HEAD } else { SILENT })
}

/// What the trouble was with a connection of lines on which nothing more is read; none where it came to its end.
fn trouble_in(kind: ErrorKind) -> Option<Trouble>
    ensures end { kind ≡ ErrorKind.UnexpectedEof → result ≡ None }
    ensures memory { kind ≡ ErrorKind.OutOfMemory → result ≡ Some Trouble.Memory }
    ensures late { kind ≢ ErrorKind.UnexpectedEof → kind ≢ ErrorKind.OutOfMemory → result ≡ Some Trouble.Late }
{
    match kind {
        ErrorKind::UnexpectedEof => None,
        ErrorKind::OutOfMemory => Some(Trouble::Memory),
        _ => Some(Trouble::Late),
    }
}

/// Whether a part of a line has come on an open connection that isn't answered.
fn has_begun(talk: &Option<Talk>) -> bool
    ensures { result ≡ line_begun talk.now }
{
    match talk {
        Some(open) => open.has_begun(),
        None => false,
    }
}

impl<C: Clock, W: Write + Drop> TwoDoors<'_, C, W> {
    /// Whether a connection of lines waits that isn't open yet.
    fn another_waits(&self) -> bool {
        let mut found = [waited_for(self.lines.descriptor())];
        poll(&mut found, 0) > 0
    }

    /// For how many milliseconds one waits at most; -1 is without end.
    fn limit(&self, another: bool) -> i32 {
        match &self.talk {
            None if another => 0,
            None => -1,
            Some(open) if open.has_line() => 0,
            Some(open) => millis(open.patience(silence(another))),
        }
    }

    /// Waits until somebody has something to say, or the patience with the open connection is at its end.
    fn wait(&self) -> Ready {
        let another = self.another_waits();
        let talk = self.talk.as_ref().map_or(NONE, |open| open.descriptor());
        let mut found = [
            waited_for(self.requests.as_raw_fd()),
            waited_for(talk),
            waited_for(if another {
                NONE
            } else {
                self.lines.descriptor()
            }),
        ];
        let _ = poll(&mut found, self.limit(another));
        let has_line = self.talk.as_ref().map_or(false, |open| open.has_line());
        Ready {
            request: found[0].revents != 0,
            talk: has_line || found[1].revents != 0,
            another: another || found[2].revents != 0,
        }
    }

    /// The same, and counts how long one has waited.
    fn wait_counting(&mut self) -> io::Result<Ready>
        ensures { self.new.log ≡ self.old.log }
    {
        let since = Instant::now(self.clock)?;
        let ready = self.wait();
        let time = since.elapsed(self.clock)?;
        if let Some(open) = &mut self.talk {
            open.wait(time);
        }
        Ok(ready)
    }

    /// Logs what kept a connection or a line from being taken. An entry that can't be written is lost.
    fn log_trouble(&mut self, door: Door, trouble: Trouble)
        ensures logged { LogsTrouble W.contents self.old.log self.new.log door trouble }
        ensures talk { self.new.talk ≡ self.old.talk }
    {
        let reading = clock::reading(self.clock);
        let _ = log_entry(self.alloc, &mut self.log, &nothing(door, reading, trouble));
    }

    /// Logs what kept a line from being taken, where something did.
    fn log_any(&mut self, trouble: Option<Trouble>)
        ensures logged { LogsIf W.contents self.old.log self.new.log Door.Lines trouble }
        ensures talk { self.new.talk ≡ self.old.talk }
    {
        match trouble {
            Some(trouble) => self.log_trouble(Door::Lines, trouble),
            None => {}
        }
    }

    /// Waits a little after a connection that can't be taken, so that a fault that lasts doesn't keep the machine busy.
    fn miss(&mut self, door: Door)
        ensures logged { LogsTrouble W.contents self.old.log self.new.log door Trouble.Connection }
        ensures talk { self.new.talk ≡ self.old.talk }
    {
        self.log_trouble(door, Trouble::Connection);
        thread::sleep(self.clock, Duration::from_millis(BETWEEN_TRIES));
    }

    /// Opens the connection of lines that waits, where none is open. After one that can't be taken it waits a little,
    /// so that a fault that lasts doesn't keep the machine busy.
    fn open(&mut self)
        ensures logged { LogsAtMostOne W.contents self.old.log self.new.log }
        ensures opened { IfSome self.new.talk (λ talk. self.old.talk ≡ None → self.new.log ≡ self.old.log) }
    {
        let Ok(since) = Instant::now(self.clock) else {
            return;
        };
        match self.lines.accept() {
            Ok(peer) => self.talk = Some(Talk::new(self.alloc, peer, since)),
            Err(_) => self.miss(Door::Lines),
        }
    }

    /// Closes the open connection where one has no patience with it any more.
    fn close_late(&mut self, another: bool)
        // The late line of a connection that is closed is logged, once. Of one that stays, or was silent, nothing is.
        ensures late { self.new.talk ≡ None → IsTrue (line_begun self.old.talk) → LogsTrouble W.contents self.old.log self.new.log Door.Lines Trouble.Late }
        ensures silent { line_begun self.old.talk ≡ false → self.new.log ≡ self.old.log }
        ensures open { self.new.talk ≢ None → self.new.log ≡ self.old.log }
        ensures logged { LogsAtMostOne W.contents self.old.log self.new.log }
    {
        let is_late = match &self.talk {
            Some(open) => millis(open.patience(silence(another))) == 0,
            None => false,
        };
        if is_late {
            self.log_late();
            self.talk = None;
        }
    }

    /// Logs that the line at hand is late, where one was begun: a connection may be silent between two lines.
    fn log_late(&mut self)
        ensures late { IsTrue (line_begun self.old.talk) → LogsTrouble W.contents self.old.log self.new.log Door.Lines Trouble.Late }
        ensures silent { line_begun self.old.talk ≡ false → self.new.log ≡ self.old.log }
        ensures logged { LogsAtMostOne W.contents self.old.log self.new.log }
        ensures talk { self.new.talk ≡ self.old.talk }
    {
        if has_begun(&self.talk) {
            self.log_trouble(Door::Lines, Trouble::Late);
        }
    }

    /// Opens the connection of lines that waits, if one does, and none is open.
    fn open_waiting(&mut self, another: bool)
        ensures logged { LogsAtMostOne W.contents self.old.log self.new.log }
    {
        if another && self.talk.is_none() {
            self.open();
        }
    }

    /// Sees to the connections of lines where none of them has something to say.
    fn look_after(&mut self, ready: Ready)
        ensures logged { LogsUntaken W.contents self.old.log self.new.log }
    {
        if ready.talk {
            return;
        }
        self.close_late(ready.another);
        self.open_waiting(ready.another);
    }

    /// Takes a request. After one that can't be taken it waits a little, as `open` does.
    fn take_request(&mut self) -> Option<TcpStream>
        ensures missed { result ≡ None → LogsTrouble W.contents self.old.log self.new.log Door.Requests Trouble.Connection }
        ensures taken { IfSome result (λ peer. self.new.log ≡ self.old.log) }
        ensures talk { self.new.talk ≡ self.old.talk }
    {
        self.line_was_last = false;
        match self.requests.accept() {
            Ok((peer, _)) => Some(peer),
            Err(_) => {
                self.miss(Door::Requests);
                None
            }
        }
    }

    /// Reads on the open connection, and takes its next line, if that is whole. A connection that is at its end, or
    /// whose line is late, is closed.
    fn take_line(&mut self) -> Option<(Heard, Talk)>
        // What kept a line from being taken is logged once, or it was no trouble.
        ensures logged { LogsAtMostOne W.contents self.old.log self.new.log }
        ensures taken { IfSome result (λ line. self.new.log ≡ self.old.log) }
        ensures open { self.new.talk ≢ None → self.new.log ≡ self.old.log }
    {
        self.line_was_last = true;
        let mut open = self.talk.take()?;
        match open.read_on(self.clock, self.alloc) {
            Ok(Some(heard)) => Some((heard, open)),
            Ok(None) => {
                self.talk = Some(open);
                None
            }
            Err(fault) => {
                self.log_any(trouble_in(fault.kind()));
                None
            }
        }
    }

    /// Takes a request, if one can be taken.
    fn next_request(&mut self) -> Arrived<TcpStream, Talk>
        ensures logged { LogsUntaken W.contents self.old.log self.new.log }
    {
        match self.take_request() {
            Some(peer) => Arrived::Request(peer),
            None => Arrived::Nothing,
        }
    }

    /// Takes a line, if one is whole.
    fn next_line(&mut self) -> Arrived<TcpStream, Talk>
        ensures logged { LogsUntaken W.contents self.old.log self.new.log }
    {
        match self.take_line() {
            Some((heard, talk)) => Arrived::Line(heard, talk),
            None => Arrived::Nothing,
        }
    }

    /// Takes a request or a line of who has something to say.
    fn take_ready(&mut self, ready: Ready) -> Arrived<TcpStream, Talk>
        ensures logged { LogsUntaken W.contents self.old.log self.new.log }
    {
        if ready.request && (self.line_was_last || !ready.talk) {
            return self.next_request();
        }
        if !ready.talk {
            return Arrived::Nothing;
        }
        self.next_line()
    }
}

impl<C: Clock, W: Write + Drop> Doors for TwoDoors<'_, C, W> {
    type Request = TcpStream;

    type Talker = Talk;

    ghost tries = { λ _. None };

    ghost shown = { λ _. None };

    ghost silent = { λ before after. LogsUntaken W.contents before.log after.log };

    ghost logs = { λ before facts asked answered whole after. IsLogged W.contents before.log facts asked answered whole after.log };

    fn next(&mut self) -> Arrived<TcpStream, Talk> {
        let Ok(ready) = self.wait_counting() else {
            // Without a clock no connection of lines could ever be late.
            self.talk = None;
            thread::sleep(self.clock, Duration::from_millis(BETWEEN_TRIES));
            return Arrived::Nothing;
        };
        self.look_after(ready);
        self.take_ready(ready)
    }

    fn reading(&self) -> i64 {
        clock::reading(self.clock)
    }

    fn hosts(&self) -> &Hosts {
        self.hosts
    }

    fn log(&mut self, entry: &Entry<'_>) -> io::Result<()> {
        log_entry(self.alloc, &mut self.log, entry)
    }

    fn keep(&mut self, talker: Talk) {
        let mut open = talker;
        open.answered();
        self.talk = Some(open);
    }
}
