//! A server with two doors: requests at a port, and lines at another or at a path.
ghost use Rattle.std.specs.Prelude.{◌≡◌, None, IfOk, OnErr, OnOk};
ghost use Rattle.vault_core_model.specs.Step.{Reached};
ghost use Rattle.vault_core.specs.Hearing.{HearsAll};
ghost use Rattle.vault_core_model.specs.LeavesMany.{LeavesNoLess};
ghost use Rattle.vaultctl_serve.specs.Serving.{ReportsOnce, Stepped};
ghost use Rattle.vaultctl_log.specs.Logging.{IsLogged};
ghost use Rattle.vaultctl_serve_lines.specs.Doors.{LogsInTurns, ServedInTurns};
ghost use Rattle.vaultctl_serve_lines.specs.Troubles.{LogsUntaken};
ghost use Rattle.vaultctl_serve_lines_answers.specs.Closing.{IsEnded};

use crate::door_reporter::DoorReporter;
use crate::fault::DoorFault;
use crate::line_door::LineListener;
use crate::place::LinePlace;
use crate::turns::{Server, serve_doors};
use crate::two_doors::TwoDoors;
use std::alloc::Global;
use std::fs::Files;
use std::io::{self, Stderr};
use std::net::{Ipv4Addr, Net, TcpListener, TcpStream};
use std::time::Clock;
use vault_core::hearing::Hears;
use vault_core_model::keeper::Keeper;
use vault_http::Hosts;
use vaultctl_serve::clock::now;
use vaultctl_serve_lines_answers::line::Next;
use vaultctl_serve_lines_answers::service::Service;

/// What is served, where, and by which program.
#[derive(Clone, Copy)]
pub struct Places<'a> {
    /// The vault's file.
    pub file: &'a str,
    /// The port of requests.
    pub port: u16,
    /// Where lines come in.
    pub lines: LinePlace<'a>,
    /// The hosts that requests may be for.
    pub hosts: &'a Hosts,
    /// The version of the program, which it says where it is asked how things are.
    pub version: &'static str,
    /// Where memory is taken from.
    pub alloc: Global,
    /// How many requests and lines are served.
    pub count: u32,
}

/// The listener of requests, at which no accept waits.
fn request_listener<R: Net<Stream = TcpStream, Listener = TcpListener>>(
    rt: &R,
    port: u16,
) -> io::Result<TcpListener> {
    let listener = TcpListener::bind(rt, (Ipv4Addr::LOCALHOST, port))?;
    listener.set_nonblocking(true)?;
    Ok(listener)
}

/// The listener of requests and that of lines, at neither of which an accept waits.
fn listen<R: Net<Stream = TcpStream, Listener = TcpListener> + Files>(
    rt: &R,
    places: Places<'_>,
) -> Result<(TcpListener, LineListener), DoorFault> {
    let Ok(requests) = request_listener(rt, places.port) else {
        return Err(DoorFault::Requests);
    };
    let Ok(lines) = LineListener::at(rt, places.lines) else {
        return Err(DoorFault::Lines);
    };
    Ok((requests, lines))
}

/// What a server says of itself that begins now.
fn service_from<R: Clock>(rt: &R, places: Places<'_>) -> Service {
    Service {
        alloc: places.alloc,
        version: places.version,
        since: now(rt),
    }
}

/// Serves requests and lines, one after another, as many as are counted, or up to the line that asks for the end: answers
/// which of these it was. It ends too after the command after which who hears lets no more be carried out; that is answered
/// as if all were served.
///
/// That it listens at both doors is reported first, and that the vault's device failed is reported once, when it first
/// does. Where there is a log, it gets a line of what became of each request and each line. `Requests` and `Lines` come
/// where nobody can listen at that door. No fault of a connection, of the device or of the log ends it.
pub fn serve_with_lines<
    R: Net<Stream = TcpStream, Listener = TcpListener> + Files + Clock,
    K: Keeper,
    H: Hears,
    T: DoorReporter,
>(
    rt: &R,
    keeper: &mut K,
    hears: &mut H,
    places: Places<'_>,
    reporter: &mut T,
    log: &mut Option<Stderr>,
) -> Result<Next, DoorFault>
    ensures stepped { K.is_honest keeper.new → Stepped places.entry.count (K.vault keeper.old) (K.vault keeper.new) }
    // Commands led to the vault, and each was heard of with its reply, while who hears let it be carried out.
    ensures heard { K.is_honest keeper.new → HearsAll H.going H.hears hears.old hears.new (K.vault keeper.old) (K.vault keeper.new) }
    ensures reached { K.is_honest keeper.new → Reached (K.vault keeper.old) → Reached (K.vault keeper.new) }
    // Only a caller with the right to administer ends it.
    ensures end { IfOk result (λ next. next ≡ Next.End → K.is_honest keeper.new → IsEnded (K.vault keeper.new)) }
    ensures err { OnErr result (K.vault keeper.new ≡ K.vault keeper.old) }
    // That it listens is reported first, and then, once, that the device failed where it did.
    ensures reported { OnOk result ((between : T) × T.listens_at_both reporter.old places.entry.file.now places.entry.port between
        × ReportsOnce T.fails (K.count keeper.old) (K.count keeper.new) between reporter.new) }
    // Where it can't listen nothing is reported, and nothing is logged.
    ensures unreported { OnErr result (reporter.new ≡ reporter.old) }
    ensures unlogged { OnErr result (log.new ≡ log.old) }
    // Each request and each line that was taken has one line in the log, and so has what couldn't be taken.
    ensures logged { IfOk result (λ next. ServedInTurns next (H.going hears.new) places.entry.count
        (λ turns n. LogsInTurns (λ _. None) (LogsUntaken (λ _. None)) (IsLogged (λ _. None)) turns n log.old log.new)) }
    ensures leaves { LeavesNoLess K.Kept keeper.old keeper.new }
{
    let (requests, lines) = match listen(rt, places) {
        Ok(listeners) => listeners,
        Err(fault) => return Err(fault),
    };
    reporter.listening_at_both(places.file, places.port, places.lines);
    let service = service_from(rt, places);
    let mut doors = TwoDoors {
        clock: rt,
        alloc: places.alloc,
        requests: &requests,
        lines: &lines,
        hosts: places.hosts,
        log: log.take(),
        talk: None,
        line_was_last: false,
    };
    let server = Server {
        clock: rt,
        service: &service,
    };
    let ended = serve_doors(&server, &mut doors, keeper, hears, places.count, reporter);
    *log = doors.log;
    Ok(ended)
}
