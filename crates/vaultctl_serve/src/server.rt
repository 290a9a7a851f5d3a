//! Connections to a port of this machine, one after another.
ghost use Rattle.std.specs.Prelude.{◌≡◌, ◌≢◌, ℕ, Bool, List, OnOk, OnErr, Option};
ghost use Rattle.std.specs.Io.KnownBytes.{Keeps};
ghost use Rattle.vault_base.specs.Days.{moment_at};
ghost use Rattle.vault_core_model.specs.Step.{Reached};
ghost use Rattle.vault_core.specs.Hearing.{HearsAll, HearsOnce, HearsSome};
ghost use Rattle.vault_core_model.specs.LeavesMany.{LeavesNoLess};
ghost use Rattle.vault_core.specs.Hearing.{AtMostOne};
ghost use Rattle.vaultctl_log.specs.Logging.{IsLogged};
ghost use Rattle.vaultctl_log.specs.declared.entry.Facts.{Facts};
ghost use Rattle.vaultctl_serve.specs.Account.{IsAccounted, IsMissLogged, LogsOne, LogsWhile, trouble_of as trouble_in};
ghost use Rattle.vaultctl_serve.specs.Serving.{ReadsAs, ReportsOnce, Stepped, SteppedOnTime, SteppedWhile};

use crate::arrivals::{Arrivals, Listened};
use crate::connection::serve_connection;
use crate::fault::PortFault;
use crate::noted::{Noted, nothing};
use crate::peer::Peer;
use crate::reporter::Reporter;
use std::alloc::Global;
use std::io::Write;
use std::net::{Ipv4Addr, Net, TcpListener, TcpStream};
use std::time::Clock;
use vault_base::moment::Moment;
use vault_core::hearing::Hears;
use vault_core_model::keeper::Keeper;
use vault_http::{Hosts, Occasion, ServeFault};
use vaultctl_log::entry::{Door, Trouble};

/// The clock by which a server waits, and where memory is taken from.
#[derive(Drop)]
pub struct Means<'a, C: Clock> {
    pub clock: &'a C,
    pub alloc: Global,
}

/// What kept a request from its end that was served so.
pub fn trouble_of(served: Result<(), ServeFault>) -> Option<Trouble>
    ensures { result ≡ trouble_in served }
{
    match served {
        Ok(()) => None,
        Err(ServeFault::Read) => Some(Trouble::Late),
        Err(ServeFault::Write) => Some(Trouble::Untaken),
        Err(ServeFault::Memory) => Some(Trouble::Memory),
    }
}

/// Serves the request of a connection that was just taken, as the clock shows this. What became of it is logged.
fn serve_taken<C: Clock, A: Arrivals, K: Keeper, H: Hears>(
    means: &Means<'_, C>,
    arrivals: &mut A,
    peer: &A::Peer,
    keeper: &mut K,
    hears: &mut H,
    reading: i64,
)
    ensures tries { A.tries arrivals.new ≡ A.tries arrivals.old }
    ensures once { K.is_honest keeper.new → AtMostOne (moment_at reading) (K.vault keeper.old) (K.vault keeper.new) }
    ensures heard { K.is_honest keeper.new → HearsOnce H.hears hears.old hears.new (moment_at reading) (K.vault keeper.old) (K.vault keeper.new) }
    // What is logged is what happened: the moment, and that nothing was carried out of what came late.
    ensures logged { K.is_honest keeper.new → IsAccounted A.logs arrivals.old arrivals.new (moment_at reading) (K.vault keeper.old) (K.vault keeper.new) }
    // It is logged whatever the device does, and once.
    ensures log { (f : Facts) × (asked answered : List ℕ) × (whole : Bool) × A.logs arrivals.old f asked answered whole arrivals.new }
    ensures leaves { LeavesNoLess K.Kept keeper.old keeper.new }
{
    let mut noted = Noted::new(means.alloc);
    let moment = Moment::from_secs(reading);
    let hosts = arrivals.hosts();
    let occasion = Occasion { moment, hosts };
    // A fault of the connection is its own.
    let served = serve_connection(means.clock, &mut noted, peer, keeper, hears, &occasion);
    // An entry that can't be written is lost.
    let _ = arrivals.log(&noted.request(reading, trouble_of(served)));
}

/// Logs that a connection couldn't be taken, and waits a little.
fn miss<A: Arrivals>(arrivals: &mut A)
    ensures tries { A.tries arrivals.new ≡ A.tries arrivals.old }
    ensures logged { (moment : Option ℕ) × ReadsAs (A.tries arrivals.old) (A.shown arrivals.old) moment
        × IsMissLogged A.logs arrivals.old arrivals.new Door.Requests moment }
{
    let shown = arrivals.reading();
    let _ = arrivals.log(&nothing(Door::Requests, shown, Trouble::Connection));
    arrivals.pause();
}

/// Takes the next connection and serves its request, at the clock's reading then. What became of it is logged.
fn serve_next<C: Clock, A: Arrivals, K: Keeper, H: Hears>(
    means: &Means<'_, C>,
    arrivals: &mut A,
    keeper: &mut K,
    hears: &mut H,
)
    ensures timely { K.is_honest keeper.new → SteppedOnTime 1 (A.tries arrivals.old) (A.tries arrivals.new) (K.vault keeper.old) (K.vault keeper.new) }
    ensures heard { K.is_honest keeper.new → HearsSome H.hears hears.old hears.new (K.vault keeper.old) (K.vault keeper.new) }
    // There is one entry of the connection, also where it couldn't be taken.
    ensures logged { (f : Facts) × LogsOne A.silent A.logs f arrivals.old arrivals.new }
    ensures leaves { LeavesNoLess K.Kept keeper.old keeper.new }
{
    match arrivals.take() {
        Ok(peer) => {
            let reading = arrivals.reading();
            serve_taken(means, arrivals, &peer, keeper, hears, reading);
        }
        Err(_) => miss(arrivals),
    }
}

/// Serves the next request. Where that is when the vault's device fails for the first time since it had failed
/// `since` times, that is reported.
fn serve_watched<C: Clock, A: Arrivals, K: Keeper, H: Hears, T: Reporter>(
    means: &Means<'_, C>,
    arrivals: &mut A,
    keeper: &mut K,
    hears: &mut H,
    since: u64,
    reporter: &mut T,
)
    ensures timely { K.is_honest keeper.new → SteppedOnTime 1 (A.tries arrivals.old) (A.tries arrivals.new) (K.vault keeper.old) (K.vault keeper.new) }
    ensures heard { K.is_honest keeper.new → HearsSome H.hears hears.old hears.new (K.vault keeper.old) (K.vault keeper.new) }
    ensures reported { K.count keeper.old ≡ since → ReportsOnce T.fails since (K.count keeper.new) reporter.old reporter.new }
    // It isn't reported a second time.
    ensures once { K.count keeper.old ≢ since → reporter.new ≡ reporter.old }
    ensures logged { (f : Facts) × LogsOne A.silent A.logs f arrivals.old arrivals.new }
    ensures leaves { LeavesNoLess K.Kept keeper.old keeper.new }
{
    let had_failed = keeper.faults() != since;
    serve_next(means, arrivals, keeper, hears);
    if !had_failed && keeper.faults() != since {
        reporter.failed();
    }
}

/// Takes `count` connections, one after another, and serves one request on each, at the clock's reading
/// when it was taken; or fewer, up to the command after which who hears lets no more be carried out. That the vault's
/// device failed is reported once, when it first does.
///
/// A connection that can't be taken, or whose request isn't served to its end, counts as any other, and
/// the next one is taken. The head of a request has to come within 5 seconds from when its connection was taken,
/// and all of it within 30; its client has to take the answer within 10 seconds of waiting for it. So by a clock that
/// stops while the machine sleeps, no reading is older than 30 seconds when the request is carried out, and a silent
/// client keeps the next one waiting for 5.
pub fn serve_arrivals<C: Clock, A: Arrivals, K: Keeper, H: Hears, T: Reporter>(
    means: &Means<'_, C>,
    arrivals: &mut A,
    keeper: &mut K,
    hears: &mut H,
    count: u32,
    reporter: &mut T,
)
    // `count` times one tried to take a connection, or less often where who hears lets no more commands be carried out;
    // and for each that was taken at most one command was carried out, at the clock's reading then.
    ensures timely { K.is_honest keeper.new → SteppedWhile (H.going hears.new) count (A.tries arrivals.old) (A.tries arrivals.new) (K.vault keeper.old) (K.vault keeper.new) }
    // Commands led to the vault, and each was heard of with its reply, while who hears let it be carried out.
    ensures heard { K.is_honest keeper.new → HearsAll H.going H.hears hears.old hears.new (K.vault keeper.old) (K.vault keeper.new) }
    ensures stepped { K.is_honest keeper.new → Stepped count (K.vault keeper.old) (K.vault keeper.new) }
    // A vault that runs lead to from a new one is left as such a vault.
    ensures reached { K.is_honest keeper.new → Reached (K.vault keeper.old) → Reached (K.vault keeper.new) }
    // A device that failed is reported, once; where none failed nothing is.
    ensures reported { ReportsOnce T.fails (K.count keeper.old) (K.count keeper.new) reporter.old reporter.new }
    // There is one entry of each try.
    ensures logged { LogsWhile A.silent A.logs (H.going hears.new) count arrivals.old arrivals.new }
    ensures leaves { LeavesNoLess K.Kept keeper.old keeper.new }
{
    let since = keeper.faults();
    for _ in 0..count {
        if !hears.goes_on() {
            return;
        }
        serve_watched(means, arrivals, keeper, hears, since, reporter);
    }
}

/// What is served, at which port, and for whom.
#[derive(Clone, Copy)]
pub struct Port<'a> {
    /// The vault's file.
    pub file: &'a str,
    /// The port of 127.0.0.1.
    pub port: u16,
    /// The hosts that requests may be for.
    pub hosts: &'a Hosts,
    /// Where memory is taken from.
    pub alloc: Global,
    /// How many requests are served.
    pub count: u32,
}

/// Serves requests at a port of 127.0.0.1, as many as are counted, each on a connection of its own, and ends; or up to the
/// command after which who hears lets no more be carried out.
///
/// That it listens is reported first, and that the vault's device failed is reported once, when it first does. Where
/// there is a log, it gets a line of what became of each connection. `Device` comes where the port isn't free. No fault
/// of a connection, of the device or of the log ends it.
pub fn serve<R: Net<Stream = TcpStream> + Clock, K: Keeper, H: Hears, T: Reporter, W: Write + Drop>(
    rt: &R,
    keeper: &mut K,
    hears: &mut H,
    place: Port<'_>,
    reporter: &mut T,
    log: &mut Option<W>,
) -> Result<(), PortFault>
    ensures stepped { K.is_honest keeper.new → Stepped place.entry.count (K.vault keeper.old) (K.vault keeper.new) }
    // Commands led to the vault, and each was heard of with its reply, while who hears let it be carried out.
    ensures heard { K.is_honest keeper.new → HearsAll H.going H.hears hears.old hears.new (K.vault keeper.old) (K.vault keeper.new) }
    ensures reached { K.is_honest keeper.new → Reached (K.vault keeper.old) → Reached (K.vault keeper.new) }
    ensures err { OnErr result (K.vault keeper.new ≡ K.vault keeper.old) }
    // That it listens is reported first, and then, once, that the device failed where it did.
    ensures reported { OnOk result ((between : T) × T.listens reporter.old place.entry.file.now place.entry.port between
        × ReportsOnce T.fails (K.count keeper.old) (K.count keeper.new) between reporter.new) }
    // Where it can't listen nothing is reported, and nothing is logged.
    ensures unreported { OnErr result (reporter.new ≡ reporter.old) }
    ensures unlogged { OnErr result (log.new ≡ log.old) }
    // There is one line in the log of each try.
    ensures logged { OnOk result (LogsWhile (λ before after. after ≡ before) (IsLogged W.contents) (H.going hears.new) place.entry.count log.old log.new) }
    ensures leaves { LeavesNoLess K.Kept keeper.old keeper.new }
{
    let Ok(listener) = TcpListener::bind(rt, (Ipv4Addr::LOCALHOST, place.port)) else {
        return Err(PortFault::Device);
    };
    reporter.listening(place.file, place.port);
    let mut arrivals = Listened {
        clock: rt,
        listener: &listener,
        hosts: place.hosts,
        alloc: place.alloc,
        log: log.take(),
    };
    let means = Means {
        clock: rt,
        alloc: place.alloc,
    };
    serve_arrivals(&means, &mut arrivals, keeper, hears, place.count, reporter);
    *log = arrivals.log;
    Ok(())
}
