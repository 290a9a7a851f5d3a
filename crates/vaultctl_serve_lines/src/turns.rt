//! Turns at two doors: one request or one line after another.
ghost use Rattle.std.specs.Prelude.{◌≡◌, ◌≢◌, ℕ, Bool, List, Ok, Option};
ghost use Rattle.vault_base.specs.Days.{moment_at};
ghost use Rattle.vault_core_model.specs.Step.{Reached};
ghost use Rattle.vault_core.specs.Hearing.{HearsAll, HearsOnce, HearsSome};
ghost use Rattle.vault_core_model.specs.LeavesMany.{LeavesNoLess};
ghost use Rattle.vault_core.specs.Hearing.{AtMostOne};
ghost use Rattle.vaultctl_log.specs.declared.entry.Facts.{Facts};
ghost use Rattle.vaultctl_serve.specs.Account.{IsAccounted, IsLineAccounted};
ghost use Rattle.vaultctl_serve.specs.Serving.{ReadsAs, ReportsOnce, Stepped};
ghost use Rattle.vaultctl_serve_lines_answers.specs.Closing.{IsEnded, MayEnd};
ghost use Rattle.vaultctl_serve_lines.specs.Doors.{line_trouble, LogsInTurns, ServedInTurns, SteppedInTurns, StepsAt, taken_by, turn_after};

use crate::doors::{Arrived, Doors};
use std::time::{Clock, Duration, Instant};
use vault_base::moment::Moment;
use vault_core::hearing::Hears;
use vault_core_model::keeper::Keeper;
use vault_http::Occasion;
use vaultctl_log::entry::Trouble;
use vaultctl_replay::ReplayFault;
use vaultctl_serve::inbound::TimedPeer;
use vaultctl_serve::lingering::linger;
use vaultctl_serve::noted::{Noted, NotedAnswer};
use vaultctl_serve::peer::Peer;
use vaultctl_serve::reporter::Reporter;
use vaultctl_serve::timed::TimedAnswer;
use vaultctl_serve::{serve_connection, trouble_of};
use vaultctl_serve_lines_answers::heard::Heard;
use vaultctl_serve_lines_answers::line::{Next, serve_line};
use vaultctl_serve_lines_answers::service::Service;

/// What a turn came to.
#[derive(Clone, Copy, Debug, PartialEq, Eq)]
pub enum Turn {
    /// Nothing came.
    Idle,
    /// A request or a line was taken.
    Taken,
    /// A line ended the server.
    End,
}

/// A server: the clock by which it waits, and what it says of itself.
#[derive(Drop)]
pub struct Server<'a, C: Clock> {
    pub clock: &'a C,
    pub service: &'a Service,
}

/// How a line was answered, and what went by as it was.
#[derive(Drop)]
struct Answering {
    answered: Result<Next, ReplayFault>,
    noted: Noted,
}

/// Answers a line on its connection, and notes what is written.
///
/// The faults are those of `serve_line`; and `Read` comes where the clock can't say how long one waits for the client.
/// Then nothing was carried out.
fn answer_talker<C: Clock, P: Peer, K: Keeper, H: Hears>(
    server: &Server<'_, C>,
    talker: &P,
    heard: &Heard,
    keeper: &mut K,
    hears: &mut H,
    reading: i64,
) -> Answering
    ensures once { K.is_honest keeper.new → AtMostOne (moment_at reading) (K.vault keeper.old) (K.vault keeper.new) }
    ensures heard { K.is_honest keeper.new → HearsOnce H.hears hears.old hears.new (moment_at reading) (K.vault keeper.old) (K.vault keeper.new) }
    ensures end { result.answered ≡ Ok Next.End → K.is_honest keeper.new → MayEnd (K.vault keeper.new) (moment_at reading) heard.now.bytes.items }
    ensures leaves { LeavesNoLess K.Kept keeper.old keeper.new }
{
    let mut noted = Noted::new(server.service.alloc);
    let Ok(since) = Instant::now(server.clock) else {
        return Answering {
            answered: Err(ReplayFault::Read),
            noted,
        };
    };
    let clock = server.clock;
    let peer = talker;
    let mut writer = NotedAnswer {
        writer: TimedAnswer::new(TimedPeer { clock, peer, since }),
        seen: noted.take_answered(),
    };
    let answered = serve_line(server.service, heard, &mut writer, keeper, hears, reading);
    noted.took = since.elapsed(clock).unwrap_or(Duration::ZERO);
    noted.answered = writer.seen;
    Answering { answered, noted }
}

/// Keeps the connection of a line that was answered, where more lines may come on it; else closes it, at once where its
/// reply wasn't taken.
fn part<C: Clock, D: Doors>(
    clock: &C,
    doors: &mut D,
    talker: D::Talker,
    is_ended: bool,
    answered: Result<Next, ReplayFault>,
)
    ensures tries { D.tries doors.new ≡ D.tries doors.old }
    ensures logs { (before : D) (f : Facts) (asked said : List ℕ) (whole : Bool) → D.logs before f asked said whole doors.old → D.logs before f asked said whole doors.new }
{
    match answered {
        Ok(Next::On) if is_ended => doors.keep(talker),
        Ok(_) => {
            let _ = linger(clock, &talker);
        }
        Err(_) => {}
    }
}

/// What a turn came to whose line was answered so.
fn turn_of(answered: Result<Next, ReplayFault>) -> Turn
    ensures { result ≡ turn_after answered }
{
    match answered {
        Ok(Next::End) => Turn::End,
        _ => Turn::Taken,
    }
}

/// What kept a line from its end that was answered so.
fn trouble_in(answered: Result<Next, ReplayFault>) -> Option<Trouble>
    ensures { result ≡ line_trouble answered }
{
    match answered {
        Ok(_) => None,
        Err(ReplayFault::Read) => Some(Trouble::Late),
        Err(ReplayFault::Write) => Some(Trouble::Untaken),
        Err(ReplayFault::Memory) => Some(Trouble::Memory),
    }
}

/// Serves a request, at the clock's reading as it is taken. What became of it is logged.
fn serve_request<C: Clock, D: Doors, K: Keeper, H: Hears>(
    server: &Server<'_, C>,
    doors: &mut D,
    peer: &D::Request,
    keeper: &mut K,
    hears: &mut H,
)
    ensures tries { D.tries doors.new ≡ D.tries doors.old }
    ensures timely { K.is_honest keeper.new → StepsAt (D.tries doors.old) (D.shown doors.old) (K.vault keeper.old) (K.vault keeper.new) }
    ensures heard { K.is_honest keeper.new → HearsSome H.hears hears.old hears.new (K.vault keeper.old) (K.vault keeper.new) }
    // What is logged is what happened: the moment, and that nothing was carried out of what came late.
    ensures logged { K.is_honest keeper.new → (moment : Option ℕ) × ReadsAs (D.tries doors.old) (D.shown doors.old) moment
        × IsAccounted D.logs doors.old doors.new moment (K.vault keeper.old) (K.vault keeper.new) }
    // It is logged whatever the device does, and once.
    ensures log { (f : Facts) × (asked answered : List ℕ) × (whole : Bool) × D.logs doors.old f asked answered whole doors.new }
    ensures leaves { LeavesNoLess K.Kept keeper.old keeper.new }
{
    let reading = doors.reading();
    let mut noted = Noted::new(server.service.alloc);
    let moment = Moment::from_secs(reading);
    let hosts = doors.hosts();
    let occasion = Occasion { moment, hosts };
    // A fault of the connection is its own.
    let served = serve_connection(server.clock, &mut noted, peer, keeper, hears, &occasion);
    // An entry that can't be written is lost.
    let _ = doors.log(&noted.request(reading, trouble_of(served)));
}

/// Answers a line, at the clock's reading as it is taken. What became of it is logged.
///
/// The faults are those of `answer_talker`.
fn answer_heard<C: Clock, D: Doors, K: Keeper, H: Hears>(
    server: &Server<'_, C>,
    doors: &mut D,
    talker: &D::Talker,
    heard: &Heard,
    keeper: &mut K,
    hears: &mut H,
) -> Result<Next, ReplayFault>
    ensures tries { D.tries doors.new ≡ D.tries doors.old }
    ensures timely { K.is_honest keeper.new → StepsAt (D.tries doors.old) (D.shown doors.old) (K.vault keeper.old) (K.vault keeper.new) }
    ensures heard { K.is_honest keeper.new → HearsSome H.hears hears.old hears.new (K.vault keeper.old) (K.vault keeper.new) }
    ensures end { result ≡ Ok Next.End → K.is_honest keeper.new → IsEnded (K.vault keeper.new) }
    // What is logged is what happened: the line, the moment, and what kept the line from its end.
    ensures logged { K.is_honest keeper.new → (moment : Option ℕ) × ReadsAs (D.tries doors.old) (D.shown doors.old) moment
        × IsLineAccounted D.logs doors.old doors.new moment heard.now.bytes.items (line_trouble result) (K.vault keeper.old) (K.vault keeper.new) }
    ensures log { (f : Facts) × (asked answered : List ℕ) × (whole : Bool) × D.logs doors.old f asked answered whole doors.new }
    ensures leaves { LeavesNoLess K.Kept keeper.old keeper.new }
{
    let reading = doors.reading();
    let answering = answer_talker(server, talker, heard, keeper, hears, reading);
    let trouble = trouble_in(answering.answered);
    let _ = doors.log(
        &answering
            .noted
            .line(heard.bytes.as_slice(), reading, trouble),
    );
    answering.answered
}

/// One turn: waits for what comes, and serves a request or a line, at the clock's reading as it is taken.
fn serve_turn<C: Clock, D: Doors, K: Keeper, H: Hears>(
    server: &Server<'_, C>,
    doors: &mut D,
    keeper: &mut K,
    hears: &mut H,
) -> Turn
    ensures timely { K.is_honest keeper.new → SteppedInTurns 1 (taken_by result) (D.tries doors.old) (D.tries doors.new) (K.vault keeper.old) (K.vault keeper.new) }
    ensures heard { K.is_honest keeper.new → HearsSome H.hears hears.old hears.new (K.vault keeper.old) (K.vault keeper.new) }
    ensures end { result ≡ Turn.End → K.is_honest keeper.new → IsEnded (K.vault keeper.new) }
    // What was taken is logged once, and else nothing is.
    ensures logged { LogsInTurns D.tries D.silent D.logs 1 (taken_by result) doors.old doors.new }
    ensures leaves { LeavesNoLess K.Kept keeper.old keeper.new }
{
    match doors.next() {
        Arrived::Request(peer) => {
            serve_request(server, doors, &peer, keeper, hears);
            Turn::Taken
        }
        Arrived::Line(heard, talker) => {
            let answered = answer_heard(server, doors, &talker, &heard, keeper, hears);
            part(server.clock, doors, talker, heard.is_ended, answered);
            turn_of(answered)
        }
        Arrived::Nothing => Turn::Idle,
    }
}

/// One turn. Where that is when the vault's device fails for the first time since it had failed `since` times, that is
/// reported.
fn watch_turn<C: Clock, D: Doors, K: Keeper, H: Hears, T: Reporter>(
    server: &Server<'_, C>,
    doors: &mut D,
    keeper: &mut K,
    hears: &mut H,
    since: u64,
    reporter: &mut T,
) -> Turn
    ensures timely { K.is_honest keeper.new → SteppedInTurns 1 (taken_by result) (D.tries doors.old) (D.tries doors.new) (K.vault keeper.old) (K.vault keeper.new) }
    ensures heard { K.is_honest keeper.new → HearsSome H.hears hears.old hears.new (K.vault keeper.old) (K.vault keeper.new) }
    ensures end { result ≡ Turn.End → K.is_honest keeper.new → IsEnded (K.vault keeper.new) }
    // What was taken is logged once, and else nothing is.
    ensures logged { LogsInTurns D.tries D.silent D.logs 1 (taken_by result) doors.old doors.new }
    ensures reported { K.count keeper.old ≡ since → ReportsOnce T.fails since (K.count keeper.new) reporter.old reporter.new }
    // It isn't reported a second time.
    ensures once { K.count keeper.old ≢ since → reporter.new ≡ reporter.old }
    ensures leaves { LeavesNoLess K.Kept keeper.old keeper.new }
{
    let had_failed = keeper.faults() != since;
    let turn = serve_turn(server, doors, keeper, hears);
    if !had_failed && keeper.faults() != since {
        reporter.failed();
    }
    turn
}

/// Takes `count` requests and lines that come in at two doors, and serves each at the clock's reading as it was taken,
/// or goes on up to the line that asks for the end: answers which of these it was. It ends too after the command after
/// which who hears lets no more be carried out; that is answered as if all were taken.
///
/// Each turn is one request or one line, so that a request waits for one line at most, and a line for one request. That
/// the vault's device failed is reported once, when it first does. A request that isn't served to its end counts as any
/// other, and so does a line.
pub fn serve_doors<C: Clock, D: Doors, K: Keeper, H: Hears, T: Reporter>(
    server: &Server<'_, C>,
    doors: &mut D,
    keeper: &mut K,
    hears: &mut H,
    count: u32,
    reporter: &mut T,
) -> Next
    // For each request and each line that was taken at most one command was carried out, at the clock's reading then;
    // `count` were taken, or fewer where a line ended it or who hears lets no more be carried out.
    ensures timely { K.is_honest keeper.new → ServedInTurns result (H.going hears.new) count (λ turns n.
        SteppedInTurns turns n (D.tries doors.old) (D.tries doors.new) (K.vault keeper.old) (K.vault keeper.new)) }
    ensures stepped { K.is_honest keeper.new → Stepped count (K.vault keeper.old) (K.vault keeper.new) }
    // Commands led to the vault, and each was heard of with its reply, while who hears let it be carried out.
    ensures heard { K.is_honest keeper.new → HearsAll H.going H.hears hears.old hears.new (K.vault keeper.old) (K.vault keeper.new) }
    // A vault that runs lead to from a new one is left as such a vault.
    ensures reached { K.is_honest keeper.new → Reached (K.vault keeper.old) → Reached (K.vault keeper.new) }
    // Only a caller with the right to administer ends it.
    ensures end { result ≡ Next.End → K.is_honest keeper.new → IsEnded (K.vault keeper.new) }
    // A device that failed is reported, once; where none failed nothing is.
    ensures reported { ReportsOnce T.fails (K.count keeper.old) (K.count keeper.new) reporter.old reporter.new }
    // Each request and each line that was taken is logged once, and else nothing is but what couldn't be taken.
    ensures logged { ServedInTurns result (H.going hears.new) count (λ turns n. LogsInTurns D.tries D.silent D.logs turns n doors.old doors.new) }
    ensures leaves { LeavesNoLess K.Kept keeper.old keeper.new }
{
    let since = keeper.faults();
    let mut taken: u32 = 0;
    for _turn in 0..u64::MAX {
        if taken == count {
            return Next::On;
        }
        if !hears.goes_on() {
            return Next::On;
        }
        match watch_turn(server, doors, keeper, hears, since, reporter) {
            Turn::Idle => {}
            Turn::Taken => taken += 1,
            Turn::End => return Next::End,
        }
    }
    Next::On
}
