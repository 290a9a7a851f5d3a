//! One connection, and its one request.
ghost use Rattle.std.specs.Prelude.{ℕ, ◌≡◌, List, Option, IfErr, IfSome, OnOk, Err};
ghost use Rattle.std.specs.Io.KnownBytes.{Appends};
ghost use Rattle.vault_http.specs.Calls.{LeavesBy, StepsHeard};
ghost use Rattle.vault_http.specs.Exchange.{Answered};
ghost use Rattle.vault_core.specs.Hearing.{AtMostOne, HearsOnce};
ghost use Rattle.vault_core_model.specs.LeavesMany.{LeavesNoLess};
ghost use Rattle.vault_http.specs.Left.{Unanswered};
ghost use Rattle.vault_http.specs.declared.fault.ServeFault.TheVariants as faults;
ghost use Rattle.vaultctl_serve.specs.InTime.{known_in_time};
ghost use Rattle.vaultctl_serve.specs.Strangers.{RefusesStrangers};
ghost use Rattle.vaultctl_serve.specs.Whole.{WaitsForAll};
ghost use Rattle.vaultctl_serve.specs.declared.scan.Scan.TheVariants.{Leading};

use crate::inbound::{Inbound, TimedPeer};
use crate::lingering::linger;
use crate::noted::{Noted, NotedAnswer, NotedInbound};
use crate::peer::Peer;
use crate::timed::{TimedAnswer, TimedRequest};
use std::alloc::Global;
use std::io::{BufReader, Write};
use std::time::{Clock, Duration, Instant};
use vault_core::hearing::Hears;
use vault_core_model::keeper::Keeper;
use vault_http::{Occasion, ServeFault, serve_for};

/// Serves the one request of a connection, which has to be for one of the hosts: what is answered is what comes in time,
/// as if nothing came after it.
///
/// The faults are those of `serve_for`. A request that comes too late is a failed read, `Read`, and `Memory` comes too
/// where there is no room for what is read ahead.
pub fn serve_in_time<I: Inbound + Drop, W: Write, K: Keeper, H: Hears>(
    alloc: Global,
    inbound: I,
    writer: &mut W,
    keeper: &mut K,
    hears: &mut H,
    occasion: &Occasion<'_>,
) -> Result<(), ServeFault>
    // The command of the request was carried out, and its reply is the one that is answered and heard of.
    ensures ok { K.is_honest keeper.new → OnOk result (Answered occasion.now.hosts.now (StepsHeard K.Kept keeper.old keeper.new H.hears)
        occasion.now.moment (known_in_time Leading (I.coming inbound)) (K.vault keeper.old, hears.old) (K.vault keeper.new, hears.new) (W.contents writer.old) (W.contents writer.new)) }
    ensures err { K.is_honest keeper.new → IfErr result (λ e. (unread : Option (List ℕ))
        × Unanswered occasion.now.hosts.now (StepsHeard K.Kept keeper.old keeper.new H.hears) e occasion.now.moment
        (known_in_time Leading (I.coming inbound)) unread (K.vault keeper.old, hears.old) (K.vault keeper.new, hears.new) (W.contents writer.old) (W.contents writer.new)) }
    // A request that isn't whole in time changes nothing.
    ensures late { K.is_honest keeper.new → IfSome (known_in_time Leading (I.coming inbound)) (λ input. WaitsForAll occasion.now.hosts.now occasion.now.moment input
        (K.vault keeper.old) (K.vault keeper.new)) }
    // Where hosts are named, a request for another one changes nothing, and is answered InvalidArgument.
    ensures strangers { K.is_honest keeper.new → IfSome (known_in_time Leading (I.coming inbound)) (λ input. RefusesStrangers occasion.now.hosts.now occasion.now.moment input result
        (K.vault keeper.old) (K.vault keeper.new) (W.contents writer.old) (W.contents writer.new)) }
    ensures once { K.is_honest keeper.new → AtMostOne occasion.now.moment (K.vault keeper.old) (K.vault keeper.new) }
    ensures heard { K.is_honest keeper.new → HearsOnce H.hears hears.old hears.new occasion.now.moment (K.vault keeper.old) (K.vault keeper.new) }
    ensures unread { result ≡ Err faults.Read → K.vault keeper.new ≡ K.vault keeper.old }
    ensures leaves { LeavesBy K.Kept keeper.old keeper.new W.Write writer.old writer.new result occasion.now.moment }
{
    let Ok(mut reader) = BufReader::new(alloc, TimedRequest::new(inbound)) else {
        return Err(ServeFault::Memory);
    };
    serve_for(alloc, &mut reader, writer, keeper, hears, occasion)
}

/// Serves the one request of a connection, which was just taken; the request has to be for one of the hosts. What goes by
/// up to the end of the answer is noted.
///
/// Where the request comes too late, that is a failed read, `Read`, and where its answer is taken too late, a
/// failed write, `Write`.
pub fn serve_connection<C: Clock, P: Peer, K: Keeper, H: Hears>(
    clock: &C,
    noted: &mut Noted,
    peer: &P,
    keeper: &mut K,
    hears: &mut H,
    occasion: &Occasion<'_>,
) -> Result<(), ServeFault>
    ensures once { K.is_honest keeper.new → AtMostOne occasion.now.moment (K.vault keeper.old) (K.vault keeper.new) }
    ensures heard { K.is_honest keeper.new → HearsOnce H.hears hears.old hears.new occasion.now.moment (K.vault keeper.old) (K.vault keeper.new) }
    ensures unread { result ≡ Err faults.Read → K.vault keeper.new ≡ K.vault keeper.old }
    ensures leaves { LeavesNoLess K.Kept keeper.old keeper.new }
{
    let Ok(since) = Instant::now(clock) else {
        return Err(ServeFault::Read);
    };
    let mut answer = NotedAnswer {
        writer: TimedAnswer::new(TimedPeer { clock, peer, since }),
        seen: noted.take_answered(),
    };
    let inbound = NotedInbound {
        inbound: TimedPeer { clock, peer, since },
        seen: &mut noted.asked,
    };
    let served = serve_in_time(noted.alloc, inbound, &mut answer, keeper, hears, occasion);
    noted.took = since.elapsed(clock).unwrap_or(Duration::ZERO);
    noted.answered = answer.seen;
    if served.is_ok() {
        // The answer is written, whatever the client does after it.
        let _ = linger(clock, peer);
    }
    served
}
