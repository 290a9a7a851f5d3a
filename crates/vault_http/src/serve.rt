//! One request, served.
ghost use Rattle.std.specs.Prelude.{◌≡◌, [], ℕ, List, IfErr, OnOk, Err, Some};
ghost use Rattle.std.specs.Io.KnownBytes.{Consumes};
ghost use Rattle.vault_base.specs.Days.{moment_at};
ghost use Rattle.vault_http.specs.Calls.{AnsweredBy, LeavesBy, PlanLeftBy, PlanServedBy, Steps, UnansweredBy};
ghost use Rattle.vault_http.specs.Command.{IsWithinLength};
ghost use Rattle.vault_http.specs.Exchange.{Answered};
ghost use Rattle.vault_core.specs.Hearing.{AtMostOne, HearsOnce};
ghost use Rattle.vault_http.specs.Left as left;
ghost use Rattle.vault_http.specs.declared.fault.ServeFault.TheVariants as faults;

use crate::carrying::{Denial, RequestContext, conclude, deny};
use crate::command::command_after;
use crate::fault::ServeFault;
use crate::judging::{Judgement, judge_request};
use crate::send::send_interim;
use std::alloc::Global;
use std::io::{Read, Write};
use vault_base::moment::Moment;
use vault_core::hearing::{Hears, Nobody};
use vault_core_model::keeper::Keeper;
use vault_http_request::host::Hosts;
use vault_http_request::plan::Plan;
use vault_http_request::request_headers::RequestHeaders;

/// What a request asks for, and whether its answer shows a body.
#[derive(Drop)]
struct Planned {
    plan: Plan,
    shown: bool,
}

/// When a request is served, and for whom.
#[derive(Drop)]
pub struct Occasion<'a> {
    /// The moment that the clock shows; none where its reading is no moment.
    pub moment: Option<Moment>,
    /// The hosts that the request may be for, beside this machine; where there are none, any host.
    pub hosts: &'a Hosts,
}

/// Serves a plan, with what comes after its head.
fn serve_plan<R: Read, W: Write, K: Keeper, H: Hears>(
    alloc: Global,
    reader: &mut R,
    writer: &mut W,
    keeper: &mut K,
    hears: &mut H,
    planned: Planned,
) -> Result<(), ServeFault>
    ensures ok { PlanServedBy K.Kept keeper.old keeper.new H.hears hears.old hears.new R.Read reader.old reader.new W.Write writer.old writer.new result planned.shown planned.plan }
    ensures err { PlanLeftBy K.Kept keeper.old keeper.new H.hears hears.old hears.new R.Read reader.old reader.new W.Write writer.old writer.new result planned.shown planned.plan }
    ensures once { K.is_honest keeper.new → AtMostOne (Some planned.plan.at) (K.vault keeper.old) (K.vault keeper.new) }
    ensures heard { K.is_honest keeper.new → HearsOnce H.hears hears.old hears.new (Some planned.plan.at) (K.vault keeper.old) (K.vault keeper.new) }
    ensures unread { result ≡ Err faults.Read → K.vault keeper.new ≡ K.vault keeper.old }
    ensures taken { OnOk result ((taken : List ℕ) × Consumes (R.remaining reader.old) (R.remaining reader.new) taken × IsWithinLength planned.plan.headers.length taken) }
    ensures leaves { LeavesBy K.Kept keeper.old keeper.new W.Write writer.old writer.new result (Some planned.plan.at) }
{
    let Planned { plan, shown } = planned;
    let Plan {
        at,
        operation,
        headers,
    } = plan;
    let RequestHeaders {
        length,
        caller,
        locks,
        waits,
    } = headers;
    let context = RequestContext { at, caller, shown };
    let stated = send_interim(writer, waits);
    let judged = command_after(alloc, reader, operation, locks, length, stated)?;
    conclude(alloc, writer, keeper, hears, &context, judged)
}

/// Serves one request: what is written is the answer to what is read, by at most one step at the reading,
/// which is in seconds since 1970. Not one byte is answered by none.
///
/// Nothing after the head is read where no body belongs to the request, and of a body no more than
/// its `content-length`; of a head the reader is asked for one byte at a time, so give a `BufReader` over a
/// file or a socket.
///
/// `Read` comes where the reader failed: no step was made. `Write` comes where the writer failed, and
/// `Memory` where a growth was refused: the vault is as before, or as after the one step. Where it was the
/// answer that could not be written, the vault is as the answer says, and a client that waits was told to go
/// on; where it was `100 Continue`, nothing of the body was read and the vault is as before. With `Read` and
/// `Memory` no byte of an answer is written, with `Write` a beginning of it.
///
/// That the device failed is answered only where the keeper's count of failures rose in the call, or stands at
/// its greatest value; and where the count rose, that is what is answered.
pub fn serve_one<R: Read, W: Write, K: Keeper>(
    alloc: Global,
    reader: &mut R,
    writer: &mut W,
    keeper: &mut K,
    reading: i64,
) -> Result<(), ServeFault>
    ensures ok { K.is_honest keeper.new → OnOk result (Answered [] (Steps K.Kept keeper.old keeper.new) (moment_at reading)
        (R.remaining reader.old) (K.vault keeper.old) (K.vault keeper.new) (W.contents writer.old) (W.contents writer.new)) }
    ensures err { K.is_honest keeper.new → IfErr result (λ e. left.Unanswered [] (Steps K.Kept keeper.old keeper.new) e (moment_at reading)
        (R.remaining reader.old) (R.remaining reader.new) (K.vault keeper.old) (K.vault keeper.new) (W.contents writer.old) (W.contents writer.new)) }
    ensures once { K.is_honest keeper.new → AtMostOne (moment_at reading) (K.vault keeper.old) (K.vault keeper.new) }
    ensures unread { result ≡ Err faults.Read → K.vault keeper.new ≡ K.vault keeper.old }
    ensures taken { OnOk result (left.Taken [] (moment_at reading) (R.remaining reader.old) (R.remaining reader.new)) }
    // Where the count rose, the reply of the one step says that the device failed, and what is written is its
    // answer, or a beginning of that.
    ensures leaves { LeavesBy K.Kept keeper.old keeper.new W.Write writer.old writer.new result (moment_at reading) }
{
    let hosts = Hosts::any(alloc);
    let moment = Moment::from_secs(reading);
    let occasion = Occasion {
        moment,
        hosts: &hosts,
    };
    serve_for(alloc, reader, writer, keeper, &mut Nobody, &occasion)
}

/// As `serve_one`, where requests for these hosts are answered, and for this machine; where there are none, for any host.
/// The command that is carried out is heard of, with its reply, before its answer is written.
///
/// A request for another host, without one, or with two is refused, `InvalidArgument`, before anything else of it is looked
/// at, and nothing after its head is read.
pub fn serve_for<R: Read, W: Write, K: Keeper, H: Hears>(
    alloc: Global,
    reader: &mut R,
    writer: &mut W,
    keeper: &mut K,
    hears: &mut H,
    occasion: &Occasion<'_>,
) -> Result<(), ServeFault>
    // The command of the request was carried out, and its reply is the one that is answered and heard of.
    ensures ok { AnsweredBy K.Kept keeper.old keeper.new H.hears hears.old hears.new R.Read reader.old reader.new W.Write writer.old writer.new result occasion.now.hosts.now occasion.now.moment }
    ensures err { UnansweredBy K.Kept keeper.old keeper.new H.hears hears.old hears.new R.Read reader.old reader.new W.Write writer.old writer.new result occasion.now.hosts.now occasion.now.moment }
    ensures once { K.is_honest keeper.new → AtMostOne occasion.now.moment (K.vault keeper.old) (K.vault keeper.new) }
    ensures heard { K.is_honest keeper.new → HearsOnce H.hears hears.old hears.new occasion.now.moment (K.vault keeper.old) (K.vault keeper.new) }
    ensures unread { result ≡ Err faults.Read → K.vault keeper.new ≡ K.vault keeper.old }
    ensures taken { OnOk result (left.Taken occasion.now.hosts.now occasion.now.moment (R.remaining reader.old) (R.remaining reader.new)) }
    ensures leaves { LeavesBy K.Kept keeper.old keeper.new W.Write writer.old writer.new result occasion.now.moment }
{
    match judge_request(alloc, reader, occasion.hosts, &occasion.moment)? {
        Judgement::Nothing => Ok(()),
        Judgement::Denied(refusal, allow, shown) => {
            let denial = Denial {
                refusal,
                allow,
                shown,
            };
            deny(alloc, writer, occasion.moment, &denial)
        }
        Judgement::Planned(plan, shown) => {
            let planned = Planned { plan, shown };
            serve_plan(alloc, reader, writer, keeper, hears, planned)
        }
    }
}
