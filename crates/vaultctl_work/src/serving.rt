//! Requests, and lines at a second door.
ghost use Rattle.std.specs.Prelude.{◌≡◌, ⊤, IfOk, is_some};
ghost use Rattle.vault_core.specs.Hearing.{HearsAll};
ghost use Rattle.vaultctl_serve.specs.Serving.{Stepped};
ghost use Rattle.vaultctl_work.specs.Done.{IsServed, most_with_lines as served_with_lines};
ghost use Rattle.vaultctl_work.specs.Outcomes as spec;

use crate::noting::{new_journal, serve_journal};
use crate::saying::say;
use crate::work::Work;
use std::alloc::{AllocError, Global};
use std::io::{Read, Stderr, Write};
use vault_core::hearing::{Hears, Nobody};
use vault_core_model::keeper::Keeper;
use vault_http::Hosts;
use vaultctl_commands::fault::JobFault;
use vaultctl_commands::outcome::Outcome;
use vaultctl_job::job::ServeJob;
use vaultctl_job::word::Word;
use vaultctl_job::words::VERSION;
use vaultctl_serve::{Port, PortFault, serve};
use vaultctl_serve_lines::line::Next;
use vaultctl_serve_lines::{DoorFault, LinePlace, Places, serve_with_lines};

fn served(ended: Result<(), PortFault>) -> Result<Outcome, JobFault>
    ensures { result ≡ spec.served ended }
{
    match ended {
        Ok(()) => Ok(Outcome::Done),
        Err(PortFault::Device) => Err(JobFault::Device),
    }
}

/// How many requests and lines are served where `count` are asked for: a million, which is the default, is no limit.
fn most_with_lines(count: u32) -> u32
    ensures { result ≡ served_with_lines count }
{
    if count == 1_000_000 { u32::MAX } else { count }
}

fn served_at_both(ended: Result<Next, DoorFault>) -> Result<Outcome, JobFault>
    ensures { result ≡ spec.served_at_both ended }
{
    match ended {
        Ok(_) => Ok(Outcome::Done),
        Err(_) => Err(JobFault::Device),
    }
}

/// Says in words that nobody can listen for lines.
fn say_door<E: Write>(err: &mut E, fault: DoorFault) {
    if fault == DoorFault::Lines {
        say(
            err,
            "--lines: nobody can listen there: of a path the folder isn't there or isn't for this user, or something else is at the path; of a port the same as below",
        );
    }
}

/// The hosts of these names. The error is out of memory.
fn hosts_of(alloc: Global, names: &[Word]) -> Result<Hosts, AllocError>
    ensures { IfOk result (λ hosts. hosts ≡ names.now) }
{
    let mut hosts = Hosts::any(alloc);
    for name in names {
        hosts.push(alloc, name.as_str())?;
    }
    Ok(hosts)
}

/// Standard error, where a log is asked for.
fn log_of(rt: &HostRuntime, job: &ServeJob) -> Option<Stderr>
    ensures { is_some result ≡ job.now.log }
{
    if job.log { Some(rt.stderr()) } else { None }
}

/// Where lines come in. Where the text names no place, it says so in words.
fn lines_at<'a, E: Write>(place: &'a str, err: &mut E) -> Option<LinePlace<'a>> {
    let lines = LinePlace::read(place);
    if lines.is_none() {
        say(
            err,
            "--lines: digits are a port from 1 to 65535, and any other text is a path",
        );
    }
    lines
}

/// Serves at two doors. Where nobody can listen for lines, it says so in words.
///
/// `Device` comes where nobody can listen at one of the doors.
fn serve_both<K: Keeper, H: Hears, E: Write>(
    rt: &HostRuntime,
    keeper: &mut K,
    hears: &mut H,
    places: Places<'_>,
    err: &mut E,
    log: &mut Option<Stderr>,
) -> Result<Outcome, JobFault>
    ensures done { K.is_honest keeper.new → K.is_honest keeper.old × Stepped places.entry.count (K.vault keeper.old) (K.vault keeper.new) }
    ensures heard { K.is_honest keeper.new → HearsAll H.going H.hears hears.old hears.new (K.vault keeper.old) (K.vault keeper.new) }
{
    let ended = serve_with_lines(rt, keeper, hears, places, err, log);
    if let Err(fault) = ended {
        say_door(err, fault);
    }
    served_at_both(ended)
}

/// Serves requests for these hosts, and lines where a second door is asked for. Of commands that were carried out
/// somebody hears.
fn serve_for_hosts<K: Keeper, H: Hears, E: Write>(
    rt: &HostRuntime,
    keeper: &mut K,
    hears: &mut H,
    job: &ServeJob,
    hosts: &Hosts,
    err: &mut E,
) -> Result<Outcome, JobFault>
    ensures done { K.is_honest keeper.new → K.is_honest keeper.old × IsServed job.now (K.vault keeper.old) (K.vault keeper.new) }
    ensures heard { K.is_honest keeper.new → HearsAll H.going H.hears hears.old hears.new (K.vault keeper.old) (K.vault keeper.new) }
{
    let (file, port, alloc) = (job.file.as_str(), job.port, rt.alloc());
    let Some(place) = &job.lines else {
        let place = Port {
            file,
            port,
            hosts,
            alloc,
            count: job.count,
        };
        return served(serve(rt, keeper, hears, place, err, &mut log_of(rt, job)));
    };
    let Some(lines) = lines_at(place.as_str(), err) else {
        return Err(JobFault::Device);
    };
    let places = Places {
        file,
        port,
        lines,
        hosts,
        version: VERSION,
        alloc,
        count: most_with_lines(job.count),
    };
    serve_both(rt, keeper, hears, places, err, &mut log_of(rt, job))
}

/// Serves what the job asks for. Somebody hears of each command that was carried out, and the server ends where that one
/// lets no more be carried out.
///
/// `Device` comes where nobody can listen, and `Memory` where there is no room for the hosts: nothing was served then.
pub fn serve_heard<K: Keeper, H: Hears, E: Write>(
    rt: &HostRuntime,
    keeper: &mut K,
    hears: &mut H,
    job: &ServeJob,
    err: &mut E,
) -> Result<Outcome, JobFault>
    ensures done { K.is_honest keeper.new → K.is_honest keeper.old × IsServed job.now (K.vault keeper.old) (K.vault keeper.new) }
    ensures heard { K.is_honest keeper.new → HearsAll H.going H.hears hears.old hears.new (K.vault keeper.old) (K.vault keeper.new) }
{
    let Ok(hosts) = hosts_of(rt.alloc(), job.hosts.as_slice()) else {
        return Err(JobFault::Memory);
    };
    serve_for_hosts(rt, keeper, hears, job, &hosts, err)
}

/// Serves what the job asks for, with a new journal at that path.
fn serve_at<K: Keeper, E: Write>(
    rt: &HostRuntime,
    keeper: &mut K,
    job: &ServeJob,
    path: &str,
    err: &mut E,
) -> Result<Outcome, JobFault>
    ensures done { K.is_honest keeper.new → K.is_honest keeper.old × IsServed job.now (K.vault keeper.old) (K.vault keeper.new) }
{
    let mut journal = new_journal(rt, path, err)?;
    serve_journal(rt, keeper, job, path, &mut journal, err)
}

/// The answers to requests at a port of 127.0.0.1, and to lines at a second door where one is asked for.
impl Work for ServeJob {
    ghost prints = { λ outcome before after. ⊤ };

    ghost does = { λ job old new result. IsServed job old.vault new.vault };

    fn terminal(&self, _rt: &HostRuntime) -> Option<Stderr> {
        None
    }

    /// It is reported once it listens. Where a journal is asked for, it gets each change.
    fn carry_out<K: Keeper, R: Read, W: Write, E: Write>(
        &self,
        rt: &HostRuntime,
        keeper: &mut K,
        _reader: &mut R,
        _out: &mut W,
        err: &mut E,
    ) -> Result<Outcome, JobFault> {
        match &self.journal {
            Some(path) => serve_at(rt, keeper, self, path.as_str(), err),
            None => serve_heard(rt, keeper, &mut Nobody, self, err),
        }
    }
}
