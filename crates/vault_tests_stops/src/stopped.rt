//! A visit to a vault in files, up to where one of them fails.
use crate::expected::Progress;
use crate::visit::{Visit, work};
use sqlite::{Alter, Connection, FileStore, Files, Options, Unknown};
use sqlite_disk::{Disk, Start, Wary};
use std::alloc::Global;
use std::test::Fail;
use vault_base::refusal::Refusal;
use vault_failing::device::{Calls, Media, TornWrites};
use vault_store::sql_keeper::SqlKeeper;

/// What was under way as a file failed.
#[derive(Clone, Copy, PartialEq, Eq)]
pub enum Phase {
    /// The files were being opened.
    Opening,
    /// The vault was being made, or its tables looked at.
    Entering,
    /// A line was being carried out.
    Asking,
    /// The log was being copied into the database file.
    Closing,
    /// Nothing: no file failed.
    Over,
}

impl Phase {
    /// Whether the vault was there by then.
    pub fn is_after_entering(self) -> bool {
        self != Phase::Opening && self != Phase::Entering
    }
}

/// Where a visit ended.
#[derive(Clone, Copy)]
pub struct Stop {
    pub phase: Phase,
    pub progress: Progress,
}

/// A stop before any line.
fn before_lines(phase: Phase) -> Stop {
    let progress = Progress {
        lines: 0,
        changes: 0,
        has_failed: false,
        has_more: false,
    };
    Stop { phase, progress }
}

/// A stop at a line, or after the last one.
fn after_lines(progress: Progress) -> Stop {
    let phase = if progress.has_failed {
        Phase::Asking
    } else {
        Phase::Over
    };
    Stop { phase, progress }
}

/// Whether no file failed.
fn is_over(worked: &Result<Stop, Fail>) -> bool {
    match worked {
        Ok(stop) => stop.phase == Phase::Over,
        Err(_) => false,
    }
}

/// Where the visit ended, if closing its files was sound, or else failed.
fn after_closing(worked: Result<Stop, Fail>, is_sound: bool) -> Result<Stop, Fail> {
    let stop = worked?;
    if is_sound {
        return Ok(stop);
    }
    Ok(Stop {
        phase: Phase::Closing,
        progress: stop.progress,
    })
}

// What follows is over any store or any disk, as a proof over files would carry their state through each call.

/// Opens the files.
fn connected<D: Disk + Drop>(
    alloc: Global,
    files: Files<D>,
    checkpoint_frames: usize,
) -> Option<Connection<FileStore<D>>> {
    if !files.may_be_used() {
        return None;
    }
    // Few pages in memory, so that there are many calls on both files.
    let options = Options {
        cache_pages: 8,
        spill_pages: 2000,
        checkpoint_frames,
        seed: 1,
    };
    Connection::open_files(alloc, files, options).ok()
}

type Entrance<S> = Result<SqlKeeper<S>, (Refusal, Connection<S>)>;

/// The vault, which is made where that is to be done and was not done before.
fn entered<S: Alter>(alloc: Global, is_made: bool, conn: Connection<S>) -> Entrance<S> {
    if is_made {
        return SqlKeeper::open(alloc, conn);
    }
    match SqlKeeper::create(alloc, conn, false) {
        Err((Refusal::NameTaken, conn)) => SqlKeeper::open(alloc, conn),
        other => other,
    }
}

/// A visit up to its stop, and the connection as it is left then. Fails where a failing file is reported as
/// anything but that, and where the vault isn't the one that is to be found.
fn worked_on<S: Alter>(
    alloc: Global,
    visit: &Visit<'_>,
    conn: Connection<S>,
) -> (Result<Stop, Fail>, Connection<S>) {
    match entered(alloc, visit.day.is_made, conn) {
        Ok(keeper) => {
            let mut keeper = keeper;
            let worked = work(alloc, &mut keeper, visit);
            (worked.map(after_lines), keeper.into_connection())
        }
        Err((Refusal::Device, conn)) => (Ok(before_lines(Phase::Entering)), conn),
        Err((refusal, conn)) => (Err(Fail::new(refusal.name())), conn),
    }
}

fn let_go<D: Disk + Drop>(conn: Connection<FileStore<D>>) {
    drop(conn);
}

/// Closes the files after a visit that wasn't stopped, and lets go of any others. Says whether no file failed then.
fn close_or_leave<D: Disk + Drop>(conn: Connection<FileStore<D>>, is_over: bool) -> bool {
    if is_over {
        return conn.close().is_ok();
    }
    let_go(conn);
    true
}

/// A visit over this connection.
fn visited<D: Disk + Drop>(
    alloc: Global,
    visit: &Visit<'_>,
    conn: Connection<FileStore<D>>,
) -> Result<Stop, Fail> {
    let (worked, conn) = worked_on(alloc, visit, conn);
    let is_sound = close_or_leave(conn, is_over(&worked));
    after_closing(worked, is_sound)
}

/// A visit to the vault in these files, up to its stop.
fn stopped_in<D: Disk + Drop>(
    alloc: Global,
    visit: &Visit<'_>,
    files: Files<D>,
) -> Result<Stop, Fail> {
    match connected(alloc, files, visit.day.checkpoint_frames) {
        Some(conn) => visited(alloc, visit, conn),
        None => Ok(before_lines(Phase::Opening)),
    }
}

fn visited_from<S: Start>(
    alloc: Global,
    media: &Media,
    visit: &Visit<'_>,
    calls: Calls,
) -> Result<Stop, Fail> {
    stopped_in(alloc, visit, media.opened::<S>(calls)?)
}

/// A visit to the vault in these files, each of which fails after n calls, up to its stop.
pub fn visited_in(
    alloc: Global,
    media: &Media,
    visit: &Visit<'_>,
    calls: Calls,
) -> Result<Stop, Fail> {
    match media.torn() {
        TornWrites::Mixing => visited_from::<Unknown>(alloc, media, visit, calls),
        TornWrites::Tearing => visited_from::<Wary>(alloc, media, visit, calls),
    }
}
