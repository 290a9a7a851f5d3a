//! A day that is stopped at each call of one of its files.
use crate::day::Day;
use crate::expected::{Expected, Progress, expect};
use crate::stopped::{Phase, Stop, visited_in};
use crate::visit::{Resumed, Visit};
use std::alloc::Global;
use std::test::Fail;
use vault_failing::device::{ALL_CALLS, Bytes, Calls, Crash, Media, TornWrites, Which};

/// A day, the files that it begins with, and what is to be found.
pub struct Trial {
    day: Day,
    torn: TornWrites,
    begins: Bytes,
    expected: Expected,
}

// It is written out, so that a test does not prove again how each part is let go of.
impl Drop for Trial {
    fn drop(self) {
        let Trial {
            day: _,
            torn: _,
            begins: _,
            expected: _,
        } = self;
    }
}

/// How often a day was stopped.
#[derive(Clone, Copy, Debug)]
pub struct Stops {
    pub opening: u64,
    pub entering: u64,
    pub asking: u64,
    pub closing: u64,
    /// In how many the change that was being made was found.
    pub one_more: u64,
    /// How many pairs of files were left.
    pub outcomes: u64,
    /// Whether the last day wasn't stopped.
    pub is_over: bool,
}

impl Stops {
    fn new() -> Stops {
        Stops {
            opening: 0,
            entering: 0,
            asking: 0,
            closing: 0,
            one_more: 0,
            outcomes: 0,
            is_over: false,
        }
    }

    /// Whether the day was stopped while its files were opened, while a line was carried out and while they
    /// were closed, and wasn't stopped in the end.
    pub fn are_complete(&self) -> bool {
        self.is_over && self.opening != 0 && self.asking != 0 && self.closing != 0
    }

    /// How many days were stopped.
    pub fn all(&self) -> u64 {
        self.opening
            .saturating_add(self.entering)
            .saturating_add(self.asking)
            .saturating_add(self.closing)
    }

    fn count(&mut self, phase: Phase) {
        match phase {
            Phase::Opening => self.opening = self.opening.saturating_add(1),
            Phase::Entering => self.entering = self.entering.saturating_add(1),
            Phase::Asking => self.asking = self.asking.saturating_add(1),
            Phase::Closing => self.closing = self.closing.saturating_add(1),
            Phase::Over => self.is_over = true,
        }
    }

    fn count_outcome(&mut self, has_more: bool) {
        self.outcomes = self.outcomes.saturating_add(1);
        if has_more {
            self.one_more = self.one_more.saturating_add(1);
        }
    }
}

/// A day with the files that earlier days leave.
pub fn prepare(alloc: Global, day: Day, torn: TornWrites) -> Result<Trial, Fail> {
    let begins = files_before(alloc, &day, torn)?;
    Ok(Trial {
        day,
        torn,
        begins,
        expected: expect(alloc, &day)?,
    })
}

/// The files as the day begins.
fn files_before(alloc: Global, day: &Day, torn: TornWrites) -> Result<Bytes, Fail> {
    if day.is_made {
        return files_after(alloc, day.earlier(), torn);
    }
    Ok(Bytes::none(alloc))
}

/// The files as the first day ends.
fn files_after(alloc: Global, day: Day, torn: TornWrites) -> Result<Bytes, Fail> {
    let media = Media::new(alloc, &Bytes::none(alloc), torn)?;
    visit_whole(alloc, &beginning(day), &media)?;
    Ok(media.left_by(Crash::Loses, Crash::Loses)?)
}

/// The visit that begins a day.
fn beginning(day: Day) -> Visit<'static> {
    Visit { day, stop: None }
}

/// How often the log is synced on a day that isn't stopped.
pub fn syncs_on(alloc: Global, day: Day, torn: TornWrites) -> Result<u64, Fail> {
    let media = Media::new(alloc, &files_before(alloc, &day, torn)?, torn)?;
    visit_whole(alloc, &beginning(day), &media)?;
    Ok(media.log_syncs())
}

/// Stops the day after each of these numbers of calls of a file in turn, up to the first day that isn't stopped.
pub fn stop_after_each(
    alloc: Global,
    trial: &Trial,
    which: Which,
    from: u64,
    to: u64,
) -> Result<Stops, Fail> {
    let mut stops = Stops::new();
    for passed in from..to {
        stop_after(alloc, trial, which.passing(passed), &mut stops)?;
        if stops.is_over {
            return Ok(stops);
        }
    }
    Ok(stops)
}

/// The day, where a file fails after n calls; and what becomes of all that may be left then.
fn stop_after(alloc: Global, trial: &Trial, calls: Calls, stops: &mut Stops) -> Result<(), Fail> {
    let media = Media::new(alloc, &trial.begins, trial.torn)?;
    let stop = visited_in(alloc, &media, &beginning(trial.day), calls)?;
    stops.count(stop.phase);
    for log in trial.torn.crashes() {
        find_with(alloc, trial, &stop, &media, log, stops)?;
    }
    Ok(())
}

/// What is left of the files by this crash of the log and each of the database file.
fn find_with(
    alloc: Global,
    trial: &Trial,
    stop: &Stop,
    media: &Media,
    log: Crash,
    stops: &mut Stops,
) -> Result<(), Fail> {
    for database in trial.torn.crashes() {
        if media.may_be_left_by(log, database) {
            let left = media.left_by(log, database)?;
            stops.count_outcome(find(alloc, trial, stop, &left)?);
        }
    }
    Ok(())
}

/// Whether the change that was being made is found. The vault in these files is that after the acknowledged
/// changes, or with that one; the rest of the day leads from there to its end, which is still there once the
/// files were closed.
fn find(alloc: Global, trial: &Trial, stop: &Stop, left: &Bytes) -> Result<bool, Fail> {
    let media = Media::new(alloc, left, trial.torn)?;
    let is_made = trial.day.is_made || stop.phase.is_after_entering();
    let visit = resumption(trial, is_made, stop.progress);
    let progress = visit_whole(alloc, &visit, &media)?;
    find_end(alloc, &resumption(trial, true, progress), &media)?;
    Ok(progress.has_more)
}

/// Fails unless the day's end is still there in these files, which were closed.
fn find_end(alloc: Global, visit: &Visit<'_>, media: &Media) -> Result<(), Fail> {
    let media = media.reopened(alloc)?;
    visit_whole(alloc, visit, &media)?;
    Ok(())
}

/// The visit after a stop there.
fn resumption(trial: &Trial, is_made: bool, progress: Progress) -> Visit<'_> {
    let expected = &trial.expected;
    Visit {
        day: trial.day.entered(is_made),
        stop: Some(Resumed { expected, progress }),
    }
}

/// A visit to the vault in these files, of which none fails.
fn visit_whole(alloc: Global, visit: &Visit<'_>, media: &Media) -> Result<Progress, Fail> {
    let stop = visited_in(alloc, media, visit, ALL_CALLS)?;
    if stop.phase != Phase::Over {
        return Err(Fail::new("a sound file failed"));
    }
    Ok(stop.progress)
}
