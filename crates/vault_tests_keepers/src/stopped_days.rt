//! Each of a vault's two files fails after each number of calls in turn.
use std::alloc::Global;
use std::test::Fail;
use vault_failing::device::{TornWrites, Which};
use vault_tests_stops::day::{Day, day_of_one_put_more, day_of_puts, first_day, later_day};
use vault_tests_stops::trial::{Stops, prepare, stop_after_each, syncs_on};

/// More calls than a day makes of a file.
const MOST_CALLS: u64 = 10_000;

/// About half of the calls that a later day makes of its log. Its stops after fewer calls are one test, and those after
/// as many and more are another, since a test of all of them takes longest.
const HALF_OF_A_LATER_DAY: u64 = 170;

/// Stops the day after each number of calls of that file, from the first of these numbers up to below the second, or
/// until it isn't stopped.
fn stopped_after(
    rt: &HostRuntime,
    day: Day,
    torn: TornWrites,
    which: Which,
    from: u64,
    to: u64,
) -> Result<Stops, Fail> {
    let trial = prepare(rt.alloc(), day, torn)?;
    let stops = stop_after_each(rt.alloc(), &trial, which, from, to)?;
    println!(rt; "{stops:?}")?;
    Ok(stops)
}

/// Stops the day after each number of calls of that file, from none on until it isn't stopped. Fails where it has no
/// stop in one of its phases.
fn stopped(rt: &HostRuntime, day: Day, torn: TornWrites, which: Which) -> Result<Stops, Fail> {
    let stops = stopped_after(rt, day, torn, which, 0, MOST_CALLS)?;
    if !stops.are_complete() {
        return Err(Fail::new("a day has a phase in which it isn't stopped"));
    }
    Ok(stops)
}

/// Stops a later day after each number of calls of its log up to half of them. Fails where it isn't stopped after each.
fn stopped_in_first_half(rt: &HostRuntime, torn: TornWrites) -> Result<Stops, Fail> {
    let stops = stopped_after(rt, later_day(), torn, Which::Log, 0, HALF_OF_A_LATER_DAY)?;
    if stops.is_over || stops.all() != HALF_OF_A_LATER_DAY {
        return Err(Fail::new("a later day has fewer stops than half of them"));
    }
    if stops.opening == 0 || stops.asking == 0 {
        return Err(Fail::new("a day has a phase in which it isn't stopped"));
    }
    Ok(stops)
}

/// Stops a later day after each number of calls of its log from half of them on, until it isn't stopped. Fails where
/// that is never reached.
fn stopped_in_second_half(rt: &HostRuntime, torn: TornWrites) -> Result<Stops, Fail> {
    let stops = stopped_after(
        rt,
        later_day(),
        torn,
        Which::Log,
        HALF_OF_A_LATER_DAY,
        MOST_CALLS,
    )?;
    if !stops.is_over || stops.asking == 0 || stops.closing == 0 {
        return Err(Fail::new("a day has a phase in which it isn't stopped, or has no end"));
    }
    Ok(stops)
}

#[test]
fn a_first_day_is_stopped_in_its_log(rt: HostRuntime) -> Result<(), Fail> {
    let stops = stopped(&rt, first_day(), TornWrites::Mixing, Which::Log)?;
    assert!(rt; stops.entering != 0 && stops.one_more != 0);
    Ok(())
}

#[test]
fn a_first_day_is_stopped_in_a_log_that_tears(rt: HostRuntime) -> Result<(), Fail> {
    let stops = stopped(&rt, first_day(), TornWrites::Tearing, Which::Log)?;
    assert!(rt; stops.entering != 0 && stops.one_more != 0);
    Ok(())
}

#[test]
fn a_first_day_is_stopped_in_its_database_file(rt: HostRuntime) -> Result<(), Fail> {
    stopped(&rt, first_day(), TornWrites::Mixing, Which::Database)?;
    Ok(())
}

#[test]
fn a_first_day_is_stopped_in_a_database_file_that_tears(rt: HostRuntime) -> Result<(), Fail> {
    stopped(&rt, first_day(), TornWrites::Tearing, Which::Database)?;
    Ok(())
}

#[test]
fn a_later_day_is_stopped_after_few_calls_of_its_log(rt: HostRuntime) -> Result<(), Fail> {
    let stops = stopped_in_first_half(&rt, TornWrites::Mixing)?;
    assert!(rt; stops.one_more != 0);
    Ok(())
}

#[test]
fn a_later_day_is_stopped_after_few_calls_of_a_log_that_tears(rt: HostRuntime) -> Result<(), Fail> {
    let stops = stopped_in_first_half(&rt, TornWrites::Tearing)?;
    assert!(rt; stops.one_more != 0);
    Ok(())
}

#[test]
fn a_later_day_is_stopped_after_many_calls_of_its_log(rt: HostRuntime) -> Result<(), Fail> {
    let stops = stopped_in_second_half(&rt, TornWrites::Mixing)?;
    assert!(rt; stops.one_more != 0);
    Ok(())
}

#[test]
fn a_later_day_is_stopped_after_many_calls_of_a_log_that_tears(
    rt: HostRuntime,
) -> Result<(), Fail> {
    let stops = stopped_in_second_half(&rt, TornWrites::Tearing)?;
    assert!(rt; stops.one_more != 0);
    Ok(())
}

#[test]
fn a_later_day_is_stopped_in_its_database_file(rt: HostRuntime) -> Result<(), Fail> {
    let stops = stopped(&rt, later_day(), TornWrites::Mixing, Which::Database)?;
    assert!(rt; stops.entering != 0);
    Ok(())
}

#[test]
fn a_later_day_is_stopped_in_a_database_file_that_tears(rt: HostRuntime) -> Result<(), Fail> {
    let stops = stopped(&rt, later_day(), TornWrites::Tearing, Which::Database)?;
    assert!(rt; stops.entering != 0);
    Ok(())
}

/// How often the log is synced for one put.
fn syncs_of_a_put(alloc: Global, torn: TornWrites) -> Result<u64, Fail> {
    let without = syncs_on(alloc, day_of_puts(), torn)?;
    let with = syncs_on(alloc, day_of_one_put_more(), torn)?;
    Ok(with.saturating_sub(without))
}

#[test]
fn a_put_syncs_the_log_once_or_twice(rt: HostRuntime) -> Result<(), Fail> {
    for (torn, syncs) in [(TornWrites::Mixing, 1u64), (TornWrites::Tearing, 2)] {
        assert_eq!(rt; syncs_of_a_put(rt.alloc(), torn)?, syncs);
    }
    Ok(())
}
