//! The machine's clock.
ghost use Rattle.std.specs.Prelude.{◌≡◌, ◌/◌};
ghost use Rattle.std.specs.Time.{system_time_nanos};
ghost use Rattle.vault_base.specs.Days.{as_moment, moment_at};

use std::time::{Clock, SystemTime, UNIX_EPOCH};
use vault_base::moment::Moment;

/// A reading that is no moment.
const NO_MOMENT: i64 = -1;

/// The whole seconds of a time since 1970; where these are no moment, a reading that is none.
fn seconds_of(time: SystemTime) -> i64
    ensures { moment_at result ≡ as_moment (system_time_nanos time / 1_000_000_000) }
{
    let Ok(since) = time.duration_since(UNIX_EPOCH) else {
        return NO_MOMENT;
    };
    i64::try_from(since.as_secs()).unwrap_or(NO_MOMENT)
}

/// The seconds since 1970; where the clock can't be read, or shows a time before 1970, a reading that is
/// no moment, so that the request is refused ClockOutOfRange.
pub fn reading<C: Clock>(clock: &C) -> i64 {
    match SystemTime::now(clock) {
        Ok(time) => seconds_of(time),
        Err(_) => NO_MOMENT,
    }
}

/// The moment that the clock shows: whole seconds since 1970. None where it can't be read, or shows no moment.
pub fn now<C: Clock>(clock: &C) -> Option<Moment> {
    Moment::from_secs(reading(clock))
}
