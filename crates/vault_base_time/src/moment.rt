//! Moments: whole seconds since 1970-01-01T00:00:00Z.
//!
//! ```text
//! let until = Moment::read("2030-01-01T00:00:00Z")?;
//! let later = until.plus_years(7);   // Some: 2037-01-01T00:00:00Z
//! ```
pub mod laws;
mod reading;
mod writing;

use crate::calendar;
use std::alloc::{AllocError, Global};
use std::marker::Model;
use thiserror::Error;

/// The seconds of a day.
pub const DAY: u64 = 86_400;

/// The second 9999-12-31T23:59:59Z.
pub const LAST: u64 = 253_402_300_799;

/// A moment, seen as its number of seconds since 1970-01-01T00:00:00Z,
/// up to 9999-12-31T23:59:59Z.
#[derive(Clone, Copy, PartialEq, Eq, PartialOrd, Ord)]
pub struct Moment {
    seconds: u64,
}

impl Model for Moment {
    ghost use Rattle.std.specs.Prelude.{ℕ, ◌≤◌};
    ghost use Rattle.vault_base_time.specs.Days.{last_moment};

    ghost Value = { ℕ };

    ghost view = { λ m. m.seconds };

    ghost invariant = { λ m. m.seconds ≤ last_moment };

    ghost inverse = { λ n. record { seconds = n } };
}

/// Why a text is no moment.
#[derive(Clone, Copy, Debug, PartialEq, Eq, Error)]
pub enum MomentFault {
    /// It hasn't the form of a moment, or its date isn't in the calendar.
    #[error("the text isn't written as a moment, or its date isn't in the calendar")]
    Form,
    /// It lies before 1970 or after 9999.
    #[error("the moment lies before 1970 or after 9999")]
    Range,
}

impl Moment {
    ghost use Rattle.std.specs.Prelude.{◌≡◌, ◌≤◌, ◌+◌, ◌*◌, IfOk, IfSome, Ok};
    ghost use Rattle.std.specs.String.{string_bytes};
    ghost use Rattle.vault_base_time.specs.Days.{as_moment, day, day_length, last_moment, midnight_from, moment_at, IsFirstMidnightFrom};
    ghost use Rattle.vault_base_time.specs.Calendar.{years_later, IsYearsLater};
    ghost use Rattle.vault_base_time.specs.Grammar.{Reads};
    ghost use Rattle.vault_base_time.specs.Moment.{moment_of, moment_text};

    /// The moment n seconds after 1970-01-01T00:00:00Z, if it is one.
    pub fn from_secs(seconds: i64) -> Option<Moment>
        ensures { result ≡ moment_at seconds }
    {
        match u64::try_from(seconds) {
            Ok(seconds) => Moment::from_count(seconds),
            Err(_) => None,
        }
    }

    /// The same of a number that isn't negative.
    fn from_count(seconds: u64) -> Option<Moment>
        ensures { result ≡ as_moment seconds }
    {
        if seconds > LAST {
            return None;
        }
        Some(Moment { seconds })
    }

    /// The seconds since 1970-01-01T00:00:00Z.
    pub fn secs(self) -> u64
        ensures value { result ≡ self }
        ensures range { result ≤ last_moment }
    {
        self.seconds
    }

    /// The number of its day in UTC, where 1970-01-01 is 0.
    pub fn day(self) -> u64
        ensures { result ≡ day self }
    {
        self.seconds / DAY
    }

    /// Answers the moment that a text names: `YYYY-MM-DDTHH:MM:SS`, a fraction of one to nine
    /// digits or none, and `Z` or an offset from UTC. A fraction that isn't zero counts as a
    /// whole second, so that nothing is kept for less than was asked.
    /// The error is `Form` for any other text, or else `Range` before 1970 and after 9999.
    pub fn read(text: &str) -> Result<Moment, MomentFault>
        ensures value { result ≡ moment_of text.now }
        ensures grammar { Reads text.now result }
    {
        Moment::parse(text)
    }

    /// The moment that a text names.
    #[tactic(auto, unfolding(crate::specs::Moment::moment_of))]
    fn parse(text: &str) -> Result<Moment, MomentFault>
        ensures { result ≡ moment_of text.now }
    {
        let second = reading::second_of(text.as_bytes())?;
        Moment::from_secs(second).ok_or(MomentFault::Range)
    }

    /// Its text in UTC, 20 bytes: `YYYY-MM-DDTHH:MM:SSZ`. Read again it is the same moment.
    #[tactic(auto, using(crate::proofs::ReadBack::moment_reads_back))]
    pub fn text(self, alloc: Global) -> Result<String, AllocError>
        ensures value { IfOk result (λ text. string_bytes text ≡ moment_text self) }
        ensures reads_back { moment_of (moment_text self) ≡ Ok self }
    {
        writing::moment_text(alloc, self.seconds)
    }

    /// The moment n days of 86,400 seconds later, if it is one.
    pub fn plus_days(self, days: u64) -> Option<Moment>
        ensures { result ≡ as_moment (self + day_length * days) }
    {
        if days > LAST / DAY {
            return None;
        }
        Moment::from_count(self.seconds + DAY * days)
    }

    /// The same time of the same month and day n years later, 29 February cut to the 28th,
    /// if it is a moment.
    pub fn plus_years(self, years: u16) -> Option<Moment>
        ensures value { result ≡ as_moment (years_later years self) }
        ensures date { IfSome result (IsYearsLater years self) }
    {
        let day = calendar::day_years_later((self.seconds / DAY) as u32, years)?;
        Some(Moment {
            seconds: DAY * u64::from(day) + self.seconds % DAY,
        })
    }

    /// The first midnight in UTC that isn't before it, if that is a moment
    /// (Amazon S3 User Guide, "Lifecycle configuration elements": the time is rounded to the next
    /// day midnight UTC; an exact midnight stays).
    pub fn ceil_day(self) -> Option<Moment>
        ensures value { result ≡ as_moment (midnight_from self) }
        ensures first { IsFirstMidnightFrom self (midnight_from self) }
    {
        Moment::from_count(self.seconds.next_multiple_of(DAY))
    }
}
