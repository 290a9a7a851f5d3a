//! Retention: its modes, its periods and a bucket's default.
ghost use Rattle.std.specs.Prelude.{◌≡◌};
ghost use Rattle.vault_base.specs.Days.{as_moment};
ghost use Rattle.vault_lock.specs.Retention.{is_period, end_of, default_retention};

use vault_base::moment::Moment;

/// A retention mode.
#[derive(Clone, Copy, Debug, PartialEq, Eq)]
pub enum Mode {
    /// A caller with the right to bypass it may lift it.
    Governance,
    /// Nobody may lift it.
    Compliance,
}

/// A retention: its mode and the moment from which it isn't in force.
#[derive(Clone, Copy, PartialEq, Eq)]
pub struct Retention {
    pub mode: Mode,
    pub until: Moment,
}

/// A retention period.
#[derive(Clone, Copy, Debug, PartialEq, Eq)]
pub enum Period {
    /// Days of 86,400 seconds.
    Days(u32),
    /// Years of the calendar.
    Years(u16),
}

impl Period {
    /// Whether it is 1 to 36,500 days or 1 to 100 years, as a bucket's default may have.
    pub fn is_in_range(self) -> bool
        ensures { result ≡ is_period self }
    {
        match self {
            Period::Days(days) => 1 <= days && days <= 36_500,
            Period::Years(years) => 1 <= years && years <= 100,
        }
    }

    /// The moment at which it ends where it begins now, if that is one.
    pub fn end(self, now: Moment) -> Option<Moment>
        ensures { result ≡ as_moment (end_of self now) }
    {
        match self {
            Period::Days(days) => now.plus_days(u64::from(days)),
            Period::Years(years) => now.plus_years(years),
        }
    }
}

/// A bucket's default retention.
#[derive(Clone, Copy, Debug, PartialEq, Eq)]
pub struct Default {
    pub mode: Mode,
    pub period: Period,
}

impl Default {
    /// The retention that it gives a version placed now, if its end is a moment.
    pub fn retention(&self, now: Moment) -> Option<Retention>
        ensures { result ≡ default_retention self.now now }
    {
        let until = self.period.end(now)?;
        Some(Retention {
            mode: self.mode,
            until,
        })
    }
}
