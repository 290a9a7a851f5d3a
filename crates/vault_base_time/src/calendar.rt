//! Days and their dates, in the proleptic Gregorian calendar from 1970 to 9999.
ghost use Rattle.std.specs.Prelude.{◌≡◌, ◌≤◌, pos};
ghost use Rattle.jiff_core.specs.Date.{epoch_day};
ghost use Rattle.vault_base_time.specs.Calendar as spec;
ghost use Rattle.vault_base_time.specs.Days.{as_day, last_day};

use jiff::{ToSpan, civil};

/// The year of the last moment.
const LAST_YEAR: u32 = 9999;

/// A date.
#[derive(Clone, Copy)]
pub struct Date {
    pub year: u16,
    pub month: u8,
    pub day: u8,
}

/// The date of a day.
fn date_of(day: u32) -> civil::Date
    requires { day ≤ last_day }
    ensures { epoch_day result ≡ pos day }
{
    let plain = jiff_core::civil::Date::from_unix_epoch_day(i64::from(day));
    civil::Date::from_plain(plain.unwrap())
}

impl Date {
    ghost use Rattle.std.specs.Prelude.{◌≡◌, ◌≤◌, ◌+◌, ◌≤ℤ◌, nat_le, if◌then◌else◌, pos, Some, None, IfSome};
    ghost use Rattle.jiff_core.specs.Date.{IsYmd};
    ghost use Rattle.vault_base_time.specs.Calendar as spec;
    ghost use Rattle.vault_base_time.specs.Days.{last_day};

    /// The date of a day, counted from 0 for 1970-01-01.
    pub fn of_day(day: u32) -> Date
        requires { day ≤ last_day }
        ensures value { result ≡ spec.date_of day }
        ensures date { spec.IsDate result }
    {
        Date::of_civil(date_of(day))
    }

    /// The same of a date of `jiff`.
    fn of_civil(date: civil::Date) -> Date
        requires { pos spec.first_year ≤ℤ date.year }
        ensures year { pos result.year ≡ date.year }
        ensures month { result.month ≡ date.month }
        ensures day { result.day ≡ date.day }
    {
        Date {
            year: date.year() as u16,
            month: date.month() as u8,
            day: date.day() as u8,
        }
    }

    /// The date of `jiff` that is the same.
    fn to_civil(self) -> civil::Date
        requires { spec.IsDate self }
        ensures { IsYmd (pos self.year) (pos self.month) (pos self.day) result }
    {
        civil::date(self.year as i16, self.month as i8, self.day as i8)
    }

    /// Its day, counted from 0 for 1970-01-01.
    pub fn day_number(self) -> u32
        requires { spec.IsDate self }
        ensures value { result ≡ spec.day_of_date self }
        ensures range { result ≤ last_day }
    {
        self.to_civil().to_plain().to_unix_epoch_day() as u32
    }

    /// The same month and day n years later, 29 February cut to the 28th; none after 9999.
    pub fn plus_years(self, years: u16) -> Option<Date>
        requires { spec.IsDate self }
        ensures value { result ≡ (if nat_le (self.year + years) spec.last_year then Some (spec.date_years_later years self) else None) }
        ensures date { IfSome result spec.IsDate }
    {
        let year = u32::from(self.year) + u32::from(years);
        if year > LAST_YEAR {
            return None;
        }
        let later = self.to_civil().checked_add(i64::from(years).years());
        Some(Date::of_civil(later.unwrap()))
    }
}

/// The same month and day n years later, 29 February cut to the 28th; none after 9999.
/// Days are counted from 0 for 1970-01-01.
pub fn day_years_later(day: u32, years: u16) -> Option<u32>
    requires { day ≤ last_day }
    ensures { result ≡ as_day (spec.day_of_date (spec.date_years_later years (spec.date_of day))) }
{
    let later = Date::of_day(day).plus_years(years)?;
    Some(later.day_number())
}
