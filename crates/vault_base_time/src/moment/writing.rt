//! Writes the text of a moment.
ghost use Rattle.std.specs.Prelude.{◌≡◌, ◌≤◌, ◌<◌, ◌++◌, [], ◌∷◌, IfOk, OnOk};
ghost use Rattle.std.specs.String.{string_bytes};
ghost use Rattle.vault_base_time.specs.Days.{day_length, last_moment};
ghost use Rattle.vault_base_time.specs.Moment as spec;

use crate::calendar::Date;
use crate::moment::DAY;
use std::alloc::{AllocError, Global};

/// Appends the two digits of a number.
fn push_pair(out: &mut String, n: u8) -> Result<(), AllocError>
    requires { n < 100 }
    ensures { OnOk result (string_bytes out.new ≡ string_bytes out.old ++ spec.two_digits n) }
{
    out.push((b'0' + n / 10) as char)?;
    out.push((b'0' + n % 10) as char)
}

/// Appends an ASCII character.
fn push_mark(out: &mut String, mark: u8) -> Result<(), AllocError>
    requires { mark < 128 }
    ensures { OnOk result (string_bytes out.new ≡ string_bytes out.old ++ mark ∷ []) }
{
    out.push(mark as char)
}

/// The text of a date and the seconds of its day.
#[tactic(auto, unfolding(crate::specs::Moment::clock_text))]
fn clock_text(
    alloc: Global,
    year: u16,
    month: u8,
    day: u8,
    seconds: u32,
) -> Result<String, AllocError>
    requires year_in { year < 10000 }
    requires month_in { month < 100 }
    requires day_in { day < 100 }
    requires seconds_in { seconds < day_length }
    ensures { IfOk result (λ text. string_bytes text ≡ spec.clock_text year month day seconds) }
{
    let mut out = String::new(alloc);
    push_pair(&mut out, (year / 100) as u8)?;
    push_pair(&mut out, (year % 100) as u8)?;
    push_mark(&mut out, b'-')?;
    push_pair(&mut out, month)?;
    push_mark(&mut out, b'-')?;
    push_pair(&mut out, day)?;
    push_mark(&mut out, b'T')?;
    push_pair(&mut out, (seconds / 3600) as u8)?;
    push_mark(&mut out, b':')?;
    push_pair(&mut out, (seconds / 60 % 60) as u8)?;
    push_mark(&mut out, b':')?;
    push_pair(&mut out, (seconds % 60) as u8)?;
    push_mark(&mut out, b'Z')?;
    Ok(out)
}

/// The text of a moment.
#[tactic(auto, unfolding(crate::specs::Moment::moment_text))]
pub fn moment_text(alloc: Global, seconds: u64) -> Result<String, AllocError>
    requires { seconds ≤ last_moment }
    ensures { IfOk result (λ text. string_bytes text ≡ spec.moment_text seconds) }
{
    let date = Date::of_day((seconds / DAY) as u32);
    clock_text(
        alloc,
        date.year,
        date.month,
        date.day,
        (seconds % DAY) as u32,
    )
}
