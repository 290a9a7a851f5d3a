//! Reads the second that the text of a moment names.
ghost use Rattle.std.specs.Prelude.{◌≡◌, ◌≤◌, ◌<◌, ◌+◌, IfOk, OnOk, length};
ghost use Rattle.jiff_core.specs.Calendar.{IsEpochDay};
ghost use Rattle.vault_base_time.specs.Days.{day_length};
ghost use Rattle.vault_base_time.specs.Moment as spec;

use crate::moment::{DAY, MomentFault};
use jiff::civil::Date;

fn is_digit(byte: u8) -> bool
    ensures { result ≡ spec.is_digit byte }
{
    byte >= b'0' && byte <= b'9'
}

/// The number that two digits at that place are.
#[tactic(auto, unfolding(crate::specs::Moment::pair_at))]
fn pair_at(text: &[u8], at: usize) -> Result<u8, MomentFault>
    requires { at < 100 }
    ensures value { result ≡ spec.pair_at text.now at }
    ensures bound { IfOk result (λ n. n < 100) }
    ensures inside { OnOk result (at + 1 < length text.now) }
{
    let (Some(tens), Some(ones)) = (text.get(at), text.get(at + 1)) else {
        return Err(MomentFault::Form);
    };
    if is_digit(*tens) && is_digit(*ones) {
        Ok(10 * (*tens - b'0') + (*ones - b'0'))
    } else {
        Err(MomentFault::Form)
    }
}

/// The same, if it is at most that.
#[tactic(auto, unfolding(crate::specs::Moment::pair_upto))]
fn pair_upto(text: &[u8], at: usize, most: u8) -> Result<u8, MomentFault>
    requires { at < 100 }
    ensures value { result ≡ spec.pair_upto text.now at most }
    ensures bound { IfOk result (λ n. n ≤ most) }
    ensures inside { OnOk result (at + 1 < length text.now) }
{
    let n = pair_at(text, at)?;
    if n <= most {
        Ok(n)
    } else {
        Err(MomentFault::Form)
    }
}

/// That byte stands at that place.
#[tactic(auto, unfolding(crate::specs::Moment::mark_at))]
fn mark_at(text: &[u8], at: usize, byte: u8) -> Result<(), MomentFault>
    requires { 0 < byte }
    ensures { result ≡ spec.mark_at text.now at byte }
{
    match text.get(at) {
        Some(b) if *b == byte => Ok(()),
        _ => Err(MomentFault::Form),
    }
}

/// The day number of a date, if the calendar has it.
#[tactic(auto, unfolding(crate::specs::Moment::day_number))]
fn day_number(year: u16, month: u8, day: u8) -> Result<i32, MomentFault>
    requires year_in { year < 10000 }
    requires month_in { month < 100 }
    requires day_in { day < 100 }
    ensures value { result ≡ spec.day_number year month day }
    ensures bound { IfOk result IsEpochDay }
{
    match Date::new(year as i16, month as i8, day as i8) {
        Ok(date) => Ok(date.to_plain().to_unix_epoch_day()),
        Err(_) => Err(MomentFault::Form),
    }
}

/// The day number of the date in front.
#[tactic(auto, unfolding(crate::specs::Moment::day_of))]
fn day_of(text: &[u8]) -> Result<i32, MomentFault>
    ensures value { result ≡ spec.day_of text.now }
    ensures bound { IfOk result IsEpochDay }
{
    let century = pair_at(text, 0)?;
    let year = pair_at(text, 2)?;
    mark_at(text, 4, b'-')?;
    let month = pair_at(text, 5)?;
    mark_at(text, 7, b'-')?;
    let day = pair_at(text, 8)?;
    day_number(100 * u16::from(century) + u16::from(year), month, day)
}

/// The seconds of the day, after the date.
#[tactic(auto, unfolding(crate::specs::Moment::seconds_of))]
fn seconds_of(text: &[u8]) -> Result<u32, MomentFault>
    ensures value { result ≡ spec.seconds_of text.now }
    ensures bound { IfOk result (λ n. n < day_length) }
    ensures inside { OnOk result (19 ≤ length text.now) }
{
    mark_at(text, 10, b'T')?;
    let hours = pair_upto(text, 11, 23)?;
    mark_at(text, 13, b':')?;
    let minutes = pair_upto(text, 14, 59)?;
    mark_at(text, 16, b':')?;
    let seconds = pair_upto(text, 17, 59)?;
    Ok(3600 * u32::from(hours) + 60 * u32::from(minutes) + u32::from(seconds))
}

/// How many digits stand in front.
fn digits_in_front(text: &[u8]) -> usize
    ensures value { result ≡ spec.digits_in_front text.now }
    ensures bound { result ≤ length text.now }
{
    text.iter().take_while(|b| is_digit(**b)).count()
}

fn has_other_than_zero(digits: &[u8]) -> bool
    ensures { result ≡ spec.has_other_than_zero digits.now }
{
    digits.iter().any(|b| *b != b'0')
}

/// Whether there is a fraction that isn't zero, and how many bytes it takes.
#[tactic(auto, unfolding(crate::specs::Moment::fraction_of))]
fn fraction_of(text: &[u8]) -> Result<(bool, usize), MomentFault>
    ensures value { result ≡ spec.fraction_of text.now }
    ensures bound { IfOk result (λ f. f.1 ≤ length text.now) }
{
    if text.is_empty() || text[0] != b'.' {
        return Ok((false, 0));
    }
    let rest = &text[1..];
    let n = digits_in_front(rest);
    if n < 1 || n > 9 {
        return Err(MomentFault::Form);
    }
    Ok((has_other_than_zero(&rest[..n]), n + 1))
}

/// Whether the clock is west of UTC, and how many seconds it is off.
#[tactic(auto, unfolding(crate::specs::Moment::offset_of))]
fn offset_of(text: &[u8]) -> Result<(bool, u32), MomentFault>
    ensures value { result ≡ spec.offset_of text.now }
    ensures bound { IfOk result (λ f. f.1 < day_length) }
{
    if text.len() == 1 && text[0] == b'Z' {
        return Ok((false, 0));
    }
    if text.len() == 6 && (text[0] == b'+' || text[0] == b'-') && text[3] == b':' {
        let hours = pair_upto(text, 1, 23)?;
        let minutes = pair_upto(text, 4, 59)?;
        Ok((
            text[0] == b'-',
            3600 * u32::from(hours) + 60 * u32::from(minutes),
        ))
    } else {
        Err(MomentFault::Form)
    }
}

fn raised(seconds: u32, up: bool) -> u32
    requires { seconds < day_length }
    ensures { result ≡ spec.raised seconds up }
{
    if up { seconds + 1 } else { seconds }
}

/// The second in UTC, where a clock that is so far off shows that one.
fn second_at(day: i32, seconds: u32, west: bool, offset: u32) -> i64
    requires day_in { IsEpochDay day }
    requires seconds_in { seconds ≤ day_length }
    requires offset_in { offset < day_length }
    ensures { result ≡ spec.second_at day seconds west offset }
{
    let day = i64::from(day) * DAY as i64;
    let seconds = i64::from(seconds);
    let offset = i64::from(offset);
    if west {
        day + (seconds + offset)
    } else {
        day + (seconds - offset)
    }
}

/// The second that a text names, a fraction raised to the next.
#[tactic(auto, unfolding(crate::specs::Moment::second_of))]
pub fn second_of(text: &[u8]) -> Result<i64, MomentFault>
    ensures value { result ≡ spec.second_of text.now }
{
    let day = day_of(text)?;
    let seconds = seconds_of(text)?;
    let (up, taken) = fraction_of(&text[19..])?;
    let (west, offset) = offset_of(&text[19 + taken..])?;
    Ok(second_at(day, raised(seconds, up), west, offset))
}
