//! Checked values from the numbers that C passes.
ghost use Rattle.std.specs.Prelude.{◌≡◌, ℕ, ℤ, ◌+◌, ◌<◌, ◌≤◌, SomeIff, MatchOption, min, unsigned_abs};
ghost use Rattle.cal_time.specs.Date.{IsDayOfMonth, IsOrdinal};
ghost use Rattle.cal_time.specs.IsoWeekDate.{IsWeek};
ghost use Rattle.cal_time.specs.Month.{number};
ghost use Rattle.cal_time.specs.Time.{IsTime, carry};
ghost use Rattle.cal_time.specs.UtcOffset.{IsOffset};
ghost use Rattle.cal_time.specs.Weekday.{index};
ghost use Rattle.cal_c.specs.Values.{IsJulianDay, IsMonth, IsWeekday, IsDurationPair, day_of, nanoseconds_in};

use crate::results::Duration;
use cal_time::util::{DateAdjustment, weeks_in_year};
use cal_time::{Date, Month, SignedDuration, Time, UtcOffset, Weekday};

const NANOSECONDS_PER_SECOND: u32 = 1_000_000_000;

const NANOSECONDS_PER_DAY: u64 = 86_400_000_000_000;

/// Returns the date with a Julian day, or `None` if it is out of range.
pub fn valid_date(julian_day: i32) -> Option<Date>
    ensures { SomeIff result (IsJulianDay julian_day) (day_of julian_day) }
{
    match Date::from_julian_day(julian_day) {
        Ok(date) => Some(date),
        Err(_) => None,
    }
}

/// Returns the month with a number, from 1 for January, or `None`.
pub fn valid_month(month: u32) -> Option<Month>
    ensures { MatchOption result (¬ IsMonth month)
        (λ found. IsMonth month × (number found ≡ month)) }
{
    Month::try_from(saturating_u8(month)).ok()
}

/// Returns the weekday with a number, from 1 for Monday, or `None`.
pub fn valid_weekday(weekday: u32) -> Option<Weekday>
    ensures { MatchOption result (¬ IsWeekday weekday)
        (λ found. IsWeekday weekday × (index found + 1 ≡ weekday)) }
{
    match weekday {
        1 => Some(Weekday::Monday),
        2 => Some(Weekday::Tuesday),
        3 => Some(Weekday::Wednesday),
        4 => Some(Weekday::Thursday),
        5 => Some(Weekday::Friday),
        6 => Some(Weekday::Saturday),
        7 => Some(Weekday::Sunday),
        _ => None,
    }
}

/// Returns the day of the month as a byte. An invalid day becomes one that no month has.
#[tactic(auto, using(crate::proofs::Days::days_in_month_most))]
pub fn day_or_invalid(day: u32) -> u8
    ensures value { (y : ℤ) (m : ℕ) → IsDayOfMonth y m day → result ≡ day }
    ensures invalid { (y : ℤ) (m : ℕ) → ¬ IsDayOfMonth y m day → ¬ IsDayOfMonth y m result }
{
    saturating_u8(day)
}

/// Returns the ordinal in 16 bits. An invalid ordinal becomes one that no year has.
pub fn ordinal_or_invalid(ordinal: u32) -> u16
    ensures value { (y : ℤ) → IsOrdinal y ordinal → result ≡ ordinal }
    ensures invalid { (y : ℤ) → ¬ IsOrdinal y ordinal → ¬ IsOrdinal y result }
{
    saturating_u16(ordinal)
}

/// Clamps a number to 8 bits. No component has the maximum, 255.
pub fn saturating_u8(number: u32) -> u8
    ensures { result ≡ min number 255 }
{
    number.min(255) as u8
}

/// Clamps a number to 16 bits.
pub fn saturating_u16(number: u32) -> u16
    ensures { result ≡ min number 65535 }
{
    number.min(65535) as u16
}

/// Returns the week, or 0 if the year doesn't have it.
pub fn week_or_invalid(year: i32, week: u32) -> u8
    ensures value { IsWeek year week → result ≡ week }
    ensures invalid { ¬ IsWeek year week → ¬ IsWeek year result }
{
    if week <= 52 || week <= u32::from(weeks_in_year(year)) {
        week as u8
    } else {
        0
    }
}

/// Returns the date with a Julian day, or `None` if it is out of range.
pub fn valid_date_i64(julian_day: i64) -> Option<Date>
    ensures { SomeIff result (IsJulianDay julian_day) (day_of julian_day) }
{
    valid_date(i32::try_from(julian_day).ok()?)
}

/// Returns the duration of seconds and nanoseconds, or `None` if they are invalid.
pub fn valid_duration(duration: Duration) -> Option<SignedDuration>
    ensures { SomeIff result (IsDurationPair duration) (nanoseconds_in duration) }
{
    let Duration {
        seconds,
        nanoseconds,
        ..
    } = duration;
    if nanoseconds.unsigned_abs() >= NANOSECONDS_PER_SECOND {
        return None;
    }
    if seconds > 0 && nanoseconds < 0 {
        return None;
    }
    if seconds < 0 && nanoseconds > 0 {
        return None;
    }
    Some(SignedDuration::new(seconds, nanoseconds))
}

/// Returns the time with nanoseconds since midnight, or `None` if it is a day or more.
pub fn valid_time(nanoseconds: u64) -> Option<Time>
    ensures { SomeIff result (IsTime nanoseconds) nanoseconds }
{
    if nanoseconds >= NANOSECONDS_PER_DAY {
        return None;
    }
    let since_midnight = SignedDuration::nanoseconds(nanoseconds as i64);
    let (_, time) = Time::MIDNIGHT.adjusting_add(since_midnight);
    Some(time)
}

/// Returns the nanoseconds since midnight, or `None` if they are a day or more.
pub fn time_number(nanoseconds: u64) -> Option<u64>
    ensures { SomeIff result (IsTime nanoseconds) nanoseconds }
{
    if nanoseconds < NANOSECONDS_PER_DAY {
        Some(nanoseconds)
    } else {
        None
    }
}

/// Returns the nanoseconds since midnight of a time.
pub fn nanoseconds_since_midnight(time: Time) -> u64
    ensures { result ≡ time }
{
    (time - Time::MIDNIGHT).whole_nanoseconds() as u64
}

/// Returns the days of an adjustment: -1, 0 or 1.
pub fn days_of(adjustment: DateAdjustment) -> i32
    ensures value { result ≡ carry adjustment }
    ensures range { unsigned_abs result ≤ 1 }
{
    match adjustment {
        DateAdjustment::Previous => -1,
        DateAdjustment::None => 0,
        DateAdjustment::Next => 1,
    }
}

/// Returns the offset of seconds, or `None` if it is out of range.
pub fn valid_offset(seconds: i32) -> Option<UtcOffset>
    ensures { SomeIff result (IsOffset seconds) seconds }
{
    UtcOffset::from_whole_seconds(seconds).ok()
}

/// Clamps a number to 8 bits with a sign. No component of an offset is at either end.
pub fn saturating_i8(number: i32) -> i8
    ensures value { unsigned_abs number ≤ 127 → result ≡ number }
    ensures saturated { (n : ℕ) → n < 127 → n < unsigned_abs number → n < unsigned_abs result }
{
    i8::try_from(number).unwrap_or(i8::MAX)
}
