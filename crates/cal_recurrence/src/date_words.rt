//! The words of dates and times of day.
ghost use Rattle.std.specs.Prelude.{◌≡◌, option_and_then};
ghost use Rattle.cal_recurrence.specs.DateWords.{date_or_time_of, day_with, time_with, with_time, with_zone};
ghost use Rattle.cal_recurrence.specs.Words.{number_of};

use crate::date_or_time::DateOrTime;
use crate::words::{is_alike, number_of, split};
use cal_datetime::PlainDateTime;
use cal_time::{Date, Month, Time};

/// Returns the date whose eight digits these are, or `None` if it doesn't exist.
fn day_with(number: u32) -> Option<Date>
    ensures { result ≡ day_with number }
{
    let Ok(month) = Month::try_from((number / 100 % 100) as u8) else {
        return None;
    };
    Date::from_calendar_date((number / 10_000) as i32, month, (number % 100) as u8).ok()
}

/// Returns the time of day whose six digits these are, or `None` if it doesn't exist. A leap
/// second, 60, gives the second 59.
fn time_with(number: u32) -> Option<Time>
    ensures { result ≡ time_with number }
{
    let (hour, minute, second) = (number / 10_000, number / 100 % 100, number % 100);
    if hour > 23 || minute > 59 || second > 60 {
        return None;
    }
    Time::from_hms(hour as u8, minute as u8, second.min(59) as u8).ok()
}

/// Returns the reading without a zone for an empty word, or at UTC for `Z`.
fn with_zone(zone: &[u8], reading: PlainDateTime) -> Option<DateOrTime>
    ensures { result ≡ with_zone zone.now reading }
{
    if zone.is_empty() {
        Some(DateOrTime::Local(reading))
    } else if is_alike(zone, b"Z") {
        Some(DateOrTime::Utc(reading))
    } else {
        None
    }
}

/// Returns the date for an empty word, or the date with a time of day such as `T235959` or
/// `T235959Z`.
fn with_time(time: &[u8], date: Date) -> Option<DateOrTime>
    ensures { result ≡ with_time time.now date }
{
    if time.is_empty() {
        return Some(DateOrTime::Date(date));
    }
    if time.len() < 7 {
        return None;
    }
    let (mark, rest) = split(time, 1);
    let (clock, zone) = split(rest, 6);
    if !is_alike(mark, b"T") {
        return None;
    }
    let time = time_with(number_of(clock)?)?;
    with_zone(zone, PlainDateTime::new(date, time))
}

/// Parses a date such as `20241231`, or a date and time such as `20241231T235959Z`. Returns `None`
/// if the word is neither.
pub fn date_or_time_of(word: &[u8]) -> Option<DateOrTime>
    ensures { result ≡ date_or_time_of word.now }
{
    if word.len() < 8 {
        return None;
    }
    let (day, time) = split(word, 8);
    let date = day_with(number_of(day)?)?;
    with_time(time, date)
}
