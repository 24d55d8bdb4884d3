//! The word of a day in each year.
ghost use Rattle.std.specs.Prelude.{◌≡◌, ◌<◌, ◌≤◌, length, option_map};
ghost use Rattle.cal_holiday_text.specs.Days.{after_name, dated_day_of, day_in_month_of, day_of, days_from_easter_of, days_of, month_day_of, nth_of, on_or_after_of, other_day_of};

use cal_holidays::HolidayDay;
use cal_recurrence::{cut, is_alike, month_of, short_count_of, split, weekday_of};
use cal_time::Month;

/// Parses a number of days from 1 to 99 with its sign, such as `+1`.
pub(crate) fn days_of(word: &[u8]) -> Option<i8>
    ensures { result ≡ days_of word.now }
{
    match word {
        [b'-', digits @ ..] => Some(-(short_count_of(digits, 2, 99)? as i8)),
        [b'+', digits @ ..] => Some(short_count_of(digits, 2, 99)? as i8),
        _ => None,
    }
}

/// Parses the days from Easter, such as `-2`, or nothing for Easter itself.
fn days_from_easter_of(word: &[u8]) -> Option<i8>
    ensures { result ≡ days_from_easter_of word.now }
{
    if word.is_empty() {
        return Some(0);
    }
    days_of(word)
}

/// Returns the bytes after a name, or `None` if the word doesn't begin with it, in any case.
fn after_name<'a>(word: &'a [u8], name: &[u8]) -> Option<&'a [u8]>
    ensures { option_map (λ rest. rest.now) result ≡ after_name name.now word.now }
{
    if word.len() < name.len() {
        return None;
    }
    let (front, rest) = split(word, name.len());
    if is_alike(front, name) {
        Some(rest)
    } else {
        None
    }
}

/// Parses a day of a month, such as `25`, which the month has in the year.
fn month_day_of(year: i32, month: Month, word: &[u8]) -> Option<u8>
    ensures { result ≡ month_day_of year month word.now }
{
    let day = short_count_of(word, 2, 31)? as u8;
    if day > month.length(year) {
        return None;
    }
    Some(day)
}

/// Parses the n-th weekday of a month, such as `4TH`.
fn nth_of(month: Month, word: &[u8]) -> Option<HolidayDay>
    requires { 1 ≤ length word.now }
    ensures { result ≡ nth_of month word.now }
{
    let (n, weekday) = split(word, 1);
    let n = short_count_of(n, 1, 5)? as u8;
    Some(HolidayDay::Nth(month, weekday_of(weekday)?, n))
}

/// Parses a weekday on or after a day of a month, such as `WE>=16`.
fn on_or_after_of(year: i32, month: Month, word: &[u8]) -> Option<HolidayDay>
    requires { 4 ≤ length word.now }
    ensures { result ≡ on_or_after_of year month word.now }
{
    let (weekday, rest) = split(word, 2);
    let (sign, day) = split(rest, 2);
    if !is_alike(sign, b">=") {
        return None;
    }
    let weekday = weekday_of(weekday)?;
    Some(HolidayDay::OnOrAfter(month, month_day_of(year, month, day)?, weekday))
}

/// Parses a day of a month that isn't the last weekday.
#[tactic(auto, unfolding(crate::specs::Days::other_day_of))]
fn other_day_of(year: i32, month: Month, word: &[u8]) -> Option<HolidayDay>
    ensures { result ≡ other_day_of year month word.now }
{
    if word.len() > 3 {
        return on_or_after_of(year, month, word);
    }
    if word.len() == 3 {
        return nth_of(month, word);
    }
    Some(HolidayDay::Fixed(month, month_day_of(year, month, word)?))
}

/// Parses a day of a month, such as `lastMO`.
#[tactic(auto, unfolding(crate::specs::Days::day_in_month_of))]
fn day_in_month_of(year: i32, month: Month, word: &[u8]) -> Option<HolidayDay>
    ensures { result ≡ day_in_month_of year month word.now }
{
    match after_name(word, b"last") {
        Some(weekday) => Some(HolidayDay::Last(month, weekday_of(weekday)?)),
        None => other_day_of(year, month, word),
    }
}

/// Parses a month and a day of it, such as `05-lastMO`.
#[tactic(auto, unfolding(crate::specs::Days::dated_day_of))]
fn dated_day_of(year: i32, word: &[u8]) -> Option<HolidayDay>
    ensures { result ≡ dated_day_of year word.now }
{
    let (month, day) = cut(word, b'-');
    day_in_month_of(year, month_of(month)?, day.unwrap_or(b"".as_slice()))
}

/// Parses a day in each year, such as `12-25` or `easter-2`. The year is one that has each day.
#[tactic(auto, unfolding(crate::specs::Days::day_of))]
pub(crate) fn day_of(year: i32, word: &[u8]) -> Option<HolidayDay>
    ensures { result ≡ day_of year word.now }
{
    if let Some(days) = after_name(word, b"easter") {
        return Some(HolidayDay::Easter(days_from_easter_of(days)?));
    }
    match after_name(word, b"julian-easter") {
        Some(days) => Some(HolidayDay::JulianEaster(days_from_easter_of(days)?)),
        None => dated_day_of(year, word),
    }
}
