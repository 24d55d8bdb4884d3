//! The numbers of the parts of a string, as components.
ghost use Rattle.std.specs.Prelude.{◌≡◌};
ghost use Rattle.cal_string_errors.specs.Shown.{components, date_of, no_date, offset_of, time_of};
ghost use Rattle.cal_iso.specs.DateForm.{signed};
ghost use Rattle.cal_iso.specs.MomentForm.{midnight};

use cal_errors::Components;
use cal_text::rfc3339::{Numbers, TimeOffset};
use cal_text::{DateNumbers, OffsetNumbers, TimeNumbers};

/// Returns the first day of the year 0, for a string without a date.
pub(crate) fn no_date() -> DateNumbers
    ensures { result ≡ no_date }
{
    DateNumbers::Calendar(0, 1, 1)
}

/// Returns midnight, for a string without a time of day.
pub(crate) fn midnight() -> TimeNumbers
    ensures { result ≡ midnight }
{
    TimeNumbers {
        hour: 0,
        minute: 0,
        second: 0,
        nanosecond: 0,
    }
}

/// Returns the components of a date, a time of day and an offset.
pub(crate) fn components(date: DateNumbers, time: TimeNumbers, offset: OffsetNumbers) -> Components
    ensures { result ≡ components date time offset }
{
    let (year, month, day, ordinal, week) = match date {
        DateNumbers::Calendar(year, month, day) => (year, month, day, 1, 1),
        DateNumbers::Ordinal(year, ordinal) => (year, 1, 1, ordinal, 1),
        DateNumbers::Week(year, week, _) => (year, 1, 1, 1, week),
    };
    Components {
        year: i64::from(year),
        month: i64::from(month),
        day: i64::from(day),
        ordinal: i64::from(ordinal),
        week: i64::from(week),
        julian_day: 0,
        hour: i64::from(time.hour),
        minute: i64::from(time.minute),
        second: i64::from(time.second),
        millisecond: 0,
        microsecond: 0,
        nanosecond: 0,
        offset_hour: signed(offset.is_negative, offset.hours),
        offset_minute: signed(offset.is_negative, offset.minutes),
        offset_second: signed(offset.is_negative, offset.seconds),
        seconds: 0,
        timestamp: 0,
    }
}

/// Returns a number with its sign.
fn signed(is_negative: bool, number: u8) -> i64
    ensures { result ≡ signed is_negative number }
{
    let number = i64::from(number);
    if is_negative { -number } else { number }
}

/// Returns the components of the numbers of RFC 3339.
pub(crate) fn rfc3339_components(numbers: Numbers) -> Components
    ensures { result ≡ components (date_of numbers) (time_of numbers) (offset_of numbers.offset) }
{
    let date = DateNumbers::Calendar(i32::from(numbers.year), numbers.month, numbers.day);
    let time = TimeNumbers {
        hour: numbers.hour,
        minute: numbers.minute,
        second: numbers.second,
        nanosecond: numbers.nanosecond,
    };
    components(date, time, offset_of(numbers.offset))
}

/// Returns the numbers of an offset of RFC 3339.
fn offset_of(offset: TimeOffset) -> OffsetNumbers
    ensures { result ≡ offset_of offset }
{
    match offset {
        TimeOffset::Utc => OffsetNumbers::UTC,
        TimeOffset::Signed(is_negative, hours, minutes) => OffsetNumbers {
            is_negative,
            hours,
            minutes,
            seconds: 0,
        },
    }
}
