//! The statuses. The header has them as an enum. The statuses from `YEAR_OUT_OF_RANGE` to
//! `TIMESTAMP_OUT_OF_RANGE`, and from `DAY_OUT_OF_RANGE` to `WEEKDAY_OUT_OF_RANGE`, name a
//! component that is out of range, as do those of the parts of a duration, from
//! `YEARS_OUT_OF_RANGE` on.
ghost use Rattle.std.specs.Prelude.{◌≡◌};
ghost use Rattle.cal_c.specs.Statuses.{component_status};

use cal_time::error::{Component, ComponentRange};

/// The call returns a value.
pub const OK: i32 = 0;

/// The exact result is out of range, or doesn't exist.
pub const RESULT_OUT_OF_RANGE: i32 = 1;

/// The date is not a Julian day from -363521074 to 366963559.
pub const INVALID_DATE: i32 = 2;

/// The time of day is not from 0 to 86399999999999 nanoseconds since midnight.
pub const INVALID_TIME: i32 = 3;

/// The offset is not from -93599 to 93599 seconds.
pub const INVALID_OFFSET: i32 = 4;

/// The nanoseconds of the duration are not from -999999999 to 999999999, or their sign is not the
/// sign of the seconds.
pub const INVALID_DURATION: i32 = 5;

/// The weekday is not from 1, Monday, to 7, Sunday.
pub const INVALID_WEEKDAY: i32 = 6;

/// The count is above 255.
pub const INVALID_COUNT: i32 = 7;

/// A byte of the string is wrong: no string of the form has it there.
pub const UNEXPECTED_BYTE: i32 = 8;

/// The date, the time of day or the offset of the moment is invalid.
pub const INVALID_MOMENT: i32 = 9;

/// The frequency is not from 1, daily, to 4, yearly.
pub const INVALID_FREQUENCY: i32 = 10;

/// A list of the rule has more than 62 values.
pub const TOO_MANY_PARTS: i32 = 11;

/// The convention is not from 0 to 4, or for a day count from 1 to 5.
pub const INVALID_CONVENTION: i32 = 12;

/// The weekmask is above 127: it has more marks than the seven of a week.
pub const INVALID_WEEKMASK: i32 = 13;

/// The holidays are not in ascending order, or one is not a date.
pub const INVALID_HOLIDAYS: i32 = 14;

/// There are more than 1024 holidays.
pub const TOO_MANY_HOLIDAYS: i32 = 15;

pub const YEAR_OUT_OF_RANGE: i32 = 16;

pub const MONTH_OUT_OF_RANGE: i32 = 17;

pub const JULIAN_DAY_OUT_OF_RANGE: i32 = 18;

pub const HOUR_OUT_OF_RANGE: i32 = 19;

pub const MINUTE_OUT_OF_RANGE: i32 = 20;

pub const SECOND_OUT_OF_RANGE: i32 = 21;

pub const MILLISECOND_OUT_OF_RANGE: i32 = 22;

pub const MICROSECOND_OUT_OF_RANGE: i32 = 23;

pub const NANOSECOND_OUT_OF_RANGE: i32 = 24;

pub const OFFSET_HOUR_OUT_OF_RANGE: i32 = 25;

pub const OFFSET_MINUTE_OUT_OF_RANGE: i32 = 26;

pub const OFFSET_SECOND_OUT_OF_RANGE: i32 = 27;

pub const SECONDS_OUT_OF_RANGE: i32 = 28;

pub const TIMESTAMP_OUT_OF_RANGE: i32 = 29;

/// The bounds of a string are not within the bytes, in order.
pub const INVALID_BOUNDS: i32 = 30;

/// The string ends too early: more bytes could complete it.
pub const UNEXPECTED_END: i32 = 31;

/// A part of the recurrence has an unknown name.
pub const UNKNOWN_PART: i32 = 32;

/// A part of the recurrence is a duplicate.
pub const DUPLICATE_PART: i32 = 33;

/// A part of the recurrence has more than 62 values.
pub const TOO_MANY_VALUES: i32 = 34;

/// A part of the recurrence has an invalid value.
pub const INVALID_VALUE: i32 = 35;

/// The recurrence has no frequency.
pub const MISSING_FREQUENCY: i32 = 36;

/// The numbers are not a format.
pub const INVALID_FORMAT: i32 = 37;

/// No item of a format begins at the position.
pub const UNKNOWN_ITEM: i32 = 38;

/// The format has more than 64 items.
pub const TOO_MANY_ITEMS: i32 = 39;

/// An item of the format shows something that the value doesn't have.
pub const UNSUPPORTED_ITEM: i32 = 40;

/// The strings of the format don't determine a value, or show more than one.
pub const INSUFFICIENT_FORMAT: i32 = 41;

/// The buffer has no room for the string.
pub const BUFFER_TOO_SHORT: i32 = 42;

/// A component of a string isn't the component of the value that the others determine.
pub const CONTRADICTION: i32 = 43;

/// A list of dates of a rule has more than 1024 dates.
pub const TOO_MANY_DATES: i32 = 44;

/// The struct is not a zone: it has other numbers than a call makes.
pub const INVALID_ZONE: i32 = 45;

/// The policy is not from 0, `Compatible`, to 3, `Reject`.
pub const INVALID_POLICY: i32 = 46;

/// The clocks of the zone skip the reading.
pub const SKIPPED_TIME: i32 = 47;

/// The clocks of the zone show the reading twice.
pub const REPEATED_TIME: i32 = 48;

/// The file doesn't begin with `TZif`.
pub const NOT_A_ZONE_FILE: i32 = 49;

/// The version of the file isn't 2, 3 or 4.
pub const UNSUPPORTED_VERSION: i32 = 50;

/// The file has leap seconds.
pub const LEAP_SECONDS: i32 = 51;

/// The file has no local time type.
pub const MISSING_LOCAL_TYPE: i32 = 52;

/// A change has the index of a local time type that doesn't exist.
pub const INVALID_TYPE_INDEX: i32 = 53;

/// The offset or the daylight flag of a local time type is out of range.
pub const INVALID_LOCAL_TYPE: i32 = 54;

/// An abbreviation is invalid.
pub const INVALID_ABBREVIATION: i32 = 55;

/// The changes don't rise, or one is out of range.
pub const CHANGES_OUT_OF_ORDER: i32 = 56;

/// The gaps or folds of two changes overlap.
pub const OVERLAPPING_CHANGES: i32 = 57;

/// A newline before or after the footer is missing.
pub const MISSING_NEWLINE: i32 = 58;

/// A POSIX text has no offset of at most 24 hours.
pub const INVALID_POSIX_OFFSET: i32 = 59;

/// A POSIX text has no day of a change, such as `M3.5.0`.
pub const INVALID_RULE_DAY: i32 = 60;

/// A POSIX text has no time of a change of at most 167 hours.
pub const INVALID_RULE_TIME: i32 = 61;

/// The months of a POSIX text are the same or neighbours.
pub const MONTHS_TOO_CLOSE: i32 = 62;

/// A POSIX text has bytes after its end.
pub const TRAILING_BYTES: i32 = 63;

pub const DAY_OUT_OF_RANGE: i32 = 64;

pub const ORDINAL_OUT_OF_RANGE: i32 = 65;

pub const WEEK_OUT_OF_RANGE: i32 = 66;

pub const WEEKDAY_OUT_OF_RANGE: i32 = 67;

/// A part of the period is positive and another one negative, or its duration is invalid.
pub const INVALID_PERIOD: i32 = 68;

/// The period has a duration, and a date has no time of day.
pub const PERIOD_HAS_DURATION: i32 = 69;

/// The offset of the moment is not the offset of the zone at its instant.
pub const WRONG_OFFSET: i32 = 70;

/// The number is not a unit of the calendar.
pub const INVALID_UNIT: i32 = 71;

/// A date of the range is invalid, or its end is before its start.
pub const INVALID_RANGE: i32 = 72;

/// The unit of rounding is not positive, or doesn't divide a day.
pub const INVALID_ROUNDING_UNIT: i32 = 73;

/// The mode of rounding is not from 0, `Floor`, to 4, `HalfEven`.
pub const INVALID_ROUNDING_MODE: i32 = 74;

pub const YEARS_OUT_OF_RANGE: i32 = 75;

pub const MONTHS_OUT_OF_RANGE: i32 = 76;

pub const WEEKS_OUT_OF_RANGE: i32 = 77;

pub const DAYS_OUT_OF_RANGE: i32 = 78;

pub const HOURS_OUT_OF_RANGE: i32 = 79;

pub const MINUTES_OUT_OF_RANGE: i32 = 80;

/// The end of the interval is before its start.
pub const END_BEFORE_START: i32 = 81;

/// The interval to repeat has no start.
pub const MISSING_START: i32 = 82;

/// The period to repeat is zero or negative.
pub const PERIOD_NOT_POSITIVE: i32 = 83;

/// The number of repetitions isn't from 1 to 4294967295.
pub const COUNT_OUT_OF_RANGE: i32 = 84;

/// No calendar has the number.
pub const INVALID_CALENDAR: i32 = 85;

/// No line ends an event.
pub const UNCLOSED_EVENT: i32 = 86;

/// A line `END` of another component ends an event.
pub const OTHER_END: i32 = 87;

/// A line of an event names another zone than a line before it, or two zones.
pub const OTHER_ZONE: i32 = 88;

/// A line of an event has a value of another kind than the call reads, such as a date.
pub const WRONG_KIND: i32 = 89;

/// A word of a rule of a holiday is invalid.
pub const INVALID_HOLIDAY_RULE: i32 = 90;

/// A name isn't UTF-8 of at most 127 bytes.
pub const INVALID_NAMES: i32 = 91;

/// No language has the code.
pub const UNKNOWN_LANGUAGE: i32 = 92;

/// A name of the format can be read as another name.
pub const AMBIGUOUS_NAMES: i32 = 93;

/// A number, a fraction or a sign of the format goes on with what comes after it.
pub const AMBIGUOUS_NUMBER: i32 = 94;

/// Returns the status of an error, by its component.
pub fn error_status(error: ComponentRange) -> i32
    ensures { result ≡ component_status error.component }
{
    component_status(error.component())
}

/// Returns the status of a component that is out of range.
pub fn component_status(component: Component) -> i32
    ensures { result ≡ component_status component }
{
    match component {
        Component::Year => YEAR_OUT_OF_RANGE,
        Component::Month => MONTH_OUT_OF_RANGE,
        Component::JulianDay => JULIAN_DAY_OUT_OF_RANGE,
        Component::Hour => HOUR_OUT_OF_RANGE,
        Component::Minute => MINUTE_OUT_OF_RANGE,
        Component::Second => SECOND_OUT_OF_RANGE,
        Component::Millisecond => MILLISECOND_OUT_OF_RANGE,
        Component::Microsecond => MICROSECOND_OUT_OF_RANGE,
        Component::Nanosecond => NANOSECOND_OUT_OF_RANGE,
        Component::OffsetHour => OFFSET_HOUR_OUT_OF_RANGE,
        Component::OffsetMinute => OFFSET_MINUTE_OUT_OF_RANGE,
        Component::OffsetSecond => OFFSET_SECOND_OUT_OF_RANGE,
        Component::Seconds => SECONDS_OUT_OF_RANGE,
        Component::Timestamp => TIMESTAMP_OUT_OF_RANGE,
        Component::Day => DAY_OUT_OF_RANGE,
        Component::Ordinal => ORDINAL_OUT_OF_RANGE,
        Component::Week => WEEK_OUT_OF_RANGE,
        Component::Weekday => WEEKDAY_OUT_OF_RANGE,
    }
}
