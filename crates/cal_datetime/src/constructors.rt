//! Constructors of date-times from dates. `time` has them as methods of `Date`, which is in a lower
//! crate here.
ghost use Rattle.std.specs.Prelude.{◌≡◌, ◌↔◌, ◌*◌, ◌<◌, ◌≤◌, Ok};
ghost use Rattle.cal_time.specs.ComponentError.{FailsWith};
ghost use Rattle.cal_time.specs.Time.{millisecond_out_of_range, microsecond_out_of_range, nanosecond_out_of_range, time_of, ChecksHms};
ghost use Rattle.cal_datetime.specs.DateTime.{date_time, date_at, time_at};

use crate::PlainDateTime;
use cal_time::error::ComponentRange;
use cal_time::{Date, Time};

/// Returns the date-time at the start of a day. For 2024-02-29 it is 2024-02-29 0:00:00.0.
pub fn midnight(date: Date) -> PlainDateTime
    ensures value { result ≡ date_time date 0 }
    ensures date { date_at result ≡ date }
    ensures time { time_at result ≡ 0 }
{
    PlainDateTime::new(date, Time::MIDNIGHT)
}

/// Creates a date-time from a date and a time of day, like [`PlainDateTime::new`]. 2024-02-29 with
/// 8:30 is 2024-02-29 8:30:00.0.
pub fn with_time(date: Date, time: Time) -> PlainDateTime
    ensures value { result ≡ date_time date time }
    ensures date { date_at result ≡ date }
    ensures time { time_at result ≡ time }
{
    PlainDateTime::new(date, time)
}

/// Creates a date-time from a date, an hour, a minute and a second. 2024-02-29 with 8, 30 and 15 is
/// 2024-02-29 8:30:15.0.
///
/// Returns the first error that applies: `hour` above 23, `minute` above 59 or `second` above 59.
pub fn with_hms(
    date: Date,
    hour: u8,
    minute: u8,
    second: u8,
) -> Result<PlainDateTime, ComponentRange>
    ensures error { ChecksHms hour minute second result }
    ensures value { hour ≤ 23 → minute ≤ 59 → second ≤ 59
        → result ≡ Ok (date_time date (time_of hour minute second 0)) }
{
    Ok(PlainDateTime::new(date, Time::from_hms(hour, minute, second)?))
}

/// Creates a date-time from a date, an hour, a minute, a second and a millisecond. 2024-02-29 with
/// 8, 30, 15 and 7 is 2024-02-29 8:30:15.007.
///
/// Returns the errors of [`with_hms`] first, then `millisecond` above 999.
pub fn with_hms_milli(
    date: Date,
    hour: u8,
    minute: u8,
    second: u8,
    millisecond: u16,
) -> Result<PlainDateTime, ComponentRange>
    ensures error { ChecksHms hour minute second result }
    ensures millisecond { FailsWith millisecond_out_of_range result
        ↔ (hour ≤ 23) × (minute ≤ 59) × (second ≤ 59) × (999 < millisecond) }
    ensures value { hour ≤ 23 → minute ≤ 59 → second ≤ 59 → millisecond ≤ 999
        → result ≡ Ok (date_time date (time_of hour minute second (millisecond * 1_000_000))) }
{
    Ok(PlainDateTime::new(
        date,
        Time::from_hms_milli(hour, minute, second, millisecond)?,
    ))
}

/// Creates a date-time from a date, an hour, a minute, a second and a microsecond. 2024-02-29 with
/// 8, 30, 15 and 7 is 2024-02-29 8:30:15.000007.
///
/// Returns the errors of [`with_hms`] first, then `microsecond` above 999999.
pub fn with_hms_micro(
    date: Date,
    hour: u8,
    minute: u8,
    second: u8,
    microsecond: u32,
) -> Result<PlainDateTime, ComponentRange>
    ensures error { ChecksHms hour minute second result }
    ensures microsecond { FailsWith microsecond_out_of_range result
        ↔ (hour ≤ 23) × (minute ≤ 59) × (second ≤ 59) × (999_999 < microsecond) }
    ensures value { hour ≤ 23 → minute ≤ 59 → second ≤ 59 → microsecond ≤ 999_999
        → result ≡ Ok (date_time date (time_of hour minute second (microsecond * 1_000))) }
{
    Ok(PlainDateTime::new(
        date,
        Time::from_hms_micro(hour, minute, second, microsecond)?,
    ))
}

/// Creates a date-time from a date, an hour, a minute, a second and a nanosecond. 2024-02-29 with
/// 8, 30, 15 and 7 is 2024-02-29 8:30:15.000000007.
///
/// Returns the errors of [`with_hms`] first, then `nanosecond` above 999999999.
pub fn with_hms_nano(
    date: Date,
    hour: u8,
    minute: u8,
    second: u8,
    nanosecond: u32,
) -> Result<PlainDateTime, ComponentRange>
    ensures error { ChecksHms hour minute second result }
    ensures nanosecond { FailsWith nanosecond_out_of_range result
        ↔ (hour ≤ 23) × (minute ≤ 59) × (second ≤ 59) × (999_999_999 < nanosecond) }
    ensures value { hour ≤ 23 → minute ≤ 59 → second ≤ 59 → nanosecond ≤ 999_999_999
        → result ≡ Ok (date_time date (time_of hour minute second nanosecond)) }
{
    Ok(PlainDateTime::new(date, Time::from_hms_nano(hour, minute, second, nanosecond)?))
}
