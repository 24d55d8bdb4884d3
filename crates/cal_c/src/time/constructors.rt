//! Constructors of times of day.
ghost use Rattle.std.specs.Prelude.{◌≡◌, ◌*◌, ◌<◌, ◌≤◌};
ghost use Rattle.cal_time.specs.Time.{time_of};
ghost use Rattle.cal_c.specs.Results.{time_ok, time_error};
ghost use Rattle.cal_c.specs.declared.status.TheConstants.{HOUR_OUT_OF_RANGE, MINUTE_OUT_OF_RANGE, SECOND_OUT_OF_RANGE, MILLISECOND_OUT_OF_RANGE, MICROSECOND_OUT_OF_RANGE, NANOSECOND_OUT_OF_RANGE};

use crate::results::TimeResult;
use crate::values::{saturating_u8, saturating_u16};
use cal_time::Time;

/// Creates a time from an hour, a minute and a second. Returns the first error that applies:
/// `hour`, `minute` or `second`. 1, 2 and 3 give 3723000000000.
#[unsafe(no_mangle)]
pub extern "C" fn fots_time_from_hms(hour: u32, minute: u32, second: u32) -> TimeResult
    ensures hour { 23 < hour → result ≡ time_error HOUR_OUT_OF_RANGE }
    ensures minute { hour ≤ 23 → 59 < minute → result ≡ time_error MINUTE_OUT_OF_RANGE }
    ensures second { hour ≤ 23 → minute ≤ 59 → 59 < second → result ≡ time_error SECOND_OUT_OF_RANGE }
    ensures value { hour ≤ 23 → minute ≤ 59 → second ≤ 59
        → result ≡ time_ok (time_of hour minute second 0) }
{
    ok_or_error!(
        TimeResult,
        Time::from_hms(
            saturating_u8(hour),
            saturating_u8(minute),
            saturating_u8(second)
        )
    )
}

/// Creates a time from an hour, a minute, a second and a millisecond. Returns the first error that
/// applies: `hour`, `minute`, `second` or `millisecond`. 1, 2, 3 and 4 give 3723004000000.
#[unsafe(no_mangle)]
pub extern "C" fn fots_time_from_hms_milli(
    hour: u32,
    minute: u32,
    second: u32,
    millisecond: u32,
) -> TimeResult
    ensures hour { 23 < hour → result ≡ time_error HOUR_OUT_OF_RANGE }
    ensures minute { hour ≤ 23 → 59 < minute → result ≡ time_error MINUTE_OUT_OF_RANGE }
    ensures second { hour ≤ 23 → minute ≤ 59 → 59 < second → result ≡ time_error SECOND_OUT_OF_RANGE }
    ensures millisecond { hour ≤ 23 → minute ≤ 59 → second ≤ 59 → 999 < millisecond
        → result ≡ time_error MILLISECOND_OUT_OF_RANGE }
    ensures value { hour ≤ 23 → minute ≤ 59 → second ≤ 59 → millisecond ≤ 999
        → result ≡ time_ok (time_of hour minute second (millisecond * 1_000_000)) }
{
    ok_or_error!(
        TimeResult,
        Time::from_hms_milli(
            saturating_u8(hour),
            saturating_u8(minute),
            saturating_u8(second),
            saturating_u16(millisecond),
        )
    )
}

/// Creates a time from an hour, a minute, a second and a microsecond. Returns the first error that
/// applies: `hour`, `minute`, `second` or `microsecond`. 1, 2, 3 and 4005 give 3723004005000.
#[unsafe(no_mangle)]
pub extern "C" fn fots_time_from_hms_micro(
    hour: u32,
    minute: u32,
    second: u32,
    microsecond: u32,
) -> TimeResult
    ensures hour { 23 < hour → result ≡ time_error HOUR_OUT_OF_RANGE }
    ensures minute { hour ≤ 23 → 59 < minute → result ≡ time_error MINUTE_OUT_OF_RANGE }
    ensures second { hour ≤ 23 → minute ≤ 59 → 59 < second → result ≡ time_error SECOND_OUT_OF_RANGE }
    ensures microsecond { hour ≤ 23 → minute ≤ 59 → second ≤ 59 → 999_999 < microsecond
        → result ≡ time_error MICROSECOND_OUT_OF_RANGE }
    ensures value { hour ≤ 23 → minute ≤ 59 → second ≤ 59 → microsecond ≤ 999_999
        → result ≡ time_ok (time_of hour minute second (microsecond * 1_000)) }
{
    ok_or_error!(
        TimeResult,
        Time::from_hms_micro(
            saturating_u8(hour),
            saturating_u8(minute),
            saturating_u8(second),
            microsecond
        )
    )
}

/// Creates a time from an hour, a minute, a second and a nanosecond. Returns the first error that
/// applies: `hour`, `minute`, `second` or `nanosecond`. 1, 2, 3 and 4005006 give 3723004005006.
#[unsafe(no_mangle)]
pub extern "C" fn fots_time_from_hms_nano(
    hour: u32,
    minute: u32,
    second: u32,
    nanosecond: u32,
) -> TimeResult
    ensures hour { 23 < hour → result ≡ time_error HOUR_OUT_OF_RANGE }
    ensures minute { hour ≤ 23 → 59 < minute → result ≡ time_error MINUTE_OUT_OF_RANGE }
    ensures second { hour ≤ 23 → minute ≤ 59 → 59 < second → result ≡ time_error SECOND_OUT_OF_RANGE }
    ensures nanosecond { hour ≤ 23 → minute ≤ 59 → second ≤ 59 → 999_999_999 < nanosecond
        → result ≡ time_error NANOSECOND_OUT_OF_RANGE }
    ensures value { hour ≤ 23 → minute ≤ 59 → second ≤ 59 → nanosecond ≤ 999_999_999
        → result ≡ time_ok (time_of hour minute second nanosecond) }
{
    ok_or_error!(
        TimeResult,
        Time::from_hms_nano(
            saturating_u8(hour),
            saturating_u8(minute),
            saturating_u8(second),
            nanosecond
        )
    )
}
