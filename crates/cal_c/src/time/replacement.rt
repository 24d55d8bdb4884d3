//! Times of day with a component replaced.
ghost use Rattle.std.specs.Prelude.{◌≡◌, ◌*◌, ◌≤◌};
ghost use Rattle.cal_time.specs.Time.{IsTime, time_of, hour_of, minute_of, second_of, nanosecond_of};
ghost use Rattle.cal_c.specs.Results.{time_ok, time_error};
ghost use Rattle.cal_c.specs.Values.{need◌else◌then◌};
ghost use Rattle.cal_c.specs.declared.status.TheConstants.{HOUR_OUT_OF_RANGE, MINUTE_OUT_OF_RANGE, SECOND_OUT_OF_RANGE, MILLISECOND_OUT_OF_RANGE, MICROSECOND_OUT_OF_RANGE, NANOSECOND_OUT_OF_RANGE};

use crate::results::TimeResult;
use crate::status::INVALID_TIME;
use crate::values::{saturating_u8, saturating_u16, valid_time};

/// Replaces the hour. Returns the error `hour` above 23. 3723004005006 with 0 is 123004005006.
#[unsafe(no_mangle)]
pub extern "C" fn fots_time_replace_hour(time: u64, hour: u32) -> TimeResult
    ensures { need IsTime time else result ≡ time_error INVALID_TIME then
        need hour ≤ 23 else result ≡ time_error HOUR_OUT_OF_RANGE then
        result ≡ time_ok (time_of hour (minute_of time) (second_of time) (nanosecond_of time)) }
{
    let time = or_error!(TimeResult, valid_time(time), INVALID_TIME);
    ok_or_error!(TimeResult, time.replace_hour(saturating_u8(hour)))
}

/// Replaces the minute. Returns the error `minute` above 59. 3723004005006 with 0 is 3603004005006.
#[unsafe(no_mangle)]
pub extern "C" fn fots_time_replace_minute(time: u64, minute: u32) -> TimeResult
    ensures { need IsTime time else result ≡ time_error INVALID_TIME then
        need minute ≤ 59 else result ≡ time_error MINUTE_OUT_OF_RANGE then
        result ≡ time_ok (time_of (hour_of time) minute (second_of time) (nanosecond_of time)) }
{
    let time = or_error!(TimeResult, valid_time(time), INVALID_TIME);
    ok_or_error!(TimeResult, time.replace_minute(saturating_u8(minute)))
}

/// Replaces the second. Returns the error `second` above 59. 3723004005006 with 0 is 3720004005006.
#[unsafe(no_mangle)]
pub extern "C" fn fots_time_replace_second(time: u64, second: u32) -> TimeResult
    ensures { need IsTime time else result ≡ time_error INVALID_TIME then
        need second ≤ 59 else result ≡ time_error SECOND_OUT_OF_RANGE then
        result ≡ time_ok (time_of (hour_of time) (minute_of time) second (nanosecond_of time)) }
{
    let time = or_error!(TimeResult, valid_time(time), INVALID_TIME);
    ok_or_error!(TimeResult, time.replace_second(saturating_u8(second)))
}

/// Sets the fraction of the second in milliseconds. Returns the error `millisecond` above 999.
/// 3723004005006 with 7 is 3723007000000.
#[unsafe(no_mangle)]
pub extern "C" fn fots_time_replace_millisecond(time: u64, millisecond: u32) -> TimeResult
    ensures { need IsTime time else result ≡ time_error INVALID_TIME then
        need millisecond ≤ 999 else result ≡ time_error MILLISECOND_OUT_OF_RANGE then
        result ≡ time_ok (time_of (hour_of time) (minute_of time) (second_of time)
        (millisecond * 1_000_000)) }
{
    let time = or_error!(TimeResult, valid_time(time), INVALID_TIME);
    ok_or_error!(
        TimeResult,
        time.replace_millisecond(saturating_u16(millisecond))
    )
}

/// Sets the fraction of the second in microseconds. Returns the error `microsecond` above 999999.
/// 3723004005006 with 7 is 3723000007000.
#[unsafe(no_mangle)]
pub extern "C" fn fots_time_replace_microsecond(time: u64, microsecond: u32) -> TimeResult
    ensures { need IsTime time else result ≡ time_error INVALID_TIME then
        need microsecond ≤ 999_999 else result ≡ time_error MICROSECOND_OUT_OF_RANGE then
        result ≡ time_ok (time_of (hour_of time) (minute_of time) (second_of time)
        (microsecond * 1_000)) }
{
    let time = or_error!(TimeResult, valid_time(time), INVALID_TIME);
    ok_or_error!(TimeResult, time.replace_microsecond(microsecond))
}

/// Sets the fraction of the second in nanoseconds. Returns the error `nanosecond` above 999999999.
/// 3723004005006 with 7 is 3723000000007.
#[unsafe(no_mangle)]
pub extern "C" fn fots_time_replace_nanosecond(time: u64, nanosecond: u32) -> TimeResult
    ensures { need IsTime time else result ≡ time_error INVALID_TIME then
        need nanosecond ≤ 999_999_999 else result ≡ time_error NANOSECOND_OUT_OF_RANGE then
        result ≡ time_ok (time_of (hour_of time) (minute_of time) (second_of time) nanosecond) }
{
    let time = or_error!(TimeResult, valid_time(time), INVALID_TIME);
    ok_or_error!(TimeResult, time.replace_nanosecond(nanosecond))
}
