//! The components of times of day.
ghost use Rattle.std.specs.Prelude.{◌≡◌, pos};
ghost use Rattle.cal_time.specs.Time.{IsTime, hour_of, minute_of, second_of, millisecond_of, microsecond_of, nanosecond_of};
ghost use Rattle.cal_c.specs.Results.{number_ok, number_error, hms_nano_ok, hms_nano_error};

use crate::results::{HmsNanoResult, NumberResult};
use crate::status::{INVALID_TIME, OK};
use crate::values::valid_time;

/// Returns the hour, minute, second and nanosecond. For 3723004005006: 1, 2, 3 and 4005006.
#[unsafe(no_mangle)]
pub extern "C" fn fots_time_as_hms_nano(time: u64) -> HmsNanoResult
    ensures invalid_time { ¬ IsTime time → result ≡ hms_nano_error INVALID_TIME }
    ensures value { IsTime time → result ≡ hms_nano_ok time }
{
    let time = or_error!(HmsNanoResult, valid_time(time), INVALID_TIME);
    let (hour, minute, second, nanosecond) = time.as_hms_nano();
    HmsNanoResult {
        status: OK,
        hour: u32::from(hour),
        minute: u32::from(minute),
        second: u32::from(second),
        nanosecond,
    }
}

/// Returns the hour, from 0 to 23. For 3723004005006 it is 1.
#[unsafe(no_mangle)]
pub extern "C" fn fots_time_hour(time: u64) -> NumberResult
    ensures invalid_time { ¬ IsTime time → result ≡ number_error INVALID_TIME }
    ensures value { IsTime time → result ≡ number_ok (pos (hour_of time)) }
{
    let time = or_error!(NumberResult, valid_time(time), INVALID_TIME);
    NumberResult::ok(i32::from(time.hour()))
}

/// Returns the minute, from 0 to 59. For 3723004005006 it is 2.
#[unsafe(no_mangle)]
pub extern "C" fn fots_time_minute(time: u64) -> NumberResult
    ensures invalid_time { ¬ IsTime time → result ≡ number_error INVALID_TIME }
    ensures value { IsTime time → result ≡ number_ok (pos (minute_of time)) }
{
    let time = or_error!(NumberResult, valid_time(time), INVALID_TIME);
    NumberResult::ok(i32::from(time.minute()))
}

/// Returns the second, from 0 to 59. For 3723004005006 it is 3.
#[unsafe(no_mangle)]
pub extern "C" fn fots_time_second(time: u64) -> NumberResult
    ensures invalid_time { ¬ IsTime time → result ≡ number_error INVALID_TIME }
    ensures value { IsTime time → result ≡ number_ok (pos (second_of time)) }
{
    let time = or_error!(NumberResult, valid_time(time), INVALID_TIME);
    NumberResult::ok(i32::from(time.second()))
}

/// Returns the millisecond of the second, from 0 to 999. For 3723004005006 it is 4.
#[unsafe(no_mangle)]
pub extern "C" fn fots_time_millisecond(time: u64) -> NumberResult
    ensures invalid_time { ¬ IsTime time → result ≡ number_error INVALID_TIME }
    ensures value { IsTime time → result ≡ number_ok (pos (millisecond_of time)) }
{
    let time = or_error!(NumberResult, valid_time(time), INVALID_TIME);
    NumberResult::ok(i32::from(time.millisecond()))
}

/// Returns the microsecond of the second, from 0 to 999999. For 3723004005006 it is 4005.
#[unsafe(no_mangle)]
pub extern "C" fn fots_time_microsecond(time: u64) -> NumberResult
    ensures invalid_time { ¬ IsTime time → result ≡ number_error INVALID_TIME }
    ensures value { IsTime time → result ≡ number_ok (pos (microsecond_of time)) }
{
    let time = or_error!(NumberResult, valid_time(time), INVALID_TIME);
    NumberResult::ok(time.microsecond() as i32)
}

/// Returns the nanosecond of the second, from 0 to 999999999. For 3723004005006 it is 4005006.
#[unsafe(no_mangle)]
pub extern "C" fn fots_time_nanosecond(time: u64) -> NumberResult
    ensures invalid_time { ¬ IsTime time → result ≡ number_error INVALID_TIME }
    ensures value { IsTime time → result ≡ number_ok (pos (nanosecond_of time)) }
{
    let time = or_error!(NumberResult, valid_time(time), INVALID_TIME);
    NumberResult::ok(time.nanosecond() as i32)
}
