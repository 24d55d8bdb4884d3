//! Truncated times of day.
ghost use Rattle.std.specs.Prelude.{◌≡◌, ◌*◌};
ghost use Rattle.cal_time.specs.Time.{IsTime, time_of, hour_of, minute_of, second_of, millisecond_of, microsecond_of};
ghost use Rattle.cal_c.specs.Results.{time_ok, time_error};

use crate::results::TimeResult;
use crate::status::INVALID_TIME;
use crate::values::valid_time;

/// Truncates to the hour. 3723004005006 becomes 3600000000000.
#[unsafe(no_mangle)]
pub extern "C" fn fots_time_truncate_to_hour(time: u64) -> TimeResult
    ensures invalid_time { ¬ IsTime time → result ≡ time_error INVALID_TIME }
    ensures value { IsTime time → result ≡ time_ok (time_of (hour_of time) 0 0 0) }
{
    let time = or_error!(TimeResult, valid_time(time), INVALID_TIME);
    TimeResult::ok(time.truncate_to_hour())
}

/// Truncates to the minute. 3723004005006 becomes 3720000000000.
#[unsafe(no_mangle)]
pub extern "C" fn fots_time_truncate_to_minute(time: u64) -> TimeResult
    ensures invalid_time { ¬ IsTime time → result ≡ time_error INVALID_TIME }
    ensures value { IsTime time → result ≡ time_ok (time_of (hour_of time) (minute_of time) 0 0) }
{
    let time = or_error!(TimeResult, valid_time(time), INVALID_TIME);
    TimeResult::ok(time.truncate_to_minute())
}

/// Truncates to the second. 3723004005006 becomes 3723000000000.
#[unsafe(no_mangle)]
pub extern "C" fn fots_time_truncate_to_second(time: u64) -> TimeResult
    ensures invalid_time { ¬ IsTime time → result ≡ time_error INVALID_TIME }
    ensures value { IsTime time → result
        ≡ time_ok (time_of (hour_of time) (minute_of time) (second_of time) 0) }
{
    let time = or_error!(TimeResult, valid_time(time), INVALID_TIME);
    TimeResult::ok(time.truncate_to_second())
}

/// Truncates to the millisecond. 3723004005006 becomes 3723004000000.
#[unsafe(no_mangle)]
pub extern "C" fn fots_time_truncate_to_millisecond(time: u64) -> TimeResult
    ensures invalid_time { ¬ IsTime time → result ≡ time_error INVALID_TIME }
    ensures value { IsTime time → result
        ≡ time_ok (time_of (hour_of time) (minute_of time) (second_of time)
        (millisecond_of time * 1_000_000)) }
{
    let time = or_error!(TimeResult, valid_time(time), INVALID_TIME);
    TimeResult::ok(time.truncate_to_millisecond())
}

/// Truncates to the microsecond. 3723004005006 becomes 3723004005000.
#[unsafe(no_mangle)]
pub extern "C" fn fots_time_truncate_to_microsecond(time: u64) -> TimeResult
    ensures invalid_time { ¬ IsTime time → result ≡ time_error INVALID_TIME }
    ensures value { IsTime time → result
        ≡ time_ok (time_of (hour_of time) (minute_of time) (second_of time)
        (microsecond_of time * 1_000)) }
{
    let time = or_error!(TimeResult, valid_time(time), INVALID_TIME);
    TimeResult::ok(time.truncate_to_microsecond())
}
