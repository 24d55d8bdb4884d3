//! Times plus and minus durations, and the durations between times.
ghost use Rattle.std.specs.Prelude.{◌≡◌, pos, ◌+ℤ◌, ◌-ℤ◌};
ghost use Rattle.cal_time.specs.Time.{IsTime, modulo_day};
ghost use Rattle.cal_c.specs.Results.{time_ok, time_error, duration_ok, duration_error, adjusted_time_error, IsAddAdjusted, IsSubAdjusted};
ghost use Rattle.cal_c.specs.Values.{need◌else◌then◌, IsDurationPair, nanoseconds_in};

use crate::results::{AdjustedTimeResult, Duration, DurationResult, TimeResult};
use crate::status::{INVALID_DURATION, INVALID_TIME};
use crate::values::{valid_duration, valid_time};

/// Adds a duration, modulo a day. 23:00 plus 2 hours is 1:00.
#[unsafe(no_mangle)]
pub extern "C" fn fots_time_add(time: u64, duration: Duration) -> TimeResult
    ensures { need IsTime time else result ≡ time_error INVALID_TIME then
        need IsDurationPair duration else result ≡ time_error INVALID_DURATION then
        result ≡ time_ok (modulo_day (pos time +ℤ nanoseconds_in duration)) }
{
    let time = or_error!(TimeResult, valid_time(time), INVALID_TIME);
    let duration = or_error!(TimeResult, valid_duration(duration), INVALID_DURATION);
    TimeResult::ok(time + duration)
}

/// Adds a duration, modulo a day. The carry, -1, 0 or 1, is the days beyond the whole days of the
/// duration. 23:00 plus 26 hours is 1:00 two days later, with the carry 1.
#[unsafe(no_mangle)]
pub extern "C" fn fots_time_adjusting_add(time: u64, duration: Duration) -> AdjustedTimeResult
    ensures { need IsTime time else result ≡ adjusted_time_error INVALID_TIME then
        need IsDurationPair duration else result ≡ adjusted_time_error INVALID_DURATION then
        IsAddAdjusted time (nanoseconds_in duration) result }
{
    let time = or_error!(AdjustedTimeResult, valid_time(time), INVALID_TIME);
    let duration = or_return!(
        valid_duration(duration),
        AdjustedTimeResult::error(INVALID_DURATION)
    );
    let (adjustment, time) = time.adjusting_add(duration);
    AdjustedTimeResult::ok(adjustment, time)
}

/// Subtracts a duration, modulo a day. 1:00 minus 2 hours is 23:00.
#[unsafe(no_mangle)]
pub extern "C" fn fots_time_sub(time: u64, duration: Duration) -> TimeResult
    ensures { need IsTime time else result ≡ time_error INVALID_TIME then
        need IsDurationPair duration else result ≡ time_error INVALID_DURATION then
        result ≡ time_ok (modulo_day (pos time -ℤ nanoseconds_in duration)) }
{
    let time = or_error!(TimeResult, valid_time(time), INVALID_TIME);
    let duration = or_error!(TimeResult, valid_duration(duration), INVALID_DURATION);
    TimeResult::ok(time - duration)
}

/// Subtracts a duration, modulo a day. The carry, -1, 0 or 1, is the days beyond the whole days of
/// the duration. 1:00 minus 26 hours is 23:00 two days earlier, with the carry -1.
#[unsafe(no_mangle)]
pub extern "C" fn fots_time_adjusting_sub(time: u64, duration: Duration) -> AdjustedTimeResult
    ensures { need IsTime time else result ≡ adjusted_time_error INVALID_TIME then
        need IsDurationPair duration else result ≡ adjusted_time_error INVALID_DURATION then
        IsSubAdjusted time (nanoseconds_in duration) result }
{
    let time = or_error!(AdjustedTimeResult, valid_time(time), INVALID_TIME);
    let duration = or_return!(
        valid_duration(duration),
        AdjustedTimeResult::error(INVALID_DURATION)
    );
    let (adjustment, time) = time.adjusting_sub(duration);
    AdjustedTimeResult::ok(adjustment, time)
}

/// Returns the duration forward to the other time, from 0 to less than a day. From 23:00 to 1:00 it
/// is 2 hours.
#[unsafe(no_mangle)]
pub extern "C" fn fots_time_duration_until(time: u64, other: u64) -> DurationResult
    ensures invalid_time { ¬ (IsTime time × IsTime other) → result ≡ duration_error INVALID_TIME }
    ensures value { IsTime time → IsTime other
        → result ≡ duration_ok (pos (modulo_day (pos other -ℤ pos time))) }
{
    let time = or_error!(DurationResult, valid_time(time), INVALID_TIME);
    let other = or_error!(DurationResult, valid_time(other), INVALID_TIME);
    DurationResult::ok(time.duration_until(other))
}

/// Returns the duration forward from the other time, from 0 to less than a day. From 23:00 to 1:00
/// it is 2 hours.
#[unsafe(no_mangle)]
pub extern "C" fn fots_time_duration_since(time: u64, other: u64) -> DurationResult
    ensures invalid_time { ¬ (IsTime time × IsTime other) → result ≡ duration_error INVALID_TIME }
    ensures value { IsTime time → IsTime other
        → result ≡ duration_ok (pos (modulo_day (pos time -ℤ pos other))) }
{
    let time = or_error!(DurationResult, valid_time(time), INVALID_TIME);
    let other = or_error!(DurationResult, valid_time(other), INVALID_TIME);
    DurationResult::ok(time.duration_since(other))
}

/// Returns the duration from `other` to `time` on the same day, negative if `other` is later. From
/// 23:00 to 0:00 it is -23 hours.
#[unsafe(no_mangle)]
pub extern "C" fn fots_time_difference(time: u64, other: u64) -> DurationResult
    ensures invalid_time { ¬ (IsTime time × IsTime other) → result ≡ duration_error INVALID_TIME }
    ensures value { IsTime time → IsTime other → result ≡ duration_ok (pos time -ℤ pos other) }
{
    let time = or_error!(DurationResult, valid_time(time), INVALID_TIME);
    let other = or_error!(DurationResult, valid_time(other), INVALID_TIME);
    DurationResult::ok(time - other)
}
