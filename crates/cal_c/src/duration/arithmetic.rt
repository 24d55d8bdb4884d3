//! Arithmetic with durations.
ghost use Rattle.std.specs.Prelude.{◌≡◌, pos, neg_ℤ, ◌+ℤ◌, ◌-ℤ◌, ◌*ℤ◌, ◌<ℤ◌, unsigned_abs};
ghost use Rattle.cal_time.specs.SignedDuration.{HasQuotient, clamp, cut};
ghost use Rattle.cal_c.specs.Results.{IsDurationOrOutOfRange, duration_ok, duration_error, number_ok, number_error};
ghost use Rattle.cal_c.specs.Values.{need◌else◌then◌, IsDurationPair, nanoseconds_in};
ghost use Rattle.cal_c.specs.declared.status.TheConstants.{RESULT_OUT_OF_RANGE};

use crate::results::{Duration, DurationResult, NumberResult};
use crate::status::INVALID_DURATION;
use crate::values::valid_duration;

/// Adds two durations. Fails if the sum is out of range. 1 second plus -2.5 seconds is -1.5
/// seconds.
#[unsafe(no_mangle)]
pub extern "C" fn fots_duration_checked_add(duration: Duration, other: Duration) -> DurationResult
    ensures invalid_duration { ¬ (IsDurationPair duration × IsDurationPair other)
        → result ≡ duration_error INVALID_DURATION }
    ensures value { IsDurationPair duration → IsDurationPair other
        → IsDurationOrOutOfRange (nanoseconds_in duration +ℤ nanoseconds_in other) result }
{
    let duration = or_error!(DurationResult, valid_duration(duration), INVALID_DURATION);
    let other = or_error!(DurationResult, valid_duration(other), INVALID_DURATION);
    DurationResult::from_option(duration.checked_add(other))
}

/// Adds two durations. A sum out of range is clamped. The maximum plus 1 second is the maximum.
#[unsafe(no_mangle)]
pub extern "C" fn fots_duration_saturating_add(
    duration: Duration,
    other: Duration,
) -> DurationResult
    ensures invalid_duration { ¬ (IsDurationPair duration × IsDurationPair other)
        → result ≡ duration_error INVALID_DURATION }
    ensures value { IsDurationPair duration → IsDurationPair other
        → result ≡ duration_ok (clamp (nanoseconds_in duration +ℤ nanoseconds_in other)) }
{
    let duration = or_error!(DurationResult, valid_duration(duration), INVALID_DURATION);
    let other = or_error!(DurationResult, valid_duration(other), INVALID_DURATION);
    DurationResult::ok(duration.saturating_add(other))
}

/// Subtracts two durations. Fails if the difference is out of range. 1 second minus 2.5 seconds is
/// -1.5 seconds.
#[unsafe(no_mangle)]
pub extern "C" fn fots_duration_checked_sub(duration: Duration, other: Duration) -> DurationResult
    ensures invalid_duration { ¬ (IsDurationPair duration × IsDurationPair other)
        → result ≡ duration_error INVALID_DURATION }
    ensures value { IsDurationPair duration → IsDurationPair other
        → IsDurationOrOutOfRange (nanoseconds_in duration -ℤ nanoseconds_in other) result }
{
    let duration = or_error!(DurationResult, valid_duration(duration), INVALID_DURATION);
    let other = or_error!(DurationResult, valid_duration(other), INVALID_DURATION);
    DurationResult::from_option(duration.checked_sub(other))
}

/// Subtracts two durations. A difference out of range is clamped. The minimum minus 1 second is the
/// minimum.
#[unsafe(no_mangle)]
pub extern "C" fn fots_duration_saturating_sub(
    duration: Duration,
    other: Duration,
) -> DurationResult
    ensures invalid_duration { ¬ (IsDurationPair duration × IsDurationPair other)
        → result ≡ duration_error INVALID_DURATION }
    ensures value { IsDurationPair duration → IsDurationPair other
        → result ≡ duration_ok (clamp (nanoseconds_in duration -ℤ nanoseconds_in other)) }
{
    let duration = or_error!(DurationResult, valid_duration(duration), INVALID_DURATION);
    let other = or_error!(DurationResult, valid_duration(other), INVALID_DURATION);
    DurationResult::ok(duration.saturating_sub(other))
}

/// Multiplies a duration. Fails if the product is out of range. -1.5 seconds times 2 is -3 seconds.
#[unsafe(no_mangle)]
pub extern "C" fn fots_duration_checked_mul(duration: Duration, factor: i32) -> DurationResult
    ensures invalid_duration { ¬ IsDurationPair duration → result ≡ duration_error INVALID_DURATION }
    ensures value { IsDurationPair duration
        → IsDurationOrOutOfRange (nanoseconds_in duration *ℤ factor) result }
{
    let duration = or_error!(DurationResult, valid_duration(duration), INVALID_DURATION);
    DurationResult::from_option(duration.checked_mul(factor))
}

/// Divides a duration, truncating toward zero. Fails for 0, and if the result is out of range. -3
/// seconds divided by 2 is -1.5 seconds.
#[unsafe(no_mangle)]
pub extern "C" fn fots_duration_checked_div(duration: Duration, divisor: i32) -> DurationResult
    ensures { need IsDurationPair duration else result ≡ duration_error INVALID_DURATION then
        need HasQuotient (nanoseconds_in duration) divisor else result ≡ duration_error RESULT_OUT_OF_RANGE then
        result ≡ duration_ok (cut (nanoseconds_in duration) divisor) }
{
    let duration = or_error!(DurationResult, valid_duration(duration), INVALID_DURATION);
    DurationResult::from_option(duration.checked_div(divisor))
}

/// Negates a duration. Fails if the result is out of range, which it is if the seconds are
/// `i64::MIN`. -1.5 seconds becomes 1.5 seconds.
#[unsafe(no_mangle)]
pub extern "C" fn fots_duration_checked_neg(duration: Duration) -> DurationResult
    ensures invalid_duration { ¬ IsDurationPair duration → result ≡ duration_error INVALID_DURATION }
    ensures value { IsDurationPair duration
        → IsDurationOrOutOfRange (neg_ℤ (nanoseconds_in duration)) result }
{
    let duration = or_error!(DurationResult, valid_duration(duration), INVALID_DURATION);
    DurationResult::from_option(duration.checked_neg())
}

/// Multiplies a duration. A product out of range is clamped. The maximum times -2 is the minimum.
#[unsafe(no_mangle)]
pub extern "C" fn fots_duration_saturating_mul(duration: Duration, factor: i32) -> DurationResult
    ensures invalid_duration { ¬ IsDurationPair duration → result ≡ duration_error INVALID_DURATION }
    ensures value { IsDurationPair duration
        → result ≡ duration_ok (clamp (nanoseconds_in duration *ℤ factor)) }
{
    let duration = or_error!(DurationResult, valid_duration(duration), INVALID_DURATION);
    DurationResult::ok(duration.saturating_mul(factor))
}

/// Returns the magnitude, clamped to the maximum. For -1.5 seconds it is 1.5 seconds, and for the
/// minimum the maximum.
#[unsafe(no_mangle)]
pub extern "C" fn fots_duration_abs(duration: Duration) -> DurationResult
    ensures invalid_duration { ¬ IsDurationPair duration → result ≡ duration_error INVALID_DURATION }
    ensures value { IsDurationPair duration
        → result ≡ duration_ok (clamp (pos (unsigned_abs (nanoseconds_in duration)))) }
{
    let duration = or_error!(DurationResult, valid_duration(duration), INVALID_DURATION);
    DurationResult::ok(duration.abs())
}

/// Compares two durations. Returns -1 for less, 0 for equal, 1 for greater. For -1.5 seconds and 1
/// second it is -1.
#[unsafe(no_mangle)]
pub extern "C" fn fots_duration_compare(duration: Duration, other: Duration) -> NumberResult
    ensures invalid_duration { ¬ (IsDurationPair duration × IsDurationPair other)
        → result ≡ number_error INVALID_DURATION }
    ensures less { IsDurationPair duration → IsDurationPair other
        → nanoseconds_in duration <ℤ nanoseconds_in other
        → result ≡ number_ok (neg_ℤ (pos 1)) }
    ensures equal { IsDurationPair duration → IsDurationPair other
        → nanoseconds_in duration ≡ nanoseconds_in other
        → result ≡ number_ok (pos 0) }
    ensures greater { IsDurationPair duration → IsDurationPair other
        → nanoseconds_in other <ℤ nanoseconds_in duration
        → result ≡ number_ok (pos 1) }
{
    let duration = or_error!(NumberResult, valid_duration(duration), INVALID_DURATION);
    let other = or_error!(NumberResult, valid_duration(other), INVALID_DURATION);
    if duration < other {
        NumberResult::ok(-1)
    } else if other < duration {
        NumberResult::ok(1)
    } else {
        NumberResult::ok(0)
    }
}
