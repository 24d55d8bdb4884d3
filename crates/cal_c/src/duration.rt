//! Constructors and components of durations.
ghost use Rattle.std.specs.Prelude.{◌≡◌, pos, ◌+ℤ◌, ◌*ℤ◌};
ghost use Rattle.cal_time.specs.SignedDuration.{microsecond, millisecond, second, minute, hour, day, week, cut, subsec_nanoseconds};
ghost use Rattle.cal_c.specs.Results.{IsDurationOrOutOfRange, IsInt64OrOutOfRange, duration_ok, number_ok, number_error, int64_ok, int64_error};
ghost use Rattle.cal_c.specs.Values.{IsDurationPair, nanoseconds_in};

use crate::results::{Duration, DurationResult, Int64Result, NumberResult};
use crate::status::{INVALID_DURATION, RESULT_OUT_OF_RANGE};
use crate::values::valid_duration;
use cal_time::SignedDuration;

mod arithmetic;

/// Creates a duration from seconds and nanoseconds, whose signs may differ. Fails if it is out of
/// range. -1 and 1 give 0 seconds and -999999999 nanoseconds.
#[unsafe(no_mangle)]
pub extern "C" fn fots_duration_new(seconds: i64, nanoseconds: i32) -> DurationResult
    ensures { IsDurationOrOutOfRange (seconds *ℤ pos second +ℤ nanoseconds) result }
{
    let past = SignedDuration::nanoseconds(i64::from(nanoseconds));
    DurationResult::from_option(SignedDuration::seconds(seconds).checked_add(past))
}

/// Creates a duration from weeks of 7 days. Fails if it is out of range. 2 weeks are 1209600
/// seconds.
#[unsafe(no_mangle)]
pub extern "C" fn fots_duration_weeks(weeks: i64) -> DurationResult
    ensures { IsDurationOrOutOfRange (weeks *ℤ pos week) result }
{
    let seconds = or_return!(
        weeks.checked_mul(604800),
        DurationResult::error(RESULT_OUT_OF_RANGE)
    );
    DurationResult::ok(SignedDuration::seconds(seconds))
}

/// Creates a duration from days of 24 hours. Fails if it is out of range. -3 days are -259200
/// seconds.
#[unsafe(no_mangle)]
pub extern "C" fn fots_duration_days(days: i64) -> DurationResult
    ensures { IsDurationOrOutOfRange (days *ℤ pos day) result }
{
    let seconds = or_error!(DurationResult, days.checked_mul(86400), RESULT_OUT_OF_RANGE);
    DurationResult::ok(SignedDuration::seconds(seconds))
}

/// Creates a duration from hours. Fails if it is out of range. 47 hours are 169200 seconds.
#[unsafe(no_mangle)]
pub extern "C" fn fots_duration_hours(hours: i64) -> DurationResult
    ensures { IsDurationOrOutOfRange (hours *ℤ pos hour) result }
{
    let seconds = or_error!(DurationResult, hours.checked_mul(3600), RESULT_OUT_OF_RANGE);
    DurationResult::ok(SignedDuration::seconds(seconds))
}

/// Creates a duration from minutes. Fails if it is out of range. 90 minutes are 5400 seconds.
#[unsafe(no_mangle)]
pub extern "C" fn fots_duration_minutes(minutes: i64) -> DurationResult
    ensures { IsDurationOrOutOfRange (minutes *ℤ pos minute) result }
{
    let seconds = or_error!(DurationResult, minutes.checked_mul(60), RESULT_OUT_OF_RANGE);
    DurationResult::ok(SignedDuration::seconds(seconds))
}

/// Creates a duration from seconds.
#[unsafe(no_mangle)]
pub extern "C" fn fots_duration_seconds(seconds: i64) -> DurationResult
    ensures { result ≡ duration_ok (seconds *ℤ pos second) }
{
    DurationResult::ok(SignedDuration::seconds(seconds))
}

/// Creates a duration from milliseconds. -1500 give -1 second and -500000000 nanoseconds.
#[unsafe(no_mangle)]
pub extern "C" fn fots_duration_milliseconds(milliseconds: i64) -> DurationResult
    ensures { result ≡ duration_ok (milliseconds *ℤ pos millisecond) }
{
    DurationResult::ok(SignedDuration::milliseconds(milliseconds))
}

/// Creates a duration from microseconds. -1500000 give -1 second and -500000000 nanoseconds.
#[unsafe(no_mangle)]
pub extern "C" fn fots_duration_microseconds(microseconds: i64) -> DurationResult
    ensures { result ≡ duration_ok (microseconds *ℤ pos microsecond) }
{
    DurationResult::ok(SignedDuration::microseconds(microseconds))
}

/// Creates a duration from nanoseconds. -1500000000 give -1 second and -500000000 nanoseconds.
#[unsafe(no_mangle)]
pub extern "C" fn fots_duration_nanoseconds(nanoseconds: i64) -> DurationResult
    ensures { result ≡ duration_ok nanoseconds }
{
    DurationResult::ok(SignedDuration::nanoseconds(nanoseconds))
}

/// Returns the whole weeks, truncated toward zero. For 15 days it is 2.
#[unsafe(no_mangle)]
pub extern "C" fn fots_duration_whole_weeks(duration: Duration) -> Int64Result
    ensures invalid_duration { ¬ IsDurationPair duration → result ≡ int64_error INVALID_DURATION }
    ensures value { IsDurationPair duration
        → result ≡ int64_ok (cut (nanoseconds_in duration) (pos week)) }
{
    let duration = or_error!(Int64Result, valid_duration(duration), INVALID_DURATION);
    Int64Result::ok(duration.whole_weeks())
}

/// Returns the whole days, truncated toward zero. For -47 hours it is -1.
#[unsafe(no_mangle)]
pub extern "C" fn fots_duration_whole_days(duration: Duration) -> Int64Result
    ensures invalid_duration { ¬ IsDurationPair duration → result ≡ int64_error INVALID_DURATION }
    ensures value { IsDurationPair duration
        → result ≡ int64_ok (cut (nanoseconds_in duration) (pos day)) }
{
    let duration = or_error!(Int64Result, valid_duration(duration), INVALID_DURATION);
    Int64Result::ok(duration.whole_days())
}

/// Returns the whole hours, truncated toward zero. For -47 hours it is -47.
#[unsafe(no_mangle)]
pub extern "C" fn fots_duration_whole_hours(duration: Duration) -> Int64Result
    ensures invalid_duration { ¬ IsDurationPair duration → result ≡ int64_error INVALID_DURATION }
    ensures value { IsDurationPair duration
        → result ≡ int64_ok (cut (nanoseconds_in duration) (pos hour)) }
{
    let duration = or_error!(Int64Result, valid_duration(duration), INVALID_DURATION);
    Int64Result::ok(duration.whole_hours())
}

/// Returns the whole minutes, truncated toward zero. For -47 hours it is -2820.
#[unsafe(no_mangle)]
pub extern "C" fn fots_duration_whole_minutes(duration: Duration) -> Int64Result
    ensures invalid_duration { ¬ IsDurationPair duration → result ≡ int64_error INVALID_DURATION }
    ensures value { IsDurationPair duration
        → result ≡ int64_ok (cut (nanoseconds_in duration) (pos minute)) }
{
    let duration = or_error!(Int64Result, valid_duration(duration), INVALID_DURATION);
    Int64Result::ok(duration.whole_minutes())
}

/// Returns the whole seconds, truncated toward zero. For -1.5 seconds it is -1.
#[unsafe(no_mangle)]
pub extern "C" fn fots_duration_whole_seconds(duration: Duration) -> Int64Result
    ensures invalid_duration { ¬ IsDurationPair duration → result ≡ int64_error INVALID_DURATION }
    ensures value { IsDurationPair duration
        → result ≡ int64_ok (cut (nanoseconds_in duration) (pos second)) }
{
    let duration = or_error!(Int64Result, valid_duration(duration), INVALID_DURATION);
    Int64Result::ok(duration.whole_seconds())
}

/// Returns the whole milliseconds, truncated toward zero. Fails if they don't fit in an `i64`. For
/// -1.5 seconds it is -1500.
#[unsafe(no_mangle)]
pub extern "C" fn fots_duration_whole_milliseconds(duration: Duration) -> Int64Result
    ensures invalid_duration { ¬ IsDurationPair duration → result ≡ int64_error INVALID_DURATION }
    ensures value { IsDurationPair duration
        → IsInt64OrOutOfRange (cut (nanoseconds_in duration) (pos millisecond)) result }
{
    let duration = or_error!(Int64Result, valid_duration(duration), INVALID_DURATION);
    Int64Result::from_i128(duration.whole_milliseconds())
}

/// Returns the whole microseconds, truncated toward zero. Fails if they don't fit in an `i64`. For
/// -1.5 seconds it is -1500000.
#[unsafe(no_mangle)]
pub extern "C" fn fots_duration_whole_microseconds(duration: Duration) -> Int64Result
    ensures invalid_duration { ¬ IsDurationPair duration → result ≡ int64_error INVALID_DURATION }
    ensures value { IsDurationPair duration
        → IsInt64OrOutOfRange (cut (nanoseconds_in duration) (pos microsecond)) result }
{
    let duration = or_error!(Int64Result, valid_duration(duration), INVALID_DURATION);
    Int64Result::from_i128(duration.whole_microseconds())
}

/// Returns the nanoseconds. Fails if they don't fit in an `i64`. For -1.5 seconds it is
/// -1500000000.
#[unsafe(no_mangle)]
pub extern "C" fn fots_duration_whole_nanoseconds(duration: Duration) -> Int64Result
    ensures invalid_duration { ¬ IsDurationPair duration → result ≡ int64_error INVALID_DURATION }
    ensures value { IsDurationPair duration → IsInt64OrOutOfRange (nanoseconds_in duration) result }
{
    let duration = or_error!(Int64Result, valid_duration(duration), INVALID_DURATION);
    Int64Result::from_i128(duration.whole_nanoseconds())
}

/// Returns the milliseconds past the whole seconds, truncated toward zero. For -1.5 seconds it is
/// -500.
#[unsafe(no_mangle)]
pub extern "C" fn fots_duration_subsec_milliseconds(duration: Duration) -> NumberResult
    ensures invalid_duration { ¬ IsDurationPair duration → result ≡ number_error INVALID_DURATION }
    ensures value { IsDurationPair duration
        → result ≡ number_ok (cut (subsec_nanoseconds (nanoseconds_in duration)) (pos millisecond)) }
{
    let duration = or_error!(NumberResult, valid_duration(duration), INVALID_DURATION);
    NumberResult::ok(i32::from(duration.subsec_milliseconds()))
}

/// Returns the microseconds past the whole seconds, truncated toward zero. For -1.5 seconds it is
/// -500000.
#[unsafe(no_mangle)]
pub extern "C" fn fots_duration_subsec_microseconds(duration: Duration) -> NumberResult
    ensures invalid_duration { ¬ IsDurationPair duration → result ≡ number_error INVALID_DURATION }
    ensures value { IsDurationPair duration
        → result ≡ number_ok (cut (subsec_nanoseconds (nanoseconds_in duration)) (pos microsecond)) }
{
    let duration = or_error!(NumberResult, valid_duration(duration), INVALID_DURATION);
    NumberResult::ok(duration.subsec_microseconds())
}
