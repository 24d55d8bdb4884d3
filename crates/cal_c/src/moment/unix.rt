//! Moments as Unix times.
ghost use Rattle.std.specs.Prelude.{◌≡◌, pos, ◌+ℤ◌, ◌*ℤ◌};
ghost use Rattle.cal_time.specs.SignedDuration.{second};
ghost use Rattle.cal_datetime.specs.OffsetDateTime.{instant, unix_epoch, unix_nanoseconds, unix_seconds};
ghost use Rattle.cal_c.specs.Moments.{IsMoment, IsMomentOrError, moment_error, local_and_offset_in};
ghost use Rattle.cal_c.specs.Results.{duration_ok, duration_error, int64_ok, int64_error};
ghost use Rattle.cal_c.specs.Values.{IsDurationPair, nanoseconds_in};

use crate::moment::valid_moment;
use crate::results::{Duration, DurationResult, Int64Result, Moment, MomentResult};
use crate::status::{INVALID_DURATION, INVALID_MOMENT, TIMESTAMP_OUT_OF_RANGE};
use crate::values::valid_duration;
use cal_datetime::OffsetDateTime;
use cal_time::SignedDuration;

/// Creates a moment at UTC from Unix seconds. Returns the error `timestamp` out of range.
/// 1709247599 is 2024-02-29 22:59:59.
#[unsafe(no_mangle)]
pub extern "C" fn fots_moment_from_unix_timestamp(seconds: i64) -> MomentResult
    ensures { IsMomentOrError TIMESTAMP_OUT_OF_RANGE (unix_epoch +ℤ seconds *ℤ pos second) (pos 0) result }
{
    let moment =
        or_return!(OffsetDateTime::from_unix_timestamp(seconds), _ => MomentResult::error(TIMESTAMP_OUT_OF_RANGE));
    MomentResult::ok(moment)
}

/// Creates a moment at UTC from a Unix time. Returns the error `timestamp` out of range. Half a
/// second is 1970-01-01 0:00:00.5.
#[unsafe(no_mangle)]
pub extern "C" fn fots_moment_from_unix_time(duration: Duration) -> MomentResult
    ensures invalid_duration { ¬ IsDurationPair duration → result ≡ moment_error INVALID_DURATION }
    ensures value { IsDurationPair duration
        → IsMomentOrError TIMESTAMP_OUT_OF_RANGE (unix_epoch +ℤ nanoseconds_in duration) (pos 0) result }
{
    let duration = or_error!(MomentResult, valid_duration(duration), INVALID_DURATION);
    moment_at_unix_time(duration)
}

/// Creates a moment at UTC from a Unix time.
fn moment_at_unix_time(duration: SignedDuration) -> MomentResult
    ensures { IsMomentOrError TIMESTAMP_OUT_OF_RANGE (unix_epoch +ℤ duration) (pos 0) result }
{
    let moment =
        or_return!(OffsetDateTime::from_unix_timestamp_nanos(duration.whole_nanoseconds()), _ => MomentResult::error(TIMESTAMP_OUT_OF_RANGE));
    MomentResult::ok(moment)
}

/// Returns the Unix timestamp in seconds, rounded down. Half a second before 1970 it is -1.
#[unsafe(no_mangle)]
pub extern "C" fn fots_moment_unix_timestamp(moment: Moment) -> Int64Result
    ensures invalid_moment { ¬ IsMoment moment → result ≡ int64_error INVALID_MOMENT }
    ensures value { IsMoment moment → result
        ≡ int64_ok (unix_seconds (instant (local_and_offset_in moment))) }
{
    let moment = or_error!(Int64Result, valid_moment(moment), INVALID_MOMENT);
    Int64Result::ok(moment.unix_timestamp())
}

/// Returns the Unix time, exact to the nanosecond. Half a second before 1970 it is 0 seconds and
/// -500000000 nanoseconds.
#[unsafe(no_mangle)]
pub extern "C" fn fots_moment_unix_time(moment: Moment) -> DurationResult
    ensures invalid_moment { ¬ IsMoment moment → result ≡ duration_error INVALID_MOMENT }
    ensures value { IsMoment moment → result
        ≡ duration_ok (unix_nanoseconds (instant (local_and_offset_in moment))) }
{
    let moment = or_error!(DurationResult, valid_moment(moment), INVALID_MOMENT);
    DurationResult::ok(moment - OffsetDateTime::unix_epoch())
}
