//! Moments plus and minus durations, comparison, and the durations between moments.
ghost use Rattle.std.specs.Prelude.{◌≡◌, pos, neg_ℤ, ◌+ℤ◌, ◌-ℤ◌, ◌*ℤ◌, ◌<ℤ◌};
ghost use Rattle.cal_time.specs.SignedDuration.{day};
ghost use Rattle.cal_time.specs.Time.{IsTime};
ghost use Rattle.cal_datetime.specs.DateTime.{clamped_date_time};
ghost use Rattle.cal_datetime.specs.OffsetDateTime.{instant};
ghost use Rattle.cal_c.specs.Moments.{IsMoment, IsMomentOrError, local_in, moment_ok, moment_error, local_and_offset_in};
ghost use Rattle.cal_c.specs.Results.{duration_ok, duration_error, number_ok, number_error};
ghost use Rattle.cal_c.specs.Values.{need◌else◌then◌, IsDurationPair, day_of, nanoseconds_in};

use crate::day_number::later_day;
use crate::moment::{valid_moment, valid_time_of};
use crate::results::{Duration, DurationResult, Moment, MomentResult, NumberResult};
use crate::status::{INVALID_DURATION, INVALID_MOMENT, OK, RESULT_OUT_OF_RANGE};
use crate::values::{days_of, nanoseconds_since_midnight, valid_duration};
use cal_time::Time;

/// Adds a duration and keeps the offset. Fails if the local result is out of range. 2 hours after
/// 2024-02-29 23:59 +01:00 it is 2024-03-01 1:59 +01:00.
#[unsafe(no_mangle)]
pub extern "C" fn fots_moment_checked_add(moment: Moment, duration: Duration) -> MomentResult
    ensures { need IsMoment moment else result ≡ moment_error INVALID_MOMENT then
        need IsDurationPair duration else result ≡ moment_error INVALID_DURATION then
        IsMomentOrError RESULT_OUT_OF_RANGE (local_in moment +ℤ nanoseconds_in duration) moment.offset result }
{
    let time = or_error!(MomentResult, valid_time_of(moment), INVALID_MOMENT);
    let duration = or_error!(MomentResult, valid_duration(duration), INVALID_DURATION);
    let (adjustment, time) = time.adjusting_add(duration);
    let days = duration.whole_days() + i64::from(days_of(adjustment));
    at_later_day(moment, days, time)
}

/// Subtracts a duration and keeps the offset. Fails if the local result is out of range. 2 hours
/// before 2024-03-01 1:59 +01:00 it is 2024-02-29 23:59 +01:00.
#[unsafe(no_mangle)]
pub extern "C" fn fots_moment_checked_sub(moment: Moment, duration: Duration) -> MomentResult
    ensures { need IsMoment moment else result ≡ moment_error INVALID_MOMENT then
        need IsDurationPair duration else result ≡ moment_error INVALID_DURATION then
        IsMomentOrError RESULT_OUT_OF_RANGE (local_in moment -ℤ nanoseconds_in duration) moment.offset result }
{
    let time = or_error!(MomentResult, valid_time_of(moment), INVALID_MOMENT);
    let duration = or_error!(MomentResult, valid_duration(duration), INVALID_DURATION);
    let (adjustment, time) = time.adjusting_sub(duration);
    let days = i64::from(days_of(adjustment)) - duration.whole_days();
    at_later_day(moment, days, time)
}

/// Returns the moment some days later at a time of day, and fails if the day is out of range.
fn at_later_day(moment: Moment, days: i64, time: Time) -> MomentResult
    requires moment { IsMoment moment }
    requires time { IsTime time }
    ensures { IsMomentOrError RESULT_OUT_OF_RANGE ((pos (day_of moment.date) +ℤ days) *ℤ pos day +ℤ pos time) moment.offset result }
{
    let date = or_return!(
        later_day(moment.date, days),
        MomentResult::error(RESULT_OUT_OF_RANGE)
    );
    MomentResult {
        status: OK,
        unused: 0,
        moment: Moment {
            date,
            offset: moment.offset,
            time: nanoseconds_since_midnight(time),
        },
    }
}

/// Adds a duration and keeps the offset. A local result out of range is clamped to the first or the
/// last date and time at the offset.
#[unsafe(no_mangle)]
pub extern "C" fn fots_moment_saturating_add(moment: Moment, duration: Duration) -> MomentResult
    ensures invalid_moment { ¬ IsMoment moment → result ≡ moment_error INVALID_MOMENT }
    ensures invalid_duration { IsMoment moment → ¬ IsDurationPair duration
        → result ≡ moment_error INVALID_DURATION }
    ensures value { IsMoment moment → IsDurationPair duration
        → result ≡ moment_ok (record {
          local = clamped_date_time (local_in moment +ℤ nanoseconds_in duration);
          offset = moment.offset;
        }) }
{
    let moment = or_error!(MomentResult, valid_moment(moment), INVALID_MOMENT);
    let duration = or_error!(MomentResult, valid_duration(duration), INVALID_DURATION);
    MomentResult::ok(moment.saturating_add(duration))
}

/// Subtracts a duration and keeps the offset. A local result out of range is clamped to the first
/// or the last date and time at the offset.
#[unsafe(no_mangle)]
pub extern "C" fn fots_moment_saturating_sub(moment: Moment, duration: Duration) -> MomentResult
    ensures invalid_moment { ¬ IsMoment moment → result ≡ moment_error INVALID_MOMENT }
    ensures invalid_duration { IsMoment moment → ¬ IsDurationPair duration
        → result ≡ moment_error INVALID_DURATION }
    ensures value { IsMoment moment → IsDurationPair duration
        → result ≡ moment_ok (record {
          local = clamped_date_time (local_in moment -ℤ nanoseconds_in duration);
          offset = moment.offset;
        }) }
{
    let moment = or_error!(MomentResult, valid_moment(moment), INVALID_MOMENT);
    let duration = or_error!(MomentResult, valid_duration(duration), INVALID_DURATION);
    MomentResult::ok(moment.saturating_sub(duration))
}

/// Returns the duration from the instant of `other` to the instant of `moment`, negative if `other`
/// is later. From 2024-02-29 0:00 +01:00 to 2024-02-29 0:00 at UTC it is 1 hour.
#[unsafe(no_mangle)]
pub extern "C" fn fots_moment_duration_since(moment: Moment, other: Moment) -> DurationResult
    ensures invalid_moment { ¬ (IsMoment moment × IsMoment other)
        → result ≡ duration_error INVALID_MOMENT }
    ensures value { IsMoment moment → IsMoment other
        → result ≡ duration_ok (instant (local_and_offset_in moment) -ℤ instant (local_and_offset_in other)) }
{
    let moment = or_error!(DurationResult, valid_moment(moment), INVALID_MOMENT);
    let other = or_error!(DurationResult, valid_moment(other), INVALID_MOMENT);
    DurationResult::ok(moment - other)
}

/// Compares two moments by instant. Returns -1 for earlier, 0 for equal, 1 for later. For 1:00
/// +01:00 and 0:00 at UTC on the same date it is 0.
#[unsafe(no_mangle)]
pub extern "C" fn fots_moment_compare(moment: Moment, other: Moment) -> NumberResult
    ensures invalid_moment { ¬ (IsMoment moment × IsMoment other) → result ≡ number_error INVALID_MOMENT }
    ensures less { IsMoment moment → IsMoment other
        → instant (local_and_offset_in moment) <ℤ instant (local_and_offset_in other)
        → result ≡ number_ok (neg_ℤ (pos 1)) }
    ensures equal { IsMoment moment → IsMoment other
        → instant (local_and_offset_in moment) ≡ instant (local_and_offset_in other)
        → result ≡ number_ok (pos 0) }
    ensures greater { IsMoment moment → IsMoment other
        → instant (local_and_offset_in other) <ℤ instant (local_and_offset_in moment)
        → result ≡ number_ok (pos 1) }
{
    let moment = or_error!(NumberResult, valid_moment(moment), INVALID_MOMENT);
    let other = or_error!(NumberResult, valid_moment(other), INVALID_MOMENT);
    if moment < other {
        NumberResult::ok(-1)
    } else if other < moment {
        NumberResult::ok(1)
    } else {
        NumberResult::ok(0)
    }
}
