//! Rounding to multiples of a unit. A unit is a duration, and a mode is a number.
ghost use Rattle.std.specs.Prelude.{◌≡◌, pos, ◌<ℤ◌, MatchOption, SomeIff, unsigned_abs};
ghost use Rattle.cal_c.specs.Rounding.{mode_number, IsDurationRoundedTo, IsMode, IsMomentRoundedTo, IsPairRoundedTo, IsPositiveDuration, IsRoundedDuration, IsRoundedMoment, IsRoundedPair, IsTimeRoundedTo, IsUnitOfDay};
ghost use Rattle.cal_c.specs.Values.{nanoseconds_in};

pub mod laws;

use crate::moment::valid_moment;
use crate::results::{Duration, DurationResult, Moment, MomentResult, PairResult, TimeResult};
use crate::status::{
    INVALID_DATE, INVALID_DURATION, INVALID_MOMENT, INVALID_ROUNDING_MODE, INVALID_ROUNDING_UNIT,
    INVALID_TIME, RESULT_OUT_OF_RANGE,
};
use crate::values::{valid_date, valid_duration, valid_time};
use cal_datetime::{OffsetDateTime, PlainDateTime};
use cal_rounding::{
    RoundingMode, RoundingUnit, round_date_time, round_duration, round_offset_date_time, round_time,
};
use cal_time::SignedDuration;

/// Returns the mode with a number, from 0 for `Floor` to 4 for `HalfEven`, or `None`.
pub fn valid_mode(number: u32) -> Option<RoundingMode>
    ensures { MatchOption result (¬ IsMode number)
        (λ found. IsMode number × (mode_number found ≡ number)) }
{
    match number {
        0 => Some(RoundingMode::Floor),
        1 => Some(RoundingMode::Ceil),
        2 => Some(RoundingMode::Trunc),
        3 => Some(RoundingMode::HalfCeil),
        4 => Some(RoundingMode::HalfEven),
        _ => None,
    }
}

/// Returns the unit of a duration, or `None` if it doesn't divide a day of 24 hours.
pub fn valid_rounding_unit(duration: Duration) -> Option<RoundingUnit>
    ensures { SomeIff result (IsUnitOfDay duration) (unsigned_abs (nanoseconds_in duration)) }
{
    RoundingUnit::new(valid_duration(duration)?)
}

/// Returns a positive duration, or `None` if it is invalid, negative or 0.
fn positive_duration(duration: Duration) -> Option<SignedDuration>
    ensures { SomeIff result (IsPositiveDuration duration) (nanoseconds_in duration) }
{
    let duration = valid_duration(duration)?;
    if duration.is_positive() {
        Some(duration)
    } else {
        None
    }
}

/// Rounds a time of day to a multiple of a unit since midnight, where 24:00 becomes 0:00. The unit is
/// a duration that divides a day of 24 hours. The mode is 0 for down, 1 for up, 2 for toward zero,
/// and 3 or 4 for the nearest multiple: 3 prefers the later of two, and 4 the even one. 9:07:30 to
/// 15 minutes by 3 is 9:15.
#[unsafe(no_mangle)]
pub extern "C" fn fots_time_round(time: u64, unit: Duration, mode: u32) -> TimeResult
    ensures { IsTimeRoundedTo time unit mode result }
{
    let time = or_error!(TimeResult, valid_time(time), INVALID_TIME);
    let unit = or_error!(TimeResult, valid_rounding_unit(unit), INVALID_ROUNDING_UNIT);
    let mode = or_error!(TimeResult, valid_mode(mode), INVALID_ROUNDING_MODE);
    TimeResult::ok(round_time(time, unit, mode))
}

/// Rounds the time of day of a date and a time, like `fots_time_round`, but 24:00 is the next date.
/// Fails if the result is out of range. 2024-02-29 23:50 to an hour by 3 is 2024-03-01 0:00.
#[unsafe(no_mangle)]
pub extern "C" fn fots_pair_round(date: i32, time: u64, unit: Duration, mode: u32) -> PairResult
    ensures { IsPairRoundedTo date time unit mode result }
{
    let date = or_error!(PairResult, valid_date(date), INVALID_DATE);
    let time = or_error!(PairResult, valid_time(time), INVALID_TIME);
    let unit = or_error!(PairResult, valid_rounding_unit(unit), INVALID_ROUNDING_UNIT);
    let mode = or_error!(PairResult, valid_mode(mode), INVALID_ROUNDING_MODE);
    rounded_pair(PlainDateTime::new(date, time), unit, mode)
}

/// Returns the result of a rounded local date-time.
fn rounded_pair(local: PlainDateTime, unit: RoundingUnit, mode: RoundingMode) -> PairResult
    ensures { IsRoundedPair mode unit local result }
{
    let rounded = or_error!(
        PairResult,
        round_date_time(local, unit, mode),
        RESULT_OUT_OF_RANGE
    );
    PairResult::from_option(Some((rounded.date(), rounded.time())))
}

/// Rounds the local date and time of a moment, like `fots_pair_round`, and keeps its offset. Fails
/// like it.
#[unsafe(no_mangle)]
pub extern "C" fn fots_moment_round(moment: Moment, unit: Duration, mode: u32) -> MomentResult
    ensures { IsMomentRoundedTo moment unit mode result }
{
    let moment = or_error!(MomentResult, valid_moment(moment), INVALID_MOMENT);
    let unit = or_error!(
        MomentResult,
        valid_rounding_unit(unit),
        INVALID_ROUNDING_UNIT
    );
    let mode = or_error!(MomentResult, valid_mode(mode), INVALID_ROUNDING_MODE);
    rounded_moment(moment, unit, mode)
}

/// Returns the result of a rounded date-time at an offset.
fn rounded_moment(moment: OffsetDateTime, unit: RoundingUnit, mode: RoundingMode) -> MomentResult
    ensures { IsRoundedMoment mode unit moment result }
{
    let rounded = or_error!(
        MomentResult,
        round_offset_date_time(moment, unit, mode),
        RESULT_OUT_OF_RANGE
    );
    MomentResult::ok(rounded)
}

/// Rounds a duration to a multiple of a positive duration, by a mode like `fots_time_round`. Fails if
/// the result is out of range. -90 seconds to a minute is -1 minute by 1, 2 and 3, and -2 minutes
/// by 0 and 4.
#[unsafe(no_mangle)]
pub extern "C" fn fots_duration_round(
    duration: Duration,
    unit: Duration,
    mode: u32,
) -> DurationResult
    ensures { IsDurationRoundedTo duration unit mode result }
{
    let duration = or_error!(DurationResult, valid_duration(duration), INVALID_DURATION);
    let unit = or_error!(
        DurationResult,
        positive_duration(unit),
        INVALID_ROUNDING_UNIT
    );
    let mode = or_error!(DurationResult, valid_mode(mode), INVALID_ROUNDING_MODE);
    rounded_duration(duration, unit, mode)
}

/// Returns the result of a rounded duration.
fn rounded_duration(
    duration: SignedDuration,
    unit: SignedDuration,
    mode: RoundingMode,
) -> DurationResult
    requires { pos 0 <ℤ unit }
    ensures { IsRoundedDuration mode (unsigned_abs unit) duration result }
{
    DurationResult::from_option(round_duration(duration, unit, mode))
}
