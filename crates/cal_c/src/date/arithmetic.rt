//! Dates plus and minus days, and the durations between dates.
ghost use Rattle.std.specs.Prelude.{◌≡◌, pos, ◌+ℤ◌, ◌-ℤ◌, ◌*ℤ◌};
ghost use Rattle.cal_time.specs.SignedDuration.{day, whole_days};
ghost use Rattle.cal_c.specs.Columns.{IsDateDaysLater};
ghost use Rattle.cal_c.specs.Results.{IsDateOrOutOfRange, date_ok, date_error, duration_ok, duration_error};
ghost use Rattle.cal_c.specs.Values.{need◌else◌then◌, IsJulianDay, clamped_julian_day, IsDurationPair, nanoseconds_in};

use crate::day_number::{
    checked_add_days, checked_sub_days, duration_between, is_julian_day, saturating_add_days,
    saturating_sub_days,
};
use crate::results::{DateResult, Duration, DurationResult};
use crate::status::{INVALID_DATE, INVALID_DURATION};
use crate::values::valid_duration;

/// Returns the next day. Fails for the last day, 366963559. After 2451604 it is 2451605.
#[unsafe(no_mangle)]
pub extern "C" fn fots_date_next_day(date: i32) -> DateResult
    ensures invalid_date { ¬ IsJulianDay date → result ≡ date_error INVALID_DATE }
    ensures value { IsJulianDay date → IsDateOrOutOfRange (date +ℤ pos 1) result }
{
    if !is_julian_day(date) {
        return DateResult::error(INVALID_DATE);
    }
    checked_add_days(date, 1)
}

/// Returns the previous day. Fails for the first day, -363521074. Before 2451604 it is 2451603.
#[unsafe(no_mangle)]
pub extern "C" fn fots_date_previous_day(date: i32) -> DateResult
    ensures invalid_date { ¬ IsJulianDay date → result ≡ date_error INVALID_DATE }
    ensures value { IsJulianDay date → IsDateOrOutOfRange (date -ℤ pos 1) result }
{
    if !is_julian_day(date) {
        return DateResult::error(INVALID_DATE);
    }
    checked_sub_days(date, 1)
}

/// Adds the whole days of a duration, truncated toward zero. Fails if the result is out of range.
/// 2020-12-31 plus 47 hours is 2021-01-01.
#[unsafe(no_mangle)]
pub extern "C" fn fots_date_checked_add(date: i32, duration: Duration) -> DateResult
    ensures { need IsJulianDay date else result ≡ date_error INVALID_DATE then
        need IsDurationPair duration else result ≡ date_error INVALID_DURATION then
        IsDateOrOutOfRange (date +ℤ whole_days (nanoseconds_in duration)) result }
{
    if !is_julian_day(date) {
        return DateResult::error(INVALID_DATE);
    }
    let duration = or_error!(DateResult, valid_duration(duration), INVALID_DURATION);
    checked_add_days(date, duration.whole_days())
}

/// Adds the whole days of a duration, truncated toward zero. A result out of range is clamped.
#[unsafe(no_mangle)]
pub extern "C" fn fots_date_saturating_add(date: i32, duration: Duration) -> DateResult
    ensures { need IsJulianDay date else result ≡ date_error INVALID_DATE then
        need IsDurationPair duration else result ≡ date_error INVALID_DURATION then
        result ≡ date_ok (clamped_julian_day (date +ℤ whole_days (nanoseconds_in duration))) }
{
    if !is_julian_day(date) {
        return DateResult::error(INVALID_DATE);
    }
    let duration = or_error!(DateResult, valid_duration(duration), INVALID_DURATION);
    saturating_add_days(date, duration.whole_days())
}

/// Subtracts the whole days of a duration, truncated toward zero. Fails if the result is out of
/// range. 2020-12-31 minus 47 hours is 2020-12-30.
#[unsafe(no_mangle)]
pub extern "C" fn fots_date_checked_sub(date: i32, duration: Duration) -> DateResult
    ensures { need IsJulianDay date else result ≡ date_error INVALID_DATE then
        need IsDurationPair duration else result ≡ date_error INVALID_DURATION then
        IsDateOrOutOfRange (date -ℤ whole_days (nanoseconds_in duration)) result }
{
    if !is_julian_day(date) {
        return DateResult::error(INVALID_DATE);
    }
    let duration = or_error!(DateResult, valid_duration(duration), INVALID_DURATION);
    checked_sub_days(date, duration.whole_days())
}

/// Subtracts the whole days of a duration, truncated toward zero. A result out of range is clamped.
#[unsafe(no_mangle)]
pub extern "C" fn fots_date_saturating_sub(date: i32, duration: Duration) -> DateResult
    ensures { need IsJulianDay date else result ≡ date_error INVALID_DATE then
        need IsDurationPair duration else result ≡ date_error INVALID_DURATION then
        result ≡ date_ok (clamped_julian_day (date -ℤ whole_days (nanoseconds_in duration))) }
{
    if !is_julian_day(date) {
        return DateResult::error(INVALID_DATE);
    }
    let duration = or_error!(DateResult, valid_duration(duration), INVALID_DURATION);
    saturating_sub_days(date, duration.whole_days())
}

/// Adds days, or subtracts them if the number is negative. Fails if the result is out of range. 366
/// days after 2451604 is 2451970.
#[unsafe(no_mangle)]
pub extern "C" fn fots_date_add_days(date: i32, days: i64) -> DateResult
    ensures { IsDateDaysLater date days result }
{
    if !is_julian_day(date) {
        return DateResult::error(INVALID_DATE);
    }
    checked_add_days(date, days)
}

/// Returns the duration from `other` to `date`, negative if `other` is later. From 2451545 to
/// 2451604 it is 5097600 seconds.
#[unsafe(no_mangle)]
pub extern "C" fn fots_date_duration_since(date: i32, other: i32) -> DurationResult
    ensures invalid_date { ¬ (IsJulianDay date × IsJulianDay other)
        → result ≡ duration_error INVALID_DATE }
    ensures value { IsJulianDay date → IsJulianDay other
        → result ≡ duration_ok ((date -ℤ other) *ℤ pos day) }
{
    if !is_julian_day(date) || !is_julian_day(other) {
        return DurationResult::error(INVALID_DATE);
    }
    DurationResult::ok(duration_between(other, date))
}
