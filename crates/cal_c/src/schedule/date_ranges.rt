//! Ranges of days.
ghost use Rattle.std.specs.Prelude.{◌≡◌, SomeIff, pos};
ghost use Rattle.cal_schedule.specs.Ranges.{common_days, day_count, meet, HasCommonDay, IsIn};
ghost use Rattle.cal_c.specs.DateRanges.{date_range_error, date_range_ok, range_in, share_error, share_ok, IsRange, IsYesNo};
ghost use Rattle.cal_c.specs.Results.{number_error, number_ok};
ghost use Rattle.cal_c.specs.Values.{need◌else◌then◌, IsJulianDay, day_of};

use crate::results::NumberResult;
use crate::status::{INVALID_DATE, INVALID_RANGE, OK, RESULT_OUT_OF_RANGE};
use crate::values::valid_date;
use cal_schedule::DateRange;

/// The days from a date up to another, which isn't in the range.
#[repr(C)]
#[derive(Clone, Copy, Debug)]
pub struct DateRangeParts {
    pub start: i32,
    pub end: i32,
}

/// A result with a range of days. After an error its dates are `i32::MIN`.
#[repr(C)]
#[derive(Clone, Copy, Debug)]
pub struct DateRangeResult {
    pub status: i32,
    pub start: i32,
    pub end: i32,
}

/// A result with the number of days of a range that are in another one, and the number of its days.
/// After an error they are 0.
#[repr(C)]
#[derive(Clone, Copy, Debug)]
pub struct ShareResult {
    pub status: i32,
    pub common: u32,
    pub days: u32,
}

impl DateRangeResult {
    fn ok(range: DateRange) -> Self
        ensures { result ≡ date_range_ok range }
    {
        DateRangeResult {
            status: OK,
            start: range.start().to_julian_day(),
            end: range.end().to_julian_day(),
        }
    }

    fn error(status: i32) -> Self
        ensures { result ≡ date_range_error status }
    {
        DateRangeResult {
            status,
            start: i32::MIN,
            end: i32::MIN,
        }
    }
}

impl ShareResult {
    fn error(status: i32) -> Self
        ensures { result ≡ share_error status }
    {
        ShareResult {
            status,
            common: 0,
            days: 0,
        }
    }
}

/// Returns the range of its two dates, or `None` if one is invalid, or if the end is before the
/// start.
fn valid_range(range: DateRangeParts) -> Option<DateRange>
    ensures { SomeIff result (IsRange range) (range_in range) }
{
    let start = valid_date(range.start)?;
    let end = valid_date(range.end)?;
    DateRange::new(start, end)
}

/// Returns 1 if a date is in a range, else 0. For 2451604 and the range of 2451604 and 2451605 it is
/// 1.
#[unsafe(no_mangle)]
pub extern "C" fn fots_date_range_contains(range: DateRangeParts, date: i32) -> NumberResult
    ensures { need IsRange range else result ≡ number_error INVALID_RANGE then
        need IsJulianDay date else result ≡ number_error INVALID_DATE then
        IsYesNo (IsIn (range_in range) (day_of date)) result }
{
    let range = or_error!(NumberResult, valid_range(range), INVALID_RANGE);
    let date = or_error!(NumberResult, valid_date(date), INVALID_DATE);
    NumberResult::ok(i32::from(range.contains(date)))
}

/// Returns 1 if a day is in both ranges, else 0.
#[unsafe(no_mangle)]
pub extern "C" fn fots_date_range_overlaps(
    range: DateRangeParts,
    other: DateRangeParts,
) -> NumberResult
    ensures { need IsRange range else result ≡ number_error INVALID_RANGE then
        need IsRange other else result ≡ number_error INVALID_RANGE then
        IsYesNo (HasCommonDay (range_in range) (range_in other)) result }
{
    let range = or_error!(NumberResult, valid_range(range), INVALID_RANGE);
    let other = or_error!(NumberResult, valid_range(other), INVALID_RANGE);
    NumberResult::ok(i32::from(range.overlaps(other)))
}

/// Returns the number of days. For the range of 2451604 and 2451635 it is 31.
#[unsafe(no_mangle)]
pub extern "C" fn fots_date_range_length(range: DateRangeParts) -> NumberResult
    ensures { need IsRange range else result ≡ number_error INVALID_RANGE then
        result ≡ number_ok (pos (day_count (range_in range))) }
{
    let range = or_error!(NumberResult, valid_range(range), INVALID_RANGE);
    NumberResult::ok(range.len() as i32)
}

/// Returns the days that are in both ranges. Fails if no day is in both.
#[unsafe(no_mangle)]
pub extern "C" fn fots_date_range_intersection(
    range: DateRangeParts,
    other: DateRangeParts,
) -> DateRangeResult
    ensures { need IsRange range else result ≡ date_range_error INVALID_RANGE then
        need IsRange other else result ≡ date_range_error INVALID_RANGE then
        need HasCommonDay (range_in range) (range_in other)
        else result ≡ date_range_error RESULT_OUT_OF_RANGE then
        result ≡ date_range_ok (meet (range_in range) (range_in other)) }
{
    let range = or_error!(DateRangeResult, valid_range(range), INVALID_RANGE);
    let other = or_error!(DateRangeResult, valid_range(other), INVALID_RANGE);
    let common = or_error!(
        DateRangeResult,
        range.intersection(other),
        RESULT_OUT_OF_RANGE
    );
    DateRangeResult::ok(common)
}

/// Returns how many days of a range are in another one, and how many days it has. For the ranges of
/// 2451604 and 2451635, and of 2451625 and 2451665, they are 10 and 31.
#[unsafe(no_mangle)]
pub extern "C" fn fots_date_range_share(range: DateRangeParts, other: DateRangeParts) -> ShareResult
    ensures { need IsRange range else result ≡ share_error INVALID_RANGE then
        need IsRange other else result ≡ share_error INVALID_RANGE then
        result ≡ share_ok (common_days (range_in range) (range_in other))
        (day_count (range_in range)) }
{
    let range = or_error!(ShareResult, valid_range(range), INVALID_RANGE);
    let other = or_error!(ShareResult, valid_range(other), INVALID_RANGE);
    let (common, days) = range.share(other);
    ShareResult {
        status: OK,
        common,
        days,
    }
}
