//! Ranges of days, and of dates and times, by their ends or a period.
ghost use Rattle.std.specs.Prelude.{◌≡◌};
ghost use Rattle.cal_text.specs.Position.{HasSome};
ghost use Rattle.cal_interval.specs.DateTimeRanges.{IsDateTimeRangeOf};
ghost use Rattle.cal_interval.specs.Form.{HasDateInterval, HasDateTimeInterval};
ghost use Rattle.cal_interval.specs.Parsing.{HasError};
ghost use Rattle.cal_interval.specs.Values.{IsDateIntervalError, IsDateIntervalText, IsDateTimeIntervalError, IsDateTimeIntervalText};
ghost use Rattle.cal_interval.specs.declared.date.interval.DateInterval.{DateInterval};
ghost use Rattle.cal_interval.specs.declared.error.IntervalComponent.{IntervalComponent};
ghost use Rattle.cal_interval.specs.declared.plain.interval.DateTimeInterval.{DateTimeInterval};
ghost use Rattle.cal_c.specs.Intervals.{interval_part_status, of_interval_error, parsed_pairs_error_at, parsed_pairs_ok, parsed_range_error_at, parsed_range_ok, IsPairRangeResult, IsRangeResult};
ghost use Rattle.cal_c.specs.Texts.{no_position, IsSyntaxError};

use super::{interval_status, part_status};
use crate::status::{OK, UNEXPECTED_BYTE, UNEXPECTED_END};
use crate::values::nanoseconds_since_midnight;
use cal_interval::ParseIntervalError;
use cal_interval::date::{self, DateInterval};
use cal_interval::plain::{self, DateTimeInterval, DateTimeRange};
use cal_schedule::DateRange;

/// A parsed range of days, or a position as for a date. After an error its dates are `i32::MIN`. The
/// unused number is 0.
#[repr(C)]
#[derive(Clone, Copy, Debug)]
pub struct ParseDateRangeResult {
    pub status: i32,
    pub start: i32,
    pub end: i32,
    pub unused: u32,
    pub position: usize,
}

/// A parsed range of local date-times, or a position as for a date. After an error its dates are
/// `i32::MIN`, and its times `u64::MAX`. The unused number is 0.
#[repr(C)]
#[derive(Clone, Copy, Debug)]
pub struct ParsePairRangeResult {
    pub status: i32,
    pub start_date: i32,
    pub start_time: u64,
    pub end_time: u64,
    pub end_date: i32,
    pub unused: u32,
    pub position: usize,
}

impl ParseDateRangeResult {
    fn ok(range: DateRange) -> Self
        ensures { result ≡ parsed_range_ok range }
    {
        ParseDateRangeResult {
            status: OK,
            start: range.start().to_julian_day(),
            end: range.end().to_julian_day(),
            unused: 0,
            position: usize::MAX,
        }
    }

    fn error(error: ParseIntervalError) -> Self
        ensures { result ≡ of_interval_error parsed_range_error_at error }
    {
        interval_error_result!(error)
    }

    fn error_at(status: i32, position: usize) -> Self
        ensures { result ≡ parsed_range_error_at status position }
    {
        ParseDateRangeResult {
            status,
            start: i32::MIN,
            end: i32::MIN,
            unused: 0,
            position,
        }
    }
}

impl ParsePairRangeResult {
    fn ok(range: DateTimeRange) -> Self
        ensures { result ≡ parsed_pairs_ok range }
    {
        ParsePairRangeResult {
            status: OK,
            start_date: range.start().date().to_julian_day(),
            start_time: nanoseconds_since_midnight(range.start().time()),
            end_time: nanoseconds_since_midnight(range.end().time()),
            end_date: range.end().date().to_julian_day(),
            unused: 0,
            position: usize::MAX,
        }
    }

    fn error(error: ParseIntervalError) -> Self
        ensures { result ≡ of_interval_error parsed_pairs_error_at error }
    {
        interval_error_result!(error)
    }

    fn error_at(status: i32, position: usize) -> Self
        ensures { result ≡ parsed_pairs_error_at status position }
    {
        ParsePairRangeResult {
            status,
            start_date: i32::MIN,
            start_time: u64::MAX,
            end_time: u64::MAX,
            end_date: i32::MIN,
            unused: 0,
            position,
        }
    }
}

/// Parses an interval of dates, such as `2024-01-01/2024-02-01`, `2024-01-01/P1M` or
/// `P1M/2024-02-01`, and returns its days up to the end. Fails if the end is before the start, if
/// the period has a duration, and if the other end is out of range. Each of the three has the days
/// of January 2024.
#[unsafe(no_mangle)]
pub extern "C" fn fots_date_interval_parse(text: &[u8]) -> ParseDateRangeResult
    ensures value { (v : DateInterval) → IsDateIntervalText text.now v → IsRangeResult v result }
    ensures syntax_error { ¬ HasSome HasDateInterval text.now
        → IsSyntaxError (HasSome HasDateInterval) text.now parsed_range_error_at result }
    ensures out_of_range { (why : IntervalComponent)
        → HasError HasDateInterval IsDateIntervalError text.now why
        → result ≡ parsed_range_error_at (interval_part_status why) no_position }
{
    let interval = or_return!(date::parse(text), error => ParseDateRangeResult::error(error));
    range_result(interval)
}

/// Returns the result of the days of an interval.
fn range_result(interval: DateInterval) -> ParseDateRangeResult
    ensures { IsRangeResult interval result }
{
    match interval.range() {
        Ok(range) => ParseDateRangeResult::ok(range),
        Err(error) => ParseDateRangeResult::error_at(interval_status(error), usize::MAX),
    }
}

/// Parses an interval of dates and times, such as `2024-01-01T08:00/2024-01-01T09:30`,
/// `2024-01-01T08:00/PT90M` or `PT90M/2024-01-01T09:30`, and returns its ends. Fails if the end is
/// before the start, and if the other end is out of range. Each of the three is from 8:00 to 9:30.
#[unsafe(no_mangle)]
pub extern "C" fn fots_pair_interval_parse(text: &[u8]) -> ParsePairRangeResult
    ensures value { (v : DateTimeInterval) → IsDateTimeIntervalText text.now v
        → IsPairRangeResult v result }
    ensures syntax_error { ¬ HasSome HasDateTimeInterval text.now
        → IsSyntaxError (HasSome HasDateTimeInterval) text.now parsed_pairs_error_at result }
    ensures out_of_range { (why : IntervalComponent)
        → HasError HasDateTimeInterval IsDateTimeIntervalError text.now why
        → result ≡ parsed_pairs_error_at (interval_part_status why) no_position }
{
    let interval = or_return!(plain::parse(text), error => ParsePairRangeResult::error(error));
    pairs_result(interval)
}

/// Returns the result of the ends of an interval.
fn pairs_result(interval: DateTimeInterval) -> ParsePairRangeResult
    ensures { IsPairRangeResult interval result }
{
    match interval.range() {
        Ok(range) => ParsePairRangeResult::ok(range),
        Err(error) => ParsePairRangeResult::error_at(interval_status(error), usize::MAX),
    }
}
