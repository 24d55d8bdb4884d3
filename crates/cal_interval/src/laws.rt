//! Consequences of the contracts: a string has at most one value, and an interval has at most one
//! range.
ghost use Rattle.std.specs.Prelude.{◌≡◌, ℕ, Option, Result};
ghost use Rattle.cal_schedule.specs.Ranges.{Range};
ghost use Rattle.cal_interval.specs.declared.error.IntervalError.{IntervalError};
ghost use Rattle.cal_interval.specs.declared.date.interval.DateInterval.{DateInterval};
ghost use Rattle.cal_interval.specs.declared.plain.interval.DateTimeInterval.{DateTimeInterval};
ghost use Rattle.cal_interval.specs.DateTimeRanges as date_times;
ghost use Rattle.cal_interval.specs.Ranges.{IsRangeOf};
ghost use Rattle.cal_interval.specs.Values.{IsDateIntervalText, IsDateTimeIntervalText, IsRepeatedDateTimesText, IsRepeatedDatesText};

use crate::date::DateInterval;
use crate::error::ParseIntervalError;
use crate::plain::DateTimeInterval;
use crate::{date, plain};
use cal_schedule::{checked_add_period, nth_period};

/// Parses an interval of dates. A string is parsed as at most one.
pub(crate) fn one_date_interval(text: &[u8]) -> Result<DateInterval, ParseIntervalError>
    ensures { (v w : DateInterval) → IsDateIntervalText text.now v → IsDateIntervalText text.now w
        → v ≡ w }
{
    date::parse(text)
}

/// Parses an interval of local date-times. A string is parsed as at most one.
pub(crate) fn one_date_time_interval(text: &[u8]) -> Result<DateTimeInterval, ParseIntervalError>
    ensures { (v w : DateTimeInterval) → IsDateTimeIntervalText text.now v
        → IsDateTimeIntervalText text.now w → v ≡ w }
{
    plain::parse(text)
}

/// Parses a repeated interval of dates. A string is parsed as at most one.
pub(crate) fn one_repeated_dates(
    text: &[u8],
) -> Result<(Option<u64>, DateInterval), ParseIntervalError>
    ensures { (v w : Option ℕ × DateInterval) → IsRepeatedDatesText text.now v
        → IsRepeatedDatesText text.now w → v ≡ w }
{
    date::parse_repeated(text)
}

/// Parses a repeated interval of local date-times. A string is parsed as at most one.
pub(crate) fn one_repeated_date_times(
    text: &[u8],
) -> Result<(Option<u64>, DateTimeInterval), ParseIntervalError>
    ensures { (v w : Option ℕ × DateTimeInterval) → IsRepeatedDateTimesText text.now v
        → IsRepeatedDateTimesText text.now w → v ≡ w }
{
    plain::parse_repeated(text)
}

/// Proves that an interval of dates has one range or one error.
pub fn one_range(interval: DateInterval)
    ensures { (a b : Result Range IntervalError) → IsRangeOf interval a → IsRangeOf interval b
        → a ≡ b }
{
    match interval {
        DateInterval::StartAndEnd(_, _) => {}
        DateInterval::StartAndPeriod(start, period) => {
            let _ = checked_add_period(start, period);
        }
        DateInterval::PeriodAndEnd(period, end) => {
            let _ = nth_period(end, period, -1);
        }
    }
}

/// Proves that an interval of local date-times has one range or one error.
pub fn one_date_time_range(interval: DateTimeInterval)
    ensures { (a b : Result date_times.Range IntervalError)
        → date_times.IsDateTimeRangeOf interval a → date_times.IsDateTimeRangeOf interval b
        → a ≡ b }
{
    match interval {
        DateTimeInterval::StartAndEnd(_, _) => {}
        DateTimeInterval::StartAndPeriod(start, period) => {
            let _ = cal_zoned::checked_add_period(start, period);
        }
        DateTimeInterval::PeriodAndEnd(period, end) => {
            let _ = cal_zoned::nth_period(end, period, -1);
        }
    }
}
