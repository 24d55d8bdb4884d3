//! The range of an interval of local date-times.
ghost use Rattle.std.specs.Prelude.{◌≡◌};
ghost use Rattle.cal_interval.specs.DateTimeRanges.{IsDateTimeRangeOf, ordered};

use crate::error::IntervalError;
use crate::plain::interval::DateTimeInterval;
use crate::plain::range::DateTimeRange;
use cal_datetime::PlainDateTime;
use cal_zoned::{checked_add_period, nth_period};

impl DateTimeInterval {
    /// Returns the date-times from the start up to the end, which isn't in the range.
    /// `2024-01-31T08:00/P1M` ends at 2024-02-29 8:00.
    ///
    /// A period before an end is subtracted from it: first its months, then its days and then its
    /// exact duration. Returns `EndBeforeStart` if the end is before the start, also for a negative
    /// period, and `OutOfRange` if the other end is out of range.
    pub fn range(self) -> Result<DateTimeRange, IntervalError>
        ensures { IsDateTimeRangeOf self result }
    {
        match self {
            DateTimeInterval::StartAndEnd(start, end) => ordered(start, end),
            DateTimeInterval::StartAndPeriod(start, period) => {
                match checked_add_period(start, period) {
                    Some(end) => ordered(start, end),
                    None => Err(IntervalError::OutOfRange),
                }
            }
            DateTimeInterval::PeriodAndEnd(period, end) => match nth_period(end, period, -1) {
                Some(start) => ordered(start, end),
                None => Err(IntervalError::OutOfRange),
            },
        }
    }
}

/// Returns the range from a start up to an end, or `EndBeforeStart`.
fn ordered(start: PlainDateTime, end: PlainDateTime) -> Result<DateTimeRange, IntervalError>
    ensures { result ≡ ordered start end }
{
    match DateTimeRange::new(start, end) {
        Some(range) => Ok(range),
        None => Err(IntervalError::EndBeforeStart),
    }
}
