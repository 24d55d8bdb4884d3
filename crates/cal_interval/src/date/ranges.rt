//! The days of an interval of dates.
ghost use Rattle.std.specs.Prelude.{◌≡◌};
ghost use Rattle.cal_interval.specs.Ranges.{IsRangeOf, error_of, ordered};

use crate::date::interval::DateInterval;
use crate::error::IntervalError;
use cal_schedule::{DateRange, PeriodError, checked_add_period, nth_period};
use cal_time::Date;

impl DateInterval {
    /// Returns the days from the start up to the end, which isn't in the range. `2024-01-01/P1M` and
    /// `P1M/2024-02-01` have the days of January 2024.
    ///
    /// A period before an end is subtracted from it: first its months, and then its days. Returns
    /// `EndBeforeStart` if the end is before the start, also for a negative period, `HasDuration`
    /// if the period has an exact duration, and `OutOfRange` if the other end is out of range.
    pub fn range(self) -> Result<DateRange, IntervalError>
        ensures { IsRangeOf self result }
    {
        match self {
            DateInterval::StartAndEnd(start, end) => ordered(start, end),
            DateInterval::StartAndPeriod(start, period) => match checked_add_period(start, period) {
                Ok(end) => ordered(start, end),
                Err(error) => Err(period_error(error)),
            },
            DateInterval::PeriodAndEnd(period, end) => match nth_period(end, period, -1) {
                Ok(start) => ordered(start, end),
                Err(error) => Err(period_error(error)),
            },
        }
    }
}

/// Returns the range from a start up to an end, or `EndBeforeStart`.
fn ordered(start: Date, end: Date) -> Result<DateRange, IntervalError>
    ensures { result ≡ ordered start end }
{
    match DateRange::new(start, end) {
        Some(range) => Ok(range),
        None => Err(IntervalError::EndBeforeStart),
    }
}

fn period_error(error: PeriodError) -> IntervalError
    ensures { result ≡ error_of error }
{
    match error {
        PeriodError::HasDuration => IntervalError::HasDuration,
        PeriodError::OutOfRange => IntervalError::OutOfRange,
    }
}
