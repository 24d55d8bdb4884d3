//! Periods repeated from a local date-time.
ghost use Rattle.std.specs.Prelude.{◌≡◌, ℤ, IfErr, IfOk, IfSome, Some};
ghost use Rattle.cal_datetime.specs.DateTime.{IsDateTime};
ghost use Rattle.cal_zoned.specs.Period.{IsNthLater};
ghost use Rattle.cal_zoned.specs.Steps.{IsPositive};
ghost use Rattle.cal_interval.specs.DateTimeRepeats.{AreRepeatedExactly, IsEndsError, IsIntervalError, IsIntervalRepeated, IsPeriodError};
ghost use Rattle.cal_interval.specs.Repeats.{AreRepeated, IsOccurrence, IsRepeatError, IsRepeatOf};

use crate::error::IntervalError;
use crate::period::{is_occurrence, occurrences};
use crate::plain::interval::DateTimeInterval;
use cal_datetime::PlainDateTime;
use cal_schedule::Period;
use cal_zoned::{Steps, nth_period};

/// A period repeated from a start, with a number of occurrences or without an end. The first
/// occurrence is the start, and each later one is counted from the start: in steps of a month,
/// 2024-01-31 9:00 is followed by 29 February 9:00 and 31 March 9:00.
#[derive(Clone, Copy, Debug, PartialEq, Eq)]
pub struct RepeatedDateTimes {
    /// The first occurrence.
    pub start: PlainDateTime,
    /// The period from one occurrence to the next.
    pub period: Period,
    /// The number of occurrences, or `None` without an end.
    pub count: Option<u32>,
}

impl RepeatedDateTimes {
    /// Creates the repetition of an interval, with a number of occurrences or without an end. An
    /// interval with an end is repeated by its exact duration.
    ///
    /// Returns `CountOutOfRange` if the number of occurrences isn't from 1 to 4294967295,
    /// `MissingStart` if the interval has no start, `EndBeforeStart`, and `NotPositive` if the period
    /// is zero or negative.
    pub fn new(count: Option<u64>, interval: DateTimeInterval) -> Result<Self, IntervalError>
        ensures value { IfOk result (IsRepeatOf IsIntervalRepeated count interval) }
        ensures error { IfErr result (IsRepeatError IsIntervalError count interval) }
    {
        let Some(count) = occurrences(count) else {
            return Err(IntervalError::CountOutOfRange);
        };
        match interval {
            DateTimeInterval::StartAndPeriod(start, period) => repeated(start, period, count),
            DateTimeInterval::StartAndEnd(start, end) => repeated_exactly(start, end, count),
            DateTimeInterval::PeriodAndEnd(_, _) => Err(IntervalError::MissingStart),
        }
    }

    /// Returns the occurrence with this number, from 0 on. Returns `None` if the number is negative
    /// or not less than the number of occurrences, or if the date-time is out of range.
    pub fn nth(self, n: i32) -> Option<PlainDateTime>
        ensures every { (r : ℤ) → IsDateTime r → IsOccurrence self.count n
            → IsNthLater self.start self.period n r → result ≡ Some r }
        ensures value { IfSome result (λ r. IsDateTime r × IsOccurrence self.count n
            × IsNthLater self.start self.period n r) }
    {
        if !is_occurrence(self.count, n) {
            return None;
        }
        nth_period(self.start, self.period, n)
    }
}

/// Returns the repetition of a period, if it is positive.
fn repeated(
    start: PlainDateTime,
    period: Period,
    count: Option<u32>,
) -> Result<RepeatedDateTimes, IntervalError>
    ensures value { IfOk result (λ r.
        AreRepeated IsPositive start period count r.start r.period r.count) }
    ensures error { IfErr result (IsPeriodError period) }
{
    match Steps::new(start, period) {
        Some(_) => Ok(RepeatedDateTimes {
            start,
            period,
            count,
        }),
        None => Err(IntervalError::NotPositive),
    }
}

/// Returns the repetition of the exact duration from a start to an end, if it is positive.
fn repeated_exactly(
    start: PlainDateTime,
    end: PlainDateTime,
    count: Option<u32>,
) -> Result<RepeatedDateTimes, IntervalError>
    ensures value { IfOk result (λ r. AreRepeatedExactly start end count r.start r.period r.count) }
    ensures error { IfErr result (IsEndsError start end) }
{
    if end < start {
        return Err(IntervalError::EndBeforeStart);
    }
    if end == start {
        return Err(IntervalError::NotPositive);
    }
    Ok(RepeatedDateTimes {
        start,
        period: Period::from_duration(end - start),
        count,
    })
}
