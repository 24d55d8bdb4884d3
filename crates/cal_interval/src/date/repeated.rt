//! Periods repeated from a date.
ghost use Rattle.std.specs.Prelude.{◌≡◌, ◌*ℤ◌, ℕ, IfErr, IfOk, IfSome, Some};
ghost use Rattle.cal_time.specs.Date.{IsDate};
ghost use Rattle.cal_schedule.specs.Period.{days_of, months_of, IsDaysLater};
ghost use Rattle.cal_schedule.specs.Steps.{IsRepeated};
ghost use Rattle.cal_interval.specs.Repeats.{AreRepeated, AreRepeatedDays, IsDaysError, IsIntervalError, IsIntervalRepeated, IsOccurrence, IsPeriodError, IsRepeatError, IsRepeatOf};

use crate::date::interval::DateInterval;
use crate::error::IntervalError;
use crate::period::{is_occurrence, occurrences};
use cal_date::day_number::day_number;
use cal_schedule::{Period, Steps, nth_date};
use cal_time::Date;

/// A period repeated from a start, with a number of occurrences or without an end. The first
/// occurrence is the start, and each later one is counted from the start: in steps of a month,
/// 31 January 2024 is followed by 29 February and 31 March.
#[derive(Clone, Copy, Debug, PartialEq, Eq)]
pub struct RepeatedDates {
    /// The first occurrence.
    pub start: Date,
    /// The period from one occurrence to the next.
    pub period: Period,
    /// The number of occurrences, or `None` without an end.
    pub count: Option<u32>,
}

impl RepeatedDates {
    /// Creates the repetition of an interval, with a number of occurrences or without an end. An
    /// interval with an end is repeated by its number of days.
    ///
    /// Returns `CountOutOfRange` if the number of occurrences isn't from 1 to 4294967295,
    /// `MissingStart` if the interval has no start, `HasDuration` if the period has an exact
    /// duration, `EndBeforeStart`, and `NotPositive` if the period is zero or negative.
    pub fn new(count: Option<u64>, interval: DateInterval) -> Result<Self, IntervalError>
        ensures value { IfOk result (IsRepeatOf IsIntervalRepeated count interval) }
        ensures error { IfErr result (IsRepeatError IsIntervalError count interval) }
    {
        let Some(count) = occurrences(count) else {
            return Err(IntervalError::CountOutOfRange);
        };
        match interval {
            DateInterval::StartAndPeriod(start, period) => repeated(start, period, count),
            DateInterval::StartAndEnd(start, end) => repeated_days(start, end, count),
            DateInterval::PeriodAndEnd(_, _) => Err(IntervalError::MissingStart),
        }
    }

    /// Returns the occurrence with this number, from 0 on. Returns `None` if the number is negative
    /// or not less than the number of occurrences, or if the date is out of range.
    pub fn nth(self, n: i32) -> Option<Date>
        ensures every { (r : ℕ) → IsDate r → IsOccurrence self.count n
            → IsDaysLater self.start (n *ℤ months_of self.period) (n *ℤ days_of self.period) r
            → result ≡ Some r }
        ensures value { IfSome result (λ r. IsDate r × IsOccurrence self.count n
            × IsDaysLater self.start (n *ℤ months_of self.period) (n *ℤ days_of self.period) r) }
    {
        if !is_occurrence(self.count, n) {
            return None;
        }
        nth_date(self.start, self.period, n)
    }
}

/// Returns the repetition of a period, if it is positive and has no exact duration.
fn repeated(start: Date, period: Period, count: Option<u32>) -> Result<RepeatedDates, IntervalError>
    ensures value { IfOk result (λ r. AreRepeated IsRepeated start period count r.start r.period r.count) }
    ensures error { IfErr result (IsPeriodError period) }
{
    if !period.duration().is_zero() {
        return Err(IntervalError::HasDuration);
    }
    match Steps::new(start, period) {
        Some(_) => Ok(RepeatedDates {
            start,
            period,
            count,
        }),
        None => Err(IntervalError::NotPositive),
    }
}

/// Returns the repetition of the days from a start to an end, if there are any.
fn repeated_days(start: Date, end: Date, count: Option<u32>) -> Result<RepeatedDates, IntervalError>
    ensures value { IfOk result (λ r. AreRepeatedDays start end count r.start r.period r.count) }
    ensures error { IfErr result (IsDaysError start end) }
{
    if end < start {
        return Err(IntervalError::EndBeforeStart);
    }
    if end == start {
        return Err(IntervalError::NotPositive);
    }
    let days = day_number(end) - day_number(start);
    Ok(RepeatedDates {
        start,
        period: Period::from_days(days as i32),
        count,
    })
}
