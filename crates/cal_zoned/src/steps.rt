//! Steps of a period from a local date-time, and the step that a local date-time is in.
ghost use Rattle.std.specs.Prelude.{◌≡◌, ◌↔◌, ◌-◌, ◌<◌, ◌≤◌, ℤ, pos, ◌≤ℤ◌, Some, IfSome, IsSome, IsTrue, SomeIff};
ghost use Rattle.std.specs.Iterator.{at_most};
ghost use Rattle.cal_datetime.specs.DateTime.{IsDateTime};
ghost use Rattle.cal_zoned.specs.Steps.{end_of_steps, series, IsLastStep, IsNextStep, IsPositive, IsStepUpTo, YieldsStep};

use crate::nth_period;
use cal_datetime::PlainDateTime;
use cal_schedule::Period;
use std::marker::Model;

/// One more than the number of the last step.
pub(crate) const END: u32 = 2_147_483_648;

/// Returns the step that a local date-time is in, if a period is repeated from a start: the
/// greatest `n` for which [`nth_period`] isn't after it, or 2147483647 if that is more. In steps of
/// a month from 2024-01-31 8:00, 2024-02-29 7:59 is in step 0, and 8:00 is in step 1.
///
/// Returns `None` if the local date-time is before the start, and if the period isn't positive.
pub fn step_of(start: PlainDateTime, period: Period, reading: PlainDateTime) -> Option<i32>
    ensures value { IfSome result (IsLastStep start reading period) }
    ensures some { IsSome result ↔ ((start ≤ℤ reading) × IsPositive period) }
{
    if reading < start {
        return None;
    }
    if !is_positive(period) {
        return None;
    }
    Some(last_step(start, period, reading) as i32)
}

/// Returns `true` if a period has a positive part.
fn is_positive(period: Period) -> bool
    ensures { IsTrue result ↔ IsPositive period }
{
    if period.whole_months() > 0 {
        return true;
    }
    if period.whole_days() > 0 {
        return true;
    }
    period.duration().is_positive()
}

/// Returns the last step that isn't after a local date-time.
fn last_step(start: PlainDateTime, period: Period, reading: PlainDateTime) -> u32
    requires start { start ≤ℤ reading }
    requires period { IsPositive period }
    ensures value { IsLastStep start reading period (pos result) }
    ensures max { result < end_of_steps }
{
    // It states that the date-time is in range.
    let _ = start.date();
    let mut low = 0;
    let mut high = END;
    while high - low > 1 {
        let middle = low + (high - low) / 2;
        if is_reached(start, period, middle, reading) {
            low = middle;
        } else {
            high = middle;
        }
    }
    low
}

/// Returns a step, or `None` if it is out of range.
pub(crate) fn step(start: PlainDateTime, period: Period, n: u32) -> Option<PlainDateTime>
    requires { n < end_of_steps }
    ensures every { (r : ℤ) → IsDateTime r → IsNextStep (series start period n) r
        → result ≡ Some r }
    ensures value { IfSome result (λ r. IsDateTime r × IsNextStep (series start period n) r) }
{
    nth_period(start, period, n as i32)
}

/// Returns `true` if a step isn't after a local date-time.
fn is_reached(start: PlainDateTime, period: Period, n: u32, reading: PlainDateTime) -> bool
    requires { n < end_of_steps }
    ensures { IsTrue result ↔ IsStepUpTo start reading period (pos n) }
{
    match step(start, period, n) {
        Some(step) => step <= reading,
        None => false,
    }
}

/// An iterator over the steps of a period from a local date-time, each counted from the start.
/// Contracts see the start, the period and the number of the next step.
#[derive(Debug, Drop)]
pub struct Steps {
    start: PlainDateTime,
    period: Period,
    next: u32,
}

impl Model for Steps {
    ghost use Rattle.std.specs.Prelude.{◌≤◌};
    ghost use Rattle.cal_datetime.specs.DateTime.{IsDateTime};
    ghost use Rattle.cal_zoned.specs.Steps.{end_of_steps, IsPositive, Series};

    ghost Value = { Series };

    ghost view = { λ s. record { start = s.start; period = s.period; next = s.next } };

    ghost invariant = { λ s. IsDateTime s.start × IsPositive s.period × (s.next ≤ end_of_steps) };
}

impl Steps {
    /// Creates an iterator over the steps of a period from a local date-time, from the start itself
    /// on. In steps of a month from 2024-01-31 8:00 they are 31 January 8:00, 29 February 8:00,
    /// 31 March 8:00 and so on, up to the step 2147483647.
    ///
    /// Returns `None` if the period isn't positive.
    pub fn new(start: PlainDateTime, period: Period) -> Option<Self>
        ensures { SomeIff result (IsPositive period) (series start period 0) }
    {
        // It states that the date-time is in range.
        let _ = start.date();
        if !is_positive(period) {
            return None;
        }
        Some(Steps {
            start,
            period,
            next: 0,
        })
    }
}

impl Iterator for Steps {
    type Item = PlainDateTime;

    ghost next_gives = { YieldsStep };

    ghost remaining = { λ s. at_most (end_of_steps - s.next) };

    /// Returns the next step, or `None` after the last one in the range.
    fn next(&mut self) -> Option<PlainDateTime> {
        if self.next >= END {
            return None;
        }
        let step = step(self.start, self.period, self.next)?;
        self.next += 1;
        Some(step)
    }
}
