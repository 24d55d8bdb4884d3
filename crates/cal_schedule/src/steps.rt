//! Steps of a period from a start, and the step that a date is in.
ghost use Rattle.std.specs.Prelude.{◌≡◌, ◌↔◌, ℕ, ◌-◌, ◌<◌, ◌≤◌, ◌^◌, pos, ◌*ℤ◌, Some, IfSome, IsSome, IsTrue, SomeIff};
ghost use Rattle.std.specs.Iterator.{at_most};
ghost use Rattle.cal_time.specs.Date.{IsDate};
ghost use Rattle.cal_schedule.specs.Period.{days_of, months_of, IsDaysLater};
ghost use Rattle.cal_schedule.specs.Steps.{series, IsGreatestStep, IsNextStep, IsPositive, IsRepeated, IsStepUpTo, YieldsStep};

use crate::period::Period;
use crate::period_moves::nth_date;
use cal_time::Date;
use std::marker::Model;

/// Returns the step that a date is in, if a period is repeated from a start: the greatest `n` for
/// which `nth_period` isn't after the date. In steps of a month from
/// 31 January 2024, 28 February is in step 0 and 29 February in step 1.
///
/// Returns `None` if the date is before the start, and if the period has an exact duration or isn't
/// positive.
pub fn step_of(start: Date, period: Period, date: Date) -> Option<i32>
    ensures value { IfSome result (IsGreatestStep start date period) }
    ensures in_time { IfSome result (λ n. (r : ℕ)
        → IsDaysLater start (n *ℤ months_of period) (n *ℤ days_of period) r → r ≤ date) }
    ensures some { IsSome result ↔ (start ≤ date × IsRepeated period) }
{
    if date < start {
        return None;
    }
    if !is_repeated(period) {
        return None;
    }
    Some(last_step(start, period, date) as i32)
}

/// Returns `true` if a period has positive months or days.
fn is_positive(period: Period) -> bool
    ensures { IsTrue result ↔ IsPositive period }
{
    period.whole_months() > 0 || period.whole_days() > 0
}

/// Returns `true` if a period is positive and has no exact duration.
fn is_repeated(period: Period) -> bool
    ensures { IsTrue result ↔ IsRepeated period }
{
    is_positive(period) && period.duration().is_zero()
}

/// Returns the last step that isn't after a date.
fn last_step(start: Date, period: Period, date: Date) -> u32
    requires date { start ≤ date }
    requires period { IsPositive period }
    ensures value { IsGreatestStep start date period (pos result) }
    ensures max { result < 2 ^ 30 }
{
    // It states that the date is in range.
    let _ = start.to_julian_day();
    let mut low = 0;
    // No step of the range has this number.
    let mut high = 1_073_741_824;
    while high - low > 1 {
        let middle = low + (high - low) / 2;
        if is_reached(start, period, middle, date) {
            low = middle;
        } else {
            high = middle;
        }
    }
    low
}

/// Returns a step, or `None` if it is out of range.
fn step(start: Date, period: Period, n: u32) -> Option<Date>
    requires { n < 2 ^ 30 }
    ensures every { (r : ℕ) → IsDate r → IsNextStep (series start period n) r → result ≡ Some r }
    ensures value { IfSome result (λ r. IsDate r × IsNextStep (series start period n) r) }
{
    nth_date(start, period, n as i32)
}

/// Returns `true` if a step isn't after a date.
fn is_reached(start: Date, period: Period, n: u32, date: Date) -> bool
    requires { n < 2 ^ 30 }
    ensures { IsTrue result ↔ IsStepUpTo start date period (pos n) }
{
    match step(start, period, n) {
        Some(step) => step <= date,
        None => false,
    }
}

/// An iterator over the steps of a period from a start, each counted from the start. Contracts see
/// the start, the period and the number of the next step.
#[derive(Debug, Drop)]
pub struct Steps {
    start: Date,
    period: Period,
    next: u32,
}

impl Model for Steps {
    ghost use Rattle.std.specs.Prelude.{◌≤◌, ◌^◌};
    ghost use Rattle.cal_time.specs.Date.{IsDate};
    ghost use Rattle.cal_schedule.specs.Steps.{IsRepeated, Series};

    ghost Value = { Series };

    ghost view = { λ s. record { start = s.start; period = s.period; next = s.next } };

    ghost invariant = { λ s. IsDate s.start × IsRepeated s.period × (s.next ≤ 2 ^ 30) };
}

impl Steps {
    /// Creates an iterator over the steps of a period from a start, from the start itself on. In
    /// steps of a month from 31 January 2024 they are 31 January, 29 February, 31 March and so on.
    ///
    /// Returns `None` if the period has an exact duration or isn't positive.
    pub fn new(start: Date, period: Period) -> Option<Self>
        ensures { SomeIff result (IsRepeated period) (series start period 0) }
    {
        // It states that the date is in range.
        let _ = start.to_julian_day();
        if !is_repeated(period) {
            return None;
        }
        Some(Steps {
            start,
            period,
            next: 0,
        })
    }
}

impl Iterator for Steps {
    type Item = Date;

    ghost next_gives = { YieldsStep };

    ghost remaining = { λ s. at_most (2 ^ 30 - s.next) };

    /// Returns the next step, or `None` after the last one in the range.
    fn next(&mut self) -> Option<Date> {
        // No step of the range has this number.
        if self.next >= 1_073_741_824 {
            return None;
        }
        let date = step(self.start, self.period, self.next)?;
        self.next += 1;
        Some(date)
    }
}
