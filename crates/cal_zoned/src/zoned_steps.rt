//! Steps of a period from a date-time in a zone.
ghost use Rattle.std.specs.Prelude.{◌≡◌, ◌-◌};
ghost use Rattle.std.specs.Iterator.{at_most};
ghost use Rattle.cal_zoned.specs.Steps.{end_of_steps, zoned_series, YieldsResult};

use crate::ZonedDateTime;
use crate::steps::END;
use cal_schedule::Period;
use cal_zone::{LocalTimeError, Policy};
use std::marker::Model;

/// An iterator over the steps of a period from a date-time in a zone, each counted from the start.
/// Contracts see the start, the period, the policy and the number of the next step.
#[derive(Debug, Drop)]
pub struct ZonedSteps<'z> {
    start: ZonedDateTime<'z>,
    period: Period,
    policy: Policy,
    next: u32,
}

impl<'z> Model for ZonedSteps<'z> {
    ghost use Rattle.std.specs.Prelude.{◌≤◌};
    ghost use Rattle.cal_zoned.specs.Steps.{end_of_steps, ZonedSeries};

    ghost Value = { ZonedSeries };

    ghost view = { λ s. record {
      start = s.start;
      period = s.period;
      policy = s.policy;
      next = s.next;
    } };

    ghost invariant = { λ s. s.next ≤ end_of_steps };
}

impl<'z> ZonedSteps<'z> {
    /// Creates an iterator over the steps of a period from a date-time in a zone, from the start
    /// itself on, as [`ZonedDateTime::nth_period`] returns them, up to the step 2147483647. Each
    /// item is a date-time, or `Skipped` or `Repeated` by [`Policy::Reject`]. A period of nothing
    /// repeats the start. In Berlin, steps of a month from 2024-01-31 2:30 are that, 29 February
    /// 2:30, 31 March 3:30 by [`Policy::Compatible`], and 30 April 2:30.
    pub fn new(start: ZonedDateTime<'z>, period: Period, policy: Policy) -> Self
        ensures { result ≡ zoned_series start.entry period policy 0 }
    {
        ZonedSteps {
            start,
            period,
            policy,
            next: 0,
        }
    }
}

impl<'z> Iterator for ZonedSteps<'z> {
    type Item = Result<ZonedDateTime<'z>, LocalTimeError>;

    ghost next_gives = { YieldsResult };

    ghost remaining = { λ s. at_most (end_of_steps - s.next) };

    /// Returns the next step, or `None` after the last one in the range.
    fn next(&mut self) -> Option<Result<ZonedDateTime<'z>, LocalTimeError>> {
        if self.next >= END {
            return None;
        }
        let step = self
            .start
            .nth_period(self.period, self.next as i32, self.policy);
        if let Err(LocalTimeError::OutOfRange) = step {
            return None;
        }
        self.next += 1;
        Some(step)
    }
}
