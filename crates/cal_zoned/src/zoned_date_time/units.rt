//! The first and the last instant of a date-time's day, week, month, quarter or year.
ghost use Rattle.std.specs.Prelude.{◌≡◌, pos, ◌-ℤ◌, IfNone, IfSome};
ghost use Rattle.cal_datetime.specs.DateTime.{IsDateTime};
ghost use Rattle.cal_zoned.specs.Moves.{end_before, IsNextStart, IsStartOf};
ghost use Rattle.cal_zoned.specs.Zoned.{instant_in, reading_at, InZone};

use crate::{ZonedDateTime, start_of_day};
use cal_schedule::{CalendarUnit, first_of, last_of};
use cal_time::SignedDuration;

impl<'z> ZonedDateTime<'z> {
    /// Returns the start of the day, ISO week, month, quarter or year: the start of its first day,
    /// as [`start_of_day`] returns it. In Berlin, the month of 2024-03-31 12:00 +02:00:00 starts at
    /// 2024-03-01 0:00 +01:00:00.
    ///
    /// Returns `None` if what the clocks show then is out of range.
    pub fn start_of(&self, unit: CalendarUnit) -> Option<Self>
        ensures { IsStartOf unit self.now result }
    {
        start_of_day(first_of(self.date(), unit), self.zone)
    }

    /// Returns the end of the day, ISO week, month, quarter or year: a nanosecond before the start
    /// of the next one. In Berlin, the month of 2024-03-01 12:00 +01:00:00 ends at
    /// 2024-03-31 23:59:59.999999999 +02:00:00.
    ///
    /// Returns `None` if the next start is out of range, or if what the clocks show at the end is.
    pub fn end_of(&self, unit: CalendarUnit) -> Option<Self>
        ensures value { IfSome result (λ r. (s : InZone) × IsNextStart unit self.now s
            × IsDateTime (reading_at s.zone (instant_in s -ℤ pos 1)) × (r ≡ end_before s)) }
        ensures none { IfNone result ((s : InZone) → IsNextStart unit self.now s
            → ¬ IsDateTime (reading_at s.zone (instant_in s -ℤ pos 1))) }
    {
        let next = last_of(self.date(), unit)?.next_day()?;
        start_of_day(next, self.zone)?.checked_sub(SignedDuration::nanoseconds(1))
    }
}
