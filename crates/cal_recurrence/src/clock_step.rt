//! The selected periods of hours, minutes or seconds.
ghost use Rattle.std.specs.Prelude.{◌≡◌, ◌+◌, ◌*◌, ◌≤◌, ◌≤ℤ◌, pos, false, IfSome};
ghost use Rattle.cal_time.specs.SignedDuration.{day};
ghost use Rattle.cal_recurrence.specs.ClockPeriods.{has_position, matches_step, periods_past};
ghost use Rattle.cal_recurrence.specs.ClockSearch.{can_match, Divides, IsLater, NeverMeets, Repeats};

use crate::clock_unit::ClockUnit;
use crate::positions::allows_position;
use crate::times_of_day::{TimesOfDay, nanoseconds};
use cal_date::day_number::date_from_number;
use cal_datetime::PlainDateTime;
use cal_schedule::Values;
use cal_time::{Date, Time};

/// The days in 400 years, after which the calendar and the weekdays repeat.
const REPEAT: u64 = 146_097;

/// The number of times 400 years in the range.
const REPEATS: u64 = 5_000;

/// Returns the largest divisor that two numbers have in common, if they aren't both 0.
fn common_divisor(a: u64, b: u64) -> u64 {
    let (mut divisor, mut rest) = (a, b);
    while rest != 0 {
        let next = divisor % rest;
        divisor = rest;
        rest = next;
    }
    divisor
}

/// The selected periods of a rule within days, and the positions in a period.
#[derive(Debug, Drop)]
pub struct ClockStep {
    pub unit: ClockUnit,
    /// Every n-th period is selected, from the period of the start on. 0 counts as 1.
    pub interval: u32,
    /// The positions (`BYSETPOS`) among the readings of a period.
    pub positions: Values<i16>,
}

impl ClockStep {
    /// Copies the step.
    pub(crate) fn copy(&self) -> Self
        ensures { result ≡ self.now }
    {
        ClockStep {
            unit: self.unit,
            interval: self.interval,
            positions: Values::from_slice(self.positions.as_slice(), 0),
        }
    }

    /// Returns the number of periods since the last selected one.
    fn periods_past(&self, start: PlainDateTime, date: Date, time: Time) -> u64
        ensures { result ≡ periods_past self.now start (pos (date * day + time)) }
    {
        let index = self.unit.index(date, time);
        let first = self.unit.index(start.date(), start.time());
        index.saturating_sub(first) % u64::from(self.interval.max(1))
    }

    /// Returns `true` if a time of day has a position in its period.
    fn has_position(&self, times: &TimesOfDay, own: Time, time: Time) -> bool
        ensures { result ≡ has_position self.now times.now own time }
    {
        let size = self.unit.seconds() * 1_000_000_000;
        let at = nanoseconds(time);
        let first = at / size * size;
        let before = times.count_before(own, first);
        let ahead = times.count_before(own, at + 1) - before;
        let back = times.count_before(own, first + size) - times.count_before(own, at);
        allows_position(&self.positions, u64::from(ahead), u64::from(back))
    }

    /// Returns `true` if the period of a reading is selected and the reading has a position in it.
    #[tactic(auto, unfolding(crate::specs::ClockPeriods::matches_step))]
    pub(crate) fn matches(
        &self,
        times: &TimesOfDay,
        start: PlainDateTime,
        date: Date,
        time: Time,
    ) -> bool
        ensures { result ≡ matches_step self.now times.now start (pos (date * day + time)) }
    {
        // This states that the time is in its range. It costs nothing.
        let _ = nanoseconds(time);
        self.periods_past(start, date, time) == 0
            && (self.positions.is_empty() || self.has_position(times, start.time(), time))
    }

    /// Returns the divisor that the periods of a day and the interval have in common, or `None`.
    fn divisor(&self) -> Option<u64>
        ensures { IfSome result (Divides self.now) }
    {
        let interval = u64::from(self.interval.max(1));
        let per_day = 86_400 / self.unit.seconds();
        let divisor = common_divisor(interval, per_day);
        // The divisor divides both. The test is cheaper than a proof of it.
        if divisor == 0 || interval % divisor != 0 || per_day % divisor != 0 {
            return None;
        }
        Some(divisor)
    }

    /// Returns `true` if a time of day has a position in its period, and its period is selected on
    /// some days.
    fn can_match(&self, times: &TimesOfDay, start: PlainDateTime, divisor: u64, time: Time) -> bool
        requires { 1 ≤ divisor }
        ensures { result ≡ can_match self.now times.now start divisor time }
    {
        let first = self.unit.index(start.date(), start.time());
        self.unit.index_in_day(time) % divisor == first % divisor
            && (self.positions.is_empty() || self.has_position(times, start.time(), time))
    }

    /// Returns `false` if no time of day of the list is in a selected period with a position in it.
    pub(crate) fn can_meet(&self, times: &TimesOfDay, start: PlainDateTime) -> bool
        ensures { result ≡ false → NeverMeets self.now times.now start }
    {
        let Some(divisor) = self.divisor() else {
            return true;
        };
        let own = start.time();
        let mut from = 0;
        while let Some(time) = times.next_time(own, from) {
            if self.can_match(times, start, divisor, time) {
                return true;
            }
            from = nanoseconds(time) + 1;
        }
        false
    }

    /// Returns a number of days after which the calendar and the selected periods repeat, or `None`
    /// if it is longer than the range.
    pub(crate) fn repeat_days(&self) -> Option<u64>
        ensures { IfSome result (Repeats self.now) }
    {
        let interval = u64::from(self.interval.max(1));
        let periods = REPEAT * (86_400 / self.unit.seconds());
        let divisor = common_divisor(interval, periods);
        if divisor == 0 {
            return None;
        }
        let factor = interval / divisor;
        // The product is a multiple of the interval. The test is cheaper than a proof of it.
        if factor == 0 || factor > REPEATS || periods * factor % interval != 0 {
            return None;
        }
        Some(REPEAT * factor)
    }

    /// Returns a later place, a day and a nanosecond of it, before which no reading matches from a
    /// reading on that doesn't match, or `None` if no later reading of the range matches.
    pub(crate) fn next_place(
        &self,
        start: PlainDateTime,
        date: Date,
        time: Time,
    ) -> Option<(Date, u64)>
        requires { start ≤ℤ pos (date * day + time) }
        ensures { IsLater self.now start (date * day + time) result }
    {
        // This states that the start is in its range. It costs nothing.
        let _ = start.date();
        let at = self.unit.index(date, time);
        let past = self.periods_past(start, date, time);
        if past == 0 {
            return Some((date, nanoseconds(time) + 1));
        }
        let interval = u64::from(self.interval.max(1));
        let index = at + (interval - past);
        let second = index * self.unit.seconds();
        let Some(day) = date_from_number(second / 86_400) else {
            return None;
        };
        Some((day, second % 86_400 * 1_000_000_000))
    }
}
