//! The search for the next day of a rule.
ghost use Rattle.std.specs.Prelude.{◌≡◌, ◌<◌, ◌≤◌, slice_get, IfSome, true};
ghost use Rattle.cal_time.specs.Date.{IsDate};
ghost use Rattle.cal_schedule.specs.Rule.{occurrences_after, is_occurrence};
ghost use Rattle.cal_schedule.specs.RuleSearch.{IsNextBefore, IsNextFrom, IsStep};

use crate::rule::rule::Rule;
use cal_date::day_number::{date_from_number, day_number};
use cal_time::{Date, limits};

/// The number of the last day of the range.
pub(super) const LAST_DAY: u64 = limits::LAST_DAY as u64;

/// The number of days in 400 years, after which the calendar and the weekdays repeat.
pub(super) const PERIOD: u64 = 146_097;

/// The maximum number of days from one period to the next: 366, and 6 to whole weeks. At the ends
/// of the range a period can be cut, and then the days do not repeat.
pub(super) const YEAR: u64 = 372;

impl Rule {
    /// Returns `true` if the rule matches a date. A rule for the last Friday of each month matches
    /// 26 January 2024, and not 19 January.
    #[tactic(auto, unfolding(crate::specs::Rule::is_occurrence))]
    pub fn contains(&self, date: Date) -> bool
        ensures value { result ≡ is_occurrence self.now date }
        ensures in_range { IsDate date }
    {
        day_number(date) >= day_number(self.start)
            && self.matches_until(date)
            && self.periods_past(date) == 0
            && self.passes(date)
            && self.matches_positions(date)
    }

    /// Returns the first day of the rule from `day` on, or else a later day to go on with: no day
    /// from `day` on and before it matches. The later day is `None` if no day from `day` on
    /// matches.
    fn step(&self, day: Date) -> Result<Date, Option<Date>>
        requires start { self.now.start ≤ day }
        requires range { IsDate day }
        ensures { IsStep self.now day result }
    {
        if !self.matches_until(day) {
            return Err(None);
        }
        let past = self.periods_past(day);
        if past != 0 {
            let turn = self.period(day);
            let next = u64::from(turn) + u64::from(self.interval_or_1() - past);
            return Err(self.first_of_period(next));
        }
        if !self.passes(day) {
            return Err(self.next_candidate(day));
        }
        if self.pattern.set_positions.is_empty() {
            return Ok(day);
        }
        self.find_position(day)
    }

    /// Returns the first day of the rule from this one on. It can be `None` if no day of the rule
    /// is before the day with the number `end`.
    pub(super) fn next_before(&self, first: Date, end: u64) -> Option<Date>
        requires { self.now.start ≤ first }
        ensures { IsNextBefore self.now first end result }
    {
        let mut day = first;
        while u64::from(day_number(day)) < end {
            match self.step(day) {
                Ok(found) => return Some(found),
                Err(Some(next)) => day = next,
                Err(None) => return None,
            }
        }
        None
    }

    /// Returns the first day of the rule from this one on, or `None` if there is none.
    pub(super) fn next_from(&self, first: Date) -> Option<Date>
        requires { self.now.start ≤ first }
        ensures { IsNextFrom self.now first result }
    {
        // The calendar repeats: a later day that matches has one this much earlier, unless it is in
        // the last year of the range.
        let number = u64::from(day_number(first));
        let end = number + YEAR + PERIOD * u64::from(self.interval_or_1());
        if let Some(day) = self.next_before(first, end) {
            return Some(day);
        }
        let Some(rest) = date_from_number(number.max(LAST_DAY - YEAR)) else {
            return None;
        };
        self.next_before(rest, LAST_DAY + 1)
    }

    /// Returns the first day of the rule after a date, or `None` if the range has no such day. For
    /// the last Friday of each month, 23 February comes after 26 January 2024.
    ///
    /// A rule for 30 February has no days. The search ends after 400 years times the interval.
    pub fn next_after(&self, date: Date) -> Option<Date>
        ensures value { result ≡ slice_get (occurrences_after self.now date) 0 }
        ensures found { IfSome result (λ n. (date < n) × IsDate n × (is_occurrence self.now n ≡ true)) }
        ensures in_range { IsDate date }
    {
        let Some(next) = date_from_number(u64::from(day_number(date)) + 1) else {
            return None;
        };
        if next < self.start {
            return self.next_from(self.start);
        }
        self.next_from(next)
    }
}
