//! The search for the previous day of a rule.
ghost use Rattle.std.specs.Prelude.{◌≡◌, ◌+◌, ◌<◌, ◌≤◌, max, slice_get, IfSome, true};
ghost use Rattle.cal_time.specs.Date.{last_day, IsDate};
ghost use Rattle.cal_schedule.specs.Rule.{is_occurrence, occurrences_before};
ghost use Rattle.cal_schedule.specs.RuleSearch.{IsEndBefore, IsLastBetween, IsLastOfWalk};

use crate::rule::rule::Rule;
use crate::rule::search::{LAST_DAY, PERIOD, YEAR};
use cal_date::day_number::{date_from_number, day_number};
use cal_time::Date;

/// Returns the later one of a day and the day with a number.
fn later(day: Date, number: u64) -> Date
    requires { IsDate number }
    ensures { result ≡ max day number }
{
    match date_from_number(number) {
        Some(other) if day < other => other,
        _ => day,
    }
}

impl Rule {
    /// Returns the number of a day, or of the day after the last day if this is earlier.
    pub(super) fn end_before(&self, number: u64) -> u64
        requires { number ≤ last_day + 1 }
        ensures { IsEndBefore self.now number result }
    {
        match self.until {
            Some(last) => number.min(u64::from(day_number(last)) + 1),
            None => number,
        }
    }

    /// Returns the last day of the rule from one day on and before the day with the number `end`.
    /// It goes forward from day to day.
    fn last_between(&self, first: Date, end: u64) -> Option<Date>
        requires start { self.now.start ≤ first }
        requires range { end ≤ last_day + 1 }
        ensures { IsLastBetween self.now first end result }
    {
        let mut last = None;
        let mut from = first;
        while let Some(day) = self.next_before(from, end) {
            if u64::from(day_number(day)) >= end {
                return last;
            }
            last = Some(day);
            match day.next_day() {
                Some(next) => from = next,
                None => return last,
            }
        }
        last
    }

    /// Returns the last day of the rule from one day on and before the day with the number `end`.
    /// It goes back by windows of days, each twice as long as the later one.
    fn last_back(&self, first: Date, end: u64) -> Option<Date>
        requires start { self.now.start ≤ first }
        requires range { end ≤ last_day + 1 }
        ensures value { IsLastBetween self.now first end result }
        ensures in_range { IsDate first }
    {
        let mut before = end;
        let mut days = 1u64;
        while u64::from(day_number(first)) < before {
            let from = later(first, before.saturating_sub(days));
            if let Some(day) = self.last_between(from, before) {
                return Some(day);
            }
            before = u64::from(day_number(from));
            days = days.saturating_mul(2);
        }
        None
    }

    /// Returns the last one of the first `count` days of the rule from `front` on, which is the
    /// first of them. It goes forward from day to day.
    fn last_forward(&self, front: Date, count: u32) -> Date
        requires front { is_occurrence self.now front ≡ true }
        requires some { 1 ≤ count }
        ensures { IsLastOfWalk self.now front count result }
    {
        let mut last = front;
        let mut left = count;
        while left > 1 {
            match self.next_after(last) {
                Some(day) => last = day,
                None => return last,
            }
            left -= 1;
        }
        last
    }

    /// Returns the last one of the first `count` days of the rule from `front` on, which is the
    /// first of them. It goes back from the end if they are all days of the rule.
    pub(super) fn last_of(&self, front: Date, count: u32) -> Date
        requires front { is_occurrence self.now front ≡ true }
        requires some { 1 ≤ count }
        ensures { IsLastOfWalk self.now front count result }
    {
        // The range has no more days.
        if u64::from(count) > LAST_DAY {
            let end = self.end_before(LAST_DAY + 1);
            return self.last_back(front, end).unwrap_or(front);
        }
        self.last_forward(front, count)
    }

    /// Returns the last day of the rule before a date, or `None` if there is no such day. For the
    /// last Friday of each month from January 2024 on, 26 January comes before 23 February 2024.
    ///
    /// The search goes back from the date, or from the end of the rule if that is earlier. It goes
    /// over at most twice as many days as lie between the day that it finds and the date, and with
    /// positions over whole periods of these. It ends at once for a date that isn't after the start,
    /// and for a rule for 30 February after 400 years times the interval.
    pub fn previous_before(&self, date: Date) -> Option<Date>
        ensures value { result ≡ slice_get (occurrences_before self.now date) 0 }
        ensures found { IfSome result (λ n. (n < date) × IsDate n × (is_occurrence self.now n ≡ true)) }
        ensures in_range { IsDate date }
    {
        let end = self.end_before(u64::from(day_number(date)));
        // The calendar repeats: an earlier day that matches has one this much later, unless it is
        // in the first year of the range.
        let days = YEAR + PERIOD * u64::from(self.interval_or_1());
        let first = later(self.start, end.saturating_sub(days));
        if let Some(day) = self.last_back(first, end) {
            return Some(day);
        }
        self.last_back(self.start, YEAR.min(u64::from(day_number(first))))
    }
}
