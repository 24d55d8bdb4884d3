//! The positions of days among the days of their period that pass a rule.
ghost use Rattle.std.specs.Prelude.{◌≡◌, ℕ, ◌+◌, ◌-◌, ◌<◌, ◌≤◌, false, true, IfSome};
ghost use Rattle.std.specs.List.{list_any};
ghost use Rattle.cal_time.specs.Date.{last_day};
ghost use Rattle.cal_time.specs.IsoWeekDate.{count_before};
ghost use Rattle.cal_schedule.specs.Rule.{allows, is_nth, matches_positions, matches_until, passes, periods_past};
ghost use Rattle.cal_schedule.specs.RuleSearch.{IsPeriodEnd, IsPeriodStart, IsStep, NoDayBetween, PassesByWeekday};

use crate::rule::matching::is_nth;
use crate::rule::rule::Rule;
use cal_date::day_number::{date_from_number, day_number};
use cal_time::{Cycle, Date, limits};

/// The number of days in the range.
const DAYS: u32 = limits::LAST_DAY as u32 + 1;

/// Returns `true` if one of the positions is the number of an item from the start, or its number
/// from the end.
pub(super) fn any_position(positions: &[i16], ahead: u32, back: u32) -> bool
    ensures { result ≡ list_any (λ k. is_nth k ahead back) positions.now }
{
    positions.iter().any(|k| is_nth(*k, ahead, back))
}

impl Rule {
    /// Returns the first day of the range in the period of a date.
    pub(super) fn period_start(&self, date: Date) -> Date
        ensures { IsPeriodStart self.now date result }
    {
        let index = u64::from(self.period(date));
        match self.first_of_period(index) {
            Some(first) => first,
            None => date,
        }
    }

    /// Returns the number of the day after the last day of the range in the period of a date.
    pub(super) fn period_end(&self, date: Date) -> u32
        ensures { IsPeriodEnd self.now date result }
    {
        let index = u64::from(self.period(date));
        match self.first_of_period(index + 1) {
            Some(next) => day_number(next),
            None => DAYS,
        }
    }

    /// Counts the days that pass, from one day on and before the day with the number `end`. Days that
    /// pass by their weekday alone are counted for one week.
    pub(super) fn count_passing(&self, from: Date, end: u32) -> u32
        requires order { from ≤ end }
        requires range { end ≤ last_day + 1 }
        ensures value { result + count_before (passes self.now) from
            ≡ count_before (passes self.now) end }
        ensures max { result ≤ end }
    {
        if self.has_only_weekdays() {
            let days = end - day_number(from);
            let week = self.count_weekdays(from, 7);
            return days / 7 * week + self.count_weekdays(from, (days % 7) as u8);
        }
        self.count_days(from, end)
    }

    /// Counts the days that pass, from one day on and among at most 7 days.
    fn count_weekdays(&self, from: Date, days: u8) -> u32
        requires max { days ≤ 7 }
        requires weekdays { PassesByWeekday self.now }
        ensures value { result + count_before (passes self.now) from
            ≡ count_before (passes self.now) (from + days) }
        ensures max { result ≤ 7 }
    {
        let first = from.weekday().place();
        let mut count = 0;
        for index in 0..days {
            count += u32::from(self.may_fall_on((first + index) % 7));
        }
        count
    }

    /// Counts the days that pass, from one day on and before the day with the number `end`, from
    /// candidate to candidate.
    fn count_days(&self, from: Date, end: u32) -> u32
        requires order { from ≤ end }
        requires range { end ≤ last_day + 1 }
        ensures value { result + count_before (passes self.now) from
            ≡ count_before (passes self.now) end }
        ensures max { result ≤ end }
    {
        let mut count = 0;
        let mut day = from;
        while day_number(day) < end {
            count += u32::from(self.passes(day));
            match self.next_candidate(day) {
                Some(next) => day = next,
                None => return count,
            }
        }
        count
    }

    /// Returns `true` if an item with these numbers from the start and from the end has a position
    /// of the rule.
    fn is_position(&self, ahead: u32, back: u32) -> bool
        ensures { result ≡ allows (λ k. is_nth k ahead back) self.now.pattern.set_positions }
    {
        self.pattern.set_positions.is_empty()
            || any_position(self.pattern.set_positions.as_slice(), ahead, back)
    }

    /// Returns `true` if the date has a position among the days of its period that pass.
    pub(super) fn matches_positions(&self, date: Date) -> bool
        ensures { result ≡ matches_positions self.now date }
    {
        if self.pattern.set_positions.is_empty() {
            return true;
        }
        let ahead = self.count_passing(self.period_start(date), day_number(date) + 1);
        let back = self.count_passing(date, self.period_end(date));
        self.is_position(ahead, back)
    }

    /// Returns how many of the next days that pass in a period have no position, if a day that
    /// passes has these numbers from the start and from the end.
    fn count_without_position(&self, ahead: u32, back: u32) -> u32
        requires some { 1 ≤ back }
        requires max { (ahead ≤ last_day + 1) × (back ≤ last_day + 1) }
        ensures max { result < back }
        ensures none { (k : ℕ) → 1 ≤ k → k ≤ result
            → allows (λ p. is_nth p (ahead + k) (back - k)) self.now.pattern.set_positions ≡ false }
    {
        let mut days = 0;
        while days + 1 < back && !self.is_position(ahead + days + 1, back - days - 1) {
            days += 1;
        }
        days
    }

    /// Returns the number of a later day before which no day of the rule is, from a day that passes and
    /// has no position. `start` and `end` are those of its period, and `ahead` and `back` its numbers.
    /// Returns `None` if no such day is known.
    #[tactic(auto, using(crate::proofs::PositionSkips::skips))]
    fn skip_positions(&self, day: Date, start: Date, end: u32, ahead: u32, back: u32) -> Option<u64>
        requires start { IsPeriodStart self.now day start }
        requires end { IsPeriodEnd self.now day end }
        requires passes { passes self.now day ≡ true }
        requires ahead { ahead + count_before (passes self.now) start ≡ count_before (passes self.now) (day + 1) }
        requires back { back + count_before (passes self.now) day ≡ count_before (passes self.now) end }
        requires off { allows (λ k. is_nth k ahead back) self.now.pattern.set_positions ≡ false }
        ensures { IfSome result (λ x. (day < x) × (x ≤ last_day + 1) × NoDayBetween self.now day x) }
    {
        let days = self.count_without_position(ahead, back);
        if days + 1 == back {
            return Some(u64::from(end));
        }
        let first = day_number(day);
        if days < 7 || first + 7 > end || !self.has_only_weekdays() {
            return None;
        }
        let weeks = days / self.count_passing(day, first + 7).max(1);
        if weeks == 0 {
            return None;
        }
        Some(u64::from(first) + 7 * u64::from(weeks))
    }

    /// Returns the first day of the rule from this day on in its period. If there is none, returns
    /// a later day to go on with, or `None` if the rule has no day from this day on.
    pub(super) fn find_position(&self, day: Date) -> Result<Date, Option<Date>>
        requires start { self.now.start ≤ day }
        requires until { matches_until self.now.until day ≡ true }
        requires turn { periods_past self.now day ≡ 0 }
        requires passes { passes self.now day ≡ true }
        ensures { IsStep self.now day result }
    {
        let end = self.period_end(day);
        let start = self.period_start(day);
        let mut ahead = self.count_passing(start, day_number(day) + 1);
        let back = self.count_passing(day, end);
        if self.is_position(ahead, back) {
            return Ok(day);
        }
        if let Some(number) = self.skip_positions(day, start, end, ahead, back) {
            return Err(date_from_number(number));
        }
        let mut after = back - 1;
        let mut at = day;
        while let Some(next) = self.next_candidate(at) {
            if day_number(next) >= end {
                return Err(Some(next));
            }
            if self.passes(next) {
                ahead += 1;
                if self.is_position(ahead, after) {
                    return if self.matches_until(next) {
                        Ok(next)
                    } else {
                        Err(None)
                    };
                }
                after -= 1;
            }
            at = next;
        }
        Err(None)
    }
}
