//! The days that can pass the months and the days of a rule.
ghost use Rattle.std.specs.Prelude.{◌≡◌, ℕ, ◌+◌, ◌<◌, ◌≤◌, ◌==◌, false};
ghost use Rattle.std.specs.List.{list_any};
ghost use Rattle.cal_time.specs.Date.{month_at, weekday_at, year_at};
ghost use Rattle.cal_time.specs.Lengths.{days_in_month, days_in_year};
ghost use Rattle.cal_time.specs.Weekday.{index};
ghost use Rattle.cal_schedule.specs.Rule.{is_month_day, is_nth, is_year_day, passes};
ghost use Rattle.cal_schedule.specs.RuleSearch.{may_fall_on, by_day_weekday, IsCandidate};

use crate::rule::matching::is_nth;
use crate::rule::periods::next_period;
use crate::rule::positions::any_position;
use crate::rule::rule::{ByDay, Rule};
use crate::rule::unit::PeriodUnit;
use cal_date::day_number::{date_from_number, day_number};
use cal_time::util::{days_in_month, days_in_year};
use cal_time::{Cycle, Date, Weekday};

/// Returns the weekday, without its number.
fn by_day_weekday(by: ByDay) -> Weekday
    ensures { result ≡ by_day_weekday by }
{
    match by {
        ByDay::Every(weekday) | ByDay::Nth(_, weekday) => weekday,
    }
}

/// Returns `true` if one of the weekdays has this index, from 0 for Monday.
fn any_at_weekday_index(weekdays: &[ByDay], at: u8) -> bool
    ensures { result ≡ list_any (λ by. at == index (by_day_weekday by)) weekdays.now }
{
    weekdays.iter().any(|by| at == by_day_weekday(*by).place())
}

/// Returns the number of days of the year of a date.
fn year_length(date: Date) -> u32
    ensures { result ≡ days_in_year (year_at date) }
{
    u32::from(days_in_year(date.year()))
}

/// Returns the number of days of the month of a date.
fn month_length(date: Date) -> u32
    ensures value { result ≡ days_in_month (year_at date) (month_at date) }
    ensures max { result ≤ 31 }
{
    u32::from(days_in_month(date.month(), date.year()))
}

/// Returns the days to the next one of these days of the year, or to the first day of the next year.
fn days_to_year_day(numbers: &[i16], day: Date) -> u32
    ensures min { 1 ≤ result }
    ensures skipped { (k : ℕ) → day < k → k < day + result → list_any (is_year_day k) numbers.now ≡ false }
{
    let at = u32::from(day.ordinal());
    let length = year_length(day);
    let mut days = 1;
    while at + days <= length {
        if any_position(numbers, at + days, length + 1 - at - days) {
            return days;
        }
        days += 1;
    }
    days
}

/// Returns `true` if one of these numbers is the number of a day of a month, from its start or its
/// end.
fn any_month_day(numbers: &[i8], ahead: u32, back: u32) -> bool
    ensures { result ≡ list_any (λ k. is_nth k ahead back) numbers.now }
{
    numbers.iter().any(|k| is_nth(i16::from(*k), ahead, back))
}

/// Returns the days to the next one of these days of the month, or to the first day of the next
/// month.
fn days_to_month_day(numbers: &[i8], day: Date) -> u32
    ensures min { 1 ≤ result }
    ensures skipped { (k : ℕ) → day < k → k < day + result → list_any (is_month_day k) numbers.now ≡ false }
{
    let at = u32::from(day.day());
    let length = month_length(day);
    let mut days = 1;
    while at + days <= length {
        if any_month_day(numbers, at + days, length + 1 - at - days) {
            return days;
        }
        days += 1;
    }
    days
}

impl Rule {
    /// Returns `true` if the rule can match a day with the weekday at this index.
    pub(super) fn may_fall_on(&self, at: u8) -> bool
        ensures { result ≡ may_fall_on self.now at }
    {
        self.pattern.weekdays.is_empty()
            || any_at_weekday_index(self.pattern.weekdays.as_slice(), at)
    }

    /// Returns the days to the next day with a weekday that the rule can match, at most 7.
    fn days_to_weekday(&self, day: Date) -> u8
        ensures min { 1 ≤ result }
        ensures max { result ≤ 7 }
        ensures skipped { (k : ℕ) → day < k → k < day + result
            → may_fall_on self.now (weekday_at k) ≡ false }
    {
        let mut days = 1;
        while days < 7 {
            if self.may_fall_on((day.weekday().place() + days) % 7) {
                return days;
            }
            days += 1;
        }
        days
    }

    /// Returns the days to the next day that the days of the year or of the month, or else the
    /// weekdays, can match.
    #[tactic(auto, using(crate::proofs::Candidates::skips))]
    fn days_to_skip(&self, day: Date) -> u32
        ensures min { 1 ≤ result }
        ensures skipped { (k : ℕ) → day < k → k < day + result → passes self.now k ≡ false }
    {
        if !self.pattern.year_days.is_empty() {
            return days_to_year_day(self.pattern.year_days.as_slice(), day);
        }
        if !self.pattern.month_days.is_empty() {
            return days_to_month_day(self.pattern.month_days.as_slice(), day);
        }
        u32::from(self.days_to_weekday(day))
    }

    /// Returns a later day. No day between them passes the months, the weeks and the days. Returns
    /// `None` if no later day passes.
    #[inline(always)]
    pub(super) fn next_candidate(&self, day: Date) -> Option<Date>
        ensures { IsCandidate self.now day result }
    {
        if !self.matches_months(day) {
            return next_period(PeriodUnit::Month, day);
        }
        if !self.matches_weeks(day) {
            return next_period(PeriodUnit::Week(self.pattern.week_start), day);
        }
        date_from_number(u64::from(day_number(day)) + u64::from(self.days_to_skip(day)))
    }
}
