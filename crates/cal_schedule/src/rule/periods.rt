//! The periods of rules: the index of a day, and the first day of an index.
ghost use Rattle.std.specs.Prelude.{◌≡◌, ◌+◌, ◌≤◌, ◌<◌, IfSome, MatchOption};
ghost use Rattle.cal_date.specs.CountLaws.{days_of_years};
ghost use Rattle.cal_time.specs.Date.{last_day, IsDate};
ghost use Rattle.cal_time.specs.DateLimits.{years_in_range};
ghost use Rattle.cal_schedule.specs.Rule.{period_index, unit_of};
ghost use Rattle.cal_schedule.specs.RuleSearch.{IsFirstOfPeriod};
ghost use Rattle.cal_schedule.specs.declared.rule.unit.PeriodUnit.TheVariants.{Month, Week, WeekYear, Year};

use crate::months::clamped_date_in_month;
use crate::rule::rule::Rule;
use crate::rule::unit::PeriodUnit;
use crate::rule::weeks::fourth_day;
use cal_date::day_number::{date_from_number, day_number};
use cal_time::limits::MIN_YEAR;
use cal_time::{Cycle, Date, Weekday, limits};

/// The number of months in the range.
const MONTHS: u64 = limits::MONTHS as u64;

/// Returns the index of the day, week, month or year of a date, from 0 at the start of the range.
#[tactic(auto, unfolding(crate::specs::Rule::period_index))]
pub(crate) fn period_of(unit: PeriodUnit, date: Date) -> u32
    ensures value { result ≡ period_index unit date }
    ensures max { result ≤ last_day }
    ensures in_range { IsDate date }
{
    match unit {
        PeriodUnit::Day => day_number(date),
        PeriodUnit::Week(first) => (day_number(date) + 7 - u32::from(first.place())) / 7,
        PeriodUnit::Month => date.month_number_and_day().0,
        PeriodUnit::Year => year_index(date),
        PeriodUnit::WeekYear(first) => week_year(first, date),
    }
}

/// Returns the index of the year of a date.
#[tactic(auto, unfolding(crate::specs::Rule::period_index))]
fn year_index(date: Date) -> u32
    ensures value { result ≡ period_index Year date }
    ensures max { result < years_in_range }
    ensures in_range { IsDate date }
{
    (date.year() - MIN_YEAR) as u32
}

/// Returns the index of the year of the week of a date, from 0 for the year before the range.
fn week_year(first: Weekday, date: Date) -> u32
    ensures value { result ≡ period_index (WeekYear first) date }
    ensures max { result ≤ last_day }
    ensures in_range { IsDate date }
{
    let (day, periods) = fourth_day(first, date);
    year_index(day) + 400 * periods - 399
}

/// Returns the first day of the month with this index.
fn first_of_month_number(index: u64) -> Option<Date>
    ensures { IsFirstOfPeriod Month index result }
{
    if index < MONTHS {
        Some(clamped_date_in_month(index as u32, 1))
    } else {
        None
    }
}

/// Returns the first day of the range in the week with this index or a later one.
#[tactic(auto, unfolding(crate::specs::Rule::period_index))]
fn first_of_week(first: Weekday, index: u64) -> Option<Date>
    requires { index < 8_589_934_592 }
    ensures { IsFirstOfPeriod (Week first) index result }
{
    date_from_number((7 * index + u64::from(first.place())).saturating_sub(7))
}

/// Returns the number of the first day of the year with this index, or `None` past the range.
fn first_of_year(index: u64) -> Option<u64>
    requires { index < 8_589_934_592 }
    ensures value { MatchOption result (years_in_range ≤ index) (λ day. day ≡ days_of_years index) }
    ensures max { IfSome result (λ day. day ≤ last_day) }
{
    match first_of_month_number(12 * index) {
        Some(day) => Some(u64::from(day_number(day))),
        None => None,
    }
}

/// Returns the first day of the range in the year of weeks with this index or a later one.
fn first_of_week_year(first: Weekday, index: u64) -> Option<Date>
    requires { index < 8_589_934_592 }
    ensures { IsFirstOfPeriod (WeekYear first) index result }
{
    if index == 0 {
        return first_of_week(first, 0);
    }
    // The year can lie past the range, and the one 400 years earlier is like it.
    let (year, days) = if index > 400 {
        (index - 401, 146_097)
    } else {
        (index - 1, 0)
    };
    match first_of_year(year) {
        // The first week has 4 January.
        Some(day) => first_of_week(first, (day + days + 10 - u64::from(first.place())) / 7),
        None => None,
    }
}

/// Returns the first day of the range in the period with this index or a later one, or `None` if
/// there is none.
#[tactic(auto, unfolding(crate::specs::Rule::period_index), using(crate::proofs::Rules::firsts))]
fn first_of_period(unit: PeriodUnit, index: u64) -> Option<Date>
    requires { index < 8_589_934_592 }
    ensures { IsFirstOfPeriod unit index result }
{
    match unit {
        PeriodUnit::Day => date_from_number(index),
        PeriodUnit::Week(first) => first_of_week(first, index),
        PeriodUnit::Month => first_of_month_number(index),
        PeriodUnit::Year => first_of_month_number(12 * index),
        PeriodUnit::WeekYear(first) => first_of_week_year(first, index),
    }
}

/// Returns the first day of the period after the period of a date, or `None` if the range has none.
pub(super) fn next_period(unit: PeriodUnit, date: Date) -> Option<Date>
    ensures { IsFirstOfPeriod unit (period_index unit date + 1) result }
{
    first_of_period(unit, u64::from(period_of(unit, date)) + 1)
}

impl Rule {
    /// Returns the index of the period of a date.
    pub(super) fn period(&self, date: Date) -> u32
        ensures value { result ≡ period_index (unit_of self.now) date }
        ensures max { result ≤ last_day }
        ensures in_range { IsDate date }
    {
        period_of(self.unit(), date)
    }

    /// Returns the first day of the range in the rule's period with this index or a later one.
    pub(super) fn first_of_period(&self, index: u64) -> Option<Date>
        requires { index < 8_589_934_592 }
        ensures { IsFirstOfPeriod (unit_of self.now) index result }
    {
        first_of_period(self.unit(), index)
    }
}
