//! The weeks of a rule.
ghost use Rattle.std.specs.Prelude.{◌≡◌, ◌+◌, ◌*◌, ◌≤◌, true};
ghost use Rattle.std.specs.List.{list_any};
ghost use Rattle.cal_time.specs.Date.{IsDate};
ghost use Rattle.cal_schedule.specs.Rule.{fourth_day, is_nth_weekday, is_week, matches_weeks};

use crate::rule::matching::is_nth_in_period;
use crate::rule::rule::Rule;
use cal_date::day_number::{date_from_number, day_number};
use cal_time::{Cycle, Date, Weekday};

/// Returns the fourth day of the week of a date, 400 years later, moved back by periods of 400
/// years into the range, and the number of these periods, at most 2.
#[tactic(auto, unfolding(crate::specs::Rule::fourth_day))]
pub(super) fn fourth_day(first: Weekday, date: Date) -> (Date, u32)
    ensures place { result.0 + 146_097 * result.1 ≡ fourth_day first date }
    ensures max { result.1 ≤ 2 }
    ensures in_range { IsDate date }
{
    let days = (date.weekday().place() + 7 - first.place()) % 7;
    let number = u64::from(day_number(date)) + 146_100 - u64::from(days);
    match date_from_number(number) {
        Some(day) => (day, 0),
        None => match date_from_number(number - 292_194) {
            Some(day) => (day, 2),
            None => (date, 0),
        },
    }
}

/// Returns `true` if the week of the date has the number.
pub(crate) fn is_week(first: Weekday, date: Date, n: i8) -> bool
    ensures { result ≡ is_week first date n }
{
    is_nth_in_period(true, fourth_day(first, date).0, n)
}

/// Returns `true` if the day is one of these of its weekday in its year.
fn any_nth(weeks: &[i8], day: Date) -> bool
    ensures { result ≡ list_any (is_nth_weekday true day) weeks.now }
{
    weeks.iter().any(|week| is_nth_in_period(true, day, *week))
}

impl Rule {
    /// Returns `true` if the week of the date passes the rule.
    #[tactic(auto, unfolding(crate::specs::Rule::matches_weeks))]
    pub(super) fn matches_weeks(&self, date: Date) -> bool
        ensures { result ≡ matches_weeks self.now date }
    {
        self.pattern.weeks.is_empty()
            || any_week(self.pattern.weeks.as_slice(), self.pattern.week_start, date)
    }
}

/// Returns `true` if the week of the date has one of these numbers.
fn any_week(weeks: &[i8], first: Weekday, date: Date) -> bool
    ensures { result ≡ list_any (is_week first date) weeks.now }
{
    any_nth(weeks, fourth_day(first, date).0)
}
