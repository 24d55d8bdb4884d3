//! Laws of rules: periods, the numbers of weekdays and weeks agree with a count of the days.
ghost use Rattle.std.specs.Prelude.{◌≡◌};
ghost use Rattle.cal_schedule.specs.Rule.{is_nth_weekday, is_week, period_index};
ghost use Rattle.cal_schedule.specs.RuleLaws.{NumbersByCount, RisesAtBeginning, WeeksByCount};

use crate::PeriodUnit;
use crate::rule::{self, is_nth_in_period, period_of};
use cal_time::{Date, Weekday};

/// Returns the index of the period of a date, by which a rule counts its interval.
///
/// From one date to the next, the index rises by 1 if the next date begins a period, else it stays.
/// For example, from Sunday 2024-01-07 to Monday it rises if weeks begin on Monday, and stays if
/// they begin on Sunday.
pub fn period_index(unit: PeriodUnit, date: Date) -> u32
    ensures value { result ≡ period_index unit date }
    ensures rises { RisesAtBeginning unit date }
{
    period_of(unit, date)
}

/// Returns `true` if a date is the n-th of its weekday in its month or year, by the number of a
/// rule. A positive n counts from the start, a negative one from the end: 31 May 2024 is the fifth
/// Friday of its month, and by -1 the last.
pub fn is_nth_weekday(of_year: bool, date: Date, n: i8) -> bool
    ensures value { result ≡ is_nth_weekday of_year date n }
    ensures counts { NumbersByCount date }
{
    is_nth_in_period(of_year, date, n)
}

/// Returns `true` if the week of a date is the n-th of its year, in a rule whose weeks begin on
/// `first`. A week is in the year of its fourth day.
///
/// A positive n counts from the start of the year, and a negative n from the end. 2024-01-06 is a
/// Saturday: if weeks begin on Sunday its week is the first of 2024, and if they begin on Saturday
/// its week is the second.
pub fn is_week(first: Weekday, date: Date, n: i8) -> bool
    ensures value { result ≡ is_week first date n }
    ensures counts { WeeksByCount first date }
{
    rule::is_week(first, date, n)
}
