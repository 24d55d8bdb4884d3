//! Moves from one day to another.
ghost use Rattle.std.specs.Prelude.{◌≡◌, ℕ, pos, neg_ℤ, ◌*ℤ◌, ◌≤ℤ◌, MatchOption};
ghost use Rattle.cal_time.specs.Date.{IsDate, julian_day_at};
ghost use Rattle.cal_schedule.specs.Months.{IsMonthsLater};
ghost use Rattle.cal_schedule.specs.Workdays.{nth_workday};
ghost use Rattle.cal_time.specs.Counted.{IsRising};
ghost use Rattle.caldate_answers.specs.Moves.{MovesTo, monday_to_friday, weekdays_except};

use crate::request::DayMove;
use cal_schedule::{
    Workdays, checked_add_months, checked_add_years, first_of, last_of, on_or_after, on_or_before,
};
use cal_time::Date;

/// Moves a day, or returns `None` if the result is out of range.
pub fn moved_day(workdays: &Workdays<'_>, date: Date, by: DayMove) -> Option<Date>
    ensures { MatchOption result ((n : ℕ) → ¬ MovesTo workdays.now by date n)
        (MovesTo workdays.now by date) }
{
    match by {
        DayMove::Next(weekday, count) => date.checked_nth_next_occurrence(weekday, count),
        DayMove::Last(weekday, count) => date.checked_nth_prev_occurrence(weekday, count),
        DayMove::OnOrAfter(weekday) => on_or_after(date, weekday),
        DayMove::OnOrBefore(weekday) => on_or_before(date, weekday),
        DayMove::Months(months) => months_later(date, months),
        DayMove::Years(years) => years_later(date, years),
        DayMove::Workdays(days) => workdays_later(workdays, date, days),
        DayMove::Start(unit) => Some(first_of(date, unit)),
        DayMove::End(unit) => last_of(date, unit),
    }
}

fn months_later(date: Date, months: i64) -> Option<Date>
    ensures { MatchOption result ((n : ℕ) → ¬ (IsDate n × IsMonthsLater date months n))
        (λ n. IsDate n × IsMonthsLater date months n) }
{
    checked_add_months(date, nearest(months))
}

fn years_later(date: Date, years: i64) -> Option<Date>
    ensures { MatchOption result ((n : ℕ) → ¬ (IsDate n × IsMonthsLater date (pos 12 *ℤ years) n))
        (λ n. IsDate n × IsMonthsLater date (pos 12 *ℤ years) n) }
{
    checked_add_years(date, nearest(years))
}

fn workdays_later(workdays: &Workdays<'_>, date: Date, days: i64) -> Option<Date>
    ensures { result ≡ nth_workday workdays.now days date }
{
    workdays.checked_add_workdays(date, nearest(days))
}

/// Clamps a number to -2000000000..=2000000000. Either bound is past the range in every unit.
fn nearest(number: i64) -> i32
    ensures below { number ≤ℤ neg_ℤ (pos 2_000_000_000) → result ≡ neg_ℤ (pos 2_000_000_000) }
    ensures within { neg_ℤ (pos 2_000_000_000) ≤ℤ number → number ≤ℤ pos 2_000_000_000
        → result ≡ number }
    ensures above { pos 2_000_000_000 ≤ℤ number → result ≡ pos 2_000_000_000 }
{
    if number < -2_000_000_000 {
        -2_000_000_000
    } else if number > 2_000_000_000 {
        2_000_000_000
    } else {
        number as i32
    }
}

/// Returns Monday to Friday.
pub fn workdays() -> Workdays<'static>
    ensures { result ≡ monday_to_friday }
{
    workdays_except(&[])
}

/// Returns Monday to Friday without the holidays.
pub fn workdays_except(holidays: &[Date]) -> Workdays<'_>
    requires { IsRising julian_day_at holidays.now }
    ensures { result ≡ weekdays_except holidays.now }
{
    match Workdays::new([true, true, true, true, true, false, false], holidays) {
        Some(workdays) => workdays,
        None => unreachable!(),
    }
}
