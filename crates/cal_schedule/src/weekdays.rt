//! The weekdays of a month, and weekdays near a date.
ghost use Rattle.std.specs.Prelude.{◌≡◌, ℕ, ◌+◌, ◌-◌, ◌*◌, ◌%◌, ◌<◌, ◌≤◌, ◌⊎◌, ◌↔◌, Ok, Some, IsTrue, IfOk, IfErr, IsErr, IfSome, SomeIff, slice_get};
ghost use Rattle.cal_time.specs.Date.{last_day, weekday_at, IsDate, IsYear, NoDate};
ghost use Rattle.cal_time.specs.Month.{number};
ghost use Rattle.cal_time.specs.ComponentError.{FailsWith};
ghost use Rattle.cal_time.specs.DateErrors.{year_out_of_range, weekday_out_of_range};
ghost use Rattle.cal_time.specs.Weekday.{index};
ghost use Rattle.cal_schedule.specs.Weekdays.{IsNthWeekday, IsLastWeekday, occurrences_from, occurrences_upto};

use crate::period_ends::{first_in_month, last_in_month};
use cal_time::error::{Component, ComponentRange};
use cal_time::limits::{MAX_YEAR, MIN_YEAR};
use cal_time::util::days_in_month;
use cal_time::{Cycle, Date, Month, Weekday};

/// Returns the days from one weekday to the next day with another, from 0 to 6.
fn days_to_weekday(from: Weekday, to: Weekday) -> u8
    ensures { result ≡ (index to + 7 - index from) % 7 }
{
    (to.place() + 7 - from.place()) % 7
}

/// Returns the n-th day with a weekday in a month, or `None` if there is none.
fn nth_weekday_in_month(year: i32, month: Month, weekday: Weekday, n: u8) -> Option<Date>
    requires { IsYear year }
    ensures every { (k : ℕ) → IsDate k → IsNthWeekday year (number month) (index weekday) n k
        → result ≡ Some k }
    ensures value { IfSome result (λ k.
        IsDate k × IsNthWeekday year (number month) (index weekday) n k) }
{
    if n == 0 || n > 5 {
        return None;
    }
    let first = first_in_month(year, month);
    let day = 7 * n - 6 + days_to_weekday(first.weekday(), weekday);
    match Date::from_calendar_date(year, month, day) {
        Ok(date) => Some(date),
        Err(_) => None,
    }
}

/// Returns the last day with a weekday in a month.
fn last_weekday_in_month(year: i32, month: Month, weekday: Weekday) -> Date
    requires { IsYear year }
    ensures value { IsLastWeekday year (number month) (index weekday) result }
    ensures range { IsDate result }
{
    let last = last_in_month(year, month);
    let day = days_in_month(month, year) - days_to_weekday(weekday, last.weekday());
    match Date::from_calendar_date(year, month, day) {
        Ok(date) => date,
        Err(_) => unreachable!(),
    }
}

/// Returns `true` if the year is in range.
fn is_year(year: i32) -> bool
    ensures { IsTrue result ↔ IsYear year }
{
    year >= MIN_YEAR && year <= MAX_YEAR
}

/// Returns the n-th day with a weekday in a month, counted from 1. The fourth Thursday of November
/// 2024 is the 28th. Returns the error `year` if it is out of range, and the conditional error
/// `weekday` if no day is the n-th: a month has four or five.
pub fn nth_weekday_of_month(
    year: i32,
    month: Month,
    weekday: Weekday,
    n: u8,
) -> Result<Date, ComponentRange>
    ensures every { (k : ℕ) → IsDate k → IsNthWeekday year (number month) (index weekday) n k
        → result ≡ Ok k }
    ensures value { IfOk result (λ k. IsDate k
        × IsNthWeekday year (number month) (index weekday) n k) }
    ensures error { IsErr result ↔ NoDate (IsNthWeekday year (number month) (index weekday) n) }
    ensures error_kind { IfErr result (λ e. (e ≡ year_out_of_range) ⊎ (e ≡ weekday_out_of_range)) }
    ensures year { FailsWith year_out_of_range result ↔ ¬ IsYear year }
    ensures weekday { FailsWith weekday_out_of_range result
        ↔ IsYear year × NoDate (IsNthWeekday year (number month) (index weekday) n) }
{
    if !is_year(year) {
        return Err(ComponentRange::unconditional(Component::Year));
    }
    match nth_weekday_in_month(year, month, weekday, n) {
        Some(date) => Ok(date),
        None => Err(ComponentRange::conditional(Component::Weekday)),
    }
}

/// Returns the last day with a weekday in a month. The last Friday of May 2024 is the 31st. Returns
/// the error `year` if it is out of range.
pub fn last_weekday_of_month(
    year: i32,
    month: Month,
    weekday: Weekday,
) -> Result<Date, ComponentRange>
    ensures every { (k : ℕ) → IsDate k → IsLastWeekday year (number month) (index weekday) k
        → result ≡ Ok k }
    ensures value { IfOk result (λ k. IsDate k
        × IsLastWeekday year (number month) (index weekday) k) }
    ensures error { IsErr result ↔ ¬ IsYear year }
    ensures error_kind { IfErr result (λ e. e ≡ year_out_of_range) }
{
    if !is_year(year) {
        return Err(ComponentRange::unconditional(Component::Year));
    }
    Ok(last_weekday_in_month(year, month, weekday))
}

/// Returns the first day with a weekday on or after a date, or `None` if the range ends before it.
/// The Monday on or after Friday 1 March 2024 is 4 March.
pub fn on_or_after(date: Date, weekday: Weekday) -> Option<Date>
    ensures value { result ≡ slice_get (occurrences_from (index weekday) date) 0 }
    ensures index { let days = (index weekday + 7 - weekday_at date) % 7 in
        SomeIff result (date + days ≤ last_day) (date + days) }
    ensures weekday { IfSome result (λ n. weekday_at n ≡ index weekday) }
    ensures in_range { IsDate date }
{
    if date.weekday() == weekday {
        Some(date)
    } else {
        date.checked_next_occurrence(weekday)
    }
}

/// Returns the last day with a weekday on or before a date, or `None` if the range begins after it.
/// The Monday on or before Friday 1 March 2024 is 26 February.
pub fn on_or_before(date: Date, weekday: Weekday) -> Option<Date>
    ensures value { result ≡ slice_get (occurrences_upto (index weekday) date) 0 }
    ensures index { let days = (weekday_at date + 7 - index weekday) % 7 in
        SomeIff result (days ≤ date) (date - days) }
    ensures weekday { IfSome result (λ n. weekday_at n ≡ index weekday) }
    ensures in_range { IsDate date }
{
    if date.weekday() == weekday {
        Some(date)
    } else {
        date.checked_prev_occurrence(weekday)
    }
}
