//! Functions that are proved from the clauses and the laws of `cal_time`: days in order.
ghost use Rattle.std.specs.Prelude.{◌≡◌, ◌+◌, ◌-◌, ◌≤◌, ◌<ℤ◌, ◌≤ℤ◌, ◌==◌, pos, IfSome, IsTrue, ◌↔◌, Some};
ghost use Rattle.cal_time.specs.Date.{first_year, last_year, last_day, year_at, month_at, IsYear, HasCalendarDate, HasOrdinalDate};
ghost use Rattle.cal_time.specs.Filters.{IsFirstDay};
ghost use Rattle.cal_time.specs.Lengths.{days_in_year};
ghost use Rattle.cal_time.specs.Occurrences.{has_weekday};

use cal_time::{Date, Month, SignedDuration, Weekday};
use std::io;

/// Returns `true` if two dates are the same.
fn is_same(one: Date, other: Date) -> bool
    ensures value { result ≡ (one == other) }
    ensures equal { IsTrue result ↔ (one ≡ other) }
{
    one == other
}

/// Returns the year some days later, or the last year of the range. It is not an earlier year.
fn later_year(date: Date, days: u32) -> i32
    ensures { year_at date ≤ℤ result }
{
    date.saturating_add(SignedDuration::days(i64::from(days)))
        .year()
}

/// Counts the days from one day to another of the same year, which must not be earlier.
#[tactic(auto, using(cal_time::specs::Components::days_apart))]
fn days_between_in_year(from: Date, to: Date) -> u16
    requires order { from ≤ to }
    requires year { year_at from ≡ year_at to }
    ensures { from + result ≡ to }
{
    to.ordinal() - from.ordinal()
}

/// Returns the first day of a year. The year must be in range.
fn new_year(year: i32) -> Date
    requires { IsYear year }
    ensures { HasOrdinalDate year 1 result }
{
    match Date::from_ordinal_date(year, 1) {
        Ok(date) => date,
        Err(_) => unreachable!(),
    }
}

/// Returns the number of days from 1 January of the year to the next 1 January.
fn days_to_next_new_year(year: i32) -> i32
    requires first { first_year ≤ℤ year }
    requires last { year <ℤ last_year }
    ensures { result ≡ pos (days_in_year year) }
{
    new_year(year + 1).to_julian_day() - new_year(year).to_julian_day()
}

/// Returns the first day of the month of this date.
#[tactic(auto, using(cal_time::specs::Days::ranges))]
fn first_of_same_month(date: Date) -> Date
    ensures { HasCalendarDate (year_at date) (month_at date) 1 result }
{
    match date.replace_day(1) {
        Ok(first) => first,
        Err(_) => unreachable!(),
    }
}

/// Returns the first item of the iterator from one date to another, the first date.
#[tactic(auto, using(cal_time::specs::Walks::days_of_walks))]
fn first_of_walk(from: Date, to: Date) -> Option<Date>
    requires { from ≤ to }
    ensures { result ≡ Some from }
{
    from.iter_to(to).next()
}

/// Returns the next Friday. No day before it is a Friday.
#[tactic(auto, using(cal_time::specs::Filters::first_matching))]
fn next_friday(date: Date) -> Option<Date>
    ensures { IfSome result (IsFirstDay (has_weekday 4) (date + 1) (last_day - date)) }
{
    date.checked_next_occurrence(Weekday::Friday)
}

pub fn show(rt: &impl Print) -> io::Result<()> {
    let Ok(from) = Date::from_calendar_date(2024, Month::February, 28) else {
        return Ok(());
    };
    let Ok(to) = Date::from_calendar_date(2024, Month::December, 31) else {
        return Ok(());
    };
    let counts = [later_year(from, 365), days_to_next_new_year(2024)];
    let days = (first_of_same_month(from), next_friday(from));
    println!(rt; "{} {counts:?} {days:?}", is_same(from, to))?;
    if from <= to && from.year() == to.year() {
        let walked = first_of_walk(from, to);
        println!(rt; "{walked:?} {}", days_between_in_year(from, to))?;
    }
    Ok(())
}
