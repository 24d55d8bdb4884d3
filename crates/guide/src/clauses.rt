//! Functions that are proved from the clauses of `cal_time` only.
ghost use Rattle.std.specs.Prelude.{◌≡◌, pos, ◌+ℤ◌, ◌↔◌, IfOk, IfSome, IsNone, SomeIff};
ghost use Rattle.cal_time.specs.Date.{last_day, year_at, month_at, HasCalendarDate};
ghost use Rattle.cal_time.specs.Arithmetic.{IsDateNumber, clamped_date};
ghost use Rattle.cal_time.specs.Lengths.{days_in_month};
ghost use Rattle.cal_time.specs.Month.{number};

use cal_time::error::ComponentRange;
use cal_time::util::days_in_month;
use cal_time::{Date, Month, SignedDuration};
use std::io;

/// Returns the last day of the month.
fn last_of_month(year: i32, month: Month) -> Result<Date, ComponentRange>
    ensures { IfOk result (HasCalendarDate year (number month)
        (days_in_month year (number month))) }
{
    Date::from_calendar_date(year, month, days_in_month(month, year))
}

/// Returns the first day of the month, by the month's index.
fn month_start(date: Date) -> Date
    ensures { HasCalendarDate (year_at date) (month_at date) 1 result }
{
    let (index, _) = date.month_index_and_day();
    Date::from_month_index_clamped(date.year(), index, 1)
}

/// Returns the same day, by way of the next one, or `None` for the last day.
fn next_day_round_trip(date: Date) -> Option<Date>
    ensures same { IfSome result (λ same. same ≡ date) }
    ensures none { IsNone result ↔ (date ≡ last_day) }
{
    date.next_day()?.previous_day()
}

/// Returns the day a week later, which must be in the range.
fn week_after(date: Date) -> Date
    requires { IsDateNumber (pos date +ℤ pos 7) }
    ensures { pos result ≡ pos date +ℤ pos 7 }
{
    date + SignedDuration::days(7)
}

/// Returns the day a week later, or `None` if it is out of range.
fn week_after_if_any(date: Date) -> Option<Date>
    ensures { SomeIff result (IsDateNumber (pos date +ℤ pos 7)) (clamped_date (pos date +ℤ pos 7)) }
{
    if date.checked_add(SignedDuration::WEEK).is_some() {
        Some(week_after(date))
    } else {
        None
    }
}

/// Returns the last day of the range.
fn last_day() -> Date
    ensures { result ≡ last_day }
{
    Date::MAX
}

pub fn show(rt: &impl Print) -> io::Result<()> {
    if let Ok(date) = last_of_month(2020, Month::February) {
        println!(rt;
            "{} {date} {:?}",
            month_start(date),
            next_day_round_trip(date)
        )?;
        if let Some(day) = week_after_if_any(date) {
            println!(rt; "{day}")?;
        }
    }
    println!(rt; "{}", last_day())?;
    Ok(())
}
