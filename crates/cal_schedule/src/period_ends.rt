//! The first and the last day of a month, a quarter, a year and a week.
ghost use Rattle.std.specs.Prelude.{◌≡◌, ◌+◌, ◌-◌, ◌*◌, ◌≤◌, IfSome, SomeIff};
ghost use Rattle.cal_time.specs.Date.{last_day, year_at, month_at, day_of_month_at, weekday_at, IsDate, IsYear, HasCalendarDate};
ghost use Rattle.cal_time.specs.IsoWeekDate.{iso_year_at, iso_week_at, HasIsoWeekDate};
ghost use Rattle.cal_time.specs.Lengths.{days_in_month};
ghost use Rattle.cal_time.specs.Month.{number};
ghost use Rattle.cal_schedule.specs.Months.{quarter_at};

use cal_time::util::days_in_month;
use cal_time::{Cycle, Date, Month};

/// Returns the first day of a month. The year must be in range.
#[tactic(auto, using(crate::proofs::Ends::lengths))]
pub(crate) fn first_in_month(year: i32, month: Month) -> Date
    requires { IsYear year }
    ensures value { HasCalendarDate year (number month) 1 result }
    ensures range { IsDate result }
{
    match Date::from_calendar_date(year, month, 1) {
        Ok(date) => date,
        Err(_) => unreachable!(),
    }
}

/// Returns the last day of a month. The year must be in range.
#[tactic(auto, using(crate::proofs::Ends::lengths))]
pub(crate) fn last_in_month(year: i32, month: Month) -> Date
    requires { IsYear year }
    ensures value { HasCalendarDate year (number month) (days_in_month year (number month)) result }
    ensures range { IsDate result }
{
    match Date::from_calendar_date(year, month, days_in_month(month, year)) {
        Ok(date) => date,
        Err(_) => unreachable!(),
    }
}

/// Returns the first day of the month. For 29 February 2024 it is 1 February 2024.
pub fn first_of_month(date: Date) -> Date
    ensures value { HasCalendarDate (year_at date) (month_at date) 1 result }
    ensures days { result + day_of_month_at date ≡ date + 1 }
    ensures in_range { IsDate date × IsDate result }
{
    first_in_month(date.year(), date.month())
}

/// Returns the last day of the month. For 1 February 2024 it is 29 February 2024.
pub fn last_of_month(date: Date) -> Date
    ensures value { HasCalendarDate (year_at date) (month_at date)
        (days_in_month (year_at date) (month_at date)) result }
    ensures days { result + day_of_month_at date
        ≡ date + days_in_month (year_at date) (month_at date) }
    ensures in_range { IsDate date × IsDate result }
{
    last_in_month(date.year(), date.month())
}

/// Returns the quarter of the year, from 1 to 4. For 31 March it is 1, and for 1 April it is 2.
pub fn quarter(date: Date) -> u8
    ensures value { result ≡ quarter_at date }
    ensures range { (1 ≤ result) × (result ≤ 4) }
    ensures in_range { IsDate date }
{
    let (index, _) = date.month_index_and_day();
    index / 3 + 1
}

/// Returns the first day of the quarter. For 29 February 2024 it is 1 January 2024.
pub fn first_of_quarter(date: Date) -> Date
    ensures value { HasCalendarDate (year_at date) (3 * quarter_at date - 2) 1 result }
    ensures max { result ≤ date }
    ensures in_range { IsDate date × IsDate result }
{
    let index = date.month().place();
    first_in_month(date.year(), Month::at(index - index % 3))
}

/// Returns the last day of the quarter. For 29 February 2024 it is 31 March 2024.
pub fn last_of_quarter(date: Date) -> Date
    ensures value { HasCalendarDate (year_at date) (3 * quarter_at date)
        (days_in_month (year_at date) (3 * quarter_at date)) result }
    ensures min { date ≤ result }
    ensures in_range { IsDate date × IsDate result }
{
    let index = date.month().place();
    last_in_month(date.year(), Month::at(index - index % 3 + 2))
}

/// Returns the first day of the year. For 29 February 2024 it is 1 January 2024.
pub fn first_of_year(date: Date) -> Date
    ensures value { HasCalendarDate (year_at date) 1 1 result }
    ensures max { result ≤ date }
    ensures in_range { IsDate date × IsDate result }
{
    first_in_month(date.year(), Month::January)
}

/// Returns the last day of the year. For 29 February 2024 it is 31 December 2024.
pub fn last_of_year(date: Date) -> Date
    ensures value { HasCalendarDate (year_at date) 12 31 result }
    ensures min { date ≤ result }
    ensures in_range { IsDate date × IsDate result }
{
    last_in_month(date.year(), Month::December)
}

/// Returns the Monday of the ISO week. For Friday 1 January 2021 it is 28 December 2020. Every date
/// has one, because the range begins on a Monday.
pub fn first_of_iso_week(date: Date) -> Date
    ensures value { HasIsoWeekDate (iso_year_at date) (iso_week_at date) 0 result }
    ensures days { result + weekday_at date ≡ date }
    ensures in_range { IsDate date × IsDate result }
{
    let back = i32::from(date.weekday().place());
    match Date::from_julian_day(date.to_julian_day() - back) {
        Ok(monday) => monday,
        Err(_) => unreachable!(),
    }
}

/// Returns the Sunday of the ISO week, or `None` for the last five days of the range, which ends on
/// a Friday. For Friday 1 January 2021 it is 3 January 2021.
pub fn last_of_iso_week(date: Date) -> Option<Date>
    ensures value { SomeIff result (date + 6 ≤ last_day + weekday_at date)
        (date + 6 - weekday_at date) }
    ensures date { IfSome result (HasIsoWeekDate (iso_year_at date) (iso_week_at date) 6) }
    ensures in_range { IsDate date }
{
    let on = 6 - i32::from(date.weekday().place());
    match Date::from_julian_day(date.to_julian_day() + on) {
        Ok(sunday) => Some(sunday),
        Err(_) => None,
    }
}
