//! The first and the last day of a unit.
ghost use Rattle.std.specs.Prelude.{ℕ, IfNone, IfSome};
ghost use Rattle.cal_time.specs.Date.{IsDate};
ghost use Rattle.cal_schedule.specs.Units.{IsFirstOf, IsLastOf};

use crate::period_ends::{
    first_of_iso_week, first_of_month, first_of_quarter, first_of_year, last_of_iso_week,
    last_of_month, last_of_quarter, last_of_year,
};
use crate::unit::CalendarUnit;
use cal_time::Date;

/// Returns the first day of the day, ISO week, month, quarter or year that a date is in. For
/// 29 February 2024 and [`CalendarUnit::Quarter`] it is 1 January 2024.
pub fn first_of(date: Date, unit: CalendarUnit) -> Date
    ensures value { IsFirstOf unit date result }
    ensures in_range { IsDate date × IsDate result }
{
    // It states that the date is in range.
    let _ = date.to_julian_day();
    match unit {
        CalendarUnit::Day => date,
        CalendarUnit::Week => first_of_iso_week(date),
        CalendarUnit::Month => first_of_month(date),
        CalendarUnit::Quarter => first_of_quarter(date),
        CalendarUnit::Year => first_of_year(date),
    }
}

/// Returns the last day of the day, ISO week, month, quarter or year that a date is in, or `None`
/// if the range ends before it, as for the last week. For 29 February 2024 and [`CalendarUnit::Quarter`] it
/// is 31 March 2024.
pub fn last_of(date: Date, unit: CalendarUnit) -> Option<Date>
    ensures value { IfSome result (λ r. IsDate r × IsLastOf unit date r) }
    ensures none { IfNone result ((r : ℕ) → IsDate r → ¬ IsLastOf unit date r) }
{
    let _ = date.to_julian_day();
    match unit {
        CalendarUnit::Day => Some(date),
        CalendarUnit::Week => last_of_iso_week(date),
        CalendarUnit::Month => Some(last_of_month(date)),
        CalendarUnit::Quarter => Some(last_of_quarter(date)),
        CalendarUnit::Year => Some(last_of_year(date)),
    }
}
