//! Errors of constructors, and how to pass them on.
ghost use Rattle.std.specs.Prelude.{◌≡◌, ℕ, IfOk, IfErr, IfSome, IsNone};
ghost use Rattle.cal_time.specs.Date.{weekday_at, HasCalendarDate, HasJulianDay, HasOrdinalDate, IsDate};
ghost use Rattle.cal_time.specs.Month.{number};
ghost use Rattle.cal_time.specs.DateErrors.{julian_day_out_of_range};
ghost use Rattle.cal_time.specs.Weekday.{index};

use cal_time::error::ComponentRange;
use cal_time::{Date, Month, Time, Weekday};
use std::io;

/// Returns the first day of the month and its weekday, or passes the error on.
fn first_of_month_and_weekday(year: i32, month: Month) -> Result<(Date, Weekday), ComponentRange>
    ensures { IfOk result (λ first. HasCalendarDate year (number month) 1 first.0
        × (index first.1 ≡ weekday_at first.0)) }
{
    let date = Date::from_calendar_date(year, month, 1)?;
    Ok((date, date.weekday()))
}

/// Returns the date of a year and an ordinal, or `None`.
fn day_of_year(year: i32, ordinal: u16) -> Option<Date>
    ensures { IfSome result (HasOrdinalDate year ordinal) }
{
    Date::from_ordinal_date(year, ordinal).ok()
}

/// Returns the weekday of a Julian day, or the error.
fn weekday_of_julian_day(julian_day: i32) -> Result<Weekday, ComponentRange>
    ensures { IfErr result (λ error. error ≡ julian_day_out_of_range) }
{
    Date::from_julian_day(julian_day).map(|date| date.weekday())
}

/// Returns the date of a Julian day, or the last one if it is out of range.
fn day_or_last(julian_day: i32) -> Date
    ensures { (n : ℕ) → IsDate n → HasJulianDay julian_day n → result ≡ n }
{
    Date::from_julian_day(julian_day).unwrap_or(Date::MAX)
}

/// An error of a booking.
#[derive(Clone, Copy, Debug, PartialEq, Eq)]
enum NotBooked {
    /// The date is out of range.
    Date(ComponentRange),
    /// The time is out of range.
    Time(ComponentRange),
}

impl From<ComponentRange> for NotBooked {
    fn from(error: ComponentRange) -> Self {
        NotBooked::Date(error)
    }
}

/// Returns when a table is booked. `From` converts the error of the date, and `map_err` the other.
fn booking(year: i32, month: Month, day: u8, hour: u8) -> Result<(Date, Time), NotBooked>
    ensures { IfOk result (λ booked. HasCalendarDate year (number month) day booked.0) }
{
    let date = Date::from_calendar_date(year, month, day)?;
    let time = Time::from_hms(hour, 0, 0).map_err(NotBooked::Time)?;
    Ok((date, time))
}

/// Returns the name of the first component out of range, or `None` for a date.
fn component_at_fault(year: i32, month: Month, day: u8) -> Option<&'static str>
    ensures { (n : ℕ) → IsDate n → HasCalendarDate year (number month) day n → IsNone result }
{
    match Date::from_calendar_date(year, month, day) {
        Ok(_) => None,
        Err(error) => Some(error.name()),
    }
}

fn describe(rt: &impl Print, year: i32, month: Month, day: u8) -> io::Result<()> {
    match Date::from_calendar_date(year, month, day) {
        Ok(date) => println!(rt; "{date}"),
        Err(error) if error.is_conditional() => println!(rt; "{error} of {month} {year}"),
        Err(error) => println!(rt; "{error}"),
    }
}

/// Returns a table booked in the evening, one on a day that doesn't exist, and one at 24:00.
fn bookings() -> [Result<(Date, Time), NotBooked>; 3] {
    [
        booking(2024, Month::February, 29, 20),
        booking(2024, Month::February, 30, 20),
        booking(2024, Month::February, 29, 24),
    ]
}

/// Returns days that exist and days that don't.
fn days_found() -> [Option<Date>; 3] {
    [
        day_of_year(2020, 366),
        day_of_year(2019, 366),
        Some(day_or_last(i32::MAX)),
    ]
}

pub fn show(rt: &impl Print) -> io::Result<()> {
    for year in [2020, 2019, 1_000_000] {
        describe(rt, year, Month::February, 29)?;
    }
    println!(rt;
        "{:?} {:?} {:?}",
        first_of_month_and_weekday(2019, Month::February),
        weekday_of_julian_day(2_451_545),
        days_found()
    )?;
    let name = component_at_fault(2023, Month::February, 29);
    println!(rt; "{:?} {name:?}", bookings())
}
