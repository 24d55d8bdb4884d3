//! Dates by what they have, and neighbours.
ghost use Rattle.std.specs.Prelude.{◌≡◌, ◌+ℤ◌, ◌-ℤ◌, pos, Ok, IfOk, IfSome};
ghost use Rattle.cal_date.specs.Date.{first_julian_day};
ghost use Rattle.cal_date.specs.Arithmetic.{IsDateNumber};

use cal_time::error::ComponentRange;
use cal_time::{Date, Month, Weekday};

pub fn by_julian_day(date: Date) -> Result<Date, ComponentRange>
    ensures { result ≡ Ok date }
{
    Date::from_julian_day(date.to_julian_day())
}

pub fn by_ordinal_date(date: Date) -> Result<Date, ComponentRange>
    ensures { result ≡ Ok date }
{
    let (year, ordinal) = date.to_ordinal_date();
    Date::from_ordinal_date(year, ordinal)
}

pub fn by_calendar_date(date: Date) -> Result<Date, ComponentRange>
    ensures { result ≡ Ok date }
{
    let (year, month, day) = date.to_calendar_date();
    Date::from_calendar_date(year, month, day)
}

pub fn by_iso_week_date(date: Date) -> Result<Date, ComponentRange>
    ensures { result ≡ Ok date }
{
    let (year, week, weekday) = date.to_iso_week_date();
    Date::from_iso_week_date(year, week, weekday)
}

pub fn julian_day(julian_day: i32) -> Result<i32, ComponentRange>
    requires { IsDateNumber (julian_day -ℤ first_julian_day) }
    ensures { result ≡ Ok julian_day }
{
    Ok(Date::from_julian_day(julian_day)?.to_julian_day())
}

pub fn ordinal_date(year: i32, ordinal: u16) -> Result<(i32, u16), ComponentRange>
    ensures { IfOk result (λ has. has ≡ (year, ordinal)) }
{
    Ok(Date::from_ordinal_date(year, ordinal)?.to_ordinal_date())
}

pub fn calendar_date(year: i32, month: Month, day: u8) -> Result<(i32, Month, u8), ComponentRange>
    ensures { IfOk result (λ has. has ≡ (year, month, day)) }
{
    Ok(Date::from_calendar_date(year, month, day)?.to_calendar_date())
}

pub fn iso_week_date(
    year: i32,
    week: u8,
    weekday: Weekday,
) -> Result<(i32, u8, Weekday), ComponentRange>
    ensures { IfOk result (λ has. has ≡ (year, week, weekday)) }
{
    Ok(Date::from_iso_week_date(year, week, weekday)?.to_iso_week_date())
}

/// Returns the Julian days of a date and of the next one.
pub fn next_julian_day(date: Date) -> Option<(i32, i32)>
    ensures { IfSome result (λ days. days.1 ≡ days.0 +ℤ pos 1) }
{
    match date.next_day() {
        Some(next) => Some((date.to_julian_day(), next.to_julian_day())),
        None => None,
    }
}

/// Returns the Julian days of a date and of the previous one.
pub fn previous_julian_day(date: Date) -> Option<(i32, i32)>
    ensures { IfSome result (λ days. days.1 ≡ days.0 -ℤ pos 1) }
{
    match date.previous_day() {
        Some(previous) => Some((date.to_julian_day(), previous.to_julian_day())),
        None => None,
    }
}
