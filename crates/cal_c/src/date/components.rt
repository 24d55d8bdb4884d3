//! The components of dates.
ghost use Rattle.std.specs.Prelude.{◌≡◌, ◌+◌, pos};
ghost use Rattle.cal_time.specs.Date.{year_at, month_at, day_of_month_at, ordinal_at, weekday_at};
ghost use Rattle.cal_time.specs.IsoWeekDate.{iso_week_at, weekday_count};
ghost use Rattle.cal_c.specs.Columns.{IsCalendarDateOf, IsOrdinalDateOf, IsIsoWeekDateOf};
ghost use Rattle.cal_c.specs.Results.{number_ok, number_error};
ghost use Rattle.cal_c.specs.Values.{IsJulianDay, day_of};

use crate::day_number::day_number;
use crate::results::{CalendarDateResult, IsoWeekDateResult, NumberResult, OrdinalDateResult};
use crate::status::{INVALID_DATE, OK};
use crate::values::valid_date;
use cal_date::day_number::{days_since_monday, to_calendar_date, to_iso_week_date};

/// Returns the year, the month and the day of the month. For 2451604 they are 2000, 2 and 29.
#[unsafe(no_mangle)]
pub extern "C" fn fots_date_to_calendar_date(date: i32) -> CalendarDateResult
    ensures { IsCalendarDateOf date result }
{
    let number = or_error!(CalendarDateResult, day_number(date), INVALID_DATE);
    let (year, month, day) = to_calendar_date(number);
    CalendarDateResult {
        status: OK,
        year,
        month,
        day,
    }
}

/// Returns the year and the ordinal. For 2451604 they are 2000 and 60.
#[unsafe(no_mangle)]
pub extern "C" fn fots_date_to_ordinal_date(date: i32) -> OrdinalDateResult
    ensures { IsOrdinalDateOf date result }
{
    let date = or_error!(OrdinalDateResult, valid_date(date), INVALID_DATE);
    let (year, ordinal) = date.to_ordinal_date();
    OrdinalDateResult {
        status: OK,
        year,
        ordinal: u32::from(ordinal),
    }
}

/// Returns the ISO year, the week and the weekday. For 2451604 they are 2000, 9 and 2.
#[unsafe(no_mangle)]
pub extern "C" fn fots_date_to_iso_week_date(date: i32) -> IsoWeekDateResult
    ensures { IsIsoWeekDateOf date result }
{
    let number = or_error!(IsoWeekDateResult, day_number(date), INVALID_DATE);
    let (year, week, weekday) = to_iso_week_date(number);
    IsoWeekDateResult {
        status: OK,
        year,
        week: u32::from(week),
        weekday: u32::from(weekday),
    }
}

/// Returns the year, from -999999 to 999999. For 2451604 it is 2000.
#[unsafe(no_mangle)]
pub extern "C" fn fots_date_year(date: i32) -> NumberResult
    ensures invalid_date { ¬ IsJulianDay date → result ≡ number_error INVALID_DATE }
    ensures value { IsJulianDay date → result ≡ number_ok (year_at (day_of date)) }
{
    let date = or_error!(NumberResult, valid_date(date), INVALID_DATE);
    NumberResult::ok(date.year())
}

/// Returns the month, from 1 to 12. For 2451604 it is 2.
#[unsafe(no_mangle)]
pub extern "C" fn fots_date_month(date: i32) -> NumberResult
    ensures invalid_date { ¬ IsJulianDay date → result ≡ number_error INVALID_DATE }
    ensures value { IsJulianDay date → result ≡ number_ok (pos (month_at (day_of date))) }
{
    let date = or_error!(NumberResult, valid_date(date), INVALID_DATE);
    NumberResult::ok(i32::from(date.month() as u8))
}

/// Returns the day of the month, from 1 to 31. For 2451604 it is 29.
#[unsafe(no_mangle)]
pub extern "C" fn fots_date_day(date: i32) -> NumberResult
    ensures invalid_date { ¬ IsJulianDay date → result ≡ number_error INVALID_DATE }
    ensures value { IsJulianDay date → result ≡ number_ok (pos (day_of_month_at (day_of date))) }
{
    let date = or_error!(NumberResult, valid_date(date), INVALID_DATE);
    NumberResult::ok(i32::from(date.day()))
}

/// Returns the ordinal, from 1 to 366. For 2451604 it is 60.
#[unsafe(no_mangle)]
pub extern "C" fn fots_date_ordinal(date: i32) -> NumberResult
    ensures invalid_date { ¬ IsJulianDay date → result ≡ number_error INVALID_DATE }
    ensures value { IsJulianDay date → result ≡ number_ok (pos (ordinal_at (day_of date))) }
{
    let date = or_error!(NumberResult, valid_date(date), INVALID_DATE);
    NumberResult::ok(i32::from(date.ordinal()))
}

/// Returns the ISO week, from 1 to 53. For 2451604 it is 9.
#[unsafe(no_mangle)]
pub extern "C" fn fots_date_iso_week(date: i32) -> NumberResult
    ensures invalid_date { ¬ IsJulianDay date → result ≡ number_error INVALID_DATE }
    ensures value { IsJulianDay date → result ≡ number_ok (pos (iso_week_at (day_of date))) }
{
    let date = or_error!(NumberResult, valid_date(date), INVALID_DATE);
    NumberResult::ok(i32::from(date.iso_week()))
}

/// Returns the week, from 0 to 53. Week 1 begins on the first Sunday. For 2451604 it is 9.
#[unsafe(no_mangle)]
pub extern "C" fn fots_date_sunday_based_week(date: i32) -> NumberResult
    ensures invalid_date { ¬ IsJulianDay date → result ≡ number_error INVALID_DATE }
    ensures value { IsJulianDay date → result ≡ number_ok (pos (weekday_count 6 (day_of date))) }
{
    let date = or_error!(NumberResult, valid_date(date), INVALID_DATE);
    NumberResult::ok(i32::from(date.sunday_based_week()))
}

/// Returns the week, from 0 to 53. Week 1 begins on the first Monday. For 2451604 it is 9.
#[unsafe(no_mangle)]
pub extern "C" fn fots_date_monday_based_week(date: i32) -> NumberResult
    ensures invalid_date { ¬ IsJulianDay date → result ≡ number_error INVALID_DATE }
    ensures value { IsJulianDay date → result ≡ number_ok (pos (weekday_count 0 (day_of date))) }
{
    let date = or_error!(NumberResult, valid_date(date), INVALID_DATE);
    NumberResult::ok(i32::from(date.monday_based_week()))
}

/// Returns the weekday, from 1, Monday, to 7, Sunday. For 2451604 it is 2.
#[unsafe(no_mangle)]
pub extern "C" fn fots_date_weekday(date: i32) -> NumberResult
    ensures invalid_date { ¬ IsJulianDay date → result ≡ number_error INVALID_DATE }
    ensures value { IsJulianDay date → result ≡ number_ok (pos (weekday_at (day_of date) + 1)) }
{
    let number = or_error!(NumberResult, day_number(date), INVALID_DATE);
    NumberResult::ok(i32::from(days_since_monday(number)) + 1)
}
