//! Dates with a component replaced.
ghost use Rattle.std.specs.Prelude.{◌≡◌};
ghost use Rattle.cal_time.specs.Date.{year_at, month_at, day_of_month_at, IsYear, IsDayOfMonth, IsOrdinal, HasCalendarDate, HasOrdinalDate};
ghost use Rattle.cal_c.specs.Results.{date_error, IsDateWith};
ghost use Rattle.cal_c.specs.Values.{need◌else◌then◌, IsJulianDay, IsMonth, day_of};
ghost use Rattle.cal_c.specs.declared.status.TheConstants.{YEAR_OUT_OF_RANGE, DAY_OUT_OF_RANGE, ORDINAL_OUT_OF_RANGE};

use crate::results::DateResult;
use crate::status::{INVALID_DATE, MONTH_OUT_OF_RANGE};
use crate::values::{day_or_invalid, ordinal_or_invalid, valid_date, valid_month};

/// Replaces the year. Returns the error `year`, or `day` for 29 February in a common year. 2451604
/// with the year 2004 is 2453065.
#[unsafe(no_mangle)]
pub extern "C" fn fots_date_replace_year(date: i32, year: i32) -> DateResult
    ensures { let n = day_of date in
        need IsJulianDay date else result ≡ date_error INVALID_DATE then
        need IsYear year else result ≡ date_error YEAR_OUT_OF_RANGE then
        need IsDayOfMonth year (month_at n) (day_of_month_at n) else result ≡ date_error DAY_OUT_OF_RANGE then
        IsDateWith (HasCalendarDate year (month_at n) (day_of_month_at n)) result }
{
    let date = or_error!(DateResult, valid_date(date), INVALID_DATE);
    ok_or_error!(DateResult, date.replace_year(year))
}

/// Replaces the month. Returns the error `month`, or `day` if the month is too short. 2451604 with
/// the month 3 is 2451633.
#[unsafe(no_mangle)]
pub extern "C" fn fots_date_replace_month(date: i32, month: u32) -> DateResult
    ensures { let n = day_of date in
        need IsJulianDay date else result ≡ date_error INVALID_DATE then
        need IsMonth month else result ≡ date_error MONTH_OUT_OF_RANGE then
        need IsDayOfMonth (year_at n) month (day_of_month_at n) else result ≡ date_error DAY_OUT_OF_RANGE then
        IsDateWith (HasCalendarDate (year_at n) month (day_of_month_at n)) result }
{
    let date = or_error!(DateResult, valid_date(date), INVALID_DATE);
    let month = or_error!(DateResult, valid_month(month), MONTH_OUT_OF_RANGE);
    ok_or_error!(DateResult, date.replace_month(month))
}

/// Replaces the day of the month. Returns the error `day` out of range. 2451604 with 1 is 2451576.
#[unsafe(no_mangle)]
pub extern "C" fn fots_date_replace_day(date: i32, day: u32) -> DateResult
    ensures { let n = day_of date in
        need IsJulianDay date else result ≡ date_error INVALID_DATE then
        need IsDayOfMonth (year_at n) (month_at n) day else result ≡ date_error DAY_OUT_OF_RANGE then
        IsDateWith (HasCalendarDate (year_at n) (month_at n) day) result }
{
    let date = or_error!(DateResult, valid_date(date), INVALID_DATE);
    ok_or_error!(DateResult, date.replace_day(day_or_invalid(day)))
}

/// Replaces the ordinal. Returns the error `ordinal` out of range. 2451604 with 1 is 2451545.
#[unsafe(no_mangle)]
pub extern "C" fn fots_date_replace_ordinal(date: i32, ordinal: u32) -> DateResult
    ensures { let n = day_of date in
        need IsJulianDay date else result ≡ date_error INVALID_DATE then
        need IsOrdinal (year_at n) ordinal else result ≡ date_error ORDINAL_OUT_OF_RANGE then
        IsDateWith (HasOrdinalDate (year_at n) ordinal) result }
{
    let date = or_error!(DateResult, valid_date(date), INVALID_DATE);
    ok_or_error!(
        DateResult,
        date.replace_ordinal(ordinal_or_invalid(ordinal))
    )
}
