//! The first and the last day of the month, the quarter, the year and the ISO week of a date.
ghost use Rattle.std.specs.Prelude.{◌≡◌, ◌+◌, ◌-◌, ◌*◌, ◌≤◌, ◌<◌, pos};
ghost use Rattle.cal_time.specs.Date.{last_day, year_at, month_at, weekday_at, julian_day_at, HasCalendarDate};
ghost use Rattle.cal_time.specs.IsoWeekDate.{iso_year_at, iso_week_at, HasIsoWeekDate};
ghost use Rattle.cal_time.specs.Lengths.{days_in_month};
ghost use Rattle.cal_schedule.specs.Months.{quarter_at};
ghost use Rattle.cal_c.specs.Results.{date_ok, date_error, number_ok, number_error, IsDateWith};
ghost use Rattle.cal_c.specs.Values.{IsJulianDay, day_of};
ghost use Rattle.cal_c.specs.declared.status.TheConstants.{RESULT_OUT_OF_RANGE};

use crate::results::{DateResult, NumberResult};
use crate::status::INVALID_DATE;
use crate::values::valid_date;
use cal_schedule::{
    first_of_iso_week, first_of_month, first_of_quarter, first_of_year, last_of_iso_week,
    last_of_month, last_of_quarter, last_of_year, quarter,
};

/// Returns the first day of the month. For 2451604, 2000-02-29, it is 2451576.
#[unsafe(no_mangle)]
pub extern "C" fn fots_date_first_of_month(date: i32) -> DateResult
    ensures invalid_date { ¬ IsJulianDay date → result ≡ date_error INVALID_DATE }
    ensures value { IsJulianDay date → IsDateWith
        (HasCalendarDate (year_at (day_of date)) (month_at (day_of date)) 1) result }
{
    let date = or_error!(DateResult, valid_date(date), INVALID_DATE);
    DateResult::ok(first_of_month(date))
}

/// Returns the last day of the month. For 2451576, 2000-02-01, it is 2451604.
#[unsafe(no_mangle)]
pub extern "C" fn fots_date_last_of_month(date: i32) -> DateResult
    ensures invalid_date { ¬ IsJulianDay date → result ≡ date_error INVALID_DATE }
    ensures value { IsJulianDay date
        → IsDateWith (HasCalendarDate (year_at (day_of date)) (month_at (day_of date))
        (days_in_month (year_at (day_of date)) (month_at (day_of date)))) result }
{
    let date = or_error!(DateResult, valid_date(date), INVALID_DATE);
    DateResult::ok(last_of_month(date))
}

/// Returns the quarter of the year, from 1 to 4. For 2451604, 2000-02-29, it is 1.
#[unsafe(no_mangle)]
pub extern "C" fn fots_date_quarter(date: i32) -> NumberResult
    ensures invalid_date { ¬ IsJulianDay date → result ≡ number_error INVALID_DATE }
    ensures value { IsJulianDay date → result ≡ number_ok (pos (quarter_at (day_of date))) }
{
    let date = or_error!(NumberResult, valid_date(date), INVALID_DATE);
    NumberResult::ok(i32::from(quarter(date)))
}

/// Returns the first day of the quarter. For 2451604, 2000-02-29, it is 2451545, 2000-01-01.
#[unsafe(no_mangle)]
pub extern "C" fn fots_date_first_of_quarter(date: i32) -> DateResult
    ensures invalid_date { ¬ IsJulianDay date → result ≡ date_error INVALID_DATE }
    ensures value { IsJulianDay date → IsDateWith
        (HasCalendarDate (year_at (day_of date)) (3 * quarter_at (day_of date) - 2) 1) result }
{
    let date = or_error!(DateResult, valid_date(date), INVALID_DATE);
    DateResult::ok(first_of_quarter(date))
}

/// Returns the last day of the quarter. For 2451604, 2000-02-29, it is 2451635, 2000-03-31.
#[unsafe(no_mangle)]
pub extern "C" fn fots_date_last_of_quarter(date: i32) -> DateResult
    ensures invalid_date { ¬ IsJulianDay date → result ≡ date_error INVALID_DATE }
    ensures value { IsJulianDay date
        → IsDateWith (HasCalendarDate (year_at (day_of date)) (3 * quarter_at (day_of date))
        (days_in_month (year_at (day_of date)) (3 * quarter_at (day_of date)))) result }
{
    let date = or_error!(DateResult, valid_date(date), INVALID_DATE);
    DateResult::ok(last_of_quarter(date))
}

/// Returns the first day of the year. For 2451604, 2000-02-29, it is 2451545, 2000-01-01.
#[unsafe(no_mangle)]
pub extern "C" fn fots_date_first_of_year(date: i32) -> DateResult
    ensures invalid_date { ¬ IsJulianDay date → result ≡ date_error INVALID_DATE }
    ensures value { IsJulianDay date → IsDateWith
        (HasCalendarDate (year_at (day_of date)) 1 1) result }
{
    let date = or_error!(DateResult, valid_date(date), INVALID_DATE);
    DateResult::ok(first_of_year(date))
}

/// Returns the last day of the year. For 2451604, 2000-02-29, it is 2451910, 2000-12-31.
#[unsafe(no_mangle)]
pub extern "C" fn fots_date_last_of_year(date: i32) -> DateResult
    ensures invalid_date { ¬ IsJulianDay date → result ≡ date_error INVALID_DATE }
    ensures value { IsJulianDay date → IsDateWith
        (HasCalendarDate (year_at (day_of date)) 12 31) result }
{
    let date = or_error!(DateResult, valid_date(date), INVALID_DATE);
    DateResult::ok(last_of_year(date))
}

/// Returns the Monday of the ISO week. For 2451604, 2000-02-29, it is 2451603.
#[unsafe(no_mangle)]
pub extern "C" fn fots_date_first_of_iso_week(date: i32) -> DateResult
    ensures invalid_date { ¬ IsJulianDay date → result ≡ date_error INVALID_DATE }
    ensures value { IsJulianDay date → IsDateWith
        (HasIsoWeekDate (iso_year_at (day_of date)) (iso_week_at (day_of date)) 0) result }
{
    let date = or_error!(DateResult, valid_date(date), INVALID_DATE);
    DateResult::ok(first_of_iso_week(date))
}

/// Returns the Sunday of the ISO week. Fails for the last five days of the range. For 2451604,
/// 2000-02-29, it is 2451609.
#[unsafe(no_mangle)]
pub extern "C" fn fots_date_last_of_iso_week(date: i32) -> DateResult
    ensures invalid_date { ¬ IsJulianDay date → result ≡ date_error INVALID_DATE }
    ensures result_out_of_range { IsJulianDay date → last_day + weekday_at (day_of date) < day_of date + 6
        → result ≡ date_error RESULT_OUT_OF_RANGE }
    ensures value { IsJulianDay date → day_of date + 6 ≤ last_day + weekday_at (day_of date)
        → result ≡ date_ok (julian_day_at (day_of date + 6 - weekday_at (day_of date))) }
{
    let date = or_error!(DateResult, valid_date(date), INVALID_DATE);
    DateResult::from_option(last_of_iso_week(date))
}
