//! Constructors of dates.
ghost use Rattle.cal_c.specs.Columns.{IsDateOfJulianDay, IsDateOfCalendarDate, IsDateOfOrdinalDate, IsDateOfIsoWeekDate};

use crate::day_number::julian_day;
use crate::results::DateResult;
use crate::status::{
    DAY_OUT_OF_RANGE, INVALID_WEEKDAY, JULIAN_DAY_OUT_OF_RANGE, MONTH_OUT_OF_RANGE, OK,
    YEAR_OUT_OF_RANGE,
};
use crate::values::{
    day_or_invalid, ordinal_or_invalid, valid_date_i64, valid_weekday, week_or_invalid,
};
use cal_date::day_number::{from_calendar_date, is_day_of_month};
use cal_time::Date;
use cal_time::limits::{MAX_YEAR, MIN_YEAR};

/// Creates a date from a Julian day, from -363521074 to 366963559. Returns the error `julian_day`
/// if it is out of range. 2451545 is 2000-01-01.
#[unsafe(no_mangle)]
pub extern "C" fn fots_date_from_julian_day(julian_day: i64) -> DateResult
    ensures { IsDateOfJulianDay julian_day result }
{
    let date = or_return!(
        valid_date_i64(julian_day),
        DateResult::error(JULIAN_DAY_OUT_OF_RANGE)
    );
    DateResult::ok(date)
}

/// Creates a date from a year, from -999999 to 999999, a month and a day of the month. Returns the
/// first error that applies: `month`, `year` or `day`. 2000, 2 and 29 give 2451604.
#[unsafe(no_mangle)]
pub extern "C" fn fots_date_from_calendar_date(year: i32, month: u32, day: u32) -> DateResult
    ensures { IsDateOfCalendarDate year month day result }
{
    if month == 0 || month > 12 {
        return DateResult::error(MONTH_OUT_OF_RANGE);
    }
    if year < MIN_YEAR || year > MAX_YEAR {
        return DateResult::error(YEAR_OUT_OF_RANGE);
    }
    let (month, day) = (month as u8, day_or_invalid(day));
    if !is_day_of_month(year, month, day) {
        return DateResult::error(DAY_OUT_OF_RANGE);
    }
    DateResult {
        status: OK,
        date: julian_day(from_calendar_date(year, month, day)),
    }
}

/// Creates a date from a year, from -999999 to 999999, and an ordinal, from 1 to 365, or 366 in a
/// leap year. Returns the first error that applies: `year` or `ordinal`. 2000 and 60 give 2451604.
#[unsafe(no_mangle)]
pub extern "C" fn fots_date_from_ordinal_date(year: i32, ordinal: u32) -> DateResult
    ensures { IsDateOfOrdinalDate year ordinal result }
{
    ok_or_error!(
        DateResult,
        Date::from_ordinal_date(year, ordinal_or_invalid(ordinal))
    )
}

/// Creates a date from an ISO year, from -999999 to 999999, a week and a weekday. The errors are
/// `year`, `week`, and `weekday` after the last day of the range. 2000, 9 and 2 give 2451604.
#[unsafe(no_mangle)]
pub extern "C" fn fots_date_from_iso_week_date(year: i32, week: u32, weekday: u32) -> DateResult
    ensures { IsDateOfIsoWeekDate year week weekday result }
{
    let weekday = or_error!(DateResult, valid_weekday(weekday), INVALID_WEEKDAY);
    ok_or_error!(
        DateResult,
        Date::from_iso_week_date(year, week_or_invalid(year, week), weekday)
    )
}
