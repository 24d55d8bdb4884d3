//! Columns of dates from their parts.
ghost use Rattle.std.specs.Prelude.{◌≡◌, pos, length, ◌∷◌, []};
ghost use Rattle.cal_time.specs.Date.{julian_day_at, IsYear, IsDayOfMonth};
ghost use Rattle.cal_c.specs.Columns.{int_at, nat_at, SameLength, AreRows, date_row, IsDateOfJulianDay, IsDateOfCalendarDate, IsDateOfOrdinalDate, IsDateOfIsoWeekDate};
ghost use Rattle.cal_c.specs.Results.{date_ok, date_or_out_of_range, date_error};
ghost use Rattle.cal_c.specs.Values.{need◌else◌then◌, IsMonth};

use super::statuses::status_byte;
use super::{LENGTH_MISMATCH, NO_VALUE, count_errors};
use crate::day_number::{FIRST_JULIAN_DAY, LAST_JULIAN_DAY, julian_day};
use crate::status::{
    DAY_OUT_OF_RANGE, INVALID_WEEKDAY, JULIAN_DAY_OUT_OF_RANGE, MONTH_OUT_OF_RANGE, OK,
    RESULT_OUT_OF_RANGE, YEAR_OUT_OF_RANGE,
};
use crate::values::valid_weekday;
use cal_date::day_number::{from_calendar_date, is_day_of_month};
use cal_time::Date;
use cal_time::limits::{MAX_YEAR, MIN_YEAR};

/// Creates dates from Julian days, like `fots_date_from_julian_day`.
#[unsafe(no_mangle)]
pub extern "C" fn fots_dates_from_julian_days(
    julian_days: &[i64],
    dates: &mut [i32],
    statuses: &mut [u8],
) -> usize
    ensures { need SameLength (length julian_days.now) (length dates.old ∷ length statuses.old ∷ [])
        else (result ≡ usize.MAX) × (dates.new ≡ dates.old) × (statuses.new ≡ statuses.old) then
        AreRows statuses.new result (λ k. IsDateOfJulianDay (int_at julian_days.now k)
        (date_row (int_at dates.new k) (nat_at statuses.new k))) }
{
    write_rows!(row_from_julian_day(julian_days) => dates; statuses)
}

/// Creates dates from years, months and days, like `fots_date_from_calendar_date`.
#[unsafe(no_mangle)]
pub extern "C" fn fots_dates_from_calendar_dates(
    years: &[i32],
    months: &[u8],
    days: &[u8],
    dates: &mut [i32],
    statuses: &mut [u8],
) -> usize
    ensures { need SameLength (length years.now)
        (length months.now ∷ length days.now ∷ length dates.old ∷ length statuses.old ∷ [])
        else (result ≡ usize.MAX) × (dates.new ≡ dates.old) × (statuses.new ≡ statuses.old) then
        AreRows statuses.new result (λ k. IsDateOfCalendarDate (int_at years.now k)
        (nat_at months.now k) (nat_at days.now k) (date_row (int_at dates.new k)
        (nat_at statuses.new k))) }
{
    write_rows!(row_from_calendar_date(years, months, days) => dates; statuses)
}

/// Creates dates from years and ordinals, like `fots_date_from_ordinal_date`.
#[unsafe(no_mangle)]
pub extern "C" fn fots_dates_from_ordinal_dates(
    years: &[i32],
    ordinals: &[u16],
    dates: &mut [i32],
    statuses: &mut [u8],
) -> usize
    ensures { need SameLength (length years.now) (length ordinals.now ∷ length dates.old ∷ length statuses.old ∷ [])
        else (result ≡ usize.MAX) × (dates.new ≡ dates.old) × (statuses.new ≡ statuses.old) then
        AreRows statuses.new result (λ k. IsDateOfOrdinalDate (int_at years.now k)
        (nat_at ordinals.now k) (date_row (int_at dates.new k) (nat_at statuses.new k))) }
{
    write_rows!(row_from_ordinal_date(years, ordinals) => dates; statuses)
}

/// Creates dates from ISO years, weeks and weekdays, like `fots_date_from_iso_week_date`.
#[unsafe(no_mangle)]
pub extern "C" fn fots_dates_from_iso_week_dates(
    years: &[i32],
    weeks: &[u8],
    weekdays: &[u8],
    dates: &mut [i32],
    statuses: &mut [u8],
) -> usize
    ensures { need SameLength (length years.now)
        (length weeks.now ∷ length weekdays.now ∷ length dates.old ∷ length statuses.old ∷ [])
        else (result ≡ usize.MAX) × (dates.new ≡ dates.old) × (statuses.new ≡ statuses.old) then
        AreRows statuses.new result (λ k. IsDateOfIsoWeekDate (int_at years.now k)
        (nat_at weeks.now k) (nat_at weekdays.now k) (date_row (int_at dates.new k)
        (nat_at statuses.new k))) }
{
    write_rows!(row_from_iso_week_date(years, weeks, weekdays) => dates; statuses)
}

/// Returns the row of a date.
#[inline(always)]
pub(super) fn ok_row(date: Date) -> (i32, u8)
    ensures { date_row result.0 result.1 ≡ date_ok (julian_day_at date) }
{
    (date.to_julian_day(), OK as u8)
}

/// Returns the row of an error.
#[inline(always)]
pub(super) fn error_row(status: u8) -> (i32, u8)
    ensures { date_row result.0 result.1 ≡ date_error (pos status) }
{
    (NO_VALUE, status)
}

/// Returns the row of a date, or of a date out of range.
#[inline(always)]
pub(super) fn row_or_out_of_range(date: Option<Date>) -> (i32, u8)
    ensures { date_row result.0 result.1 ≡ date_or_out_of_range date }
{
    match date {
        Some(date) => ok_row(date),
        None => error_row(RESULT_OUT_OF_RANGE as u8),
    }
}

/// Returns the row of a Julian day.
fn row_from_julian_day(julian_day: i64) -> (i32, u8)
    ensures { IsDateOfJulianDay julian_day (date_row result.0 result.1) }
{
    if julian_day >= FIRST_JULIAN_DAY && julian_day <= LAST_JULIAN_DAY {
        (julian_day as i32, OK as u8)
    } else {
        (NO_VALUE, JULIAN_DAY_OUT_OF_RANGE as u8)
    }
}

/// Returns the row of a year, a month and a day of the month.
fn row_from_calendar_date(year: i32, month: u8, day: u8) -> (i32, u8)
    ensures { IsDateOfCalendarDate year month day (date_row result.0 result.1) }
{
    let date = julian_day(from_calendar_date(year, month, day));
    let status = status_of_calendar_date(year, month, day);
    if status == OK as u8 {
        (date, OK as u8)
    } else {
        error_row(status)
    }
}

/// Returns the status of a year, a month and a day, or of the first error: month, year or day.
#[inline(always)]
pub(super) fn status_of_calendar_date(year: i32, month: u8, day: u8) -> u8
    ensures month { ¬ IsMonth month → pos result ≡ MONTH_OUT_OF_RANGE }
    ensures year { IsMonth month → ¬ IsYear year → pos result ≡ YEAR_OUT_OF_RANGE }
    ensures day { IsMonth month → IsYear year → ¬ IsDayOfMonth year month day
        → pos result ≡ DAY_OUT_OF_RANGE }
    ensures value { IsMonth month → IsYear year → IsDayOfMonth year month day → result ≡ 0 }
{
    let is_day = is_day_of_month(year, month, day);
    if month == 0 || month > 12 {
        MONTH_OUT_OF_RANGE as u8
    } else if year < MIN_YEAR || year > MAX_YEAR {
        YEAR_OUT_OF_RANGE as u8
    } else if is_day {
        OK as u8
    } else {
        DAY_OUT_OF_RANGE as u8
    }
}

/// Returns the row of a year and an ordinal.
fn row_from_ordinal_date(year: i32, ordinal: u16) -> (i32, u8)
    ensures { IsDateOfOrdinalDate year ordinal (date_row result.0 result.1) }
{
    match Date::from_ordinal_date(year, ordinal) {
        Ok(date) => ok_row(date),
        Err(error) => error_row(status_byte(error)),
    }
}

/// Returns the row of an ISO year, a week and a weekday.
fn row_from_iso_week_date(year: i32, week: u8, weekday: u8) -> (i32, u8)
    ensures { IsDateOfIsoWeekDate year week weekday (date_row result.0 result.1) }
{
    let weekday = or_return!(
        valid_weekday(u32::from(weekday)),
        error_row(INVALID_WEEKDAY as u8)
    );
    match Date::from_iso_week_date(year, week, weekday) {
        Ok(date) => ok_row(date),
        Err(error) => error_row(status_byte(error)),
    }
}
