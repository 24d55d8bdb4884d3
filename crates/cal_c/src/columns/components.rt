//! Columns of the components of dates.
ghost use Rattle.std.specs.Prelude.{◌≡◌, length, ◌∷◌, []};
ghost use Rattle.cal_c.specs.Columns.{int_at, nat_at, SameLength, AreRows, calendar_date_row, ordinal_date_row, iso_week_date_row, IsCalendarDateOf, IsOrdinalDateOf, IsIsoWeekDateOf, IsWeekdayNumberOf, IsIsoWeekDateOfCalendarDate};
ghost use Rattle.cal_c.specs.Values.{need◌else◌then◌};

use super::constructors::status_of_calendar_date;
use super::{LENGTH_MISMATCH, NO_VALUE, count_errors};
use crate::day_number::{LAST_DAY_NUMBER, clamped_number, day_number, is_julian_day};
use crate::status::{INVALID_DATE, OK};
use crate::values::valid_date;
use cal_date::day_number::{
    days_since_monday, from_calendar_date, to_calendar_date, to_iso_week_date,
};

/// Converts dates to calendar dates, like `fots_date_to_calendar_date`.
#[unsafe(no_mangle)]
pub extern "C" fn fots_dates_to_calendar_dates(
    dates: &[i32],
    years: &mut [i32],
    months: &mut [u8],
    days: &mut [u8],
    statuses: &mut [u8],
) -> usize
    ensures { need SameLength (length dates.now)
        (length years.old ∷ length months.old ∷ length days.old ∷ length statuses.old ∷ [])
        else (result ≡ usize.MAX) × (years.new ≡ years.old) × (months.new ≡ months.old)
        × (days.new ≡ days.old) × (statuses.new ≡ statuses.old) then
        AreRows statuses.new result (λ k. IsCalendarDateOf (int_at dates.now k)
        (calendar_date_row (int_at years.new k) (nat_at months.new k) (nat_at days.new k)
        (nat_at statuses.new k))) }
{
    write_rows!(calendar_date_row_of(dates) => years, months, days; statuses)
}

/// Converts dates to ordinal dates, like `fots_date_to_ordinal_date`.
#[unsafe(no_mangle)]
pub extern "C" fn fots_dates_to_ordinal_dates(
    dates: &[i32],
    years: &mut [i32],
    ordinals: &mut [u16],
    statuses: &mut [u8],
) -> usize
    ensures { need SameLength (length dates.now) (length years.old ∷ length ordinals.old ∷ length statuses.old ∷ [])
        else (result ≡ usize.MAX) × (years.new ≡ years.old) × (ordinals.new ≡ ordinals.old)
        × (statuses.new ≡ statuses.old) then
        AreRows statuses.new result (λ k. IsOrdinalDateOf (int_at dates.now k)
        (ordinal_date_row (int_at years.new k) (nat_at ordinals.new k) (nat_at statuses.new k))) }
{
    write_rows!(ordinal_date_row_of(dates) => years, ordinals; statuses)
}

/// Converts dates to ISO week dates, like `fots_date_to_iso_week_date`.
#[unsafe(no_mangle)]
pub extern "C" fn fots_dates_to_iso_week_dates(
    dates: &[i32],
    years: &mut [i32],
    weeks: &mut [u8],
    weekdays: &mut [u8],
    statuses: &mut [u8],
) -> usize
    ensures { need SameLength (length dates.now)
        (length years.old ∷ length weeks.old ∷ length weekdays.old ∷ length statuses.old ∷ [])
        else (result ≡ usize.MAX) × (years.new ≡ years.old) × (weeks.new ≡ weeks.old)
        × (weekdays.new ≡ weekdays.old) × (statuses.new ≡ statuses.old) then
        AreRows statuses.new result (λ k. IsIsoWeekDateOf (int_at dates.now k)
        (iso_week_date_row (int_at years.new k) (nat_at weeks.new k) (nat_at weekdays.new k)
        (nat_at statuses.new k))) }
{
    write_rows!(iso_week_date_row_of(dates) => years, weeks, weekdays; statuses)
}

/// Writes the weekdays of dates, like `fots_date_weekday`.
#[unsafe(no_mangle)]
pub extern "C" fn fots_dates_weekdays(
    dates: &[i32],
    weekdays: &mut [u8],
    statuses: &mut [u8],
) -> usize
    ensures { need SameLength (length dates.now) (length weekdays.old ∷ length statuses.old ∷ [])
        else (result ≡ usize.MAX) × (weekdays.new ≡ weekdays.old) × (statuses.new ≡ statuses.old) then
        AreRows statuses.new result (λ k. IsWeekdayNumberOf (int_at dates.now k)
        (nat_at weekdays.new k) (nat_at statuses.new k)) }
{
    write_rows!(weekday_row(dates) => weekdays; statuses)
}

/// Converts calendar dates to ISO week dates, like the single calls for both.
#[unsafe(no_mangle)]
pub extern "C" fn fots_calendar_dates_to_iso_week_dates(
    years: &[i32],
    months: &[u8],
    days: &[u8],
    iso_years: &mut [i32],
    weeks: &mut [u8],
    weekdays: &mut [u8],
    statuses: &mut [u8],
) -> usize
    ensures { need SameLength (length years.now)
        (length months.now ∷ length days.now ∷ length iso_years.old ∷ length weeks.old
        ∷ length weekdays.old ∷ length statuses.old ∷ [])
        else (result ≡ usize.MAX) × (iso_years.new ≡ iso_years.old) × (weeks.new ≡ weeks.old)
        × (weekdays.new ≡ weekdays.old) × (statuses.new ≡ statuses.old) then
        AreRows statuses.new result (λ k. IsIsoWeekDateOfCalendarDate (int_at years.now k)
        (nat_at months.now k) (nat_at days.now k) (iso_week_date_row (int_at iso_years.new k)
        (nat_at weeks.new k) (nat_at weekdays.new k) (nat_at statuses.new k))) }
{
    write_rows!(iso_week_date_of_calendar_date(years, months, days) => iso_years, weeks, weekdays; statuses)
}

// Rows are written faster if each part of a row is chosen by itself: rustc packs the parts of a
// tuple into one number.

/// Returns the calendar date of a date, and the status.
fn calendar_date_row_of(date: i32) -> (i32, u8, u8, u8)
    ensures { IsCalendarDateOf date (calendar_date_row result.0 result.1 result.2 result.3) }
{
    let (year, month, day) = to_calendar_date(clamped_number(date));
    let is_day = is_julian_day(date);
    (
        if is_day { year } else { NO_VALUE },
        if is_day { month as u8 } else { 0 },
        if is_day { day as u8 } else { 0 },
        if is_day { OK as u8 } else { INVALID_DATE as u8 },
    )
}

/// Returns the ordinal date of a date, and the status.
fn ordinal_date_row_of(date: i32) -> (i32, u16, u8)
    ensures { IsOrdinalDateOf date (ordinal_date_row result.0 result.1 result.2) }
{
    let date = or_return!(valid_date(date), (NO_VALUE, 0, INVALID_DATE as u8));
    let (year, ordinal) = date.to_ordinal_date();
    (year, ordinal, OK as u8)
}

/// Returns the ISO week date of a date, and the status.
fn iso_week_date_row_of(date: i32) -> (i32, u8, u8, u8)
    ensures { IsIsoWeekDateOf date (iso_week_date_row result.0 result.1 result.2 result.3) }
{
    let (year, week, weekday) = to_iso_week_date(clamped_number(date));
    let is_day = is_julian_day(date);
    (
        if is_day { year } else { NO_VALUE },
        if is_day { week } else { 0 },
        if is_day { weekday } else { 0 },
        if is_day { OK as u8 } else { INVALID_DATE as u8 },
    )
}

/// Returns the weekday of a date, from 1 for Monday, and the status.
fn weekday_row(date: i32) -> (u8, u8)
    ensures { IsWeekdayNumberOf date result.0 result.1 }
{
    match day_number(date) {
        Some(number) => (days_since_monday(number) + 1, OK as u8),
        None => (0, INVALID_DATE as u8),
    }
}

/// Returns the ISO week date of a calendar date, and the status.
fn iso_week_date_of_calendar_date(year: i32, month: u8, day: u8) -> (i32, u8, u8, u8)
    ensures { IsIsoWeekDateOfCalendarDate year month day
        (iso_week_date_row result.0 result.1 result.2 result.3) }
{
    let number = from_calendar_date(year, month, day).min(LAST_DAY_NUMBER);
    let (iso_year, week, weekday) = to_iso_week_date(number);
    let status = status_of_calendar_date(year, month, day);
    if status == OK as u8 {
        (iso_year, week, weekday, OK as u8)
    } else {
        (NO_VALUE, 0, 0, status)
    }
}
