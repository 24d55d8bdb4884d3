//! Arithmetic with months and years.
ghost use Rattle.std.specs.Prelude.{◌≡◌, pos, ◌+ℤ◌, ◌*ℤ◌, ◌<ℤ◌, ◌≤ℤ◌};
ghost use Rattle.cal_time.specs.Date.{first_julian_day, first_year, last_day, last_year, julian_day_at, year_at, IsYear};
ghost use Rattle.cal_schedule.specs.Months.{month_number_at, IsMonthNumber, IsMonthsLater};
ghost use Rattle.cal_c.specs.Columns.{IsDateMonthsLater};
ghost use Rattle.cal_c.specs.Results.{date_ok, date_error, IsDateWith};
ghost use Rattle.cal_c.specs.Values.{need◌else◌then◌, IsJulianDay, day_of};
ghost use Rattle.cal_c.specs.declared.status.TheConstants.{RESULT_OUT_OF_RANGE};

use crate::results::DateResult;
use crate::status::INVALID_DATE;
use crate::values::valid_date;
use cal_schedule::{checked_add_months, checked_add_years, saturating_add_months};

/// Adds months, or subtracts them if the number is negative. The day of the month stays, or becomes
/// the last day if the month is shorter. Fails if the resulting month is out of range. One month
/// after 2451575, 2000-01-31, is 2451604, 2000-02-29.
#[unsafe(no_mangle)]
pub extern "C" fn fots_date_add_months(date: i32, months: i32) -> DateResult
    ensures { IsDateMonthsLater date months result }
{
    let date = or_error!(DateResult, valid_date(date), INVALID_DATE);
    DateResult::from_option(checked_add_months(date, months))
}

/// Adds months like `fots_date_add_months`, but returns the first or the last date of the range if
/// the resulting month is out of range. A month after 366963559, the last day, is 366963559.
#[unsafe(no_mangle)]
pub extern "C" fn fots_date_saturating_add_months(date: i32, months: i32) -> DateResult
    ensures invalid_date { ¬ IsJulianDay date → result ≡ date_error INVALID_DATE }
    ensures value { IsJulianDay date → IsMonthNumber (month_number_at (day_of date) +ℤ months)
        → IsDateWith (IsMonthsLater (day_of date) months) result }
    ensures before { IsJulianDay date
        → (month_number_at (day_of date) +ℤ months) <ℤ (first_year *ℤ pos 12)
        → result ≡ date_ok first_julian_day }
    ensures past { IsJulianDay date → ((last_year +ℤ pos 1) *ℤ pos 12)
        ≤ℤ (month_number_at (day_of date) +ℤ months) → result ≡ date_ok (julian_day_at last_day) }
{
    let date = or_error!(DateResult, valid_date(date), INVALID_DATE);
    DateResult::ok(saturating_add_months(date, months))
}

/// Adds years, or subtracts them if the number is negative. 29 February becomes the 28th in a
/// common year. Fails if the resulting year is out of range. One year after 2451604, 2000-02-29, is
/// 2451969, 2001-02-28.
#[unsafe(no_mangle)]
pub extern "C" fn fots_date_add_years(date: i32, years: i32) -> DateResult
    ensures { need IsJulianDay date else result ≡ date_error INVALID_DATE then
        need IsYear (year_at (day_of date) +ℤ years) else result ≡ date_error RESULT_OUT_OF_RANGE then
        IsDateWith (IsMonthsLater (day_of date) (pos 12 *ℤ years)) result }
{
    let date = or_error!(DateResult, valid_date(date), INVALID_DATE);
    DateResult::from_option(checked_add_years(date, years))
}
