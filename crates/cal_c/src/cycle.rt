//! Months and weekdays by number, and the lengths of years.
ghost use Rattle.std.specs.Prelude.{◌≡◌, ◌+◌, ◌-◌, ◌%◌, pos, if◌then◌else◌};
ghost use Rattle.cal_time.specs.Lengths.{is_leap_year, days_in_year, days_in_month};
ghost use Rattle.cal_time.specs.Weeks.{weeks_in_year};
ghost use Rattle.cal_c.specs.Results.{number_ok, number_error};
ghost use Rattle.cal_c.specs.Values.{IsMonth, IsWeekday};

use crate::results::NumberResult;
use crate::status::{INVALID_WEEKDAY, MONTH_OUT_OF_RANGE};
use crate::values::{valid_month, valid_weekday};
use cal_time::util::{days_in_year, is_leap_year, weeks_in_year};

/// Returns the number of days of a month in a year. For 2 and 2000 it is 29.
#[unsafe(no_mangle)]
pub extern "C" fn fots_month_length(month: u32, year: i32) -> NumberResult
    ensures month { ¬ IsMonth month → result ≡ number_error MONTH_OUT_OF_RANGE }
    ensures value { IsMonth month → result ≡ number_ok (pos (days_in_month year month)) }
{
    let month = or_error!(NumberResult, valid_month(month), MONTH_OUT_OF_RANGE);
    NumberResult::ok(i32::from(month.length(year)))
}

/// Returns the month `n` months later. January comes after December. Nine months after 7 is 4.
#[unsafe(no_mangle)]
pub extern "C" fn fots_month_nth_next(month: u32, n: u32) -> NumberResult
    ensures month { ¬ IsMonth month → result ≡ number_error MONTH_OUT_OF_RANGE }
    ensures value { IsMonth month → result ≡ number_ok (pos ((month - 1 + n) % 12 + 1)) }
{
    let month = or_error!(NumberResult, valid_month(month), MONTH_OUT_OF_RANGE);
    NumberResult::ok(i32::from(month.nth_next((n % 12) as u8) as u8))
}

/// Returns the month `n` months earlier. December comes before January. Nine months before 4 is 7.
#[unsafe(no_mangle)]
pub extern "C" fn fots_month_nth_prev(month: u32, n: u32) -> NumberResult
    ensures month { ¬ IsMonth month → result ≡ number_error MONTH_OUT_OF_RANGE }
    ensures value { IsMonth month → result ≡ number_ok (pos ((month + 11 - n % 12) % 12 + 1)) }
{
    let month = or_error!(NumberResult, valid_month(month), MONTH_OUT_OF_RANGE);
    NumberResult::ok(i32::from(month.nth_prev((n % 12) as u8) as u8))
}

/// Returns the weekday `n` days later. Ten days after 7 is 3.
#[unsafe(no_mangle)]
pub extern "C" fn fots_weekday_nth_next(weekday: u32, n: u32) -> NumberResult
    ensures invalid_weekday { ¬ IsWeekday weekday → result ≡ number_error INVALID_WEEKDAY }
    ensures value { IsWeekday weekday → result ≡ number_ok (pos ((weekday - 1 + n) % 7 + 1)) }
{
    let weekday = or_error!(NumberResult, valid_weekday(weekday), INVALID_WEEKDAY);
    NumberResult::ok(i32::from(weekday.nth_next((n % 7) as u8).number_from_monday()))
}

/// Returns the weekday `n` days earlier. Ten days before 3 is 7.
#[unsafe(no_mangle)]
pub extern "C" fn fots_weekday_nth_prev(weekday: u32, n: u32) -> NumberResult
    ensures invalid_weekday { ¬ IsWeekday weekday → result ≡ number_error INVALID_WEEKDAY }
    ensures value { IsWeekday weekday → result ≡ number_ok (pos ((weekday + 6 - n % 7) % 7 + 1)) }
{
    let weekday = or_error!(NumberResult, valid_weekday(weekday), INVALID_WEEKDAY);
    NumberResult::ok(i32::from(weekday.nth_prev((n % 7) as u8).number_from_monday()))
}

/// Returns the number of a weekday from 1, Sunday, to 7, Saturday. For Friday, 5, it is 6.
#[unsafe(no_mangle)]
pub extern "C" fn fots_weekday_number_from_sunday(weekday: u32) -> NumberResult
    ensures invalid_weekday { ¬ IsWeekday weekday → result ≡ number_error INVALID_WEEKDAY }
    ensures value { IsWeekday weekday → result ≡ number_ok (pos (weekday % 7 + 1)) }
{
    let weekday = or_error!(NumberResult, valid_weekday(weekday), INVALID_WEEKDAY);
    NumberResult::ok(i32::from(weekday.number_from_sunday()))
}

/// Returns 1 for a leap year, else 0. For 2000 it is 1, and for 1900 it is 0.
#[unsafe(no_mangle)]
pub extern "C" fn fots_is_leap_year(year: i32) -> u32
    ensures { result ≡ (if is_leap_year year then 1 else 0) }
{
    u32::from(is_leap_year(year))
}

/// Returns the number of days of a year, 365 or 366. For 2000 it is 366.
#[unsafe(no_mangle)]
pub extern "C" fn fots_days_in_year(year: i32) -> u32
    ensures { result ≡ days_in_year year }
{
    u32::from(days_in_year(year))
}

/// Returns the number of ISO weeks of a year, 52 or 53. For 2020 it is 53.
#[unsafe(no_mangle)]
pub extern "C" fn fots_weeks_in_year(year: i32) -> u32
    ensures { result ≡ weeks_in_year year }
{
    u32::from(weeks_in_year(year))
}
