//! The weekdays of a month, and weekdays near a date.
ghost use Rattle.std.specs.Prelude.{◌≡◌, ◌-◌, ◌<◌, ◌≤◌, ℕ, slice_get};
ghost use Rattle.cal_time.specs.Date.{julian_day_at, IsDate, IsYear, NoDate};
ghost use Rattle.cal_schedule.specs.Weekdays.{IsNthWeekday, IsLastWeekday, occurrences_from, occurrences_upto};
ghost use Rattle.cal_c.specs.Results.{date_ok, date_error, date_or_out_of_range};
ghost use Rattle.cal_c.specs.Values.{need◌else◌then◌, IsJulianDay, IsMonth, IsWeekday, day_of};
ghost use Rattle.cal_c.specs.declared.status.TheConstants.{YEAR_OUT_OF_RANGE, WEEKDAY_OUT_OF_RANGE};

use crate::results::DateResult;
use crate::status::{INVALID_COUNT, INVALID_DATE, INVALID_WEEKDAY, MONTH_OUT_OF_RANGE};
use crate::values::{valid_date, valid_month, valid_weekday};
use cal_schedule::{last_weekday_of_month, nth_weekday_of_month, on_or_after, on_or_before};

/// Returns the n-th day with a weekday in a month, counted from 1. Returns the error `year`, or
/// else `weekday` if no day is the n-th. The fifth Tuesday of 2000, 2 is 2451604, 2000-02-29.
#[unsafe(no_mangle)]
pub extern "C" fn fots_date_nth_weekday_of_month(
    year: i32,
    month: u32,
    weekday: u32,
    n: u32,
) -> DateResult
    ensures month { ¬ IsMonth month → result ≡ date_error MONTH_OUT_OF_RANGE }
    ensures invalid_weekday { IsMonth month → ¬ IsWeekday weekday → result ≡ date_error INVALID_WEEKDAY }
    ensures invalid_count { IsMonth month → IsWeekday weekday → 255 < n
        → result ≡ date_error INVALID_COUNT }
    ensures year { IsMonth month → IsWeekday weekday → n ≤ 255 → ¬ IsYear year
        → result ≡ date_error YEAR_OUT_OF_RANGE }
    ensures weekday { IsMonth month → IsWeekday weekday → n ≤ 255 → IsYear year
        → NoDate (IsNthWeekday year month (weekday - 1) n)
        → result ≡ date_error WEEKDAY_OUT_OF_RANGE }
    ensures value { IsMonth month → IsWeekday weekday → n ≤ 255 → (k : ℕ) → IsDate k
        → IsNthWeekday year month (weekday - 1) n k
        → result ≡ date_ok (julian_day_at k) }
{
    let month = or_error!(DateResult, valid_month(month), MONTH_OUT_OF_RANGE);
    let weekday = or_error!(DateResult, valid_weekday(weekday), INVALID_WEEKDAY);
    if n > 255 {
        return DateResult::error(INVALID_COUNT);
    }
    ok_or_error!(
        DateResult,
        nth_weekday_of_month(year, month, weekday, n as u8)
    )
}

/// Returns the last day with a weekday in a month. Returns the error `year` if it is out of range.
/// The last Friday of 2000, 2 is 2451600, 2000-02-25.
#[unsafe(no_mangle)]
pub extern "C" fn fots_date_last_weekday_of_month(year: i32, month: u32, weekday: u32) -> DateResult
    ensures month { ¬ IsMonth month → result ≡ date_error MONTH_OUT_OF_RANGE }
    ensures invalid_weekday { IsMonth month → ¬ IsWeekday weekday → result ≡ date_error INVALID_WEEKDAY }
    ensures year { IsMonth month → IsWeekday weekday → ¬ IsYear year
        → result ≡ date_error YEAR_OUT_OF_RANGE }
    ensures value { IsMonth month → IsWeekday weekday → (k : ℕ) → IsDate k
        → IsLastWeekday year month (weekday - 1) k
        → result ≡ date_ok (julian_day_at k) }
{
    let month = or_error!(DateResult, valid_month(month), MONTH_OUT_OF_RANGE);
    let weekday = or_error!(DateResult, valid_weekday(weekday), INVALID_WEEKDAY);
    ok_or_error!(DateResult, last_weekday_of_month(year, month, weekday))
}

/// Returns the first day with a weekday on or after a date. Fails if it is out of range. The Friday
/// on or after 2451604, 2000-02-29, is 2451607.
#[unsafe(no_mangle)]
pub extern "C" fn fots_date_on_or_after(date: i32, weekday: u32) -> DateResult
    ensures { need IsJulianDay date else result ≡ date_error INVALID_DATE then
        need IsWeekday weekday else result ≡ date_error INVALID_WEEKDAY then
        result ≡ date_or_out_of_range (slice_get (occurrences_from (weekday - 1) (day_of date)) 0) }
{
    let date = or_error!(DateResult, valid_date(date), INVALID_DATE);
    let weekday = or_error!(DateResult, valid_weekday(weekday), INVALID_WEEKDAY);
    DateResult::from_option(on_or_after(date, weekday))
}

/// Returns the last day with a weekday on or before a date. Fails if it is out of range. The Friday
/// on or before 2451604, 2000-02-29, is 2451600.
#[unsafe(no_mangle)]
pub extern "C" fn fots_date_on_or_before(date: i32, weekday: u32) -> DateResult
    ensures { need IsJulianDay date else result ≡ date_error INVALID_DATE then
        need IsWeekday weekday else result ≡ date_error INVALID_WEEKDAY then
        result ≡ date_or_out_of_range (slice_get (occurrences_upto (weekday - 1) (day_of date)) 0) }
{
    let date = or_error!(DateResult, valid_date(date), INVALID_DATE);
    let weekday = or_error!(DateResult, valid_weekday(weekday), INVALID_WEEKDAY);
    DateResult::from_option(on_or_before(date, weekday))
}
