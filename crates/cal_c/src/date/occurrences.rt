//! The days with a weekday after a date, and before it.
ghost use Rattle.std.specs.Prelude.{◌≡◌, ◌+◌, ◌-◌, ◌%◌, ◌≤◌};
ghost use Rattle.cal_time.specs.Date.{IsDate};
ghost use Rattle.cal_time.specs.Occurrences.{next_occurrences, prev_occurrences, kth};
ghost use Rattle.cal_c.specs.Results.{date_error, date_or_out_of_range};
ghost use Rattle.cal_c.specs.Values.{need◌else◌then◌, IsJulianDay, IsWeekday, day_of};

use crate::day_number::{date_result, day_number};
use crate::results::DateResult;
use crate::status::{INVALID_COUNT, INVALID_DATE, INVALID_WEEKDAY};
use cal_date::day_number::{nth_next_occurrence, nth_prev_occurrence};

/// Returns the `n`-th day with a weekday after a date, from 1 to 255. Fails if it is out of
/// range, or for 0. The fifth Monday after 2460121 is 2460150.
#[unsafe(no_mangle)]
pub extern "C" fn fots_date_nth_next_occurrence(date: i32, weekday: u32, n: u32) -> DateResult
    ensures { need IsJulianDay date else result ≡ date_error INVALID_DATE then
        need IsWeekday weekday else result ≡ date_error INVALID_WEEKDAY then
        need n ≤ 255 else result ≡ date_error INVALID_COUNT then
        result ≡ date_or_out_of_range (kth n (next_occurrences (weekday - 1) (day_of date))) }
{
    let number = or_error!(DateResult, day_number(date), INVALID_DATE);
    if weekday == 0 || weekday > 7 {
        return DateResult::error(INVALID_WEEKDAY);
    }
    if n > 255 {
        return DateResult::error(INVALID_COUNT);
    }
    date_result(nth_next_occurrence(number, weekday - 1, n as u8))
}

/// Returns the `n`-th day with a weekday before a date, from 1 to 255. Fails if it is out of
/// range, or for 0. The third Monday before 2460123 is 2460108.
#[unsafe(no_mangle)]
pub extern "C" fn fots_date_nth_prev_occurrence(date: i32, weekday: u32, n: u32) -> DateResult
    ensures { need IsJulianDay date else result ≡ date_error INVALID_DATE then
        need IsWeekday weekday else result ≡ date_error INVALID_WEEKDAY then
        need n ≤ 255 else result ≡ date_error INVALID_COUNT then
        result ≡ date_or_out_of_range (kth n (prev_occurrences (weekday - 1) (day_of date))) }
{
    let number = or_error!(DateResult, day_number(date), INVALID_DATE);
    if weekday == 0 || weekday > 7 {
        return DateResult::error(INVALID_WEEKDAY);
    }
    if n > 255 {
        return DateResult::error(INVALID_COUNT);
    }
    date_result(nth_prev_occurrence(number, weekday - 1, n as u8))
}

/// Returns the first day with a weekday after a date. Fails if it is out of range. The Monday after
/// 2460124 is 2460129.
#[unsafe(no_mangle)]
pub extern "C" fn fots_date_next_occurrence(date: i32, weekday: u32) -> DateResult
    ensures { need IsJulianDay date else result ≡ date_error INVALID_DATE then
        need IsWeekday weekday else result ≡ date_error INVALID_WEEKDAY then
        result ≡ date_or_out_of_range (kth 1 (next_occurrences (weekday - 1) (day_of date))) }
{
    let number = or_error!(DateResult, day_number(date), INVALID_DATE);
    if weekday == 0 || weekday > 7 {
        return DateResult::error(INVALID_WEEKDAY);
    }
    date_result(nth_next_occurrence(number, weekday - 1, 1))
}

/// Returns the last day with a weekday before a date. Fails if it is out of range. The Monday
/// before 2460115 is 2460108.
#[unsafe(no_mangle)]
pub extern "C" fn fots_date_prev_occurrence(date: i32, weekday: u32) -> DateResult
    ensures { need IsJulianDay date else result ≡ date_error INVALID_DATE then
        need IsWeekday weekday else result ≡ date_error INVALID_WEEKDAY then
        result ≡ date_or_out_of_range (kth 1 (prev_occurrences (weekday - 1) (day_of date))) }
{
    let number = or_error!(DateResult, day_number(date), INVALID_DATE);
    if weekday == 0 || weekday > 7 {
        return DateResult::error(INVALID_WEEKDAY);
    }
    date_result(nth_prev_occurrence(number, weekday - 1, 1))
}
