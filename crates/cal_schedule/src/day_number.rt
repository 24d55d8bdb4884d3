//! Months of days by their numbers, without tables or branches, so that a loop takes several days
//! at a time.
ghost use Rattle.std.specs.Prelude.{◌≡◌, ◌+◌, ◌<◌, ◌≤◌, min, pos, ◌+ℤ◌, ◌-ℤ◌, ◌*ℤ◌};
ghost use Rattle.cal_time.specs.Date.{first_year, IsDate, IsYear, year_at, month_at, day_of_month_at};
ghost use Rattle.cal_time.specs.DateLimits.{months_in_range};
ghost use Rattle.cal_time.specs.Lengths.{days_in_month};
ghost use Rattle.cal_schedule.specs.Months.{HasMonthIndex};

use cal_date::day_number::{from_calendar_date, month_length, to_calendar_date};
use cal_time::limits::MIN_YEAR;
use cal_time::util::is_leap_year;

/// Returns the index of the month of a day of the range, from 0 for January of -999999, and the day
/// of the month. The number of the day is from 0 to 730484633. For 365981444, 2024-02-29, it is
/// (12024277, 29).
#[inline(always)]
pub fn month_number_and_day(number: u32) -> (u32, u8)
    requires { IsDate number }
    ensures month { HasMonthIndex result.0 number }
    ensures max { result.0 < months_in_range }
    ensures day { result.1 ≡ day_of_month_at number }
    ensures first { 1 ≤ result.1 }
{
    let (year, month, day) = to_calendar_date(number);
    (month_index(year, month - 1), day as u8)
}

/// Returns the number of the day in a month, by its index, with this day of the month, or of the
/// last day of the month if it is shorter. The index is below 23999988, and the day 1 or more. For
/// the index 12024277, February 2024, and the day 31 it is 365981444, 2024-02-29.
#[inline(always)]
pub fn clamped_date_in_month(index: u32, day: u8) -> u32
    requires month { index < months_in_range }
    requires day { 1 ≤ day }
    ensures month { HasMonthIndex index result }
    ensures day { day_of_month_at result
        ≡ min day (days_in_month (year_at result) (month_at result)) }
    ensures range { IsDate result }
{
    let (year, index) = year_and_month(index);
    let month = index + 1;
    let length = month_length(month, is_leap_year(year));
    from_calendar_date(year, month, day.min(length))
}

/// Returns the index of a month, by its year and its index in the year, from 0 for January.
fn month_index(year: i32, month: u32) -> u32
    requires year { IsYear year }
    requires month { month < 12 }
    ensures value { pos result ≡ year *ℤ pos 12 +ℤ pos month -ℤ first_year *ℤ pos 12 }
    ensures max { result < months_in_range }
{
    (year - MIN_YEAR) as u32 * 12 + month
}

/// Returns the year and the month, from 0 for January, of the month with this index.
fn year_and_month(index: u32) -> (i32, u8)
    requires { index < months_in_range }
    ensures value { result.0 *ℤ pos 12 +ℤ pos result.1 ≡ pos index +ℤ first_year *ℤ pos 12 }
    ensures month { result.1 < 12 }
    ensures year { IsYear result.0 }
{
    ((index / 12) as i32 + MIN_YEAR, (index % 12) as u8)
}
