//! Properties of constants and derived traits, which have no clauses: functions return their
//! values. The last function states that two counts of weeks agree.
ghost use Rattle.std.specs.Prelude.{◌≡◌, ◌+◌, ◌↔◌, Ok, IsTrue};
ghost use Rattle.cal_date.specs.CalendarDay.{calendar_day};
ghost use Rattle.cal_date.specs.Date.{first_year, last_year, last_day, day_at, IsYear};
ghost use Rattle.cal_date.specs.IsoWeekDate.{count_before, is_weekday_of_year};

use crate::date::Date;
use crate::kernel::JulianKernel;
use cal_units::util::weeks_in_year;
use std::alloc::AllocError;

/// Returns the first day of the range, `Date::MIN`: day 0, which is 1 January of the first year,
/// -999999-01-01.
pub fn first_day() -> Date
    ensures value { result ≡ 0 }
    ensures day { day_at 0 ≡ calendar_day first_year 1 1 }
{
    Date::MIN
}

/// Returns the last day of the range, `Date::MAX`: 31 December of the last year, 999999-12-31.
#[tactic(auto, using(crate::proofs::Years::end_of_range))]
pub fn final_day() -> Date
    ensures value { result ≡ last_day }
    ensures day { day_at last_day ≡ calendar_day last_year 12 31 }
{
    Date::MAX
}

/// Returns a clone, which equals the original.
pub(crate) fn cloned(date: Date) -> Result<Date, AllocError>
    ensures { result ≡ Ok date }
{
    date.clone()
}

/// Returns a clone of a kernel, which equals the original.
pub(crate) fn cloned_kernel(kernel: JulianKernel) -> Result<JulianKernel, AllocError>
    ensures { result ≡ Ok kernel }
{
    kernel.clone()
}

/// Returns `true` if two kernels are equal: if all five values are.
pub(crate) fn is_same_kernel(kernel: JulianKernel, other: JulianKernel) -> bool
    ensures { IsTrue result ↔ (kernel ≡ other) }
{
    kernel == other
}

/// Returns the number of weeks of a year, which `cal_units` counts within the year. It is the
/// number of Thursdays of the year in the count of all days.
#[tactic(auto, using(crate::proofs::Weekdays::weeks_of_years))]
pub(crate) fn weeks_of(year: i32) -> u8
    requires { IsYear year }
    ensures { result ≡ count_before (is_weekday_of_year 3 year) (last_day + 1) }
{
    weeks_in_year(year)
}
