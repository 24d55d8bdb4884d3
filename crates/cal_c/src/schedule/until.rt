//! The months, the years and the period from one date to another.
ghost use Rattle.std.specs.Prelude.{◌≡◌, pos, neg_ℤ, ◌*ℤ◌, ◌<ℤ◌, ◌≤ℤ◌};
ghost use Rattle.cal_schedule.specs.Period.{months_of};
ghost use Rattle.cal_schedule.specs.Until.{IsGreatest, IsLeast, IsPeriodUntil, IsMonthsUpTo, IsMonthsBackTo};
ghost use Rattle.cal_c.specs.Results.{number_error};
ghost use Rattle.cal_schedule.specs.Units.{IsUntilBy};
ghost use Rattle.cal_schedule.specs.declared.unit.CalendarUnit.{CalendarUnit};
ghost use Rattle.cal_c.specs.Schedule.{period_error, unit_number, IsNumberWith, IsPeriodWith, IsUnit};
ghost use Rattle.cal_c.specs.Values.{need◌else◌then◌, IsJulianDay, day_of};

use crate::results::NumberResult;
use crate::schedule::results::PeriodResult;
use crate::schedule::units::valid_unit;
use crate::status::{INVALID_DATE, INVALID_UNIT};
use crate::values::valid_date;
use cal_schedule::{CalendarUnit, months_until, period_until, period_until_by, years_until};
use cal_time::Date;

/// Returns the whole months from `date` to `other`, truncated toward zero: as many as possible
/// without passing `other`. From 2451575, 2000-01-31, to 2451604, 2000-02-29, it is 1.
#[unsafe(no_mangle)]
pub extern "C" fn fots_date_months_until(date: i32, other: i32) -> NumberResult
    ensures invalid_date { ¬ (IsJulianDay date × IsJulianDay other) → result ≡ number_error INVALID_DATE }
    ensures value_forward { IsJulianDay date → IsJulianDay other → date ≤ℤ other
        → IsNumberWith (IsGreatest (IsMonthsUpTo (day_of date) (day_of other))) result }
    ensures value_backward { IsJulianDay date → IsJulianDay other → other <ℤ date
        → IsNumberWith (IsLeast (IsMonthsBackTo (day_of date) (day_of other))) result }
{
    let date = or_error!(NumberResult, valid_date(date), INVALID_DATE);
    let other = or_error!(NumberResult, valid_date(other), INVALID_DATE);
    NumberResult::ok(months_until(date, other))
}

/// Returns the whole years from `date` to `other`, such as an age, truncated toward zero. From
/// 2451604, 2000-02-29, to 2451969, 2001-02-28, it is 1.
#[unsafe(no_mangle)]
pub extern "C" fn fots_date_years_until(date: i32, other: i32) -> NumberResult
    ensures invalid_date { ¬ (IsJulianDay date × IsJulianDay other) → result ≡ number_error INVALID_DATE }
    ensures value_forward { IsJulianDay date → IsJulianDay other → date ≤ℤ other
        → IsNumberWith (IsGreatest (λ years.
        IsMonthsUpTo (day_of date) (day_of other) (pos 12 *ℤ years))) result }
    ensures value_backward { IsJulianDay date → IsJulianDay other → other <ℤ date
        → IsNumberWith (IsLeast (λ years.
        IsMonthsBackTo (day_of date) (day_of other) (pos 12 *ℤ years))) result }
{
    let date = or_error!(NumberResult, valid_date(date), INVALID_DATE);
    let other = or_error!(NumberResult, valid_date(other), INVALID_DATE);
    NumberResult::ok(years_until(date, other))
}

/// Returns the years, months and days from `date` to `other`: as many whole months as
/// `fots_date_months_until` returns, then the remaining days, all of one sign. From 2451575,
/// 2000-01-31, to 2451971, 2001-03-02, it is 1, 1 and 2.
#[unsafe(no_mangle)]
pub extern "C" fn fots_date_period_until(date: i32, other: i32) -> PeriodResult
    ensures invalid_date { ¬ (IsJulianDay date × IsJulianDay other) → result ≡ period_error INVALID_DATE }
    ensures value { IsJulianDay date → IsJulianDay other
        → IsPeriodWith (IsPeriodUntil (day_of date) (day_of other)) result }
    ensures value_forward { IsJulianDay date → IsJulianDay other → date ≤ℤ other
        → IsPeriodWith (λ p. IsGreatest (IsMonthsUpTo (day_of date) (day_of other)) (months_of p))
        result }
    ensures value_backward { IsJulianDay date → IsJulianDay other → other <ℤ date
        → IsPeriodWith (λ p. IsLeast (IsMonthsBackTo (day_of date) (day_of other)) (months_of p))
        result }
    ensures forward { IsJulianDay date → IsJulianDay other → date ≤ℤ other
        → (pos 0 ≤ℤ result.years) × (pos 0 ≤ℤ result.months) × (result.months ≤ℤ pos 11)
        × (pos 0 ≤ℤ result.days) }
    ensures backward { IsJulianDay date → IsJulianDay other → other <ℤ date
        → (result.years ≤ℤ pos 0) × (neg_ℤ (pos 11) ≤ℤ result.months) × (result.months ≤ℤ pos 0)
        × (result.days ≤ℤ pos 0) }
{
    let date = or_error!(PeriodResult, valid_date(date), INVALID_DATE);
    let other = or_error!(PeriodResult, valid_date(other), INVALID_DATE);
    PeriodResult::ok(period_until(date, other))
}

/// Returns the period from `date` to `other` with a unit as the largest of its parts: 1 is a day, 2
/// a week, 3 a month and 4 a quarter, which both count months, and 5 a year. Weeks come only with 2.
/// From 2451575, 2000-01-31, to 2451971, 2001-03-02, it is 13 months and 2 days by 3.
#[unsafe(no_mangle)]
pub extern "C" fn fots_date_period_until_by(date: i32, other: i32, unit: u32) -> PeriodResult
    ensures { need IsJulianDay date else result ≡ period_error INVALID_DATE then
        need IsJulianDay other else result ≡ period_error INVALID_DATE then
        need IsUnit unit else result ≡ period_error INVALID_UNIT then
        (its : CalendarUnit) × (unit_number its ≡ unit)
        × IsPeriodWith (IsUntilBy its (day_of date) (day_of other)) result }
{
    let date = or_error!(PeriodResult, valid_date(date), INVALID_DATE);
    let other = or_error!(PeriodResult, valid_date(other), INVALID_DATE);
    let unit = or_error!(PeriodResult, valid_unit(unit), INVALID_UNIT);
    period_by_unit(date, other, unit)
}

/// Returns the result of a period by a unit.
fn period_by_unit(date: Date, other: Date, unit: CalendarUnit) -> PeriodResult
    ensures { IsPeriodWith (IsUntilBy unit date other) result }
{
    PeriodResult::ok(period_until_by(date, other, unit))
}
