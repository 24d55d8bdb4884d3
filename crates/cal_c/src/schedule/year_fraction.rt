//! Fractions of a year for interest.
ghost use Rattle.std.specs.Prelude.{◌≡◌, MatchOption};
ghost use Rattle.cal_schedule.specs.declared.year_fraction.DayCount.{DayCount};
ghost use Rattle.cal_schedule.specs.YearFraction.{day_count_numerator, day_count_denominator};
ghost use Rattle.cal_c.specs.Schedule.{day_count_number, year_fraction_ok, year_fraction_error, IsDayCount};
ghost use Rattle.cal_c.specs.Values.{IsJulianDay, day_of};

use crate::schedule::results::YearFractionResult;
use crate::status::{INVALID_CONVENTION, INVALID_DATE};
use crate::values::valid_date;
use cal_schedule::{DayCount, day_count};

/// Returns the day count convention with a number, from 1 for actual/360, or `None`.
fn valid_day_count(number: u32) -> Option<DayCount>
    ensures { MatchOption result (¬ IsDayCount number)
        (λ found. IsDayCount number × (day_count_number found ≡ number)) }
{
    match number {
        1 => Some(DayCount::Actual360),
        2 => Some(DayCount::Actual365Fixed),
        3 => Some(DayCount::Thirty360),
        4 => Some(DayCount::ThirtyE360),
        5 => Some(DayCount::ActualActual),
        _ => None,
    }
}

/// Returns the fraction of a year from `date` to `other` by a convention: 1 is actual/360, 2
/// actual/365 (fixed), 3 30/360 (bond basis), 4 30E/360, and 5 actual/actual (ISDA). From 2452945,
/// 2003-11-01, to 2453127, 2004-05-01, it is 66491/133590 by 5.
#[unsafe(no_mangle)]
pub extern "C" fn fots_date_day_count(date: i32, other: i32, convention: u32) -> YearFractionResult
    ensures invalid_date { ¬ (IsJulianDay date × IsJulianDay other)
        → result ≡ year_fraction_error INVALID_DATE }
    ensures invalid_convention { IsJulianDay date → IsJulianDay other → ¬ IsDayCount convention
        → result ≡ year_fraction_error INVALID_CONVENTION }
    ensures value { IsJulianDay date → IsJulianDay other → (c : DayCount)
        → day_count_number c ≡ convention
        → result ≡ year_fraction_ok (day_count_numerator c (day_of date) (day_of other))
        (day_count_denominator c) }
{
    let date = or_error!(YearFractionResult, valid_date(date), INVALID_DATE);
    let other = or_error!(YearFractionResult, valid_date(other), INVALID_DATE);
    let convention = or_return!(
        valid_day_count(convention),
        YearFractionResult::error(INVALID_CONVENTION)
    );
    YearFractionResult::ok(day_count(date, other, convention))
}
