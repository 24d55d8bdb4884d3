//! Fractions of a year for interest.
ghost use Rattle.std.specs.Prelude.{◌≡◌, ◌<◌, ◌^◌, pos, neg_ℤ, ◌+ℤ◌, ◌-ℤ◌, ◌*ℤ◌, ◌≤ℤ◌};
ghost use Rattle.cal_time.specs.Date.{first_year, year_at, IsDate};
ghost use Rattle.cal_time.specs.DateLimits.{years_in_range};
ghost use Rattle.cal_time.specs.IsoWeekDate.{count_before};
ghost use Rattle.cal_schedule.specs.YearFraction.{actual_days, bond_end, day_count_numerator, count_between, in_leap_year, in_common_year, thirty_days, day_count_denominator};

use crate::until::month_difference;
use cal_time::Date;
use cal_time::limits::MIN_YEAR;
use cal_time::util::is_leap_year;

/// A day count convention for interest, under its name in the 2006 ISDA Definitions. The first day
/// counts and the last one doesn't.
#[derive(Clone, Copy, Debug, PartialEq, Eq)]
pub enum DayCount {
    /// Actual/360: the days, over 360.
    Actual360,
    /// Actual/365 (Fixed): the days, over 365.
    Actual365Fixed,
    /// 30/360, bond basis: each month has 30 days, and day 31 counts as 30. At the end it does so
    /// only if the first day is 30 or 31.
    Thirty360,
    /// 30E/360, Eurobond basis: each month has 30 days, and day 31 counts as 30.
    ThirtyE360,
    /// Actual/Actual (ISDA): the days in leap years over 366, and the other days over 365.
    ActualActual,
}

/// A fraction of a year, as [`day_count`] returns it: not reduced, and with a numerator that can be
/// negative or 0.
#[derive(Clone, Copy, Debug, PartialEq, Eq)]
pub struct YearFraction {
    /// The number of days, by the convention. For actual/actual it is the days in leap years times
    /// 365, plus the other days times 366.
    pub numerator: i64,
    /// The number of days in a year, by the convention: 360 or 365. For actual/actual it is 133590,
    /// 366 times 365.
    pub denominator: u32,
}

/// Returns the days from one date to another, negative if `to` comes before `from`.
fn actual_days(from: Date, to: Date) -> i64
    ensures value { result ≡ actual_days from to }
    ensures min { neg_ℤ (pos (2 ^ 40)) ≤ℤ result }
    ensures max { result ≤ℤ pos (2 ^ 40) }
{
    i64::from(to.to_julian_day()) - i64::from(from.to_julian_day())
}

/// Returns the days between two dates with 30 days a month and these days of the month.
fn thirty_days(from: Date, to: Date, first: u8, last: u8) -> i64
    ensures { result ≡ thirty_days from to first last }
{
    i64::from(month_difference(from, to)) * 30 + i64::from(last) - i64::from(first)
}

/// Returns the last day of the month for the bond basis.
fn bond_end(first: u8, last: u8) -> u8
    ensures { result ≡ bond_end first last }
{
    if last == 31 && first > 29 { 30 } else { last }
}

/// Returns the number of years of the range before the year of a date.
fn years_before(date: Date) -> u32
    ensures value { pos result ≡ year_at date -ℤ first_year }
    ensures max { result < years_in_range }
    ensures in_range { IsDate date }
{
    (date.year() - MIN_YEAR) as u32
}

/// Returns the number of days in leap years before a date, from the first day of the range.
fn leap_days_before(date: Date) -> u32
    ensures { result ≡ count_before in_leap_year date }
{
    let years = years_before(date);
    let days = 366 * (years / 4 + years / 400 - years / 100);
    if is_leap_year(date.year()) {
        days + u32::from(date.ordinal()) - 1
    } else {
        days
    }
}

/// Returns the number of days in leap years from one date to another.
fn leap_days(from: Date, to: Date) -> i64
    ensures value { result ≡ count_between in_leap_year from to }
    ensures min { neg_ℤ (pos (2 ^ 40)) ≤ℤ result }
    ensures max { result ≤ℤ pos (2 ^ 40) }
{
    i64::from(leap_days_before(to)) - i64::from(leap_days_before(from))
}

/// Returns the number of days in common years from one date to another.
fn common_year_days(from: Date, to: Date) -> i64
    ensures value { result ≡ count_between in_common_year from to }
    ensures min { neg_ℤ (pos (2 ^ 42)) ≤ℤ result }
    ensures max { result ≤ℤ pos (2 ^ 42) }
{
    actual_days(from, to) - leap_days(from, to)
}

/// Returns the numerator of actual/actual, over 366 times 365.
fn actual_actual_days(from: Date, to: Date) -> i64
    ensures { result ≡ count_between in_leap_year from to *ℤ pos 365 +ℤ count_between in_common_year from to
        *ℤ pos 366 }
{
    leap_days(from, to) * 365 + common_year_days(from, to) * 366
}

/// Returns the fraction of a year from one date to another by a convention. The denominator of
/// actual/actual is 366 times 365. From 1 November 2003 to 1 May 2004 it gives 66491/133590, for 61
/// days over 365 and 121 over 366.
///
/// If `to` comes before `from`, the numerator is negative, or 0 by two conventions: 30/360 and
/// 30E/360 give 0 from 31 to 30 January 2024, and 30/360 gives 0 from 1 February to 31 January
/// 2024.
pub fn day_count(from: Date, to: Date, convention: DayCount) -> YearFraction
    ensures numerator { result.numerator ≡ day_count_numerator convention from to }
    ensures denominator { result.denominator ≡ day_count_denominator convention }
{
    let (first, last) = (from.day(), to.day());
    match convention {
        DayCount::Actual360 => YearFraction {
            numerator: actual_days(from, to),
            denominator: 360,
        },
        DayCount::Actual365Fixed => YearFraction {
            numerator: actual_days(from, to),
            denominator: 365,
        },
        DayCount::Thirty360 => YearFraction {
            numerator: thirty_days(from, to, first.min(30), bond_end(first, last)),
            denominator: 360,
        },
        DayCount::ThirtyE360 => YearFraction {
            numerator: thirty_days(from, to, first.min(30), last.min(30)),
            denominator: 360,
        },
        DayCount::ActualActual => YearFraction {
            numerator: actual_actual_days(from, to),
            denominator: 133_590,
        },
    }
}
