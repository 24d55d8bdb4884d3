//! The months, the years and the period between two dates.
ghost use Rattle.std.specs.Prelude.{◌≡◌, ◌<◌, ◌≤◌, ◌^◌, pos, neg_ℤ, ◌+ℤ◌, ◌-ℤ◌, ◌*ℤ◌, ◌<ℤ◌, ◌≤ℤ◌};
ghost use Rattle.cal_time.specs.Date.{IsDate};
ghost use Rattle.cal_schedule.specs.Months.{month_number_at, IsMonthNumber, IsMonthsLater};
ghost use Rattle.cal_schedule.specs.Period.{date_period, months_of};
ghost use Rattle.cal_schedule.specs.Units.{IsUntilBy};
ghost use Rattle.cal_schedule.specs.Until.{IsGreatest, IsLeast, IsPeriodUntil, IsMonthsUpTo, IsMonthsBackTo};

use crate::months::checked_add_months;
use crate::period::Period;
use crate::unit::CalendarUnit;
use cal_time::{Date, SignedDuration};

/// Returns the months from the month of one date to the month of another.
pub(crate) fn month_difference(from: Date, to: Date) -> i32
    ensures value { month_number_at to ≡ month_number_at from +ℤ result }
    ensures month { IsMonthNumber (month_number_at from +ℤ result) }
    ensures min { neg_ℤ (pos (2 ^ 25)) ≤ℤ result }
    ensures max { result ≤ℤ pos (2 ^ 25) }
    ensures in_range { IsDate from × IsDate to }
{
    let (start, _) = from.month_number_and_day();
    let (end, _) = to.month_number_and_day();
    end as i32 - start as i32
}

/// Adds months. The resulting month must be in range.
fn add_months(date: Date, months: i32) -> Date
    requires { IsMonthNumber (month_number_at date +ℤ months) }
    ensures value { IsMonthsLater date months result }
    ensures range { IsDate result }
{
    match checked_add_months(date, months) {
        Some(later) => later,
        None => unreachable!(),
    }
}

/// Returns the months to a date that is not before the first.
fn months_forward(from: Date, to: Date) -> i32
    requires { from ≤ to }
    ensures value { IsGreatest (IsMonthsUpTo from to) result }
    ensures in_range { IsDate from × IsDate to }
{
    let months = month_difference(from, to);
    let later = add_months(from, months);
    if later <= to {
        return months;
    }
    months - 1
}

/// Returns the months to a date that is not after the first.
fn months_backward(from: Date, to: Date) -> i32
    requires { to ≤ from }
    ensures value { IsLeast (IsMonthsBackTo from to) result }
    ensures in_range { IsDate from × IsDate to }
{
    let months = month_difference(from, to);
    let earlier = add_months(from, months);
    if to <= earlier {
        return months;
    }
    months + 1
}

/// Returns the whole months from one date to another, truncated toward zero: as many as possible
/// without passing `to`, negative if `to` comes before `from`.
///
/// From 31 January 2023 it is 1 to 28 February, 0 to 27 February, and -1 to 30 December 2022.
pub fn months_until(from: Date, to: Date) -> i32
    ensures value_forward { from ≤ to → IsGreatest (IsMonthsUpTo from to) result }
    ensures value_backward { to < from → IsLeast (IsMonthsBackTo from to) result }
    ensures min { from ≤ to → pos 0 ≤ℤ result }
    ensures max { to < from → result ≤ℤ pos 0 }
    ensures in_range { IsDate from × IsDate to }
{
    if from <= to {
        months_forward(from, to)
    } else {
        months_backward(from, to)
    }
}

/// Splits months into years and months.
fn years_and_months(months: i32) -> (i32, i32)
    ensures value { months ≡ pos 12 *ℤ result.0 +ℤ result.1 }
    ensures forward { pos 0 ≤ℤ months → (pos 0 ≤ℤ result.0) × (pos 0 ≤ℤ result.1)
        × (result.1 ≤ℤ pos 11) }
    ensures backward { months ≤ℤ pos 0 → (result.0 ≤ℤ pos 0) × (neg_ℤ (pos 11) ≤ℤ result.1)
        × (result.1 ≤ℤ pos 0) }
{
    (months / 12, months % 12)
}

/// Returns the whole years from one date to another, such as an age, truncated toward zero.
///
/// From 1 June 1980 it is 43 to 31 May 2024, and 44 to 1 June 2024. A birthday on 29 February
/// counts on the 28th in common years.
pub fn years_until(from: Date, to: Date) -> i32
    ensures value_forward { from ≤ to → IsGreatest (λ years. IsMonthsUpTo from to (pos 12 *ℤ years)) result }
    ensures value_backward { to < from → IsLeast (λ years. IsMonthsBackTo from to (pos 12 *ℤ years)) result }
    ensures min { from ≤ to → pos 0 ≤ℤ result }
    ensures max { to < from → result ≤ℤ pos 0 }
    ensures in_range { IsDate from × IsDate to }
{
    let (years, _) = years_and_months(months_until(from, to));
    years
}

/// Returns the months and days from one date to another.
fn months_and_days_until(from: Date, to: Date) -> (i32, i32)
    ensures value { IsPeriodUntil from to (date_period (pos 0) result.0 result.1) }
    ensures value_forward { from ≤ to → IsGreatest (IsMonthsUpTo from to) result.0 }
    ensures value_backward { to < from → IsLeast (IsMonthsBackTo from to) result.0 }
    ensures forward { from ≤ to → (pos 0 ≤ℤ result.0) × (pos 0 ≤ℤ result.1) }
    ensures backward { to < from → (result.0 ≤ℤ pos 0) × (result.1 ≤ℤ pos 0) }
    ensures in_range { IsDate from × IsDate to }
{
    let months = months_until(from, to);
    let day = add_months(from, months);
    (months, to.to_julian_day() - day.to_julian_day())
}

/// Returns the years, months and days from one date to another.
fn parts_until(from: Date, to: Date) -> (i32, i32, i32)
    ensures value { IsPeriodUntil from to (date_period result.0 result.1 result.2) }
    ensures value_forward { from ≤ to
        → IsGreatest (IsMonthsUpTo from to) (pos 12 *ℤ result.0 +ℤ result.1) }
    ensures value_backward { to < from
        → IsLeast (IsMonthsBackTo from to) (pos 12 *ℤ result.0 +ℤ result.1) }
    ensures forward { from ≤ to → (pos 0 ≤ℤ result.0) × (pos 0 ≤ℤ result.1)
        × (result.1 ≤ℤ pos 11) × (pos 0 ≤ℤ result.2) }
    ensures backward { to < from → (result.0 ≤ℤ pos 0) × (neg_ℤ (pos 11) ≤ℤ result.1)
        × (result.1 ≤ℤ pos 0) × (result.2 ≤ℤ pos 0) }
    ensures in_range { IsDate from × IsDate to }
{
    let (whole, days) = months_and_days_until(from, to);
    let (years, months) = years_and_months(whole);
    (years, months, days)
}

/// Returns the years, months and days from one date to another: as many whole months as
/// [`months_until`] returns, then the remaining days. Adding the years and months at once, and then
/// the days, gives `to`. All three are positive or 0, or all three are negative or 0.
///
/// From 31 January 2023 to 2 March 2024 it is a year, a month and 2 days, because 13 months later
/// is 29 February 2024.
pub fn period_until(from: Date, to: Date) -> Period
    ensures value { IsPeriodUntil from to result }
    ensures value_forward { from ≤ to → IsGreatest (IsMonthsUpTo from to) (months_of result) }
    ensures value_backward { to < from → IsLeast (IsMonthsBackTo from to) (months_of result) }
    ensures forward { from ≤ to → (pos 0 ≤ℤ result.years) × (pos 0 ≤ℤ result.months)
        × (result.months ≤ℤ pos 11) × (pos 0 ≤ℤ result.days) }
    ensures backward { to < from → (result.years ≤ℤ pos 0) × (neg_ℤ (pos 11) ≤ℤ result.months)
        × (result.months ≤ℤ pos 0) × (result.days ≤ℤ pos 0) }
    ensures in_range { IsDate from × IsDate to }
{
    let (years, months, days) = parts_until(from, to);
    match Period::new(years, months, 0, days, SignedDuration::ZERO) {
        Some(period) => period,
        None => unreachable!(),
    }
}

/// Returns the period from one date to another, with `largest` as the largest unit of its parts.
/// For a year, it is [`period_until`]. For a month or a quarter, it has months and days, and for a
/// week, weeks and days. Adding it to `from` gives `to`.
///
/// From 31 January 2023 to 2 March 2024 it is 13 months and 2 days, or 56 weeks and 4 days, or 396
/// days.
pub fn period_until_by(from: Date, to: Date, largest: CalendarUnit) -> Period
    ensures { IsUntilBy largest from to result }
{
    match largest {
        CalendarUnit::Day => Period::from_days(days_until(from, to)),
        CalendarUnit::Week => in_weeks(from, to),
        CalendarUnit::Month => in_months(from, to),
        CalendarUnit::Quarter => in_months(from, to),
        CalendarUnit::Year => period_until(from, to),
    }
}

/// Returns the days from one date to another.
fn days_until(from: Date, to: Date) -> i32
    ensures { pos to ≡ pos from +ℤ result }
{
    to.to_julian_day() - from.to_julian_day()
}

/// Splits days into weeks and days.
fn weeks_and_days(days: i32) -> (i32, i32)
    ensures value { days ≡ pos 7 *ℤ result.0 +ℤ result.1 }
    ensures forward { pos 0 ≤ℤ days → (pos 0 ≤ℤ result.0) × (pos 0 ≤ℤ result.1)
        × (result.1 ≤ℤ pos 6) }
    ensures backward { days ≤ℤ pos 0 → (result.0 ≤ℤ pos 0) × (neg_ℤ (pos 6) ≤ℤ result.1)
        × (result.1 ≤ℤ pos 0) }
{
    (days / 7, days % 7)
}

/// Returns the weeks and days from one date to another.
fn in_weeks(from: Date, to: Date) -> Period
    ensures { IsUntilBy CalendarUnit.Week from to result }
{
    let (weeks, days) = weeks_and_days(days_until(from, to));
    match Period::new(0, 0, weeks, days, SignedDuration::ZERO) {
        Some(period) => period,
        None => unreachable!(),
    }
}

/// Returns the months and days from one date to another.
fn in_months(from: Date, to: Date) -> Period
    ensures { IsUntilBy CalendarUnit.Month from to result }
{
    let (months, days) = months_and_days_until(from, to);
    match Period::new(0, months, 0, days, SignedDuration::ZERO) {
        Some(period) => period,
        None => unreachable!(),
    }
}
