//! Dates moved by periods.
ghost use Rattle.std.specs.Prelude.{◌≡◌, ◌⊎◌, ℕ, pos, ◌+ℤ◌, ◌*ℤ◌, ◌≤ℤ◌, Some, IfSome, SomeIff, FitsSigned};
ghost use Rattle.std.specs.Int.{w32};
ghost use Rattle.cal_time.specs.Date.{IsDate};
ghost use Rattle.cal_schedule.specs.Months.{IsMonthsLater};
ghost use Rattle.cal_schedule.specs.Period.{days_of, months_of, IsDateAfter, IsDaysLater, AgreeInSign};

use crate::months::checked_add_months;
use crate::period::Period;
use crate::period_error::PeriodError;
use cal_time::{Date, SignedDuration};

/// Adds the years and the months of a period at once, and then its weeks and days. The day of the
/// month stays, or becomes the last day of a shorter month. A month and a day after 31 January 2024
/// is 1 March.
///
/// Returns `HasDuration` if the period has an exact duration, and `OutOfRange` if the result is out
/// of range.
pub fn checked_add_period(date: Date, period: Period) -> Result<Date, PeriodError>
    ensures { IsDateAfter date (months_of period) (days_of period) period.exact result }
{
    nth_period(date, period, 1)
}

/// Adds a period `n` times at once: `n` times its months, and then `n` times its days. Steps of a
/// month from 31 January 2024 are 29 February, 31 March and 30 April, without a drift.
///
/// Returns the errors of [`checked_add_period`].
pub fn nth_period(start: Date, period: Period, n: i32) -> Result<Date, PeriodError>
    ensures { IsDateAfter start (n *ℤ months_of period) (n *ℤ days_of period) period.exact result }
{
    if !period.duration().is_zero() {
        return Err(PeriodError::HasDuration);
    }
    match nth_date(start, period, n) {
        Some(date) => Ok(date),
        None => Err(PeriodError::OutOfRange),
    }
}

/// Adds the months and the days of a period, whatever its duration is. Returns `None` if the result
/// is out of range.
pub fn date_after(date: Date, period: Period) -> Option<Date>
    ensures every { (r : ℕ) → IsDate r → IsDaysLater date (months_of period) (days_of period) r
        → result ≡ Some r }
    ensures value { IfSome result (λ r. IsDate r
        × IsDaysLater date (months_of period) (days_of period) r) }
{
    nth_date(date, period, 1)
}

/// Adds the months and the days of a period `n` times at once, whatever its duration is. Returns
/// `None` if the result is out of range.
pub fn nth_date(start: Date, period: Period, n: i32) -> Option<Date>
    ensures every { (r : ℕ) → IsDate r
        → IsDaysLater start (n *ℤ months_of period) (n *ℤ days_of period) r → result ≡ Some r }
    ensures value { IfSome result (λ r. IsDate r
        × IsDaysLater start (n *ℤ months_of period) (n *ℤ days_of period) r) }
{
    let months = product(n, period.whole_months());
    let days = product(n, period.whole_days());
    moved(start, months, days)
}

/// Returns the product of two numbers.
fn product(a: i32, b: i64) -> i128
    ensures value { result ≡ a *ℤ b }
{
    i128::from(a) * i128::from(b)
}

/// Returns the date some months and then some days after a date, of one sign.
pub(crate) fn moved(date: Date, months: i128, days: i128) -> Option<Date>
    requires { AgreeInSign months days }
    ensures every { (r : ℕ) → IsDate r → IsDaysLater date months days r → result ≡ Some r }
    ensures value { IfSome result (λ r. IsDate r × IsDaysLater date months days r) }
{
    day_after(months_after(date, months)?, days)
}

/// Returns an i32 if a number fits.
fn narrow(number: i128) -> Option<i32>
    ensures { SomeIff result (FitsSigned w32 number) number }
{
    match i32::try_from(number) {
        Ok(number) => Some(number),
        Err(_) => None,
    }
}

/// Adds months to a date.
fn months_after(date: Date, months: i128) -> Option<Date>
    ensures every { (r : ℕ) → IsDate r → IsMonthsLater date months r → result ≡ Some r }
    ensures value { IfSome result (λ r. IsDate r × IsMonthsLater date months r) }
    ensures in_range { IsDate date }
{
    let _ = date.to_julian_day();
    if months == 0 {
        return Some(date);
    }
    checked_add_months(date, narrow(months)?)
}

/// Adds days to a date.
fn day_after(date: Date, days: i128) -> Option<Date>
    ensures every { (r : ℕ) → IsDate r → pos r ≡ pos date +ℤ days → result ≡ Some r }
    ensures value { IfSome result (λ r. IsDate r × (pos r ≡ pos date +ℤ days)) }
{
    let _ = date.to_julian_day();
    if days == 0 {
        return Some(date);
    }
    days_later(date, narrow(days)?)
}

/// Adds days to a date, or subtracts them if the number is negative.
fn days_later(date: Date, days: i32) -> Option<Date>
    ensures every { (r : ℕ) → IsDate r → pos r ≡ pos date +ℤ days → result ≡ Some r }
    ensures value { IfSome result (λ r. IsDate r × (pos r ≡ pos date +ℤ days)) }
{
    date.checked_add(SignedDuration::days(i64::from(days)))
}
