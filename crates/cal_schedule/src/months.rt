//! Arithmetic with months and years.
ghost use Rattle.std.specs.Prelude.{◌≡◌, ℕ, ◌+◌, ◌<◌, ◌≤◌, ◌^◌, min, pos, neg_ℤ, ◌+ℤ◌, ◌-ℤ◌, ◌*ℤ◌, ◌<ℤ◌, ◌≤ℤ◌, Some, IfSome, IfNone};
ghost use Rattle.cal_time.specs.Date.{first_year, last_year, last_day, IsDate, IsYear, year_at, month_at, day_of_month_at};
ghost use Rattle.cal_time.specs.DateLimits.{months_in_range};
ghost use Rattle.cal_time.specs.Lengths.{days_in_month};
ghost use Rattle.cal_schedule.specs.Months.{month_number_at, HasMonthIndex, IsMonthNumber, IsMonthsLater};

use cal_time::limits::{MAX_YEAR, MIN_YEAR};
use cal_time::{Date, limits};

/// The number of months in the range.
const MONTHS: i64 = limits::MONTHS as i64;

/// Returns the date in a month, by its index, with this day, or the last day of the month if it is
/// shorter. The index is below 23999988, and the day is 1 or more.
pub(crate) fn clamped_date_in_month(index: u32, day: u32) -> Date
    requires month { index < months_in_range }
    requires day { 1 ≤ day }
    ensures month { HasMonthIndex index result }
    ensures day { day_of_month_at result
        ≡ min day (days_in_month (year_at result) (month_at result)) }
    ensures range { IsDate result }
{
    Date::from_month_number_clamped(index, day)
}

/// Adds months, or subtracts them if the number is negative. The day of the month stays, or becomes
/// the last day if the month is shorter. One month after 31 January 2023 is 28 February 2023.
///
/// Returns `None` if the resulting month is out of range.
pub fn checked_add_months(date: Date, months: i32) -> Option<Date>
    ensures every { (n : ℕ) → IsDate n → IsMonthsLater date months n → result ≡ Some n }
    ensures value { IfSome result (λ n. IsDate n × IsMonthsLater date months n) }
    ensures some { IfSome result (λ _. IsMonthNumber (month_number_at date +ℤ months)) }
    ensures none { IfNone result (¬ IsMonthNumber (month_number_at date +ℤ months)) }
    ensures in_range { IsDate date }
{
    let (index, day) = date.month_number_and_day();
    let index = i64::from(index) + i64::from(months);
    if index < 0 || index >= MONTHS {
        return None;
    }
    Some(clamped_date_in_month(index as u32, day))
}

/// Adds months like [`checked_add_months`], but returns the first or the last date of the range if
/// the resulting month is out of range. A month after [`Date::MAX`] is `Date::MAX`, and a month
/// before [`Date::MIN`] is `Date::MIN`.
pub fn saturating_add_months(date: Date, months: i32) -> Date
    ensures value { IsMonthNumber (month_number_at date +ℤ months)
        → IsMonthsLater date months result }
    ensures before { (month_number_at date +ℤ months) <ℤ (first_year *ℤ pos 12) → result ≡ 0 }
    ensures past { ((last_year +ℤ pos 1) *ℤ pos 12) ≤ℤ (month_number_at date +ℤ months)
        → result ≡ last_day }
    ensures in_range { IsDate date × IsDate result }
{
    match checked_add_months(date, months) {
        Some(later) => later,
        None if months < 0 => Date::MIN,
        None => Date::MAX,
    }
}

/// Adds years, or subtracts them if the number is negative. The month and the day stay, except that
/// 29 February becomes the 28th in a common year. One year after 29 February 2024 is 28 February
/// 2025, and four years after it is 29 February 2028.
///
/// Returns `None` if the resulting year is out of range.
pub fn checked_add_years(date: Date, years: i32) -> Option<Date>
    ensures every { (n : ℕ) → IsDate n → IsMonthsLater date (pos 12 *ℤ years) n → result ≡ Some n }
    ensures value { IfSome result (λ n. IsDate n × IsMonthsLater date (pos 12 *ℤ years) n) }
    ensures parts { IfSome result (λ n.
        (year_at n ≡ year_at date +ℤ years) × (month_at n ≡ month_at date)) }
    ensures some { IfSome result (λ _. IsYear (year_at date +ℤ years)) }
    ensures none { IfNone result (¬ IsYear (year_at date +ℤ years)) }
    ensures in_range { IsDate date }
{
    let (month, day) = date.month_index_and_day();
    let year = i64::from(date.year()) + i64::from(years);
    if year < i64::from(MIN_YEAR) || year > i64::from(MAX_YEAR) {
        return None;
    }
    Some(Date::from_month_index_clamped(year as i32, month, day))
}
