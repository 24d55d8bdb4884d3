//! A day in each year, and its date in a year.
ghost use Rattle.std.specs.Prelude.{◌≡◌, ℕ, pos, ◌+ℤ◌, ℤ, Some, IfSome, SomeIff, unsigned_abs};
ghost use Rattle.cal_time.specs.Date.{IsDate, HasCalendarDate};
ghost use Rattle.cal_time.specs.Month.{number};
ghost use Rattle.cal_time.specs.Weekday.{index};
ghost use Rattle.cal_date.specs.Arithmetic.{IsDateNumber};
ghost use Rattle.cal_schedule.specs.Weekdays.{IsNthWeekday, IsLastWeekday};
ghost use Rattle.cal_holidays.specs.Easter.{IsEaster, IsJulianEaster};
ghost use Rattle.cal_holidays.specs.Holidays.{IsDayOf, IsDaysAfter, IsOnOrAfter};
ghost use Rattle.cal_holidays.specs.HolidaySearch.{IsNearEaster};

use crate::gregorian::easter;
use crate::julian::julian_easter;
use cal_date::day_number;
use cal_schedule::{last_weekday_of_month, nth_weekday_of_month, on_or_after};
use cal_time::{Date, Month, Weekday};

/// A day in each year, such as Thanksgiving.
#[derive(Clone, Copy, Debug, PartialEq, Eq)]
pub enum HolidayDay {
    /// A day of a month. Years without it have none.
    Fixed(Month, u8),
    /// The n-th day with a weekday in a month, counted from 1. Months without it have none.
    Nth(Month, Weekday, u8),
    /// The last day with a weekday in a month.
    Last(Month, Weekday),
    /// The first day with a weekday on or after a day of a month.
    OnOrAfter(Month, u8, Weekday),
    /// A number of days after Easter Sunday, or before it if the number is negative.
    Easter(i8),
    /// A number of days after Easter Sunday by the Julian calendar, or before it.
    JulianEaster(i8),
}

/// Returns the day that is a number of days after a date, or `None` outside the range.
pub(crate) fn days_after(date: Date, days: i8) -> Option<Date>
    ensures value { SomeIff result (IsDateNumber (pos date +ℤ days)) (unsigned_abs (pos date +ℤ days)) }
    ensures in_range { IsDate date }
{
    let number = i64::from(day_number::day_number(date)) + i64::from(days);
    match u64::try_from(number) {
        Ok(number) => day_number::date_from_number(number),
        Err(_) => None,
    }
}

/// Returns a day of a month, or `None` if there is none.
fn fixed_day(year: i32, month: Month, day: u8) -> Option<Date>
    ensures every { (n : ℕ) → IsDate n → HasCalendarDate year (number month) day n
        → result ≡ Some n }
    ensures value { IfSome result (λ n. IsDate n × HasCalendarDate year (number month) day n) }
{
    match Date::from_calendar_date(year, month, day) {
        Ok(date) => Some(date),
        Err(_) => None,
    }
}

/// Returns the n-th day with a weekday in a month, or `None` if there is none.
fn nth_day(year: i32, month: Month, weekday: Weekday, n: u8) -> Option<Date>
    ensures every { (k : ℕ) → IsDate k → IsNthWeekday year (number month) (index weekday) n k
        → result ≡ Some k }
    ensures value { IfSome result (λ k.
        IsDate k × IsNthWeekday year (number month) (index weekday) n k) }
{
    match nth_weekday_of_month(year, month, weekday, n) {
        Ok(date) => Some(date),
        Err(_) => None,
    }
}

/// Returns the last day with a weekday in a month, or `None` if the year is out of range.
fn last_day(year: i32, month: Month, weekday: Weekday) -> Option<Date>
    ensures every { (k : ℕ) → IsDate k → IsLastWeekday year (number month) (index weekday) k
        → result ≡ Some k }
    ensures value { IfSome result (λ k.
        IsDate k × IsLastWeekday year (number month) (index weekday) k) }
{
    match last_weekday_of_month(year, month, weekday) {
        Ok(date) => Some(date),
        Err(_) => None,
    }
}

/// Returns the first day with a weekday on or after a day of a month, or `None` if there is none.
fn day_on_or_after(year: i32, month: Month, day: u8, weekday: Weekday) -> Option<Date>
    ensures every { (n : ℕ) → IsDate n → IsOnOrAfter year (number month) day (index weekday) n
        → result ≡ Some n }
    ensures value { IfSome result (λ n.
        IsDate n × IsOnOrAfter year (number month) day (index weekday) n) }
{
    match Date::from_calendar_date(year, month, day) {
        Ok(date) => on_or_after(date, weekday),
        Err(_) => None,
    }
}

/// Returns the day that is a number of days after Easter Sunday, or `None` if there is none.
fn days_after_easter(year: i32, days: i8) -> Option<Date>
    ensures every { (n : ℕ) → IsDate n → IsDaysAfter (IsEaster year) days n → result ≡ Some n }
    ensures value { IfSome result (λ n. IsDate n × IsDaysAfter (IsEaster year) days n) }
{
    match easter(year) {
        Ok(date) => days_after(date, days),
        Err(_) => None,
    }
}

/// Returns the day that is a number of days after Easter Sunday by the Julian calendar, or `None`
/// if there is none.
fn days_after_julian_easter(year: i32, days: i8) -> Option<Date>
    ensures every { (n : ℕ) → IsDate n → IsDaysAfter (IsJulianEaster year) days n
        → result ≡ Some n }
    ensures value { IfSome result (λ n. IsDate n × IsDaysAfter (IsJulianEaster year) days n) }
{
    match julian_easter(year) {
        Ok(date) => days_after(date, days),
        Err(_) => None,
    }
}

impl HolidayDay {
    /// Returns the day of a year, or `None` if the year or the range has none.
    /// `Last(Month::May, Weekday::Monday)` is 2024-05-27 in 2024.
    pub fn day_of(self, year: i32) -> Option<Date>
        ensures every { (n : ℕ) → IsDate n → IsDayOf self year n → result ≡ Some n }
        ensures value { IfSome result (λ n. IsDate n × IsDayOf self year n) }
    {
        match self {
            HolidayDay::Fixed(month, day) => fixed_day(year, month, day),
            HolidayDay::Nth(month, weekday, n) => nth_day(year, month, weekday, n),
            HolidayDay::Last(month, weekday) => last_day(year, month, weekday),
            HolidayDay::OnOrAfter(month, day, weekday) => {
                day_on_or_after(year, month, day, weekday)
            }
            HolidayDay::Easter(days) => days_after_easter(year, days),
            HolidayDay::JulianEaster(days) => days_after_julian_easter(year, days),
        }
    }

    /// Returns the maximum number of days from Easter, or 0 if the day isn't counted from it.
    pub(crate) fn most_from_easter(self) -> u8
        ensures { IsNearEaster self result }
    {
        match self {
            HolidayDay::Easter(days) => days.unsigned_abs(),
            HolidayDay::JulianEaster(days) => days.unsigned_abs(),
            _ => 0,
        }
    }
}
