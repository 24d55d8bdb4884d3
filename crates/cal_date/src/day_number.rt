//! Conversions and moves of days by their numbers, without tables or branches, so that a loop can
//! process several days at a time. For invalid components the result is some number, to be ignored.
//!
//! Day 0 is -999999-01-01, a Monday, and the last day of the range has the number 730484633. The
//! code counts years from 1 March, so a leap day is the last day of its year. The first of these
//! years begins in -1000000.
ghost use Rattle.std.specs.Prelude.{◌≡◌, ◌+◌, ◌-◌, ◌*◌, ◌%◌, ◌^◌, ◌<◌, ◌≤◌, ℤ, ◌↔◌, IfSome, IsTrue, SomeIff};
ghost use Rattle.cal_units.specs.Lengths.{is_leap_year, days_in_month};
ghost use Rattle.cal_date.specs.ClosedForms.{days_before_month_in_part};
ghost use Rattle.cal_date.specs.CountLaws.{days_of_years};
ghost use Rattle.cal_date.specs.Date.{weekday_at, IsDate, IsYear, IsDayOfMonth, HasCalendarDate};
ghost use Rattle.cal_date.specs.DateLimits.{years_in_range};
ghost use Rattle.cal_date.specs.IsoWeekDate.{iso_year_at, iso_week_at};
ghost use Rattle.cal_date.specs.Occurrences.{next_occurrences, prev_occurrences, kth};

use crate::date::Date;
use crate::date::iso_week::{SEVENTH, div_7};
use crate::limits::{LAST_DAY, MIN_YEAR, YEARS};
use cal_units::util::is_leap_year;

/// The index of the last year that begins on 1 March and has a day of the range. The year that
/// begins in -1000000 has the index 0.
const LAST_MARCH_YEAR: u32 = YEARS;

/// The days from 1 March to 1 January.
const MARCH_TO_JANUARY: u32 = 306;

/// The number of days of the whole weeks that begin on day 0 and reach past the last day.
const PAST_LAST_DAY: u32 = 7 * (LAST_DAY as u32 / 7 + 1);

/// Returns the number of a date, from 0 for -999999-01-01 to 730484633 for 999999-12-31. For
/// 2024-02-29 it is 365981444.
pub fn day_number(date: Date) -> u32
    ensures value { result ≡ date }
    ensures in_range { IsDate date }
{
    date.day_number()
}

/// Returns the date with a number, which must be at most 730484633. For 365981444 it is 2024-02-29.
#[inline(always)]
pub fn to_date(number: u32) -> Date
    requires { IsDate number }
    ensures { result ≡ number }
{
    Date::from_number(number)
}

/// Returns the date with a number, or `None` if the number is above 730484633. For 365981444 it is
/// 2024-02-29.
pub fn date_from_number(number: u64) -> Option<Date>
    ensures { SomeIff result (IsDate number) number }
{
    Date::checked_from_number(number)
}

/// Returns the year, the month from 1 to 12 and the day of the month of the day with a number,
/// which must be at most 730484633. For 365981444 they are 2024, 2 and 29.
#[inline(always)]
pub fn to_calendar_date(number: u32) -> (i32, u32, u32)
    requires { IsDate number }
    ensures value { HasCalendarDate result.0 result.1 result.2 number }
    ensures month { result.1 ≤ 12 }
    ensures day { result.2 ≤ 31 }
{
    let days = number + MARCH_TO_JANUARY;
    let century = (4 * days + 3) / 146_097;
    let julian = days + century - century / 4;
    let years = (4 * julian + 3) / 1461;
    let past = julian - 1461 * years / 4;

    // The month of this year, from 3 to 14, times 2^16.
    let months = 2141 * past + 197_913;
    let month = months / 65_536;
    let day = months % 65_536 / 2141 + 1;
    let is_late = u32::from(month > 12);
    (
        (years + is_late) as i32 + MIN_YEAR - 1,
        month - 12 * is_late,
        day,
    )
}

/// Returns the number of the day with a year, a month from 1 to 12 and a day of the month. For
/// 2024, 2 and 29 it is 365981444.
///
/// If the year isn't from -999999 to 999999, or the month doesn't have the day, the result is some
/// number, to be ignored. [`is_day_of_month`] tests the day.
#[inline(always)]
pub fn from_calendar_date(year: i32, month: u8, day: u8) -> u32
    ensures value { IsYear year → (1 ≤ month) × (month ≤ 12) → IsDayOfMonth year month day
        → HasCalendarDate year month day result }
    ensures range { IsYear year → (1 ≤ month) × (month ≤ 12) → IsDayOfMonth year month day → IsDate result }
{
    let is_early = u32::from(month <= 2);
    let years = (year.wrapping_sub(MIN_YEAR).cast_unsigned())
        .wrapping_add(1 - is_early)
        .min(LAST_MARCH_YEAR);
    let month = u32::from(month) + 12 * is_early;
    let past = days_before_month_in_part(month - 2) + u32::from(day);
    (days_of_years(years) + past).wrapping_sub(MARCH_TO_JANUARY + 1)
}

/// Returns the ISO year, the week and the weekday, from 1 for Monday to 7 for Sunday, of the day
/// with a number, which must be at most 730484633. A week is in the year of its Thursday, as in
/// ISO 8601. For 365981444 they are 2024, 9 and 4.
#[inline(always)]
pub fn to_iso_week_date(number: u32) -> (i32, u8, u8)
    requires { IsDate number }
    ensures year { result.0 ≡ iso_year_at number }
    ensures week { result.1 ≡ iso_week_at number }
    ensures weekday { result.2 ≡ weekday_at number + 1 }
{
    // The compiler's remainder is faster here than `rem_7`, because the loop has other products.
    let weekday = number % 7;
    let (year, ordinal) = Date::from_number(number - weekday + 3).to_ordinal_date();
    (year, div_7(ordinal + 6), weekday as u8 + 1)
}

/// Returns the days since Monday, from 0 to 6, of the day with a number, which must be at most
/// 730484633. For 365981444, 2024-02-29, they are 3: it is a Thursday.
#[tactic(auto, using(crate::proofs::Weekdays::remainders))]
pub fn days_since_monday(number: u32) -> u8
    requires { IsDate number }
    ensures { result ≡ weekday_at number }
{
    rem_7(number)
}

/// Returns the days past the whole weeks of a number of days, from 0 to 6.
#[tactic(auto, using(crate::proofs::Weekdays::remainders))]
fn rem_7(days: u32) -> u8
    requires { days < 2 ^ 30 }
    ensures { result ≡ days % 7 }
{
    // `part` is the fraction of a week that has passed, times 2^32, so 7/8 of it over 2^29 is the
    // days. A product of 64 bits is faster for one number, and this form for several at a time.
    let part = days.wrapping_mul(SEVENTH);
    ((part - part / 8) >> 29) as u8
}

/// Returns the number of the `n`-th day after the day `number` that has the weekday, from 0 for
/// Monday to 6 for Sunday. Returns `None` if it is past the last day or `n` is 0.
///
/// The number must be at most 730484633, and the weekday at most 6.
/// `nth_next_occurrence(365_981_195, 0, 5)` is 365981224: the fifth Monday after 2023-06-25 is
/// 2023-07-24.
pub fn nth_next_occurrence(number: u32, weekday: u32, n: u8) -> Option<u32>
    requires in_range { IsDate number }
    requires weekday { weekday < 7 }
    ensures value { result ≡ kth n (next_occurrences weekday number) }
    ensures weekday { IfSome result (λ later. weekday_at later ≡ weekday) }
    ensures range { IfSome result
        (λ later. (number + 7 * (n - 1) < later) × (later ≤ number + 7 * n) × IsDate later) }
{
    if n == 0 {
        return None;
    }
    let first = u32::from(rem_7(weekday + PAST_LAST_DAY - 1 - number)) + 1;
    let later = number + first + 7 * (u32::from(n) - 1);
    if later <= LAST_DAY as u32 {
        Some(later)
    } else {
        None
    }
}

/// Returns the number of the `n`-th day before the day `number` that has the weekday, from 0 for
/// Monday to 6 for Sunday. Returns `None` if it is before day 0 or `n` is 0.
///
/// The number must be at most 730484633, and the weekday at most 6.
/// `nth_prev_occurrence(365_981_197, 0, 3)` is 365981182: the third Monday before 2023-06-27 is
/// 2023-06-12.
#[tactic(auto, using(crate::proofs::Occurrences::days_before))]
pub fn nth_prev_occurrence(number: u32, weekday: u32, n: u8) -> Option<u32>
    requires in_range { IsDate number }
    requires weekday { weekday < 7 }
    ensures value { result ≡ kth n (prev_occurrences weekday number) }
    ensures weekday { IfSome result (λ earlier. weekday_at earlier ≡ weekday) }
    ensures range { IfSome result
        (λ earlier. (earlier + 7 * (n - 1) < number) × (number ≤ earlier + 7 * n)) }
{
    if n == 0 {
        return None;
    }
    let first = u32::from(rem_7(number + 6 - weekday)) + 1;
    let days = first + 7 * (u32::from(n) - 1);
    if days <= number {
        Some(number - days)
    } else {
        None
    }
}

/// Returns `true` if the month of the year, from 1 to 12, has the day.
/// `is_day_of_month(1900, 2, 29)` is `false`. For any other month the result is to be ignored.
#[inline(always)]
pub fn is_day_of_month(year: i32, month: u8, day: u8) -> bool
    ensures { (1 ≤ month) × (month ≤ 12) → IsTrue result ↔ IsDayOfMonth year month day }
{
    // A day of 0 wraps to a number far above the length of a month.
    u32::from(day).wrapping_sub(1) < u32::from(month_length(month, is_leap_year(year)))
}

/// Returns the number of days of a month, from 1 to 12, in a leap year or a common year.
/// `month_length(2, true)` is 29. For any other month the result is some number from 28 to 31, to
/// be ignored.
#[inline(always)]
pub fn month_length(month: u8, leap: bool) -> u8
    ensures value { (year : ℤ) → (1 ≤ month) × (month ≤ 12) → leap ≡ is_leap_year year
        → result ≡ days_in_month year month }
    ensures min { 28 ≤ result }
    ensures max { result ≤ 31 }
{
    let month = u32::from(month);
    if month == 2 {
        if leap { 29 } else { 28 }
    } else {
        30 + ((month + month / 8) % 2) as u8
    }
}

/// Returns the number of days of a part of the year before one of its months, counted from 1.
///
/// January and February are one part of the year, and the months from March on are the other part.
/// Counted from March, the form also holds for the next January and February, as months 11 and 12.
pub(crate) fn days_before_month_in_part(month: u32) -> u32
    requires min { 1 ≤ month }
    requires max { month ≤ 2 ^ 10 }
    ensures { result ≡ days_before_month_in_part month }
{
    (month * 3917 - 3866) >> 7
}

/// Returns the number of days of the first `years` years of the range. For 1 it is 365.
#[tactic(auto, using(crate::proofs::JulianDays::days_of_years_closed))]
pub(crate) fn days_of_years(years: u32) -> u32
    requires { years ≤ years_in_range }
    ensures value { result ≡ days_of_years years }
    ensures max { result < 2 ^ 30 }
{
    let centuries = years / 100;
    1461 * years / 4 - centuries + centuries / 4
}
