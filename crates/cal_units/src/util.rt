//! Lengths of years and months in days and weeks, and `DateAdjustment`.
ghost use Rattle.std.specs.Prelude.{◌≡◌, ◌^◌, ◌≤◌, ◌≤ℤ◌, neg_ℤ, pos};
ghost use Rattle.cal_units.specs.Lengths.{is_leap_year, days_in_year, days_in_month};
ghost use Rattle.cal_units.specs.Month.{number};
ghost use Rattle.cal_units.specs.Weeks.{first_weekday, weeks_in_year};

use crate::month::Month;

mod date_adjustment;

pub use date_adjustment::DateAdjustment;

/// The index of Thursday, counted from 0 at Monday.
const THURSDAY: i64 = 3;

/// The index of Friday, counted from 0 at Monday.
const FRIDAY: i64 = 4;

/// Returns `true` if `year` is a leap year of the proleptic Gregorian calendar: 4 divides it, and
/// 100 doesn't or 400 does. There is a year 0.
///
/// The years 2000 and 2020 are leap years; 1900 and 2019 aren't.
pub fn is_leap_year(year: i32) -> bool
    ensures { result ≡ is_leap_year year }
{
    // A multiple of 100 is a multiple of 400 if 16 divides it. Both tests are masks, so the choice
    // needs no branch.
    if year % 100 == 0 {
        year % 16 == 0
    } else {
        year % 4 == 0
    }
}

/// Returns the number of days of the year: 366 in a leap year, else 365. For 2020 it is 366, and
/// for 1900 it is 365.
pub fn days_in_year(year: i32) -> u16
    ensures value { result ≡ days_in_year year }
    ensures range { (365 ≤ result) × (result ≤ 366) }
{
    if is_leap_year(year) { 366 } else { 365 }
}

/// Returns the number of ISO 8601 weeks of the year, 52 or 53.
///
/// A week belongs to the year of its Thursday, so this is the number of Thursdays of the year. For
/// 2020 it is 53, and for 2019 it is 52.
#[tactic(auto, using(crate::proofs::Weeks::weeks))]
pub fn weeks_in_year(year: i32) -> u8
    ensures value { result ≡ weeks_in_year year }
    ensures range { (52 ≤ result) × (result ≤ 53) }
{
    let year = i64::from(year);
    let begins_on = first_weekday(year);
    let next_begins_on = first_weekday(year + 1);

    // A year has 53 Thursdays if it begins or ends on a Thursday. It ends on a Thursday if the next
    // year begins on a Friday.
    if begins_on == THURSDAY || next_begins_on == FRIDAY {
        53
    } else {
        52
    }
}

/// Returns the number of days of the month in `year`, from 28 to 31. February has 29 days in 2000
/// and 28 in 1900.
#[tactic(auto, unfolding(crate::specs::Lengths::days_in_month))]
pub fn days_in_month(month: Month, year: i32) -> u8
    ensures value { result ≡ days_in_month year (number month) }
    ensures range { (28 ≤ result) × (result ≤ 31) }
{
    match month {
        Month::February if is_leap_year(year) => 29,
        Month::February => 28,
        Month::April | Month::June | Month::September | Month::November => 30,
        _ => 31,
    }
}

/// Returns the number of days of the month in `year`, from 28 to 31, like `days_in_month`.
/// `days_in_year_month(2000, Month::February)` is 29.
pub fn days_in_year_month(year: i32, month: Month) -> u8
    ensures value { result ≡ days_in_month year (number month) }
    ensures range { (28 ≤ result) × (result ≤ 31) }
{
    days_in_month(month, year)
}

/// Returns the index of the weekday of 1 January, from 0 for Monday to 6 for Sunday.
///
/// Year 1 begins on a Monday. Each year of 365 days moves the weekday by one, and each leap day by
/// one more. The quotients are rounded down, so the result is also right before year 1.
fn first_weekday(year: i64) -> i64
    requires min { neg_ℤ (pos (2 ^ 32)) ≤ℤ year }
    requires max { year ≤ℤ pos (2 ^ 32) }
    ensures { result ≡ pos (first_weekday year) }
{
    let years = year - 1;
    let leap_days = years.div_euclid(4) - years.div_euclid(100) + years.div_euclid(400);
    (years + leap_days).rem_euclid(7)
}
