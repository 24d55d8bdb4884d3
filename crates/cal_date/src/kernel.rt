//! The kernel of a Julian day: five numbers, from two multiplications, that give its year, ordinal
//! and leap mark.
//!
//! A product with a rounded reciprocal replaces a division by a constant, and its low half is the
//! fraction that has passed. This is the method of Cassio Neri and Lorenz Schneider, "Euclidean
//! affine functions and their application to calendar algorithms" (2023). The constants are from
//! the crate `time`.
ghost use Rattle.std.specs.Prelude.{◌≡◌, ◌≢◌, ℕ, ◌+◌, ◌*◌, ◌/◌, ◌%◌, ◌^◌, ◌<◌, ◌-ℤ◌, IfSome, None};
ghost use Rattle.cal_units.specs.Lengths.{is_leap_year};
ghost use Rattle.cal_date.specs.Date.{first_julian_day, IsDate, IsYear, HasJulianDay, HasOrdinalDate, NoDate};
ghost use Rattle.cal_date.specs.Arithmetic.{IsDateNumber};
ghost use Rattle.cal_date.specs.ClosedForms.{shifted_day, kernel_of_shifted_day, kernel_of, HasKernel, is_julian_year, year_of_kernel, ordinal_of_kernel, is_leap_by_kernel};

use crate::date::Date;
use crate::limits::{LAST_DAY, MAX_YEAR, MIN_JULIAN_DAY};

/// The shift of Julian days. With it, day 0 is 1 January -2379600, and 400 divides this year.
const DAY_SHIFT: i32 = 867_409_993;

/// The shift of years. The kernel counts years from -2379600.
const YEAR_SHIFT: i32 = 2_379_600;

/// The number of the day whose Julian day is 0.
const DAY_ZERO: u32 = -MIN_JULIAN_DAY as u32;

/// The first day of the range, counted from 1 January -2379600.
const FIRST_DAY: u32 = (MIN_JULIAN_DAY + DAY_SHIFT) as u32;

/// The last year of the range, counted from -2379600.
const LAST_YEAR: u32 = (MAX_YEAR + YEAR_SHIFT) as u32;

/// 2^49 / 146097, rounded down. 400 years have 146097 days, so a day times this is its centuries,
/// with 47 fractional bits.
const CENTURY_FACTOR: u64 = 3_853_261_555;

/// The fraction of a century of 36525 days that 365 days make up, times 2^32, rounded down.
const CENTURY_CUT: u32 = 42_920_275;

/// 2^42 / 1461, rounded up. Four years have 1461 days, so a day times this is its years, with 40
/// fractional bits.
const YEAR_FACTOR: u64 = 3_010_298_776;

/// The low 32 bits.
const LOW_HALF: u64 = 0xffff_ffff;

/// The kernel of a Julian day: its century and its year, each with the fraction that has passed.
///
/// Days and years are counted from 1 January -2379600. If 146097, the days of 400 years, divides
/// the day, the century is one too low; the date is right all the same.
#[derive(Clone, Copy, PartialEq, Eq, Debug)]
pub struct JulianKernel {
    /// The number of centuries before the day.
    pub century: u32,
    /// The fraction of the century that has passed, times 2^32.
    pub century_part: u32,
    /// The day in the Julian count, in which every fourth year is a leap year.
    pub julian: u32,
    /// The number of years before the day.
    pub years: u32,
    /// The fraction of the year that has passed, times 2^32.
    pub year_part: u32,
}

/// Returns the kernel of a Julian day, which must be from -363521074 to 366963559. For 2451545,
/// 2000-01-01, it is 23815, 4294963575, 869879400, 2381600 and 1469893. The century is one too low.
pub fn julian_kernel(julian_day: i32) -> JulianKernel
    requires { IsDateNumber (julian_day -ℤ first_julian_day) }
    ensures value { result ≡ kernel_of julian_day }
    ensures date { (n : ℕ) → IsDate n → HasJulianDay julian_day n
        → HasOrdinalDate (year_of_kernel result) (ordinal_of_kernel result) n }
    ensures leap { is_leap_by_kernel result ≡ is_leap_year (year_of_kernel result) }
    ensures century { let day = shifted_day julian_day in day % 146097 ≢ 0
        → result.century ≡ 4 * day / 146097 }
    ensures century_one_low { let day = shifted_day julian_day in
        day % 146097 ≡ 0 → result.century + 1 ≡ 4 * day / 146097 }
{
    kernel_of_day(shifted_day(julian_day))
}

/// Returns the date of a Julian day, or `None` if it is out of range.
pub(crate) fn date_of_julian_day(julian_day: i32) -> Option<Date>
    ensures value { IfSome result (λ n. IsDate n × HasJulianDay julian_day n) }
    ensures none { result ≡ None → NoDate (HasJulianDay julian_day) }
    ensures closed_form { let kernel = kernel_of julian_day in
        IfSome result (HasOrdinalDate (year_of_kernel kernel) (ordinal_of_kernel kernel)) }
{
    // A number past the last day becomes the day after the last one, and so does a negative number,
    // which wraps. Then the test comes after the products, and a compiler can process several
    // Julian days at a time.
    let number = julian_day
        .cast_unsigned()
        .wrapping_add(DAY_ZERO)
        .min(LAST_DAY as u32 + 1);
    let kernel = kernel_of_day(FIRST_DAY + number);
    if kernel.years > LAST_YEAR {
        return None;
    }
    Some(date_of_kernel(kernel))
}

/// Returns the date of a kernel, which must be the kernel of a date. For the kernel of 2451545 it
/// is 2000-01-01.
pub fn date_of_kernel(kernel: JulianKernel) -> Date
    requires { (n : ℕ) × IsDate n × HasKernel kernel n }
    ensures { (n : ℕ) → IsDate n → HasKernel kernel n → result ≡ n }
{
    Date::pack(kernel.year(), kernel.is_leap_year(), kernel.ordinal())
}

/// Returns the day with a Julian day, counted from 1 January -2379600.
fn shifted_day(julian_day: i32) -> u32
    requires { IsDateNumber (julian_day -ℤ first_julian_day) }
    ensures { result ≡ shifted_day julian_day }
{
    (julian_day + DAY_SHIFT) as u32
}

/// Returns the kernel of a day that is counted from 1 January -2379600.
fn kernel_of_day(day: u32) -> JulianKernel
    requires { day < 2 ^ 31 }
    ensures { result ≡ kernel_of_shifted_day day }
{
    let centuries = u64::from(day) * CENTURY_FACTOR >> 15;
    let century = (centuries >> 32) as u32;
    let julian = day - century / 4 + century;
    let years = u64::from(julian) * YEAR_FACTOR >> 8;
    JulianKernel {
        century,
        century_part: (centuries & LOW_HALF) as u32,
        julian,
        years: (years >> 32) as u32,
        year_part: (years & LOW_HALF) as u32,
    }
}

impl JulianKernel {
    /// Returns the year, which must be in the range.
    fn year(self) -> i32
        requires { IsYear (year_of_kernel self) }
        ensures { result ≡ year_of_kernel self }
    {
        self.years as i32 - YEAR_SHIFT
    }

    /// Returns the ordinal: the days of the year that have passed, plus 1. The first year of most
    /// centuries begins a day late in the Julian count, and needs no 1.
    fn ordinal(self) -> u16
        ensures { result ≡ ordinal_of_kernel self }
    {
        let days = (u64::from(self.year_part) * 1461 >> 34) as u16;
        days + u16::from(self.is_julian_year())
    }

    /// Returns `true` if the year is a leap year.
    fn is_leap_year(self) -> bool
        ensures { result ≡ is_leap_by_kernel self }
    {
        // Almost every year is a Julian year. In the other order one day in four takes a branch.
        self.is_julian_year() && self.years % 4 == 0
    }

    /// Returns `true` if the year is as long as in the Julian count. Only the first year of a
    /// century that 4 doesn't divide is shorter.
    fn is_julian_year(self) -> bool
        ensures { result ≡ is_julian_year self }
    {
        self.century_part > CENTURY_CUT || self.century % 4 == 0
    }
}
