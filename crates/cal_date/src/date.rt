//! Dates.
ghost use Rattle.std.specs.Prelude.{◌≡◌, ℕ, true, ◌+◌, ◌-◌, ◌<◌, ◌≤◌, pos, ◌+ℤ◌, ◌-ℤ◌, ◌<ℤ◌, ◌≤ℤ◌, ◌↔◌, IfOk, IfErr, IsErr, IsTrue, SomeIff, ◌⊎◌, Ok, [], ◌∷◌};
ghost use Rattle.cal_date.specs.Date.{first_year, last_day, year_at, ordinal_at, julian_day_at, IsDate, IsYear, IsOrdinal, HasOrdinalDate, HasJulianDay, NoDate};
ghost use Rattle.cal_date.specs.DateLimits.{years_in_range};
ghost use Rattle.cal_date.specs.Order.{IsBefore, ordinal_date_at};
ghost use Rattle.cal_date.specs.ClosedForms.{julian_day_of, kernel_of, year_of_kernel, ordinal_of_kernel};
ghost use Rattle.cal_date.specs.PackedDate.{leap_mark, ordinal_number};
ghost use Rattle.cal_units.specs.Lengths.{days_in_year, is_leap_year};
ghost use Rattle.cal_units.specs.ComponentError.{FailsWith};
ghost use Rattle.cal_date.specs.DateErrors.{year_out_of_range, ordinal_out_of_range, julian_day_out_of_range};

use crate::day_number::days_of_years;
use crate::error::{Component, ComponentRange};
use crate::kernel::date_of_julian_day;
use crate::limits::{MAX_YEAR, MIN_JULIAN_DAY, MIN_YEAR};
use cal_units::util::is_leap_year;
use std::marker::Model;

mod arithmetic;
mod calendar;
mod display;
pub(crate) mod iso_week;
mod number;
mod occurrences;
mod order;
mod replacement;

/// The number of days of a common year. Every year has this many days or one more.
const MIN_DAYS_IN_YEAR: u32 = 365;

/// The leap mark of a packed date, in a leap year.
const LEAP_MARK: i32 = 512;

/// The packed first date of the range.
const FIRST_PACKED: i32 = (MIN_YEAR << 10) + 1;

/// The bits of a packed date with the ordinal.
const ORDINAL_BITS: i32 = 511;

/// The bits of a packed date with the leap mark and the ordinal.
const LOW_BITS: i32 = 1023;

/// Returns `true` if the year is in the range.
fn is_year(year: i32) -> bool
    ensures { IsTrue result ↔ IsYear year }
{
    year >= MIN_YEAR && year <= MAX_YEAR
}

/// Returns `true` if the year has the ordinal. Only the ordinal 366 depends on the year.
fn has_ordinal(year: i32, ordinal: u16) -> bool
    ensures { IsTrue result ↔ IsOrdinal year ordinal }
{
    // The ordinal 0 wraps to a number far above the length of a year.
    if u32::from(ordinal).wrapping_sub(1) < MIN_DAYS_IN_YEAR {
        return true;
    }
    is_last_of_leap_year(year, ordinal)
}

/// Returns `true` if the ordinal is 366 and the year has it. It isn't inlined, so the code for
/// every other ordinal stays short.
#[cold]
#[inline(never)]
fn is_last_of_leap_year(year: i32, ordinal: u16) -> bool
    ensures { IsTrue result ↔ (ordinal ≡ 366) × (is_leap_year year ≡ true) }
{
    ordinal == 366 && is_leap_year(year)
}

/// A date of the proleptic Gregorian calendar, from -999999-01-01 to 999999-12-31.
///
/// Years are numbered as in ISO 8601: the year 0 comes before the year 1, and the year -1 before
/// that. Dates are ordered from earlier to later. A date prints its calendar date, such as
/// `2024-02-29`. A width pads the whole text. `Debug` prints the same.
///
/// In contracts a date is its number in the count of days, from 0 for -999999-01-01 to 730484633
/// for 999999-12-31.
#[derive(Clone, Copy)]
pub struct Date {
    /// The year times 1024, plus [`LEAP_MARK`] in a leap year, plus the ordinal. A right shift by
    /// 10 bits gives the year, negative or not, and later dates have larger values.
    packed: i32,
}

impl Model for Date {
    ghost use Rattle.std.specs.Prelude.{ℕ};

    ghost Value = { ℕ };

    ghost use Rattle.cal_date.specs.PackedDate.{number_of, IsPackedDate, fields_at, fields_at-number_of};

    ghost view = { number_of };

    ghost invariant = { IsPackedDate };

    ghost inverse = { fields_at };

    ghost inverse_ok = { fields_at-number_of };
}

impl Date {
    /// The minimum date, -999999-01-01. Its Julian day is -363521074.
    pub const MIN: Date = Date {
        packed: -1_023_998_975,
    };

    /// The maximum date, 999999-12-31. Its Julian day is 366963559.
    pub const MAX: Date = Date {
        packed: 1_023_999_341,
    };

    /// Creates a date from a year and an ordinal day: the ordinal date of ISO 8601.
    ///
    /// The year is from -999999 to 999999, and the ordinal from 1 to 365, or 366 in a leap year.
    /// The ordinal 60 is 1 March in 1900, and 29 February in 2000. Returns the unconditional error
    /// `year` if the year is out of range, else the conditional error `ordinal` if the ordinal is.
    #[tactic(auto, using(crate::proofs::Dates::ordinal_dates))]
    pub fn from_ordinal_date(year: i32, ordinal: u16) -> Result<Self, ComponentRange>
        ensures every { (n : ℕ) → IsDate n → HasOrdinalDate year ordinal n → result ≡ Ok n }
        ensures value { IfOk result (λ n. IsDate n × HasOrdinalDate year ordinal n) }

        // It fails if and only if no day of the range has the ordinal date. The error names the
        // first component that is out of range.
        ensures error { IsErr result ↔ NoDate (HasOrdinalDate year ordinal) }
        ensures error_kind { IfErr result (λ e. (e ≡ year_out_of_range) ⊎ (e ≡ ordinal_out_of_range)) }
        ensures year { FailsWith year_out_of_range result ↔ ¬ IsYear year }
        ensures ordinal { FailsWith ordinal_out_of_range result
            ↔ IsYear year × ¬ IsOrdinal year ordinal }
    {
        if !is_year(year) {
            return Err(ComponentRange::unconditional(Component::Year));
        }
        if !has_ordinal(year, ordinal) {
            return Err(ComponentRange::conditional(Component::Ordinal));
        }
        Ok(Date::at_ordinal(year, ordinal))
    }

    /// Creates a date from a Julian day, from -363521074 to 366963559.
    ///
    /// The Julian day rises by one from day to day: 0 is -4713-11-24, and 2451545 is 2000-01-01.
    /// Returns the unconditional error `julian_day` if the Julian day is out of range.
    pub fn from_julian_day(julian_day: i32) -> Result<Self, ComponentRange>
        ensures every { (n : ℕ) → IsDate n → HasJulianDay julian_day n → result ≡ Ok n }
        ensures value { IfOk result (λ n. IsDate n × HasJulianDay julian_day n) }
        ensures error { IsErr result ↔ NoDate (HasJulianDay julian_day) }
        ensures error_kind { IfErr result (λ e. e ≡ julian_day_out_of_range) }
        ensures julian_day { FailsWith julian_day_out_of_range result
            ↔ NoDate (HasJulianDay julian_day) }
        ensures closed_form { let kernel = kernel_of julian_day in
            IfOk result (HasOrdinalDate (year_of_kernel kernel) (ordinal_of_kernel kernel)) }
    {
        match date_of_julian_day(julian_day) {
            Some(date) => Ok(date),
            None => Err(ComponentRange::unconditional(Component::JulianDay)),
        }
    }

    /// Returns the year, from -999999 to 999999. For [`Self::MIN`] it is -999999.
    pub fn year(self) -> i32
        ensures value { result ≡ year_at self }
        ensures range { IsYear result }
        ensures in_range { IsDate self }
    {
        self.packed >> 10
    }

    /// Returns the index of the year, from 0 for the first year of the range.
    fn year_index(self) -> u32
        ensures value { pos result ≡ year_at self -ℤ first_year }
        ensures max { result < years_in_range }
        ensures in_range { IsDate self }
    {
        // The difference is before the shift, so a sum with months has a term less.
        (self.packed - FIRST_PACKED) as u32 >> 10
    }

    /// Returns the index of the ordinal, from 0 for 1 January.
    fn ordinal_index(self) -> u32
        ensures value { result + 1 ≡ ordinal_at self }
        ensures max { result < 366 }
        ensures in_range { IsDate self }
    {
        // `year_index` has the same difference, so both are from one subtraction.
        (self.packed - FIRST_PACKED) as u32 % 512
    }

    /// Returns the day of the year, from 1 to 365, or 366 in a leap year. For 2020-12-31 it is 366.
    pub fn ordinal(self) -> u16
        ensures value { result ≡ ordinal_at self }
        ensures range { IsOrdinal (year_at self) result }
        ensures max { result ≤ 366 }
        ensures in_range { IsDate self }
    {
        (self.packed & ORDINAL_BITS) as u16
    }

    /// Returns the year and the ordinal day: the ordinal date of ISO 8601. For 2020-12-31 it is
    /// (2020, 366).
    pub fn to_ordinal_date(self) -> (i32, u16)
        ensures value { HasOrdinalDate result.0 result.1 self }
        ensures order { (n : ℕ) → IsDate n
            → (n < self) ↔ IsBefore (ordinal_date_at n) (result.0 ∷ pos result.1 ∷ []) }
        ensures range { IsYear result.0 × IsOrdinal result.0 result.1 × (result.1 ≤ 366) }
        ensures in_range { IsDate self }
    {
        (self.year(), self.ordinal())
    }

    /// Returns the Julian day, from -363521074 to 366963559. For 2000-01-01 it is 2451545.
    pub fn to_julian_day(self) -> i32
        ensures value { result ≡ julian_day_at self }
        ensures order { (n : ℕ) → IsDate n → (n < self) ↔ (julian_day_at n <ℤ result) }
        ensures julian_day { HasJulianDay result self }
        ensures in_range { IsDate self }
        ensures closed_form { result ≡ julian_day_of (year_at self) (ordinal_at self) }
    {
        let years = (self.year() - MIN_YEAR) as u32;
        let days = days_of_years(years) + u32::from(self.ordinal());
        days as i32 - 1 + MIN_JULIAN_DAY
    }

    /// Returns the next day, or `None` for [`Self::MAX`]. For 2019-12-31 it is 2020-01-01.
    #[tactic(auto, using(crate::proofs::Neighbours::next_days))]
    pub fn next_day(self) -> Option<Self>
        ensures value { SomeIff result (self < last_day) (self + 1) }
        ensures in_range { IsDate self }
    {
        // The test is of the next ordinal, because a caller who needs that ordinal then has it.
        if self.next_ordinal() < MIN_DAYS_IN_YEAR {
            return Some(self.add_days_in_year(1));
        }
        if self == Self::MAX {
            return None;
        }
        Some(self.first_of_next_year())
    }

    /// Returns the previous day, or `None` for [`Self::MIN`]. For 2020-01-01 it is 2019-12-31.
    #[tactic(auto, using(crate::proofs::Neighbours::previous_days))]
    pub fn previous_day(self) -> Option<Self>
        ensures value { SomeIff result (0 < self) (self - 1) }
        ensures in_range { IsDate self }
    {
        if self.ordinal() > 1 {
            return Some(self.add_days_in_year(-1));
        }
        if self == Self::MIN {
            return None;
        }
        Some(self.last_of_previous_year())
    }

    /// Returns the day after a date that isn't the last one.
    #[tactic(auto, using(crate::proofs::Neighbours::next_days))]
    pub(crate) fn day_after(self) -> Self
        requires { self < last_day }
        ensures { result ≡ self + 1 }
    {
        if u32::from(self.ordinal()) < MIN_DAYS_IN_YEAR {
            self.add_days_in_year(1)
        } else {
            self.first_of_next_year()
        }
    }

    /// Returns the day before a date that isn't the first one.
    #[tactic(auto, using(crate::proofs::Neighbours::previous_days))]
    pub(crate) fn day_before(self) -> Self
        requires { 0 < self }
        ensures { result ≡ self - 1 }
    {
        if self.ordinal() > 1 {
            self.add_days_in_year(-1)
        } else {
            self.last_of_previous_year()
        }
    }

    /// Returns the next day of a date that may end its year. It isn't inlined, so the code for
    /// every other date stays short.
    #[cold]
    #[inline(never)]
    fn first_of_next_year(self) -> Self
        requires { self < last_day }
        ensures { result ≡ self + 1 }
    {
        self.add_days(1)
    }

    /// Returns the previous day of a date that begins its year. It isn't inlined, like
    /// [`Self::first_of_next_year`].
    #[cold]
    #[inline(never)]
    fn last_of_previous_year(self) -> Self
        requires { 0 < self }
        ensures { result ≡ self - 1 }
    {
        self.sub_days(1)
    }

    /// Creates a date from a year of the range and an ordinal of this year.
    pub(crate) fn at_ordinal(year: i32, ordinal: u16) -> Self
        requires year { IsYear year }
        requires ordinal { IsOrdinal year ordinal }
        ensures value { result ≡ ordinal_number year ordinal }
        ensures date { HasOrdinalDate year ordinal result }
        ensures range { IsDate result }
    {
        Date::pack(year, is_leap_year(year), ordinal)
    }

    /// Creates a date from a year of the range and an ordinal of this year. `leap` is `true` if it
    /// is a leap year.
    pub(crate) fn pack(year: i32, leap: bool, ordinal: u16) -> Self
        requires year { IsYear year }
        requires leap { leap ≡ is_leap_year year }
        requires ordinal { IsOrdinal year ordinal }
        ensures value { result ≡ ordinal_number year ordinal }
        ensures date { HasOrdinalDate year ordinal result }
        ensures range { IsDate result }
    {
        Date {
            packed: year << 10 | i32::from(leap) << 9 | i32::from(ordinal),
        }
    }

    /// Creates a date from a year of the range, and the sum of the leap mark and an ordinal of this
    /// year.
    fn pack_low_bits(year: i32, low: u32) -> Self
        requires year { IsYear year }
        requires low { IsOrdinal year (low - leap_mark year) }
        ensures value { result ≡ ordinal_number year (low - leap_mark year) }
        ensures range { IsDate result }
    {
        Date {
            packed: year << 10 | low as i32,
        }
    }

    /// Returns the sum of the leap mark and the ordinal: from 1 to 365, or from 513 to 878 in a
    /// leap year.
    fn low_bits(self) -> u32
        ensures value { result ≡ leap_mark (year_at self) + ordinal_at self }
        ensures in_range { IsDate self }
    {
        (self.packed & LOW_BITS) as u32
    }

    /// Returns one more than the ordinal.
    fn next_ordinal(self) -> u32
        ensures value { result ≡ ordinal_at self + 1 }
        ensures in_range { IsDate self }
    {
        ((self.packed + 1) & ORDINAL_BITS) as u32
    }

    /// Returns `true` if the year of the date is a leap year, by its leap mark.
    fn is_in_leap_year(self) -> bool
        ensures value { result ≡ is_leap_year (year_at self) }
        ensures in_range { IsDate self }
    {
        // An ordinal is never 0, so `>` gives the same result, and `>=` is a test of one bit.
        self.low_bits() >= LEAP_MARK as u32
    }

    /// Returns the date of the same year `days` days later, or earlier if `days` is negative.
    fn add_days_in_year(self, days: i32) -> Self
        requires not_before { pos 1 ≤ℤ (pos (ordinal_at self) +ℤ days) }
        requires not_after { (pos (ordinal_at self) +ℤ days) ≤ℤ pos (days_in_year (year_at self)) }
        ensures { pos result ≡ pos self +ℤ days }
    {
        Date {
            packed: self.packed + days,
        }
    }

    /// Returns the date of the same year by its index from 0 at 1 January, or `None` if the year
    /// doesn't have the index.
    #[tactic(auto, using(crate::proofs::Neighbours::places))]
    fn at_index_in_year(self, index: u64) -> Option<Self>
        ensures value { SomeIff result (index < days_in_year (year_at self))
            (ordinal_number (year_at self) (index + 1)) }
        ensures in_range { IsDate self }
    {
        let length = 365 + u64::from(self.is_in_leap_year());
        if index < length {
            Some(self.add_days_in_year(index as i32 + 1 - i32::from(self.ordinal())))
        } else {
            None
        }
    }
}
