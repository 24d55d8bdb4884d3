//! Dates by year, month and day of the month.
ghost use Rattle.std.specs.Prelude.{◌≡◌, ℕ, ◌+◌, ◌<◌, ◌≤◌, ◌-◌, ◌/◌, ◌%◌, min, pos, ◌+ℤ◌, ◌-ℤ◌, ◌*ℤ◌, ◌↔◌, ◌⊎◌, IfOk, IfErr, IsErr, IsTrue, Ok, [], ◌∷◌, ℤ};
ghost use Rattle.cal_units.specs.Month.{number};
ghost use Rattle.cal_units.specs.ComponentError.{FailsWith};
ghost use Rattle.cal_units.specs.Lengths.{is_leap_year, days_in_month};
ghost use Rattle.cal_date.specs.ClosedForms.{month_of_ordinal, day_of_ordinal};
ghost use Rattle.cal_date.specs.CountLaws.{days_of_months};
ghost use Rattle.cal_date.specs.Date.{first_year, year_at, month_at, day_of_month_at, ordinal_at, IsDate, IsYear, IsDayOfMonth, HasCalendarDate, NoDate};
ghost use Rattle.cal_date.specs.DateLimits.{months_in_range};
ghost use Rattle.cal_date.specs.Order.{IsBefore, calendar_date_at};
ghost use Rattle.cal_date.specs.PackedDate.{leap_mark};
ghost use Rattle.cal_date.specs.DateErrors.{year_out_of_range, day_out_of_range};

use crate::date::{Date, is_year};
use crate::error::{Component, ComponentRange};
use crate::limits::MIN_YEAR;
use cal_units::util::is_leap_year;
use cal_units::{Cycle, Month};

/// The leap mark plus the days before each month, and at the end plus the days of the year. The
/// entries of a common year begin at 0. The entries of a leap year begin at 16, because the leap
/// mark is 16 times 32. The zeros aren't used; with those at the end, a compiler sees that every
/// quotient of 10 bits by 32 has an entry, and one after it.
const MONTH_STARTS: [u16; 33] = [
    0, 31, 59, 90, 120, 151, 181, 212, 243, 273, 304, 334, 365, 0, 0, 0, 512, 543, 572, 603, 633,
    664, 694, 725, 756, 786, 817, 847, 878, 0, 0, 0, 0,
];

/// The leap mark plus the days before each month, in a common year and in a leap year. Each quarter
/// has four entries: one for each of its months, and one for its end. The two kinds of year are
/// side by side, because the month is known before the kind of year.
const QUARTER_BOUNDS: [[u16; 2]; 16] = [
    [0, 512],
    [31, 543],
    [59, 572],
    [90, 603],
    [90, 603],
    [120, 633],
    [151, 664],
    [181, 694],
    [181, 694],
    [212, 725],
    [243, 756],
    [273, 786],
    [273, 786],
    [304, 817],
    [334, 847],
    [365, 878],
];

/// A twelfth of 2^32, rounded up.
const TWELFTH: u64 = 357_913_942;

impl Date {
    /// Creates a date from a year, a month and a day of the month: the calendar date of ISO 8601.
    ///
    /// The year is from -999999 to 999999, and the day from 1 to the length of the month. For
    /// example, 29 February is a day of 2000 and 2020, and not of 1900 and 2019. Returns the
    /// unconditional error `year` if the year is out of range, else the conditional error `day` if
    /// the day is.
    pub fn from_calendar_date(year: i32, month: Month, day: u8) -> Result<Self, ComponentRange>
        ensures every { (n : ℕ) → IsDate n → HasCalendarDate year (number month) day n
            → result ≡ Ok n }
        ensures value { IfOk result (λ n. IsDate n × HasCalendarDate year (number month) day n) }

        // It fails if and only if no day of the range has the calendar date. The error names the
        // first component that is out of range.
        ensures error { IsErr result ↔ NoDate (HasCalendarDate year (number month) day) }
        ensures error_kind { IfErr result (λ e. (e ≡ year_out_of_range) ⊎ (e ≡ day_out_of_range)) }
        ensures year { FailsWith year_out_of_range result ↔ ¬ IsYear year }
        ensures day { FailsWith day_out_of_range result
            ↔ IsYear year × ¬ IsDayOfMonth year (number month) day }
    {
        if !is_year(year) {
            return Err(ComponentRange::unconditional(Component::Year));
        }
        let leap = is_leap_year(year);
        if !has_day(month, leap, day) {
            return Err(ComponentRange::conditional(Component::Day));
        }
        let low = month_start(month.place(), leap) + u32::from(day);
        Ok(Date::pack_low_bits(year, low))
    }

    /// Creates a date from a year, a month index and a day, clamped to the last day of the month.
    ///
    /// The year must be from -999999 to 999999, the index from 0 for January to 11, and the day 1
    /// or more. For 2023, 0 and 31 it is 2023-01-31, and for 2023, 1 and 31 it is 2023-02-28.
    pub fn from_month_index_clamped(year: i32, index: u8, day: u8) -> Self
        requires year { IsYear year }
        requires index { index < 12 }
        requires day { 1 ≤ day }
        ensures value { HasCalendarDate year (index + 1)
            (min day (days_in_month year (index + 1))) result }
        ensures range { IsDate result }
    {
        let leap = is_leap_year(year);
        let low = month_start(index, leap) + u32::from(day);
        Date::pack_low_bits(year, low.min(month_start(index + 1, leap)))
    }

    /// Creates a date from the number of a month and a day, clamped to the last day of the month.
    ///
    /// The number must be from 0 for January of -999999 to 23999987 for December of 999999, and the
    /// day 1 or more. For 12024265, February of 2023, and 31 it is 2023-02-28.
    /// [`Self::month_number_and_day`] returns such a number.
    pub fn from_month_number_clamped(number: u32, day: u32) -> Self
        requires number { number < months_in_range }
        requires min { 1 ≤ day }
        ensures value { let year = first_year +ℤ pos (number / 12) in
            HasCalendarDate year (number % 12 + 1)
            (min day (days_in_month year (number % 12 + 1))) result }
        ensures range { IsDate result }
    {
        // The high half of the product is the index of the year, the low half the part of the year
        // before the month. A month is 4/3 of a sixteenth of a year, so the highest four bits of
        // this part are the bound where the month begins.
        let place = u64::from(number) * TWELFTH;
        let year = (place >> 32) as i32 + MIN_YEAR;
        let bound = (place % (1 << 32) >> 28) as usize;
        let leap = is_leap_year(year);
        let low = quarter_bound(bound, leap).saturating_add(day);
        Date::pack_low_bits(year, low.min(quarter_bound(bound + 1, leap)))
    }

    /// Returns the month. For 2020-02-29 it is February.
    #[tactic(auto, using(crate::proofs::MonthForms::closed_months))]
    pub fn month(self) -> Month
        ensures value { number result ≡ month_at self }
        ensures range { (1 ≤ month_at self) × (month_at self ≤ 12) }
        ensures closed_form { number result
            ≡ month_of_ordinal (is_leap_year (year_at self)) (ordinal_at self) }
        ensures in_range { IsDate self }
    {
        let (month, _) = self.month_and_day();
        month
    }

    /// Returns the day of the month, from 1 to the length of the month. For 2020-02-29 it is 29.
    #[tactic(auto, using(crate::proofs::MonthForms::closed_months))]
    pub fn day(self) -> u8
        ensures value { result ≡ day_of_month_at self }
        ensures range { IsDayOfMonth (year_at self) (month_at self) result }
        ensures max { result ≤ 31 }
        ensures closed_form { result ≡ day_of_ordinal (is_leap_year (year_at self))
            (ordinal_at self) }
        ensures in_range { IsDate self }
    {
        let (_, day) = self.month_and_day();
        day
    }

    /// Returns the year, the month and the day of the month: the calendar date of ISO 8601. For the
    /// Julian day 2451545 it is (2000, January, 1).
    pub fn to_calendar_date(self) -> (i32, Month, u8)
        ensures value { HasCalendarDate result.0 (number result.1) result.2 self }
        ensures order { (n : ℕ) → IsDate n
            → (n < self) ↔ IsBefore (calendar_date_at n)
            (result.0 ∷ pos (number result.1) ∷ pos result.2 ∷ []) }
        ensures range { IsYear result.0 × IsDayOfMonth result.0 (number result.1) result.2
            × (result.2 ≤ 31) }
        ensures in_range { IsDate self }
    {
        let (month, day) = self.month_and_day();
        (self.year(), month, day)
    }

    /// Returns the month index, from 0 for January to 11, and the day of the month: (1, 29) for
    /// 2020-02-29. [`Self::to_calendar_date`] returns a `Month` instead of its index.
    pub fn month_index_and_day(self) -> (u8, u8)
        ensures month { result.0 + 1 ≡ month_at self }
        ensures day { result.1 ≡ day_of_month_at self }
        ensures index { result.0 < 12 }
        ensures range { IsDayOfMonth (year_at self) (month_at self) result.1 }
        ensures max { result.1 ≤ 31 }
        ensures in_range { IsDate self }
    {
        let (index, day) = self.index_and_day();
        (index as u8, day as u8)
    }

    /// Returns the number of the month, from 0 for January of -999999 to 23999987 for December of
    /// 999999, and the day of the month. For 2023-02-28 it is (12024265, 28).
    pub fn month_number_and_day(self) -> (u32, u32)
        ensures month { pos result.0 ≡ year_at self *ℤ pos 12 +ℤ pos (month_at self) -ℤ pos 1
            -ℤ first_year *ℤ pos 12 }
        ensures number { result.0 < months_in_range }
        ensures day { result.1 ≡ day_of_month_at self }
        ensures range { IsDayOfMonth (year_at self) (month_at self) result.1 }
        ensures max { result.1 ≤ 31 }
        ensures in_range { IsDate self }
    {
        let (index, day) = self.index_and_day();
        (12 * self.year_index() + index, day)
    }

    /// Returns the month index, from 0 for January to 11, and the day of the month.
    fn index_and_day(self) -> (u32, u32)
        ensures month { result.0 + 1 ≡ month_at self }
        ensures day { result.1 ≡ day_of_month_at self }
        ensures index { result.0 < 12 }
        ensures range { IsDayOfMonth (year_at self) (month_at self) result.1 }
        ensures max { result.1 ≤ 31 }
        ensures in_range { IsDate self }
    {
        // A month has 28 to 31 days, so a quotient by 32 gives its entry or the one before it.
        let low = self.low_bits() as usize;
        let quotient = low / 32;
        let entry = quotient + usize::from(low > usize::from(MONTH_STARTS[quotient + 1]));
        let start = usize::from(MONTH_STARTS[entry]);
        ((entry % 16) as u32, (low - start) as u32)
    }

    /// Returns the month and the day of the month.
    pub(super) fn month_and_day(self) -> (Month, u8)
        ensures month { number result.0 ≡ month_at self }
        ensures day { result.1 ≡ day_of_month_at self }
        ensures range { IsDayOfMonth (year_at self) (month_at self) result.1 }
        ensures max { result.1 ≤ 31 }
        ensures in_range { IsDate self }
    {
        let (index, day) = self.index_and_day();
        (Month::at(index as u8), day as u8)
    }
}

/// Returns `true` if the month has the day, in a leap year or in a common year.
#[tactic(auto, using(crate::proofs::Months::lengths_of_months))]
fn has_day(month: Month, leap: bool, day: u8) -> bool
    ensures { (year : ℤ) → leap ≡ is_leap_year year
        → IsTrue result ↔ IsDayOfMonth year (number month) day }
{
    let index = month.place();
    let low = month_start(index, leap) + u32::from(day);
    day > 0 && low <= month_start(index + 1, leap)
}

/// Returns the leap mark plus the days before the month with this index, in a leap year or in a
/// common year. For 12 it is the leap mark plus the days of the year.
fn month_start(index: u8, leap: bool) -> u32
    requires { index ≤ 12 }
    ensures value { (year : ℤ) → leap ≡ is_leap_year year
        → result ≡ leap_mark year + days_of_months year index }
    ensures max { result ≤ 878 }
{
    u32::from(MONTH_STARTS[16 * usize::from(leap) + usize::from(index)])
}

/// Returns the leap mark plus the days before a bound in [`QUARTER_BOUNDS`], in a leap year or in a
/// common year. Every fourth bound is the end of a quarter, so no month begins there.
fn quarter_bound(bound: usize, leap: bool) -> u32
    requires { bound < 16 }
    ensures value { (year : ℤ) → leap ≡ is_leap_year year
        → result ≡ leap_mark year + days_of_months year (bound - bound / 4) }
    ensures max { result ≤ 878 }
{
    u32::from(QUARTER_BOUNDS[bound][usize::from(leap)])
}
