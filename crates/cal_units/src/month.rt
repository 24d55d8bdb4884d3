//! The months of the year.
ghost use Rattle.std.specs.Prelude.{◌≡◌, ◌≤◌, length, ◌+◌, ◌%◌, ◌≤◌, ◌==◌, Some};
ghost use Rattle.std.specs.Cmp.{partial_order_from_own_ties};
ghost use Rattle.std.specs.Cmp.Rules.{comparing};
ghost use Rattle.std.specs.Fmt.{padded};
ghost use Rattle.std.specs.Str.{IsAscii};
ghost use Rattle.std.specs.Ordering.{nat_cmp, on, as_partial_cmp};
ghost use Rattle.std.proofs.Common.{rules};
ghost use Rattle.cal_units.specs.Lengths.{days_in_month};
ghost use Rattle.cal_units.specs.Month.{number, index, month_of_index, name, IsMonthFromNumber};
ghost use Rattle.cal_units.specs.MonthCycle.{index-below, month_of_index-index, index-month_of_index};
ghost use Rattle.cal_units.specs.Name.{ParsesName};

use crate::cycle::Cycle;
use crate::error::{Component, ComponentRange, InvalidVariant};
use crate::iter::MonthIter;
use crate::steps::{nth_back_in, nth_in};
use crate::util::days_in_month;
use std::cmp::Ordering;
use std::fmt;
use std::str::FromStr;

/// A month of the year.
///
/// `Month::May as u8` is the number of May, 5. Months are ordered by their numbers. A month prints
/// its English name, such as `May`. A width pads it.
#[derive(Clone, Copy, Debug, Hash)]
pub enum Month {
    January = 1,
    February,
    March,
    April,
    May,
    June,
    July,
    August,
    September,
    October,
    November,
    December,
}

impl Month {
    /// Returns the number of days of the month in `year`, from 28 to 31.
    /// `Month::February.length(2020)` is 29, and `Month::February.length(1900)` is 28.
    pub fn length(self, year: i32) -> u8
        ensures value { result ≡ days_in_month year (number self) }
        ensures range { (28 ≤ result) × (result ≤ 31) }
    {
        days_in_month(self, year)
    }

    /// Returns the month before this one. The month before January is December.
    pub fn previous(self) -> Self
        ensures { (index result + 1) % 12 ≡ index self }
    {
        match self {
            Month::January => Month::December,
            Month::February => Month::January,
            Month::March => Month::February,
            Month::April => Month::March,
            Month::May => Month::April,
            Month::June => Month::May,
            Month::July => Month::June,
            Month::August => Month::July,
            Month::September => Month::August,
            Month::October => Month::September,
            Month::November => Month::October,
            Month::December => Month::November,
        }
    }

    /// Returns the month after this one. The month after December is January.
    pub fn next(self) -> Self
        ensures { index result ≡ (index self + 1) % 12 }
    {
        match self {
            Month::January => Month::February,
            Month::February => Month::March,
            Month::March => Month::April,
            Month::April => Month::May,
            Month::May => Month::June,
            Month::June => Month::July,
            Month::July => Month::August,
            Month::August => Month::September,
            Month::September => Month::October,
            Month::October => Month::November,
            Month::November => Month::December,
            Month::December => Month::January,
        }
    }

    /// Returns the month `n` months later. January comes after December.
    /// `Month::January.nth_next(4)` is May, and `Month::July.nth_next(9)` is April.
    pub fn nth_next(self, n: u8) -> Self
        ensures { index result ≡ (index self + n) % 12 }
    {
        nth_in(self, n as usize)
    }

    /// Returns the month `n` months earlier. December comes before January.
    /// `Month::January.nth_prev(4)` is September, and `Month::July.nth_prev(9)` is October.
    pub fn nth_prev(self, n: u8) -> Self
        ensures { (index result + n) % 12 ≡ index self }
    {
        nth_back_in(self, n as usize)
    }

    /// Creates an endless iterator over the months, which starts at `start`. From November it
    /// returns November, December, January and so on.
    pub fn iter_from(start: Month) -> MonthIter
        ensures { result ≡ start }
    {
        MonthIter::new(start)
    }

    /// Returns the English name that the month prints, such as `May`. It is ASCII, with at most 9
    /// bytes.
    pub fn name(self) -> &'static str
        ensures value { result.now ≡ name self }
        ensures max_length { length result.now ≤ 9 }
        ensures ascii { IsAscii result.now }
    {
        match self {
            Month::January => "January",
            Month::February => "February",
            Month::March => "March",
            Month::April => "April",
            Month::May => "May",
            Month::June => "June",
            Month::July => "July",
            Month::August => "August",
            Month::September => "September",
            Month::October => "October",
            Month::November => "November",
            Month::December => "December",
        }
    }
}

impl PartialEq for Month {
    ghost eq = { on number ◌==◌ };

    ghost laws = { Prim.search (comparing, rules) };

    fn eq(&self, other: &Month) -> bool {
        *self as u8 == *other as u8
    }
}

impl Eq for Month {
    ghost laws = { Prim.search (comparing, rules) };
}

impl PartialOrd for Month {
    ghost partial_cmp = { as_partial_cmp (on number nat_cmp) };

    ghost laws = { partial_order_from_own_ties (Prim.search (comparing, rules))
        (Prim.search (comparing, rules)) };

    fn partial_cmp(&self, other: &Month) -> Option<Ordering> {
        Some(self.cmp(other))
    }
}

impl Ord for Month {
    ghost cmp = { on number nat_cmp };

    ghost total = { Prim.search (comparing, rules) };

    ghost matches_partial_cmp = { Prim.search (comparing, rules) };

    ghost matches_eq = { Prim.search (comparing, rules) };

    fn cmp(&self, other: &Month) -> Ordering {
        (*self as u8).cmp(&(*other as u8))
    }
}

/// The months by their indexes. A table has no jump.
const MONTHS: [Month; 12] = [
    Month::January,
    Month::February,
    Month::March,
    Month::April,
    Month::May,
    Month::June,
    Month::July,
    Month::August,
    Month::September,
    Month::October,
    Month::November,
    Month::December,
];

impl Cycle for Month {
    const LENGTH: u8 = 12;

    ghost LENGTH = { 12 };

    ghost index_of = { index };

    ghost value_at = { month_of_index };

    ghost index_below = { index-below };

    ghost value_at_index = { month_of_index-index };

    ghost index_of_value = { index-month_of_index };

    fn place(self) -> u8 {
        self as u8 - 1
    }

    fn at(place: u8) -> Self {
        MONTHS[usize::from(place)]
    }
}

impl fmt::Display for Month {
    ghost output = { λ m. Some (name m) };

    ghost styled_output = { λ m spec. Some (padded spec (name m)) };

    fn fmt<W: fmt::Write>(&self, f: &mut fmt::Formatter<W>) -> fmt::Result {
        f.pad(self.name())
    }
}

impl FromStr for Month {
    type Err = InvalidVariant;

    ghost from_str_gives = { ParsesName name };

    /// Parses the exact English name of a month, such as `March`. Returns the error
    /// `InvalidVariant` for any other text, such as `march` or `Mar`.
    fn from_str(s: &str) -> Result<Self, InvalidVariant> {
        match s {
            "January" => Ok(Month::January),
            "February" => Ok(Month::February),
            "March" => Ok(Month::March),
            "April" => Ok(Month::April),
            "May" => Ok(Month::May),
            "June" => Ok(Month::June),
            "July" => Ok(Month::July),
            "August" => Ok(Month::August),
            "September" => Ok(Month::September),
            "October" => Ok(Month::October),
            "November" => Ok(Month::November),
            "December" => Ok(Month::December),
            _ => Err(InvalidVariant),
        }
    }
}

impl From<Month> for u8 {
    ghost from_gives = { λ m n. n ≡ number m };

    /// Returns the number of the month, from 1 for January to 12 for December.
    /// `u8::from(Month::May)` is 5.
    fn from(month: Month) -> u8 {
        month as u8
    }
}

impl TryFrom<u8> for Month {
    type Error = ComponentRange;

    ghost try_from_gives = { IsMonthFromNumber };

    /// Returns the month with this number, from 1 for January to 12 for December.
    /// `Month::try_from(5)` is May. Returns the unconditional error `month` for any other number,
    /// such as 0 or 13.
    fn try_from(number: u8) -> Result<Self, ComponentRange> {
        match number {
            1 => Ok(Month::January),
            2 => Ok(Month::February),
            3 => Ok(Month::March),
            4 => Ok(Month::April),
            5 => Ok(Month::May),
            6 => Ok(Month::June),
            7 => Ok(Month::July),
            8 => Ok(Month::August),
            9 => Ok(Month::September),
            10 => Ok(Month::October),
            11 => Ok(Month::November),
            12 => Ok(Month::December),
            _ => Err(ComponentRange::unconditional(Component::Month)),
        }
    }
}
