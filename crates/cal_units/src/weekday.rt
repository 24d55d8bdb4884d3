//! The days of the week.
ghost use Rattle.std.specs.Prelude.{◌≡◌, ◌≤◌, length, ◌+◌, ◌%◌, ◌==◌, Some};
ghost use Rattle.std.specs.Cmp.Rules.{comparing};
ghost use Rattle.std.specs.Fmt.{padded};
ghost use Rattle.std.specs.Str.{IsAscii};
ghost use Rattle.std.specs.Ordering.{on};
ghost use Rattle.std.proofs.Common.{rules};
ghost use Rattle.cal_units.specs.Name.{ParsesName};
ghost use Rattle.cal_units.specs.Weekday.{index, days_from_sunday, weekday_of_index, name};
ghost use Rattle.cal_units.specs.WeekdayCycle.{index-below, weekday_of_index-index, index-weekday_of_index};

use crate::cycle::Cycle;
use crate::error::InvalidVariant;
use crate::iter::WeekdayIter;
use crate::steps::{nth_back_in, nth_in};
use std::fmt;
use std::str::FromStr;

/// A day of the week.
///
/// `Weekday::Friday as u8` is the number of days since Monday, 4. Weekdays have no order, because a
/// week can begin on Monday or on Sunday. A weekday prints its English name, such as `Friday`. A
/// width pads it.
#[derive(Clone, Copy, Debug, Hash)]
pub enum Weekday {
    Monday,
    Tuesday,
    Wednesday,
    Thursday,
    Friday,
    Saturday,
    Sunday,
}

impl Weekday {
    /// Returns the weekday before this one. The weekday before Monday is Sunday.
    pub fn previous(self) -> Self
        ensures { (index result + 1) % 7 ≡ index self }
    {
        match self {
            Weekday::Monday => Weekday::Sunday,
            Weekday::Tuesday => Weekday::Monday,
            Weekday::Wednesday => Weekday::Tuesday,
            Weekday::Thursday => Weekday::Wednesday,
            Weekday::Friday => Weekday::Thursday,
            Weekday::Saturday => Weekday::Friday,
            Weekday::Sunday => Weekday::Saturday,
        }
    }

    /// Returns the weekday after this one. The weekday after Sunday is Monday.
    pub fn next(self) -> Self
        ensures { index result ≡ (index self + 1) % 7 }
    {
        match self {
            Weekday::Monday => Weekday::Tuesday,
            Weekday::Tuesday => Weekday::Wednesday,
            Weekday::Wednesday => Weekday::Thursday,
            Weekday::Thursday => Weekday::Friday,
            Weekday::Friday => Weekday::Saturday,
            Weekday::Saturday => Weekday::Sunday,
            Weekday::Sunday => Weekday::Monday,
        }
    }

    /// Returns the weekday `n` days later. `Weekday::Sunday.nth_next(10)` is Wednesday.
    pub fn nth_next(self, n: u8) -> Self
        ensures { index result ≡ (index self + n) % 7 }
    {
        nth_in(self, n as usize)
    }

    /// Returns the weekday `n` days earlier. `Weekday::Sunday.nth_prev(10)` is Thursday.
    pub fn nth_prev(self, n: u8) -> Self
        ensures { (index result + n) % 7 ≡ index self }
    {
        nth_back_in(self, n as usize)
    }

    /// Returns the number of the weekday, from 1 for Monday to 7 for Sunday, as in ISO 8601. Friday
    /// is 5.
    pub fn number_from_monday(self) -> u8
        ensures { result ≡ index self + 1 }
    {
        self.number_days_from_monday() + 1
    }

    /// Returns the number of the weekday, from 1 for Sunday to 7 for Saturday. Friday is 6.
    pub fn number_from_sunday(self) -> u8
        ensures { result ≡ days_from_sunday self + 1 }
    {
        self.number_days_from_sunday() + 1
    }

    /// Returns the number of days since Monday, from 0 for Monday to 6 for Sunday. Friday is 4.
    pub fn number_days_from_monday(self) -> u8
        ensures { result ≡ index self }
    {
        self.place()
    }

    /// Returns the number of days since Sunday, from 0 for Sunday to 6 for Saturday. Friday is 5.
    pub fn number_days_from_sunday(self) -> u8
        ensures { result ≡ days_from_sunday self }
    {
        match self {
            Weekday::Sunday => 0,
            other => other as u8 + 1,
        }
    }

    /// Creates an endless iterator over the weekdays, which starts at `start`. From Saturday it
    /// returns Saturday, Sunday, Monday and so on.
    pub fn iter_from(start: Weekday) -> WeekdayIter
        ensures { result ≡ start }
    {
        WeekdayIter::new(start)
    }

    /// Returns the English name that the weekday prints, such as `Friday`. It is ASCII, with at
    /// most 9 bytes.
    pub fn name(self) -> &'static str
        ensures value { result.now ≡ name self }
        ensures max_length { length result.now ≤ 9 }
        ensures ascii { IsAscii result.now }
    {
        match self {
            Weekday::Monday => "Monday",
            Weekday::Tuesday => "Tuesday",
            Weekday::Wednesday => "Wednesday",
            Weekday::Thursday => "Thursday",
            Weekday::Friday => "Friday",
            Weekday::Saturday => "Saturday",
            Weekday::Sunday => "Sunday",
        }
    }
}

impl PartialEq for Weekday {
    ghost eq = { on index ◌==◌ };

    ghost laws = { Prim.search (comparing, rules) };

    fn eq(&self, other: &Weekday) -> bool {
        *self as u8 == *other as u8
    }
}

impl Eq for Weekday {
    ghost laws = { Prim.search (comparing, rules) };
}

impl Cycle for Weekday {
    const LENGTH: u8 = 7;

    ghost LENGTH = { 7 };

    ghost index_of = { index };

    ghost value_at = { weekday_of_index };

    ghost index_below = { index-below };

    ghost value_at_index = { weekday_of_index-index };

    ghost index_of_value = { index-weekday_of_index };

    fn place(self) -> u8 {
        self as u8
    }

    fn at(place: u8) -> Self {
        match place {
            0 => Weekday::Monday,
            1 => Weekday::Tuesday,
            2 => Weekday::Wednesday,
            3 => Weekday::Thursday,
            4 => Weekday::Friday,
            5 => Weekday::Saturday,
            _ => Weekday::Sunday,
        }
    }
}

impl fmt::Display for Weekday {
    ghost output = { λ w. Some (name w) };

    ghost styled_output = { λ w spec. Some (padded spec (name w)) };

    fn fmt<W: fmt::Write>(&self, f: &mut fmt::Formatter<W>) -> fmt::Result {
        f.pad(self.name())
    }
}

impl FromStr for Weekday {
    type Err = InvalidVariant;

    ghost from_str_gives = { ParsesName name };

    /// Parses the exact English name of a weekday, such as `Friday`. Returns the error
    /// `InvalidVariant` for any other text, such as `friday` or `Fri`.
    fn from_str(s: &str) -> Result<Self, InvalidVariant> {
        match s {
            "Monday" => Ok(Weekday::Monday),
            "Tuesday" => Ok(Weekday::Tuesday),
            "Wednesday" => Ok(Weekday::Wednesday),
            "Thursday" => Ok(Weekday::Thursday),
            "Friday" => Ok(Weekday::Friday),
            "Saturday" => Ok(Weekday::Saturday),
            "Sunday" => Ok(Weekday::Sunday),
            _ => Err(InvalidVariant),
        }
    }
}
