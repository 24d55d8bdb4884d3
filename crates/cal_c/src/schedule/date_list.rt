//! Lists of dates and of readings, without allocation.
ghost use Rattle.std.specs.Prelude.{◌≡◌, ◌<◌, ◌≤◌, ◌++◌, [], ◌∷◌, All, SomeIff, length};
ghost use Rattle.cal_c.specs.Moments.{IsMoment};
ghost use Rattle.cal_c.specs.TextSets.{readings_in};
ghost use Rattle.cal_c.specs.Values.{IsJulianDay, dates_in, max_dates};

use crate::moment::valid_moment;
use crate::results::Moment;
use crate::values::valid_date;
use cal_datetime::{PlainDateTime, midnight};
use cal_time::Date;
use std::marker::Model;

/// The maximum number of dates or readings.
pub(super) const MAX_DATES: usize = 1024;

/// A list of dates or readings. Contracts see their numbers.
#[derive(Debug, Drop)]
pub(super) struct DateList<T> {
    items: [T; MAX_DATES],
    filled: usize,
}

impl<T> Model for DateList<T> {
    ghost use Rattle.std.specs.Prelude.{◌≤◌, List, take};
    ghost use Rattle.cal_c.specs.Values.{max_dates};

    ghost Value = { List T };

    ghost view = { λ list. take list.filled list.items };

    ghost invariant = { λ list. list.filled ≤ max_dates };
}

impl<T> DateList<T> {
    /// Returns the values in order.
    pub(super) fn as_slice(&self) -> &[T]
        ensures { result.now ≡ self.now }
    {
        &self.items[..self.filled]
    }
}

impl<T: Copy> DateList<T> {
    /// Creates an empty list. `filler` fills the unused places, which no call sees.
    fn none(filler: T) -> Self
        ensures { result ≡ [] }
    {
        DateList {
            items: [filler; MAX_DATES],
            filled: 0,
        }
    }

    /// Appends a value.
    fn push(&mut self, value: T)
        requires { length self.old < max_dates }
        ensures { self.new ≡ self.old ++ value ∷ [] }
    {
        self.items[self.filled] = value;
        self.filled += 1;
    }
}

impl DateList<Date> {
    /// Creates a list from Julian days, or returns `None` if one is out of range.
    pub(super) fn from_julian_days(julian_days: &[i32]) -> Option<Self>
        requires { length julian_days.now ≤ max_dates }
        ensures { SomeIff result (All IsJulianDay julian_days.now) (dates_in julian_days.now) }
    {
        let mut list = Self::none(Date::MIN);
        for index in 0..julian_days.len() {
            list.push(valid_date(julian_days[index])?);
        }
        Some(list)
    }
}

/// Creates an empty list of readings.
fn no_readings() -> DateList<PlainDateTime>
    ensures { result ≡ [] }
{
    DateList::none(midnight(Date::MIN))
}

impl DateList<PlainDateTime> {
    /// Creates a list from the local times of moments, or returns `None` if one is invalid.
    pub(super) fn from_moments(moments: &[Moment]) -> Option<Self>
        requires { length moments.now ≤ max_dates }
        ensures { SomeIff result (All IsMoment moments.now) (readings_in moments.now) }
    {
        let mut list = no_readings();
        for index in 0..moments.len() {
            list.push(valid_moment(moments[index])?.local());
        }
        Some(list)
    }
}
