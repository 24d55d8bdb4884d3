//! Dates by their number in the count of days.
ghost use Rattle.std.specs.Prelude.{◌≡◌, ◌+◌, ◌-◌, ◌≤◌, SomeIff};
ghost use Rattle.cal_date.specs.Date.{IsDate};

use crate::date::Date;
use crate::kernel::{date_of_kernel, julian_kernel};
use crate::limits::{LAST_DAY, MIN_JULIAN_DAY};

impl Date {
    /// States that the date is in the range. It has no effect.
    pub(crate) fn is_in_range(self)
        ensures { IsDate self }
    {
        let _ = &self.packed;
    }

    /// Returns the number of the date: the number of days of the range before it.
    pub(crate) fn day_number(self) -> u32
        ensures value { result ≡ self }
        ensures in_range { IsDate self }
    {
        (self.to_julian_day() - MIN_JULIAN_DAY) as u32
    }

    /// Creates a date from its number.
    pub(crate) fn from_number(number: u32) -> Self
        requires { IsDate number }
        ensures { result ≡ number }
    {
        date_of_kernel(julian_kernel(MIN_JULIAN_DAY + number as i32))
    }

    /// Creates a date from its number. Returns `None` if the number is past the last day.
    pub(crate) fn checked_from_number(number: u64) -> Option<Self>
        ensures { SomeIff result (IsDate number) number }
    {
        if number <= LAST_DAY as u64 {
            Some(Self::from_number(number as u32))
        } else {
            None
        }
    }

    /// Returns the number of days from this date to `later`, which isn't before it.
    pub(crate) fn days_until(self, later: Self) -> u32
        requires { self ≤ later }
        ensures { result ≡ later - self }
    {
        if self.year() == later.year() {
            return u32::from(later.ordinal() - self.ordinal());
        }
        later.day_number() - self.day_number()
    }

    /// Returns the date `days` days later, which must be in the range.
    #[tactic(auto, using(crate::proofs::Dates::places_in_years))]
    pub(crate) fn add_days(self, days: u32) -> Self
        requires { IsDate (self + days) }
        ensures { result ≡ self + days }
    {
        match self.at_index_in_year(u64::from(self.ordinal()) - 1 + u64::from(days)) {
            Some(date) => date,
            None => Self::from_number(self.day_number() + days),
        }
    }

    /// Returns the date `days` days earlier, which must be in the range.
    #[tactic(auto, using(crate::proofs::Dates::places_in_years))]
    pub(crate) fn sub_days(self, days: u32) -> Self
        requires { days ≤ self }
        ensures { result ≡ self - days }
    {
        // If the year begins in between, the difference wraps to a number far above the length of a
        // year.
        match self.at_index_in_year((u64::from(self.ordinal()) - 1).wrapping_sub(u64::from(days))) {
            Some(date) => date,
            None => Self::from_number(self.day_number() - days),
        }
    }
}
