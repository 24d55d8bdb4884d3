//! Dates with one component replaced.
ghost use Rattle.std.specs.Prelude.{◌+◌, ◌-◌, SomeIff};
ghost use Rattle.cal_units.specs.Month.{number};
ghost use Rattle.cal_date.specs.CountLaws.{days_of_months};
ghost use Rattle.cal_date.specs.Date.{year_at, month_at, day_of_month_at, IsDate, IsDayOfMonth, HasCalendarDate, HasOrdinalDate};
ghost use Rattle.cal_date.specs.DateResults.{ReturnsDate, ChecksYearAndDay, ChecksDay, ChecksOrdinal};

use crate::date::{Date, LEAP_MARK, is_year};
use crate::error::{Component, ComponentRange};
use cal_units::Month;
use cal_units::util::is_leap_year;

/// The ordinal of 29 February in a leap year.
const LEAP_DAY: u16 = 60;

/// The low bits of 29 February: the leap mark and the ordinal.
const LOW_LEAP_DAY: u32 = LEAP_MARK as u32 + LEAP_DAY as u32;

impl Date {
    /// Replaces the year and keeps the month and the day. 2022-02-18 with the year 2019 is
    /// 2019-02-18.
    ///
    /// Returns the unconditional error `year` if the year is not from -999999 to 999999, else the
    /// conditional error `day` if the month doesn't have the day: 29 February in a common year.
    pub fn replace_year(self, year: i32) -> Result<Self, ComponentRange>
        ensures value { ReturnsDate
            (HasCalendarDate year (month_at self) (day_of_month_at self)) result }
        ensures error { ChecksYearAndDay year (month_at self) (day_of_month_at self) result }
        ensures in_range { IsDate self }
    {
        self.is_in_range();
        if !is_year(year) {
            return Err(ComponentRange::unconditional(Component::Year));
        }
        let Some(ordinal) = self.ordinal_in_year(year) else {
            return Err(ComponentRange::conditional(Component::Day));
        };
        Ok(Date::at_ordinal(year, ordinal))
    }

    /// Replaces the month and keeps the year and the day. 2022-02-18 with March is 2022-03-18.
    ///
    /// Returns the conditional error `day` if the month doesn't have the day, such as 30 in
    /// February.
    pub fn replace_month(self, month: Month) -> Result<Self, ComponentRange>
        ensures value { ReturnsDate
            (HasCalendarDate (year_at self) (number month) (day_of_month_at self)) result }
        ensures error { ChecksDay (year_at self) (number month) (day_of_month_at self) result }
        ensures in_range { IsDate self }
    {
        Self::from_calendar_date(self.year(), month, self.day())
    }

    /// Replaces the day of the month. 2022-02-18 with the day 1 is 2022-02-01. Returns the
    /// conditional error `day` if the month doesn't have the day, such as 0 or 30 in February.
    pub fn replace_day(self, day: u8) -> Result<Self, ComponentRange>
        ensures value { ReturnsDate
            (HasCalendarDate (year_at self) (month_at self) day) result }
        ensures error { ChecksDay (year_at self) (month_at self) day result }
        ensures in_range { IsDate self }
    {
        Self::from_calendar_date(self.year(), self.month(), day)
    }

    /// Replaces the ordinal day and keeps the year. 2022-02-18 with the ordinal 1 is 2022-01-01.
    ///
    /// Returns the conditional error `ordinal` if the year doesn't have the ordinal, such as 366 in
    /// 2022.
    pub fn replace_ordinal(self, ordinal: u16) -> Result<Self, ComponentRange>
        ensures value { ReturnsDate (HasOrdinalDate (year_at self) ordinal) result }
        ensures error { ChecksOrdinal (year_at self) ordinal result }
        ensures in_range { IsDate self }
    {
        Self::from_ordinal_date(self.year(), ordinal)
    }

    /// Returns the ordinal of the same month and day in another year, or `None` for 29 February in
    /// a common year.
    fn ordinal_in_year(self, year: i32) -> Option<u16>
        ensures { SomeIff result (IsDayOfMonth year (month_at self) (day_of_month_at self))
            (days_of_months year (month_at self - 1) + day_of_month_at self) }
    {
        let ordinal = self.ordinal();
        let is_leap = is_leap_year(year);
        if self.low_bits() == LOW_LEAP_DAY && !is_leap {
            return None;
        }

        // Up to 28 February all years have the same ordinals. From March on the ordinals of a leap
        // year are one higher. Sums need no branch on the years, which a processor can't predict.
        if ordinal < LEAP_DAY {
            Some(ordinal)
        } else {
            Some(ordinal + u16::from(is_leap) - u16::from(self.is_in_leap_year()))
        }
    }
}
