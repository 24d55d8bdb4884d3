//! Date-times with a component replaced, or truncated.
ghost use Rattle.std.specs.Prelude.{◌≡◌, ◌*◌};
ghost use Rattle.cal_time.specs.Month.{number};
ghost use Rattle.cal_time.specs.Date.{year_at, month_at, day_of_month_at, HasCalendarDate, HasOrdinalDate};
ghost use Rattle.cal_time.specs.DateResults.{ChecksYearAndDay, ChecksDay, ChecksOrdinal};
ghost use Rattle.cal_time.specs.Time.{hour_out_of_range, minute_out_of_range, second_out_of_range, millisecond_out_of_range, microsecond_out_of_range, nanosecond_out_of_range, ReplacesComponent, time_of, hour_of, minute_of, millisecond_of, microsecond_of, with_hour, with_minute, with_second, with_nanoseconds};
ghost use Rattle.cal_datetime.specs.DateTime.{date_time, date_at, time_at, with_date, with_time};
ghost use Rattle.cal_datetime.specs.Replacement.{ReplacesDate};

use crate::PlainDateTime;
use cal_time::error::ComponentRange;
use cal_time::{Date, Month, Time};

impl PlainDateTime {
    /// Replaces the date and keeps the time of day. 2024-02-29 8:30 with the date 2023-01-31 is
    /// 2023-01-31 8:30.
    pub fn replace_date(self, date: Date) -> Self
        ensures value { result ≡ date_time date (time_at self) }
        ensures date { date_at result ≡ date }
        ensures time { time_at result ≡ time_at self }
    {
        Self::new(date, self.time())
    }

    /// Replaces the time of day and keeps the date. 2024-02-29 8:30 with the time 9:45 is
    /// 2024-02-29 9:45.
    pub fn replace_time(self, time: Time) -> Self
        ensures value { result ≡ date_time (date_at self) time }
        ensures date { date_at result ≡ date_at self }
        ensures time { time_at result ≡ time }
    {
        Self::new(self.date(), time)
    }

    /// Replaces the year and keeps everything else. 2024-02-29 8:30 with the year 2020 is
    /// 2020-02-29 8:30.
    ///
    /// Returns the error `year` if it is not from -999999 to 999999, and the conditional error
    /// `day` for 29 February in a common year.
    pub fn replace_year(self, year: i32) -> Result<Self, ComponentRange>
        ensures value { let n = date_at self in ReplacesDate date_at (with_date self)
            (HasCalendarDate year (month_at n) (day_of_month_at n)) result }
        ensures error { let n = date_at self in
            ChecksYearAndDay year (month_at n) (day_of_month_at n) result }
    {
        Ok(self.replace_date(self.date().replace_year(year)?))
    }

    /// Replaces the month and keeps everything else. 2024-02-29 8:30 with March is 2024-03-29 8:30.
    ///
    /// Returns the conditional error `day` if the month has too few days, such as 29 in February
    /// 2023.
    pub fn replace_month(self, month: Month) -> Result<Self, ComponentRange>
        ensures value { let n = date_at self in ReplacesDate date_at (with_date self)
            (HasCalendarDate (year_at n) (number month) (day_of_month_at n)) result }
        ensures error { let n = date_at self in
            ChecksDay (year_at n) (number month) (day_of_month_at n) result }
    {
        Ok(self.replace_date(self.date().replace_month(month)?))
    }

    /// Replaces the day of the month and keeps everything else. 2024-02-29 8:30 with the day 1 is
    /// 2024-02-01 8:30.
    ///
    /// Returns the conditional error `day` if the month doesn't have this day, such as 0 or 30 in
    /// February.
    pub fn replace_day(self, day: u8) -> Result<Self, ComponentRange>
        ensures value { let n = date_at self in ReplacesDate date_at (with_date self)
            (HasCalendarDate (year_at n) (month_at n) day) result }
        ensures error { let n = date_at self in ChecksDay (year_at n) (month_at n) day result }
    {
        Ok(self.replace_date(self.date().replace_day(day)?))
    }

    /// Replaces the date with the day of the same year with this ordinal. 2024-02-29 8:30 with the
    /// ordinal 366 is 2024-12-31 8:30.
    ///
    /// Returns the conditional error `ordinal` if the year doesn't have it, such as 0, or 366 in
    /// 2023.
    pub fn replace_ordinal(self, ordinal: u16) -> Result<Self, ComponentRange>
        ensures value { let n = date_at self in ReplacesDate date_at (with_date self)
            (HasOrdinalDate (year_at n) ordinal) result }
        ensures error { let n = date_at self in ChecksOrdinal (year_at n) ordinal result }
    {
        Ok(self.replace_date(self.date().replace_ordinal(ordinal)?))
    }

    /// Replaces the hour. 8:30:15.5 with the hour 7 is 7:30:15.5 on the same day. Returns the error
    /// `hour` if it is above 23.
    pub fn replace_hour(self, hour: u8) -> Result<Self, ComponentRange>
        ensures { ReplacesComponent hour 23 hour_out_of_range
            (with_time self (with_hour (time_at self) hour)) result }
    {
        Ok(self.replace_time(self.time().replace_hour(hour)?))
    }

    /// Replaces the minute. 8:30:15.5 with the minute 7 is 8:07:15.5 on the same day. Returns the
    /// error `minute` if it is above 59.
    pub fn replace_minute(self, minute: u8) -> Result<Self, ComponentRange>
        ensures { ReplacesComponent minute 59 minute_out_of_range
            (with_time self (with_minute (time_at self) minute)) result }
    {
        Ok(self.replace_time(self.time().replace_minute(minute)?))
    }

    /// Replaces the second. 8:30:15.5 with the second 7 is 8:30:07.5 on the same day. Returns the
    /// error `second` if it is above 59.
    pub fn replace_second(self, second: u8) -> Result<Self, ComponentRange>
        ensures { ReplacesComponent second 59 second_out_of_range
            (with_time self (with_second (time_at self) second)) result }
    {
        Ok(self.replace_time(self.time().replace_second(second)?))
    }

    /// Replaces the fraction of the second by milliseconds. 8:30:15.5 with 7 milliseconds is
    /// 8:30:15.007 on the same day. Returns the error `millisecond` if it is above 999.
    pub fn replace_millisecond(self, millisecond: u16) -> Result<Self, ComponentRange>
        ensures { ReplacesComponent millisecond 999 millisecond_out_of_range
            (with_time self (with_nanoseconds (time_at self) (millisecond * 1_000_000))) result }
    {
        Ok(self.replace_time(self.time().replace_millisecond(millisecond)?))
    }

    /// Replaces the fraction of the second by microseconds. 8:30:15.5 with 7 microseconds is
    /// 8:30:15.000007 on the same day. Returns the error `microsecond` if it is above 999999.
    pub fn replace_microsecond(self, microsecond: u32) -> Result<Self, ComponentRange>
        ensures { ReplacesComponent microsecond 999_999 microsecond_out_of_range
            (with_time self (with_nanoseconds (time_at self) (microsecond * 1_000))) result }
    {
        Ok(self.replace_time(self.time().replace_microsecond(microsecond)?))
    }

    /// Replaces the fraction of the second by nanoseconds. 8:30:15.5 with 7 nanoseconds is
    /// 8:30:15.000000007 on the same day. Returns the error `nanosecond` if it is above 999999999.
    pub fn replace_nanosecond(self, nanosecond: u32) -> Result<Self, ComponentRange>
        ensures { ReplacesComponent nanosecond 999_999_999 nanosecond_out_of_range
            (with_time self (with_nanoseconds (time_at self) nanosecond)) result }
    {
        Ok(self.replace_time(self.time().replace_nanosecond(nanosecond)?))
    }

    /// Truncates to the hour. 2024-02-29 23:59:59.25 becomes 2024-02-29 23:00:00.0.
    pub fn truncate_to_hour(self) -> Self
        ensures { result ≡ with_time self (time_of (hour_of (time_at self)) 0 0 0) }
    {
        Self::new(self.date(), self.time().truncate_to_hour())
    }

    /// Truncates to the minute. 2024-02-29 23:59:59.25 becomes 2024-02-29 23:59:00.0.
    pub fn truncate_to_minute(self) -> Self
        ensures { result ≡ with_time self
            (time_of (hour_of (time_at self)) (minute_of (time_at self)) 0 0) }
    {
        Self::new(self.date(), self.time().truncate_to_minute())
    }

    /// Truncates to the second. 2024-02-29 23:59:59.25 becomes 2024-02-29 23:59:59.0.
    pub fn truncate_to_second(self) -> Self
        ensures { result ≡ with_time self (with_nanoseconds (time_at self) 0) }
    {
        Self::new(self.date(), self.time().truncate_to_second())
    }

    /// Truncates to the millisecond. 0:00:00.123456789 becomes 0:00:00.123 on the same day.
    pub fn truncate_to_millisecond(self) -> Self
        ensures { result ≡ with_time self
            (with_nanoseconds (time_at self) (millisecond_of (time_at self) * 1_000_000)) }
    {
        Self::new(self.date(), self.time().truncate_to_millisecond())
    }

    /// Truncates to the microsecond. 0:00:00.123456789 becomes 0:00:00.123456 on the same day.
    pub fn truncate_to_microsecond(self) -> Self
        ensures { result ≡ with_time self
            (with_nanoseconds (time_at self) (microsecond_of (time_at self) * 1_000)) }
    {
        Self::new(self.date(), self.time().truncate_to_microsecond())
    }
}
