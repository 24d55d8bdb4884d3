//! The components of the local date and time.
ghost use Rattle.std.specs.Prelude.{◌≡◌, ◌≤◌};
ghost use Rattle.cal_time.specs.Month.{number};
ghost use Rattle.cal_time.specs.Weekday.{index};
ghost use Rattle.cal_time.specs.Date.{year_at, month_at, day_of_month_at, ordinal_at, weekday_at, julian_day_at, IsDate, IsYear, IsOrdinal, IsDayOfMonth, HasOrdinalDate, HasCalendarDate};
ghost use Rattle.cal_time.specs.IsoWeekDate.{iso_year_at, iso_week_at, weekday_count, IsWeek, HasIsoWeekDate};
ghost use Rattle.cal_time.specs.Time.{hour_of, minute_of, second_of, millisecond_of, microsecond_of, nanosecond_of, hms_of, hms_milli_of, hms_micro_of, hms_nano_of};
ghost use Rattle.cal_datetime.specs.DateTime.{date_at, time_at};

use crate::OffsetDateTime;
use cal_time::{Month, Weekday};

impl OffsetDateTime {
    /// Returns the local year, from -999999 to 999999. For 2024-02-29 23:59:59.25 it is 2024.
    pub fn year(self) -> i32
        ensures value { result ≡ year_at (date_at self.local) }
        ensures range { IsYear result }
        ensures in_range { IsDate (date_at self.local) }
    {
        self.date().year()
    }

    /// Returns the local month. For 2024-02-29 23:59:59.25 it is February.
    pub fn month(self) -> Month
        ensures value { number result ≡ month_at (date_at self.local) }
        ensures in_range { IsDate (date_at self.local) }
    {
        self.date().month()
    }

    /// Returns the local day of the month, from 1 to 31. For 2024-02-29 23:59:59.25 it is 29.
    pub fn day(self) -> u8
        ensures value { result ≡ day_of_month_at (date_at self.local) }
        ensures range { IsDayOfMonth (year_at (date_at self.local))
            (month_at (date_at self.local)) result }
        ensures max { result ≤ 31 }
        ensures in_range { IsDate (date_at self.local) }
    {
        self.date().day()
    }

    /// Returns the local day of the year, from 1 to 366. For 2024-02-29 23:59:59.25 it is 60.
    pub fn ordinal(self) -> u16
        ensures value { result ≡ ordinal_at (date_at self.local) }
        ensures range { IsOrdinal (year_at (date_at self.local)) result }
        ensures max { result ≤ 366 }
        ensures in_range { IsDate (date_at self.local) }
    {
        self.date().ordinal()
    }

    /// Returns the local ISO week, from 1 to 53. For 2021-01-01 0:00 it is 53, a week of 2020.
    pub fn iso_week(self) -> u8
        ensures value { result ≡ iso_week_at (date_at self.local) }
        ensures range { IsWeek (iso_year_at (date_at self.local)) result }
        ensures max { result ≤ 53 }
        ensures in_range { IsDate (date_at self.local) }
    {
        self.date().iso_week()
    }

    /// Returns the local week of the year, from 0 to 53. Week 1 begins on the first Sunday of the
    /// year. For 2020-12-31 0:00 it is 52.
    pub fn sunday_based_week(self) -> u8
        ensures value { result ≡ weekday_count 6 (date_at self.local) }
        ensures max { result ≤ 53 }
        ensures in_range { IsDate (date_at self.local) }
    {
        self.date().sunday_based_week()
    }

    /// Returns the local week of the year, from 0 to 53. Week 1 begins on the first Monday of the
    /// year. For 2020-12-31 0:00 it is 52.
    pub fn monday_based_week(self) -> u8
        ensures value { result ≡ weekday_count 0 (date_at self.local) }
        ensures max { result ≤ 53 }
        ensures in_range { IsDate (date_at self.local) }
    {
        self.date().monday_based_week()
    }

    /// Returns the local calendar date of ISO 8601: the year, the month and the day of the month.
    /// For 2024-02-29 23:59:59.25 it is (2024, February, 29).
    pub fn to_calendar_date(self) -> (i32, Month, u8)
        ensures value { HasCalendarDate result.0 (number result.1) result.2 (date_at self.local) }
        ensures range { IsYear result.0 × IsDayOfMonth result.0 (number result.1) result.2
            × (result.2 ≤ 31) }
        ensures in_range { IsDate (date_at self.local) }
    {
        self.date().to_calendar_date()
    }

    /// Returns the local ordinal date of ISO 8601: the year and the day of the year. For 2024-02-29
    /// 23:59:59.25 it is (2024, 60).
    pub fn to_ordinal_date(self) -> (i32, u16)
        ensures value { HasOrdinalDate result.0 result.1 (date_at self.local) }
        ensures range { IsYear result.0 × IsOrdinal result.0 result.1 × (result.1 ≤ 366) }
        ensures in_range { IsDate (date_at self.local) }
    {
        self.date().to_ordinal_date()
    }

    /// Returns the local week date of ISO 8601: the ISO year, the ISO week and the weekday. For
    /// 2024-02-29 23:59:59.25 it is (2024, 9, Thursday).
    pub fn to_iso_week_date(self) -> (i32, u8, Weekday)
        ensures value { HasIsoWeekDate result.0 result.1 (index result.2) (date_at self.local) }
        ensures range { IsYear result.0 × IsWeek result.0 result.1 × (result.1 ≤ 53) }
        ensures in_range { IsDate (date_at self.local) }
    {
        self.date().to_iso_week_date()
    }

    /// Returns the local weekday. For 2024-02-29 23:59:59.25 it is Thursday.
    pub fn weekday(self) -> Weekday
        ensures value { index result ≡ weekday_at (date_at self.local) }
        ensures in_range { IsDate (date_at self.local) }
    {
        self.date().weekday()
    }

    /// Returns the Julian day of the local date, from -363521074 to 366963559. For 2024-02-29
    /// 23:59:59.25 it is 2460370.
    pub fn to_julian_day(self) -> i32
        ensures value { result ≡ julian_day_at (date_at self.local) }
        ensures in_range { IsDate (date_at self.local) }
    {
        self.date().to_julian_day()
    }

    /// Returns the local hour, minute and second: (23, 59, 59) at 23:59:59.25.
    pub fn as_hms(self) -> (u8, u8, u8)
        ensures { result ≡ hms_of (time_at self.local) }
    {
        self.time().as_hms()
    }

    /// Returns the local hour, minute, second and millisecond: (23, 59, 59, 250) at 23:59:59.25.
    pub fn as_hms_milli(self) -> (u8, u8, u8, u16)
        ensures { result ≡ hms_milli_of (time_at self.local) }
    {
        self.time().as_hms_milli()
    }

    /// Returns the local hour, minute, second and microsecond: (23, 59, 59, 250000) at 23:59:59.25.
    pub fn as_hms_micro(self) -> (u8, u8, u8, u32)
        ensures { result ≡ hms_micro_of (time_at self.local) }
    {
        self.time().as_hms_micro()
    }

    /// Returns the local hour, minute, second and nanosecond: (23, 59, 59, 250000000) at
    /// 23:59:59.25.
    pub fn as_hms_nano(self) -> (u8, u8, u8, u32)
        ensures { result ≡ hms_nano_of (time_at self.local) }
    {
        self.time().as_hms_nano()
    }

    /// Returns the local hour, from 0 to 23. At 23:59:59.25 it is 23.
    pub fn hour(self) -> u8
        ensures value { result ≡ hour_of (time_at self.local) }
        ensures max { result ≤ 23 }
    {
        self.time().hour()
    }

    /// Returns the local minute of the hour, from 0 to 59. At 23:59:59.25 it is 59.
    pub fn minute(self) -> u8
        ensures value { result ≡ minute_of (time_at self.local) }
        ensures max { result ≤ 59 }
    {
        self.time().minute()
    }

    /// Returns the local second of the minute, from 0 to 59. At 23:59:59.25 it is 59.
    pub fn second(self) -> u8
        ensures value { result ≡ second_of (time_at self.local) }
        ensures max { result ≤ 59 }
    {
        self.time().second()
    }

    /// Returns the millisecond of the local second, from 0 to 999. At 23:59:59.25 it is 250.
    pub fn millisecond(self) -> u16
        ensures value { result ≡ millisecond_of (time_at self.local) }
        ensures max { result ≤ 999 }
    {
        self.time().millisecond()
    }

    /// Returns the microsecond of the local second, from 0 to 999999. At 23:59:59.25 it is 250000.
    pub fn microsecond(self) -> u32
        ensures value { result ≡ microsecond_of (time_at self.local) }
        ensures max { result ≤ 999_999 }
    {
        self.time().microsecond()
    }

    /// Returns the nanosecond of the local second, from 0 to 999999999. At 23:59:59.25 it is
    /// 250000000.
    pub fn nanosecond(self) -> u32
        ensures value { result ≡ nanosecond_of (time_at self.local) }
        ensures max { result ≤ 999_999_999 }
    {
        self.time().nanosecond()
    }
}
