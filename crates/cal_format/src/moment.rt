//! The value that a format prints.
ghost use Rattle.std.specs.Prelude.{◌≡◌, ◌<◌, ◌/◌, ◌+ℤ◌, ◌-ℤ◌, ◌*ℤ◌, unsigned_abs, pos, int_lt, if◌then◌else◌};
ghost use Rattle.cal_time.specs.SignedDuration.{second};
ghost use Rattle.cal_time.specs.Date.{year_at, month_at as month_at_day, weekday_at as weekday_at_day, IsYear};
ghost use Rattle.cal_time.specs.IsoWeekDate.{iso_year_at};
ghost use Rattle.cal_time.specs.Month.{month_of_index};
ghost use Rattle.cal_time.specs.Weekday.{weekday_of_index};
ghost use Rattle.cal_format.specs.Moment.{number, timestamp_of};
ghost use Rattle.cal_format.specs.Names.{month_of, weekday_of};
ghost use Rattle.cal_format.specs.Text.{sign};

use crate::item::Component;
use cal_time::{Date, Month, Time, UtcOffset, Weekday};

/// The Julian day of 1970-01-01.
pub(crate) const EPOCH_JULIAN_DAY: i64 = 2_440_588;

/// A value that an item prints: a date, a time of day and an offset. A value without one of them
/// has the first date, midnight or UTC in its place.
#[derive(Clone, Copy, Debug)]
pub struct Moment {
    pub(crate) date: Date,
    pub(crate) time: Time,
    pub(crate) offset: UtcOffset,
}

impl Moment {
    /// Returns the number of a component.
    #[inline(always)]
    pub(crate) fn number(&self, component: Component) -> u64
        ensures { result ≡ number component self.now }
    {
        match component {
            Component::Year => u64::from(self.date.year().unsigned_abs()),
            Component::Century => u64::from(self.date.year().unsigned_abs()) / 100,
            Component::YearOfCentury => u64::from(self.date.year().unsigned_abs()) % 100,
            Component::IsoYear => u64::from(iso_year(self.date).unsigned_abs()),
            Component::Month => u64::from(u8::from(self.date.month())),
            Component::Day => u64::from(self.date.day()),
            Component::Ordinal => u64::from(self.date.ordinal()),
            Component::IsoWeek => u64::from(self.date.iso_week()),
            Component::Weekday => weekday_index(self.date) + 1,
            Component::DaysFromMonday => weekday_index(self.date),
            Component::DaysFromSunday => (weekday_index(self.date) + 1) % 7,
            Component::SundayWeekday => (weekday_index(self.date) + 1) % 7 + 1,
            Component::SundayWeek => u64::from(self.date.sunday_based_week()),
            Component::MondayWeek => u64::from(self.date.monday_based_week()),
            Component::Hour => u64::from(self.time.hour()),
            Component::Hour12 => (u64::from(self.time.hour()) + 11) % 12 + 1,
            Component::Minute => u64::from(self.time.minute()),
            Component::Second => u64::from(self.time.second()),
            Component::Period => u64::from(self.time.hour()) / 12,
            Component::Subsecond1 => u64::from(self.time.nanosecond()) / 100_000_000,
            Component::Subsecond2 => u64::from(self.time.nanosecond()) / 10_000_000,
            Component::Millisecond => u64::from(self.time.nanosecond()) / 1_000_000,
            Component::Subsecond4 => u64::from(self.time.nanosecond()) / 100_000,
            Component::Subsecond5 => u64::from(self.time.nanosecond()) / 10_000,
            Component::Microsecond => u64::from(self.time.nanosecond()) / 1_000,
            Component::Subsecond7 => u64::from(self.time.nanosecond()) / 100,
            Component::Subsecond8 => u64::from(self.time.nanosecond()) / 10,
            Component::Nanosecond => u64::from(self.time.nanosecond()),
            Component::OffsetHour => u64::from(self.offset.whole_seconds().unsigned_abs()) / 3_600,
            Component::OffsetMinute => {
                u64::from(self.offset.whole_seconds().unsigned_abs()) / 60 % 60
            }
            Component::OffsetSecond => u64::from(self.offset.whole_seconds().unsigned_abs()) % 60,
            Component::OffsetSign => sign_number(i64::from(self.offset.whole_seconds())),
            Component::Timestamp => self.timestamp().unsigned_abs(),
            Component::TimestampSign => sign_number(self.timestamp()),
        }
    }

    /// Returns the Unix time in seconds, rounded down.
    pub(crate) fn timestamp(&self) -> i64
        ensures value { result ≡ timestamp_of self.now }
        ensures range { unsigned_abs result < 100_000_000_000_000 }
    {
        let days = i64::from(self.date.to_julian_day()) - EPOCH_JULIAN_DAY;
        seconds_at(days, self.seconds_of_day(), self.offset.whole_seconds())
    }

    fn seconds_of_day(&self) -> i64
        ensures value { result ≡ pos (self.now.time / second) }
        ensures range { self.now.time / second < 86_400 }
    {
        let minutes = u32::from(self.time.hour()) * 60 + u32::from(self.time.minute());
        i64::from(minutes * 60 + u32::from(self.time.second()))
    }

    /// Returns the month.
    pub(crate) fn month(&self) -> Month
        ensures { result ≡ month_of self.now }
    {
        self.date.month()
    }

    /// Returns the weekday.
    pub(crate) fn weekday(&self) -> Weekday
        ensures { result ≡ weekday_of self.now }
    {
        self.date.weekday()
    }
}

/// Returns the seconds of these days and of the day, minus the offset.
fn seconds_at(days: i64, seconds: i64, offset: i32) -> i64
    requires days { unsigned_abs days < 1_000_000_000 }
    requires seconds { unsigned_abs seconds < 86_400 }
    requires offset { unsigned_abs offset < 100_000 }
    ensures value { result ≡ days *ℤ pos 86_400 +ℤ seconds -ℤ offset }
    ensures range { unsigned_abs result < 100_000_000_000_000 }
{
    days * 86_400 + seconds - i64::from(offset)
}

/// Returns the ISO year.
pub(crate) fn iso_year(date: Date) -> i32
    ensures value { result ≡ iso_year_at date }
    ensures range { IsYear result }
{
    let (year, _, _) = date.to_iso_week_date();
    year
}

/// Returns 1 for a negative number.
fn sign_number(number: i64) -> u64
    ensures { result ≡ (if int_lt number (pos 0) then 1 else 0) }
{
    if number < 0 { 1 } else { 0 }
}

/// Returns the number of days since Monday.
fn weekday_index(date: Date) -> u64
    ensures value { result ≡ weekday_at_day date }
    ensures range { result < 7 }
{
    u64::from(date.weekday().number_days_from_monday())
}
