//! The periods of hours, minutes and seconds.
ghost use Rattle.std.specs.Prelude.{◌≡◌, ◌+◌, ◌*◌, ◌/◌, ◌<◌, ◌≤◌};
ghost use Rattle.cal_time.specs.Date.{IsDate};
ghost use Rattle.cal_time.specs.SignedDuration.{day};
ghost use Rattle.cal_recurrence.specs.ClockPeriods.{size_of};

use crate::times_of_day::nanoseconds;
use cal_date::day_number::day_number;
use cal_time::{Date, Time};

/// The periods of a rule within days (`FREQ`).
#[derive(Clone, Copy, Debug, PartialEq, Eq)]
pub enum ClockUnit {
    /// Every n-th hour (`HOURLY`).
    Hour,
    /// Every n-th minute (`MINUTELY`).
    Minute,
    /// Every n-th second (`SECONDLY`).
    Second,
}

impl ClockUnit {
    /// Returns the number of seconds of a period.
    pub(crate) fn seconds(self) -> u64
        ensures value { result * 1_000_000_000 ≡ size_of self }
        ensures least { 1 ≤ result }
        ensures most { result ≤ 3_600 }
    {
        match self {
            ClockUnit::Hour => 3_600,
            ClockUnit::Minute => 60,
            ClockUnit::Second => 1,
        }
    }

    /// Returns the index of the period of a time of day, from 0 at midnight.
    pub(crate) fn index_in_day(self, time: Time) -> u64
        ensures { result ≡ time / size_of self }
    {
        nanoseconds(time) / (self.seconds() * 1_000_000_000)
    }

    /// Returns the index of the period of a reading, from 0 for the first period of the range.
    pub(crate) fn index(self, date: Date, time: Time) -> u64
        ensures value { result ≡ (date * day + time) / size_of self }
        ensures most { result ≤ 63_113_872_377_599 }
        ensures in_range { IsDate date }
        ensures in_day { time < day }
    {
        let seconds = u64::from(day_number(date)) * 86_400 + nanoseconds(time) / 1_000_000_000;
        seconds / self.seconds()
    }
}
