//! Date-times without an offset.
ghost use Rattle.std.specs.Prelude.{◌≡◌};
ghost use Rattle.cal_time.specs.Date.{IsDate};
ghost use Rattle.cal_time.specs.Time.{IsTime};
ghost use Rattle.cal_datetime.specs.DateTime.{IsDateTime, date_time, date_at, time_at};

use cal_time::{Date, Time};
use std::marker::Model;

mod arithmetic;
mod components;
mod display;
mod order;
mod replacement;

/// A date and a time of day, in nanoseconds, from -999999-01-01 0:00:00.0 to 999999-12-31
/// 23:59:59.999999999. ISO 8601 calls it a local date and time of day.
///
/// Contracts see the nanoseconds since the first date-time.
#[derive(Clone, Copy)]
pub struct PlainDateTime {
    date: Date,
    time: Time,
}

impl Model for PlainDateTime {
    ghost use Rattle.std.specs.Prelude.{ℤ};
    ghost use Rattle.cal_time.specs.Date.{IsDate};
    ghost use Rattle.cal_time.specs.Time.{IsTime};

    ghost Value = { ℤ };

    ghost use Rattle.cal_datetime.specs.DateTime.{date_time, date_at, time_at};
    ghost use Rattle.cal_datetime.specs.DateTimeLaws.{fields_of, fields_of-date_time};

    ghost view = { λ m. date_time m.date m.time };

    ghost invariant = { λ m. IsDate m.date × IsTime m.time };

    ghost inverse = { fields_of };

    ghost inverse_ok = { fields_of-date_time };
}

impl PlainDateTime {
    /// The first date-time, -999999-01-01 0:00:00.0.
    pub const MIN: Self = Self {
        date: Date::MIN,
        time: Time::MIDNIGHT,
    };

    /// The last date-time, 999999-12-31 23:59:59.999999999.
    pub const MAX: Self = Self {
        date: Date::MAX,
        time: Time::MAX,
    };

    /// Creates a date-time from a date and a time of day. 2024-02-29 and 8:30 give 2024-02-29
    /// 8:30:00.0.
    #[tactic(auto, using(crate::proofs::DateTimes::parts))]
    pub fn new(date: Date, time: Time) -> Self
        ensures value { result ≡ date_time date time }
        ensures date { date_at result ≡ date }
        ensures time { time_at result ≡ time }
        ensures in_range { IsDateTime result }
    {
        // These calls state that both values are in their ranges. They cost nothing.
        let _ = date.year();
        let _ = time.hour();
        Self { date, time }
    }

    /// Returns the date. For 2024-02-29 23:59:59.25 it is 2024-02-29.
    #[tactic(auto, using(crate::proofs::DateTimes::parts))]
    pub fn date(self) -> Date
        ensures value { result ≡ date_at self }
        ensures range { IsDate result }
        ensures in_range { IsDateTime self }
    {
        self.date
    }

    /// Returns the time of day. For 2024-02-29 23:59:59.25 it is 23:59:59.25.
    #[tactic(auto, using(crate::proofs::DateTimes::parts))]
    pub fn time(self) -> Time
        ensures value { result ≡ time_at self }
        ensures range { IsTime result }
        ensures whole { self ≡ date_time (date_at self) (time_at self) }
        ensures in_range { IsDateTime self }
    {
        self.time
    }
}
