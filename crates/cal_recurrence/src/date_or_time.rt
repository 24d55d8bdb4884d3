//! Dates, and dates with a time of day.
ghost use Rattle.std.specs.Prelude.{◌≡◌};
ghost use Rattle.cal_recurrence.specs.DateOrTime.{date_of, last_reading};

use cal_datetime::PlainDateTime;
use cal_time::{Date, Time};

/// A date, or a date with a time of day: a value of `UNTIL` in RFC 5545.
#[derive(Clone, Copy, Debug, PartialEq, Eq)]
pub enum DateOrTime {
    /// A date, such as `20241231`.
    Date(Date),
    /// A reading without a zone, such as `20241231T235959`.
    Local(PlainDateTime),
    /// The reading of an instant at UTC, such as `20241231T235959Z`.
    Utc(PlainDateTime),
}

impl DateOrTime {
    /// Returns the date. For `20241231T235959Z` it is 2024-12-31.
    pub fn date(self) -> Date
        ensures { result ≡ date_of self }
    {
        match self {
            DateOrTime::Date(date) => date,
            DateOrTime::Local(reading) | DateOrTime::Utc(reading) => reading.date(),
        }
    }

    /// Returns the reading, or the last one of the day of a date. For `20241231` it is 2024-12-31
    /// 23:59:59.999999999.
    pub fn last_reading(self) -> PlainDateTime
        ensures { result ≡ last_reading self }
    {
        match self {
            DateOrTime::Date(date) => PlainDateTime::new(date, Time::MAX),
            DateOrTime::Local(reading) | DateOrTime::Utc(reading) => reading,
        }
    }
}
