//! Date-times at an offset from UTC.
ghost use Rattle.std.specs.Prelude.{◌≡◌, ◌↔◌, pos, ◌+ℤ◌, ◌-ℤ◌, ◌*ℤ◌, Some, IfSome, SomeIff};
ghost use Rattle.cal_time.specs.SignedDuration.{second};
ghost use Rattle.cal_time.specs.Date.{IsDate};
ghost use Rattle.cal_time.specs.Time.{IsTime};
ghost use Rattle.cal_time.specs.UtcOffset.{IsOffset};
ghost use Rattle.cal_datetime.specs.DateTime.{IsDateTime, date_time, date_at, time_at};
ghost use Rattle.cal_datetime.specs.OffsetDateTime.{LocalAndOffset, instant, local_at};

use crate::PlainDateTime;
use cal_time::{Date, SignedDuration, Time, UtcOffset};
use std::marker::Model;

mod arithmetic;
mod components;
mod display;
mod order;
mod replacement;
mod unix;

/// A date and a time of day at an offset from UTC. The local date-time ranges from -999999-01-01
/// 0:00:00.0 to 999999-12-31 23:59:59.999999999 and is exact to the nanosecond.
///
/// Contracts see two numbers, the local date-time and the offset. The instant is the local
/// date-time minus the offset.
#[derive(Clone, Copy)]
pub struct OffsetDateTime {
    date: Date,
    offset: UtcOffset,
    time: Time,
}

impl Model for OffsetDateTime {
    ghost use Rattle.cal_time.specs.Date.{IsDate};
    ghost use Rattle.cal_time.specs.Time.{IsTime};
    ghost use Rattle.cal_time.specs.UtcOffset.{IsOffset};
    ghost use Rattle.cal_datetime.specs.OffsetDateTime.{LocalAndOffset};

    ghost Value = { LocalAndOffset };

    ghost use Rattle.cal_datetime.specs.OffsetDateTimeLaws.{local_and_offset_of, fields_of, fields_of-local_and_offset_of};

    ghost view = { local_and_offset_of };

    ghost invariant = { λ m. IsDate m.date × IsTime m.time × IsOffset m.offset };

    ghost inverse = { fields_of };

    ghost inverse_ok = { fields_of-local_and_offset_of };
}

impl PlainDateTime {
    /// Creates the date-time at UTC with this date and time. 2024-02-29 8:00 becomes 2024-02-29
    /// 8:00 +00:00:00.
    #[tactic(auto, unfolding(crate::specs::OffsetDateTime::instant))]
    pub fn assume_utc(self) -> OffsetDateTime
        ensures value { result ≡ record { local = self; offset = pos 0 } }
        ensures instant { instant result ≡ self }
    {
        self.assume_offset(UtcOffset::UTC)
    }

    /// Creates the date-time at `offset` with this local date and time. 2024-02-29 8:00 at the
    /// offset +01:00:00 is the instant 7:00 UTC.
    #[tactic(auto, unfolding(crate::specs::OffsetDateTime::instant))]
    pub fn assume_offset(self, offset: UtcOffset) -> OffsetDateTime
        ensures value { result ≡ record { local = self; offset = offset } }
        ensures instant { instant result ≡ self -ℤ offset *ℤ pos second }
    {
        let _ = offset.whole_seconds();
        OffsetDateTime {
            date: self.date(),
            offset,
            time: self.time(),
        }
    }
}

impl OffsetDateTime {
    /// Creates a date-time from a local date, a local time of day and an offset. 2024-02-29 and
    /// 8:00 at the offset +01:00:00 are the instant 7:00 UTC.
    #[tactic(auto, using(crate::proofs::DateTimes::parts), unfolding(crate::specs::OffsetDateTime::instant))]
    pub fn new_in_offset(date: Date, time: Time, offset: UtcOffset) -> Self
        ensures value { result ≡ record { local = date_time date time; offset = offset } }
        ensures date { date_at result.local ≡ date }
        ensures time { time_at result.local ≡ time }
        ensures instant { instant result ≡ date_time date time -ℤ offset *ℤ pos second }
        ensures in_range { IsDateTime result.local × IsOffset result.offset }
    {
        let _ = date.year();
        let _ = time.hour();
        let _ = offset.whole_seconds();
        Self { date, offset, time }
    }

    /// Creates a date-time from a date and a time of day at UTC. 2024-02-29 and 8:00 give
    /// 2024-02-29 8:00 +00:00:00.
    pub fn new_utc(date: Date, time: Time) -> Self
        ensures value { result ≡ record { local = date_time date time; offset = pos 0 } }
        ensures date { date_at result.local ≡ date }
        ensures time { time_at result.local ≡ time }
        ensures instant { instant result ≡ date_time date time }
        ensures in_range { IsDateTime (date_time date time) }
    {
        Self::new_in_offset(date, time, UtcOffset::UTC)
    }

    /// Returns the local date-time. For 2024-02-29 8:00 +01:00:00 it is 2024-02-29 8:00.
    #[tactic(auto, using(crate::proofs::DateTimes::parts))]
    pub fn local(self) -> PlainDateTime
        ensures value { result ≡ self.local }
        ensures range { IsDateTime result }
    {
        PlainDateTime::new(self.date, self.time)
    }

    /// Returns the local date. For 2024-02-29 8:00 +01:00:00 it is 2024-02-29.
    #[tactic(auto, using(crate::proofs::DateTimes::parts))]
    pub fn date(self) -> Date
        ensures value { result ≡ date_at self.local }
        ensures range { IsDate result }
        ensures in_range { IsDateTime self.local }
    {
        self.date
    }

    /// Returns the local time of day. For 2024-02-29 8:00 +01:00:00 it is 8:00.
    #[tactic(auto, using(crate::proofs::DateTimes::parts))]
    pub fn time(self) -> Time
        ensures value { result ≡ time_at self.local }
        ensures range { IsTime result }
        ensures whole { self.local ≡ date_time (date_at self.local) (time_at self.local) }
        ensures in_range { IsDateTime self.local }
    {
        self.time
    }

    /// Returns the offset from UTC, positive if the local clock is ahead of UTC. For 2024-02-29
    /// 8:00 +01:00:00 it is +01:00:00.
    pub fn offset(self) -> UtcOffset
        ensures value { result ≡ self.offset }
        ensures range { IsOffset result }
    {
        self.offset
    }

    /// Converts to another offset, at the same instant. Returns `None` if the local date-time is
    /// out of range there. 2024-02-29 8:00 +01:00:00 converts to 2024-02-29 9:00 +02:00:00.
    #[tactic(auto, unfolding(crate::specs::OffsetDateTime::instant))]
    pub fn checked_to_offset(self, offset: UtcOffset) -> Option<Self>
        ensures value { let local = local_at (instant self) offset
            in SomeIff result (IsDateTime local) (record { local = local; offset = offset }) }
        ensures same_instant { IfSome result (λ there. instant there ≡ instant self) }
        ensures every { (there : LocalAndOffset) → IsDateTime there.local → there.offset ≡ offset
            → instant there ≡ instant self
            → result ≡ Some there }
        ensures in_range { IsDateTime self.local }
    {
        match self
            .local()
            .checked_add(offset_difference(offset, self.offset()))
        {
            Some(local) => Some(local.assume_offset(offset)),
            None => None,
        }
    }

    /// Converts to UTC, at the same instant. Returns `None` if the date-time at UTC is out of
    /// range. 2024-02-29 8:00 +01:00:00 converts to 2024-02-29 7:00 +00:00:00.
    pub fn checked_to_utc(self) -> Option<Self>
        ensures value { SomeIff result (IsDateTime (instant self))
            (record { local = instant self; offset = pos 0 }) }
        ensures same_instant { IfSome result (λ there. instant there ≡ instant self) }
    {
        self.checked_to_offset(UtcOffset::UTC)
    }

    /// Converts to another offset, at the same instant. The local date-time there must be in range.
    /// 2024-02-29 8:00 +01:00:00 converts to 2024-02-29 9:00 +02:00:00.
    #[tactic(auto, unfolding(crate::specs::OffsetDateTime::instant))]
    pub fn to_offset(self, offset: UtcOffset) -> Self
        requires { IsDateTime (local_at (instant self) offset) }
        ensures value { result ≡ record
            { local = local_at (instant self) offset; offset = offset } }
        ensures same_instant { instant result ≡ instant self }
    {
        self.checked_to_offset(offset).unwrap()
    }

    /// Converts to UTC, at the same instant. The date-time at UTC must be in range. 2024-02-29 8:00
    /// +01:00:00 converts to 2024-02-29 7:00 +00:00:00.
    pub fn to_utc(self) -> Self
        requires { IsDateTime (instant self) }
        ensures value { result ≡ record { local = instant self; offset = pos 0 } }
        ensures same_instant { instant result ≡ instant self }
    {
        self.checked_to_utc().unwrap()
    }
}

/// Returns the difference of two offsets, `offset` minus `other`.
fn offset_difference(offset: UtcOffset, other: UtcOffset) -> SignedDuration
    ensures { result ≡ offset *ℤ pos second -ℤ other *ℤ pos second }
{
    let seconds = offset.whole_seconds() - other.whole_seconds();
    SignedDuration::seconds(i64::from(seconds))
}
