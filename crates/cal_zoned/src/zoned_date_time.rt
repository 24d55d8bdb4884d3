//! Date-times in a zone.
ghost use Rattle.std.specs.Prelude.{◌≡◌, ◌+ℤ◌, IfOk, SomeIff};
ghost use Rattle.cal_datetime.specs.DateTime.{IsDateTime, date_at, time_at};
ghost use Rattle.cal_datetime.specs.OffsetDateTime.{instant, unix_epoch, unix_nanoseconds, unix_seconds, IsInstant};
ghost use Rattle.cal_zone.specs.Local.{Shows};
ghost use Rattle.cal_zone.specs.Timeline.{offset_at};
ghost use Rattle.cal_zoned.specs.Zoned.{at_instant, instant_in, reading_at};
ghost use Rattle.cal_zoned.specs.Resolved.{IsResolved};
ghost use Rattle.cal_zoned.specs.Unchecked.{result_in};

use crate::unchecked::{resolved, seen_at};
use cal_datetime::{OffsetDateTime, PlainDateTime};
use cal_time::{Date, Time, UtcOffset};
use cal_zone::{LocalTimeError, Policy, Zone};
use std::marker::Model;

mod arithmetic;
mod days;
mod moves;
mod order;
mod units;
mod until;

/// An instant in a time zone, with the date and the time of day that the clocks of the zone show
/// then.
///
/// It is in the range if what the clocks show is. Date-times in zones compare and hash by their
/// instants, whatever their zones are.
#[derive(Debug, Drop)]
pub struct ZonedDateTime<'z> {
    pub(crate) zone: &'z Zone<'z>,
    pub(crate) moment: OffsetDateTime,
}

impl<'z> Model for ZonedDateTime<'z> {
    ghost use Rattle.cal_zone.specs.Local.{Shows};
    ghost use Rattle.cal_zoned.specs.Zoned.{InZone};

    ghost Value = { InZone };

    ghost view = { λ z. record { zone = z.zone.now; moment = z.moment } };

    ghost invariant = { λ z. Shows z.zone.now z.moment.local z.moment };
}

impl<'z> ZonedDateTime<'z> {
    /// Creates a date-time in a zone from the nanoseconds since 1970-01-01 0:00 UTC. Returns `None`
    /// if what the clocks show then is out of range. In Berlin 1711846800000000000 is 2024-03-31
    /// 3:00 +02:00:00.
    pub fn from_unix_timestamp_nanos(nanoseconds: i128, zone: &'z Zone<'z>) -> Option<Self>
        ensures { let z = unix_epoch +ℤ nanoseconds
            in SomeIff result (IsDateTime (reading_at zone.now z)) (at_instant zone.now z) }
    {
        let moment = seen_at(nanoseconds, zone.as_unchecked())?;
        Some(ZonedDateTime { zone, moment })
    }

    /// Creates a date-time in a zone from a date-time at an offset, at the same instant. Returns
    /// `None` if what the clocks of the zone show then is out of range. In Berlin 2024-07-01 10:00
    /// +00:00:00 is 12:00 +02:00:00.
    pub fn from_offset_date_time(moment: OffsetDateTime, zone: &'z Zone<'z>) -> Option<Self>
        ensures { let z = instant moment
            in SomeIff result (IsDateTime (reading_at zone.now z)) (at_instant zone.now z) }
    {
        Self::from_unix_timestamp_nanos(moment.unix_timestamp_nanos(), zone)
    }

    /// Creates the date-time in a zone that a local date-time means there.
    ///
    /// In Berlin 2024-03-31 2:30 is 3:30 +02:00:00 by [`Policy::Compatible`], and 2024-10-27 2:30 is
    /// 2:30 +02:00:00.
    ///
    /// # Errors
    ///
    /// Returns `Skipped` or `Repeated` by [`Policy::Reject`] in a gap or in a fold, and `OutOfRange`
    /// if what the clocks show is out of range.
    pub fn from_local(
        reading: PlainDateTime,
        zone: &'z Zone<'z>,
        policy: Policy,
    ) -> Result<Self, LocalTimeError>
        ensures { IsResolved policy zone.now reading result }
    {
        shown_in(zone, resolved(reading, zone.as_unchecked(), policy))
    }

    /// Returns what the clocks show.
    pub fn local(&self) -> PlainDateTime
        ensures value { result ≡ self.now.moment.local }
        ensures range { IsDateTime result }
    {
        self.moment.local()
    }

    /// Returns the date that the clocks show.
    pub fn date(&self) -> Date
        ensures { result ≡ date_at self.now.moment.local }
    {
        self.moment.date()
    }

    /// Returns the time of day that the clocks show.
    pub fn time(&self) -> Time
        ensures { result ≡ time_at self.now.moment.local }
    {
        self.moment.time()
    }

    /// Returns the offset of the clocks from UTC.
    pub fn offset(&self) -> UtcOffset
        ensures value { result ≡ self.now.moment.offset }
        ensures zone { result ≡ offset_at self.now.zone (unix_seconds (instant_in self.now)) }
    {
        self.moment.offset()
    }

    /// Returns what the clocks show, with their offset.
    pub fn to_offset_date_time(&self) -> OffsetDateTime
        ensures { result ≡ self.now.moment }
    {
        self.moment
    }

    /// Returns the zone.
    pub fn zone(&self) -> &'z Zone<'z>
        ensures { result.now ≡ self.now.zone }
    {
        self.zone
    }

    /// Returns the nanoseconds since 1970-01-01 0:00 UTC.
    pub fn unix_timestamp_nanos(&self) -> i128
        ensures value { result ≡ unix_nanoseconds (instant_in self.now) }
        ensures range { IsInstant (instant_in self.now) }
        ensures whole { self.now ≡ at_instant self.now.zone (instant_in self.now) }
    {
        let _ = self.moment.local();
        let _ = self.moment.offset();
        self.moment.unix_timestamp_nanos()
    }

    /// Converts to another zone, at the same instant. Returns `None` if what its clocks show then is
    /// out of range. 2024-07-01 12:00 in Berlin is 10:00 in UTC.
    pub fn in_zone<'o>(&self, zone: &'o Zone<'o>) -> Option<ZonedDateTime<'o>>
        ensures { let z = instant_in self.now
            in SomeIff result (IsDateTime (reading_at zone.now z)) (at_instant zone.now z) }
    {
        ZonedDateTime::from_unix_timestamp_nanos(self.unix_timestamp_nanos(), zone)
    }
}

/// Returns a date-time that the clocks of a zone show as one in the zone.
pub(crate) fn shown_in<'z>(
    zone: &'z Zone<'z>,
    found: Result<OffsetDateTime, LocalTimeError>,
) -> Result<ZonedDateTime<'z>, LocalTimeError>
    requires { IfOk found (λ m. Shows zone.now m.local m) }
    ensures { result ≡ result_in zone.now found }
{
    match found {
        Ok(moment) => Ok(ZonedDateTime { zone, moment }),
        Err(error) => Err(error),
    }
}
