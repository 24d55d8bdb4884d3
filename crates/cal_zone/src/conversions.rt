//! Date-times in a zone.
ghost use Rattle.std.specs.Prelude.{◌≡◌, ◌↔◌, ℤ, pos, ◌+ℤ◌, ◌-ℤ◌, ◌*ℤ◌, Some, IfSome, IfNone, SomeIff};
ghost use Rattle.cal_time.specs.SignedDuration.{second};
ghost use Rattle.cal_datetime.specs.DateTime.{IsDateTime};
ghost use Rattle.cal_datetime.specs.OffsetDateTime.{LocalAndOffset, instant, local_at, unix_epoch, unix_seconds};
ghost use Rattle.cal_zone.specs.Local.{Shows, NamesMoment, IsLocal, IsLocalOf};
ghost use Rattle.cal_zone.specs.Timeline.{offset_at, InOrder, IsMoment, IsOffset};
ghost use Rattle.cal_zone.specs.Zone.{IsByRule};

use crate::gap::local_date_time;
use crate::{Gap, Instants, Local, UncheckedZone, Zone};
use cal_datetime::{OffsetDateTime, PlainDateTime};
use cal_time::UtcOffset;

/// Converts to the time of a zone, at the same instant. Returns `None` if the local date-time is
/// out of range there. In Berlin 2024-03-31 1:00 +00:00:00 is 2024-03-31 3:00 +02:00:00.
pub fn in_zone(moment: OffsetDateTime, zone: &Zone<'_>) -> Option<OffsetDateTime>
    ensures value { let offset = offset_at zone.now (unix_seconds (instant moment))
        in let local = local_at (instant moment) offset
        in SomeIff result (IsDateTime local) (record { local = local; offset = offset }) }
    ensures same_instant { IfSome result (λ there. instant there ≡ instant moment) }
{
    moment.checked_to_offset(zone.utc_offset_at(moment.unix_timestamp()))
}

/// Returns an offset, or `None` if it is out of range.
#[inline(always)]
fn utc_offset(seconds: i32) -> Option<UtcOffset>
    ensures { SomeIff result (IsOffset seconds) seconds }
{
    match UtcOffset::from_whole_seconds(seconds) {
        Ok(offset) => Some(offset),
        Err(_) => None,
    }
}

/// Returns the whole seconds from 1970-01-01 0:00 to a reading.
fn reading_seconds(local: PlainDateTime) -> i64
    ensures value { result ≡ unix_seconds local }
    ensures range { IsMoment result }
{
    local.assume_utc().unix_timestamp()
}

/// Returns the date-time of a reading at the offset with which it is at an instant. Returns `None`
/// if the offset is out of range.
fn shown_at(local: PlainDateTime, seconds: i64, instant: i64) -> Option<OffsetDateTime>
    ensures { SomeIff result (IsOffset (seconds -ℤ instant))
        (record { local = local; offset = seconds -ℤ instant }) }
{
    let difference = seconds.checked_sub(instant)?;
    match i32::try_from(difference) {
        Ok(offset) => Some(local.assume_offset(utc_offset(offset)?)),
        Err(_) => None,
    }
}

impl<'a> UncheckedZone<'a> {
    /// Returns the offset at a Unix time in seconds. `None` means that the changes are not in
    /// order.
    #[inline(always)]
    pub fn utc_offset_at(&self, instant: i64) -> Option<UtcOffset>
        ensures none { IfNone result (¬ InOrder self.now) }
        ensures some { IfSome result (λ offset. InOrder self.now → offset ≡ offset_at self.now instant) }
    {
        utc_offset(self.kind_at(instant).offset)
    }

    /// Returns the offset at a Unix time in seconds by the changes of the table, without the rule.
    ///
    /// `None` says nothing about the offset; then call `utc_offset_at`. It comes only if all
    /// changes after the instant are changes of a rule.
    #[inline(always)]
    pub fn utc_offset_in_table(&self, instant: i64) -> Option<UtcOffset>
        ensures some { InOrder self.now
            → IfSome result (λ offset. offset ≡ offset_at self.now instant) }
        ensures none { InOrder self.now → IfNone result (IsByRule self.now instant) }
    {
        match self.count_in_table(instant) {
            Some(count) => utc_offset(self.after(count)),
            None => None,
        }
    }

    /// Returns the date-times at which clocks show a reading, a local date-time. `None` means that
    /// the changes are not in order.
    pub fn resolve(&self, reading: PlainDateTime) -> Option<Local>
        ensures none { IfNone result (¬ InOrder self.now) }
        ensures some { IfSome result (λ local. InOrder self.now → IsLocalOf self.now reading local) }
    {
        let seconds = reading_seconds(reading);
        match self.instants_of(seconds) {
            Instants::Single(instant) => Some(Local::Single(shown_at(reading, seconds, instant)?)),
            Instants::Gap { at, before, after } => Some(Local::Gap(Gap {
                reading,
                at,
                before: utc_offset(before)?,
                after: utc_offset(after)?,
            })),
            Instants::Fold { earlier, later } => Some(Local::Fold {
                earlier: shown_at(reading, seconds, earlier)?,
                later: shown_at(reading, seconds, later)?,
            }),
        }
    }
}

impl<'a> Zone<'a> {
    /// Returns the offset at a Unix time in seconds. In Berlin it is +02:00:00 at 1711846800,
    /// 2024-03-31 1:00 UTC.
    pub fn utc_offset_at(&self, instant: i64) -> UtcOffset
        ensures { result ≡ offset_at self.now instant }
    {
        match self.unchecked.utc_offset_at(instant) {
            Some(offset) => offset,
            None => unreachable!(),
        }
    }

    /// Returns the date-time that clocks show at a Unix time in seconds, or `None` if it is out of
    /// range. In Berlin it is 2024-03-31 3:00 +02:00:00 at 1711846800.
    pub fn to_offset_date_time(&self, instant: i64) -> Option<OffsetDateTime>
        ensures { let offset = offset_at self.now instant
            in let local = unix_epoch +ℤ (instant +ℤ offset) *ℤ pos second
            in SomeIff result (IsDateTime local) (record { local = local; offset = offset }) }
    {
        let offset = self.utc_offset_at(instant);
        Some(local_date_time(instant, offset)?.assume_offset(offset))
    }

    /// Returns the date-times at which clocks show a reading, a local date-time: exactly those
    /// whose offset is the zone's at their own instant. In Berlin 2024-03-31 2:30 is in a gap, and
    /// 2024-10-27 2:30 is in a fold.
    pub fn resolve(&self, reading: PlainDateTime) -> Local
        ensures set { (m : LocalAndOffset) → NamesMoment result m ↔ Shows self.now reading m }
        ensures explained { IsLocal self.now reading result }
    {
        match self.unchecked.resolve(reading) {
            Some(local) => local,
            None => unreachable!(),
        }
    }
}
