//! The offsets of a zone near an instant, and the readings at which a search in the zone begins and
//! ends.
ghost use Rattle.std.specs.Prelude.{◌≡◌, ℤ, true, pos, ◌-ℤ◌};
ghost use Rattle.cal_datetime.specs.OffsetDateTime.{instant, unix_seconds};
ghost use Rattle.cal_zone.specs.Timeline.{Timeline};
ghost use Rattle.cal_recurrence.specs.OffsetRange.{IsMax, IsMin, IsNear, IsRange, IsSecond, IsSettled, IsStart, IsStep};

use crate::reach::{MAX_OFFSET, earliest_reading, utc_offset};
use cal_datetime::{OffsetDateTime, PlainDateTime};
use cal_zone::Zone;

/// More than the maximum difference of two offsets, in seconds.
const NEAR: i64 = 187_200;

/// How far readings are ahead of an instant, in seconds.
#[derive(Clone, Copy)]
struct OffsetRange {
    /// Readings that mean the instant or a later one are ahead of it by this offset or more.
    min: i32,
    /// Readings that mean an earlier instant are ahead of it by less than this offset.
    max: i32,
}

/// Returns the offset before or after the only change near a Unix time. Readings that mean an
/// instant from this time on are ahead of it by this offset or more.
fn min_offset(seconds: i64, change: i64, before: i32, after: i32) -> i32
    requires seconds { IsSecond seconds }
    requires change { IsNear seconds change }
    ensures { (zone : Timeline) (x : ℤ) → unix_seconds x ≡ seconds
        → IsStep zone seconds change before after → IsMin zone x result }
{
    if seconds + i64::from(before) < change + i64::from(after) {
        before
    } else {
        after
    }
}

/// Returns the offset before or after the only change near a Unix time. Readings that mean an
/// earlier instant are ahead of it by less than this offset.
fn max_offset(seconds: i64, change: i64, before: i32, after: i32) -> i32
    requires seconds { IsSecond seconds }
    requires change { IsNear seconds change }
    ensures { (zone : Timeline) (x : ℤ) → unix_seconds x ≡ seconds
        → IsStep zone seconds change before after → IsMax zone x result }
{
    if seconds + i64::from(after) < change + i64::from(before) {
        before
    } else {
        after
    }
}

/// Returns the Unix time of a moment, in seconds.
fn timestamp(moment: OffsetDateTime) -> i64
    ensures value { result ≡ unix_seconds (instant moment) }
    ensures range { IsSecond result }
{
    // These calls state that the parts are in range. They cost nothing.
    let _ = moment.local();
    let _ = moment.offset();
    moment.unix_timestamp()
}

/// Returns the range of the offsets near a moment in a zone. If the zone changes twice there, it is
/// the range of all offsets.
fn offsets_near(zone: &Zone<'_>, moment: OffsetDateTime) -> OffsetRange
    ensures { IsRange zone.now (instant moment) result }
{
    let seconds = timestamp(moment);
    let last = seconds + NEAR;
    let spans = zone.as_unchecked();
    let early = spans.span_at(seconds - NEAR);
    if last <= early.last {
        return OffsetRange {
            min: early.offset,
            max: early.offset,
        };
    }
    let change = early.last + 1;
    let late = spans.span_at(change);
    if last <= late.last {
        return OffsetRange {
            min: min_offset(seconds, change, early.offset, late.offset),
            max: max_offset(seconds, change, early.offset, late.offset),
        };
    }
    OffsetRange {
        min: -MAX_OFFSET,
        max: MAX_OFFSET,
    }
}

/// Returns a reading before which no reading means an instant or a later one in a zone.
pub(crate) fn earliest_in(zone: &Zone<'_>, moment: OffsetDateTime) -> PlainDateTime
    ensures { IsStart zone.now (instant moment -ℤ pos 1) result }
{
    let offsets = offsets_near(zone, moment);
    match moment.checked_to_offset(utc_offset(offsets.min)) {
        Some(there) => there.local(),
        None => earliest_reading(moment),
    }
}

/// Returns `true` if a reading and the later ones mean no instants before a moment. Without a
/// moment it returns `false`.
pub(crate) fn is_settled(
    zone: &Zone<'_>,
    moment: &Option<OffsetDateTime>,
    reading: PlainDateTime,
) -> bool
    ensures { result ≡ true → IsSettled zone.now moment.now reading }
{
    match *moment {
        Some(one) => {
            let offsets = offsets_near(zone, one);
            one <= reading.assume_offset(utc_offset(offsets.max))
        }
        None => false,
    }
}
