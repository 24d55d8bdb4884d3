//! Results of the calls for zones.
ghost use Rattle.std.specs.Prelude.{◌≡◌, ℤ, ◌-ℤ◌};
ghost use Rattle.cal_zone.specs.Instants.{Names};
ghost use Rattle.cal_zone.specs.Timeline.{IsMoment, IsOffset};
ghost use Rattle.cal_c.specs.Zones.{gap_ok, instants_ok, local_error, local_ok, local_type_error, local_type_ok};

use crate::status::OK;
use crate::zones::checked_zone::CheckedParts;
use cal_zone::{Instants, LocalType};

/// The parts that a call found in the bytes of a zone, or the first error of the bytes.
#[repr(C)]
#[derive(Clone, Copy, Debug)]
pub struct PartsResult {
    pub status: i32,
    /// 0, in place of padding.
    pub unused: u32,
    /// The position of the first wrong byte, from 0, or the length of bytes that end too early.
    pub position: usize,
    pub parts: CheckedParts,
}

/// How clocks are set.
#[repr(C)]
#[derive(Clone, Copy, Debug)]
pub struct LocalTypeResult {
    pub status: i32,
    pub offset: i32,
    /// 1 for daylight saving time, else 0.
    pub is_daylight: u32,
    /// 0, in place of padding.
    pub unused: u32,
    /// The position of the abbreviation in the bytes of the zone.
    pub abbreviation: usize,
    pub abbreviation_length: usize,
}

/// The instants of a reading, as Unix times, with the offsets of the clocks.
#[repr(C)]
#[derive(Clone, Copy, Debug)]
pub struct LocalResult {
    pub status: i32,
    /// 1 for one instant, 2 for a gap, 3 for a fold.
    pub kind: u32,
    pub earlier: i64,
    pub later: i64,
    pub earlier_offset: i32,
    pub later_offset: i32,
}

impl LocalTypeResult {
    /// Returns the result of a local time type, whose abbreviation is in the bytes of a zone.
    pub(super) fn ok(kind: LocalType, bytes: &[u8]) -> Self
        ensures { result ≡ local_type_ok bytes.now kind }
    {
        LocalTypeResult {
            status: OK,
            offset: kind.offset,
            is_daylight: u32::from(kind.is_daylight),
            unused: 0,
            abbreviation: kind.name_start,
            abbreviation_length: kind.abbreviation(bytes).len(),
        }
    }

    pub(super) fn error(status: i32) -> Self
        ensures { result ≡ local_type_error status }
    {
        LocalTypeResult {
            status,
            offset: i32::MIN,
            is_daylight: 0,
            unused: 0,
            abbreviation: usize::MAX,
            abbreviation_length: 0,
        }
    }
}

/// Returns the Unix time at which clocks at an offset show a reading, in seconds.
pub fn at_offset(reading: i64, offset: i32) -> i64
    requires { IsMoment reading }
    ensures { result ≡ reading -ℤ offset }
{
    reading - i64::from(offset)
}

/// Returns the offset with which clocks show a reading at an instant, or 0 if it is out of range.
fn offset_between(reading: i64, instant: i64) -> i32
    ensures { IsOffset (reading -ℤ instant) → result ≡ reading -ℤ instant }
{
    let difference = or_return!(reading.checked_sub(instant), 0);
    or_return!(i32::try_from(difference), _ => 0)
}

impl LocalResult {
    /// Returns the result of a reading in a gap.
    fn gap(reading: i64, before: i32, after: i32) -> Self
        requires { IsMoment reading }
        ensures { result ≡ gap_ok reading before after }
    {
        LocalResult {
            status: OK,
            kind: 2,
            earlier: at_offset(reading, after),
            later: at_offset(reading, before),
            earlier_offset: before,
            later_offset: after,
        }
    }

    /// Returns the result of two instants, or of one twice.
    pub(super) fn moments(kind: u32, reading: i64, earlier: i64, later: i64) -> Self
        ensures { IsOffset (reading -ℤ earlier) → IsOffset (reading -ℤ later)
            → result ≡ instants_ok kind reading earlier later }
    {
        LocalResult {
            status: OK,
            kind,
            earlier,
            later,
            earlier_offset: offset_between(reading, earlier),
            later_offset: offset_between(reading, later),
        }
    }

    /// Returns the result of a reading, in seconds, by its instants.
    pub(super) fn ok(reading: i64, instants: Instants) -> Self
        requires { IsMoment reading }
        ensures { ((i : ℤ) → Names instants i → IsOffset (reading -ℤ i))
            → result ≡ local_ok reading instants }
    {
        match instants {
            Instants::Single(instant) => LocalResult::moments(1, reading, instant, instant),
            Instants::Gap { before, after, .. } => LocalResult::gap(reading, before, after),
            Instants::Fold { earlier, later } => LocalResult::moments(3, reading, earlier, later),
        }
    }

    pub(super) fn error(status: i32) -> Self
        ensures { result ≡ local_error status }
    {
        LocalResult {
            status,
            kind: 0,
            earlier: i64::MIN,
            later: i64::MIN,
            earlier_offset: i32::MIN,
            later_offset: i32::MIN,
        }
    }
}
