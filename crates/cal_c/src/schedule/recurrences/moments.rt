//! The moments of recurrences in text, in a time zone.
ghost use Rattle.std.specs.Prelude.{◌≡◌, Err, IfSome, Ok, Some};
ghost use Rattle.cal_recurrence.specs.Text.{recurrence_of};
ghost use Rattle.cal_recurrence.specs.declared.fault.ParseRuleError.{ParseRuleError};
ghost use Rattle.cal_recurrence.specs.declared.recurrence.Recurrence.{Recurrence};
ghost use Rattle.cal_recurrence.specs.declared.zoned_set.ZonedSet.{ZonedSet};
ghost use Rattle.cal_datetime.specs.OffsetDateTime.{instant};
ghost use Rattle.cal_zone.specs.Timeline.{Timeline};
ghost use Rattle.cal_c.specs.Moments.{IsMoment, local_and_offset_in, local_in};
ghost use Rattle.cal_c.specs.RecurrenceTexts.{recurrence_ok, recurrence_error, recurrence_parse_error};
ghost use Rattle.cal_c.specs.declared.schedule.recurrences.text_set.TextSet.{TextSet};
ghost use Rattle.cal_c.specs.TextSets.{readings_in, AreFew, AreMomentsWritten, AreValid, IsZoneOf, IsZonedSetOf};
ghost use Rattle.cal_c.specs.declared.status.TheConstants.{TOO_MANY_DATES};

use super::results::RecurrenceResult;
use super::text_set::{SetReadings, TextSet};
use crate::moment::valid_moment;
use crate::results::{Moment, MomentResult};
use crate::status::{INVALID_MOMENT, INVALID_ZONE};
use crate::zones::checked_zone::CheckedZone;
use cal_datetime::OffsetDateTime;
use cal_recurrence::{CountedZonedSet, Recurrence, parse};
use cal_zone::Zone;

/// Writes the moments of a recurrence in text with times of day in a time zone, after a moment, in
/// ascending order, each once, as many as fit in the array. Returns their number. The rest of the
/// array stays as it is.
///
/// A reading that the clocks skip is taken at the offset before the gap, and one that they show
/// twice is the earlier one. A call reads the bytes of the zone again. For `FREQ=DAILY` from
/// 2024-03-30 2:30 in Berlin, 2024-03-31 3:30 +02:00 comes after 2024-03-31 0:00 UTC.
#[unsafe(no_mangle)]
pub extern "C" fn fots_recurrence_moments(
    set: &TextSet<'_>,
    zone: &CheckedZone<'_>,
    after: Moment,
    moments: &mut [Moment],
) -> RecurrenceResult
    ensures error { (fault : ParseRuleError) → recurrence_of set.now.text.now ≡ Err fault
        → (result ≡ recurrence_parse_error fault) × (moments.new ≡ moments.old) }
    ensures too_many_dates { (its : Recurrence) → recurrence_of set.now.text.now ≡ Ok its → ¬ AreFew set.now
        → (result ≡ recurrence_error TOO_MANY_DATES) × (moments.new ≡ moments.old) }
    ensures invalid_moment { (its : Recurrence) → recurrence_of set.now.text.now ≡ Ok its → AreFew set.now
        → ¬ (AreValid set.now × IsMoment after)
        → (result ≡ recurrence_error INVALID_MOMENT) × (moments.new ≡ moments.old) }
    ensures invalid_zone { (its : Recurrence) → recurrence_of set.now.text.now ≡ Ok its → AreFew set.now
        → AreValid set.now → IsMoment after → ((z : Timeline) → ¬ IsZoneOf zone.now.bytes.now z)
        → (result ≡ recurrence_error INVALID_ZONE) × (moments.new ≡ moments.old) }
    ensures value { (its : Recurrence) → recurrence_of set.now.text.now ≡ Ok its → AreFew set.now
        → AreValid set.now → IsMoment after → (z : Timeline) → IsZoneOf zone.now.bytes.now z
        → (result ≡ recurrence_ok result.length) × ((zoned : ZonedSet) × IsZonedSetOf its set.now z zoned
        × AreMomentsWritten zoned (instant (local_and_offset_in after)) moments.old moments.new result.length) }
{
    let recurrence = or_return!(parse(set.text), fault => RecurrenceResult::parse_error(fault));
    let its = or_return!(SetReadings::from_parts(set), status => RecurrenceResult::error(status));
    let after = or_error!(RecurrenceResult, valid_moment(after), INVALID_MOMENT);
    let zone = or_error!(RecurrenceResult, zone_of(zone.bytes), INVALID_ZONE);
    RecurrenceResult::ok(write_in_zone(&its, &recurrence, &zone, after, moments))
}

/// Writes the moments of a recurrence with these readings in a zone after a moment, as many as fit,
/// and returns their number.
fn write_in_zone<'a>(
    its: &'a SetReadings,
    recurrence: &Recurrence,
    zone: &'a Zone<'a>,
    after: OffsetDateTime,
    moments: &mut [Moment],
) -> usize
    ensures { (p : TextSet) → its.now.start ≡ local_in p.start → its.now.dates ≡ readings_in p.dates.now
        → its.now.exceptions ≡ readings_in p.exceptions.now
        → (zoned : ZonedSet) × IsZonedSetOf recurrence.now p zone.now zoned
        × AreMomentsWritten zoned (instant after) moments.old moments.new result }
{
    let (dates, exceptions) = (its.dates.as_slice(), its.exceptions.as_slice());
    let mut set = recurrence.zoned_set(its.start, dates, exceptions, zone);
    write_moments(&mut set, after, moments)
}

/// Returns the zone of the bytes of a file, or else of a POSIX text.
pub(crate) fn zone_of(bytes: &[u8]) -> Option<Zone<'_>>
    ensures some { IfSome result (IsZoneOf bytes.now) }
    ensures every { (z : Timeline) → IsZoneOf bytes.now z → result ≡ Some z }
{
    match cal_tzif::parse(bytes) {
        Ok(zone) => Some(zone),
        Err(_) => match cal_tzif::parse_posix(bytes) {
            Ok(zone) => Some(zone),
            Err(_) => None,
        },
    }
}

/// Returns the numbers of a moment.
fn c_moment(moment: OffsetDateTime) -> Moment
    ensures valid { IsMoment result }
    ensures value { local_and_offset_in result ≡ moment }
{
    // These calls state that the parts are in range. They cost nothing.
    let _ = moment.date();
    let _ = moment.time();
    let _ = moment.offset();
    MomentResult::ok(moment).moment
}

/// Writes the moments of a set after a moment, as many as fit, and returns their number.
pub(crate) fn write_moments(
    set: &mut CountedZonedSet<'_>,
    after: OffsetDateTime,
    moments: &mut [Moment],
) -> usize
    ensures written { AreMomentsWritten set.old (instant after) moments.old moments.new result }
    ensures same { set.new ≡ set.old }
{
    let mut last = after;
    for index in 0..moments.len() {
        let Some(moment) = set.next_after(last) else {
            return index;
        };
        moments[index] = c_moment(moment);
        last = moment;
    }
    moments.len()
}
