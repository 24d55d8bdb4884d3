//! Pages of recurrences in text, which go on from a cursor.
ghost use Rattle.std.specs.Prelude.{◌≡◌, Err, Ok};
ghost use Rattle.cal_datetime.specs.OffsetDateTime.{instant};
ghost use Rattle.cal_recurrence.specs.Days.{last_of};
ghost use Rattle.cal_recurrence.specs.Text.{day_recurrence_of, recurrence_of};
ghost use Rattle.cal_recurrence.specs.declared.fault.ParseRuleError.{ParseRuleError};
ghost use Rattle.cal_recurrence.specs.declared.recurrence.Recurrence.{Recurrence};
ghost use Rattle.cal_schedule.specs.Pattern.{rule_of};
ghost use Rattle.cal_zone.specs.Timeline.{Timeline};
ghost use Rattle.cal_c.specs.Moments.{IsMoment, local_and_offset_in, local_in};
ghost use Rattle.cal_c.specs.RecurrenceCursors.{IsMomentsPage, IsPage, IsReadingsPage};
ghost use Rattle.cal_c.specs.RecurrenceTexts.{recurrence_ok, recurrence_error, recurrence_parse_error};
ghost use Rattle.cal_c.specs.TextSets.{readings_in, AreFew, AreValid, IsZoneOf};
ghost use Rattle.cal_c.specs.Values.{IsJulianDay, day_of};
ghost use Rattle.cal_c.specs.declared.schedule.recurrences.text_set.TextSet.{TextSet};
ghost use Rattle.cal_c.specs.declared.status.TheConstants.{TOO_MANY_DATES};

use super::cursor::RecurrenceCursor;
use super::days::write_page;
use super::moments::{write_moments, zone_of};
use super::readings::write_from;
use super::results::RecurrenceResult;
use super::text_set::{SetReadings, TextSet};
use crate::moment::valid_moment;
use crate::results::Moment;
use crate::status::{INVALID_DATE, INVALID_MOMENT, INVALID_ZONE};
use crate::values::valid_date;
use crate::zones::checked_zone::CheckedZone;
use cal_datetime::{OffsetDateTime, PlainDateTime};
use cal_recurrence::{Recurrence, parse, parse_days};
use cal_time::Date;
use cal_zone::Zone;

/// Writes the days that a cursor leaves of a recurrence in text with this start, from the date
/// `from` on, in ascending order, as many as fit in the array. Returns their number, and counts them
/// and the days before `from`. The rest of the array stays as it is.
///
/// For `FREQ=MONTHLY;BYDAY=-1FR;COUNT=3` with the start 2460311, 2024-01-01, the first page of two
/// days has 2460336 and 2460364, and the second one has 2460399.
#[unsafe(no_mangle)]
pub extern "C" fn fots_recurrence_next_days(
    text: &[u8],
    start: i32,
    from: i32,
    cursor: &mut RecurrenceCursor,
    days: &mut [i32],
) -> RecurrenceResult
    ensures error { (fault : ParseRuleError) → day_recurrence_of text.now ≡ Err fault
        → (result ≡ recurrence_parse_error fault) × (cursor.new ≡ cursor.old) × (days.new ≡ days.old) }
    ensures invalid_date { (its : Recurrence) → day_recurrence_of text.now ≡ Ok its
        → ¬ (IsJulianDay start × IsJulianDay from)
        → (result ≡ recurrence_error INVALID_DATE) × (cursor.new ≡ cursor.old) × (days.new ≡ days.old) }
    ensures value { (its : Recurrence) → day_recurrence_of text.now ≡ Ok its
        → IsJulianDay start → IsJulianDay from
        → (result ≡ recurrence_ok result.length)
        × IsPage (rule_of its.pattern (day_of start) (last_of its.end)) (day_of from)
        cursor.old cursor.new days.old days.new result.length }
{
    let recurrence = or_return!(parse_days(text), fault => RecurrenceResult::parse_error(fault));
    let (Some(start), Some(from)) = (valid_date(start), valid_date(from)) else {
        return RecurrenceResult::error(INVALID_DATE);
    };
    RecurrenceResult::ok(write_days_page(&recurrence, start, from, cursor, days))
}

/// Writes the days that a cursor leaves of a recurrence, as many as fit, and returns their number.
fn write_days_page(
    recurrence: &Recurrence,
    start: Date,
    from: Date,
    cursor: &mut RecurrenceCursor,
    days: &mut [i32],
) -> usize
    ensures { IsPage (rule_of recurrence.now.pattern start (last_of recurrence.now.end)) from
        cursor.old cursor.new days.old days.new result }
{
    let mut counted = cursor.days();
    let length = write_page(&mut counted, &recurrence.rule(start), from, days);
    *cursor = RecurrenceCursor::from_days(counted);
    length
}

/// Writes the readings of a recurrence in text with times of day like `fots_recurrence_readings`,
/// whose `COUNT` is counted up to a cursor. The cursor then says how far it is counted.
///
/// For `FREQ=DAILY;BYHOUR=9,17;COUNT=3` with the start 1997-09-02 9:00, the first page of two
/// readings from the start on has 9:00 and 17:00 on this day. From 17:00:01 on, 9:00 on the next day
/// is the second page.
#[unsafe(no_mangle)]
pub extern "C" fn fots_recurrence_next_readings(
    set: &TextSet<'_>,
    from: Moment,
    cursor: &mut RecurrenceCursor,
    readings: &mut [Moment],
) -> RecurrenceResult
    ensures error { (fault : ParseRuleError) → recurrence_of set.now.text.now ≡ Err fault
        → (result ≡ recurrence_parse_error fault) × (cursor.new ≡ cursor.old) × (readings.new ≡ readings.old) }
    ensures too_many_dates { (its : Recurrence) → recurrence_of set.now.text.now ≡ Ok its → ¬ AreFew set.now
        → (result ≡ recurrence_error TOO_MANY_DATES) × (cursor.new ≡ cursor.old) × (readings.new ≡ readings.old) }
    ensures invalid_moment { (its : Recurrence) → recurrence_of set.now.text.now ≡ Ok its → AreFew set.now
        → ¬ (AreValid set.now × IsMoment from)
        → (result ≡ recurrence_error INVALID_MOMENT) × (cursor.new ≡ cursor.old) × (readings.new ≡ readings.old) }
    ensures value { (its : Recurrence) → recurrence_of set.now.text.now ≡ Ok its → AreFew set.now
        → AreValid set.now → IsMoment from
        → (result ≡ recurrence_ok result.length)
        × IsReadingsPage its set.now (local_in from) cursor.old cursor.new readings.old readings.new result.length }
{
    let recurrence = or_return!(parse(set.text), fault => RecurrenceResult::parse_error(fault));
    let its = or_return!(SetReadings::from_parts(set), status => RecurrenceResult::error(status));
    let from = or_error!(RecurrenceResult, valid_moment(from), INVALID_MOMENT);
    let from = from.local();
    RecurrenceResult::ok(write_readings_page(&its, &recurrence, from, cursor, readings))
}

/// Writes the readings of a recurrence from a reading on, as many as fit, and returns their number.
fn write_readings_page(
    its: &SetReadings,
    recurrence: &Recurrence,
    from: PlainDateTime,
    cursor: &mut RecurrenceCursor,
    readings: &mut [Moment],
) -> usize
    ensures { (p : TextSet) → its.now.start ≡ local_in p.start → its.now.dates ≡ readings_in p.dates.now
        → its.now.exceptions ≡ readings_in p.exceptions.now
        → IsReadingsPage recurrence.now p from cursor.old cursor.new readings.old readings.new result }
{
    let (dates, exceptions) = (its.dates.as_slice(), its.exceptions.as_slice());
    let mut set = recurrence.counted_set_at(its.start, cursor.readings(), dates, exceptions);
    let length = write_from(&mut set, from, readings);
    *cursor = RecurrenceCursor::from_readings(set.cursor());
    length
}

/// Writes the moments of a recurrence in text in a time zone like `fots_recurrence_moments`, whose
/// `COUNT` is counted up to a cursor. The cursor then says how far it is counted.
///
/// For `FREQ=DAILY;COUNT=3` from 2024-03-30 2:30 in Berlin, the second page of one moment after
/// 2024-03-30 2:30 +01:00 has 2024-03-31 3:30 +02:00.
#[unsafe(no_mangle)]
pub extern "C" fn fots_recurrence_next_moments(
    set: &TextSet<'_>,
    zone: &CheckedZone<'_>,
    after: Moment,
    cursor: &mut RecurrenceCursor,
    moments: &mut [Moment],
) -> RecurrenceResult
    ensures error { (fault : ParseRuleError) → recurrence_of set.now.text.now ≡ Err fault
        → (result ≡ recurrence_parse_error fault) × (cursor.new ≡ cursor.old) × (moments.new ≡ moments.old) }
    ensures too_many_dates { (its : Recurrence) → recurrence_of set.now.text.now ≡ Ok its → ¬ AreFew set.now
        → (result ≡ recurrence_error TOO_MANY_DATES) × (cursor.new ≡ cursor.old) × (moments.new ≡ moments.old) }
    ensures invalid_moment { (its : Recurrence) → recurrence_of set.now.text.now ≡ Ok its → AreFew set.now
        → ¬ (AreValid set.now × IsMoment after)
        → (result ≡ recurrence_error INVALID_MOMENT) × (cursor.new ≡ cursor.old) × (moments.new ≡ moments.old) }
    ensures invalid_zone { (its : Recurrence) → recurrence_of set.now.text.now ≡ Ok its → AreFew set.now
        → AreValid set.now → IsMoment after → ((z : Timeline) → ¬ IsZoneOf zone.now.bytes.now z)
        → (result ≡ recurrence_error INVALID_ZONE) × (cursor.new ≡ cursor.old) × (moments.new ≡ moments.old) }
    ensures value { (its : Recurrence) → recurrence_of set.now.text.now ≡ Ok its → AreFew set.now
        → AreValid set.now → IsMoment after → (z : Timeline) → IsZoneOf zone.now.bytes.now z
        → (result ≡ recurrence_ok result.length)
        × IsMomentsPage its set.now z (instant (local_and_offset_in after))
        cursor.old cursor.new moments.old moments.new result.length }
{
    let recurrence = or_return!(parse(set.text), fault => RecurrenceResult::parse_error(fault));
    let its = or_return!(SetReadings::from_parts(set), status => RecurrenceResult::error(status));
    let after = or_error!(RecurrenceResult, valid_moment(after), INVALID_MOMENT);
    let zone = or_error!(RecurrenceResult, zone_of(zone.bytes), INVALID_ZONE);
    let count = write_moments_page(&its, &recurrence, &zone, after, cursor, moments);
    RecurrenceResult::ok(count)
}

/// Writes the moments of a recurrence in a zone after a moment, as many as fit, and returns their
/// number.
fn write_moments_page<'a>(
    its: &'a SetReadings,
    recurrence: &Recurrence,
    zone: &'a Zone<'a>,
    after: OffsetDateTime,
    cursor: &mut RecurrenceCursor,
    moments: &mut [Moment],
) -> usize
    ensures { (p : TextSet) → its.now.start ≡ local_in p.start → its.now.dates ≡ readings_in p.dates.now
        → its.now.exceptions ≡ readings_in p.exceptions.now
        → IsMomentsPage recurrence.now p zone.now (instant after) cursor.old cursor.new moments.old moments.new result }
{
    let (dates, exceptions) = (its.dates.as_slice(), its.exceptions.as_slice());
    let mut set = recurrence.zoned_set_at(its.start, cursor.readings(), dates, exceptions, zone);
    let length = write_moments(&mut set, after, moments);
    *cursor = RecurrenceCursor::from_readings(set.cursor());
    length
}
