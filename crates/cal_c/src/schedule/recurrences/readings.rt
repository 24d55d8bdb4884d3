//! The readings of recurrences in text, with times of day.
ghost use Rattle.std.specs.Prelude.{◌≡◌, Err, Ok};
ghost use Rattle.cal_recurrence.specs.DateTimeSet.{set_readings_from};
ghost use Rattle.cal_recurrence.specs.SetMeaning.{last_counted_reading};
ghost use Rattle.cal_recurrence.specs.Text.{recurrence_of};
ghost use Rattle.cal_recurrence.specs.declared.date_time_set.DateTimeSet.{DateTimeSet};
ghost use Rattle.cal_recurrence.specs.declared.fault.ParseRuleError.{ParseRuleError};
ghost use Rattle.cal_recurrence.specs.declared.recurrence.Recurrence.{Recurrence};
ghost use Rattle.cal_c.specs.Moments.{IsMoment, local_in};
ghost use Rattle.cal_c.specs.RecurrenceTexts.{recurrence_ok, recurrence_error, recurrence_parse_error};
ghost use Rattle.cal_c.specs.TextSets.{AreFew, AreReadingsWritten, AreValid, IsSetOf, utc_moment};
ghost use Rattle.cal_c.specs.declared.status.TheConstants.{TOO_MANY_DATES};

use super::results::RecurrenceResult;
use super::text_set::{SetReadings, TextSet};
use crate::moment::valid_moment;
use crate::results::Moment;
use crate::status::INVALID_MOMENT;
use crate::values::nanoseconds_since_midnight;
use cal_datetime::PlainDateTime;
use cal_recurrence::{CountedSet, DateTimeSetReadings, parse};

/// Writes the readings of a recurrence in text with times of day, from a reading on, in ascending
/// order, as many as fit in the array, as moments at the offset 0. Returns their number. The rest
/// of the array stays as it is.
///
/// An `UNTIL` that is a date includes its day, and one at UTC ends at its reading. For
/// `FREQ=DAILY;BYHOUR=9,17;COUNT=3` with the start 1997-09-02 9:00, the readings from 1997-09-02
/// 12:00 on are 17:00 on this day and 9:00 on the next one.
#[unsafe(no_mangle)]
pub extern "C" fn fots_recurrence_readings(
    set: &TextSet<'_>,
    from: Moment,
    readings: &mut [Moment],
) -> RecurrenceResult
    ensures error { (fault : ParseRuleError) → recurrence_of set.now.text.now ≡ Err fault
        → (result ≡ recurrence_parse_error fault) × (readings.new ≡ readings.old) }
    ensures too_many_dates { (its : Recurrence) → recurrence_of set.now.text.now ≡ Ok its → ¬ AreFew set.now
        → (result ≡ recurrence_error TOO_MANY_DATES) × (readings.new ≡ readings.old) }
    ensures invalid_moment { (its : Recurrence) → recurrence_of set.now.text.now ≡ Ok its → AreFew set.now
        → ¬ (AreValid set.now × IsMoment from)
        → (result ≡ recurrence_error INVALID_MOMENT) × (readings.new ≡ readings.old) }
    ensures value { (its : Recurrence) → recurrence_of set.now.text.now ≡ Ok its → AreFew set.now
        → AreValid set.now → IsMoment from
        → (result ≡ recurrence_ok result.length) × ((readings_set : DateTimeSet)
        × IsSetOf its set.now (last_counted_reading its (local_in set.now.start)) readings_set
        × AreReadingsWritten (set_readings_from readings_set (local_in from)) readings.old readings.new result.length) }
{
    let recurrence = or_return!(parse(set.text), fault => RecurrenceResult::parse_error(fault));
    let its = or_return!(SetReadings::from_parts(set), status => RecurrenceResult::error(status));
    let from = or_error!(RecurrenceResult, valid_moment(from), INVALID_MOMENT);
    let (dates, exceptions) = (its.dates.as_slice(), its.exceptions.as_slice());
    let set = recurrence.counted_set(its.start, dates, exceptions);
    RecurrenceResult::ok(write_readings(set.readings_from(from.local()), readings))
}

/// Returns a reading as a moment at the offset 0.
pub(super) fn utc_moment(reading: PlainDateTime) -> Moment
    ensures { result ≡ utc_moment reading }
{
    Moment {
        date: reading.date().to_julian_day(),
        offset: 0,
        time: nanoseconds_since_midnight(reading.time()),
    }
}

/// Writes the readings of an iterator, as many as fit, and returns their number.
pub(crate) fn write_readings(mut walk: DateTimeSetReadings<'_>, readings: &mut [Moment]) -> usize
    ensures { AreReadingsWritten walk.entry readings.old readings.new result }
{
    for index in 0..readings.len() {
        let Some(reading) = walk.next() else {
            return index;
        };
        readings[index] = utc_moment(reading);
    }
    readings.len()
}

/// Writes the readings of a set from a reading on, as many as fit, and returns their number.
pub(super) fn write_from(
    set: &mut CountedSet<'_>,
    from: PlainDateTime,
    readings: &mut [Moment],
) -> usize
    ensures written { AreReadingsWritten (set_readings_from set.old from) readings.old readings.new result }
    ensures same { set.new ≡ set.old }
{
    let mut next = set.first_from(from);
    for index in 0..readings.len() {
        let Some(reading) = next else {
            return index;
        };
        readings[index] = utc_moment(reading);
        next = set.next_after(reading);
    }
    readings.len()
}
