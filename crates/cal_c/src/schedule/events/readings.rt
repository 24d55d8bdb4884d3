//! The readings of an event.
ghost use Rattle.std.specs.Prelude.{◌≡◌, MatchResult, Result};
ghost use Rattle.cal_ics.specs.EventSet.{IsEventSet};
ghost use Rattle.cal_recurrence.specs.declared.set_fault.ParseSetError.{ParseSetError};
ghost use Rattle.cal_recurrence.specs.declared.set_parts.SetParts.{SetParts};
ghost use Rattle.cal_c.specs.Events.{event_parse_error, AreEventReadings};

use super::results::EventSetResult;
use crate::moment::valid_moment;
use crate::results::Moment;
use crate::schedule::recurrences::readings::write_readings;
use crate::status::INVALID_MOMENT;
use cal_ics::parse_event_set;

/// Writes the readings of an event from a reading on, in ascending order, as many as fit in the
/// array, as moments at the offset 0. Returns their number. The rest of the array stays as it is.
///
/// If `DTSTART` has a `Z`, they are readings of UTC. For `DTSTART:20240101T090000` and
/// `RRULE:FREQ=DAILY;COUNT=2`, they are 9:00 on 2460311 and 2460312.
#[unsafe(no_mangle)]
pub extern "C" fn fots_event_readings(
    lines: &[u8],
    from: Moment,
    readings: &mut [Moment],
) -> EventSetResult
    ensures { (found : Result SetParts ParseSetError) × (IsEventSet lines.now found
        × MatchResult found (λ its. AreEventReadings its from readings.old readings.new result)
        (λ error. (result ≡ event_parse_error error) × (readings.new ≡ readings.old))) }
{
    let its = or_return!(parse_event_set(lines), error => EventSetResult::parse_error(error));
    let from = or_error!(EventSetResult, valid_moment(from), INVALID_MOMENT);
    let its = or_return!(its.readings(), line => EventSetResult::line_error(line));
    EventSetResult::ok(write_readings(its.set().readings_from(from.local()), readings))
}
