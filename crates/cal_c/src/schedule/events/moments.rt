//! The moments of an event in a time zone.
ghost use Rattle.std.specs.Prelude.{◌≡◌, MatchResult, Result};
ghost use Rattle.cal_ics.specs.EventSet.{IsEventSet};
ghost use Rattle.cal_recurrence.specs.declared.set_fault.ParseSetError.{ParseSetError};
ghost use Rattle.cal_recurrence.specs.declared.set_parts.SetParts.{SetParts};
ghost use Rattle.cal_c.specs.Events.{event_parse_error, AreEventMoments};

use super::results::EventSetResult;
use crate::moment::valid_moment;
use crate::results::Moment;
use crate::schedule::recurrences::moments::{write_moments, zone_of};
use crate::status::{INVALID_MOMENT, INVALID_ZONE};
use crate::zones::checked_zone::CheckedZone;
use cal_ics::parse_event_set;

/// Writes the moments of an event with a local `DTSTART` in a time zone, after a moment, in
/// ascending order, each once, as many as fit in the array. Returns their number. The rest of the
/// array stays as it is.
///
/// A call reads the bytes of the zone again. For `DTSTART:20240330T023000` and
/// `RRULE:FREQ=DAILY;COUNT=2` in Berlin, 2024-03-31 3:30 +02:00 comes after 2024-03-31 0:00 UTC.
#[unsafe(no_mangle)]
pub extern "C" fn fots_event_moments(
    lines: &[u8],
    zone: &CheckedZone<'_>,
    after: Moment,
    moments: &mut [Moment],
) -> EventSetResult
    ensures { (found : Result SetParts ParseSetError) × (IsEventSet lines.now found
        × MatchResult found
        (λ its. AreEventMoments its zone.now.bytes.now after moments.old moments.new result)
        (λ error. (result ≡ event_parse_error error) × (moments.new ≡ moments.old))) }
{
    let its = or_return!(parse_event_set(lines), error => EventSetResult::parse_error(error));
    let after = or_error!(EventSetResult, valid_moment(after), INVALID_MOMENT);
    let zone = or_error!(EventSetResult, zone_of(zone.bytes), INVALID_ZONE);
    let its = or_return!(its.instants(), line => EventSetResult::line_error(line));
    let mut set = its.set(&zone);
    EventSetResult::ok(write_moments(&mut set, after, moments))
}
