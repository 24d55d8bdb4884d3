//! The lines of the set of an event, in one form.
ghost use Rattle.std.specs.Prelude.{◌≡◌, MatchResult, Result};
ghost use Rattle.cal_ics.specs.EventSet.{IsEventSet};
ghost use Rattle.cal_recurrence.specs.SetWritten.{set_text};
ghost use Rattle.cal_recurrence.specs.declared.set_fault.ParseSetError.{ParseSetError};
ghost use Rattle.cal_recurrence.specs.declared.set_parts.SetParts.{SetParts};
ghost use Rattle.cal_c.specs.Events.{event_parse_error, IsSetTextWritten};

use super::results::EventSetResult;
use crate::status::BUFFER_TOO_SHORT;
use cal_ics::parse_event_set;

/// Writes the lines of the set of an event: `DTSTART`, `RRULE`, `RDATE`, `EXDATE`, with their values
/// in one form. Returns the number of bytes. Fails if the buffer is too short; then its bytes can be
/// anything. `dtstart:20240101` becomes `DTSTART;VALUE=DATE:20240101` and `RRULE:FREQ=DAILY;COUNT=1`,
/// each with CR LF, of 55 bytes.
#[unsafe(no_mangle)]
pub extern "C" fn fots_event_recurrence_lines(lines: &[u8], bytes: &mut [u8]) -> EventSetResult
    ensures { (found : Result SetParts ParseSetError) × (IsEventSet lines.now found
        × MatchResult found (λ its. IsSetTextWritten (set_text its) bytes.old bytes.new result)
        (λ error. (result ≡ event_parse_error error) × (bytes.new ≡ bytes.old))) }
{
    let its = or_return!(parse_event_set(lines), error => EventSetResult::parse_error(error));
    match its.print(bytes) {
        Some(length) => EventSetResult::ok(length),
        None => EventSetResult::error(BUFFER_TOO_SHORT),
    }
}
