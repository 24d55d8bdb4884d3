//! The days of an event.
ghost use Rattle.std.specs.Prelude.{◌≡◌, MatchResult, Result};
ghost use Rattle.cal_ics.specs.EventSet.{IsEventSet};
ghost use Rattle.cal_recurrence.specs.declared.set_fault.ParseSetError.{ParseSetError};
ghost use Rattle.cal_recurrence.specs.declared.set_parts.SetParts.{SetParts};
ghost use Rattle.cal_c.specs.Events.{event_parse_error, AreEventDays};

use super::results::EventSetResult;
use crate::schedule::recurrences::write_walk;
use crate::status::INVALID_DATE;
use crate::values::valid_date;
use cal_ics::parse_event_set;

/// Writes the days of an event from a date on, in ascending order, as many as fit in the array.
/// Returns their number. The rest of the array stays as it is. For `DTSTART:20240101` and
/// `RRULE:FREQ=DAILY;COUNT=3`, the days from 2460312 on are 2460312 and 2460313.
#[unsafe(no_mangle)]
pub extern "C" fn fots_event_days(lines: &[u8], from: i32, days: &mut [i32]) -> EventSetResult
    ensures { (found : Result SetParts ParseSetError) × (IsEventSet lines.now found
        × MatchResult found (λ its. AreEventDays its from days.old days.new result)
        (λ error. (result ≡ event_parse_error error) × (days.new ≡ days.old))) }
{
    let its = or_return!(parse_event_set(lines), error => EventSetResult::parse_error(error));
    let from = or_error!(EventSetResult, valid_date(from), INVALID_DATE);
    let its = or_return!(its.days(), line => EventSetResult::line_error(line));
    EventSetResult::ok(write_walk(its.set().days_from(from), days))
}
