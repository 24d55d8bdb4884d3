//! Values of the lines of an event.
ghost use Rattle.std.specs.Prelude.{◌≡◌, MatchOption, Result, MatchResult, slice_get};
ghost use Rattle.cal_ics.specs.EventSet.{values_named, IsEventSet};
ghost use Rattle.cal_recurrence.specs.declared.set_fault.ParseSetError.{ParseSetError};
ghost use Rattle.cal_recurrence.specs.declared.set_parts.SetParts.{SetParts};
ghost use Rattle.cal_c.specs.Events.{set_error_status};
ghost use Rattle.cal_c.specs.FormatTexts.{length_error, IsUnprinted, IsWritten};
ghost use Rattle.cal_c.specs.declared.status.TheConstants.{RESULT_OUT_OF_RANGE};

use super::results::set_error_status;
use crate::formats::printing::write;
use crate::formats::results::LengthResult;
use crate::status::RESULT_OUT_OF_RANGE;
use cal_ics::{first_value, parse_event_set};

/// Writes the value of the first line of an event with this name, in any case. Fails without such a
/// line. For `SUMMARY;LANGUAGE=en:Meeting`, the value of `summary` is `Meeting`.
#[unsafe(no_mangle)]
pub extern "C" fn fots_event_value(lines: &[u8], name: &[u8], bytes: &mut [u8]) -> LengthResult
    ensures { MatchOption (slice_get (values_named name.now lines.now) 0)
        (IsUnprinted bytes.old bytes.new result (length_error RESULT_OUT_OF_RANGE))
        (λ value. IsWritten value bytes.old bytes.new result) }
{
    match first_value(lines, name) {
        Some(value) => write(value, Some(value.len()), bytes),
        None => LengthResult::error(RESULT_OUT_OF_RANGE),
    }
}

/// Writes the name of the zone of an event (`TZID`). Fails if no line of its set names a zone. For
/// `DTSTART;TZID=Europe/Berlin:20240101T090000`, it is `Europe/Berlin`.
#[unsafe(no_mangle)]
pub extern "C" fn fots_event_zone(lines: &[u8], bytes: &mut [u8]) -> LengthResult
    ensures { (found : Result SetParts ParseSetError) × (IsEventSet lines.now found
        × MatchResult found
        (λ its. MatchOption its.zone
        (IsUnprinted bytes.old bytes.new result (length_error RESULT_OUT_OF_RANGE))
        (λ name. IsWritten name bytes.old bytes.new result))
        (λ error. IsUnprinted bytes.old bytes.new result (length_error (set_error_status error.reason)))) }
{
    let its =
        or_return!(parse_event_set(lines), error => LengthResult::error(set_error_status(error.reason)));
    match &its.zone {
        Some(name) => write(name.as_bytes(), Some(name.as_bytes().len()), bytes),
        None => LengthResult::error(RESULT_OUT_OF_RANGE),
    }
}
