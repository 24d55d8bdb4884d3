//! The start of an event.
ghost use Rattle.std.specs.Prelude.{◌≡◌, MatchResult, Result};
ghost use Rattle.cal_ics.specs.EventSet.{IsEventSet};
ghost use Rattle.cal_recurrence.specs.declared.set_fault.ParseSetError.{ParseSetError};
ghost use Rattle.cal_recurrence.specs.declared.set_parts.SetParts.{SetParts};
ghost use Rattle.cal_c.specs.Events.{event_start_error, event_start_ok, start_at};

use super::results::{error_line, set_error_status};
use crate::status::OK;
use crate::values::nanoseconds_since_midnight;
use cal_ics::parse_event_set;
use cal_recurrence::{DateOrTime, ParseSetError};
use cal_time::Date;

/// The start of an event and its kind, or the first wrong line.
#[repr(C)]
#[derive(Clone, Copy, Debug)]
pub struct EventStartResult {
    pub status: i32,
    /// The number of the wrong line, from 1 for `DTSTART` to 4 for `EXDATE`, or 0.
    pub line: u32,
    /// The position of the wrong line.
    pub position: usize,
    /// The date, the offset 0 and the time of day, as a moment has them.
    pub date: i32,
    pub offset: i32,
    pub time: u64,
    /// 1 for a date, 2 for a local time, 3 for a time in UTC.
    pub kind: u32,
    /// 0, in place of padding.
    pub unused: u32,
}

impl EventStartResult {
    fn at(date: Date, time: u64, kind: u32) -> Self
        ensures { result ≡ start_at date time kind }
    {
        EventStartResult {
            status: OK,
            line: 0,
            position: usize::MAX,
            date: date.to_julian_day(),
            offset: 0,
            time,
            kind,
            unused: 0,
        }
    }

    fn ok(start: DateOrTime) -> Self
        ensures { result ≡ event_start_ok start }
    {
        match start {
            DateOrTime::Date(date) => Self::at(date, 0, 1),
            DateOrTime::Local(reading) => {
                let time = nanoseconds_since_midnight(reading.time());
                Self::at(reading.date(), time, 2)
            }
            DateOrTime::Utc(reading) => {
                let time = nanoseconds_since_midnight(reading.time());
                Self::at(reading.date(), time, 3)
            }
        }
    }

    fn error(error: ParseSetError) -> Self
        ensures { result ≡ event_start_error error }
    {
        EventStartResult {
            status: set_error_status(error.reason),
            line: error_line(error.reason),
            position: error.position,
            date: i32::MIN,
            offset: i32::MIN,
            time: u64::MAX,
            kind: 0,
            unused: 0,
        }
    }
}

/// Returns the start of an event and its kind, if the lines of its set are valid. For
/// `DTSTART:20240101`, it is 2460311, 2024-01-01, of the kind 1.
#[unsafe(no_mangle)]
pub extern "C" fn fots_event_start(lines: &[u8]) -> EventStartResult
    ensures { (found : Result SetParts ParseSetError) × (IsEventSet lines.now found
        × MatchResult found (λ its. result ≡ event_start_ok its.start)
        (λ error. result ≡ event_start_error error)) }
{
    match parse_event_set(lines) {
        Ok(its) => EventStartResult::ok(its.start),
        Err(error) => EventStartResult::error(error),
    }
}
