//! Results of calls for events of calendar files.
ghost use Rattle.std.specs.Prelude.{◌≡◌};
ghost use Rattle.cal_c.specs.Events.{error_line, event_error, event_line_error, event_ok, event_parse_error, event_status, line_number, set_error_status};

use crate::schedule::recurrences::results::reason_status;
use crate::status::{
    DUPLICATE_PART, INVALID_VALUE, MISSING_START, OK, OTHER_END, OTHER_ZONE, TOO_MANY_VALUES,
    UNCLOSED_EVENT, UNKNOWN_PART, WRONG_KIND,
};
use cal_ics::ParseEventErrorKind;
use cal_recurrence::{ParseSetError, ParseSetErrorKind, SetLine};

/// The number of values written, or the first wrong line of an event.
#[repr(C)]
#[derive(Clone, Copy, Debug)]
pub struct EventSetResult {
    pub status: i32,
    /// The number of the wrong line, from 1 for `DTSTART` to 4 for `EXDATE`, or 0.
    pub line: u32,
    pub length: usize,
    /// The position of the wrong line.
    pub position: usize,
}

fn line_number(line: SetLine) -> u32
    ensures { result ≡ line_number line }
{
    match line {
        SetLine::Start => 1,
        SetLine::Rule => 2,
        SetLine::Dates => 3,
        SetLine::Exceptions => 4,
    }
}

pub(super) fn set_error_status(reason: ParseSetErrorKind) -> i32
    ensures { result ≡ set_error_status reason }
{
    match reason {
        ParseSetErrorKind::Unknown => UNKNOWN_PART,
        ParseSetErrorKind::Twice(_) => DUPLICATE_PART,
        ParseSetErrorKind::TooMany(_) => TOO_MANY_VALUES,
        ParseSetErrorKind::Value(_) => INVALID_VALUE,
        ParseSetErrorKind::OtherZone(_) => OTHER_ZONE,
        ParseSetErrorKind::Rule(fault) => reason_status(fault.reason),
        ParseSetErrorKind::Missing => MISSING_START,
    }
}

pub(super) fn error_line(reason: ParseSetErrorKind) -> u32
    ensures { result ≡ error_line reason }
{
    match reason {
        ParseSetErrorKind::Twice(line)
        | ParseSetErrorKind::TooMany(line)
        | ParseSetErrorKind::Value(line)
        | ParseSetErrorKind::OtherZone(line) => { line_number(line) }
        ParseSetErrorKind::Rule(_) => line_number(SetLine::Rule),
        ParseSetErrorKind::Unknown | ParseSetErrorKind::Missing => 0,
    }
}

pub(super) fn event_status(reason: ParseEventErrorKind) -> i32
    ensures { result ≡ event_status reason }
{
    match reason {
        ParseEventErrorKind::Unclosed => UNCLOSED_EVENT,
        ParseEventErrorKind::OtherEnd => OTHER_END,
    }
}

impl EventSetResult {
    pub fn ok(length: usize) -> Self
        ensures { result ≡ event_ok length }
    {
        EventSetResult {
            status: OK,
            line: 0,
            length,
            position: usize::MAX,
        }
    }

    pub fn error(status: i32) -> Self
        ensures { result ≡ event_error status }
    {
        EventSetResult {
            status,
            line: 0,
            length: 0,
            position: usize::MAX,
        }
    }

    /// Returns the result of a line with a value of another kind than the call reads.
    pub fn line_error(line: SetLine) -> Self
        ensures { result ≡ event_line_error line }
    {
        EventSetResult {
            status: WRONG_KIND,
            line: line_number(line),
            length: 0,
            position: usize::MAX,
        }
    }

    pub fn parse_error(error: ParseSetError) -> Self
        ensures { result ≡ event_parse_error error }
    {
        EventSetResult {
            status: set_error_status(error.reason),
            line: error_line(error.reason),
            length: 0,
            position: error.position,
        }
    }
}
