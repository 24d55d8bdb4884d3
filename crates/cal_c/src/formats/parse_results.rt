//! Times of day and offsets that are parsed, and the errors of a format.
ghost use Rattle.std.specs.Prelude.{◌≡◌};
ghost use Rattle.cal_c.specs.ParseErrors.{of_parse_error};
ghost use Rattle.cal_c.specs.FormatParsing.{parse_status, parse_position, parsed_time_ok, parsed_time_error_at, parsed_offset_ok, parsed_offset_error_at};

use crate::status::{
    CONTRADICTION, OK, UNEXPECTED_BYTE, UNEXPECTED_END, component_status, error_status,
};
use crate::values::nanoseconds_since_midnight;
use cal_format::ParseError;
use cal_time::{Time, UtcOffset};

/// A parsed time of day, or a position as for a date.
#[repr(C)]
#[derive(Clone, Copy, Debug)]
pub struct ParseTimeResult {
    pub status: i32,
    /// 0, in place of padding.
    pub unused: u32,
    pub time: u64,
    pub position: usize,
}

/// A parsed offset, or a position as for a date.
#[repr(C)]
#[derive(Clone, Copy, Debug)]
pub struct ParseOffsetResult {
    pub status: i32,
    pub offset: i32,
    pub position: usize,
}

/// Returns the status of an error, and its position, or the status of the component that
/// contradicts the others.
pub(super) fn status_and_position(error: ParseError) -> (i32, usize)
    ensures { (result.0 ≡ parse_status error) × (result.1 ≡ parse_position error) }
{
    match error {
        ParseError::UnexpectedByte(position) => (UNEXPECTED_BYTE, position),
        ParseError::UnexpectedEnd(position) => (UNEXPECTED_END, position),
        ParseError::OutOfRange(error) => (error_status(error), usize::MAX),
        ParseError::Contradiction(component) => {
            (CONTRADICTION, component_status(component) as usize)
        }
    }
}

impl ParseTimeResult {
    pub fn ok(time: Time) -> Self
        ensures { result ≡ parsed_time_ok time }
    {
        ParseTimeResult {
            status: OK,
            unused: 0,
            time: nanoseconds_since_midnight(time),
            position: usize::MAX,
        }
    }

    pub fn error(error: cal_text::ParseError) -> Self
        ensures { result ≡ of_parse_error parsed_time_error_at error }
    {
        parse_error_result!(error)
    }

    pub fn error_at(status: i32, position: usize) -> Self
        ensures { result ≡ parsed_time_error_at status position }
    {
        ParseTimeResult {
            status,
            unused: 0,
            time: u64::MAX,
            position,
        }
    }
}

impl ParseOffsetResult {
    pub fn ok(offset: UtcOffset) -> Self
        ensures { result ≡ parsed_offset_ok offset }
    {
        ParseOffsetResult {
            status: OK,
            offset: offset.whole_seconds(),
            position: usize::MAX,
        }
    }

    pub fn error(error: cal_text::ParseError) -> Self
        ensures { result ≡ of_parse_error parsed_offset_error_at error }
    {
        parse_error_result!(error)
    }

    pub fn error_at(status: i32, position: usize) -> Self
        ensures { result ≡ parsed_offset_error_at status position }
    {
        ParseOffsetResult {
            status,
            offset: i32::MIN,
            position,
        }
    }
}
