//! Strings and the results of parsing.
ghost use Rattle.std.specs.Prelude.{◌≡◌, ◌≤◌, length};
ghost use Rattle.cal_c.specs.Texts.{parsed_date_error_at, parsed_moment_error_at, parsed_date_ok, parsed_moment_ok, text_ok, text_error};
ghost use Rattle.cal_c.specs.ParseErrors.{of_parse_error};

use crate::status::OK;
use crate::values::nanoseconds_since_midnight;
use cal_datetime::OffsetDateTime;
use cal_text::ParseError;
use cal_time::Date;

pub mod date_times;
pub mod durations;
mod formatting;
mod intervals;
pub mod iso;
pub mod parsing;

/// The bytes of a string: enough for the longest one and a zero byte.
const CAPACITY: usize = 40;

/// A string in ASCII, followed by zero bytes.
#[repr(C)]
#[derive(Clone, Copy, Debug)]
pub struct TextResult {
    pub status: i32,
    pub length: u32,
    pub bytes: [u8; CAPACITY],
}

/// A parsed date, or the position of the first wrong byte or of an end that comes too early.
#[repr(C)]
#[derive(Clone, Copy, Debug)]
pub struct ParseDateResult {
    pub status: i32,
    pub date: i32,
    pub position: usize,
}

/// A parsed date, time and offset, or a position as for a date.
#[repr(C)]
#[derive(Clone, Copy, Debug)]
pub struct ParseMomentResult {
    pub status: i32,
    pub date: i32,
    pub time: u64,
    pub offset: i32,
    /// 0, in place of padding.
    pub unused: u32,
    pub position: usize,
}

impl TextResult {
    pub fn ok(text: &[u8]) -> Self
        requires { length text.now ≤ 39 }
        ensures { result ≡ text_ok text.now }
    {
        let mut bytes = [0; CAPACITY];
        bytes[..text.len()].copy_from_slice(text);
        TextResult {
            status: OK,
            length: text.len() as u32,
            bytes,
        }
    }

    pub fn error(status: i32) -> Self
        ensures { result ≡ text_error status }
    {
        TextResult {
            status,
            length: 0,
            bytes: [0; CAPACITY],
        }
    }
}

impl ParseDateResult {
    pub fn ok(date: Date) -> Self
        ensures { result ≡ parsed_date_ok date }
    {
        ParseDateResult {
            status: OK,
            date: date.to_julian_day(),
            position: usize::MAX,
        }
    }

    pub fn error(error: ParseError) -> Self
        ensures { result ≡ of_parse_error parsed_date_error_at error }
    {
        parse_error_result!(error)
    }

    pub fn error_at(status: i32, position: usize) -> Self
        ensures { result ≡ parsed_date_error_at status position }
    {
        ParseDateResult {
            status,
            date: i32::MIN,
            position,
        }
    }
}

impl ParseMomentResult {
    pub fn ok(moment: OffsetDateTime) -> Self
        ensures { result ≡ parsed_moment_ok moment }
    {
        ParseMomentResult {
            status: OK,
            date: moment.date().to_julian_day(),
            time: nanoseconds_since_midnight(moment.time()),
            offset: moment.offset().whole_seconds(),
            unused: 0,
            position: usize::MAX,
        }
    }

    pub fn error(error: ParseError) -> Self
        ensures { result ≡ of_parse_error parsed_moment_error_at error }
    {
        parse_error_result!(error)
    }

    pub fn error_at(status: i32, position: usize) -> Self
        ensures { result ≡ parsed_moment_error_at status position }
    {
        ParseMomentResult {
            status,
            date: i32::MIN,
            time: u64::MAX,
            offset: i32::MIN,
            unused: 0,
            position,
        }
    }
}
