//! Why a file has no holidays, in words.
ghost use Rattle.std.specs.Prelude.{◌+◌, ◌≤◌, length};

use crate::zones::read_zone_error::{FileError, file_words};
use cal_text::ParseError;
use caldate_answers::reading::reason_of;
use caldate_lines::no_answer::push_reason;
use caldate_lines::output::buffer::Buffer;

/// A reason why a file has no holidays.
#[derive(Clone, Copy)]
pub enum ReadHolidaysError {
    /// The file can't be read.
    File(FileError),
    /// The line with this number, counted from 1, has no holidays, or has too many.
    Line(usize, HolidayLineError),
}

/// A reason why a line has no holidays.
#[derive(Clone, Copy)]
pub enum HolidayLineError {
    /// The line is not a date, and doesn't begin with the day of a rule.
    NoDate(ParseError),
    /// The word at this position, after the day of a rule, is invalid.
    InvalidRule(usize),
    /// The lines up to this one have more than 8192 holidays.
    TooMany,
}

/// Appends the reason, such as `not found` or `line 3: unreadable at 4`.
pub fn push_holidays_error(line: &mut Buffer, error: ReadHolidaysError)
    requires { length line.old ≤ 900 }
    ensures short { length line.new ≤ length line.old + 107 }
{
    match error {
        ReadHolidaysError::File(error) => line.push(file_words(error)),
        ReadHolidaysError::Line(number, error) => {
            line.push(b"line ");
            line.push_number(number as u64);
            line.push(b": ");
            push_line_error(line, error);
        }
    }
}

/// Appends the reason, such as `invalid rule of a holiday at 6`.
fn push_line_error(line: &mut Buffer, error: HolidayLineError)
    requires { length line.old ≤ 927 }
    ensures short { length line.new ≤ length line.old + 80 }
{
    match error {
        HolidayLineError::NoDate(error) => push_reason(line, reason_of(error)),
        HolidayLineError::InvalidRule(position) => {
            line.push(b"invalid rule of a holiday at ");
            line.push_number(position as u64);
        }
        HolidayLineError::TooMany => line.push(b"too many holidays; expected at most 8192"),
    }
}
