//! Intervals of local date-times as strings, such as `2024-01-01T08:00/PT90M`.
ghost use Rattle.std.specs.Prelude.{◌≡◌, ◌↔◌, ℕ, IfErr, IfOk, Ok, Option};
ghost use Rattle.cal_text.specs.Position.{HasSome};
ghost use Rattle.cal_interval.specs.declared.error.IntervalComponent.{IntervalComponent};
ghost use Rattle.cal_interval.specs.declared.plain.interval.DateTimeInterval.{DateTimeInterval};
ghost use Rattle.cal_interval.specs.declared.plain.numbers.DateTimeIntervalNumbers.{DateTimeIntervalNumbers};
ghost use Rattle.cal_interval.specs.Form.{HasDateTimeInterval, HasRepeated};
ghost use Rattle.cal_interval.specs.Parsing.{FailsWithComponent, FailsWithSyntax, HasError, IsErrorAtStop};
ghost use Rattle.cal_interval.specs.Values.{IsDateTimeIntervalError, IsDateTimeIntervalText, IsRepeatedError, IsRepeatedDateTimesText};

use crate::error::ParseIntervalError;
use crate::plain::form::{scan_interval, scan_repeated};
use crate::plain::from_numbers::interval_from_numbers;
use cal_text::Scanner;

mod display;
mod form;
mod from_numbers;
mod interval;
mod numbers;
mod range;
mod ranges;
mod repeated;

pub use interval::DateTimeInterval;
pub use range::DateTimeRange;
pub use repeated::RepeatedDateTimes;

/// Parses an interval of local date-times: two of them, or one and a period, with a slash between them, such
/// as `2024-01-01T08:00/2024-01-01T09:30`, `2024-01-01T08:00/PT90M` or `P1M/2024-02-01T00:00`.
///
/// A date-time has a form that `cal_text::plain::parse` accepts, and a period a form that
/// `cal_duration::period::parse` accepts, without a sign.
///
/// Returns `UnexpectedByte` or `UnexpectedEnd` for any other form. Otherwise returns `OutOfRange`
/// with the first component of a date-time or part of the period that is out of range.
pub fn parse(text: &[u8]) -> Result<DateTimeInterval, ParseIntervalError>
    ensures every { (v : DateTimeInterval) → IsDateTimeIntervalText text.now v → result ≡ Ok v }
    ensures value { IfOk result (IsDateTimeIntervalText text.now) }
    ensures syntax_error { FailsWithSyntax result
        ↔ ((m : DateTimeIntervalNumbers) → ¬ HasDateTimeInterval text.now m) }
    ensures position { IfErr result (IsErrorAtStop (HasSome HasDateTimeInterval) text.now) }
    ensures out_of_range { (why : IntervalComponent) → FailsWithComponent why result
        ↔ HasError HasDateTimeInterval IsDateTimeIntervalError text.now why }
{
    let mut scanner = Scanner { rest: text };
    match scan_interval(&mut scanner) {
        Some(numbers) => match interval_from_numbers(numbers) {
            Ok(interval) => Ok(interval),
            Err(component) => Err(ParseIntervalError::OutOfRange(component)),
        },
        None => {
            let position = text.len() - scanner.rest.len();
            Err(ParseIntervalError::unexpected(position, text.len()))
        }
    }
}

/// Parses a repeated interval of local date-times, such as `R12/2024-01-31T08:00/P1M`: the letter R, the number of
/// occurrences, a slash and an interval that [`parse`] accepts. Returns the number and the interval.
/// Without a number, as in `R/`, it has no end.
///
/// Returns the errors of [`parse`]. A number above 18446744073709551615 counts as this number.
pub fn parse_repeated(text: &[u8]) -> Result<(Option<u64>, DateTimeInterval), ParseIntervalError>
    ensures every { (v : Option ℕ × DateTimeInterval) → IsRepeatedDateTimesText text.now v → result ≡ Ok v }
    ensures value { IfOk result (IsRepeatedDateTimesText text.now) }
    ensures syntax_error { FailsWithSyntax result
        ↔ ((m : Option ℕ × DateTimeIntervalNumbers) → ¬ HasRepeated HasDateTimeInterval text.now m) }
    ensures position { IfErr result (IsErrorAtStop (HasSome (HasRepeated HasDateTimeInterval)) text.now) }
    ensures out_of_range { (why : IntervalComponent) → FailsWithComponent why result
        ↔ HasError (HasRepeated HasDateTimeInterval) (IsRepeatedError IsDateTimeIntervalError) text.now why }
{
    let mut scanner = Scanner { rest: text };
    match scan_repeated(&mut scanner) {
        Some((count, numbers)) => match interval_from_numbers(numbers) {
            Ok(interval) => Ok((count, interval)),
            Err(component) => Err(ParseIntervalError::OutOfRange(component)),
        },
        None => {
            let position = text.len() - scanner.rest.len();
            Err(ParseIntervalError::unexpected(position, text.len()))
        }
    }
}
