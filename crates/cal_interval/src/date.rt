//! Intervals of dates as strings, such as `2024-01-01/P1M`.
ghost use Rattle.std.specs.Prelude.{◌≡◌, ◌↔◌, ℕ, IfErr, IfOk, Ok, Option};
ghost use Rattle.cal_text.specs.Position.{HasSome};
ghost use Rattle.cal_interval.specs.declared.error.IntervalComponent.{IntervalComponent};
ghost use Rattle.cal_interval.specs.declared.date.interval.DateInterval.{DateInterval};
ghost use Rattle.cal_interval.specs.declared.date.numbers.DateIntervalNumbers.{DateIntervalNumbers};
ghost use Rattle.cal_interval.specs.Form.{HasDateInterval, HasRepeated};
ghost use Rattle.cal_interval.specs.Parsing.{FailsWithComponent, FailsWithSyntax, HasError, IsErrorAtStop};
ghost use Rattle.cal_interval.specs.Values.{IsDateIntervalError, IsDateIntervalText, IsRepeatedError, IsRepeatedDatesText};

use crate::date::form::{scan_interval, scan_repeated};
use crate::date::from_numbers::interval_from_numbers;
use crate::error::ParseIntervalError;
use cal_text::Scanner;

mod display;
mod form;
mod from_numbers;
mod interval;
mod numbers;
mod ranges;
mod repeated;

pub use interval::DateInterval;
pub use repeated::RepeatedDates;

/// Parses an interval of dates: two dates, or a date and a period, with a slash between them, such
/// as `2024-01-01/2024-02-01`, `2024-01-01/P1M` or `P1M/2024-02-01`.
///
/// A date has a form that `cal_text::date::parse` accepts, and a period a form that
/// `cal_duration::period::parse` accepts, without a sign.
///
/// Returns `UnexpectedByte` or `UnexpectedEnd` for any other form. Otherwise returns `OutOfRange`
/// with the first component of a date or part of the period that is out of range.
pub fn parse(text: &[u8]) -> Result<DateInterval, ParseIntervalError>
    ensures every { (v : DateInterval) → IsDateIntervalText text.now v → result ≡ Ok v }
    ensures value { IfOk result (IsDateIntervalText text.now) }
    ensures syntax_error { FailsWithSyntax result
        ↔ ((m : DateIntervalNumbers) → ¬ HasDateInterval text.now m) }
    ensures position { IfErr result (IsErrorAtStop (HasSome HasDateInterval) text.now) }
    ensures out_of_range { (why : IntervalComponent) → FailsWithComponent why result
        ↔ HasError HasDateInterval IsDateIntervalError text.now why }
{
    let mut scanner = Scanner { rest: text };
    match scan_interval(&mut scanner) {
        Some(numbers) => match interval_from_numbers(numbers) {
            Ok(interval) => Ok(interval),
            Err(component) => Err(ParseIntervalError::OutOfRange(component)),
        },
        None => {
            let position = text.len() - scanner.rest.len();
            Err(ParseIntervalError::unexpected(position, text.len()))
        }
    }
}

/// Parses a repeated interval of dates, such as `R12/2024-01-31/P1M`: the letter R, the number of
/// occurrences, a slash and an interval that [`parse`] accepts. Returns the number and the interval.
/// Without a number, as in `R/`, it has no end.
///
/// Returns the errors of [`parse`]. A number above 18446744073709551615 counts as this number.
pub fn parse_repeated(text: &[u8]) -> Result<(Option<u64>, DateInterval), ParseIntervalError>
    ensures every { (v : Option ℕ × DateInterval) → IsRepeatedDatesText text.now v → result ≡ Ok v }
    ensures value { IfOk result (IsRepeatedDatesText text.now) }
    ensures syntax_error { FailsWithSyntax result
        ↔ ((m : Option ℕ × DateIntervalNumbers) → ¬ HasRepeated HasDateInterval text.now m) }
    ensures position { IfErr result (IsErrorAtStop (HasSome (HasRepeated HasDateInterval)) text.now) }
    ensures out_of_range { (why : IntervalComponent) → FailsWithComponent why result
        ↔ HasError (HasRepeated HasDateInterval) (IsRepeatedError IsDateIntervalError) text.now why }
{
    let mut scanner = Scanner { rest: text };
    match scan_repeated(&mut scanner) {
        Some((count, numbers)) => match interval_from_numbers(numbers) {
            Ok(interval) => Ok((count, interval)),
            Err(component) => Err(ParseIntervalError::OutOfRange(component)),
        },
        None => {
            let position = text.len() - scanner.rest.len();
            Err(ParseIntervalError::unexpected(position, text.len()))
        }
    }
}
