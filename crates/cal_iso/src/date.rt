//! Dates in ISO 8601, such as `20240229`.
ghost use Rattle.std.specs.Prelude.{◌≡◌, ◌↔◌, ℕ, IfErr, IfOk, IfSome, Ok, Some};
ghost use Rattle.cal_time.specs.declared.error.ComponentRange.{ComponentRange};
ghost use Rattle.cal_text.specs.declared.date_numbers.DateNumbers.{DateNumbers};
ghost use Rattle.cal_text.specs.Parsing.{FailsWithComponent, FailsWithSyntax, HasError, IsDateError};
ghost use Rattle.cal_text.specs.Position.{HasSome, IsErrorAtStop};
ghost use Rattle.cal_iso.specs.DateForm.{HasIsoDate, IsIsoDateText};

use crate::date::form::scan_whole_date;
use cal_text::{DateNumbers, ParseError, Scanner, date_from_numbers};
use cal_time::Date;

pub(crate) mod form;

/// Parses a date of ISO 8601: a calendar date, an ordinal date or a week date, in the extended or
/// in the basic format, such as `2024-02-29`, `20240229`, `2024-060`, `2024060`, `2024-W09-4`,
/// `2024W094` or `2024W09`. A week without a weekday is its Monday.
///
/// A year has four digits. In the extended format it can have a sign and four to six digits instead,
/// such as `+002024`.
///
/// Returns `UnexpectedByte` or `UnexpectedEnd` for any other form. Otherwise returns `OutOfRange`
/// with the first component out of range: `month`, `year`, `day`, `ordinal`, `week` or `weekday`.
pub fn parse(text: &[u8]) -> Result<Date, ParseError>
    ensures every { (n : ℕ) → IsIsoDateText text.now n → result ≡ Ok n }
    ensures value { IfOk result (IsIsoDateText text.now) }
    ensures syntax_error { FailsWithSyntax result ↔ ((f : DateNumbers) → ¬ HasIsoDate text.now f) }
    ensures position { IfErr result (IsErrorAtStop (HasSome HasIsoDate) text.now) }
    ensures out_of_range { (why : ComponentRange)
        → FailsWithComponent why result ↔ HasError HasIsoDate IsDateError text.now why }
{
    let mut scanner = Scanner { rest: text };
    match scan_whole_date(&mut scanner) {
        Some(numbers) => match date_from_numbers(numbers) {
            Ok(date) => Ok(date),
            Err(error) => Err(ParseError::OutOfRange(error)),
        },
        None => {
            let position = text.len() - scanner.rest.len();
            Err(ParseError::unexpected(position, text.len()))
        }
    }
}

/// Returns the numbers of a date that [`parse`] accepts, in range or not. Returns `None` for any other
/// form. `20230229` has the year 2023, the month 2 and the day 29.
pub fn parse_numbers(text: &[u8]) -> Option<DateNumbers>
    ensures every { (f : DateNumbers) → HasIsoDate text.now f → result ≡ Some f }
    ensures value { IfSome result (HasIsoDate text.now) }
{
    let mut scanner = Scanner { rest: text };
    scan_whole_date(&mut scanner)
}
