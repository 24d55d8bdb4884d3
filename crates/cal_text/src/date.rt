//! Dates in the three forms of ISO 8601.
ghost use Rattle.std.specs.Prelude.{◌≡◌, ℕ, ◌↔◌, IfOk, IfErr, IfSome, Ok, Some};
ghost use Rattle.cal_time.specs.Date.{IsDate};
ghost use Rattle.cal_time.specs.declared.error.ComponentRange.{ComponentRange};
ghost use Rattle.cal_text.specs.declared.date_numbers.DateNumbers.{DateNumbers};
ghost use Rattle.cal_text.specs.DateForms.{IsDateText, HasForm};
ghost use Rattle.cal_text.specs.Position.{HasSome, IsErrorAtStop};
ghost use Rattle.cal_text.specs.Parsing.{IsDateError, HasError, FailsWithComponent, FailsWithSyntax};

use crate::date::from_numbers::date_from_numbers;
use crate::date_numbers;
use crate::date_numbers::DateNumbers;
use crate::error::ParseError;
use cal_time::Date;

mod display;
pub(crate) mod from_numbers;

pub use display::{CalendarText, OrdinalText, WeekText};

/// Parses a calendar date, an ordinal date or a week date of ISO 8601, such as `2024-02-29`,
/// `2024-060` or `2024-W09-4`. Accepts exactly the texts that dates print.
///
/// A year from 0 to 9999 has four digits. A year above 9999 has a plus sign, and a negative year
/// has a minus sign and four digits or more. More than four digits have no leading zeros. The
/// weekday is from 1, Monday, to 7, Sunday.
///
/// Returns `UnexpectedByte` or `UnexpectedEnd` for any other form; a year has at most nine digits.
/// Otherwise returns `OutOfRange` with the first component out of range: `month`, `year` outside
/// -999999 to 999999, `day`, `ordinal`, `week`, or `weekday` after the last day of the range.
pub fn parse(text: &[u8]) -> Result<Date, ParseError>
    ensures every { (n : ℕ) → IsDate n → IsDateText text.now n → result ≡ Ok n }
    ensures value { IfOk result (λ n. IsDate n × IsDateText text.now n) }

    // The error is about the form exactly if the text has none, else about the first component out
    // of range.
    ensures syntax_error { FailsWithSyntax result ↔ ((form : DateNumbers) → ¬ HasForm text.now form) }
    ensures position { IfErr result (IsErrorAtStop (HasSome HasForm) text.now) }
    ensures out_of_range { (why : ComponentRange)
        → FailsWithComponent why result ↔ HasError HasForm IsDateError text.now why }
{
    match date_numbers::parse_numbers(text) {
        Ok(form) => match date_from_numbers(form) {
            Ok(date) => Ok(date),
            Err(error) => Err(ParseError::OutOfRange(error)),
        },
        Err(position) => Err(ParseError::unexpected(position, text.len())),
    }
}

/// Returns the numbers of a date that [`parse`] accepts, in range or not. Returns `None` for any other
/// form. `2023-02-29` has the year 2023, the month 2 and the day 29.
pub fn parse_numbers(text: &[u8]) -> Option<DateNumbers>
    ensures every { (form : DateNumbers) → HasForm text.now form → result ≡ Some form }
    ensures value { IfSome result (HasForm text.now) }
{
    date_numbers::parse_numbers(text).ok()
}
