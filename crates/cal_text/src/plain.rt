//! Date-times without an offset.
ghost use Rattle.std.specs.Prelude.{◌≡◌, ℤ, ◌↔◌, IfOk, IfErr, IfSome, Ok, Some};
ghost use Rattle.cal_time.specs.declared.error.ComponentRange.{ComponentRange};
ghost use Rattle.cal_text.specs.declared.plain.numbers.PlainNumbers.{PlainNumbers};
ghost use Rattle.cal_text.specs.Position.{HasSome, IsErrorAtStop};
ghost use Rattle.cal_text.specs.Parsing.{HasError, FailsWithComponent, FailsWithSyntax};
ghost use Rattle.cal_text.specs.PlainForm.{HasPlainForm, IsPlainError, IsPlainText};

use crate::error::ParseError;
use crate::plain::form::scan_whole_plain;
use crate::plain::from_numbers::plain_from_numbers;
use crate::plain::numbers::PlainNumbers;
use crate::scanner::Scanner;
use cal_datetime::PlainDateTime;

pub(crate) mod form;
pub(crate) mod from_numbers;
pub(crate) mod numbers;

/// Parses a date-time, such as `2024-02-29 23:59:59.25` or `2024-W09-4T9:05`.
///
/// The date has a form that [`date::parse`](crate::date::parse) accepts, and the time a form that
/// [`time::parse`](crate::time::parse) accepts. `T`, `t` or one space separates them.
///
/// Returns `UnexpectedByte` or `UnexpectedEnd` for any other form. Otherwise returns `OutOfRange`
/// with the first component out of range, in the order of the two parsers. `2024-02-29` is
/// `UnexpectedEnd(10)`, and `2023-02-29T24:00` is `OutOfRange` with `day`.
pub fn parse(text: &[u8]) -> Result<PlainDateTime, ParseError>
    ensures every { (p : ℤ) → IsPlainText text.now p → result ≡ Ok p }
    ensures value { IfOk result (IsPlainText text.now) }
    ensures syntax_error { FailsWithSyntax result
        ↔ ((p : PlainNumbers) → ¬ HasPlainForm text.now p) }
    ensures position { IfErr result (IsErrorAtStop (HasSome HasPlainForm) text.now) }
    ensures out_of_range { (why : ComponentRange)
        → FailsWithComponent why result ↔ HasError HasPlainForm IsPlainError text.now why }
{
    let mut scanner = Scanner { rest: text };
    match scan_whole_plain(&mut scanner) {
        Some(numbers) => match plain_from_numbers(numbers) {
            Ok(date_time) => Ok(date_time),
            Err(error) => Err(ParseError::OutOfRange(error)),
        },
        None => {
            let position = text.len() - scanner.rest.len();
            Err(ParseError::unexpected(position, text.len()))
        }
    }
}

/// Returns the numbers of a date-time that [`parse`] accepts, in range or not. Returns `None` for any
/// other form. `2023-02-29T24:00` has the day 29 and the hour 24.
pub fn parse_numbers(text: &[u8]) -> Option<PlainNumbers>
    ensures every { (p : PlainNumbers) → HasPlainForm text.now p → result ≡ Some p }
    ensures value { IfSome result (HasPlainForm text.now) }
{
    let mut scanner = Scanner { rest: text };
    scan_whole_plain(&mut scanner)
}
