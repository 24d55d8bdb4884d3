//! Local date-times in ISO 8601, such as `20240229T2259`.
ghost use Rattle.std.specs.Prelude.{◌≡◌, ◌↔◌, ℤ, IfErr, IfOk, IfSome, Ok, Some};
ghost use Rattle.cal_time.specs.declared.error.ComponentRange.{ComponentRange};
ghost use Rattle.cal_text.specs.declared.plain.numbers.PlainNumbers.{PlainNumbers};
ghost use Rattle.cal_text.specs.Parsing.{FailsWithComponent, FailsWithSyntax, HasError};
ghost use Rattle.cal_text.specs.Position.{HasSome, IsErrorAtStop};
ghost use Rattle.cal_text.specs.PlainForm.{IsPlainError};
ghost use Rattle.cal_iso.specs.MomentForm.{HasIsoPlain, IsIsoPlainText};

use crate::plain::form::scan_whole_plain;
use cal_datetime::PlainDateTime;
use cal_text::{ParseError, PlainNumbers, Scanner, plain_from_numbers};

pub(crate) mod form;

/// Parses a local date-time of ISO 8601: a date that [`date::parse`](crate::date::parse) accepts, the
/// letter `T` or `t` or a space, and a time of day that [`time::parse`](crate::time::parse) accepts.
/// A date alone is its midnight. `2024-02-29 22:59:59.25`, `20240229T225959` and `2024060` are some.
///
/// Returns `UnexpectedByte` or `UnexpectedEnd` for any other form. Otherwise returns `OutOfRange`
/// with the first component out of range: of the date, then of the time of day.
pub fn parse(text: &[u8]) -> Result<PlainDateTime, ParseError>
    ensures every { (z : ℤ) → IsIsoPlainText text.now z → result ≡ Ok z }
    ensures value { IfOk result (IsIsoPlainText text.now) }
    ensures syntax_error { FailsWithSyntax result ↔ ((m : PlainNumbers) → ¬ HasIsoPlain text.now m) }
    ensures position { IfErr result (IsErrorAtStop (HasSome HasIsoPlain) text.now) }
    ensures out_of_range { (why : ComponentRange)
        → FailsWithComponent why result ↔ HasError HasIsoPlain IsPlainError text.now why }
{
    let mut scanner = Scanner { rest: text };
    match scan_whole_plain(&mut scanner) {
        Some(numbers) => match plain_from_numbers(numbers) {
            Ok(value) => Ok(value),
            Err(error) => Err(ParseError::OutOfRange(error)),
        },
        None => {
            let position = text.len() - scanner.rest.len();
            Err(ParseError::unexpected(position, text.len()))
        }
    }
}

/// Returns the numbers of a date-time that [`parse`] accepts, in range or not. Returns `None` for any
/// other form. `20230229T24` has the day 29 and the hour 24.
pub fn parse_numbers(text: &[u8]) -> Option<PlainNumbers>
    ensures every { (p : PlainNumbers) → HasIsoPlain text.now p → result ≡ Some p }
    ensures value { IfSome result (HasIsoPlain text.now) }
{
    let mut scanner = Scanner { rest: text };
    scan_whole_plain(&mut scanner)
}
