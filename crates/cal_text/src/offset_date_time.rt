//! Moments: date-times with an offset.
ghost use Rattle.std.specs.Prelude.{◌≡◌, ◌↔◌, IfOk, IfErr, IfSome, Ok, Some};
ghost use Rattle.cal_time.specs.declared.error.ComponentRange.{ComponentRange};
ghost use Rattle.cal_datetime.specs.OffsetDateTime.{LocalAndOffset};
ghost use Rattle.cal_text.specs.declared.offset_date_time.numbers.OffsetDateTimeNumbers.{OffsetDateTimeNumbers};
ghost use Rattle.cal_text.specs.Position.{HasSome, IsErrorAtStop};
ghost use Rattle.cal_text.specs.Parsing.{HasError, FailsWithComponent, FailsWithSyntax};
ghost use Rattle.cal_text.specs.OffsetDateTimeForm.{HasOffsetDateTimeForm, IsOffsetDateTimeError, IsOffsetDateTimeText};

use crate::error::ParseError;
use crate::offset_date_time::form::scan_offset_date_time;
use crate::offset_date_time::from_numbers::moment_from_numbers;
use crate::offset_date_time::numbers::OffsetDateTimeNumbers;
use crate::scanner::Scanner;
use cal_datetime::OffsetDateTime;

mod form;
pub(crate) mod from_numbers;
pub(crate) mod numbers;

/// Parses a moment, such as `2024-02-29 23:59:59.25 +01:00` or `2024-W09-4T9:05Z`.
///
/// The date-time has a form that [`plain::parse`](crate::plain::parse) accepts, and the offset a
/// form that [`offset::parse`](crate::offset::parse) accepts. One space may separate them.
///
/// Returns `UnexpectedByte` or `UnexpectedEnd` for any other form. Otherwise returns `OutOfRange`
/// with the first component out of range, in the order of the two parsers. `2024-02-29T9:05` is
/// `UnexpectedEnd(15)`, and `2024-02-29T24:00+26:00` is `OutOfRange` with `hour`.
pub fn parse(text: &[u8]) -> Result<OffsetDateTime, ParseError>
    ensures every { (m : LocalAndOffset) → IsOffsetDateTimeText text.now m → result ≡ Ok m }
    ensures value { IfOk result (IsOffsetDateTimeText text.now) }
    ensures syntax_error { FailsWithSyntax result
        ↔ ((m : OffsetDateTimeNumbers) → ¬ HasOffsetDateTimeForm text.now m) }
    ensures position { IfErr result (IsErrorAtStop (HasSome HasOffsetDateTimeForm) text.now) }
    ensures out_of_range { (why : ComponentRange)
        → FailsWithComponent why result ↔ HasError HasOffsetDateTimeForm IsOffsetDateTimeError text.now why }
{
    let mut scanner = Scanner { rest: text };
    match scan_offset_date_time(&mut scanner) {
        Some(numbers) => match moment_from_numbers(numbers) {
            Ok(moment) => Ok(moment),
            Err(error) => Err(ParseError::OutOfRange(error)),
        },
        None => {
            let position = text.len() - scanner.rest.len();
            Err(ParseError::unexpected(position, text.len()))
        }
    }
}

/// Returns the numbers of a date-time that [`parse`] accepts, in range or not. Returns `None` for any
/// other form. `2023-02-29T24:00-26:00` has the day 29, the hour 24, a minus sign and the hours 26.
pub fn parse_numbers(text: &[u8]) -> Option<OffsetDateTimeNumbers>
    ensures every { (m : OffsetDateTimeNumbers) → HasOffsetDateTimeForm text.now m → result ≡ Some m }
    ensures value { IfSome result (HasOffsetDateTimeForm text.now) }
{
    let mut scanner = Scanner { rest: text };
    scan_offset_date_time(&mut scanner)
}
