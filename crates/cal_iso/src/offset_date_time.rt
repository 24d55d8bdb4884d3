//! Date-times at an offset in ISO 8601, such as `20240229T2259Z`.
ghost use Rattle.std.specs.Prelude.{◌≡◌, ◌↔◌, IfErr, IfOk, IfSome, Ok, Some};
ghost use Rattle.cal_time.specs.declared.error.ComponentRange.{ComponentRange};
ghost use Rattle.cal_datetime.specs.OffsetDateTime.{LocalAndOffset};
ghost use Rattle.cal_text.specs.declared.offset_date_time.numbers.OffsetDateTimeNumbers.{OffsetDateTimeNumbers};
ghost use Rattle.cal_text.specs.Parsing.{FailsWithComponent, FailsWithSyntax, HasError};
ghost use Rattle.cal_text.specs.Position.{HasSome, IsErrorAtStop};
ghost use Rattle.cal_text.specs.OffsetDateTimeForm.{IsOffsetDateTimeError};
ghost use Rattle.cal_iso.specs.MomentForm.{HasIsoMoment, IsIsoMomentText};

use crate::offset_date_time::form::scan_moment;
use cal_datetime::OffsetDateTime;
use cal_text::{OffsetDateTimeNumbers, ParseError, Scanner, moment_from_numbers};

pub(crate) mod form;

/// Parses a date-time at an offset of ISO 8601: a date and a time of day as in
/// [`plain::parse`](crate::plain::parse), and an offset, with a space before it or without one. An
/// offset is `Z`, `z`, or a sign, two digits of the hours, and perhaps minutes and seconds in the
/// extended or in the basic format, such as `+01`, `+0100`, `-01:00` or `-00`. For example,
/// `2024-02-29 22:59:59.25+00` and `20240229T225959Z`.
///
/// Returns `UnexpectedByte` or `UnexpectedEnd` for any other form. Otherwise returns `OutOfRange`
/// with the first component out of range: of the date, of the time of day, then of the offset.
pub fn parse(text: &[u8]) -> Result<OffsetDateTime, ParseError>
    ensures every { (m : LocalAndOffset) → IsIsoMomentText text.now m → result ≡ Ok m }
    ensures value { IfOk result (IsIsoMomentText text.now) }
    ensures syntax_error { FailsWithSyntax result ↔ ((m : OffsetDateTimeNumbers) → ¬ HasIsoMoment text.now m) }
    ensures position { IfErr result (IsErrorAtStop (HasSome HasIsoMoment) text.now) }
    ensures out_of_range { (why : ComponentRange)
        → FailsWithComponent why result ↔ HasError HasIsoMoment IsOffsetDateTimeError text.now why }
{
    let mut scanner = Scanner { rest: text };
    match scan_moment(&mut scanner) {
        Some(numbers) => match moment_from_numbers(numbers) {
            Ok(value) => Ok(value),
            Err(error) => Err(ParseError::OutOfRange(error)),
        },
        None => {
            let position = text.len() - scanner.rest.len();
            Err(ParseError::unexpected(position, text.len()))
        }
    }
}

/// Returns the numbers of a date-time that [`parse`] accepts, in range or not. Returns `None` for any
/// other form. `20230229T24-26` has the day 29, the hour 24, a minus sign and the hours 26.
pub fn parse_numbers(text: &[u8]) -> Option<OffsetDateTimeNumbers>
    ensures every { (m : OffsetDateTimeNumbers) → HasIsoMoment text.now m → result ≡ Some m }
    ensures value { IfSome result (HasIsoMoment text.now) }
{
    let mut scanner = Scanner { rest: text };
    scan_moment(&mut scanner)
}
