//! Times of day in ISO 8601, such as `T2259`.
ghost use Rattle.std.specs.Prelude.{◌≡◌, ◌↔◌, ℕ, IfErr, IfOk, IfSome, Ok, Some};
ghost use Rattle.cal_time.specs.declared.error.ComponentRange.{ComponentRange};
ghost use Rattle.cal_text.specs.declared.time.numbers.TimeNumbers.{TimeNumbers};
ghost use Rattle.cal_text.specs.Parsing.{FailsWithComponent, FailsWithSyntax, HasError};
ghost use Rattle.cal_text.specs.Position.{HasSome, IsErrorAtStop};
ghost use Rattle.cal_text.specs.TimeForm.{IsTimeError};
ghost use Rattle.cal_iso.specs.TimeForm.{HasIsoTime, IsIsoTimeText};

use crate::time::form::scan_whole_time;
use cal_text::{ParseError, Scanner, TimeNumbers, time_from_numbers};
use cal_time::Time;

pub(crate) mod form;

/// Parses a time of day of ISO 8601, in the extended or in the basic format, such as `22:59:59.25`,
/// `225959,25`, `22:59`, `2259` or `22`. The letter T may be before it.
///
/// Minutes and seconds may be left out, and are 0 then. After the seconds can follow a point or a
/// comma and one digit or more, of which those after the ninth are zeros.
///
/// Returns `UnexpectedByte` or `UnexpectedEnd` for any other form. Otherwise returns `OutOfRange`
/// with the first component out of range: `hour`, `minute` or `second`.
pub fn parse(text: &[u8]) -> Result<Time, ParseError>
    ensures every { (t : ℕ) → IsIsoTimeText text.now t → result ≡ Ok t }
    ensures value { IfOk result (IsIsoTimeText text.now) }
    ensures syntax_error { FailsWithSyntax result ↔ ((m : TimeNumbers) → ¬ HasIsoTime text.now m) }
    ensures position { IfErr result (IsErrorAtStop (HasSome HasIsoTime) text.now) }
    ensures out_of_range { (why : ComponentRange)
        → FailsWithComponent why result ↔ HasError HasIsoTime IsTimeError text.now why }
{
    let mut scanner = Scanner { rest: text };
    match scan_whole_time(&mut scanner) {
        Some(numbers) => match time_from_numbers(numbers) {
            Ok(value) => Ok(value),
            Err(error) => Err(ParseError::OutOfRange(error)),
        },
        None => {
            let position = text.len() - scanner.rest.len();
            Err(ParseError::unexpected(position, text.len()))
        }
    }
}

/// Returns the numbers of a time of day that [`parse`] accepts, in range or not. Returns `None` for any
/// other form. `2460` has the hour 24 and the minute 60.
pub fn parse_numbers(text: &[u8]) -> Option<TimeNumbers>
    ensures every { (t : TimeNumbers) → HasIsoTime text.now t → result ≡ Some t }
    ensures value { IfSome result (HasIsoTime text.now) }
{
    let mut scanner = Scanner { rest: text };
    scan_whole_time(&mut scanner)
}
