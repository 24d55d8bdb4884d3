//! Moments of RFC 3339.
ghost use Rattle.std.specs.Prelude.{◌≡◌, ◌↔◌, IfOk, IfErr, IfSome, Ok, Some};
ghost use Rattle.cal_time.specs.declared.error.ComponentRange.{ComponentRange};
ghost use Rattle.cal_datetime.specs.OffsetDateTime.{LocalAndOffset};
ghost use Rattle.cal_text.specs.declared.rfc3339.numbers.Numbers.{Numbers};
ghost use Rattle.cal_text.specs.Position.{HasSome, IsErrorAtStop};
ghost use Rattle.cal_text.specs.Parsing.{HasError, FailsWithComponent, FailsWithSyntax};
ghost use Rattle.cal_text.specs.Rfc3339Form.{HasMomentForm, IsMomentError, IsMomentText};

use crate::error::ParseError;
use crate::rfc3339::form::scan_numbers;
use crate::rfc3339::from_numbers::moment_from_numbers;
use crate::scanner::Scanner;
use cal_datetime::OffsetDateTime;

pub(crate) mod form;
mod from_numbers;
mod numbers;
mod text;

pub(crate) use form::{is_separator, scan_separator};
pub use numbers::{Numbers, TimeOffset};
pub use text::Text;

/// Parses a moment of RFC 3339, such as `2024-02-29T23:59:59.25+01:00`.
///
/// The year has four digits. `T`, `t` or one space separates the date from the time. The second may
/// have a fraction of any length; digits after the ninth are ignored. The offset is `Z`, `z`, or a
/// sign, hours and minutes; `-00:00` is UTC.
///
/// Returns `UnexpectedByte` or `UnexpectedEnd` for any other form. Otherwise returns `OutOfRange`
/// with the first component out of range: `month`, `day`, `hour`, `minute`, `second` (also 60,
/// because there are no leap seconds), `offset hour` above 23, or `offset minute`.
// Inlined, so that the caller has the result in registers: in memory it is written by parts, and the
// processor waits before it reads them as one number.
#[inline(always)]
pub fn parse(text: &[u8]) -> Result<OffsetDateTime, ParseError>
    ensures every { (m : LocalAndOffset) → IsMomentText text.now m → result ≡ Ok m }
    ensures value { IfOk result (IsMomentText text.now) }

    // The error is about the form exactly if the text doesn't have it, else about the first
    // component out of range.
    ensures syntax_error { FailsWithSyntax result ↔ ((m : Numbers) → ¬ HasMomentForm text.now m) }
    ensures position { IfErr result (IsErrorAtStop (HasSome HasMomentForm) text.now) }
    ensures out_of_range { (why : ComponentRange)
        → FailsWithComponent why result ↔ HasError HasMomentForm IsMomentError text.now why }
{
    let mut scanner = Scanner { rest: text };
    match scan_numbers(&mut scanner) {
        Some(numbers) => match moment_from_numbers(numbers) {
            Ok(moment) => Ok(moment),
            Err(error) => Err(ParseError::OutOfRange(error)),
        },
        None => {
            let position = text.len() - scanner.rest.len();
            Err(ParseError::unexpected(position, text.len()))
        }
    }
}

/// Returns the numbers of a moment that [`parse`] accepts, in range or not. Returns `None` for any
/// other form. `2023-02-29T24:00:00-24:00` has the day 29, the hour 24 and the hours -24 of the offset.
pub fn parse_numbers(text: &[u8]) -> Option<Numbers>
    ensures every { (m : Numbers) → HasMomentForm text.now m → result ≡ Some m }
    ensures value { IfSome result (HasMomentForm text.now) }
{
    let mut scanner = Scanner { rest: text };
    scan_numbers(&mut scanner)
}
