//! Moments as Unix times.
ghost use Rattle.std.specs.Prelude.{◌≡◌, ℤ, ◌↔◌, IfOk, IfErr, Ok};
ghost use Rattle.cal_time.specs.declared.error.ComponentRange.{ComponentRange};
ghost use Rattle.cal_datetime.specs.OffsetDateTime.{LocalAndOffset};
ghost use Rattle.cal_text.specs.Position.{HasSome, IsErrorAtStop};
ghost use Rattle.cal_text.specs.Parsing.{HasError, FailsWithComponent, FailsWithSyntax};
ghost use Rattle.cal_text.specs.UnixText.{HasUnixForm, IsUnixText, IsUnixTimeError};

use crate::error::ParseError;
use crate::scanner::Scanner;
use crate::unix::parsing::scan_unix_time;
use cal_datetime::OffsetDateTime;

mod parsing;
mod text;

pub use text::Text;

/// Parses a Unix time, such as `@1709164800.5`, and returns the moment at UTC, here 2024-02-29
/// 0:00:00.5.
///
/// After the `@` come at most 18 digits of whole seconds, with a minus sign for a time before 1970,
/// and optionally a point and one to nine digits. A plus sign and leading zeros are not allowed.
///
/// Returns `UnexpectedByte` or `UnexpectedEnd` for any other form, and `OutOfRange` with
/// `timestamp` if no moment at UTC has this time.
pub fn parse(text: &[u8]) -> Result<OffsetDateTime, ParseError>
    ensures every { (m : LocalAndOffset) → IsUnixText text.now m → result ≡ Ok m }
    ensures value { IfOk result (IsUnixText text.now) }
    ensures syntax_error { FailsWithSyntax result ↔ ((v : ℤ) → ¬ HasUnixForm text.now v) }
    ensures position { IfErr result (IsErrorAtStop (HasSome HasUnixForm) text.now) }
    ensures out_of_range { (why : ComponentRange)
        → FailsWithComponent why result ↔ HasError HasUnixForm IsUnixTimeError text.now why }
{
    let mut scanner = Scanner { rest: text };
    match scan_unix_time(&mut scanner) {
        Some(nanoseconds) => match OffsetDateTime::from_unix_timestamp_nanos(nanoseconds) {
            Ok(moment) => Ok(moment),
            Err(error) => Err(ParseError::OutOfRange(error)),
        },
        None => {
            let position = text.len() - scanner.rest.len();
            Err(ParseError::unexpected(position, text.len()))
        }
    }
}
