//! Offsets from UTC.
ghost use Rattle.std.specs.Prelude.{◌≡◌, ℤ, ◌↔◌, IfOk, IfErr, IfSome, Ok, Some};
ghost use Rattle.cal_time.specs.declared.error.ComponentRange.{ComponentRange};
ghost use Rattle.cal_text.specs.declared.offset.numbers.OffsetNumbers.{OffsetNumbers};
ghost use Rattle.cal_text.specs.Position.{HasSome, IsErrorAtStop};
ghost use Rattle.cal_text.specs.Parsing.{HasError, FailsWithComponent, FailsWithSyntax};
ghost use Rattle.cal_text.specs.OffsetForm.{HasOffsetForm, IsOffsetError, IsOffsetText};

use crate::error::ParseError;
use crate::offset::form::scan_offset;
use crate::offset::from_numbers::offset_from_numbers;
use crate::offset::numbers::OffsetNumbers;
use crate::scanner::Scanner;
use cal_time::UtcOffset;

pub(crate) mod form;
pub(crate) mod from_numbers;
pub(crate) mod numbers;

/// Parses an offset from UTC: `Z` or `z`, or a sign and two digits each of the hours, the minutes
/// and optionally the seconds, such as `+05:30` or `-01:00:15`.
///
/// `-00:00:01` is -1 second, and `-00:00` is UTC.
///
/// Returns `UnexpectedByte` or `UnexpectedEnd` for any other form. Otherwise returns `OutOfRange`
/// with the first component out of range: `offset hour` above 25, `offset minute` or
/// `offset second`. `Zx` is `UnexpectedByte(1)`.
pub fn parse(text: &[u8]) -> Result<UtcOffset, ParseError>
    ensures every { (o : ℤ) → IsOffsetText text.now o → result ≡ Ok o }
    ensures value { IfOk result (IsOffsetText text.now) }
    ensures syntax_error { FailsWithSyntax result
        ↔ ((o : OffsetNumbers) → ¬ HasOffsetForm text.now o) }
    ensures position { IfErr result (IsErrorAtStop (HasSome HasOffsetForm) text.now) }
    ensures out_of_range { (why : ComponentRange)
        → FailsWithComponent why result ↔ HasError HasOffsetForm IsOffsetError text.now why }
{
    let mut scanner = Scanner { rest: text };
    match scan_offset(&mut scanner) {
        Some(numbers) => match offset_from_numbers(numbers) {
            Ok(offset) => Ok(offset),
            Err(error) => Err(ParseError::OutOfRange(error)),
        },
        None => {
            let position = text.len() - scanner.rest.len();
            Err(ParseError::unexpected(position, text.len()))
        }
    }
}

/// Returns the numbers of an offset that [`parse`] accepts, in range or not. Returns `None` for any
/// other form. `-26:60` has a minus sign, the hours 26 and the minutes 60.
pub fn parse_numbers(text: &[u8]) -> Option<OffsetNumbers>
    ensures every { (o : OffsetNumbers) → HasOffsetForm text.now o → result ≡ Some o }
    ensures value { IfSome result (HasOffsetForm text.now) }
{
    let mut scanner = Scanner { rest: text };
    scan_offset(&mut scanner)
}
