//! Times of day.
ghost use Rattle.std.specs.Prelude.{◌≡◌, ℕ, ◌↔◌, IfOk, IfErr, IfSome, Ok, Some};
ghost use Rattle.cal_time.specs.declared.error.ComponentRange.{ComponentRange};
ghost use Rattle.cal_text.specs.declared.time.numbers.TimeNumbers.{TimeNumbers};
ghost use Rattle.cal_text.specs.Position.{HasSome, IsErrorAtStop};
ghost use Rattle.cal_text.specs.Parsing.{HasError, FailsWithComponent, FailsWithSyntax};
ghost use Rattle.cal_text.specs.TimeForm.{HasTimeForm, IsTimeError, IsTimeText};

use crate::error::ParseError;
use crate::scanner::Scanner;
use crate::time::form::scan_whole_time;
use crate::time::from_numbers::time_from_numbers;
use crate::time::numbers::TimeNumbers;
use cal_time::Time;

pub(crate) mod form;
pub(crate) mod from_numbers;
pub(crate) mod numbers;

/// Parses a time of day, such as `9:05` or `23:59:59.25`.
///
/// The hour has one or two digits, the minute and the second have two. A text without the second
/// has the second 0. After the second can follow a point and one to nine digits.
///
/// Returns `UnexpectedByte` or `UnexpectedEnd` for any other form. Otherwise returns `OutOfRange`
/// with the first component out of range: `hour`, `minute` or `second`. `9:05:` is
/// `UnexpectedEnd(5)`, and `24:00` is `OutOfRange` with `hour`.
pub fn parse(text: &[u8]) -> Result<Time, ParseError>
    ensures every { (t : ℕ) → IsTimeText text.now t → result ≡ Ok t }
    ensures value { IfOk result (IsTimeText text.now) }
    ensures syntax_error { FailsWithSyntax result ↔ ((t : TimeNumbers) → ¬ HasTimeForm text.now t) }
    ensures position { IfErr result (IsErrorAtStop (HasSome HasTimeForm) text.now) }
    ensures out_of_range { (why : ComponentRange)
        → FailsWithComponent why result ↔ HasError HasTimeForm IsTimeError text.now why }
{
    let mut scanner = Scanner { rest: text };
    match scan_whole_time(&mut scanner) {
        Some(numbers) => match time_from_numbers(numbers) {
            Ok(time) => Ok(time),
            Err(error) => Err(ParseError::OutOfRange(error)),
        },
        None => {
            let position = text.len() - scanner.rest.len();
            Err(ParseError::unexpected(position, text.len()))
        }
    }
}

/// Returns the numbers of a time of day that [`parse`] accepts, in range or not. Returns `None` for any
/// other form. `24:60` has the hour 24 and the minute 60.
pub fn parse_numbers(text: &[u8]) -> Option<TimeNumbers>
    ensures every { (t : TimeNumbers) → HasTimeForm text.now t → result ≡ Some t }
    ensures value { IfSome result (HasTimeForm text.now) }
{
    let mut scanner = Scanner { rest: text };
    scan_whole_time(&mut scanner)
}
