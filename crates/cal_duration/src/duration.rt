//! Exact durations in text, such as `PT2H30M`.
ghost use Rattle.std.specs.Prelude.{◌≡◌, ◌↔◌, ◌≤◌, ℤ, IfErr, IfOk, Ok, length};
ghost use Rattle.cal_text.specs.Position.{HasSome};
ghost use Rattle.cal_duration.specs.declared.error.DurationComponent.{DurationComponent};
ghost use Rattle.cal_duration.specs.declared.numbers.Numbers.{Numbers};
ghost use Rattle.cal_duration.specs.DurationText.{duration_text};
ghost use Rattle.cal_duration.specs.Form.{HasDurationForm};
ghost use Rattle.cal_duration.specs.Parsing.{FailsWithComponent, FailsWithSyntax, HasError, IsErrorAtStop};
ghost use Rattle.cal_duration.specs.Values.{IsDurationError, IsDurationText};

use crate::error::ParseDurationError;
use crate::form::scan_duration;
use crate::from_numbers::duration_from_numbers;
use crate::text::{clock, sign};
use cal_text::Scanner;
use cal_time::{ShortText, SignedDuration};

/// Parses an exact duration, such as `PT2H30M0.5S`, `-PT90M` or `PT36H`.
///
/// After the letters PT come hours (H), minutes (M) and seconds (S), at least one of them, as in a
/// [period](super::period::parse). Years, months, weeks and days have no exact length and are
/// rejected.
///
/// Returns `UnexpectedByte` or `UnexpectedEnd` for any other form, and `OutOfRange` with the first
/// part that is out of range: the hours, the hours and the minutes, and all parts together fit in a
/// `SignedDuration`.
pub fn parse(text: &[u8]) -> Result<SignedDuration, ParseDurationError>
    ensures every { (v : ℤ) → IsDurationText text.now v → result ≡ Ok v }
    ensures value { IfOk result (IsDurationText text.now) }
    ensures syntax_error { FailsWithSyntax result ↔ ((m : Numbers) → ¬ HasDurationForm text.now m) }
    ensures position { IfErr result (IsErrorAtStop (HasSome HasDurationForm) text.now) }
    ensures out_of_range { (why : DurationComponent)
        → FailsWithComponent why result ↔ HasError HasDurationForm IsDurationError text.now why }
{
    let mut scanner = Scanner { rest: text };
    match scan_duration(&mut scanner) {
        Some(numbers) => match duration_from_numbers(numbers) {
            Ok(duration) => Ok(duration),
            Err(component) => Err(ParseDurationError::OutOfRange(component)),
        },
        None => {
            let position = text.len() - scanner.rest.len();
            Err(ParseDurationError::unexpected(position, text.len()))
        }
    }
}

/// Returns the text of an exact duration, such as `PT2H30M0.5S` or `-PT36H`: hours, at most 59
/// minutes and less than 60 seconds, without parts that are zero. Zero is `PT0S`. It has at most 36
/// bytes, and [`parse`] gives the duration back.
pub fn text(duration: SignedDuration) -> ShortText
    ensures value { result ≡ duration_text duration }
    ensures parses { IsDurationText (duration_text duration) duration }
    ensures max_length { length result ≤ 36 }
{
    // This call states that the duration is in range. It costs nothing.
    let _ = duration.whole_nanoseconds();
    let mut text = ShortText::new();
    if duration.is_zero() {
        text.push("PT0S");
        return text;
    }
    let (seconds, nanoseconds) = duration.unsigned_abs();
    text.push(sign(duration.is_negative()));
    text.push("PT");
    text.push(clock(seconds, nanoseconds).as_str());
    text
}
