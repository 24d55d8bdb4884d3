//! Periods in text, such as `P1Y2M10DT2H30M`.
ghost use Rattle.std.specs.Prelude.{◌≡◌, ◌↔◌, IfErr, IfOk, Ok};
ghost use Rattle.cal_text.specs.Position.{HasSome};
ghost use Rattle.cal_schedule.specs.Period.{Parts};
ghost use Rattle.cal_duration.specs.declared.error.DurationComponent.{DurationComponent};
ghost use Rattle.cal_duration.specs.declared.numbers.Numbers.{Numbers};
ghost use Rattle.cal_duration.specs.Form.{HasPeriodForm};
ghost use Rattle.cal_duration.specs.Parsing.{FailsWithComponent, FailsWithSyntax, HasError, IsErrorAtStop};
ghost use Rattle.cal_duration.specs.Values.{IsPeriodError, IsPeriodText};

use crate::error::ParseDurationError;
use crate::form::scan_period;
use crate::from_numbers::period_from_numbers;
use cal_schedule::Period;
use cal_text::Scanner;

mod text;

pub use text::Text;

/// Parses a period, such as `P1Y2M10DT2H30M0.5S`, `-P1D`, `PT36H` or `P2W`.
///
/// After the letter P come years (Y), months (M), weeks (W) and days (D), and after the letter T
/// hours (H), minutes (M) and seconds (S). Each part may be left out, but not all, and T needs a
/// part after it. The letters are capitals. A number may have leading zeros. Only the seconds may
/// have a fraction, of one to nine digits after a point or a comma. A minus sign before the P makes
/// all parts negative.
///
/// Returns `UnexpectedByte` or `UnexpectedEnd` for any other form, and `OutOfRange` with the first
/// part that is out of range: years, months, weeks and days fit in an `i32`, and hours, minutes and
/// seconds together in a `SignedDuration`.
pub fn parse(text: &[u8]) -> Result<Period, ParseDurationError>
    ensures every { (p : Parts) → IsPeriodText text.now p → result ≡ Ok p }
    ensures value { IfOk result (IsPeriodText text.now) }
    ensures syntax_error { FailsWithSyntax result ↔ ((m : Numbers) → ¬ HasPeriodForm text.now m) }
    ensures position { IfErr result (IsErrorAtStop (HasSome HasPeriodForm) text.now) }
    ensures out_of_range { (why : DurationComponent)
        → FailsWithComponent why result ↔ HasError HasPeriodForm IsPeriodError text.now why }
{
    let mut scanner = Scanner { rest: text };
    match scan_period(&mut scanner) {
        Some(numbers) => match period_from_numbers(numbers) {
            Ok(period) => Ok(period),
            Err(component) => Err(ParseDurationError::OutOfRange(component)),
        },
        None => {
            let position = text.len() - scanner.rest.len();
            Err(ParseDurationError::unexpected(position, text.len()))
        }
    }
}
