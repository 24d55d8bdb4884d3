//! The date-time with the numbers of a text.
ghost use Rattle.std.specs.Prelude.{◌≡◌, ℤ, ◌<◌, ◌↔◌, IfOk, Ok};
ghost use Rattle.cal_time.specs.ComponentError.{FailsWith};
ghost use Rattle.cal_time.specs.declared.error.ComponentRange.{ComponentRange};
ghost use Rattle.cal_text.specs.DateForms.{DigitsFit};
ghost use Rattle.cal_text.specs.PlainForm.{IsPlainOf, IsPlainError};

use crate::date::from_numbers::date_from_numbers;
use crate::plain::numbers::PlainNumbers;
use crate::time::from_numbers::time_from_numbers;
use cal_datetime::PlainDateTime;
use cal_time::error::ComponentRange;

/// Returns the date-time with the numbers of a text, or the error of the first component out of
/// range: of the date, then of the time of day.
pub fn plain_from_numbers(numbers: PlainNumbers) -> Result<PlainDateTime, ComponentRange>
    requires { DigitsFit numbers.date × (numbers.time.nanosecond < 1_000_000_000) }
    ensures every { (p : ℤ) → IsPlainOf numbers p → result ≡ Ok p }
    ensures value { IfOk result (IsPlainOf numbers) }
    ensures error { (why : ComponentRange) → FailsWith why result ↔ IsPlainError numbers why }
{
    match date_from_numbers(numbers.date) {
        Ok(date) => match time_from_numbers(numbers.time) {
            Ok(time) => Ok(PlainDateTime::new(date, time)),
            Err(error) => Err(error),
        },
        Err(error) => Err(error),
    }
}
