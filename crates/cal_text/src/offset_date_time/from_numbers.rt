//! The moment with the numbers of a text.
ghost use Rattle.std.specs.Prelude.{◌≡◌, ◌<◌, ◌↔◌, IfOk, Ok};
ghost use Rattle.cal_time.specs.ComponentError.{FailsWith};
ghost use Rattle.cal_time.specs.declared.error.ComponentRange.{ComponentRange};
ghost use Rattle.cal_datetime.specs.OffsetDateTime.{LocalAndOffset};
ghost use Rattle.cal_text.specs.DateForms.{DigitsFit};
ghost use Rattle.cal_text.specs.OffsetDateTimeForm.{IsOffsetDateTimeOf, IsOffsetDateTimeError};

use crate::offset::from_numbers::offset_from_numbers;
use crate::offset_date_time::numbers::OffsetDateTimeNumbers;
use crate::plain::from_numbers::plain_from_numbers;
use cal_datetime::OffsetDateTime;
use cal_time::error::ComponentRange;

/// Returns the moment with the numbers of a text, or the error of the first component out of range:
/// of the local date-time, then of the offset.
pub fn moment_from_numbers(numbers: OffsetDateTimeNumbers) -> Result<OffsetDateTime, ComponentRange>
    requires { DigitsFit numbers.local.date × (numbers.local.time.nanosecond < 1_000_000_000) }
    ensures every { (m : LocalAndOffset) → IsOffsetDateTimeOf numbers m → result ≡ Ok m }
    ensures value { IfOk result (IsOffsetDateTimeOf numbers) }
    ensures error { (why : ComponentRange)
        → FailsWith why result ↔ IsOffsetDateTimeError numbers why }
{
    match plain_from_numbers(numbers.local) {
        Ok(local) => match offset_from_numbers(numbers.offset) {
            Ok(offset) => Ok(local.assume_offset(offset)),
            Err(error) => Err(error),
        },
        Err(error) => Err(error),
    }
}
