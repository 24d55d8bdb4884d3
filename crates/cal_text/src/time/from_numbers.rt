//! The time of day with the numbers of a text.
ghost use Rattle.std.specs.Prelude.{◌≡◌, ◌⊎◌, ℕ, ◌≤◌, ◌<◌, ◌↔◌, IfOk, IfErr, Ok};
ghost use Rattle.cal_time.specs.ComponentError.{FailsWith};
ghost use Rattle.cal_time.specs.Time.{hour_out_of_range, minute_out_of_range, second_out_of_range};
ghost use Rattle.cal_text.specs.TimeForm.{IsTimeOf};

use crate::time::numbers::TimeNumbers;
use cal_time::Time;
use cal_time::error::ComponentRange;

/// Returns the time of day with the numbers of a text, or the error of the first component out of
/// range: `hour`, `minute` or `second`.
pub fn time_from_numbers(numbers: TimeNumbers) -> Result<Time, ComponentRange>
    requires { numbers.nanosecond < 1_000_000_000 }
    ensures every { (t : ℕ) → IsTimeOf numbers t → result ≡ Ok t }
    ensures value { IfOk result (IsTimeOf numbers) }
    ensures error_kind { IfErr result (λ e.
        (e ≡ hour_out_of_range) ⊎ (e ≡ minute_out_of_range) ⊎ (e ≡ second_out_of_range)) }
    ensures hour { FailsWith hour_out_of_range result ↔ (23 < numbers.hour) }
    ensures minute { FailsWith minute_out_of_range result
        ↔ (numbers.hour ≤ 23) × (59 < numbers.minute) }
    ensures second { FailsWith second_out_of_range result
        ↔ (numbers.hour ≤ 23) × (numbers.minute ≤ 59) × (59 < numbers.second) }
{
    Time::from_hms_nano(
        numbers.hour,
        numbers.minute,
        numbers.second,
        numbers.nanosecond,
    )
}
