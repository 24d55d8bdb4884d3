//! The offset with the numbers of a text.
ghost use Rattle.std.specs.Prelude.{◌≡◌, ◌⊎◌, ℤ, pos, neg_ℤ, ◌≤◌, ◌<◌, ◌↔◌, IfOk, IfErr, Ok, if◌then◌else◌};
ghost use Rattle.cal_time.specs.ComponentError.{FailsWith};
ghost use Rattle.cal_time.specs.UtcOffset.{max_offset_seconds, offset_hour_out_of_range, offset_minute_out_of_range, offset_second_out_of_range};
ghost use Rattle.cal_text.specs.OffsetForm.{magnitude, IsOffsetOf};

use crate::offset::numbers::OffsetNumbers;
use cal_time::UtcOffset;
use cal_time::error::{Component, ComponentRange};

/// Returns the offset with these numbers, or the error of the first component out of range.
pub(crate) fn offset_from_numbers(numbers: OffsetNumbers) -> Result<UtcOffset, ComponentRange>
    ensures every { (o : ℤ) → IsOffsetOf numbers o → result ≡ Ok o }
    ensures value { IfOk result (IsOffsetOf numbers) }
    ensures error_kind { IfErr result (λ e.
        (e ≡ offset_hour_out_of_range) ⊎ (e ≡ offset_minute_out_of_range)
        ⊎ (e ≡ offset_second_out_of_range)) }
    ensures hour { FailsWith offset_hour_out_of_range result ↔ (25 < numbers.hours) }
    ensures minute { FailsWith offset_minute_out_of_range result
        ↔ (numbers.hours ≤ 25) × (59 < numbers.minutes) }
    ensures second { FailsWith offset_second_out_of_range result
        ↔ (numbers.hours ≤ 25) × (numbers.minutes ≤ 59) × (59 < numbers.seconds) }
{
    if numbers.hours > 25 {
        return Err(ComponentRange::unconditional(Component::OffsetHour));
    }
    if numbers.minutes > 59 {
        return Err(ComponentRange::unconditional(Component::OffsetMinute));
    }
    if numbers.seconds > 59 {
        return Err(ComponentRange::unconditional(Component::OffsetSecond));
    }
    offset_with_sign(numbers.is_negative, total_seconds(numbers))
}

/// Returns the total seconds of the numbers, without the sign.
fn total_seconds(numbers: OffsetNumbers) -> u32
    ensures { result ≡ magnitude numbers }
{
    3600 * u32::from(numbers.hours) + 60 * u32::from(numbers.minutes) + u32::from(numbers.seconds)
}

/// Returns the offset of a magnitude in seconds with this sign.
fn offset_with_sign(is_negative: bool, magnitude: u32) -> Result<UtcOffset, ComponentRange>
    requires { magnitude ≤ max_offset_seconds }
    ensures { result ≡ Ok (if is_negative then neg_ℤ (pos magnitude) else pos magnitude) }
{
    let seconds = magnitude as i32;
    if is_negative {
        return UtcOffset::from_whole_seconds(-seconds);
    }
    UtcOffset::from_whole_seconds(seconds)
}
