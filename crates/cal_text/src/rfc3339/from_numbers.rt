//! The moment with the numbers of a text.
ghost use Rattle.std.specs.Prelude.{◌≡◌, ◌⊎◌, ◌+◌, ◌*◌, ℤ, ◌≤◌, ◌<◌, ◌↔◌, pos, neg_ℤ, IfOk, IfErr, Ok, if◌then◌else◌};
ghost use Rattle.cal_time.specs.Date.{IsDayOfMonth};
ghost use Rattle.cal_time.specs.Month.{month_out_of_range};
ghost use Rattle.cal_time.specs.ComponentError.{FailsWith};
ghost use Rattle.cal_time.specs.DateErrors.{day_out_of_range};
ghost use Rattle.cal_time.specs.Time.{hour_out_of_range, minute_out_of_range, second_out_of_range};
ghost use Rattle.cal_time.specs.UtcOffset.{offset_hour_out_of_range, offset_minute_out_of_range};
ghost use Rattle.cal_datetime.specs.OffsetDateTime.{LocalAndOffset};
ghost use Rattle.cal_text.specs.Parsing.{IsMonth};
ghost use Rattle.cal_text.specs.Rfc3339Form.{NumbersFit, IsMomentOf, IsOffsetOf, HasDay, HasClock, ExceedsHours, ExceedsMinutes};

use crate::date::from_numbers::calendar_date_from_numbers;
use crate::rfc3339::numbers::{Numbers, TimeOffset};
use cal_datetime::OffsetDateTime;
use cal_time::error::{Component, ComponentRange};
use cal_time::{Time, UtcOffset};

/// Returns the moment with these numbers, or the error of the first component out of range.
#[tactic(auto, using(crate::proofs::Moments::parts))]
pub(super) fn moment_from_numbers(numbers: Numbers) -> Result<OffsetDateTime, ComponentRange>
    requires { NumbersFit numbers }
    ensures every { (m : LocalAndOffset) → IsMomentOf numbers m → result ≡ Ok m }
    ensures value { IfOk result (IsMomentOf numbers) }
    ensures error_kind { IfErr result (λ e.
        (e ≡ month_out_of_range) ⊎ (e ≡ day_out_of_range) ⊎ (e ≡ hour_out_of_range)
        ⊎ (e ≡ minute_out_of_range)
        ⊎ (e ≡ second_out_of_range) ⊎ (e ≡ offset_hour_out_of_range)
        ⊎ (e ≡ offset_minute_out_of_range)) }
    ensures month { FailsWith month_out_of_range result ↔ ¬ IsMonth numbers.month }
    ensures day { FailsWith day_out_of_range result
        ↔ IsMonth numbers.month × ¬ IsDayOfMonth (pos numbers.year) numbers.month numbers.day }
    ensures hour { FailsWith hour_out_of_range result ↔ HasDay numbers × (23 < numbers.hour) }
    ensures minute { FailsWith minute_out_of_range result
        ↔ HasDay numbers × (numbers.hour ≤ 23) × (59 < numbers.minute) }
    ensures second { FailsWith second_out_of_range result
        ↔ HasDay numbers × (numbers.hour ≤ 23) × (numbers.minute ≤ 59) × (59 < numbers.second) }
    ensures offset_hour { FailsWith offset_hour_out_of_range result
        ↔ HasClock numbers × ExceedsHours numbers.offset }
    ensures offset_minute { FailsWith offset_minute_out_of_range result
        ↔ HasClock numbers × ExceedsMinutes numbers.offset }
{
    let date = calendar_date_from_numbers(i32::from(numbers.year), numbers.month, numbers.day)?;
    let time = Time::from_hms_nano(
        numbers.hour,
        numbers.minute,
        numbers.second,
        numbers.nanosecond,
    )?;
    let offset = offset_from_numbers(numbers.offset)?;
    Ok(OffsetDateTime::new_in_offset(date, time, offset))
}

/// Returns the offset, or the error `offset hour` above 23, or else `offset minute` above 59.
fn offset_from_numbers(offset: TimeOffset) -> Result<UtcOffset, ComponentRange>
    ensures every { (o : ℤ) → IsOffsetOf offset o → result ≡ Ok o }
    ensures value { IfOk result (IsOffsetOf offset) }
    ensures error_kind { IfErr result (λ e.
        (e ≡ offset_hour_out_of_range) ⊎ (e ≡ offset_minute_out_of_range)) }
    ensures hour { FailsWith offset_hour_out_of_range result ↔ ExceedsHours offset }
    ensures minute { FailsWith offset_minute_out_of_range result ↔ ExceedsMinutes offset }
{
    let TimeOffset::Signed(is_west, hours, minutes) = offset else {
        return Ok(UtcOffset::UTC);
    };
    if hours > 23 {
        return Err(ComponentRange::unconditional(Component::OffsetHour));
    }
    if minutes > 59 {
        return Err(ComponentRange::unconditional(Component::OffsetMinute));
    }
    let seconds = 3600 * i32::from(hours) + 60 * i32::from(minutes);
    if is_west {
        return UtcOffset::from_whole_seconds(-seconds);
    }
    UtcOffset::from_whole_seconds(seconds)
}
