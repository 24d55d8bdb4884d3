//! Offsets from UTC, in seconds.
ghost use Rattle.std.specs.Prelude.{◌≡◌, ◌<◌, ◌≤◌, neg_ℤ, unsigned_abs};
ghost use Rattle.cal_time.specs.UtcOffset.{IsOffset, offset_of, whole_hours, whole_minutes, minutes_past_hour, seconds_past_minute};
ghost use Rattle.cal_c.specs.Results.{offset_ok, offset_error, offset_hms_ok, offset_hms_error, number_ok, number_error};
ghost use Rattle.cal_c.specs.declared.status.TheConstants.{OFFSET_HOUR_OUT_OF_RANGE, OFFSET_MINUTE_OUT_OF_RANGE, OFFSET_SECOND_OUT_OF_RANGE};

use crate::results::{NumberResult, OffsetHmsResult, OffsetResult};
use crate::status::{INVALID_OFFSET, OK, SECONDS_OUT_OF_RANGE};
use crate::values::{saturating_i8, valid_offset};
use cal_time::UtcOffset;

/// Creates an offset from hours, minutes and seconds. The first that isn't 0 gives the sign of all.
/// Returns the error `offset hour` outside -25 to 25, then `offset minute` or `offset second`
/// outside -59 to 59. -1, 30 and 0 give -5400.
#[unsafe(no_mangle)]
pub extern "C" fn fots_offset_from_hms(hours: i32, minutes: i32, seconds: i32) -> OffsetResult
    ensures hour { 25 < unsigned_abs hours → result ≡ offset_error OFFSET_HOUR_OUT_OF_RANGE }
    ensures minute { unsigned_abs hours ≤ 25 → 59 < unsigned_abs minutes
        → result ≡ offset_error OFFSET_MINUTE_OUT_OF_RANGE }
    ensures second { unsigned_abs hours ≤ 25 → unsigned_abs minutes ≤ 59 → 59 < unsigned_abs seconds
        → result ≡ offset_error OFFSET_SECOND_OUT_OF_RANGE }
    ensures value { unsigned_abs hours ≤ 25 → unsigned_abs minutes ≤ 59 → unsigned_abs seconds ≤ 59
        → result ≡ offset_ok (offset_of hours minutes seconds) }
{
    ok_or_error!(
        OffsetResult,
        UtcOffset::from_hms(
            saturating_i8(hours),
            saturating_i8(minutes),
            saturating_i8(seconds),
        )
    )
}

/// Creates an offset from seconds, from -93599 to 93599. Returns the error `seconds` outside.
#[unsafe(no_mangle)]
pub extern "C" fn fots_offset_from_whole_seconds(seconds: i64) -> OffsetResult
    ensures seconds { ¬ IsOffset seconds → result ≡ offset_error SECONDS_OUT_OF_RANGE }
    ensures value { IsOffset seconds → result ≡ offset_ok seconds }
{
    let seconds =
        or_return!(i32::try_from(seconds), _ => OffsetResult::error(SECONDS_OUT_OF_RANGE));
    let offset = or_error!(OffsetResult, valid_offset(seconds), SECONDS_OUT_OF_RANGE);
    OffsetResult::ok(offset)
}

/// Returns the hours, minutes and seconds, all of one sign. For -5400 they are -1, -30 and 0.
#[unsafe(no_mangle)]
pub extern "C" fn fots_offset_as_hms(offset: i32) -> OffsetHmsResult
    ensures invalid_offset { ¬ IsOffset offset → result ≡ offset_hms_error INVALID_OFFSET }
    ensures value { IsOffset offset → result ≡ offset_hms_ok offset }
{
    let offset = or_error!(OffsetHmsResult, valid_offset(offset), INVALID_OFFSET);
    let (hours, minutes, seconds) = offset.as_hms();
    OffsetHmsResult {
        status: OK,
        hours: i32::from(hours),
        minutes: i32::from(minutes),
        seconds: i32::from(seconds),
    }
}

/// Negates an offset. -5400 becomes 5400.
#[unsafe(no_mangle)]
pub extern "C" fn fots_offset_neg(offset: i32) -> OffsetResult
    ensures invalid_offset { ¬ IsOffset offset → result ≡ offset_error INVALID_OFFSET }
    ensures value { IsOffset offset → result ≡ offset_ok (neg_ℤ offset) }
{
    let offset = or_error!(OffsetResult, valid_offset(offset), INVALID_OFFSET);
    OffsetResult::ok(-offset)
}

/// Returns the whole hours, truncated toward zero. For -5400 it is -1.
#[unsafe(no_mangle)]
pub extern "C" fn fots_offset_whole_hours(offset: i32) -> NumberResult
    ensures invalid_offset { ¬ IsOffset offset → result ≡ number_error INVALID_OFFSET }
    ensures value { IsOffset offset → result ≡ number_ok (whole_hours offset) }
{
    let offset = or_error!(NumberResult, valid_offset(offset), INVALID_OFFSET);
    NumberResult::ok(i32::from(offset.whole_hours()))
}

/// Returns the whole minutes, truncated toward zero. For -5400 it is -90.
#[unsafe(no_mangle)]
pub extern "C" fn fots_offset_whole_minutes(offset: i32) -> NumberResult
    ensures invalid_offset { ¬ IsOffset offset → result ≡ number_error INVALID_OFFSET }
    ensures value { IsOffset offset → result ≡ number_ok (whole_minutes offset) }
{
    let offset = or_error!(NumberResult, valid_offset(offset), INVALID_OFFSET);
    NumberResult::ok(i32::from(offset.whole_minutes()))
}

/// Returns the minutes past the whole hours, with the sign of the offset. For -5400 it is -30.
#[unsafe(no_mangle)]
pub extern "C" fn fots_offset_minutes_past_hour(offset: i32) -> NumberResult
    ensures invalid_offset { ¬ IsOffset offset → result ≡ number_error INVALID_OFFSET }
    ensures value { IsOffset offset → result ≡ number_ok (minutes_past_hour offset) }
{
    let offset = or_error!(NumberResult, valid_offset(offset), INVALID_OFFSET);
    NumberResult::ok(i32::from(offset.minutes_past_hour()))
}

/// Returns the seconds past the whole minutes, with the sign of the offset. For -5400 it is 0.
#[unsafe(no_mangle)]
pub extern "C" fn fots_offset_seconds_past_minute(offset: i32) -> NumberResult
    ensures invalid_offset { ¬ IsOffset offset → result ≡ number_error INVALID_OFFSET }
    ensures value { IsOffset offset → result ≡ number_ok (seconds_past_minute offset) }
{
    let offset = or_error!(NumberResult, valid_offset(offset), INVALID_OFFSET);
    NumberResult::ok(i32::from(offset.seconds_past_minute()))
}
