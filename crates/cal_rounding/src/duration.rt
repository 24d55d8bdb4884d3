//! Rounding of durations.
ghost use Rattle.std.specs.Prelude.{◌≡◌, pos, ◌^◌, ◌<◌, ◌<ℤ◌, ◌≤ℤ◌, None, unsigned_abs, SomeIff};
ghost use Rattle.cal_time.specs.SignedDuration.{with_sign, IsDuration};
ghost use Rattle.cal_rounding.specs.Rounding.{RoundsWithin};

use crate::RoundingMode;
use crate::magnitude::rounded_magnitude;
use cal_time::SignedDuration;

const MIN_NANOSECONDS: i128 = -9_223_372_036_854_775_808_999_999_999;

const MAX_NANOSECONDS: i128 = 9_223_372_036_854_775_807_999_999_999;

/// Rounds a duration to a multiple of another duration. Returns `None` if `unit` isn't positive or
/// the result is out of range.
///
/// -90 s rounded to a minute is -2 minutes by `Floor` and `HalfEven`, and -1 minute by `Ceil`,
/// `Trunc` and `HalfCeil`.
pub fn round_duration(
    duration: SignedDuration,
    unit: SignedDuration,
    mode: RoundingMode,
) -> Option<SignedDuration>
    ensures value { pos 0 <ℤ unit
        → RoundsWithin IsDuration mode (unsigned_abs unit) duration result }
    ensures unit { unit ≤ℤ pos 0 → result ≡ None }
{
    if !unit.is_positive() {
        return None;
    }
    let is_negative = duration.is_negative();
    let rounded = rounded_magnitude(magnitude(duration), magnitude(unit), is_negative, mode);
    checked_duration(rounded, is_negative)
}

/// Returns the magnitude in nanoseconds.
pub(crate) fn magnitude(duration: SignedDuration) -> u128
    ensures value { result ≡ unsigned_abs duration }
    ensures range { result < 2 ^ 94 }
{
    duration.whole_nanoseconds().unsigned_abs()
}

/// Returns the duration with a sign and a magnitude in nanoseconds, or `None` if it is out of range.
fn checked_duration(magnitude: u128, is_negative: bool) -> Option<SignedDuration>
    requires { magnitude < 2 ^ 96 }
    ensures { SomeIff result (IsDuration (with_sign is_negative magnitude))
        (with_sign is_negative magnitude) }
{
    let nanoseconds = signed(magnitude, is_negative);
    if nanoseconds < MIN_NANOSECONDS || MAX_NANOSECONDS < nanoseconds {
        return None;
    }
    Some(SignedDuration::nanoseconds_i128(nanoseconds))
}

/// Returns the number with a sign and a magnitude.
fn signed(magnitude: u128, is_negative: bool) -> i128
    requires { magnitude < 2 ^ 96 }
    ensures { result ≡ with_sign is_negative magnitude }
{
    if is_negative {
        -(magnitude as i128)
    } else {
        magnitude as i128
    }
}
