//! Rounding of times of day.
ghost use Rattle.std.specs.Prelude.{◌≡◌, pos, ◌*◌, ◌<◌};
ghost use Rattle.cal_time.specs.SignedDuration.{day};
ghost use Rattle.cal_rounding.specs.Rounding.{IsRounded, IsRoundedTime};

use crate::magnitude::rounded_magnitude;
use crate::{RoundingMode, RoundingUnit};
use cal_time::{Counted, SignedDuration, Time};

/// Rounds a time of day to a multiple of a unit since midnight. A time that is rounded to 24:00
/// becomes 0:00.
///
/// 9:07:30 rounded to 15 minutes is 9:00 by `Floor`, 9:15 by `Ceil` and `HalfCeil`, and 9:00 by
/// `HalfEven`. 23:59 rounded to an hour by `HalfCeil` is 0:00.
pub fn round_time(time: Time, unit: RoundingUnit, mode: RoundingMode) -> Time
    ensures { IsRoundedTime mode unit time result }
{
    let (_, rounded) = Time::MIDNIGHT.adjusting_add(rounded_since_midnight(time, unit, mode));
    rounded
}

/// Returns the time since midnight to which a time of day is rounded, up to 24 hours.
pub(crate) fn rounded_since_midnight(
    time: Time,
    unit: RoundingUnit,
    mode: RoundingMode,
) -> SignedDuration
    ensures { IsRounded mode unit (pos time) result }
{
    let unit = u128::from(unit.nanoseconds());
    duration(rounded_magnitude(nanoseconds(time), unit, false, mode))
}

/// Returns the nanoseconds since midnight.
fn nanoseconds(time: Time) -> u128
    ensures value { result ≡ time }
    ensures range { result < day }
{
    let _ = time.hour();
    time.number() as u128
}

/// Returns a duration of nanoseconds.
fn duration(nanoseconds: u128) -> SignedDuration
    requires { nanoseconds < 2 * day }
    ensures { result ≡ pos nanoseconds }
{
    SignedDuration::nanoseconds(nanoseconds as i64)
}
