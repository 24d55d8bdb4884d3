//! Rounding of whole numbers, by their magnitudes.
ghost use Rattle.std.specs.Prelude.{◌≡◌, ℕ, ◌+◌, ◌*◌, ◌<◌, ◌^◌, IsTrue};
ghost use Rattle.cal_time.specs.SignedDuration.{with_sign};
ghost use Rattle.cal_rounding.specs.Rounding.{IsRounded};

use crate::RoundingMode;

/// Returns the magnitude of a number, rounded to a multiple of a unit.
pub(crate) fn rounded_magnitude(
    magnitude: u128,
    unit: u128,
    is_negative: bool,
    mode: RoundingMode,
) -> u128
    requires bounds { (magnitude < 2 ^ 96) × (unit < 2 ^ 96) }
    requires unit { 0 < unit }
    ensures value { IsRounded mode unit (with_sign is_negative magnitude)
        (with_sign is_negative result) }
    ensures near { result < magnitude + unit }
{
    let past = magnitude % unit;
    let truncated = magnitude - past;
    if is_away_from_zero(magnitude / unit, past, unit, is_negative, mode) {
        truncated + unit
    } else {
        truncated
    }
}

/// Returns `true` if a number is rounded away from zero. Its magnitude is a multiple of the unit and
/// the part past it.
pub(crate) fn is_away_from_zero(
    number: u128,
    past: u128,
    unit: u128,
    is_negative: bool,
    mode: RoundingMode,
) -> bool
    requires { past < unit }
    ensures away { IsTrue result → IsRounded mode unit (with_sign is_negative (number * unit + past))
        (with_sign is_negative ((number + 1) * unit)) }
    ensures toward { ¬ IsTrue result
        → IsRounded mode unit (with_sign is_negative (number * unit + past))
        (with_sign is_negative (number * unit)) }
    ensures past { IsTrue result → 0 < past }
{
    match mode {
        RoundingMode::Floor => is_negative && past > 0,
        RoundingMode::Ceil => !is_negative && past > 0,
        RoundingMode::Trunc => false,
        RoundingMode::HalfCeil if is_negative => unit - past < past,
        RoundingMode::HalfCeil => unit - past <= past,
        RoundingMode::HalfEven => { unit - past < past || (unit - past == past && number % 2 == 1) }
    }
}
