//! Laws: a number is rounded to one result, and a multiple stays.
ghost use Rattle.std.specs.Prelude.{◌≡◌, ℕ, ℤ, ◌<◌, [], ◌∷◌, Result};
ghost use Rattle.cal_zone.specs.declared.local_time_error.LocalTimeError.{LocalTimeError};
ghost use Rattle.cal_zoned.specs.Zoned.{InZone};
ghost use Rattle.cal_rounding.specs.InZone.{IsRoundedByClock, IsRoundedToDay};
ghost use Rattle.cal_rounding.specs.Rounding.{multiple, IsRounded, IsRoundingUnit};
ghost use Rattle.cal_rounding.specs.declared.rounding_mode.RoundingMode.{RoundingMode};

use crate::RoundingUnit;
use cal_zoned::ZonedDateTime;
use cal_zoned::laws::one_kept;

/// Proves that a number is rounded to one result.
pub fn one_rounded()
    ensures { (mode : RoundingMode) (unit : ℕ) (z a b : ℤ) → 0 < unit
        → IsRounded mode unit z a → IsRounded mode unit z b → a ≡ b }
{}

/// Proves that a multiple of the unit is rounded to itself, so rounding twice is rounding once.
pub fn keeps_multiples()
    ensures { (mode : RoundingMode) (unit : ℕ) (z r k : ℤ) → z ≡ multiple unit k
        → IsRounded mode unit z r → r ≡ z }
{}

/// Proves that a date-time in a zone is rounded to one result.
pub fn one_in_zone(value: &ZonedDateTime<'_>, unit: RoundingUnit)
    ensures day { (mode : RoundingMode) (a b : Result InZone LocalTimeError)
        → IsRoundedToDay mode value.now a → IsRoundedToDay mode value.now b → a ≡ b }
    ensures clock { (mode : RoundingMode) (a b : Result InZone LocalTimeError)
        → IsRoundedByClock mode unit value.now a → IsRoundedByClock mode unit value.now b → a ≡ b }
{
    one_kept(value);
    let _ = value.local();
    let _ = value.offset();
    let _ = unit.length();
}

/// Returns the units from the microsecond to the day, in nanoseconds.
pub fn units() -> [RoundingUnit; 6]
    ensures { result ≡ 1_000 ∷ 1_000_000 ∷ 1_000_000_000 ∷ 60_000_000_000 ∷ 3_600_000_000_000
        ∷ 86_400_000_000_000 ∷ [] }
{
    [
        RoundingUnit::MICROSECOND,
        RoundingUnit::MILLISECOND,
        RoundingUnit::SECOND,
        RoundingUnit::MINUTE,
        RoundingUnit::HOUR,
        RoundingUnit::DAY,
    ]
}
