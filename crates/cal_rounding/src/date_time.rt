//! Rounding of date-times.
ghost use Rattle.std.specs.Prelude.{ℤ};
ghost use Rattle.cal_rounding.specs.Rounding.{RoundsTimeOf};

use crate::time::rounded_since_midnight;
use crate::{RoundingMode, RoundingUnit};
use cal_datetime::{OffsetDateTime, PlainDateTime, midnight};

/// Rounds a date-time to a multiple of a unit since the midnight before it. Returns `None` if the
/// result is out of range.
///
/// 2024-02-29 23:50 rounded to an hour by `HalfCeil` is 2024-03-01 0:00.
pub fn round_date_time(
    local: PlainDateTime,
    unit: RoundingUnit,
    mode: RoundingMode,
) -> Option<PlainDateTime>
    ensures { RoundsTimeOf mode unit local (λ (z : ℤ). z) result }
{
    midnight(local.date()).checked_add(rounded_since_midnight(local.time(), unit, mode))
}

/// Rounds the local date-time of a date-time at an offset, as [`round_date_time`] does, and keeps
/// the offset. Returns `None` if the local result is out of range.
///
/// 2024-02-29 23:50 +01:00:00 rounded to an hour by `HalfCeil` is 2024-03-01 0:00 +01:00:00.
pub fn round_offset_date_time(
    moment: OffsetDateTime,
    unit: RoundingUnit,
    mode: RoundingMode,
) -> Option<OffsetDateTime>
    ensures { RoundsTimeOf mode unit moment.local
        (λ z. record { local = z; offset = moment.offset }) result }
{
    match round_date_time(moment.local(), unit, mode) {
        Some(local) => Some(local.assume_offset(moment.offset())),
        None => None,
    }
}
