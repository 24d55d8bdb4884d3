//! Each contract allows only one result: two calls return the same.
ghost use Rattle.std.specs.Prelude.{◌≡◌};

use crate::tests::one_answer::Twice;
use cal_datetime::{OffsetDateTime, PlainDateTime};
use cal_rounding::{RoundingMode, RoundingUnit};
use cal_time::{SignedDuration, Time};

fn round_time(time: Time, unit: RoundingUnit, mode: RoundingMode) -> Twice<Time>
    ensures { result.0 ≡ result.1 }
{
    let _ = unit.length();
    (
        cal_rounding::round_time(time, unit, mode),
        cal_rounding::round_time(time, unit, mode),
    )
}

fn round_date_time(
    local: PlainDateTime,
    unit: RoundingUnit,
    mode: RoundingMode,
) -> Twice<Option<PlainDateTime>>
    ensures { result.0 ≡ result.1 }
{
    let _ = unit.length();
    (
        cal_rounding::round_date_time(local, unit, mode),
        cal_rounding::round_date_time(local, unit, mode),
    )
}

fn round_offset_date_time(
    moment: OffsetDateTime,
    unit: RoundingUnit,
    mode: RoundingMode,
) -> Twice<Option<OffsetDateTime>>
    ensures { result.0 ≡ result.1 }
{
    let _ = unit.length();
    (
        cal_rounding::round_offset_date_time(moment, unit, mode),
        cal_rounding::round_offset_date_time(moment, unit, mode),
    )
}

fn round_duration(
    duration: SignedDuration,
    unit: SignedDuration,
    mode: RoundingMode,
) -> Twice<Option<SignedDuration>>
    ensures { result.0 ≡ result.1 }
{
    let _ = unit.is_positive();
    (
        cal_rounding::round_duration(duration, unit, mode),
        cal_rounding::round_duration(duration, unit, mode),
    )
}
