//! Properties of constants and derived traits, which have no clauses: functions return their
//! values.

ghost use Rattle.std.specs.Prelude.{◌≡◌, ◌+◌, Ok, pos};
ghost use Rattle.cal_span.specs.SignedDuration.{day};

use crate::{Time, UtcOffset};
use std::alloc::AllocError;

/// Returns the minimum, nanosecond 0 of the day, and the maximum, the last nanosecond of the day.
pub(crate) fn limits() -> (Time, Time)
    ensures midnight { result.0 ≡ 0 }
    ensures max { result.1 + 1 ≡ day }
{
    (Time::MIDNIGHT, Time::MAX)
}

/// Returns UTC, the offset of 0 seconds.
pub(crate) fn utc() -> UtcOffset
    ensures { result ≡ pos 0 }
{
    UtcOffset::UTC
}

/// Clones a time and an offset. Each clone equals its original.
pub(crate) fn clones(time: Time, offset: UtcOffset) -> Result<(Time, UtcOffset), AllocError>
    ensures { result ≡ Ok (time, offset) }
{
    Ok((time.clone()?, offset.clone()?))
}
