//! Properties of constants and derived traits, which have no clauses: functions return their
//! values.
ghost use Rattle.std.specs.Prelude.{◌≡◌, pos, ◌*ℤ◌, Some, Ok, slice_get};
ghost use Rattle.cal_span.specs.SignedDuration.{microsecond, millisecond, second, minute, hour, day, week, min_duration, max_duration, IsDuration};

use crate::signed_duration::SignedDuration;
use std::alloc::AllocError;

/// Returns the units from the nanosecond to the week.
pub(crate) fn units() -> [SignedDuration; 8]
    ensures nanosecond_is { slice_get result 0 ≡ Some (pos 1) }
    ensures microsecond_is { slice_get result 1 ≡ Some (pos microsecond) }
    ensures millisecond_is { slice_get result 2 ≡ Some (pos millisecond) }
    ensures second_is { slice_get result 3 ≡ Some (pos second) }
    ensures minute_is { slice_get result 4 ≡ Some (pos minute) }
    ensures hour_is { slice_get result 5 ≡ Some (pos hour) }
    ensures day_is { slice_get result 6 ≡ Some (pos day) }
    ensures week_is { slice_get result 7 ≡ Some (pos week) }
{
    [
        SignedDuration::NANOSECOND,
        SignedDuration::MICROSECOND,
        SignedDuration::MILLISECOND,
        SignedDuration::SECOND,
        SignedDuration::MINUTE,
        SignedDuration::HOUR,
        SignedDuration::DAY,
        SignedDuration::WEEK,
    ]
}

/// Returns zero, the minimum and the maximum.
pub(crate) fn limits() -> [SignedDuration; 3]
    ensures zero_is { slice_get result 0 ≡ Some (pos 0) }
    ensures min_is { slice_get result 1 ≡ Some min_duration }
    ensures max_is { slice_get result 2 ≡ Some max_duration }
{
    [
        SignedDuration::ZERO,
        SignedDuration::MIN,
        SignedDuration::MAX,
    ]
}

/// Returns a clone, which equals the original.
pub(crate) fn cloned(duration: SignedDuration) -> Result<SignedDuration, AllocError>
    ensures { result ≡ Ok duration }
{
    duration.clone()
}

/// Creates a duration of `weeks` weeks. The caller knows only that it is in the range, so the check
/// rejects a stronger condition of `weeks`.
pub(crate) fn of_weeks(weeks: i64) -> SignedDuration
    requires { IsDuration (weeks *ℤ pos week) }
{
    SignedDuration::weeks(weeks)
}
