//! The clock of the system.
ghost use Rattle.std.specs.Prelude.{◌≤ℤ◌, IfSome};
ghost use Rattle.cal_datetime.specs.OffsetDateTime.{unix_epoch};

use cal_datetime::{OffsetDateTime, PlainDateTime};
use std::time::{Clock, SystemTime, UNIX_EPOCH};

/// Reads the clock and returns its date-time at UTC.
///
/// Returns `None` if the clock can't be read, or if it shows a time before 1970 or out of range.
/// No clause says when, since contracts know nothing about the clock of the system.
pub fn read_clock<C: Clock>(clock: &C) -> Option<PlainDateTime>
    ensures { IfSome result (λ now. unix_epoch ≤ℤ now) }
{
    let Ok(now) = SystemTime::now(clock) else {
        return None;
    };
    let Ok(since_epoch) = now.duration_since(UNIX_EPOCH) else {
        return None;
    };
    let Ok(nanoseconds) = i128::try_from(since_epoch.as_nanos()) else {
        return None;
    };
    match OffsetDateTime::from_unix_timestamp_nanos(nanoseconds) {
        Ok(moment) => Some(moment.local()),
        Err(_) => None,
    }
}
