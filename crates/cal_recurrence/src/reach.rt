//! How far a reading is from the instants that it can mean, and the order of moments.
ghost use Rattle.std.specs.Prelude.{◌≡◌, ◌≤◌, ℤ, true, pos, ◌+ℤ◌, ◌-ℤ◌, ◌≤ℤ◌, ◌<ℤ◌, unsigned_abs, MatchOption};
ghost use Rattle.cal_datetime.specs.DateTime.{IsDateTime};
ghost use Rattle.cal_datetime.specs.OffsetDateTime.{instant};
ghost use Rattle.cal_recurrence.specs.Occurrences.{before_all};
ghost use Rattle.cal_recurrence.specs.TimeSearch.{first_by};
ghost use Rattle.cal_recurrence.specs.ZonedSet.{is_earlier, reach};

use cal_date::day_number::to_date;
use cal_datetime::{OffsetDateTime, PlainDateTime, midnight};
use cal_time::UtcOffset;

/// The maximum magnitude of an offset, in seconds.
pub(crate) const MAX_OFFSET: i32 = 93_599;

/// Returns the offset of some seconds.
pub(crate) fn utc_offset(seconds: i32) -> UtcOffset
    requires { unsigned_abs seconds ≤ 93_599 }
    ensures { result ≡ seconds }
{
    match UtcOffset::from_whole_seconds(seconds) {
        Ok(offset) => offset,
        Err(_) => unreachable!(),
    }
}

/// Returns a date-time at the first instant that a reading can mean.
pub(crate) fn first_moment() -> OffsetDateTime
    ensures { instant result -ℤ pos 1 ≡ before_all }
{
    // The first reading of the range.
    midnight(to_date(0)).assume_offset(utc_offset(MAX_OFFSET))
}

/// Returns the first reading that can mean an instant or a later one.
pub(crate) fn earliest_reading(moment: OffsetDateTime) -> PlainDateTime
    ensures { (z : ℤ) → IsDateTime z → instant moment ≤ℤ (z +ℤ reach) → result ≤ℤ z }
{
    match moment.checked_to_offset(utc_offset(-MAX_OFFSET)) {
        Some(there) => there.local(),
        // The first reading of the range.
        None => midnight(to_date(0)),
    }
}

/// Returns `true` if a reading and the later ones mean only instants after a moment. Without a
/// moment it returns `false`.
pub(crate) fn is_past(moment: &Option<OffsetDateTime>, reading: PlainDateTime) -> bool
    ensures { result ≡ true → MatchOption moment.now ⊥ (λ m. (instant m +ℤ reach) <ℤ reading) }
{
    match *moment {
        Some(one) => one < reading.assume_offset(utc_offset(MAX_OFFSET)),
        None => false,
    }
}

/// Returns the earlier moment, the first one if both are the same instant, or the only one.
pub(crate) fn earlier(
    moment: &Option<OffsetDateTime>,
    other: &Option<OffsetDateTime>,
) -> Option<OffsetDateTime>
    ensures { result ≡ first_by is_earlier moment.now other.now }
{
    let Some(one) = *moment else {
        return *other;
    };
    match *other {
        Some(two) if two < one => Some(two),
        _ => Some(one),
    }
}
