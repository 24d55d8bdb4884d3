//! The choice between two starts of a day.
ghost use Rattle.std.specs.Prelude.{◌⊎◌, pos, ◌-ℤ◌, ◌<ℤ◌, ◌≤ℤ◌, unsigned_abs, IsTrue};
ghost use Rattle.cal_datetime.specs.OffsetDateTime.{instant};
ghost use Rattle.cal_rounding.specs.Rounding.{IsRounded};

use crate::RoundingMode;
use crate::duration::magnitude;
use crate::magnitude::is_away_from_zero;
use cal_datetime::OffsetDateTime;
use cal_time::SignedDuration;

/// Returns `true` if a date-time is rounded to the end of a day, and not to its start.
pub(crate) fn is_rounded_to_end(
    moment: OffsetDateTime,
    start: OffsetDateTime,
    end: OffsetDateTime,
    mode: RoundingMode,
) -> bool
    ensures end { IsTrue result → instant start ≤ℤ instant moment → (instant end ≤ℤ instant moment)
        ⊎ IsRounded mode (unsigned_abs (instant end -ℤ instant start))
        (instant moment -ℤ instant start) (instant end -ℤ instant start) }
    ensures start { ¬ IsTrue result → instant start ≤ℤ instant moment
        → (instant moment <ℤ instant end)
        × IsRounded mode (unsigned_abs (instant end -ℤ instant start))
        (instant moment -ℤ instant start) (pos 0) }
{
    is_whole_length(moment - start, end - start, mode)
}

/// Returns `true` if the time since the start of a day is rounded to the length of the day.
fn is_whole_length(past: SignedDuration, length: SignedDuration, mode: RoundingMode) -> bool
    ensures whole { IsTrue result → pos 0 ≤ℤ past → (length ≤ℤ past)
        ⊎ IsRounded mode (unsigned_abs length) past length }
    ensures none { ¬ IsTrue result → pos 0 ≤ℤ past → (past <ℤ length)
        × IsRounded mode (unsigned_abs length) past (pos 0) }
{
    if length <= past {
        return true;
    }
    if past.is_negative() {
        return false;
    }
    is_away_from_zero(0, magnitude(past), magnitude(length), false, mode)
}
