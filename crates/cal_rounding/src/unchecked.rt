//! Rounding in zones whose changes need not be in order.
//!
//! It does the same as [`round_zoned`](crate::round_zoned). If the changes are not in order, it may
//! return any value.
ghost use Rattle.std.specs.Prelude.{◌≡◌, ◌≢◌};
ghost use Rattle.cal_time.specs.SignedDuration.{day};
ghost use Rattle.cal_zone.specs.Local.{Shows};
ghost use Rattle.cal_zone.specs.Timeline.{InOrder};
ghost use Rattle.cal_zoned.specs.Unchecked.{in_zone, result_in};
ghost use Rattle.cal_rounding.specs.InZone.{IsRoundedByClock, IsRoundedToDay};

use crate::next_start::is_rounded_to_end;
use crate::{RoundingMode, RoundingUnit, round_date_time};
use cal_datetime::OffsetDateTime;
use cal_zone::{LocalTimeError, Policy, UncheckedZone};
use cal_zoned::unchecked::{day_start, kept};

/// Rounds a date-time in a zone to a multiple of a unit.
pub fn round_in_zone(
    moment: OffsetDateTime,
    unit: RoundingUnit,
    mode: RoundingMode,
    zone: &UncheckedZone<'_>,
) -> Result<OffsetDateTime, LocalTimeError>
    ensures day { InOrder zone.now → Shows zone.now moment.local moment → unit ≡ day
        → IsRoundedToDay mode (in_zone zone.now moment) (result_in zone.now result) }
    ensures clock { InOrder zone.now → unit ≢ day
        → IsRoundedByClock mode unit (in_zone zone.now moment) (result_in zone.now result) }
{
    if unit.is_day() {
        round_to_day(moment, mode, zone)
    } else {
        round_by_clock(moment, unit, mode, zone)
    }
}

/// Rounds what the clocks show.
fn round_by_clock(
    moment: OffsetDateTime,
    unit: RoundingUnit,
    mode: RoundingMode,
    zone: &UncheckedZone<'_>,
) -> Result<OffsetDateTime, LocalTimeError>
    ensures { InOrder zone.now
        → IsRoundedByClock mode unit (in_zone zone.now moment) (result_in zone.now result) }
{
    match round_date_time(moment.local(), unit, mode) {
        Some(local) => kept(moment, local, zone, Policy::Compatible),
        None => Err(LocalTimeError::OutOfRange),
    }
}

/// Rounds to the start of the day or of the next one.
fn round_to_day(
    moment: OffsetDateTime,
    mode: RoundingMode,
    zone: &UncheckedZone<'_>,
) -> Result<OffsetDateTime, LocalTimeError>
    ensures { InOrder zone.now → Shows zone.now moment.local moment
        → IsRoundedToDay mode (in_zone zone.now moment) (result_in zone.now result) }
{
    let date = moment.date();
    let Some(next) = date.next_day() else {
        return Err(LocalTimeError::OutOfRange);
    };
    let Some(start) = day_start(date, zone) else {
        return Err(LocalTimeError::OutOfRange);
    };
    let Some(end) = day_start(next, zone) else {
        return Err(LocalTimeError::OutOfRange);
    };
    if is_rounded_to_end(moment, start, end, mode) {
        Ok(end)
    } else {
        Ok(start)
    }
}
