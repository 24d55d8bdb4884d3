//! Rounding of date-times in a zone.
ghost use Rattle.std.specs.Prelude.{◌≡◌, ◌≢◌};
ghost use Rattle.cal_time.specs.SignedDuration.{day};
ghost use Rattle.cal_rounding.specs.InZone.{IsRoundedByClock, IsRoundedToDay};

use crate::next_start::is_rounded_to_end;
use crate::{RoundingMode, RoundingUnit, round_date_time};
use cal_zone::{LocalTimeError, Policy};
use cal_zoned::{ZonedDateTime, start_of_day};

/// Rounds a date-time in a zone to a multiple of a unit since the midnight of its date, by what the
/// clocks show. The result keeps the offset if the clocks show the rounded time at this offset, and
/// otherwise goes by [`Policy::Compatible`].
///
/// To whole days, it is rounded to the start of its day or of the next one, which can be 23 or 25
/// hours later. After the start of the next day, in a fold over midnight, it is rounded to that
/// start.
///
/// By `HalfCeil`, in Berlin 2024-03-31 1:50 +01:00:00 rounded to an hour is 3:00 +02:00:00, and 12:29
/// +02:00:00 on this day of 23 hours, rounded to a day, is its start.
///
/// # Errors
///
/// Returns `OutOfRange` if the result is out of range, or for whole days also if the start of one of
/// the two days is, as on the last date.
pub fn round_zoned<'z>(
    value: &ZonedDateTime<'z>,
    unit: RoundingUnit,
    mode: RoundingMode,
) -> Result<ZonedDateTime<'z>, LocalTimeError>
    ensures day { unit ≡ day → IsRoundedToDay mode value.now result }
    ensures clock { unit ≢ day → IsRoundedByClock mode unit value.now result }
{
    if unit.is_day() {
        round_to_day(value, mode)
    } else {
        round_by_clock(value, unit, mode)
    }
}

/// Rounds what the clocks show.
fn round_by_clock<'z>(
    value: &ZonedDateTime<'z>,
    unit: RoundingUnit,
    mode: RoundingMode,
) -> Result<ZonedDateTime<'z>, LocalTimeError>
    ensures { IsRoundedByClock mode unit value.now result }
{
    match round_date_time(value.local(), unit, mode) {
        Some(local) => value.with_local(local, Policy::Compatible),
        None => Err(LocalTimeError::OutOfRange),
    }
}

/// Rounds to the start of the day or of the next one.
fn round_to_day<'z>(
    value: &ZonedDateTime<'z>,
    mode: RoundingMode,
) -> Result<ZonedDateTime<'z>, LocalTimeError>
    ensures { IsRoundedToDay mode value.now result }
{
    // These calls state that the clocks show the value, in the range. They cost nothing.
    let _ = value.local();
    let _ = value.offset();
    let date = value.date();
    let Some(next) = date.next_day() else {
        return Err(LocalTimeError::OutOfRange);
    };
    let Some(start) = start_of_day(date, value.zone()) else {
        return Err(LocalTimeError::OutOfRange);
    };
    let Some(end) = start_of_day(next, value.zone()) else {
        return Err(LocalTimeError::OutOfRange);
    };
    let moment = value.to_offset_date_time();
    if is_rounded_to_end(
        moment,
        start.to_offset_date_time(),
        end.to_offset_date_time(),
        mode,
    ) {
        Ok(end)
    } else {
        Ok(start)
    }
}
