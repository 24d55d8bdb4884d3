//! Moments in a zone, rounded to multiples of a unit.
ghost use Rattle.std.specs.Prelude.{◌≡◌};
ghost use Rattle.cal_zone.specs.Timeline.{InOrder};
ghost use Rattle.cal_c.specs.Moments.{moment_error};
ghost use Rattle.cal_c.specs.Rounding.{IsZonedRoundedTo};
ghost use Rattle.cal_c.specs.Zones.{IsForZone};

use crate::moment::valid_moment;
use crate::results::{Duration, Moment, MomentResult};
use crate::rounding::{valid_mode, valid_rounding_unit};
use crate::status::{
    INVALID_MOMENT, INVALID_ROUNDING_MODE, INVALID_ROUNDING_UNIT, INVALID_ZONE, WRONG_OFFSET,
};
use crate::zones::checked_zone::CheckedZone;
use crate::zones::zoned::{is_in_zone, zoned_result};
use cal_rounding::unchecked::round_in_zone;
use cal_zone::UncheckedZone;

/// Rounds a moment in a zone to a multiple of a unit since the midnight of its date, by what the
/// clocks show and by a mode like `fots_time_round`. Keeps the offset if the clocks show the rounded
/// time at it, and otherwise resolves it like `fots_zoned_from_local` by 0. To 24 hours it is rounded
/// to the start of its day or of the next one. Fails if the offset of the moment is not the offset
/// of the zone, and if the result, or for 24 hours one of the two starts, is out of range. In Berlin
/// 2024-03-31 1:50 +01:00 to an hour by 3 is 3:00 +02:00.
#[unsafe(no_mangle)]
pub extern "C" fn fots_zoned_round(
    zone: &CheckedZone<'_>,
    moment: Moment,
    unit: Duration,
    mode: u32,
) -> MomentResult
    ensures { IsForZone zone.now (λ z. IsZonedRoundedTo z moment unit mode result)
        (result ≡ moment_error INVALID_ZONE) }
{
    let zone = or_error!(MomentResult, zone.unchecked(), INVALID_ZONE);
    rounded(&zone, moment, unit, mode)
}

/// Rounds a moment in a zone.
fn rounded(zone: &UncheckedZone<'_>, moment: Moment, unit: Duration, mode: u32) -> MomentResult
    ensures { InOrder zone.now → IsZonedRoundedTo zone.now moment unit mode result }
{
    let moment = or_error!(MomentResult, valid_moment(moment), INVALID_MOMENT);
    if !is_in_zone(zone, moment) {
        return MomentResult::error(WRONG_OFFSET);
    }
    let unit = or_error!(
        MomentResult,
        valid_rounding_unit(unit),
        INVALID_ROUNDING_UNIT
    );
    let mode = or_error!(MomentResult, valid_mode(mode), INVALID_ROUNDING_MODE);
    zoned_result(round_in_zone(moment, unit, mode, zone))
}
