//! The period between two date-times in a zone.
ghost use Rattle.std.specs.Prelude.{◌≡◌};
ghost use Rattle.cal_zone.specs.Timeline.{InOrder};
ghost use Rattle.cal_zoned.specs.Unchecked.{in_zone};
ghost use Rattle.cal_zoned.specs.Until.{IsUntilInZone};
ghost use Rattle.cal_c.specs.Periods.{exact_period_error, IsExactPeriodWith};
ghost use Rattle.cal_c.specs.Zoned.{IsUntilFrom, IsUntilInZoneResult};
ghost use Rattle.cal_c.specs.Zones.{IsForZone};

use crate::moment::valid_moment;
use crate::results::Moment;
use crate::schedule::pair_periods::ExactPeriodResult;
use crate::schedule::units::valid_unit;
use crate::status::{INVALID_MOMENT, INVALID_POLICY, INVALID_UNIT, INVALID_ZONE, WRONG_OFFSET};
use crate::zones::checked_zone::CheckedZone;
use crate::zones::policy::valid_policy;
use crate::zones::zoned::is_in_zone;
use cal_datetime::OffsetDateTime;
use cal_schedule::CalendarUnit;
use cal_zone::{Policy, UncheckedZone};
use cal_zoned::unchecked::period_between;

/// Returns the period from one moment in a zone to another, with a unit as the largest of its parts,
/// from 1 for a day to 5 for a year. It counts the whole units up to the last day on which the time
/// of day, resolved by the policy, isn't past the other moment, and then the exact rest. Fails if
/// the offset of a moment is not the offset of the zone. In Berlin it is a day and an hour from
/// 2024-03-30 12:00 +01:00 to 2024-03-31 13:00 +02:00 by 1.
#[unsafe(no_mangle)]
pub extern "C" fn fots_zoned_period_until(
    zone: &CheckedZone<'_>,
    moment: Moment,
    other: Moment,
    unit: u32,
    policy: u32,
) -> ExactPeriodResult
    ensures { IsForZone zone.now (λ z. IsUntilInZoneResult z moment other unit policy result)
        (result ≡ exact_period_error INVALID_ZONE) }
{
    let zone = or_error!(ExactPeriodResult, zone.unchecked(), INVALID_ZONE);
    until(&zone, moment, other, unit, policy)
}

/// Returns the period from one moment in a zone to another.
fn until(
    zone: &UncheckedZone<'_>,
    moment: Moment,
    other: Moment,
    unit: u32,
    policy: u32,
) -> ExactPeriodResult
    ensures { InOrder zone.now → IsUntilInZoneResult zone.now moment other unit policy result }
{
    let moment = or_error!(ExactPeriodResult, valid_moment(moment), INVALID_MOMENT);
    if !is_in_zone(zone, moment) {
        return ExactPeriodResult::error(WRONG_OFFSET);
    }
    until_from(zone, moment, other, unit, policy)
}

/// Returns the period from a date-time in a zone to a moment.
fn until_from(
    zone: &UncheckedZone<'_>,
    from: OffsetDateTime,
    other: Moment,
    unit: u32,
    policy: u32,
) -> ExactPeriodResult
    ensures { InOrder zone.now
        → IsUntilFrom zone.now (in_zone zone.now from) other unit policy result }
{
    let other = or_error!(ExactPeriodResult, valid_moment(other), INVALID_MOMENT);
    if !is_in_zone(zone, other) {
        return ExactPeriodResult::error(WRONG_OFFSET);
    }
    let unit = or_error!(ExactPeriodResult, valid_unit(unit), INVALID_UNIT);
    let policy = or_error!(ExactPeriodResult, valid_policy(policy), INVALID_POLICY);
    until_by(zone, from, other, unit, policy)
}

/// Returns the result of the period between two date-times in a zone.
fn until_by(
    zone: &UncheckedZone<'_>,
    from: OffsetDateTime,
    to: OffsetDateTime,
    unit: CalendarUnit,
    policy: Policy,
) -> ExactPeriodResult
    ensures { InOrder zone.now → IsExactPeriodWith
        (IsUntilInZone policy unit (in_zone zone.now from) (in_zone zone.now to)) result }
{
    ExactPeriodResult::ok(period_between(from, to, unit, zone, policy))
}
