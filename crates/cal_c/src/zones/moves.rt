//! Date-times in a zone moved to another date, and the first and the last instant of a unit.
ghost use Rattle.std.specs.Prelude.{◌≡◌};
ghost use Rattle.cal_zone.specs.Timeline.{InOrder};
ghost use Rattle.cal_zoned.specs.Unchecked.{in_zone};
ghost use Rattle.cal_c.specs.Moments.{moment_error};
ghost use Rattle.cal_c.specs.Zoned.{IsEndOfUnit, IsEndResult, IsMovedToDate, IsStartOfUnit, IsStartOfUnitResult};
ghost use Rattle.cal_c.specs.Zones.{IsForZone};

use crate::moment::valid_moment;
use crate::results::{Moment, MomentResult};
use crate::schedule::units::valid_unit;
use crate::status::{
    INVALID_DATE, INVALID_MOMENT, INVALID_POLICY, INVALID_UNIT, INVALID_ZONE, RESULT_OUT_OF_RANGE,
    WRONG_OFFSET,
};
use crate::values::valid_date;
use crate::zones::checked_zone::CheckedZone;
use crate::zones::policy::valid_policy;
use crate::zones::zoned::{is_in_zone, zoned_result};
use cal_datetime::OffsetDateTime;
use cal_schedule::{CalendarUnit, first_of, last_of};
use cal_time::SignedDuration;
use cal_zone::UncheckedZone;
use cal_zoned::unchecked::{day_start, earlier, moved_to};

/// Moves a moment in a zone to another date by the calendar, such as the next working day. The time
/// of day stays, and the policy says what it means on the new date, like `fots_zoned_from_local`. On
/// its own date the moment stays as it is. Fails like `fots_zoned_with_local`. In Berlin 2024-03-30
/// 2:30 +01:00 on 2024-03-31 is 3:30 +02:00 by 0.
#[unsafe(no_mangle)]
pub extern "C" fn fots_zoned_moved_to(
    zone: &CheckedZone<'_>,
    moment: Moment,
    date: i32,
    policy: u32,
) -> MomentResult
    ensures { IsForZone zone.now (λ z. IsMovedToDate z moment date policy result)
        (result ≡ moment_error INVALID_ZONE) }
{
    let zone = or_error!(MomentResult, zone.unchecked(), INVALID_ZONE);
    to_date(&zone, moment, date, policy)
}

/// Moves a moment in a zone to another date.
fn to_date(zone: &UncheckedZone<'_>, moment: Moment, date: i32, policy: u32) -> MomentResult
    ensures { InOrder zone.now → IsMovedToDate zone.now moment date policy result }
{
    let moment = or_error!(MomentResult, valid_moment(moment), INVALID_MOMENT);
    if !is_in_zone(zone, moment) {
        return MomentResult::error(WRONG_OFFSET);
    }
    let date = or_error!(MomentResult, valid_date(date), INVALID_DATE);
    let policy = or_error!(MomentResult, valid_policy(policy), INVALID_POLICY);
    zoned_result(moved_to(moment, date, zone, policy))
}

/// Returns the start of the day, ISO week, month, quarter or year that a moment in a zone is in: the
/// start of its first day, like `fots_zoned_start_of_day`. The unit is a number from 1 for a day to
/// 5 for a year. Fails if the offset of the moment is not the offset of the zone, and if what the
/// clocks show at the start is out of range. In Berlin the month of 2024-03-31 12:00 +02:00 starts
/// at 2024-03-01 0:00 +01:00.
#[unsafe(no_mangle)]
pub extern "C" fn fots_zoned_start_of(
    zone: &CheckedZone<'_>,
    moment: Moment,
    unit: u32,
) -> MomentResult
    ensures { IsForZone zone.now (λ z. IsStartOfUnit z moment unit result)
        (result ≡ moment_error INVALID_ZONE) }
{
    let zone = or_error!(MomentResult, zone.unchecked(), INVALID_ZONE);
    start_of(&zone, moment, unit)
}

/// Returns the start of the unit that a moment in a zone is in.
fn start_of(zone: &UncheckedZone<'_>, moment: Moment, unit: u32) -> MomentResult
    ensures { InOrder zone.now → IsStartOfUnit zone.now moment unit result }
{
    let moment = or_error!(MomentResult, valid_moment(moment), INVALID_MOMENT);
    if !is_in_zone(zone, moment) {
        return MomentResult::error(WRONG_OFFSET);
    }
    let unit = or_error!(MomentResult, valid_unit(unit), INVALID_UNIT);
    unit_start(moment, unit, zone)
}

/// Returns the result of the start of a unit.
fn unit_start(moment: OffsetDateTime, unit: CalendarUnit, zone: &UncheckedZone<'_>) -> MomentResult
    ensures { InOrder zone.now
        → IsStartOfUnitResult unit (in_zone zone.now moment) result }
{
    let date = first_of(moment.date(), unit);
    let start = or_error!(MomentResult, day_start(date, zone), RESULT_OUT_OF_RANGE);
    MomentResult::ok(start)
}

/// Returns the end of the day, ISO week, month, quarter or year that a moment in a zone is in: a
/// nanosecond before the start of the next one. Fails like `fots_zoned_start_of`, and if the next
/// start is out of range. In Berlin the month of 2024-03-01 12:00 +01:00 ends at 2024-03-31
/// 23:59:59.999999999 +02:00.
#[unsafe(no_mangle)]
pub extern "C" fn fots_zoned_end_of(
    zone: &CheckedZone<'_>,
    moment: Moment,
    unit: u32,
) -> MomentResult
    ensures { IsForZone zone.now (λ z. IsEndOfUnit z moment unit result)
        (result ≡ moment_error INVALID_ZONE) }
{
    let zone = or_error!(MomentResult, zone.unchecked(), INVALID_ZONE);
    end_of(&zone, moment, unit)
}

/// Returns the end of the unit that a moment in a zone is in.
fn end_of(zone: &UncheckedZone<'_>, moment: Moment, unit: u32) -> MomentResult
    ensures { InOrder zone.now → IsEndOfUnit zone.now moment unit result }
{
    let moment = or_error!(MomentResult, valid_moment(moment), INVALID_MOMENT);
    if !is_in_zone(zone, moment) {
        return MomentResult::error(WRONG_OFFSET);
    }
    let unit = or_error!(MomentResult, valid_unit(unit), INVALID_UNIT);
    unit_end(moment, unit, zone)
}

/// Returns the result of the end of a unit.
fn unit_end(moment: OffsetDateTime, unit: CalendarUnit, zone: &UncheckedZone<'_>) -> MomentResult
    ensures { InOrder zone.now → IsEndResult unit (in_zone zone.now moment) result }
{
    let last = or_error!(
        MomentResult,
        last_of(moment.date(), unit),
        RESULT_OUT_OF_RANGE
    );
    let next = or_error!(MomentResult, last.next_day(), RESULT_OUT_OF_RANGE);
    let start = or_error!(MomentResult, day_start(next, zone), RESULT_OUT_OF_RANGE);
    zoned_result(earlier(start, SignedDuration::nanoseconds(1), zone))
}
