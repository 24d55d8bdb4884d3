//! How the clocks of a zone are set at an instant.
ghost use Rattle.std.specs.Prelude.{◌≡◌};
ghost use Rattle.cal_c.specs.Moments.{IsMoment, moment_error, local_and_offset_in};
ghost use Rattle.cal_c.specs.Values.{need◌else◌then◌};
ghost use Rattle.cal_c.specs.Zones.{local_type_error, local_type_ok, zone_in, HasZone, IsForZone, IsMomentInZone};
ghost use Rattle.cal_zone.specs.Timeline.{kind_at, offset_at, InOrder};
ghost use Rattle.cal_c.specs.Results.{offset_error, offset_ok};

use crate::moment::valid_moment;
use crate::results::{Moment, MomentResult, OffsetResult};
use crate::status::{INVALID_MOMENT, INVALID_ZONE, OK, RESULT_OUT_OF_RANGE};
use crate::zones::checked_zone::CheckedZone;
use crate::zones::results::LocalTypeResult;
use cal_datetime::OffsetDateTime;
use cal_zone::UncheckedZone;

/// Returns the offset at a Unix time in seconds. In Berlin it is 7200 at 1711846800, 2024-03-31
/// 1:00 UTC.
#[unsafe(no_mangle)]
pub extern "C" fn fots_zone_offset(zone: &CheckedZone<'_>, seconds: i64) -> OffsetResult
    ensures { IsForZone zone.now (λ z. result ≡ offset_ok (offset_at z seconds))
        (result ≡ offset_error INVALID_ZONE) }
{
    let unchecked = or_error!(OffsetResult, zone.unchecked(), INVALID_ZONE);
    match unchecked.utc_offset_in_table(seconds) {
        Some(offset) => OffsetResult::ok(offset),
        None => offset_by_rule(zone, seconds),
    }
}

/// Returns the offset at a Unix time, which the rule may decide. It isn't inlined, so that a search
/// in the table copies no rule.
#[inline(never)]
fn offset_by_rule(zone: &CheckedZone<'_>, seconds: i64) -> OffsetResult
    requires { HasZone zone.now }
    ensures { InOrder (zone_in zone.now)
        → result ≡ offset_ok (offset_at (zone_in zone.now) seconds) }
{
    match zone.parts.offset_by_rule(seconds) {
        Some(offset) => OffsetResult { status: OK, offset },
        None => offset_in_zone(zone, seconds),
    }
}

/// Returns the offset at a Unix time. It isn't inlined, since it copies all parts.
#[inline(never)]
fn offset_in_zone(zone: &CheckedZone<'_>, seconds: i64) -> OffsetResult
    ensures { IsForZone zone.now (λ z. result ≡ offset_ok (offset_at z seconds))
        (result ≡ offset_error INVALID_ZONE) }
{
    let zone = or_error!(OffsetResult, zone.unchecked(), INVALID_ZONE);
    let offset = or_error!(OffsetResult, zone.utc_offset_at(seconds), INVALID_ZONE);
    OffsetResult::ok(offset)
}

/// Returns how the clocks are set at a Unix time in seconds: the offset, whether it is daylight
/// saving time, and the abbreviation. In Berlin they are 7200, 1 and `CEST` at 1711846800.
#[unsafe(no_mangle)]
pub extern "C" fn fots_zone_local_type(zone: &CheckedZone<'_>, seconds: i64) -> LocalTypeResult
    ensures { IsForZone zone.now (λ z. result ≡ local_type_ok zone.now.bytes.now (kind_at z seconds))
        (result ≡ local_type_error INVALID_ZONE) }
{
    let bytes = zone.bytes;
    let zone = or_error!(LocalTypeResult, zone.unchecked(), INVALID_ZONE);
    LocalTypeResult::ok(zone.kind_at(seconds), bytes)
}

/// Converts a moment to the time of a zone, at the same instant. Fails if the local result is out
/// of range. In Berlin 2024-03-31 1:00 at UTC is 3:00 +02:00.
#[unsafe(no_mangle)]
pub extern "C" fn fots_moment_in_zone(moment: Moment, zone: &CheckedZone<'_>) -> MomentResult
    ensures { need IsMoment moment else result ≡ moment_error INVALID_MOMENT then
        IsForZone zone.now (λ z. IsMomentInZone z (local_and_offset_in moment) result)
        (result ≡ moment_error INVALID_ZONE) }
{
    let moment = or_error!(MomentResult, valid_moment(moment), INVALID_MOMENT);
    let zone = or_error!(MomentResult, zone.unchecked(), INVALID_ZONE);
    moment_in_zone(moment, &zone)
}

/// Converts a moment to the time of a zone.
fn moment_in_zone(moment: OffsetDateTime, zone: &UncheckedZone<'_>) -> MomentResult
    ensures { InOrder zone.now → IsMomentInZone zone.now moment result }
{
    let offset = or_error!(
        MomentResult,
        zone.utc_offset_at(moment.unix_timestamp()),
        INVALID_ZONE
    );
    let moved = moment.checked_to_offset(offset);
    MomentResult::ok(or_error!(MomentResult, moved, RESULT_OUT_OF_RANGE))
}
