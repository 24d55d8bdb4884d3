//! The instants at which the clocks of a zone show a reading.
ghost use Rattle.std.specs.Prelude.{◌≡◌};
ghost use Rattle.cal_time.specs.Date.{IsDate};
ghost use Rattle.cal_time.specs.Time.{IsTime};
ghost use Rattle.cal_datetime.specs.DateTime.{date_time};
ghost use Rattle.cal_datetime.specs.OffsetDateTime.{unix_seconds};
ghost use Rattle.cal_zone.specs.Timeline as zones;
ghost use Rattle.cal_zone.specs.Timeline.{InOrder};
ghost use Rattle.cal_c.specs.Moments.{moment_error};
ghost use Rattle.cal_c.specs.Values.{need◌else◌then◌, IsJulianDay, day_of};
ghost use Rattle.cal_c.specs.Zones.{local_error, policy_number, zone_in, HasZone, IsForZone, IsMomentByPolicy, IsPolicy, IsResolved};
ghost use Rattle.cal_zone.specs.declared.policy.Policy.{Policy};

use crate::day_number::day_number;
use crate::results::MomentResult;
use crate::status::{INVALID_DATE, INVALID_POLICY, INVALID_TIME, INVALID_ZONE};
use crate::values::{time_number, valid_date, valid_time};
use crate::zones::checked_zone::CheckedZone;
use crate::zones::policy::{local_time_status, valid_policy};
use crate::zones::results::LocalResult;
use cal_datetime::PlainDateTime;
use cal_zone::{Policy, UncheckedZone};

/// The number of the day 1970-01-01.
const EPOCH_DAY: i64 = 365_961_662;

/// Returns the instants at which clocks show a date and a time of day: one, two in a fold, or those
/// of the policies `earlier` and `later` in a gap. In Berlin 2024-10-27 2:30 is a fold at
/// 1729989000 and 1729992600.
#[unsafe(no_mangle)]
pub extern "C" fn fots_zone_resolve(zone: &CheckedZone<'_>, date: i32, time: u64) -> LocalResult
    ensures { IsForZone zone.now (λ z. need IsJulianDay date else result ≡ local_error INVALID_DATE then
        need IsTime time else result ≡ local_error INVALID_TIME then
        IsResolved z (unix_seconds (date_time (day_of date) time)) result)
        (result ≡ local_error INVALID_ZONE) }
{
    let unchecked = or_error!(LocalResult, zone.unchecked(), INVALID_ZONE);
    let day = or_error!(LocalResult, day_number(date), INVALID_DATE);
    let time = or_error!(LocalResult, time_number(time), INVALID_TIME);
    let reading = reading_seconds(day, time);
    match unchecked.single_in_table(reading) {
        Some(instant) => LocalResult::moments(1, reading, instant, instant),
        None => resolve_by_rule(zone, reading),
    }
}

/// Returns the instants at which clocks show a reading, in seconds, which the rule may decide. It
/// isn't inlined, so that a search in the table copies no rule.
#[inline(never)]
fn resolve_by_rule(zone: &CheckedZone<'_>, reading: i64) -> LocalResult
    requires moment { zones.IsMoment reading }
    requires zone { HasZone zone.now }
    ensures { InOrder (zone_in zone.now) → IsResolved (zone_in zone.now) reading result }
{
    match zone.parts.single_by_rule(reading) {
        Some(instant) => LocalResult::moments(1, reading, instant, instant),
        None => resolve_reading(zone, reading),
    }
}

/// Returns the instants at which clocks show a reading. It isn't inlined, since it copies all
/// parts.
#[inline(never)]
fn resolve_reading(zone: &CheckedZone<'_>, reading: i64) -> LocalResult
    requires { zones.IsMoment reading }
    ensures { IsForZone zone.now (λ z. IsResolved z reading result)
        (result ≡ local_error INVALID_ZONE) }
{
    let zone = or_error!(LocalResult, zone.unchecked(), INVALID_ZONE);
    LocalResult::ok(reading, zone.instants_of(reading))
}

/// Returns the whole seconds from 1970-01-01 0:00 to a day and a time of day.
fn reading_seconds(day: u32, time: u64) -> i64
    requires day { IsDate day }
    requires time { IsTime time }
    ensures value { result ≡ unix_seconds (date_time day time) }
    ensures range { zones.IsMoment result }
{
    (i64::from(day) - EPOCH_DAY) * 86_400 + (time / 1_000_000_000) as i64
}

/// Returns the moment that a date and a time of day mean by a policy: 0 for compatible, 1 for
/// earlier, 2 for later, 3 for reject. Fails if the result is out of range, and by 3 if clocks skip
/// the time or show it twice. In Berlin 2024-03-31 2:30 is 3:30 +02:00 by 0.
#[unsafe(no_mangle)]
pub extern "C" fn fots_zone_moment(
    zone: &CheckedZone<'_>,
    date: i32,
    time: u64,
    policy: u32,
) -> MomentResult
    ensures { IsForZone zone.now (λ z. need IsJulianDay date else result ≡ moment_error INVALID_DATE then
        need IsTime time else result ≡ moment_error INVALID_TIME then
        need IsPolicy policy else result ≡ moment_error INVALID_POLICY then
        (p : Policy) × (policy_number p ≡ policy)
        × IsMomentByPolicy z (date_time (day_of date) time) p result)
        (result ≡ moment_error INVALID_ZONE) }
{
    let zone = or_error!(MomentResult, zone.unchecked(), INVALID_ZONE);
    moment_by_number(&zone, date, time, policy)
}

/// Returns the moment of a date and a time of day by the number of a policy.
fn moment_by_number(zone: &UncheckedZone<'_>, date: i32, time: u64, policy: u32) -> MomentResult
    ensures { InOrder zone.now → need IsJulianDay date else result ≡ moment_error INVALID_DATE then
        need IsTime time else result ≡ moment_error INVALID_TIME then
        need IsPolicy policy else result ≡ moment_error INVALID_POLICY then
        (p : Policy) × (policy_number p ≡ policy)
        × IsMomentByPolicy zone.now (date_time (day_of date) time) p result }
{
    let date = or_error!(MomentResult, valid_date(date), INVALID_DATE);
    let time = or_error!(MomentResult, valid_time(time), INVALID_TIME);
    let policy = or_error!(MomentResult, valid_policy(policy), INVALID_POLICY);
    moment_by_policy(zone, PlainDateTime::new(date, time), policy)
}

/// Returns the moment of a reading by a policy.
fn moment_by_policy(
    zone: &UncheckedZone<'_>,
    reading: PlainDateTime,
    policy: Policy,
) -> MomentResult
    ensures { InOrder zone.now → IsMomentByPolicy zone.now reading policy result }
{
    let local = or_error!(MomentResult, zone.resolve(reading), INVALID_ZONE);
    match local.select(policy) {
        Ok(moment) => MomentResult::ok(moment),
        Err(error) => MomentResult::error(local_time_status(error)),
    }
}
