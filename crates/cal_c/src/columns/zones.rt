//! Columns of Unix times and of readings in one zone.
ghost use Rattle.std.specs.Prelude.{◌≡◌, MatchOption, length, ◌∷◌, []};
ghost use Rattle.cal_zone.specs.Policy.{instant_by};
ghost use Rattle.cal_zone.specs.Span.{IsSpan};
ghost use Rattle.cal_zone.specs.Timeline.{offset_at, InOrder, IsMoment};
ghost use Rattle.cal_c.specs.Columns.{int_at, nat_at, SameLength, AreRows};
ghost use Rattle.cal_c.specs.Results.{int64_error, offset_error, offset_ok};
ghost use Rattle.cal_c.specs.Values.{need◌else◌then◌};
ghost use Rattle.cal_c.specs.ZoneColumns.{instant_or_error, int64_row, offset_row, IsInstantByPolicy, IsInstantOfReading, IsOffsetAt};
ghost use Rattle.cal_c.specs.Zones.{AreInstantsOf};

use super::statuses::byte_status;
use super::{LENGTH_MISMATCH, NO_VALUE, count_errors};
use crate::status::{
    INVALID_POLICY, INVALID_ZONE, OK, REPEATED_TIME, RESULT_OUT_OF_RANGE, SKIPPED_TIME,
};
use crate::zones::checked_zone::CheckedZone;
use crate::zones::policy::{local_time_status, valid_policy};
use cal_zone::{Guesses, Instants, Policy, Span, UncheckedZone};

/// Writes the offsets at Unix times, like `fots_zone_offset`.
#[unsafe(no_mangle)]
pub extern "C" fn fots_zone_offsets(
    zone: &CheckedZone<'_>,
    seconds: &[i64],
    offsets: &mut [i32],
    statuses: &mut [u8],
) -> usize
    ensures { need SameLength (length seconds.now) (length offsets.old ∷ length statuses.old ∷ [])
        else (result ≡ usize.MAX) × (offsets.new ≡ offsets.old) × (statuses.new ≡ statuses.old) then
        AreRows statuses.new result (λ k. IsOffsetAt zone.now (int_at seconds.now k)
        (offset_row (int_at offsets.new k) (nat_at statuses.new k))) }
{
    let unchecked = zone.unchecked();
    let mut guesses = Guesses::new();
    let mut span = Span::empty();
    write_rows!(row_of_offset(seconds; &unchecked, &mut guesses, &mut span) => offsets; statuses)
}

/// Writes the Unix times at which clocks show readings, by a policy like `fots_zone_moment`. A
/// reading is its seconds since 1970-01-01 0:00 by the clock.
#[unsafe(no_mangle)]
pub extern "C" fn fots_zone_instants(
    zone: &CheckedZone<'_>,
    readings: &[i64],
    policy: u32,
    seconds: &mut [i64],
    statuses: &mut [u8],
) -> usize
    ensures { need SameLength (length readings.now) (length seconds.old ∷ length statuses.old ∷ [])
        else (result ≡ usize.MAX) × (seconds.new ≡ seconds.old) × (statuses.new ≡ statuses.old) then
        AreRows statuses.new result (λ k. IsInstantOfReading zone.now (int_at readings.now k)
        policy (int64_row (int_at seconds.new k) (nat_at statuses.new k))) }
{
    let resolver = Resolver {
        zone: zone.unchecked(),
        policy: valid_policy(policy),
    };
    let mut guesses = Guesses::new();
    let mut span = Span::empty();
    write_rows!(row_of_instant(readings; &resolver, &mut guesses, &mut span) => seconds; statuses)
}

/// A zone and a policy, or what is wrong with them.
#[derive(Drop)]
pub(super) struct Resolver<'a> {
    pub(super) zone: Option<UncheckedZone<'a>>,
    pub(super) policy: Option<Policy>,
}

/// Returns the row of the offset at a Unix time. Tries the span of the row before first.
fn row_of_offset(
    seconds: i64,
    zone: &Option<UncheckedZone<'_>>,
    guesses: &mut Guesses,
    span: &mut Span,
) -> (i32, u8)
    ensures { MatchOption zone.now (offset_row result.0 result.1 ≡ offset_error INVALID_ZONE)
        (λ z. InOrder z → IsSpan z span.old → IsSpan z span.new
        × (offset_row result.0 result.1 ≡ offset_ok (offset_at z seconds))) }
{
    match zone {
        Some(zone) => (offset_in(seconds, zone, guesses, span), OK as u8),
        None => (NO_VALUE, INVALID_ZONE as u8),
    }
}

/// Returns the offset at a Unix time. Keeps the span if that is in it.
fn offset_in(seconds: i64, zone: &UncheckedZone<'_>, guesses: &mut Guesses, span: &mut Span) -> i32
    ensures { InOrder zone.now → IsSpan zone.now span.old → IsSpan zone.now span.new
        × (result ≡ offset_at zone.now seconds) }
{
    if !span.contains(seconds) {
        *span = zone.span_after(seconds, *span, guesses);
    }
    span.offset
}

/// Returns the row of the instant of a reading. Tries the span of the row before first.
fn row_of_instant(
    reading: i64,
    resolver: &Resolver<'_>,
    guesses: &mut Guesses,
    span: &mut Span,
) -> (i64, u8)
    ensures { MatchOption resolver.now.zone (int64_row result.0 result.1 ≡ int64_error INVALID_ZONE)
        (λ z. InOrder z → IsSpan z span.old → IsSpan z span.new × MatchOption resolver.now.policy
        (int64_row result.0 result.1 ≡ int64_error INVALID_POLICY)
        (λ policy. IsInstantByPolicy z reading policy (int64_row result.0 result.1))) }
{
    match &resolver.zone {
        Some(zone) => match &resolver.policy {
            Some(policy) => instant_by_policy(reading, zone, *policy, guesses, span),
            None => (i64::MIN, INVALID_POLICY as u8),
        },
        None => (i64::MIN, INVALID_ZONE as u8),
    }
}

/// Returns the row of the instant of a reading by a policy.
fn instant_by_policy(
    reading: i64,
    zone: &UncheckedZone<'_>,
    policy: Policy,
    guesses: &mut Guesses,
    span: &mut Span,
) -> (i64, u8)
    ensures { InOrder zone.now → IsSpan zone.now span.old → IsSpan zone.now span.new
        × IsInstantByPolicy zone.now reading policy (int64_row result.0 result.1) }
{
    if reading < -1_152_921_504_606_846_976 || 1_152_921_504_606_846_976 < reading {
        return (i64::MIN, RESULT_OUT_OF_RANGE as u8);
    }
    choose(reading, instants_in(reading, zone, guesses, span), policy)
}

/// Returns the instants at which clocks show a reading. Keeps the span if there is one instant in
/// it.
fn instants_in(
    reading: i64,
    zone: &UncheckedZone<'_>,
    guesses: &mut Guesses,
    span: &mut Span,
) -> Instants
    requires { IsMoment reading }
    ensures { InOrder zone.now → IsSpan zone.now span.old → IsSpan zone.now span.new
        × AreInstantsOf zone.now reading result }
{
    if let Some(instant) = span.single(reading) {
        return Instants::Single(instant);
    }
    *span = zone.span_by(reading, guesses);
    match span.single(reading) {
        Some(instant) => Instants::Single(instant),
        None => zone.instants_near_change(reading),
    }
}

/// Returns the row of a reading whose instants are known.
fn choose(reading: i64, instants: Instants, policy: Policy) -> (i64, u8)
    requires { IsMoment reading }
    ensures { int64_row result.0 result.1 ≡ instant_or_error (instant_by policy reading instants) }
{
    match instants.select(reading, policy) {
        Ok(instant) => (instant, OK as u8),
        Err(error) => (i64::MIN, byte_status(local_time_status(error))),
    }
}
