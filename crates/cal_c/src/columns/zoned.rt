//! Columns of Unix times in one zone, moved by its clocks.
ghost use Rattle.std.specs.Prelude.{◌≡◌, pos, ◌∷◌, [], length, MatchOption, SomeIff};
ghost use Rattle.std.specs.Int.{int_max, int_min};
ghost use Rattle.cal_datetime.specs.DateTime.{IsDateTime};
ghost use Rattle.cal_schedule.specs.Period.{parts};
ghost use Rattle.cal_zone.specs.Timeline.{Timeline, InOrder};
ghost use Rattle.cal_zoned.specs.Unchecked.{result_in};
ghost use Rattle.cal_zoned.specs.Zoned.{reading_at, seen};
ghost use Rattle.cal_c.specs.Columns.{int_at, nat_at, SameLength, AreRows};
ghost use Rattle.cal_c.specs.Results.{int64_error};
ghost use Rattle.cal_c.specs.Values.{need◌else◌then◌};
ghost use Rattle.cal_c.specs.ZoneColumns.{int64_row};
ghost use Rattle.cal_c.specs.Zoned.{instant_at, seconds_or_error, IsLaterSeconds, IsSecondsAfter, IsSecondsOfStart, IsStartSeconds};

use super::statuses::byte_status;
use super::zones::Resolver;
use super::{LENGTH_MISMATCH, count_errors};
use crate::status::{INVALID_POLICY, INVALID_ZONE, OK, RESULT_OUT_OF_RANGE};
use crate::zones::checked_zone::CheckedZone;
use crate::zones::policy::{local_time_status, valid_policy};
use cal_datetime::OffsetDateTime;
use cal_schedule::Period;
use cal_zone::{LocalTimeError, Policy, UncheckedZone};
use cal_zoned::unchecked::{day_start, period_later, seen_at};

/// The Unix time of a row with an error.
const NO_TIME: i64 = i64::MIN;

/// Writes the Unix times some days after Unix times by the clocks of a zone, like
/// `fots_zoned_add_period`.
#[unsafe(no_mangle)]
pub extern "C" fn fots_zoned_add_days(
    zone: &CheckedZone<'_>,
    seconds: &[i64],
    days: &[i64],
    policy: u32,
    moved: &mut [i64],
    statuses: &mut [u8],
) -> usize
    ensures { need SameLength (length seconds.now) (length days.now ∷ length moved.old ∷ length statuses.old ∷ [])
        else (result ≡ usize.MAX) × (moved.new ≡ moved.old) × (statuses.new ≡ statuses.old) then
        AreRows statuses.new result (λ k. IsSecondsAfter zone.now (int_at seconds.now k)
        (parts (pos 0) (pos 0) (pos 0) (int_at days.now k) (pos 0)) policy
        (int64_row (int_at moved.new k) (nat_at statuses.new k))) }
{
    let resolver = Resolver {
        zone: zone.unchecked(),
        policy: valid_policy(policy),
    };
    write_rows!(row_of_days(seconds, days; &resolver) => moved; statuses)
}

/// Writes the Unix times some months after Unix times by the clocks of a zone, like
/// `fots_zoned_add_period`.
#[unsafe(no_mangle)]
pub extern "C" fn fots_zoned_add_months(
    zone: &CheckedZone<'_>,
    seconds: &[i64],
    months: &[i32],
    policy: u32,
    moved: &mut [i64],
    statuses: &mut [u8],
) -> usize
    ensures { need SameLength (length seconds.now) (length months.now ∷ length moved.old ∷ length statuses.old ∷ [])
        else (result ≡ usize.MAX) × (moved.new ≡ moved.old) × (statuses.new ≡ statuses.old) then
        AreRows statuses.new result (λ k. IsSecondsAfter zone.now (int_at seconds.now k)
        (parts (pos 0) (int_at months.now k) (pos 0) (pos 0) (pos 0)) policy
        (int64_row (int_at moved.new k) (nat_at statuses.new k))) }
{
    let resolver = Resolver {
        zone: zone.unchecked(),
        policy: valid_policy(policy),
    };
    write_rows!(row_of_months(seconds, months; &resolver) => moved; statuses)
}

/// Writes the Unix times of the starts of the days that the clocks of a zone show at Unix times,
/// like `fots_zoned_start_of_day`.
#[unsafe(no_mangle)]
pub extern "C" fn fots_zoned_starts_of_day(
    zone: &CheckedZone<'_>,
    seconds: &[i64],
    starts: &mut [i64],
    statuses: &mut [u8],
) -> usize
    ensures { need SameLength (length seconds.now) (length starts.old ∷ length statuses.old ∷ [])
        else (result ≡ usize.MAX) × (starts.new ≡ starts.old) × (statuses.new ≡ statuses.old) then
        AreRows statuses.new result (λ k. IsSecondsOfStart zone.now (int_at seconds.now k)
        (int64_row (int_at starts.new k) (nat_at statuses.new k))) }
{
    let unchecked = zone.unchecked();
    write_rows!(row_of_start(seconds; &unchecked) => starts; statuses)
}

/// Returns the row of a Unix time plus days.
fn row_of_days(seconds: i64, days: i64, resolver: &Resolver<'_>) -> (i64, u8)
    ensures { MatchOption resolver.now.zone (int64_row result.0 result.1 ≡ int64_error INVALID_ZONE)
        (λ z. InOrder z → MatchOption resolver.now.policy
        (int64_row result.0 result.1 ≡ int64_error INVALID_POLICY)
        (λ policy. IsLaterSeconds z seconds (parts (pos 0) (pos 0) (pos 0) days (pos 0)) policy
        (int64_row result.0 result.1))) }
{
    row_after(seconds, Period::from_days(clamped_days(days)), resolver)
}

/// Clamps days to 32 bits. Days that don't fit go past the range either way.
fn clamped_days(days: i64) -> i32
    ensures { result ≡ int_min (int_max days i32.MIN) i32.MAX }
{
    days.max(i64::from(i32::MIN)).min(i64::from(i32::MAX)) as i32
}

/// Returns the row of a Unix time plus months.
fn row_of_months(seconds: i64, months: i32, resolver: &Resolver<'_>) -> (i64, u8)
    ensures { MatchOption resolver.now.zone (int64_row result.0 result.1 ≡ int64_error INVALID_ZONE)
        (λ z. InOrder z → MatchOption resolver.now.policy
        (int64_row result.0 result.1 ≡ int64_error INVALID_POLICY)
        (λ policy. IsLaterSeconds z seconds (parts (pos 0) months (pos 0) (pos 0) (pos 0)) policy
        (int64_row result.0 result.1))) }
{
    row_after(seconds, Period::from_months(months), resolver)
}

/// Returns the row of a Unix time plus a period.
fn row_after(seconds: i64, period: Period, resolver: &Resolver<'_>) -> (i64, u8)
    ensures { MatchOption resolver.now.zone (int64_row result.0 result.1 ≡ int64_error INVALID_ZONE)
        (λ z. InOrder z → MatchOption resolver.now.policy
        (int64_row result.0 result.1 ≡ int64_error INVALID_POLICY)
        (λ policy. IsLaterSeconds z seconds period policy (int64_row result.0 result.1))) }
{
    match &resolver.zone {
        Some(zone) => match &resolver.policy {
            Some(policy) => later_seconds(seconds, period, zone, *policy),
            None => (NO_TIME, INVALID_POLICY as u8),
        },
        None => (NO_TIME, INVALID_ZONE as u8),
    }
}

/// Returns the row of a Unix time plus a period in a zone by a policy.
fn later_seconds(
    seconds: i64,
    period: Period,
    zone: &UncheckedZone<'_>,
    policy: Policy,
) -> (i64, u8)
    ensures { InOrder zone.now
        → IsLaterSeconds zone.now seconds period policy (int64_row result.0 result.1) }
{
    let moment = or_return!(
        seen_second(seconds, zone),
        (NO_TIME, RESULT_OUT_OF_RANGE as u8)
    );
    seconds_row(period_later(moment, period, zone, policy))
}

/// Returns what the clocks of a zone show at a Unix time, or `None` if it is out of range.
fn seen_second(seconds: i64, zone: &UncheckedZone<'_>) -> Option<OffsetDateTime>
    ensures { InOrder zone.now → SomeIff result (IsDateTime (reading_at zone.now (instant_at seconds)))
        (seen zone.now (instant_at seconds)) }
{
    seen_at(i128::from(seconds) * 1_000_000_000, zone)
}

/// Returns the row of a date-time in a zone.
fn seconds_row(found: Result<OffsetDateTime, LocalTimeError>) -> (i64, u8)
    ensures { (z : Timeline) → int64_row result.0 result.1 ≡ seconds_or_error (result_in z found) }
{
    match found {
        Ok(moment) => (moment.unix_timestamp(), OK as u8),
        Err(error) => (NO_TIME, byte_status(local_time_status(error))),
    }
}

/// Returns the row of the start of the day at a Unix time.
fn row_of_start(seconds: i64, zone: &Option<UncheckedZone<'_>>) -> (i64, u8)
    ensures { MatchOption zone.now (int64_row result.0 result.1 ≡ int64_error INVALID_ZONE)
        (λ z. InOrder z → IsStartSeconds z seconds (int64_row result.0 result.1)) }
{
    match zone {
        Some(zone) => start_seconds(seconds, zone),
        None => (NO_TIME, INVALID_ZONE as u8),
    }
}

/// Returns the row of the start of the day at a Unix time in a zone.
fn start_seconds(seconds: i64, zone: &UncheckedZone<'_>) -> (i64, u8)
    ensures { InOrder zone.now → IsStartSeconds zone.now seconds (int64_row result.0 result.1) }
{
    let moment = or_return!(
        seen_second(seconds, zone),
        (NO_TIME, RESULT_OUT_OF_RANGE as u8)
    );
    let start = or_return!(
        day_start(moment.date(), zone),
        (NO_TIME, RESULT_OUT_OF_RANGE as u8)
    );
    (start.unix_timestamp(), OK as u8)
}
