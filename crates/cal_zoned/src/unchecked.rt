//! Date-times in zones whose changes need not be in order.
//!
//! Each function does the same as a method of [`ZonedDateTime`](crate::ZonedDateTime) or as
//! [`start_of_day`](crate::start_of_day). If the changes are not in order, it may return any value.
ghost use Rattle.std.specs.Prelude.{◌≡◌, ◌↔◌, ℕ, ◌<◌, ◌^◌, pos, ◌+ℤ◌, ◌-ℤ◌, ◌*ℤ◌, ◌≤ℤ◌, ◌<ℤ◌, Err, IfNone, IfOk, IfSome, IsTrue, SomeIff, unsigned_abs};
ghost use Rattle.cal_time.specs.Date.{IsDate};
ghost use Rattle.cal_time.specs.SignedDuration.{second};
ghost use Rattle.cal_datetime.specs.DateTime.{IsDateTime, date_at, date_time, with_date};
ghost use Rattle.cal_schedule.specs.Period.{days_of, months_of, IsDaysLater};
ghost use Rattle.cal_datetime.specs.OffsetDateTime.{instant, unix_epoch, unix_nanoseconds, IsInstant};
ghost use Rattle.cal_zone.specs.Timeline.{InOrder};
ghost use Rattle.cal_zone.specs.declared.local_time_error.LocalTimeError.TheVariants.{OutOfRange};
ghost use Rattle.cal_zoned.specs.Day.{HasDayLength, IsDayLength, IsStart};
ghost use Rattle.cal_zoned.specs.Moves.{IsMovedTo};
ghost use Rattle.cal_zoned.specs.Period.{IsExact, IsMovedThen, IsNthPeriodLater, IsPeriodLater};
ghost use Rattle.cal_zoned.specs.Resolved.{IsKept, IsResolved};
ghost use Rattle.cal_zoned.specs.Unchecked.{in_zone, result_in, start_in};
ghost use Rattle.cal_zoned.specs.Zoned.{reading_at, seen, IsSeen};

mod until;

use cal_datetime::{OffsetDateTime, PlainDateTime};
use cal_schedule::{Period, nth_date};
use cal_time::{Date, SignedDuration, Time, UtcOffset};
use cal_zone::{Local, LocalTimeError, Policy, UncheckedZone};
pub use until::period_between;

/// Returns what the clocks show some nanoseconds after 1970-01-01 0:00 UTC, or `None` if it is out
/// of range.
pub fn seen_at(nanoseconds: i128, zone: &UncheckedZone<'_>) -> Option<OffsetDateTime>
    ensures { InOrder zone.now
        → SomeIff result (IsDateTime (reading_at zone.now (unix_epoch +ℤ nanoseconds)))
        (seen zone.now (unix_epoch +ℤ nanoseconds)) }
{
    let past = nanoseconds.rem_euclid(1_000_000_000) as i32;
    let Ok(seconds) = i64::try_from(nanoseconds.div_euclid(1_000_000_000)) else {
        return None;
    };
    let offset = zone.utc_offset_at(seconds)?;
    let local = local_date_time(seconds, past, offset)?;
    Some(local.assume_offset(offset))
}

/// Returns the local date-time some seconds and nanoseconds after 1970-01-01 0:00 UTC at an offset,
/// or `None` if it is out of range.
fn local_date_time(seconds: i64, past: i32, offset: UtcOffset) -> Option<PlainDateTime>
    requires { (pos 0 ≤ℤ past) × (past <ℤ pos second) }
    ensures { let local = unix_epoch +ℤ (seconds +ℤ offset) *ℤ pos second +ℤ past
        in SomeIff result (IsDateTime local) local }
{
    let seconds = seconds.checked_add(i64::from(offset.whole_seconds()))?;
    OffsetDateTime::unix_epoch()
        .local()
        .checked_add(SignedDuration::new(seconds, past))
}

/// Returns what the clocks show some nanoseconds after 1970-01-01 0:00 UTC, or the error
/// `OutOfRange`.
pub fn found_at(
    nanoseconds: i128,
    zone: &UncheckedZone<'_>,
) -> Result<OffsetDateTime, LocalTimeError>
    ensures { InOrder zone.now
        → IsSeen zone.now (unix_epoch +ℤ nanoseconds) (result_in zone.now result) }
{
    match seen_at(nanoseconds, zone) {
        Some(moment) => Ok(moment),
        None => Err(LocalTimeError::OutOfRange),
    }
}

/// Returns what the clocks show at the instant of a reading at an offset.
fn found_from(
    reading: PlainDateTime,
    offset: UtcOffset,
    zone: &UncheckedZone<'_>,
) -> Result<OffsetDateTime, LocalTimeError>
    ensures { InOrder zone.now → IsSeen zone.now (reading -ℤ offset *ℤ pos second)
        (result_in zone.now result) }
{
    found_at(reading.assume_offset(offset).unix_timestamp_nanos(), zone)
}

/// Returns the date-time that a local date-time means by a policy.
pub fn resolved(
    reading: PlainDateTime,
    zone: &UncheckedZone<'_>,
    policy: Policy,
) -> Result<OffsetDateTime, LocalTimeError>
    ensures { InOrder zone.now → IsResolved policy zone.now reading (result_in zone.now result) }
{
    let Some(local) = zone.resolve(reading) else {
        return Err(LocalTimeError::OutOfRange);
    };
    match local {
        Local::Single(moment) => Ok(moment),
        Local::Gap(gap) => match policy {
            Policy::Compatible | Policy::Later => found_from(reading, gap.offset_before(), zone),
            Policy::Earlier => found_from(reading, gap.offset_after(), zone),
            Policy::Reject => Err(LocalTimeError::Skipped),
        },
        Local::Fold { earlier, later } => match policy {
            Policy::Compatible | Policy::Earlier => Ok(earlier),
            Policy::Later => Ok(later),
            Policy::Reject => Err(LocalTimeError::Repeated),
        },
    }
}

/// Moves a date-time to a local date-time. Keeps the offset if the clocks show the local date-time
/// at it, and otherwise goes by the policy.
pub fn kept(
    moment: OffsetDateTime,
    reading: PlainDateTime,
    zone: &UncheckedZone<'_>,
    policy: Policy,
) -> Result<OffsetDateTime, LocalTimeError>
    ensures { InOrder zone.now
        → IsKept policy (in_zone zone.now moment) reading (result_in zone.now result) }
{
    let here = reading.assume_offset(moment.offset());
    let Some(offset) = zone.utc_offset_at(here.unix_timestamp()) else {
        return Err(LocalTimeError::OutOfRange);
    };
    if offset == moment.offset() {
        Ok(here)
    } else {
        resolved(reading, zone, policy)
    }
}

/// Moves a date-time to another date, where the policy says what its time of day means. On its own
/// date it stays.
pub fn moved_to(
    moment: OffsetDateTime,
    date: Date,
    zone: &UncheckedZone<'_>,
    policy: Policy,
) -> Result<OffsetDateTime, LocalTimeError>
    ensures { InOrder zone.now
        → IsMovedTo policy (in_zone zone.now moment) date (result_in zone.now result) }
{
    if moment.date() == date {
        return Ok(moment);
    }
    resolved(moment.local().replace_date(date), zone, policy)
}

/// Returns the nanoseconds from 1970-01-01 0:00 UTC to the instant of a date-time.
fn nanoseconds_of(moment: OffsetDateTime) -> i128
    ensures value { result ≡ unix_nanoseconds (instant moment) }
    ensures range { IsInstant (instant moment) }
{
    let _ = moment.local();
    let _ = moment.offset();
    moment.unix_timestamp_nanos()
}

/// Adds nanoseconds to the instant of a date-time.
fn later_by(
    moment: OffsetDateTime,
    nanoseconds: i128,
    zone: &UncheckedZone<'_>,
) -> Result<OffsetDateTime, LocalTimeError>
    requires { unsigned_abs nanoseconds < 2 ^ 126 }
    ensures { InOrder zone.now
        → IsSeen zone.now (instant moment +ℤ nanoseconds) (result_in zone.now result) }
{
    found_at(nanoseconds_of(moment) + nanoseconds, zone)
}

/// Adds a duration to the instant of a date-time.
pub fn later(
    moment: OffsetDateTime,
    duration: SignedDuration,
    zone: &UncheckedZone<'_>,
) -> Result<OffsetDateTime, LocalTimeError>
    ensures { InOrder zone.now
        → IsSeen zone.now (instant moment +ℤ duration) (result_in zone.now result) }
{
    later_by(moment, duration.whole_nanoseconds(), zone)
}

/// Subtracts a duration from the instant of a date-time.
pub fn earlier(
    moment: OffsetDateTime,
    duration: SignedDuration,
    zone: &UncheckedZone<'_>,
) -> Result<OffsetDateTime, LocalTimeError>
    ensures { InOrder zone.now
        → IsSeen zone.now (instant moment -ℤ duration) (result_in zone.now result) }
{
    found_at(nanoseconds_of(moment) - duration.whole_nanoseconds(), zone)
}

/// Resolves a local date-time by a policy, and then adds nanoseconds.
fn resolved_then(
    reading: PlainDateTime,
    nanoseconds: i128,
    zone: &UncheckedZone<'_>,
    policy: Policy,
) -> Result<OffsetDateTime, LocalTimeError>
    requires { unsigned_abs nanoseconds < 2 ^ 126 }
    ensures { InOrder zone.now
        → IsMovedThen policy zone.now reading nanoseconds (result_in zone.now result) }
{
    match resolved(reading, zone, policy) {
        Ok(moment) => {
            // It states that the local date-time is in range.
            let _ = moment.local();
            if nanoseconds == 0 {
                Ok(moment)
            } else {
                later_by(moment, nanoseconds, zone)
            }
        }
        Err(error) => Err(error),
    }
}

/// Adds a period to a date-time.
pub fn period_later(
    moment: OffsetDateTime,
    period: Period,
    zone: &UncheckedZone<'_>,
    policy: Policy,
) -> Result<OffsetDateTime, LocalTimeError>
    ensures { InOrder zone.now
        → IsPeriodLater policy (in_zone zone.now moment) period (result_in zone.now result) }
{
    nth_later(moment, period, 1, zone, policy)
}

/// Adds a period `n` times at once to a date-time.
pub fn nth_later(
    moment: OffsetDateTime,
    period: Period,
    n: i32,
    zone: &UncheckedZone<'_>,
    policy: Policy,
) -> Result<OffsetDateTime, LocalTimeError>
    ensures { InOrder zone.now
        → IsNthPeriodLater policy (in_zone zone.now moment) period n (result_in zone.now result) }
{
    let nanoseconds = times(n, period.duration());
    if is_exact(period, n) {
        later_by(moment, nanoseconds, zone)
    } else {
        date_later(moment, period, n, nanoseconds, zone, policy)
    }
}

/// Returns the nanoseconds of a duration, `n` times.
fn times(n: i32, duration: SignedDuration) -> i128
    ensures value { result ≡ n *ℤ duration }
    ensures range { unsigned_abs result < 2 ^ 126 }
{
    i128::from(n) * duration.whole_nanoseconds()
}

/// Returns `true` if a period, `n` times, has no years, months, weeks and days.
fn is_exact(period: Period, n: i32) -> bool
    ensures { IsTrue result ↔ IsExact (n *ℤ months_of period) (n *ℤ days_of period) }
{
    has_no_months(period, n) && has_no_days(period, n)
}

/// Returns `true` if a period, `n` times, has no years and months.
fn has_no_months(period: Period, n: i32) -> bool
    ensures { IsTrue result ↔ (n *ℤ months_of period ≡ pos 0) }
{
    is_zero(product(n, period.whole_months()))
}

/// Returns `true` if a period, `n` times, has no weeks and days.
fn has_no_days(period: Period, n: i32) -> bool
    ensures { IsTrue result ↔ (n *ℤ days_of period ≡ pos 0) }
{
    is_zero(product(n, period.whole_days()))
}

/// Returns `true` if a number is zero.
fn is_zero(number: i128) -> bool
    ensures { IsTrue result ↔ (number ≡ pos 0) }
{
    number == 0
}

/// Returns the product of two numbers.
fn product(a: i32, b: i64) -> i128
    ensures { result ≡ a *ℤ b }
{
    i128::from(a) * i128::from(b)
}

/// Adds the years, months, weeks and days of a period `n` times to the date of a date-time, and
/// then nanoseconds to the instant.
fn date_later(
    moment: OffsetDateTime,
    period: Period,
    n: i32,
    nanoseconds: i128,
    zone: &UncheckedZone<'_>,
    policy: Policy,
) -> Result<OffsetDateTime, LocalTimeError>
    requires { unsigned_abs nanoseconds < 2 ^ 126 }
    ensures moved { InOrder zone.now → (d : ℕ) → IsDate d
        → IsDaysLater (date_at moment.local) (n *ℤ months_of period) (n *ℤ days_of period) d
        → IsMovedThen policy zone.now (with_date moment.local d) nanoseconds
        (result_in zone.now result) }
    ensures none { ((d : ℕ) → IsDate d
        → ¬ IsDaysLater (date_at moment.local) (n *ℤ months_of period) (n *ℤ days_of period) d)
        → result ≡ Err OutOfRange }
    ensures is { IfOk result (λ _. (d : ℕ) × IsDate d
        × IsDaysLater (date_at moment.local) (n *ℤ months_of period) (n *ℤ days_of period) d) }
{
    match nth_date(moment.date(), period, n) {
        Some(date) => {
            let reading = moment.local().replace_date(date);
            resolved_then(reading, nanoseconds, zone, policy)
        }
        None => Err(LocalTimeError::OutOfRange),
    }
}

/// Returns the first instant at which the clocks have reached a date, or `None` if what they show
/// then is out of range.
pub fn day_start(date: Date, zone: &UncheckedZone<'_>) -> Option<OffsetDateTime>
    ensures { InOrder zone.now
        → IsStart zone.now (date_time date 0) (start_in zone.now result) }
{
    let local = zone.resolve(PlainDateTime::new(date, Time::MIDNIGHT))?;
    match local {
        Local::Single(moment) => Some(moment),
        Local::Gap(gap) => seen_at(i128::from(gap.at()) * 1_000_000_000, zone),
        Local::Fold { earlier, .. } => Some(earlier),
    }
}

/// Returns the length of a day, from its start to the start of the next day. Returns `None` if one
/// of the two starts is out of range.
pub fn day_length(date: Date, zone: &UncheckedZone<'_>) -> Option<SignedDuration>
    ensures value { InOrder zone.now → IfSome result (IsDayLength zone.now date) }
    ensures some { InOrder zone.now → IfSome result (λ _. HasDayLength zone.now date) }
    ensures none { InOrder zone.now → IfNone result (¬ (HasDayLength zone.now date)) }
{
    let next = date.next_day()?;
    let start = day_start(date, zone)?;
    let end = day_start(next, zone)?;
    Some(end - start)
}
