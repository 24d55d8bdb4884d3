//! Date-times in a zone: moments with the offset of the zone at their instants.
ghost use Rattle.std.specs.Prelude.{◌≡◌, ◌↔◌, IsTrue};
ghost use Rattle.cal_zone.specs.Local.{Shows};
ghost use Rattle.cal_zone.specs.Timeline.{Timeline, InOrder};
ghost use Rattle.cal_zoned.specs.Unchecked.{result_in};
ghost use Rattle.cal_c.specs.Moments.{moment_error};
ghost use Rattle.cal_c.specs.Results.{duration_error};
ghost use Rattle.cal_c.specs.Zoned.{zoned_or_error, IsDurationEarlier, IsDurationLater, IsFromLocal, IsLengthOfDate, IsNthPeriodResult, IsPeriodLaterResult, IsStartOfDate, IsWithLocal, IsZonedAt};
ghost use Rattle.cal_c.specs.Zones.{IsForZone};

use crate::moment::valid_moment;
use crate::results::{Duration, DurationResult, Moment, MomentResult};
use crate::schedule::periods::{PeriodParts, valid_period};
use crate::status::{
    INVALID_DATE, INVALID_DURATION, INVALID_MOMENT, INVALID_PERIOD, INVALID_POLICY, INVALID_TIME,
    INVALID_ZONE, RESULT_OUT_OF_RANGE, WRONG_OFFSET,
};
use crate::values::{valid_date, valid_duration, valid_time};
use crate::zones::checked_zone::CheckedZone;
use crate::zones::policy::{local_time_status, valid_policy};
use cal_datetime::{OffsetDateTime, PlainDateTime};
use cal_zone::{LocalTimeError, UncheckedZone};
use cal_zoned::unchecked::{
    day_length, day_start, earlier, found_at, kept, later, nth_later, period_later, resolved,
};

/// Returns `true` if the offset of a moment is the offset of the zone at its instant.
pub fn is_in_zone(zone: &UncheckedZone<'_>, moment: OffsetDateTime) -> bool
    ensures { InOrder zone.now → IsTrue result ↔ Shows zone.now moment.local moment }
{
    match zone.utc_offset_at(moment.unix_timestamp()) {
        Some(offset) => offset == moment.offset(),
        None => false,
    }
}

/// Returns the result of a date-time in a zone.
pub fn zoned_result(found: Result<OffsetDateTime, LocalTimeError>) -> MomentResult
    ensures { (z : Timeline) → result ≡ zoned_or_error (result_in z found) }
{
    match found {
        Ok(moment) => MomentResult::ok(moment),
        Err(error) => MomentResult::error(local_time_status(error)),
    }
}

/// Returns the moment in a zone at a Unix time, exact to the nanosecond. Fails if what the clocks
/// show then is out of range. In Berlin 1711846800 is 2024-03-31 3:00 +02:00.
#[unsafe(no_mangle)]
pub extern "C" fn fots_zoned_at(zone: &CheckedZone<'_>, unix_time: Duration) -> MomentResult
    ensures { IsForZone zone.now (λ z. IsZonedAt z unix_time result)
        (result ≡ moment_error INVALID_ZONE) }
{
    let zone = or_error!(MomentResult, zone.unchecked(), INVALID_ZONE);
    at_unix_time(&zone, unix_time)
}

/// Returns the moment in a zone at a Unix time.
fn at_unix_time(zone: &UncheckedZone<'_>, unix_time: Duration) -> MomentResult
    ensures { InOrder zone.now → IsZonedAt zone.now unix_time result }
{
    let unix_time = or_error!(MomentResult, valid_duration(unix_time), INVALID_DURATION);
    zoned_result(found_at(unix_time.whole_nanoseconds(), zone))
}

/// Returns the moment that a date and a time of day mean in a zone by a policy. In a gap it is the
/// instant at the offset before the gap by 0 and 2, at the offset after it by 1, as the clocks show
/// it then. Fails if the result is out of range, and by 3 if clocks skip the time or show it twice.
/// In Berlin 2024-03-31 2:30 is 3:30 +02:00 by 0.
#[unsafe(no_mangle)]
pub extern "C" fn fots_zoned_from_local(
    zone: &CheckedZone<'_>,
    date: i32,
    time: u64,
    policy: u32,
) -> MomentResult
    ensures { IsForZone zone.now (λ z. IsFromLocal z date time policy result)
        (result ≡ moment_error INVALID_ZONE) }
{
    let zone = or_error!(MomentResult, zone.unchecked(), INVALID_ZONE);
    from_local(&zone, date, time, policy)
}

/// Returns the moment that a date and a time of day mean in a zone.
fn from_local(zone: &UncheckedZone<'_>, date: i32, time: u64, policy: u32) -> MomentResult
    ensures { InOrder zone.now → IsFromLocal zone.now date time policy result }
{
    let date = or_error!(MomentResult, valid_date(date), INVALID_DATE);
    let time = or_error!(MomentResult, valid_time(time), INVALID_TIME);
    let policy = or_error!(MomentResult, valid_policy(policy), INVALID_POLICY);
    zoned_result(resolved(PlainDateTime::new(date, time), zone, policy))
}

/// Moves a moment in a zone to another date and time of day. Keeps the offset if the clocks show
/// them at it, and otherwise goes by the policy, like `fots_zoned_from_local`. Fails like it, and if
/// the offset of the moment is not the offset of the zone. In Berlin 2024-10-27 2:30 +01:00 at 2:45
/// is 2:45 +01:00 by each policy.
#[unsafe(no_mangle)]
pub extern "C" fn fots_zoned_with_local(
    zone: &CheckedZone<'_>,
    moment: Moment,
    date: i32,
    time: u64,
    policy: u32,
) -> MomentResult
    ensures { IsForZone zone.now (λ z. IsWithLocal z moment date time policy result)
        (result ≡ moment_error INVALID_ZONE) }
{
    let zone = or_error!(MomentResult, zone.unchecked(), INVALID_ZONE);
    with_local(&zone, moment, date, time, policy)
}

/// Moves a moment in a zone to another date and time of day.
fn with_local(
    zone: &UncheckedZone<'_>,
    moment: Moment,
    date: i32,
    time: u64,
    policy: u32,
) -> MomentResult
    ensures { InOrder zone.now → IsWithLocal zone.now moment date time policy result }
{
    let moment = or_error!(MomentResult, valid_moment(moment), INVALID_MOMENT);
    if !is_in_zone(zone, moment) {
        return MomentResult::error(WRONG_OFFSET);
    }
    let date = or_error!(MomentResult, valid_date(date), INVALID_DATE);
    let time = or_error!(MomentResult, valid_time(time), INVALID_TIME);
    let policy = or_error!(MomentResult, valid_policy(policy), INVALID_POLICY);
    zoned_result(kept(moment, PlainDateTime::new(date, time), zone, policy))
}

/// Adds a duration to the instant of a moment in a zone. Fails if the offset of the moment is not
/// the offset of the zone, and if what the clocks show then is out of range. In Berlin an hour after
/// 2024-03-31 1:30 +01:00 is 3:30 +02:00.
#[unsafe(no_mangle)]
pub extern "C" fn fots_zoned_checked_add(
    zone: &CheckedZone<'_>,
    moment: Moment,
    duration: Duration,
) -> MomentResult
    ensures { IsForZone zone.now (λ z. IsDurationLater z moment duration result)
        (result ≡ moment_error INVALID_ZONE) }
{
    let zone = or_error!(MomentResult, zone.unchecked(), INVALID_ZONE);
    add(&zone, moment, duration)
}

/// Adds a duration to a moment in a zone.
fn add(zone: &UncheckedZone<'_>, moment: Moment, duration: Duration) -> MomentResult
    ensures { InOrder zone.now → IsDurationLater zone.now moment duration result }
{
    let moment = or_error!(MomentResult, valid_moment(moment), INVALID_MOMENT);
    if !is_in_zone(zone, moment) {
        return MomentResult::error(WRONG_OFFSET);
    }
    let duration = or_error!(MomentResult, valid_duration(duration), INVALID_DURATION);
    zoned_result(later(moment, duration, zone))
}

/// Subtracts a duration from the instant of a moment in a zone. It fails like
/// `fots_zoned_checked_add`. In Berlin an hour before 2024-03-31 3:30 +02:00 is 1:30 +01:00.
#[unsafe(no_mangle)]
pub extern "C" fn fots_zoned_checked_sub(
    zone: &CheckedZone<'_>,
    moment: Moment,
    duration: Duration,
) -> MomentResult
    ensures { IsForZone zone.now (λ z. IsDurationEarlier z moment duration result)
        (result ≡ moment_error INVALID_ZONE) }
{
    let zone = or_error!(MomentResult, zone.unchecked(), INVALID_ZONE);
    sub(&zone, moment, duration)
}

/// Subtracts a duration from a moment in a zone.
fn sub(zone: &UncheckedZone<'_>, moment: Moment, duration: Duration) -> MomentResult
    ensures { InOrder zone.now → IsDurationEarlier zone.now moment duration result }
{
    let moment = or_error!(MomentResult, valid_moment(moment), INVALID_MOMENT);
    if !is_in_zone(zone, moment) {
        return MomentResult::error(WRONG_OFFSET);
    }
    let duration = or_error!(MomentResult, valid_duration(duration), INVALID_DURATION);
    zoned_result(earlier(moment, duration, zone))
}

/// Adds a period to a moment in a zone. Its years and months move the date, then its weeks and
/// days; the time of day stays, and the policy says what it means on the new date, like
/// `fots_zoned_from_local`. Then its duration moves the instant. A period with only a duration
/// resolves nothing. Fails like `fots_zoned_with_local`, and if the date is out of range. In Berlin
/// a day after 2024-03-30 2:30 +01:00 is 2024-03-31 3:30 +02:00 by 0.
#[unsafe(no_mangle)]
pub extern "C" fn fots_zoned_add_period(
    zone: &CheckedZone<'_>,
    moment: Moment,
    period: PeriodParts,
    policy: u32,
) -> MomentResult
    ensures { IsForZone zone.now (λ z. IsPeriodLaterResult z moment period policy result)
        (result ≡ moment_error INVALID_ZONE) }
{
    let zone = or_error!(MomentResult, zone.unchecked(), INVALID_ZONE);
    add_period(&zone, moment, period, policy)
}

/// Adds a period to a moment in a zone.
fn add_period(
    zone: &UncheckedZone<'_>,
    moment: Moment,
    period: PeriodParts,
    policy: u32,
) -> MomentResult
    ensures { InOrder zone.now → IsPeriodLaterResult zone.now moment period policy result }
{
    let moment = or_error!(MomentResult, valid_moment(moment), INVALID_MOMENT);
    if !is_in_zone(zone, moment) {
        return MomentResult::error(WRONG_OFFSET);
    }
    let period = or_error!(MomentResult, valid_period(period), INVALID_PERIOD);
    let policy = or_error!(MomentResult, valid_policy(policy), INVALID_POLICY);
    zoned_result(period_later(moment, period, zone, policy))
}

/// Adds a period `n` times at once to a moment in a zone, so that nothing drifts: `n` times its years
/// and months, then `n` times its weeks and days, and then `n` times its duration. Else like
/// `fots_zoned_add_period`. In Berlin 2 months after 2024-01-31 2:30 +01:00 is 2024-03-31 3:30
/// +02:00 by 0.
#[unsafe(no_mangle)]
pub extern "C" fn fots_zoned_nth_period(
    zone: &CheckedZone<'_>,
    moment: Moment,
    period: PeriodParts,
    n: i32,
    policy: u32,
) -> MomentResult
    ensures { IsForZone zone.now (λ z. IsNthPeriodResult z moment period n policy result)
        (result ≡ moment_error INVALID_ZONE) }
{
    let zone = or_error!(MomentResult, zone.unchecked(), INVALID_ZONE);
    nth_period(&zone, moment, period, n, policy)
}

/// Adds a period some times at once to a moment in a zone.
fn nth_period(
    zone: &UncheckedZone<'_>,
    moment: Moment,
    period: PeriodParts,
    n: i32,
    policy: u32,
) -> MomentResult
    ensures { InOrder zone.now → IsNthPeriodResult zone.now moment period n policy result }
{
    let moment = or_error!(MomentResult, valid_moment(moment), INVALID_MOMENT);
    if !is_in_zone(zone, moment) {
        return MomentResult::error(WRONG_OFFSET);
    }
    let period = or_error!(MomentResult, valid_period(period), INVALID_PERIOD);
    let policy = or_error!(MomentResult, valid_policy(policy), INVALID_POLICY);
    zoned_result(nth_later(moment, period, n, zone, policy))
}

/// Returns the first instant at which the clocks of a zone have reached a date. Where they skip
/// midnight it is the end of the gap, and for a date that they skip the first instant after it.
/// Fails if what the clocks show then is out of range. In Toronto 1919-03-31 starts at 0:30 -04:00.
#[unsafe(no_mangle)]
pub extern "C" fn fots_zoned_start_of_day(zone: &CheckedZone<'_>, date: i32) -> MomentResult
    ensures { IsForZone zone.now (λ z. IsStartOfDate z date result)
        (result ≡ moment_error INVALID_ZONE) }
{
    let zone = or_error!(MomentResult, zone.unchecked(), INVALID_ZONE);
    start(&zone, date)
}

/// Returns the start of a date in a zone.
fn start(zone: &UncheckedZone<'_>, date: i32) -> MomentResult
    ensures { InOrder zone.now → IsStartOfDate zone.now date result }
{
    let date = or_error!(MomentResult, valid_date(date), INVALID_DATE);
    let start = or_error!(MomentResult, day_start(date, zone), RESULT_OUT_OF_RANGE);
    MomentResult::ok(start)
}

/// Returns the length of a day in a zone, from its start to the start of the next day. Fails if one
/// of the two is out of range. In Berlin it is 23 hours for 2024-03-31.
#[unsafe(no_mangle)]
pub extern "C" fn fots_zoned_day_length(zone: &CheckedZone<'_>, date: i32) -> DurationResult
    ensures { IsForZone zone.now (λ z. IsLengthOfDate z date result)
        (result ≡ duration_error INVALID_ZONE) }
{
    let zone = or_error!(DurationResult, zone.unchecked(), INVALID_ZONE);
    length(&zone, date)
}

/// Returns the length of a day in a zone.
fn length(zone: &UncheckedZone<'_>, date: i32) -> DurationResult
    ensures { InOrder zone.now → IsLengthOfDate zone.now date result }
{
    let date = or_error!(DurationResult, valid_date(date), INVALID_DATE);
    DurationResult::from_option(day_length(date, zone))
}
