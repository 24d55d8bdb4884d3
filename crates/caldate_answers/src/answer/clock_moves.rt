//! Moments moved by the clocks of a zone.
ghost use Rattle.std.specs.Prelude.{◌≡◌, ◌==◌, ◌+ℤ◌, pos};
ghost use Rattle.cal_time.specs.Date.{IsDate};
ghost use Rattle.cal_time.specs.SignedDuration.{whole_days};
ghost use Rattle.cal_time.specs.SignedDuration as duration;
ghost use Rattle.cal_datetime.specs.OffsetDateTime.{instant};
ghost use Rattle.cal_zoned.specs.Zoned.{IsSeen, instant_in};
ghost use Rattle.caldate_answers.specs.ClockMoves.{IsDayWith, IsKeptAt, IsMovedIn, IsMovedOn, IsNearestOn, IsOnDay, IsPeriodOnDay, IsRounded};

use crate::answer::floored;
use crate::answer::moves::moved_day;
use crate::request::{Clock, Move};
use cal_datetime::{OffsetDateTime, PlainDateTime};
use cal_rounding::{RoundingMode, RoundingUnit, round_date_time, round_zoned};
use cal_schedule::{Period, Workdays, date_after};
use cal_time::{Date, SignedDuration};
use cal_zone::{LocalTimeError, Policy, Zone};
use cal_zoned::ZonedDateTime;

/// Moves a moment by the clocks of a zone. In Berlin a month after 2024-03-15 12:00 +01:00:00 is
/// 2024-04-15 12:00 +02:00:00.
///
/// # Errors
///
/// Returns `Skipped` or `Repeated` if the policy rejects what the clocks skip or show twice, and
/// `OutOfRange` if what they show is out of range.
#[inline(never)]
pub fn moved_on(
    clock: &Clock<'_>,
    workdays: &Workdays<'_>,
    by: Move,
    moment: OffsetDateTime,
) -> Result<OffsetDateTime, LocalTimeError>
    ensures { IsMovedOn clock.now workdays.now by moment result }
{
    match seen_in(&clock.zone, moment) {
        Ok(here) => match moved_in(clock.policy, workdays, by, &here) {
            Ok(there) => Ok(there.to_offset_date_time()),
            Err(error) => Err(error),
        },
        Err(error) => Err(error),
    }
}

/// Returns what the clocks of a zone show at a moment.
fn seen_in<'z>(
    zone: &'z Zone<'z>,
    moment: OffsetDateTime,
) -> Result<ZonedDateTime<'z>, LocalTimeError>
    ensures { IsSeen zone.now (instant moment) result }
{
    match ZonedDateTime::from_offset_date_time(moment, zone) {
        Some(here) => Ok(here),
        None => Err(LocalTimeError::OutOfRange),
    }
}

/// Moves a date-time in a zone.
fn moved_in<'z>(
    policy: Policy,
    workdays: &Workdays<'_>,
    by: Move,
    from: &ZonedDateTime<'z>,
) -> Result<ZonedDateTime<'z>, LocalTimeError>
    ensures { IsMovedIn policy workdays.now by from.now result }
{
    match by {
        Move::Day(by) => on_day(policy, moved_day(workdays, from.date(), by), from),
        Move::Days(duration) => on_day(policy, days_later(from.date(), duration), from),
        Move::Add(duration) => later(duration, from),
        Move::Floor(minutes) => rounded_down(policy, minutes, from),
        Move::Period(period) => period_later(policy, period, from),
        Move::Round(unit) => rounded(policy, unit, from),
    }
}

/// Adds the whole days of a duration, or returns `None` if the result is out of range.
fn days_later(date: Date, duration: SignedDuration) -> Option<Date>
    ensures { IsDayWith (λ n. IsDate n × (pos n ≡ pos date +ℤ whole_days duration)) result }
{
    match date.checked_add(duration) {
        Some(day) => Some(day),
        None => None,
    }
}

/// Moves a date-time in a zone to another day, if there is one.
fn on_day<'z>(
    policy: Policy,
    day: Option<Date>,
    from: &ZonedDateTime<'z>,
) -> Result<ZonedDateTime<'z>, LocalTimeError>
    ensures { IsOnDay policy from.now day result }
{
    match day {
        Some(date) => from.moved_to(date, policy),
        None => Err(LocalTimeError::OutOfRange),
    }
}

/// Moves the instant of a date-time in a zone.
fn later<'z>(
    duration: SignedDuration,
    from: &ZonedDateTime<'z>,
) -> Result<ZonedDateTime<'z>, LocalTimeError>
    ensures { IsSeen from.now.zone (instant_in from.now +ℤ duration) result }
{
    match from.checked_add(duration) {
        Some(there) => Ok(there),
        None => Err(LocalTimeError::OutOfRange),
    }
}

/// Rounds the time of day that the clocks show down to a multiple of `minutes` minutes, or for 1440
/// minutes to the start of the day.
fn rounded_down<'z>(
    policy: Policy,
    minutes: u16,
    from: &ZonedDateTime<'z>,
) -> Result<ZonedDateTime<'z>, LocalTimeError>
    ensures { IsRounded policy minutes from.now result }
{
    if minutes == 1440 {
        return match from.start_of_day() {
            Some(there) => Ok(there),
            None => Err(LocalTimeError::OutOfRange),
        };
    }
    from.with_local(floored(minutes, from.to_offset_date_time()).local(), policy)
}

/// Adds a period to a date-time in a zone.
fn period_later<'z>(
    policy: Policy,
    period: Period,
    from: &ZonedDateTime<'z>,
) -> Result<ZonedDateTime<'z>, LocalTimeError>
    ensures { IsPeriodOnDay policy period from.now result }
{
    // It states which day the months and the days of the period give.
    let _ = date_after(from.date(), period);
    from.checked_add_period(period, policy)
}

/// Rounds what the clocks show to the nearest multiple of a unit, and up between two, or for a day to
/// the nearer of two starts.
fn rounded<'z>(
    policy: Policy,
    unit: RoundingUnit,
    from: &ZonedDateTime<'z>,
) -> Result<ZonedDateTime<'z>, LocalTimeError>
    ensures { IsNearestOn policy unit from.now result }
{
    if is_day(unit) {
        return round_zoned(from, unit, RoundingMode::HalfCeil);
    }
    let local = round_date_time(from.local(), unit, RoundingMode::HalfCeil);
    kept_at(policy, local, from)
}

/// Returns whether the unit is a day.
fn is_day(unit: RoundingUnit) -> bool
    ensures { result ≡ (unit == duration.day) }
{
    unit.length() == SignedDuration::DAY
}

/// Moves a date-time in a zone to another local time, if there is one.
fn kept_at<'z>(
    policy: Policy,
    local: Option<PlainDateTime>,
    from: &ZonedDateTime<'z>,
) -> Result<ZonedDateTime<'z>, LocalTimeError>
    ensures { IsKeptAt policy from.now local result }
{
    match local {
        Some(local) => from.with_local(local, policy),
        None => Err(LocalTimeError::OutOfRange),
    }
}
