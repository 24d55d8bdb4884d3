//! The period between two date-times in a zone whose changes need not be in order.
ghost use Rattle.std.specs.Prelude.{◌≡◌, ◌+◌, ◌<◌, ◌≤◌, ℕ, ◌≤ℤ◌, ◌<ℤ◌, Ok, IfNone, IfSome};
ghost use Rattle.cal_time.specs.Date.{IsDate};
ghost use Rattle.cal_time.specs.Date as dates;
ghost use Rattle.cal_datetime.specs.DateTime.{date_at};
ghost use Rattle.cal_datetime.specs.OffsetDateTime.{instant};
ghost use Rattle.cal_zone.specs.Timeline.{InOrder};
ghost use Rattle.cal_zoned.specs.Moves.{IsMovedTo};
ghost use Rattle.cal_zoned.specs.Unchecked.{in_zone};
ghost use Rattle.cal_zoned.specs.Until.{IsBackTo, IsLastBackTo, IsLastUpTo, IsUntilInZone, IsUpTo};

use crate::unchecked::moved_to;
use cal_datetime::OffsetDateTime;
use cal_schedule::{CalendarUnit, Period, period_until_by};
use cal_time::Date;
use cal_zone::{Policy, UncheckedZone};

/// Returns the period from one date-time to another, with `largest` as the largest unit of its
/// parts.
pub fn period_between(
    from: OffsetDateTime,
    to: OffsetDateTime,
    largest: CalendarUnit,
    zone: &UncheckedZone<'_>,
    policy: Policy,
) -> Period
    ensures { InOrder zone.now → IsUntilInZone policy largest (in_zone zone.now from)
        (in_zone zone.now to) result }
{
    let (date, there) = last_day(from, to, zone, policy);
    match period_until_by(from.date(), date, largest).with_duration(to - there) {
        Some(period) => period,
        None => unreachable!(),
    }
}

/// Moves a date-time to the last day on the way to another one on which it hasn't passed it. Returns
/// the day too.
fn last_day(
    from: OffsetDateTime,
    to: OffsetDateTime,
    zone: &UncheckedZone<'_>,
    policy: Policy,
) -> (Date, OffsetDateTime)
    ensures date { IsDate result.0 }
    ensures forward { instant from ≤ℤ instant to
        → (date_at from.local ≤ result.0) × (instant result.1 ≤ℤ instant to) }
    ensures backward { instant to <ℤ instant from
        → (result.0 ≤ date_at from.local) × (instant to ≤ℤ instant result.1) }
    ensures up_to { InOrder zone.now → instant from ≤ℤ instant to → IsLastUpTo policy
        (in_zone zone.now from) (in_zone zone.now to) result.0 (in_zone zone.now result.1) }
    ensures back_to { InOrder zone.now → instant to <ℤ instant from → IsLastBackTo policy
        (in_zone zone.now from) (in_zone zone.now to) result.0 (in_zone zone.now result.1) }
{
    if from <= to {
        last_up_to(from, to, zone, policy)
    } else {
        last_back_to(from, to, zone, policy)
    }
}

/// Moves a date-time to the last day on the way to a later one on which it isn't after it. Returns
/// the day too.
fn last_up_to(
    from: OffsetDateTime,
    to: OffsetDateTime,
    zone: &UncheckedZone<'_>,
    policy: Policy,
) -> (Date, OffsetDateTime)
    requires { instant from ≤ℤ instant to }
    ensures date { IsDate result.0 × (date_at from.local ≤ result.0) }
    ensures in_time { instant result.1 ≤ℤ instant to }
    ensures last { InOrder zone.now → IsLastUpTo policy (in_zone zone.now from)
        (in_zone zone.now to) result.0 (in_zone zone.now result.1) }
{
    let own = from.date();
    let mut date = to.date();
    while own < date {
        if let Some(there) = up_to(from, to, date, zone, policy) {
            return (date, there);
        }
        date = day_before(date);
    }
    (own, from)
}

/// Moves a date-time to a date, or returns `None` if it is after another one there.
fn up_to(
    from: OffsetDateTime,
    to: OffsetDateTime,
    date: Date,
    zone: &UncheckedZone<'_>,
    policy: Policy,
) -> Option<OffsetDateTime>
    ensures moved { InOrder zone.now → IfSome result (λ r.
        IsMovedTo policy (in_zone zone.now from) date (Ok (in_zone zone.now r))) }
    ensures in_time { IfSome result (λ r. instant r ≤ℤ instant to) }
    ensures none { InOrder zone.now → IfNone result
        (¬ IsUpTo policy (in_zone zone.now from) (in_zone zone.now to) date) }
{
    match moved_to(from, date, zone, policy) {
        Ok(there) => { if there <= to { Some(there) } else { None } }
        Err(_) => None,
    }
}

/// Returns the previous day.
fn day_before(date: Date) -> Date
    requires { 0 < date }
    ensures value { result + 1 ≡ date }
    ensures range { IsDate result }
{
    match date.previous_day() {
        Some(date) => date,
        None => unreachable!(),
    }
}

/// Moves a date-time to the first day on the way back to an earlier one on which it isn't before
/// it. Returns the day too.
fn last_back_to(
    from: OffsetDateTime,
    to: OffsetDateTime,
    zone: &UncheckedZone<'_>,
    policy: Policy,
) -> (Date, OffsetDateTime)
    requires { instant to <ℤ instant from }
    ensures date { IsDate result.0 × (result.0 ≤ date_at from.local) }
    ensures in_time { instant to ≤ℤ instant result.1 }
    ensures last { InOrder zone.now → IsLastBackTo policy (in_zone zone.now from)
        (in_zone zone.now to) result.0 (in_zone zone.now result.1) }
{
    let own = from.date();
    let mut date = to.date();
    while date < own {
        if let Some(there) = back_to(from, to, date, zone, policy) {
            return (date, there);
        }
        date = day_after(date);
    }
    (own, from)
}

/// Moves a date-time to a date, or returns `None` if it is before another one there.
fn back_to(
    from: OffsetDateTime,
    to: OffsetDateTime,
    date: Date,
    zone: &UncheckedZone<'_>,
    policy: Policy,
) -> Option<OffsetDateTime>
    ensures moved { InOrder zone.now → IfSome result (λ r.
        IsMovedTo policy (in_zone zone.now from) date (Ok (in_zone zone.now r))) }
    ensures in_time { IfSome result (λ r. instant to ≤ℤ instant r) }
    ensures none { InOrder zone.now → IfNone result
        (¬ IsBackTo policy (in_zone zone.now from) (in_zone zone.now to) date) }
{
    match moved_to(from, date, zone, policy) {
        Ok(there) => { if to <= there { Some(there) } else { None } }
        Err(_) => None,
    }
}

/// Returns the next day.
fn day_after(date: Date) -> Date
    requires { date < dates.last_day }
    ensures value { result ≡ date + 1 }
    ensures range { IsDate result }
{
    match date.next_day() {
        Some(date) => date,
        None => unreachable!(),
    }
}
