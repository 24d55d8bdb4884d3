//! Dates and moments a period later, and the period between two.
ghost use Rattle.std.specs.Prelude.{◌≡◌, ◌==◌, ℤ, None, Some, IfSome, MatchOption, Ok};
ghost use Rattle.cal_datetime.specs.OffsetDateTime.{LocalAndOffset};
ghost use Rattle.cal_schedule.specs.Period.{Parts};
ghost use Rattle.cal_time.specs.SignedDuration.{day};
ghost use Rattle.cal_zoned.specs.Zoned.{InZone};
ghost use Rattle.caldate_answers.specs.Moves.{IsNearest};
ghost use Rattle.caldate_answers.specs.Periods.{IsAfter, IsDayAfter, IsInZone, IsMomentAfter, IsPeriodBetween, IsPeriodOn};

use crate::request::Clock;
use cal_datetime::OffsetDateTime;
use cal_rounding::{RoundingMode, RoundingUnit, round_offset_date_time};
use cal_schedule::{CalendarUnit, Period, checked_add_period};
use cal_text::DateOrMoment;
use cal_time::{Date, Time};
use cal_zone::Zone;
use cal_zoned::{ZonedDateTime, period_until, start_of_day};

/// Adds a period to a date or a moment. Returns `None` if the result is out of range, or for a date
/// if the period has an exact part.
pub fn after(found: &DateOrMoment, period: Period) -> Option<OffsetDateTime>
    ensures { MatchOption result ((m : LocalAndOffset) → ¬ IsAfter found.now period m)
        (IsAfter found.now period) }
{
    match found {
        DateOrMoment::Date(_, date) => day_after(*date, period),
        DateOrMoment::Moment(_, moment) => moment_after(*moment, period),
    }
}

/// Returns midnight UTC on the day that is a period without an exact part later.
fn day_after(date: Date, period: Period) -> Option<OffsetDateTime>
    ensures { MatchOption result ((m : LocalAndOffset) → ¬ IsDayAfter date period m)
        (IsDayAfter date period) }
{
    match checked_add_period(date, period) {
        Ok(day) => Some(OffsetDateTime::new_utc(day, Time::MIDNIGHT)),
        Err(_) => None,
    }
}

fn moment_after(moment: OffsetDateTime, period: Period) -> Option<OffsetDateTime>
    ensures { MatchOption result ((m : LocalAndOffset) → ¬ IsMomentAfter moment period m)
        (IsMomentAfter moment period) }
{
    match cal_zoned::checked_add_period(moment.local(), period) {
        Some(local) => Some(local.assume_offset(moment.offset())),
        None => None,
    }
}

/// Rounds the local time of a moment to the nearest multiple of a unit, and up between two. Returns
/// `None` if the result is out of range.
pub fn nearest(moment: OffsetDateTime, unit: RoundingUnit) -> Option<OffsetDateTime>
    ensures { MatchOption result ((m : LocalAndOffset) → ¬ IsNearest unit moment m)
        (IsNearest unit moment) }
{
    // It states that the unit is positive.
    let _ = unit.length();
    round_offset_date_time(moment, unit, RoundingMode::HalfCeil)
}

/// Returns the period from one moment to another, both at the offset of the first, or `None` if the
/// other is out of range there.
pub fn period_between(from: OffsetDateTime, to: OffsetDateTime) -> Option<Period>
    ensures { MatchOption result ((p : Parts) → ¬ IsPeriodBetween from to p)
        (IsPeriodBetween from to) }
{
    match to.checked_to_offset(from.offset()) {
        Some(there) => Some(period_until(from.local(), there.local(), CalendarUnit::Year)),
        None => None,
    }
}

/// Returns the period between two dates or moments by the clocks of a zone, or `None` if what they
/// show is out of range.
pub fn period_on(clock: &Clock<'_>, from: &DateOrMoment, to: &DateOrMoment) -> Option<Period>
    ensures { MatchOption result ((p : Parts) → ¬ IsPeriodOn clock.now from.now to.now p)
        (IsPeriodOn clock.now from.now to.now) }
{
    let start = in_zone(&clock.zone, from)?;
    let end = in_zone(&clock.zone, to)?;
    start.period_until(&end, CalendarUnit::Year, clock.policy)
}

/// Returns what the clocks of a zone show, or `None` if it is out of range. A date is the first moment
/// of its day.
fn in_zone<'z>(zone: &'z Zone<'z>, found: &DateOrMoment) -> Option<ZonedDateTime<'z>>
    ensures every { (m : InZone) → IsInZone zone.now found.now m → result ≡ Some m }
    ensures has { IfSome result (IsInZone zone.now found.now) }
{
    match found {
        DateOrMoment::Date(_, date) => start_of_day(*date, zone),
        DateOrMoment::Moment(_, moment) => ZonedDateTime::from_offset_date_time(*moment, zone),
    }
}
