//! Laws: each definition leaves one result.
ghost use Rattle.std.specs.Prelude.{◌≡◌, ℕ, ℤ, Option, Some, Result, Ok, IfSome};
ghost use Rattle.cal_schedule.specs.declared.unit.CalendarUnit.{CalendarUnit};
ghost use Rattle.cal_zone.specs.declared.local_time_error.LocalTimeError.{LocalTimeError};
ghost use Rattle.cal_zone.specs.declared.policy.Policy.{Policy};
ghost use Rattle.cal_zoned.specs.Day.{IsStart};
ghost use Rattle.cal_zoned.specs.Moves.{IsMovedTo, IsNextStart, IsStartOf};
ghost use Rattle.cal_zoned.specs.Period.{IsNthPeriodLater, IsPeriodLater};
ghost use Rattle.cal_zoned.specs.Steps.{series, zoned_series, IsLastStep, Series, YieldsResult, YieldsStep, ZonedSeries};
ghost use Rattle.cal_zoned.specs.Until.{IsPeriodUntil, IsUntilInZone};
ghost use Rattle.cal_schedule.specs.Period.{Parts};
ghost use Rattle.cal_zoned.specs.Resolved.{IsKept, IsResolved};
ghost use Rattle.cal_zoned.specs.Zoned.{at_instant, instant_in, InZone};

use crate::steps::{END, step};
use crate::{ZonedDateTime, checked_add_period, period_until};
use cal_datetime::PlainDateTime;
use cal_schedule::{CalendarUnit, Period, date_after, nth_date};
use cal_zone::laws::one_local;
use cal_zone::{LocalTimeError, Policy, Zone};

/// Proves that a local date-time means one result by a policy.
pub fn one_resolved(zone: &Zone<'_>)
    ensures { (p : Policy) (reading : ℤ) (a b : Result InZone LocalTimeError)
        → IsResolved p zone.now reading a → IsResolved p zone.now reading b → a ≡ b }
{
    one_local(zone);
}

/// Proves that a day has one start.
pub fn one_start(zone: &Zone<'_>)
    ensures { (reading : ℤ) (a b : Option InZone)
        → IsStart zone.now reading a → IsStart zone.now reading b → a ≡ b }
{
    one_local(zone);
}

/// Proves that another reading means one result.
pub fn one_kept(moment: &ZonedDateTime<'_>)
    ensures { (p : Policy) (reading : ℤ) (a b : Result InZone LocalTimeError)
        → IsKept p moment.now reading a → IsKept p moment.now reading b → a ≡ b }
{
    one_local(moment.zone());
}

/// Proves that a period leads to one result.
pub fn one_period_later(moment: &ZonedDateTime<'_>, period: Period)
    ensures { (p : Policy) (a b : Result InZone LocalTimeError)
        → IsPeriodLater p moment.now period a → IsPeriodLater p moment.now period b → a ≡ b }
{
    one_local(moment.zone());
    let _ = date_after(moment.date(), period);
}

/// Proves that moving to a date leads to one result.
pub fn one_moved(moment: &ZonedDateTime<'_>)
    ensures { (p : Policy) (n : ℕ) (a b : Result InZone LocalTimeError)
        → IsMovedTo p moment.now n a → IsMovedTo p moment.now n b → a ≡ b }
{
    one_local(moment.zone());
}

/// Proves that a unit has one start.
pub fn one_start_of(moment: &ZonedDateTime<'_>)
    ensures { (unit : CalendarUnit) (a b : Option InZone)
        → IsStartOf unit moment.now a → IsStartOf unit moment.now b → a ≡ b }
{
    let _ = moment;
}

/// Proves that a unit has one next start, and so one end.
pub fn one_next_start(moment: &ZonedDateTime<'_>)
    ensures { (unit : CalendarUnit) (s t : InZone)
        → IsNextStart unit moment.now s → IsNextStart unit moment.now t → s ≡ t }
{
    let _ = moment;
}

/// Proves that the period between two local date-times is the only one that its definition allows.
pub fn one_period_until(from: PlainDateTime, to: PlainDateTime)
    ensures { (unit : CalendarUnit) (p q : Parts)
        → IsPeriodUntil unit from to p → IsPeriodUntil unit from to q → p ≡ q }
{
    let _ = (from, to);
}

/// Adds the period until a local date-time, which gives it.
pub fn until_adds(
    from: PlainDateTime,
    to: PlainDateTime,
    unit: CalendarUnit,
) -> Option<PlainDateTime>
    ensures { result ≡ Some to }
{
    // It states that the date-time is in range.
    let _ = to.date();
    checked_add_period(from, period_until(from, to, unit))
}

/// Proves that a period, `n` times, leads to one result.
pub fn one_nth_period_later(moment: &ZonedDateTime<'_>, period: Period, n: i32)
    ensures { (p : Policy) (a b : Result InZone LocalTimeError)
        → IsNthPeriodLater p moment.now period n a → IsNthPeriodLater p moment.now period n b
        → a ≡ b }
{
    one_local(moment.zone());
    let _ = nth_date(moment.date(), period, n);
}

/// Proves that a local date-time is in one step.
pub fn one_last_step(start: PlainDateTime, period: Period, reading: PlainDateTime)
    ensures { (m n : ℤ) → IsLastStep start reading period m → IsLastStep start reading period n
        → m ≡ n }
{
    let _ = (start, period, reading);
}

/// Proves that an iterator over steps has one next item.
pub fn one_next_step(start: PlainDateTime, period: Period, next: u32)
    ensures { (a b : Option ℤ) (s t : Series)
        → YieldsStep (series start period next) a s → YieldsStep (series start period next) b t
        → (a ≡ b) × (s ≡ t) }
{
    if next < END {
        let _ = step(start, period, next);
    }
}

/// Proves that an iterator over steps in a zone has one next item.
pub fn one_next_result(start: &ZonedDateTime<'_>, period: Period, policy: Policy, next: u32)
    ensures { (a b : Option (Result InZone LocalTimeError)) (s t : ZonedSeries)
        → YieldsResult (zoned_series start.now period policy next) a s
        → YieldsResult (zoned_series start.now period policy next) b t
        → (a ≡ b) × (s ≡ t) }
{
    if next < END {
        one_nth_period_later(start, period, next as i32);
    }
}

/// Proves that the period between two date-times in a zone is the only one that its definition
/// allows.
pub fn one_until_in_zone(from: &ZonedDateTime<'_>)
    ensures { (p : Policy) (unit : CalendarUnit) (t : InZone) (x y : Parts)
        → IsUntilInZone p unit from.now t x → IsUntilInZone p unit from.now t y → x ≡ y }
{
    one_local(from.zone());
}

/// Adds the period until another date-time by the same policy, which gives its instant.
pub fn until_adds_in_zone<'z>(
    from: &ZonedDateTime<'z>,
    to: &ZonedDateTime<'_>,
    unit: CalendarUnit,
    policy: Policy,
) -> Option<Result<ZonedDateTime<'z>, LocalTimeError>>
    ensures { IfSome result (λ there.
        there ≡ Ok (at_instant from.now.zone (instant_in to.now))) }
{
    one_local(from.zone());
    let period = from.period_until(to, unit, policy)?;
    Some(from.checked_add_period(period, policy))
}
