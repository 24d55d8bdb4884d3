//! The whole units from one date or moment to another, by the clocks of a zone.
ghost use Rattle.std.specs.Prelude.{◌≡◌, ℤ, IfSome, MatchOption, Some};
ghost use Rattle.cal_datetime.specs.OffsetDateTime.{LocalAndOffset};
ghost use Rattle.caldate_answers.specs.ClockCounts.{IsClockCount, IsCountOn, IsReading, goes_by_clock};

use crate::answer::counts::count_between;
use crate::answer::moment_of;
use crate::request::TimeUnit;
use cal_datetime::OffsetDateTime;
use cal_schedule::Workdays;
use cal_text::DateOrMoment;
use cal_zone::Zone;
use cal_zoned::ZonedDateTime;

/// Returns the number of whole units from one date or moment to another, truncated toward zero. Days
/// and longer units go by what the clocks of a zone show, where a date is midnight. Returns `None`
/// if what they show is out of range.
///
/// In Berlin it is one day from 2024-03-30 12:00 +01:00:00 to 2024-03-31 12:00 +02:00:00.
pub fn count_on(
    zone: &Zone<'_>,
    workdays: &Workdays<'_>,
    unit: TimeUnit,
    from: &DateOrMoment,
    to: &DateOrMoment,
) -> Option<i64>
    ensures { MatchOption result
        ((z : ℤ) → ¬ IsCountOn zone.now workdays.now unit from.now to.now z)
        (IsCountOn zone.now workdays.now unit from.now to.now) }
{
    if goes_by_clock(unit) {
        clock_count(zone, workdays, unit, from, to)
    } else {
        Some(count_between(workdays, unit, moment_of(from), moment_of(to)))
    }
}

/// Returns whether a unit is counted by what clocks show.
fn goes_by_clock(unit: TimeUnit) -> bool
    ensures { result ≡ goes_by_clock unit }
{
    match unit {
        TimeUnit::Hours | TimeUnit::Minutes | TimeUnit::Seconds => false,
        _ => true,
    }
}

/// Returns the number of units between what the clocks show, or `None` if it is out of range.
fn clock_count(
    zone: &Zone<'_>,
    workdays: &Workdays<'_>,
    unit: TimeUnit,
    from: &DateOrMoment,
    to: &DateOrMoment,
) -> Option<i64>
    ensures { MatchOption result
        ((z : ℤ) → ¬ IsClockCount zone.now workdays.now unit from.now to.now z)
        (IsClockCount zone.now workdays.now unit from.now to.now) }
{
    let start = reading_of(zone, from)?;
    let end = reading_of(zone, to)?;
    Some(count_between(workdays, unit, start, end))
}

/// Returns what the clocks show, as a moment at UTC, or `None` if it is out of range.
fn reading_of(zone: &Zone<'_>, found: &DateOrMoment) -> Option<OffsetDateTime>
    ensures every { (m : LocalAndOffset) → IsReading zone.now found.now m → result ≡ Some m }
    ensures has { IfSome result (IsReading zone.now found.now) }
{
    match found {
        DateOrMoment::Date(_, _) => Some(moment_of(found)),
        DateOrMoment::Moment(_, moment) => {
            let there = ZonedDateTime::from_offset_date_time(*moment, zone)?;
            Some(there.local().assume_utc())
        }
    }
}
