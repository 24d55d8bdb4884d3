//! The period between two local date-times.
ghost use Rattle.std.specs.Prelude.{◌≤ℤ◌, ◌<ℤ◌};
ghost use Rattle.cal_zoned.specs.Period.{IsLater};
ghost use Rattle.cal_zoned.specs.Until.{IsLastWholeDay, IsPeriodUntil};

use cal_datetime::PlainDateTime;
use cal_schedule::{CalendarUnit, Period, period_until_by};
use cal_time::Date;

/// Returns the period from one local date-time to another, with `largest` as the largest unit of
/// its parts. It counts as many whole units of the calendar as fit, as
/// [`cal_schedule::period_until_by`] does, and then the exact rest, which is less than a day. Adding
/// it to `from` gives `to`.
///
/// From 2024-01-31 12:00 to 2024-03-01 11:00 it is a month and 23 hours by [`CalendarUnit::Month`],
/// because a month later is 29 February 12:00.
pub fn period_until(from: PlainDateTime, to: PlainDateTime, largest: CalendarUnit) -> Period
    ensures value { IsPeriodUntil largest from to result }
    ensures adds { IsLater from result to }
{
    let date = last_whole_day(from, to);
    let rest = to - from.replace_date(date);
    match period_until_by(from.date(), date, largest).with_duration(rest) {
        Some(period) => period,
        None => unreachable!(),
    }
}

/// Returns the last date on the way on which the time of day of `from` isn't past `to`.
fn last_whole_day(from: PlainDateTime, to: PlainDateTime) -> Date
    ensures { IsLastWholeDay from to result }
{
    if from <= to {
        whole_day_before(from, to)
    } else {
        whole_day_after(from, to)
    }
}

/// Returns the last date on which the time of day of `from` isn't after `to`.
fn whole_day_before(from: PlainDateTime, to: PlainDateTime) -> Date
    requires { from ≤ℤ to }
    ensures { IsLastWholeDay from to result }
{
    let _ = from.date();
    let date = to.date();
    if from.time() <= to.time() {
        return date;
    }
    match date.previous_day() {
        Some(date) => date,
        None => unreachable!(),
    }
}

/// Returns the first date on which the time of day of `from` isn't before `to`.
fn whole_day_after(from: PlainDateTime, to: PlainDateTime) -> Date
    requires { to <ℤ from }
    ensures { IsLastWholeDay from to result }
{
    let _ = from.date();
    let date = to.date();
    if to.time() <= from.time() {
        return date;
    }
    match date.next_day() {
        Some(date) => date,
        None => unreachable!(),
    }
}
