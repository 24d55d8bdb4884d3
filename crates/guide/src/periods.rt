//! Invoices and bookings by periods, and date-times in a zone.
ghost use Rattle.std.specs.Prelude.{◌≡◌, ℕ, ◌-◌, ◌≤◌, ◌*ℤ◌, pos, Ok, IfOk, IfSome, SomeIff};
ghost use Rattle.cal_time.specs.Date.{year_at, month_at, HasCalendarDate};
ghost use Rattle.cal_time.specs.Lengths.{days_in_month};
ghost use Rattle.cal_datetime.specs.DateTime.{date_at};
ghost use Rattle.cal_schedule.specs.Period.{days_of, months_of, parts, IsDaysLater};
ghost use Rattle.cal_schedule.specs.Steps.{IsGreatestStep};
ghost use Rattle.cal_schedule.specs.declared.unit.CalendarUnit.TheVariants as unit;
ghost use Rattle.cal_zone.specs.declared.policy.Policy.TheVariants.{Compatible};
ghost use Rattle.cal_zoned.specs.Day.{IsDayLength};
ghost use Rattle.cal_zoned.specs.Moves.{end_before, IsMovedTo, IsNextStart};
ghost use Rattle.cal_zoned.specs.Period.{IsPeriodLater};
ghost use Rattle.cal_zoned.specs.Zoned.{InZone};

use crate::zones::european;
use cal_datetime::{PlainDateTime, with_hms_nano};
use cal_schedule::laws::until_adds;
use cal_schedule::{
    CalendarUnit, DateRange, Period, PeriodError, last_of_month, nth_date, nth_period,
    period_until_by, step_of,
};
use cal_time::{Date, Month, SignedDuration};
use cal_zone::{LocalTimeError, Policy, Zone};
use cal_zoned::ZonedDateTime;
use std::io;

/// Returns the due date of the n-th invoice, counted from the first due date: monthly ones from
/// 31 January stay at the end of the month. Returns `None` if it is out of range, or if the period
/// has a duration.
fn due_date(first: Date, every: Period, n: i32) -> Option<Date>
    ensures { IfSome result (IsDaysLater first (n *ℤ months_of every) (n *ℤ days_of every)) }
{
    match nth_period(first, every, n) {
        Ok(date) => Some(date),
        Err(_) => None,
    }
}

/// Returns the number of the last invoice that is due up to a date, from 0 for the first one.
/// Returns `None` if the date is before the first due date, or if the period isn't positive or has
/// a duration.
fn invoice_at(first: Date, every: Period, date: Date) -> Option<i32>
    ensures { IfSome result (IsGreatestStep first date every) }
{
    step_of(first, every, date)
}

/// Returns the last due date up to a date, or `None` as [`invoice_at`] does.
fn last_due(first: Date, every: Period, date: Date) -> Option<Date>
    ensures { IfSome result (λ due. due ≤ date) }
{
    match step_of(first, every, date) {
        Some(n) => match nth_date(first, every, n) {
            Some(due) => Some(due),
            None => None,
        },
        None => None,
    }
}

/// Adds the months and days between two dates to the first one, which gives the second one.
fn and_back(from: Date, to: Date) -> Result<Date, PeriodError>
    ensures { result ≡ Ok to }
{
    until_adds(from, to, CalendarUnit::Month)
}

/// Returns the period from one date to another in weeks and days.
fn weeks_between(from: Date, to: Date) -> Period
    ensures { IsDaysLater from (months_of result) (days_of result) to }
{
    period_until_by(from, to, CalendarUnit::Week)
}

/// Returns the number of nights of a stay, or `None` if the guest leaves before they arrive.
fn nights(arrival: Date, departure: Date) -> Option<u32>
    ensures { SomeIff result (arrival ≤ departure) (departure - arrival) }
{
    let stay = DateRange::new(arrival, departure)?;
    Some(stay.len())
}

/// Returns the date-time a day later, at the same time of day unless the clocks skip it.
fn tomorrow<'z>(moment: &ZonedDateTime<'z>) -> Result<ZonedDateTime<'z>, LocalTimeError>
    ensures { IsPeriodLater Compatible moment.now (parts (pos 0) (pos 0) (pos 0) (pos 1) (pos 0))
        result }
{
    moment.checked_add_period(Period::from_days(1), Policy::Compatible)
}

/// Returns the date-time at which the clocks of a zone show a reading, or an error if they skip it
/// or show it twice.
fn exactly<'z>(
    reading: PlainDateTime,
    zone: &'z Zone<'z>,
) -> Result<ZonedDateTime<'z>, LocalTimeError>
    ensures { IfOk result (λ moment. moment.moment.local ≡ reading) }
{
    ZonedDateTime::from_local(reading, zone, Policy::Reject)
}

/// Returns the start of a day and the length of the day, which may have 23 or 25 hours.
fn day<'z>(moment: &ZonedDateTime<'z>) -> Option<(ZonedDateTime<'z>, SignedDuration)>
    ensures date { IfSome result (λ day.
        date_at day.0.moment.local ≡ date_at moment.now.moment.local) }
    ensures length { IfSome result (λ day.
        IsDayLength moment.now.zone (date_at moment.now.moment.local) day.1) }
{
    let start = moment.start_of_day()?;
    let length = moment.day_length()?;
    Some((start, length))
}

/// Moves a date-time to the last day of its month, at the same time of day unless the clocks skip
/// it.
fn on_last_day<'z>(moment: &ZonedDateTime<'z>) -> Result<ZonedDateTime<'z>, LocalTimeError>
    ensures { let n = date_at moment.now.moment.local in (end : ℕ)
        × HasCalendarDate (year_at n) (month_at n) (days_in_month (year_at n) (month_at n)) end
        × IsMovedTo Compatible moment.now end result }
{
    moment.moved_to(last_of_month(moment.date()), Policy::Compatible)
}

/// Returns the last nanosecond of the month, or `None` if it is out of range.
fn deadline<'z>(moment: &ZonedDateTime<'z>) -> Option<ZonedDateTime<'z>>
    ensures { IfSome result (λ end. (next : InZone) × IsNextStart unit.Month moment.now next
        × (end ≡ end_before next)) }
{
    moment.end_of(CalendarUnit::Month)
}

/// Prints what follows from two due dates.
fn show_dates(rt: &impl Print, first: Date, last: Date) -> io::Result<()> {
    let month = Period::from_months(1);
    println!(rt;
        "{:?} {:?}",
        due_date(first, month, 1),
        due_date(first, month, 2)
    )?;
    println!(rt;
        "{:?} {:?}",
        last_due(first, month, last),
        and_back(first, last)
    )?;
    let stay = weeks_between(first, last);
    println!(rt;
        "{:?} {} {} {:?}",
        invoice_at(first, month, last),
        stay.weeks(),
        stay.days(),
        nights(first, last)
    )
}

pub fn show(rt: &impl Print) -> io::Result<()> {
    let Ok(first) = Date::from_calendar_date(2024, Month::January, 31) else {
        return Ok(());
    };
    let Ok(last) = Date::from_calendar_date(2024, Month::March, 30) else {
        return Ok(());
    };
    show_dates(rt, first, last)?;
    let (Some(berlin), Ok(reading)) = (european(3_600), with_hms_nano(last, 2, 30, 0, 0)) else {
        return Ok(());
    };
    let Ok(moment) = exactly(reading, &berlin) else {
        return Ok(());
    };
    for next in [tomorrow(&moment), on_last_day(&moment)] {
        if let Ok(next) = next {
            println!(rt; "{}", next.to_offset_date_time())?;
        }
    }
    if let Ok(next) = tomorrow(&moment)
        && let Some((start, length)) = day(&next)
    {
        println!(rt; "{} {length}", start.to_offset_date_time())?;
    }
    if let Some(end) = deadline(&moment) {
        println!(rt; "{}", end.to_offset_date_time())?;
    }
    Ok(())
}
