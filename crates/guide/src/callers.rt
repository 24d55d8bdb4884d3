//! Functions that are proved from the clauses of the calls only.
ghost use Rattle.std.specs.Prelude.{◌≡◌, ℕ, ◌+◌, ◌-◌, ◌<◌, ◌≤◌, ◌+ℤ◌, ◌-ℤ◌, ◌≤ℤ◌, ◌==◌, ◌⊎◌, pos, IfSome, IfNone, IsNone, IsSome, ◌↔◌, Ok};
ghost use Rattle.cal_time.specs.Date.{last_day, year_at, month_at, day_of_month_at, ordinal_at, weekday_at, HasCalendarDate, IsYear, NoDate};
ghost use Rattle.cal_time.specs.Arithmetic.{IsDateNumber};
ghost use Rattle.cal_time.specs.IsoWeekDate.{HasIsoWeekDate};
ghost use Rattle.cal_time.specs.Lengths.{days_in_year, days_in_month};
ghost use Rattle.cal_time.specs.Month.{number};
ghost use Rattle.cal_time.specs.Weekday.{index};

use cal_time::error::ComponentRange;
use cal_time::util::{days_in_month, days_in_year, weeks_in_year};
use cal_time::{Date, Month, SignedDuration, Time, Weekday, add_to_pair};
use std::io;

/// Returns the age in years. For 29 February, the birthday in common years is 1 March.
fn age(born: Date, at: Date) -> i32
    requires { born ≤ at }
    ensures before { (month_at at < month_at born) ⊎ ((month_at at ≡ month_at born)
        × (day_of_month_at at < day_of_month_at born))
        → result ≡ year_at at -ℤ year_at born -ℤ pos 1 }
    ensures since { (month_at born < month_at at) ⊎ ((month_at at ≡ month_at born)
        × (day_of_month_at born ≤ day_of_month_at at))
        → result ≡ year_at at -ℤ year_at born }
    ensures min { pos 0 ≤ℤ result }
{
    let years = at.year() - born.year();
    if at.month() < born.month() || (at.month() == born.month() && at.day() < born.day()) {
        years - 1
    } else {
        years
    }
}

/// Converts a calendar date to its date and back. Returns `None` if no date has it.
fn calendar_date_through(year: i32, month: Month, day: u8) -> Option<(i32, Month, u8)>
    ensures value { IfSome result (λ same. same ≡ (year, month, day)) }
    ensures none { IsNone result ↔ NoDate (HasCalendarDate year (number month) day) }
{
    match Date::from_calendar_date(year, month, day) {
        Ok(date) => Some(date.to_calendar_date()),
        Err(_) => None,
    }
}

/// Converts a date to its week date and back.
fn through_iso_week_date(date: Date) -> Result<Date, ComponentRange>
    ensures { result ≡ Ok date }
{
    let (year, week, weekday) = date.to_iso_week_date();
    Date::from_iso_week_date(year, week, weekday)
}

/// Converts a week date to its date and back. Returns `None` if no date has it.
fn iso_week_date_through(year: i32, week: u8, weekday: Weekday) -> Option<(i32, u8, Weekday)>
    ensures value { IfSome result (λ same. same ≡ (year, week, weekday)) }
    ensures none { IsNone result ↔ NoDate (HasIsoWeekDate year week (index weekday)) }
{
    match Date::from_iso_week_date(year, week, weekday) {
        Ok(date) => Some(date.to_iso_week_date()),
        Err(_) => None,
    }
}

/// Counts the days left in the year after this one.
fn days_left(date: Date) -> u16
    ensures { result + ordinal_at date ≡ days_in_year (year_at date) }
{
    days_in_year(date.year()) - date.ordinal()
}

/// Returns the number of days left in the month after this one.
fn days_left_in_month(date: Date) -> u8
    ensures { result + day_of_month_at date ≡ days_in_month (year_at date) (month_at date) }
{
    date.month().length(date.year()) - date.day()
}

/// Returns the number of days since 1 January.
fn days_since_new_year(date: Date) -> u16
    ensures { result + 1 ≡ ordinal_at date }
{
    date.ordinal() - 1
}

/// Returns 1 if the year has a week 53, else 0.
fn extra_weeks(year: i32) -> u8 {
    weeks_in_year(year) - 52
}

/// Returns the number of weeks of the ISO year before the week of this day.
fn weeks_gone(date: Date) -> u8 {
    date.iso_week() - 1
}

/// Returns the last Friday of the month, or `None` if the year is out of range.
fn last_friday(year: i32, month: Month) -> Option<Date>
    ensures found { IfSome result (λ day. (weekday_at day ≡ 4) × (end : ℕ)
        × HasCalendarDate year (number month) (days_in_month year (number month)) end
        × (day ≤ end) × (end < day + 7)) }
    ensures none { IfNone result (¬ IsYear year) }
{
    let Ok(last) = Date::from_calendar_date(year, month, days_in_month(month, year)) else {
        return None;
    };
    if last.weekday() == Weekday::Friday {
        Some(last)
    } else {
        last.checked_prev_occurrence(Weekday::Friday)
    }
}

/// Adds a duration and subtracts it again, which gives the same date.
fn round_trip_by(date: Date, duration: SignedDuration) -> Option<Date>
    ensures { IfSome result (λ same. same ≡ date) }
{
    let there = date.checked_add(duration)?;
    let back = there.checked_sub(duration)?;
    Some(back)
}

/// Adds a duration of 0 to a date and a time. The result exists, because the parts are in range.
fn add_zero(date: Date, time: Time) -> Option<(Date, Time)>
    ensures { IsSome result }
{
    let _ = (date.year(), time.hour());
    add_to_pair(date, time, SignedDuration::ZERO)
}

/// Returns the date a week earlier, or `None` if it is out of range.
fn week_before(date: Date) -> Option<Date>
    ensures value { IfSome result (λ day. day + 7 ≡ date) }
    ensures none { IsNone result ↔ (date < 7) }
{
    date.checked_sub(SignedDuration::WEEK)
}

/// Returns the due date of a bill, 30 days later, and the ISO week of the due date.
fn due_in_30_days(date: Date) -> Option<(Date, u8)>
    ensures { IfSome result (λ due. due.0 ≡ date + 30) }
{
    let due = date.checked_add(SignedDuration::days(30))?;
    Some((due, due.iso_week()))
}

/// Returns the date some days later, or earlier if the number is negative, or `None` if it is out of
/// range.
fn days_later(date: Date, days: i32) -> Option<Date>
    ensures found { IfSome result (λ later. pos later ≡ pos date +ℤ days) }
    ensures none { IfNone result (¬ IsDateNumber (pos date +ℤ days)) }
{
    date.checked_add(SignedDuration::days(i64::from(days)))
}

/// Returns the next Thursday, at most a week later.
fn next_thursday(date: Date) -> Option<Date>
    ensures { IfSome result (λ day. (date < day) × (day ≤ date + 7) × (weekday_at day ≡ 3)) }
{
    date.checked_next_occurrence(Weekday::Thursday)
}

/// Adds days, up to the last day of the range. The result is not earlier.
fn not_before(date: Date, days: u32) -> Date
    ensures { date ≤ result }
{
    date.saturating_add(SignedDuration::days(i64::from(days)))
}

/// Replaces the year with the current year.
fn same_year(date: Date) -> Date
    ensures { result ≡ date }
{
    match date.replace_year(date.year()) {
        Ok(same) => same,
        Err(_) => unreachable!(),
    }
}

/// Returns `true` for the last day of the range.
fn is_last(date: Date) -> bool
    ensures { result ≡ (date == last_day) }
{
    date.next_day().is_none()
}

/// Counts the days from one date to another, both included, without Saturdays and Sundays.
fn working_days(from: Date, to: Date) -> u32
    ensures { result ≤ to + 1 - from }
{
    let mut count = 0u32;
    for date in from.iter_to(to) {
        if date.weekday() != Weekday::Saturday && date.weekday() != Weekday::Sunday {
            count += 1;
        }
    }
    count
}

/// Returns the occurrences around a date, which must be in range.
fn occurrences(date: Date) -> [Date; 4]
    requires before { 14 ≤ date }
    requires after { date + 14 ≤ last_day }
{
    [
        date.next_occurrence(Weekday::Monday),
        date.prev_occurrence(Weekday::Monday),
        date.nth_next_occurrence(Weekday::Monday, 2),
        date.nth_prev_occurrence(Weekday::Monday, 2),
    ]
}

/// Prints the occurrences around a date, if they are in range.
fn show_occurrences(rt: &impl Print, date: Date) -> io::Result<()> {
    if date.checked_add(SignedDuration::days(14)).is_some()
        && date.checked_sub(SignedDuration::days(14)).is_some()
    {
        println!(rt; "{:?}", occurrences(date))?;
    }
    Ok(())
}

/// Returns the days and weeks before a date and after it.
fn counted(date: Date) -> ([u16; 2], [u8; 3]) {
    let days = [days_left(date), days_since_new_year(date)];
    let weeks = [
        days_left_in_month(date),
        extra_weeks(2020),
        weeks_gone(date),
    ];
    (days, weeks)
}

/// Returns days near a date.
fn days_near(date: Date) -> [Option<Date>; 6] {
    [
        days_later(date, -30),
        last_friday(2024, Month::February),
        round_trip_by(date, SignedDuration::DAY),
        week_before(date),
        next_thursday(date),
        Some(not_before(date, 1)),
    ]
}

pub fn show(rt: &impl Print) -> io::Result<()> {
    let Ok(born) = Date::from_calendar_date(1984, Month::February, 29) else {
        return Ok(());
    };
    let Ok(day) = Date::from_calendar_date(2024, Month::February, 28) else {
        return Ok(());
    };
    if born <= day {
        println!(rt; "{}", age(born, day))?;
    }
    let same = (through_iso_week_date(day), same_year(day));
    println!(rt; "{same:?} {:?}", counted(day))?;
    let forms = (
        calendar_date_through(2000, Month::February, 29),
        iso_week_date_through(2020, 53, Weekday::Friday),
    );
    println!(rt; "{forms:?}")?;
    let pair = (add_zero(day, Time::MAX), due_in_30_days(day));
    println!(rt; "{:?} {pair:?}", days_near(day))?;
    show_occurrences(rt, day)?;
    println!(rt; "{} {}", is_last(day), working_days(born, day))
}
