//! Bills, ages, holidays and interest.
ghost use Rattle.std.specs.Prelude.{◌≡◌, ℕ, ◌≤◌, ◌≤ℤ◌, ◌+ℤ◌, ◌*ℤ◌, pos, IfOk, IfSome, IfNone, None, Ok, true, false, [], ◌∷◌};
ghost use Rattle.cal_time.specs.Counted.{IsRising};
ghost use Rattle.cal_time.specs.Date.{julian_day_at, year_at, month_at, HasCalendarDate, IsDate, IsYear};
ghost use Rattle.cal_time.specs.Lengths.{days_in_month};
ghost use Rattle.cal_schedule.specs.Months.{month_number_at, IsMonthNumber, IsMonthsLater};
ghost use Rattle.cal_schedule.specs.Until.{IsGreatest, IsMonthsUpTo};
ghost use Rattle.cal_schedule.specs.Weekdays.{IsNthWeekday};
ghost use Rattle.cal_schedule.specs.WorkdaysConvention.{adjusted_date};
ghost use Rattle.cal_schedule.specs.declared.workdays.convention.Convention.TheVariants.{ModifiedFollowing};

use cal_schedule::{
    Convention, DayCount, Workdays, checked_add_months, checked_add_years, day_count,
    last_of_month, nth_weekday_of_month, years_until,
};
use cal_time::error::ComponentRange;
use cal_time::{Date, Month, Weekday, is_rising};
use std::io;

/// Returns the last day of the next month, or `None` if that month is out of range.
fn end_of_next_month(date: Date) -> Option<Date>
    ensures found { IfSome result (λ end. (later : ℕ) × IsMonthsLater date (pos 1) later
        × HasCalendarDate (year_at later) (month_at later)
        (days_in_month (year_at later) (month_at later)) end) }
    ensures some { IfSome result (λ _. IsMonthNumber (month_number_at date +ℤ pos 1)) }
    ensures none { IfNone result (¬ IsMonthNumber (month_number_at date +ℤ pos 1)) }
{
    let later = checked_add_months(date, 1)?;
    Some(last_of_month(later))
}

/// Returns the day on which a bill is due: the last working day up to the end of the next month.
fn due(workdays: &Workdays<'_>, billed: Date) -> Option<Date>
    ensures value { IsMonthNumber (month_number_at billed +ℤ pos 1)
        → (later : ℕ) × IsMonthsLater billed (pos 1) later
        × (end : ℕ) × HasCalendarDate (year_at later) (month_at later)
        (days_in_month (year_at later) (month_at later)) end
        × (result ≡ adjusted_date workdays.now ModifiedFollowing end) }
    ensures none { ¬ IsMonthNumber (month_number_at billed +ℤ pos 1) → result ≡ None }
{
    let end = end_of_next_month(billed)?;
    workdays.adjust(end, Convention::ModifiedFollowing)
}

/// Returns the date a year later, or 28 February for the 29th. The resulting year must be in range.
fn year_after(date: Date) -> Date
    requires { IsYear (year_at date +ℤ pos 1) }
    ensures { IsMonthsLater date (pos 12) result }
{
    match checked_add_years(date, 1) {
        Some(later) => later,
        None => unreachable!(),
    }
}

/// Creates the working days from Monday to Friday. The holidays must be in ascending order.
fn office(holidays: &[Date]) -> Workdays<'_>
    requires { IsRising julian_day_at holidays.now }
    ensures { result ≡ record {
      marks = true ∷ true ∷ true ∷ true ∷ true ∷ false ∷ false ∷ [];
      holidays = holidays.now;
    } }
{
    let marks = [true, true, true, true, true, false, false];
    match Workdays::new(marks, holidays) {
        Some(workdays) => workdays,
        None => unreachable!(),
    }
}

/// Returns the age in years of someone who was born today or earlier.
fn age(born: Date, today: Date) -> i32
    requires { born ≤ today }
    ensures years { IsGreatest (λ years. IsMonthsUpTo born today (pos 12 *ℤ years)) result }
    ensures min { pos 0 ≤ℤ result }
{
    years_until(born, today)
}

/// Returns Thanksgiving in the United States, the fourth Thursday of November.
fn thanksgiving(year: i32) -> Result<Date, ComponentRange>
    ensures every { (k : ℕ) → IsDate k → IsNthWeekday year 11 3 4 k → result ≡ Ok k }
    ensures value { IfOk result (IsNthWeekday year 11 3 4) }
{
    nth_weekday_of_month(year, Month::November, Weekday::Thursday, 4)
}

/// Returns Labor Day in the United States, the first Monday of September. The year is in range.
fn labor_day(year: i32) -> Date
    requires { IsYear year }
    ensures { IsNthWeekday year 9 0 1 result }
{
    match nth_weekday_of_month(year, Month::September, Weekday::Monday, 1) {
        Ok(date) => date,
        Err(_) => unreachable!(),
    }
}

/// Prints days around a holiday.
fn show_workdays(rt: &impl Print, billed: Date, labor_day: Date) -> io::Result<()> {
    let holidays = [labor_day];
    if !is_rising(&holidays) {
        return Ok(());
    }
    let workdays = office(&holidays);
    let days = [
        due(&workdays, billed),
        workdays.checked_add_workdays(labor_day, 10),
    ];
    let between = workdays.workdays_between(billed, labor_day);
    println!(rt; "{days:?} {between} {:?}", thanksgiving(2024))
}

pub fn show(rt: &impl Print) -> io::Result<()> {
    let Ok(born) = Date::from_calendar_date(1980, Month::June, 1) else {
        return Ok(());
    };
    let Ok(billed) = Date::from_calendar_date(2024, Month::July, 31) else {
        return Ok(());
    };
    show_workdays(rt, billed, labor_day(2024))?;
    if born <= billed && billed.year() < 999_999 {
        println!(rt; "{} {}", age(born, billed), year_after(billed))?;
    }
    let interest = day_count(born, billed, DayCount::Thirty360);
    println!(rt; "{}/{}", interest.numerator, interest.denominator)
}
