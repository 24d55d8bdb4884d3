//! Each contract that isn't a plain equation allows only one result: two calls return the same.
//!
//! A proof knows only the clauses, so a second result would leave the line of its call open.
ghost use Rattle.std.specs.Prelude.{◌≡◌};

use cal_schedule::{CalendarUnit, DayCount, Period, Rule, Workdays, YearFraction};
use cal_time::error::ComponentRange;
use cal_time::{Date, Month, Weekday};

/// The results of two calls.
pub(super) type Twice<T> = (T, T);

macro_rules! twice {
    ($call:expr) => {
        ($call, $call)
    };
}

fn checked_add_months(date: Date, months: i32) -> Twice<Option<Date>>
    ensures { result.0 ≡ result.1 }
{
    twice!(cal_schedule::checked_add_months(date, months))
}

fn saturating_add_months(date: Date, months: i32) -> Twice<Date>
    ensures { result.0 ≡ result.1 }
{
    twice!(cal_schedule::saturating_add_months(date, months))
}

fn checked_add_years(date: Date, years: i32) -> Twice<Option<Date>>
    ensures { result.0 ≡ result.1 }
{
    twice!(cal_schedule::checked_add_years(date, years))
}

fn months_until(from: Date, to: Date) -> Twice<i32>
    ensures { result.0 ≡ result.1 }
{
    twice!(cal_schedule::months_until(from, to))
}

fn years_until(from: Date, to: Date) -> Twice<i32>
    ensures { result.0 ≡ result.1 }
{
    twice!(cal_schedule::years_until(from, to))
}

fn period_until(from: Date, to: Date) -> Twice<Period>
    ensures { result.0 ≡ result.1 }
{
    twice!(cal_schedule::period_until(from, to))
}

fn period_until_by(from: Date, to: Date, unit: CalendarUnit) -> Twice<Period>
    ensures { result.0 ≡ result.1 }
{
    twice!(cal_schedule::period_until_by(from, to, unit))
}

fn step_of(start: Date, period: Period, date: Date) -> Twice<Option<i32>>
    ensures { result.0 ≡ result.1 }
{
    twice!(cal_schedule::step_of(start, period, date))
}

fn first_of(date: Date, unit: CalendarUnit) -> Twice<Date>
    ensures { result.0 ≡ result.1 }
{
    twice!(cal_schedule::first_of(date, unit))
}

fn last_of(date: Date, unit: CalendarUnit) -> Twice<Option<Date>>
    ensures { result.0 ≡ result.1 }
{
    twice!(cal_schedule::last_of(date, unit))
}

fn first_of_quarter(date: Date) -> Twice<Date>
    ensures { result.0 ≡ result.1 }
{
    twice!(cal_schedule::first_of_quarter(date))
}

fn last_of_quarter(date: Date) -> Twice<Date>
    ensures { result.0 ≡ result.1 }
{
    twice!(cal_schedule::last_of_quarter(date))
}

fn first_of_year(date: Date) -> Twice<Date>
    ensures { result.0 ≡ result.1 }
{
    twice!(cal_schedule::first_of_year(date))
}

fn last_of_year(date: Date) -> Twice<Date>
    ensures { result.0 ≡ result.1 }
{
    twice!(cal_schedule::last_of_year(date))
}

fn last_of_iso_week(date: Date) -> Twice<Option<Date>>
    ensures { result.0 ≡ result.1 }
{
    twice!(cal_schedule::last_of_iso_week(date))
}

fn nth_weekday_of_month(
    year: i32,
    month: Month,
    weekday: Weekday,
    n: u8,
) -> Twice<Result<Date, ComponentRange>>
    ensures { result.0 ≡ result.1 }
{
    twice!(cal_schedule::nth_weekday_of_month(year, month, weekday, n))
}

fn last_weekday_of_month(
    year: i32,
    month: Month,
    weekday: Weekday,
) -> Twice<Result<Date, ComponentRange>>
    ensures { result.0 ≡ result.1 }
{
    twice!(cal_schedule::last_weekday_of_month(year, month, weekday))
}

fn day_count(from: Date, to: Date, convention: DayCount) -> Twice<YearFraction>
    ensures { result.0 ≡ result.1 }
{
    twice!(cal_schedule::day_count(from, to, convention))
}

fn ranks(rule: &Rule, date: Date) -> Twice<(u32, u32)>
    ensures { result.0 ≡ result.1 }
{
    twice!(rule.ranks(date))
}

fn workdays<'a>(marks: [bool; 7], holidays: &'a [Date]) -> Twice<Option<Workdays<'a>>>
    ensures { result.0 ≡ result.1 }
{
    twice!(Workdays::new(marks, holidays))
}
