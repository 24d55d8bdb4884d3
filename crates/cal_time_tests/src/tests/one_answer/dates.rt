//! Dates from components, the components of dates, and dates with one component replaced.
ghost use Rattle.std.specs.Prelude.{◌≡◌, ℕ, ◌<◌, ◌≤◌};
ghost use Rattle.cal_date.specs.ClosedForms.{HasKernel};
ghost use Rattle.cal_date.specs.Date.{IsDate, IsYear};
ghost use Rattle.cal_date.specs.DateLimits.{months_in_range};

use crate::tests::one_answer::Twice;
use cal_date::JulianKernel;
use cal_time::error::ComponentRange;
use cal_time::{Date, Month, Weekday};

fn from_ordinal_date(year: i32, ordinal: u16) -> Twice<Result<Date, ComponentRange>>
    ensures { result.0 ≡ result.1 }
{
    twice!(Date::from_ordinal_date(year, ordinal))
}

fn from_calendar_date(year: i32, month: Month, day: u8) -> Twice<Result<Date, ComponentRange>>
    ensures { result.0 ≡ result.1 }
{
    twice!(Date::from_calendar_date(year, month, day))
}

fn from_month_index_clamped(year: i32, index: u8, day: u8) -> Twice<Date>
    requires year { IsYear year }
    requires index { index < 12 }
    requires day { 1 ≤ day }
    ensures { result.0 ≡ result.1 }
{
    twice!(Date::from_month_index_clamped(year, index, day))
}

fn from_month_number_clamped(number: u32, day: u32) -> Twice<Date>
    requires number { number < months_in_range }
    requires day { 1 ≤ day }
    ensures { result.0 ≡ result.1 }
{
    twice!(Date::from_month_number_clamped(number, day))
}

fn from_iso_week_date(year: i32, week: u8, weekday: Weekday) -> Twice<Result<Date, ComponentRange>>
    ensures { result.0 ≡ result.1 }
{
    twice!(Date::from_iso_week_date(year, week, weekday))
}

fn from_julian_day(julian_day: i32) -> Twice<Result<Date, ComponentRange>>
    ensures { result.0 ≡ result.1 }
{
    twice!(Date::from_julian_day(julian_day))
}

fn month(date: Date) -> Twice<Month>
    ensures { result.0 ≡ result.1 }
{
    twice!(date.month())
}

fn month_index_and_day(date: Date) -> Twice<(u8, u8)>
    ensures { result.0 ≡ result.1 }
{
    twice!(date.month_index_and_day())
}

fn month_number_and_day(date: Date) -> Twice<(u32, u32)>
    ensures { result.0 ≡ result.1 }
{
    twice!(date.month_number_and_day())
}

fn weekday(date: Date) -> Twice<Weekday>
    ensures { result.0 ≡ result.1 }
{
    twice!(date.weekday())
}

fn to_ordinal_date(date: Date) -> Twice<(i32, u16)>
    ensures { result.0 ≡ result.1 }
{
    twice!(date.to_ordinal_date())
}

fn to_calendar_date(date: Date) -> Twice<(i32, Month, u8)>
    ensures { result.0 ≡ result.1 }
{
    twice!(date.to_calendar_date())
}

fn to_iso_week_date(date: Date) -> Twice<(i32, u8, Weekday)>
    ensures { result.0 ≡ result.1 }
{
    twice!(date.to_iso_week_date())
}

fn replace_year(date: Date, year: i32) -> Twice<Result<Date, ComponentRange>>
    ensures { result.0 ≡ result.1 }
{
    twice!(date.replace_year(year))
}

fn replace_month(date: Date, month: Month) -> Twice<Result<Date, ComponentRange>>
    ensures { result.0 ≡ result.1 }
{
    twice!(date.replace_month(month))
}

fn replace_day(date: Date, day: u8) -> Twice<Result<Date, ComponentRange>>
    ensures { result.0 ≡ result.1 }
{
    twice!(date.replace_day(day))
}

fn replace_ordinal(date: Date, ordinal: u16) -> Twice<Result<Date, ComponentRange>>
    ensures { result.0 ≡ result.1 }
{
    twice!(date.replace_ordinal(ordinal))
}

fn date_of_kernel(kernel: JulianKernel) -> Twice<Date>
    requires { (n : ℕ) × IsDate n × HasKernel kernel n }
    ensures { result.0 ≡ result.1 }
{
    twice!(cal_date::date_of_kernel(kernel))
}
