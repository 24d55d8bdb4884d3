//! Laws of several calls: of months here, and of rules and working days in their own modules.
ghost use Rattle.std.specs.Prelude.{◌≡◌, ◌<◌, ◌≤◌, ℕ, Ok, Result, pos, ◌+ℤ◌, Some, IfSome, IsSomeAnd};
ghost use Rattle.cal_time.specs.Date.{day_of_month_at};
ghost use Rattle.cal_schedule.specs.Months.{month_number_at};
ghost use Rattle.cal_schedule.specs.Period.{days_of, months_of, IsDateAfter};
ghost use Rattle.cal_schedule.specs.declared.period_error.PeriodError.{PeriodError};

use crate::{
    CalendarUnit, Period, PeriodError, checked_add_months, checked_add_period, months_until,
    period_until_by,
};
use cal_time::Date;

pub mod rules;
pub mod workdays;

/// Adds no months, which gives the same date.
pub fn no_months(date: Date) -> Option<Date>
    ensures { result ≡ Some date }
{
    checked_add_months(date, 0)
}

/// Adds a month. A result is in the next month.
pub fn next_month(date: Date) -> Option<Date>
    ensures { IfSome result (λ later. month_number_at later ≡ month_number_at date +ℤ pos 1) }
{
    checked_add_months(date, 1)
}

/// Adds the same months to two dates. If both results exist, they keep their order.
pub fn in_order(one: Date, other: Date, months: i32) -> Option<(Date, Date)>
    requires { one ≤ other }
    ensures { IfSome result (λ later. later.0 ≤ later.1) }
{
    let first = checked_add_months(one, months)?;
    let second = checked_add_months(other, months)?;
    Some((first, second))
}

/// Adds the months until a date, which gives a date that is not after it.
pub fn not_past(from: Date, to: Date) -> Option<Date>
    requires { from ≤ to }
    ensures { IsSomeAnd result (λ later. later ≤ to) }
{
    checked_add_months(from, months_until(from, to))
}

/// Adds one month more than the months until a date. A result is later than this date.
pub fn one_more(from: Date, to: Date) -> Option<Date>
    requires { from ≤ to }
    ensures { IfSome result (λ later. to < later) }
{
    let months = months_until(from, to).checked_add(1)?;
    checked_add_months(from, months)
}

/// Adds months and subtracts them again. The day of the month must be 28 or less. A result is the
/// same date.
pub fn months_round_trip(date: Date, months: i32) -> Option<Date>
    requires { day_of_month_at date ≤ 28 }
    ensures { IfSome result (λ back. back ≡ date) }
{
    let there = checked_add_months(date, months)?;
    let negative = months.checked_neg()?;
    let back = checked_add_months(there, negative)?;
    Some(back)
}

/// Adds the period until a date, by any unit, which gives the date.
pub fn until_adds(from: Date, to: Date, unit: CalendarUnit) -> Result<Date, PeriodError>
    ensures { result ≡ Ok to }
{
    // It states that the date is in range.
    let _ = to.to_julian_day();
    checked_add_period(from, period_until_by(from, to, unit))
}

/// Proves that a period leads from a date to one result.
pub fn one_date_after(date: Date, period: Period)
    ensures { (a b : Result ℕ PeriodError)
        → IsDateAfter date (months_of period) (days_of period) period.exact a
        → IsDateAfter date (months_of period) (days_of period) period.exact b → a ≡ b }
{
    let _ = (date, period);
}
