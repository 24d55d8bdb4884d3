//! Dates moved by periods.
ghost use Rattle.std.specs.Prelude.{◌≡◌, SomeIff, pos, ◌*ℤ◌};
ghost use Rattle.cal_schedule.specs.Period.{days_of, months_of};
ghost use Rattle.cal_c.specs.Periods.{parts_in, IsDateAfterResult, IsPeriod};
ghost use Rattle.cal_c.specs.Results.{date_error};
ghost use Rattle.cal_c.specs.Values.{need◌else◌then◌, IsJulianDay, day_of};

use crate::results::{DateResult, Duration};
use crate::status::{INVALID_DATE, INVALID_PERIOD, PERIOD_HAS_DURATION, RESULT_OUT_OF_RANGE};
use crate::values::{valid_date, valid_duration};
use cal_schedule::{Period, PeriodError, nth_period};
use cal_time::Date;

/// A period: years, months, weeks, days and a duration. No part is negative if another one is
/// positive.
#[repr(C)]
#[derive(Clone, Copy, Debug)]
pub struct PeriodParts {
    pub years: i32,
    pub months: i32,
    pub weeks: i32,
    pub days: i32,
    pub duration: Duration,
}

/// Returns the period of its parts, or `None` if they have two signs or an invalid duration.
pub fn valid_period(period: PeriodParts) -> Option<Period>
    ensures { SomeIff result (IsPeriod period) (parts_in period) }
{
    let duration = valid_duration(period.duration)?;
    Period::new(
        period.years,
        period.months,
        period.weeks,
        period.days,
        duration,
    )
}

/// Adds the years and the months of a period to a date at once, and then its weeks and days. The
/// day of the month stays, or becomes the last day of a shorter month. Fails if the period has a
/// duration, and if the resulting date is out of range. One month and one day after 2451575,
/// 2000-01-31, is 2451605, 2000-03-01.
#[unsafe(no_mangle)]
pub extern "C" fn fots_date_add_period(date: i32, period: PeriodParts) -> DateResult
    ensures { need IsJulianDay date else result ≡ date_error INVALID_DATE then
        need IsPeriod period else result ≡ date_error INVALID_PERIOD then
        IsDateAfterResult (day_of date) (pos 1) (parts_in period) result }
{
    fots_date_nth_period(date, period, 1)
}

/// Adds a period to a date `n` times at once: `n` times its months, and then `n` times its days. It
/// fails like `fots_date_add_period`. Steps of a month from 2451575, 2000-01-31, are 2451604,
/// 2000-02-29, and 2451635, 2000-03-31.
#[unsafe(no_mangle)]
pub extern "C" fn fots_date_nth_period(date: i32, period: PeriodParts, n: i32) -> DateResult
    ensures { need IsJulianDay date else result ≡ date_error INVALID_DATE then
        need IsPeriod period else result ≡ date_error INVALID_PERIOD then
        IsDateAfterResult (day_of date) n (parts_in period) result }
{
    let date = or_error!(DateResult, valid_date(date), INVALID_DATE);
    let period = or_error!(DateResult, valid_period(period), INVALID_PERIOD);
    date_after(date, period, n)
}

/// Returns the date some periods after a date.
fn date_after(date: Date, period: Period, n: i32) -> DateResult
    ensures { IsDateAfterResult date n period result }
{
    match nth_period(date, period, n) {
        Ok(date) => DateResult::ok(date),
        Err(PeriodError::HasDuration) => DateResult::error(PERIOD_HAS_DURATION),
        Err(PeriodError::OutOfRange) => DateResult::error(RESULT_OUT_OF_RANGE),
    }
}
