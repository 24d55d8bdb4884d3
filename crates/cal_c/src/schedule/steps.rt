//! The step that a date is in.
ghost use Rattle.std.specs.Prelude.{◌≡◌, ◌≤◌};
ghost use Rattle.cal_schedule.specs.Steps.{IsGreatestStep, IsRepeated};
ghost use Rattle.cal_c.specs.Periods.{parts_in, IsPeriod};
ghost use Rattle.cal_c.specs.Results.{number_error};
ghost use Rattle.cal_c.specs.Schedule.{IsNumberWith};
ghost use Rattle.cal_c.specs.Values.{need◌else◌then◌, IsJulianDay, day_of};

use crate::results::NumberResult;
use crate::schedule::periods::{PeriodParts, valid_period};
use crate::status::{INVALID_DATE, INVALID_PERIOD, RESULT_OUT_OF_RANGE};
use crate::values::valid_date;
use cal_schedule::{Period, step_of};
use cal_time::Date;

/// Returns the step that a date is in, if a period is repeated from a start: the greatest `n` for
/// which `fots_date_nth_period` isn't after the date. Fails if the date is before the start, and if
/// the period has a duration or isn't positive. In steps of a month from 2451575, 2000-01-31,
/// 2451604, 2000-02-29, is in step 1.
#[unsafe(no_mangle)]
pub extern "C" fn fots_date_step_of(start: i32, period: PeriodParts, date: i32) -> NumberResult
    ensures { need IsJulianDay start else result ≡ number_error INVALID_DATE then
        need IsPeriod period else result ≡ number_error INVALID_PERIOD then
        need IsJulianDay date else result ≡ number_error INVALID_DATE then
        need (day_of start ≤ day_of date) × IsRepeated (parts_in period)
        else result ≡ number_error RESULT_OUT_OF_RANGE then
        IsNumberWith (IsGreatestStep (day_of start) (day_of date) (parts_in period)) result }
{
    let start = or_error!(NumberResult, valid_date(start), INVALID_DATE);
    let period = or_error!(NumberResult, valid_period(period), INVALID_PERIOD);
    let date = or_error!(NumberResult, valid_date(date), INVALID_DATE);
    step_result(start, period, date)
}

/// Returns the result of the step that a date is in.
fn step_result(start: Date, period: Period, date: Date) -> NumberResult
    ensures { need (start ≤ date) × IsRepeated period
        else result ≡ number_error RESULT_OUT_OF_RANGE then
        IsNumberWith (IsGreatestStep start date period) result }
{
    let step = or_error!(
        NumberResult,
        step_of(start, period, date),
        RESULT_OUT_OF_RANGE
    );
    NumberResult::ok(step)
}
