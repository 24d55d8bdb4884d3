//! Periods after local date-times and between them, and the step that one is in.
ghost use Rattle.std.specs.Prelude.{◌≡◌, pos, ◌≤ℤ◌};
ghost use Rattle.cal_time.specs.Time.{IsTime};
ghost use Rattle.cal_datetime.specs.DateTime.{date_time};
ghost use Rattle.cal_zoned.specs.Steps.{IsLastStep, IsPositive};
ghost use Rattle.cal_zoned.specs.Until.{IsPeriodUntil};
ghost use Rattle.cal_c.specs.Periods.{exact_period_error, exact_period_ok, parts_in, IsExactPeriodWith, IsPairAfter, IsPeriod, IsPeriodUntilResult, IsStepOfPair};
ghost use Rattle.cal_c.specs.Results.{number_error, pair_error};
ghost use Rattle.cal_c.specs.Schedule.{IsNumberWith};
ghost use Rattle.cal_c.specs.Values.{need◌else◌then◌, IsJulianDay, day_of};

use crate::results::{Duration, NumberResult, PairResult};
use crate::schedule::periods::{PeriodParts, valid_period};
use crate::schedule::units::valid_unit;
use crate::status::{
    INVALID_DATE, INVALID_PERIOD, INVALID_TIME, INVALID_UNIT, OK, RESULT_OUT_OF_RANGE,
};
use crate::values::{valid_date, valid_time};
use cal_datetime::PlainDateTime;
use cal_schedule::{CalendarUnit, Period};
use cal_zoned::{nth_period, period_until, step_of};

/// A result with a period and its duration. After an error each part is the minimum.
#[repr(C)]
#[derive(Clone, Copy, Debug)]
pub struct ExactPeriodResult {
    pub status: i32,
    /// 0, in place of padding.
    pub unused: u32,
    pub period: PeriodParts,
}

impl ExactPeriodResult {
    pub fn ok(period: Period) -> Self
        ensures { result ≡ exact_period_ok period }
    {
        ExactPeriodResult {
            status: OK,
            unused: 0,
            period: PeriodParts {
                years: period.years(),
                months: period.months(),
                weeks: period.weeks(),
                days: period.days(),
                duration: Duration {
                    seconds: period.duration().whole_seconds(),
                    nanoseconds: period.duration().subsec_nanoseconds(),
                    unused: 0,
                },
            },
        }
    }

    pub fn error(status: i32) -> Self
        ensures { result ≡ exact_period_error status }
    {
        ExactPeriodResult {
            status,
            unused: 0,
            period: PeriodParts {
                years: i32::MIN,
                months: i32::MIN,
                weeks: i32::MIN,
                days: i32::MIN,
                duration: Duration {
                    seconds: i64::MIN,
                    nanoseconds: i32::MIN,
                    unused: 0,
                },
            },
        }
    }
}

/// Adds a period to a date and a time: its years, months, weeks and days to the date, and then its
/// duration. Fails if the result is out of range. One month and two hours after 2000-01-31 23:00 is
/// 2000-03-01 1:00.
#[unsafe(no_mangle)]
pub extern "C" fn fots_pair_add_period(date: i32, time: u64, period: PeriodParts) -> PairResult
    ensures { need IsJulianDay date else result ≡ pair_error INVALID_DATE then
        need IsTime time else result ≡ pair_error INVALID_TIME then
        need IsPeriod period else result ≡ pair_error INVALID_PERIOD then
        IsPairAfter (date_time (day_of date) time) (parts_in period) (pos 1) result }
{
    fots_pair_nth_period(date, time, period, 1)
}

/// Adds a period to a date and a time `n` times at once: `n` times its months, then `n` times its
/// days, and then `n` times its duration. Fails if the result is out of range. Steps of a month from
/// 2000-01-31 23:00 are 2000-02-29 23:00 and 2000-03-31 23:00.
#[unsafe(no_mangle)]
pub extern "C" fn fots_pair_nth_period(
    date: i32,
    time: u64,
    period: PeriodParts,
    n: i32,
) -> PairResult
    ensures { need IsJulianDay date else result ≡ pair_error INVALID_DATE then
        need IsTime time else result ≡ pair_error INVALID_TIME then
        need IsPeriod period else result ≡ pair_error INVALID_PERIOD then
        IsPairAfter (date_time (day_of date) time) (parts_in period) n result }
{
    let date = or_error!(PairResult, valid_date(date), INVALID_DATE);
    let time = or_error!(PairResult, valid_time(time), INVALID_TIME);
    let period = or_error!(PairResult, valid_period(period), INVALID_PERIOD);
    pair_after(PlainDateTime::new(date, time), period, n)
}

/// Returns the local date-time some periods after another one.
fn pair_after(local: PlainDateTime, period: Period, n: i32) -> PairResult
    ensures { IsPairAfter local period n result }
{
    let later = or_error!(
        PairResult,
        nth_period(local, period, n),
        RESULT_OUT_OF_RANGE
    );
    PairResult::from_option(Some((later.date(), later.time())))
}

/// Returns the step that a date and a time are in, if a period is repeated from a start: the greatest
/// `n` for which `fots_pair_nth_period` isn't after them. Fails if they are before the start, and if
/// the period isn't positive. In steps of a month from 2000-01-31 8:00, 2000-02-29 7:59 is in step
/// 0, and 8:00 in step 1.
#[unsafe(no_mangle)]
pub extern "C" fn fots_pair_step_of(
    start_date: i32,
    start_time: u64,
    period: PeriodParts,
    date: i32,
    time: u64,
) -> NumberResult
    ensures { need IsJulianDay start_date else result ≡ number_error INVALID_DATE then
        need IsTime start_time else result ≡ number_error INVALID_TIME then
        need IsPeriod period else result ≡ number_error INVALID_PERIOD then
        IsStepOfPair (date_time (day_of start_date) start_time) (parts_in period) date time result }
{
    let start_date = or_error!(NumberResult, valid_date(start_date), INVALID_DATE);
    let start_time = or_error!(NumberResult, valid_time(start_time), INVALID_TIME);
    let period = or_error!(NumberResult, valid_period(period), INVALID_PERIOD);
    step_in(
        PlainDateTime::new(start_date, start_time),
        period,
        date,
        time,
    )
}

/// Returns the step that a date and a time are in.
fn step_in(start: PlainDateTime, period: Period, date: i32, time: u64) -> NumberResult
    ensures { IsStepOfPair start period date time result }
{
    let date = or_error!(NumberResult, valid_date(date), INVALID_DATE);
    let time = or_error!(NumberResult, valid_time(time), INVALID_TIME);
    step_result(start, period, PlainDateTime::new(date, time))
}

/// Returns the result of the step that a local date-time is in.
fn step_result(start: PlainDateTime, period: Period, local: PlainDateTime) -> NumberResult
    ensures { need (start ≤ℤ local) × IsPositive period
        else result ≡ number_error RESULT_OUT_OF_RANGE then
        IsNumberWith (IsLastStep start local period) result }
{
    let step = or_error!(
        NumberResult,
        step_of(start, period, local),
        RESULT_OUT_OF_RANGE
    );
    NumberResult::ok(step)
}

/// Returns the period from one date and time to another, with a unit as the largest of its parts,
/// like `fots_date_period_until_by`, and then the exact rest, which is less than a day.
/// `fots_pair_add_period` adds it to the first date and time to give the second. From 2024-01-31
/// 12:00 to 2024-03-01 11:00 it is a month and 23 hours by 3.
#[unsafe(no_mangle)]
pub extern "C" fn fots_pair_period_until(
    date: i32,
    time: u64,
    other_date: i32,
    other_time: u64,
    unit: u32,
) -> ExactPeriodResult
    ensures { need IsJulianDay date else result ≡ exact_period_error INVALID_DATE then
        need IsTime time else result ≡ exact_period_error INVALID_TIME then
        IsPeriodUntilResult (date_time (day_of date) time) other_date other_time unit result }
{
    let date = or_error!(ExactPeriodResult, valid_date(date), INVALID_DATE);
    let time = or_error!(ExactPeriodResult, valid_time(time), INVALID_TIME);
    period_to(PlainDateTime::new(date, time), other_date, other_time, unit)
}

/// Returns the period from a local date-time to a date and a time of day.
fn period_to(from: PlainDateTime, date: i32, time: u64, unit: u32) -> ExactPeriodResult
    ensures { IsPeriodUntilResult from date time unit result }
{
    let date = or_error!(ExactPeriodResult, valid_date(date), INVALID_DATE);
    let time = or_error!(ExactPeriodResult, valid_time(time), INVALID_TIME);
    let unit = or_error!(ExactPeriodResult, valid_unit(unit), INVALID_UNIT);
    period_by_unit(from, PlainDateTime::new(date, time), unit)
}

/// Returns the result of the period between two local date-times.
fn period_by_unit(from: PlainDateTime, to: PlainDateTime, unit: CalendarUnit) -> ExactPeriodResult
    ensures { IsExactPeriodWith (IsPeriodUntil unit from to) result }
{
    ExactPeriodResult::ok(period_until(from, to, unit))
}
