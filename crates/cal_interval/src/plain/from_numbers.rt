//! From numbers to an interval of local date-times.
ghost use Rattle.std.specs.Prelude.{◌≡◌, ◌↔◌, ℤ, IfOk, IsErrAnd, Ok};
ghost use Rattle.cal_text.specs.PlainForm.{IsPlainOf};
ghost use Rattle.cal_interval.specs.declared.error.IntervalComponent.{IntervalComponent};
ghost use Rattle.cal_interval.specs.declared.plain.interval.DateTimeInterval.{DateTimeInterval};
ghost use Rattle.cal_interval.specs.declared.plain.numbers.DateTimeIntervalNumbers.TheVariants.{PeriodAndEnd, StartAndEnd, StartAndPeriod};
ghost use Rattle.cal_interval.specs.Form.{PlainFits, PlainNumbersFit};
ghost use Rattle.cal_interval.specs.Values.{IsDateTimeIntervalError, IsDateTimeIntervalOf, IsEndError};

use crate::error::IntervalComponent;
use crate::period::period;
use crate::plain::interval::DateTimeInterval;
use crate::plain::numbers::DateTimeIntervalNumbers;
use cal_datetime::PlainDateTime;
use cal_duration::Numbers;
use cal_text::{PlainNumbers, plain_from_numbers};

/// Returns the interval with these numbers, or the first part that is out of range.
pub(super) fn interval_from_numbers(
    numbers: DateTimeIntervalNumbers,
) -> Result<DateTimeInterval, IntervalComponent>
    requires { PlainNumbersFit numbers }
    ensures every { (v : DateTimeInterval) → IsDateTimeIntervalOf numbers v → result ≡ Ok v }
    ensures value { IfOk result (IsDateTimeIntervalOf numbers) }
    ensures error { (why : IntervalComponent)
        → IsErrAnd result (λ e. e ≡ why) ↔ IsDateTimeIntervalError numbers why }
{
    match numbers {
        DateTimeIntervalNumbers::StartAndEnd(start, end) => start_and_end(start, end),
        DateTimeIntervalNumbers::StartAndPeriod(start, period) => start_and_period(start, period),
        DateTimeIntervalNumbers::PeriodAndEnd(period, end) => period_and_end(period, end),
    }
}

fn start_and_end(
    start: PlainNumbers,
    end: PlainNumbers,
) -> Result<DateTimeInterval, IntervalComponent>
    requires { PlainFits start × PlainFits end }
    ensures every { (v : DateTimeInterval) → IsDateTimeIntervalOf (StartAndEnd start end) v
        → result ≡ Ok v }
    ensures value { IfOk result (IsDateTimeIntervalOf (StartAndEnd start end)) }
    ensures error { (why : IntervalComponent) → IsErrAnd result (λ e. e ≡ why)
        ↔ IsDateTimeIntervalError (StartAndEnd start end) why }
{
    match date_time(start) {
        Ok(start) => match date_time(end) {
            Ok(end) => Ok(DateTimeInterval::StartAndEnd(start, end)),
            Err(component) => Err(component),
        },
        Err(component) => Err(component),
    }
}

fn start_and_period(
    start: PlainNumbers,
    numbers: Numbers,
) -> Result<DateTimeInterval, IntervalComponent>
    requires { PlainFits start }
    ensures every { (v : DateTimeInterval) → IsDateTimeIntervalOf (StartAndPeriod start numbers) v
        → result ≡ Ok v }
    ensures value { IfOk result (IsDateTimeIntervalOf (StartAndPeriod start numbers)) }
    ensures error { (why : IntervalComponent) → IsErrAnd result (λ e. e ≡ why)
        ↔ IsDateTimeIntervalError (StartAndPeriod start numbers) why }
{
    match date_time(start) {
        Ok(start) => match period(numbers) {
            Ok(period) => Ok(DateTimeInterval::StartAndPeriod(start, period)),
            Err(component) => Err(component),
        },
        Err(component) => Err(component),
    }
}

fn period_and_end(
    numbers: Numbers,
    end: PlainNumbers,
) -> Result<DateTimeInterval, IntervalComponent>
    requires { PlainFits end }
    ensures every { (v : DateTimeInterval) → IsDateTimeIntervalOf (PeriodAndEnd numbers end) v
        → result ≡ Ok v }
    ensures value { IfOk result (IsDateTimeIntervalOf (PeriodAndEnd numbers end)) }
    ensures error { (why : IntervalComponent) → IsErrAnd result (λ e. e ≡ why)
        ↔ IsDateTimeIntervalError (PeriodAndEnd numbers end) why }
{
    match period(numbers) {
        Ok(period) => match date_time(end) {
            Ok(end) => Ok(DateTimeInterval::PeriodAndEnd(period, end)),
            Err(component) => Err(component),
        },
        Err(component) => Err(component),
    }
}

/// Returns the date-time with these numbers, or the first component that is out of range.
fn date_time(numbers: PlainNumbers) -> Result<PlainDateTime, IntervalComponent>
    requires { PlainFits numbers }
    ensures every { (z : ℤ) → IsPlainOf numbers z → result ≡ Ok z }
    ensures value { IfOk result (IsPlainOf numbers) }
    ensures error { (why : IntervalComponent)
        → IsErrAnd result (λ e. e ≡ why) ↔ IsEndError numbers why }
{
    match plain_from_numbers(numbers) {
        Ok(date_time) => Ok(date_time),
        Err(error) => Err(IntervalComponent::End(error)),
    }
}
