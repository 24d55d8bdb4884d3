//! From numbers to an interval of dates.
ghost use Rattle.std.specs.Prelude.{◌≡◌, ◌↔◌, ℕ, IfOk, IsErrAnd, Ok};
ghost use Rattle.cal_text.specs.DateForms.{DigitsFit};
ghost use Rattle.cal_interval.specs.declared.error.IntervalComponent.{IntervalComponent};
ghost use Rattle.cal_interval.specs.declared.date.interval.DateInterval.{DateInterval};
ghost use Rattle.cal_interval.specs.declared.date.numbers.DateIntervalNumbers.TheVariants.{PeriodAndEnd, StartAndEnd, StartAndPeriod};
ghost use Rattle.cal_interval.specs.Form.{DateNumbersFit};
ghost use Rattle.cal_interval.specs.Values.{IsDateIntervalError, IsDateIntervalOf, IsDay, IsDayError};

use crate::date::interval::DateInterval;
use crate::date::numbers::DateIntervalNumbers;
use crate::error::IntervalComponent;
use crate::period::period;
use cal_duration::Numbers;
use cal_text::{DateNumbers, date_from_numbers};
use cal_time::Date;

/// Returns the interval with these numbers, or the first part that is out of range.
pub(super) fn interval_from_numbers(
    numbers: DateIntervalNumbers,
) -> Result<DateInterval, IntervalComponent>
    requires { DateNumbersFit numbers }
    ensures every { (v : DateInterval) → IsDateIntervalOf numbers v → result ≡ Ok v }
    ensures value { IfOk result (IsDateIntervalOf numbers) }
    ensures error { (why : IntervalComponent)
        → IsErrAnd result (λ e. e ≡ why) ↔ IsDateIntervalError numbers why }
{
    match numbers {
        DateIntervalNumbers::StartAndEnd(start, end) => start_and_end(start, end),
        DateIntervalNumbers::StartAndPeriod(start, period) => start_and_period(start, period),
        DateIntervalNumbers::PeriodAndEnd(period, end) => period_and_end(period, end),
    }
}

fn start_and_end(start: DateNumbers, end: DateNumbers) -> Result<DateInterval, IntervalComponent>
    requires { DigitsFit start × DigitsFit end }
    ensures every { (v : DateInterval) → IsDateIntervalOf (StartAndEnd start end) v
        → result ≡ Ok v }
    ensures value { IfOk result (IsDateIntervalOf (StartAndEnd start end)) }
    ensures error { (why : IntervalComponent) → IsErrAnd result (λ e. e ≡ why)
        ↔ IsDateIntervalError (StartAndEnd start end) why }
{
    match day(start) {
        Ok(start) => match day(end) {
            Ok(end) => Ok(DateInterval::StartAndEnd(start, end)),
            Err(component) => Err(component),
        },
        Err(component) => Err(component),
    }
}

fn start_and_period(start: DateNumbers, numbers: Numbers) -> Result<DateInterval, IntervalComponent>
    requires { DigitsFit start }
    ensures every { (v : DateInterval) → IsDateIntervalOf (StartAndPeriod start numbers) v
        → result ≡ Ok v }
    ensures value { IfOk result (IsDateIntervalOf (StartAndPeriod start numbers)) }
    ensures error { (why : IntervalComponent) → IsErrAnd result (λ e. e ≡ why)
        ↔ IsDateIntervalError (StartAndPeriod start numbers) why }
{
    match day(start) {
        Ok(start) => match period(numbers) {
            Ok(period) => Ok(DateInterval::StartAndPeriod(start, period)),
            Err(component) => Err(component),
        },
        Err(component) => Err(component),
    }
}

fn period_and_end(numbers: Numbers, end: DateNumbers) -> Result<DateInterval, IntervalComponent>
    requires { DigitsFit end }
    ensures every { (v : DateInterval) → IsDateIntervalOf (PeriodAndEnd numbers end) v
        → result ≡ Ok v }
    ensures value { IfOk result (IsDateIntervalOf (PeriodAndEnd numbers end)) }
    ensures error { (why : IntervalComponent) → IsErrAnd result (λ e. e ≡ why)
        ↔ IsDateIntervalError (PeriodAndEnd numbers end) why }
{
    match period(numbers) {
        Ok(period) => match day(end) {
            Ok(end) => Ok(DateInterval::PeriodAndEnd(period, end)),
            Err(component) => Err(component),
        },
        Err(component) => Err(component),
    }
}

/// Returns the date with these numbers, or the first component that is out of range.
fn day(numbers: DateNumbers) -> Result<Date, IntervalComponent>
    requires { DigitsFit numbers }
    ensures every { (n : ℕ) → IsDay numbers n → result ≡ Ok n }
    ensures value { IfOk result (IsDay numbers) }
    ensures error { (why : IntervalComponent)
        → IsErrAnd result (λ e. e ≡ why) ↔ IsDayError numbers why }
{
    match date_from_numbers(numbers) {
        Ok(date) => Ok(date),
        Err(error) => Err(IntervalComponent::End(error)),
    }
}
