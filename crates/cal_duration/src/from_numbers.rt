//! From numbers to values.
ghost use Rattle.std.specs.Prelude.{◌≡◌, ◌<◌, ◌^◌, FitsSigned, IfErr, IfOk, SomeIff};
ghost use Rattle.std.specs.Int.{w32};
ghost use Rattle.cal_time.specs.SignedDuration.{IsDuration};
ghost use Rattle.cal_duration.specs.Values.{IsDurationError, IsDurationOf, IsPeriodError, IsPeriodOf, signed};

use crate::error::DurationComponent;
use crate::numbers::{Numbers, TimeNumbers};
use cal_schedule::Period;
use cal_time::SignedDuration;

const NANOSECONDS_PER_HOUR: u128 = 3_600_000_000_000;

const NANOSECONDS_PER_MINUTE: u128 = 60_000_000_000;

const NANOSECONDS_PER_SECOND: u128 = 1_000_000_000;

/// Returns the period with the numbers of a text, or the first part that is out of range.
pub fn period_from_numbers(numbers: Numbers) -> Result<Period, DurationComponent>
    ensures value { IfOk result (IsPeriodOf numbers) }
    ensures error { IfErr result (IsPeriodError numbers) }
{
    let is_negative = numbers.is_negative;
    let Some(years) = signed_i32(is_negative, numbers.date.years) else {
        return Err(DurationComponent::Years);
    };
    let Some(months) = signed_i32(is_negative, numbers.date.months) else {
        return Err(DurationComponent::Months);
    };
    let Some(weeks) = signed_i32(is_negative, numbers.date.weeks) else {
        return Err(DurationComponent::Weeks);
    };
    let Some(days) = signed_i32(is_negative, numbers.date.days) else {
        return Err(DurationComponent::Days);
    };
    match duration_from_numbers(numbers) {
        Ok(duration) => match Period::new(years, months, weeks, days, duration) {
            Some(period) => Ok(period),
            None => unreachable!(),
        },
        Err(component) => Err(component),
    }
}

/// Returns the exact duration of these numbers, or the first part that is out of range.
pub(crate) fn duration_from_numbers(numbers: Numbers) -> Result<SignedDuration, DurationComponent>
    ensures value { IfOk result (IsDurationOf numbers) }
    ensures error { IfErr result (IsDurationError numbers) }
{
    let time = numbers.time;
    let hours = u128::from(time.hours) * NANOSECONDS_PER_HOUR;
    if signed_duration(numbers.is_negative, hours).is_none() {
        return Err(DurationComponent::Hours);
    }
    let minutes = hours + u128::from(time.minutes) * NANOSECONDS_PER_MINUTE;
    if signed_duration(numbers.is_negative, minutes).is_none() {
        return Err(DurationComponent::Minutes);
    }
    let seconds = minutes + u128::from(time.seconds) * NANOSECONDS_PER_SECOND;
    let all = seconds + u128::from(time.nanoseconds);
    match signed_duration(numbers.is_negative, all) {
        Some(duration) => Ok(duration),
        None => Err(DurationComponent::Seconds),
    }
}

/// Returns a number with its sign, or `None` if it is out of range.
fn signed_i32(is_negative: bool, number: u64) -> Option<i32>
    ensures { SomeIff result (FitsSigned w32 (signed is_negative number)) (signed is_negative number) }
{
    match i32::try_from(signed_number(is_negative, u128::from(number))) {
        Ok(number) => Some(number),
        Err(_) => None,
    }
}

/// Returns nanoseconds with their sign as a duration, or `None` if they are out of range.
fn signed_duration(is_negative: bool, nanoseconds: u128) -> Option<SignedDuration>
    requires { nanoseconds < 2 ^ 120 }
    ensures { SomeIff result (IsDuration (signed is_negative nanoseconds))
        (signed is_negative nanoseconds) }
{
    let nanoseconds = signed_number(is_negative, nanoseconds);
    if nanoseconds < SignedDuration::MIN.whole_nanoseconds()
        || nanoseconds > SignedDuration::MAX.whole_nanoseconds()
    {
        return None;
    }
    Some(SignedDuration::nanoseconds_i128(nanoseconds))
}

/// Returns a number with its sign.
fn signed_number(is_negative: bool, number: u128) -> i128
    requires { number < 2 ^ 120 }
    ensures { result ≡ signed is_negative number }
{
    let number = number as i128;
    if is_negative { -number } else { number }
}
