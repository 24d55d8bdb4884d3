//! The period of an interval in a string.
ghost use Rattle.std.specs.Prelude.{◌≡◌, ◌∷◌, ◌↔◌, IfNone, IfOk, IfSome, IsErrAnd, IsTrue, Ok};
ghost use Rattle.cal_text.specs.Shape.{GoesPast};
ghost use Rattle.cal_schedule.specs.Period.{Parts};
ghost use Rattle.cal_duration.specs.DurationShape.{Body, ScansPart};
ghost use Rattle.cal_duration.specs.Values.{IsPeriodOf};
ghost use Rattle.cal_interval.specs.declared.error.IntervalComponent.{IntervalComponent};
ghost use Rattle.cal_interval.specs.Form.{IsUnsigned};
ghost use Rattle.cal_interval.specs.Repeats.{IsCountInRange, IsOccurrence};
ghost use Rattle.cal_interval.specs.Values.{IsPartError};

use crate::error::IntervalComponent;
use cal_duration::{Numbers, period_from_numbers, scan_body};
use cal_schedule::Period;
use cal_text::Scanner;

/// Parses the numbers of a period after its letter P.
pub(crate) fn scan_period(scanner: &mut Scanner) -> Option<Numbers>
    ensures scans { ScansPart Body scanner.old.rest.now scanner.new.rest.now result }
    ensures value { IfSome result (λ m.
        GoesPast (λ bytes. IsUnsigned (80 ∷ bytes) m) scanner.old.rest.now scanner.new.rest.now) }
{
    let (date, time) = scan_body(scanner)?;
    Some(Numbers {
        is_negative: false,
        date,
        time,
    })
}

/// Returns the period with these numbers, or the first part that is out of range.
pub(crate) fn period(numbers: Numbers) -> Result<Period, IntervalComponent>
    ensures every { (q : Parts) → IsPeriodOf numbers q → result ≡ Ok q }
    ensures value { IfOk result (IsPeriodOf numbers) }
    ensures error { (why : IntervalComponent)
        → IsErrAnd result (λ e. e ≡ why) ↔ IsPartError numbers why }
{
    match period_from_numbers(numbers) {
        Ok(period) => Ok(period),
        Err(component) => Err(IntervalComponent::Period(component)),
    }
}

/// Returns the number of occurrences, or `None` if it isn't from 1 to 4294967295. A repetition
/// without an end has the number `None`.
pub(crate) fn occurrences(count: Option<u64>) -> Option<Option<u32>>
    ensures value { IfSome result (λ c. IsCountInRange count × (c ≡ count)) }
    ensures none { IfNone result (¬ IsCountInRange count) }
{
    match count {
        None => Some(None),
        Some(number) => {
            if number == 0 || number > 4_294_967_295 {
                return None;
            }
            Some(Some(number as u32))
        }
    }
}

/// Returns `true` if an occurrence has this number, from 0 on.
pub(crate) fn is_occurrence(count: Option<u32>, n: i32) -> bool
    ensures { IsTrue result ↔ IsOccurrence count n }
{
    match count {
        None => n >= 0,
        Some(count) => n >= 0 && (n as u32) < count,
    }
}
