//! Parsing the numbers of an interval of local date-times.
ghost use Rattle.std.specs.Prelude.{◌≡◌, ◌∷◌, ◌++◌, ℕ, List, IfSome};
ghost use Rattle.cal_text.specs.PlainForm.{HasPlainForm};
ghost use Rattle.cal_text.specs.Shape.{Plain};
ghost use Rattle.cal_duration.specs.DurationShape.{ScansToEnd};
ghost use Rattle.cal_interval.specs.Form.{HasDateTimeInterval, HasRepeated};
ghost use Rattle.cal_interval.specs.IntervalShape.{Interval, PeriodOrEnd, Repeated};

use crate::period::scan_period;
use crate::plain::numbers::DateTimeIntervalNumbers;
use cal_duration::scan_number;
use cal_text::{PlainNumbers, Scanner, scan_plain};

/// Parses the letter R, a number of occurrences or none, a slash and the numbers of an interval up
/// to the end of the string.
pub(super) fn scan_repeated(scanner: &mut Scanner) -> Option<(Option<u64>, DateTimeIntervalNumbers)>
    ensures scans { ScansToEnd (Repeated Plain)
        scanner.old.rest.now scanner.new.rest.now result }
    ensures value { IfSome result (HasRepeated HasDateTimeInterval scanner.old.rest.now) }
{
    scanner.byte(b'R')?;
    let count = scan_number(scanner);
    scanner.byte(b'/')?;
    let interval = scan_interval(scanner)?;
    Some((count, interval))
}

/// Parses the numbers of an interval up to the end of the string.
pub(super) fn scan_interval(scanner: &mut Scanner) -> Option<DateTimeIntervalNumbers>
    ensures scans { ScansToEnd (Interval Plain)
        scanner.old.rest.now scanner.new.rest.now result }
    ensures value { IfSome result (HasDateTimeInterval scanner.old.rest.now) }
{
    match scanner.byte(b'P') {
        Some(()) => {
            let period = scan_period(scanner)?;
            scanner.byte(b'/')?;
            let end = scan_plain(scanner)?;
            scanner.end()?;
            Some(DateTimeIntervalNumbers::PeriodAndEnd(period, end))
        }
        None => {
            let start = scan_plain(scanner)?;
            scanner.byte(b'/')?;
            scan_period_or_end(scanner, start)
        }
    }
}

/// Parses the period or the end after a start, up to the end of the string.
fn scan_period_or_end(scanner: &mut Scanner, start: PlainNumbers) -> Option<DateTimeIntervalNumbers>
    ensures scans { ScansToEnd (PeriodOrEnd Plain)
        scanner.old.rest.now scanner.new.rest.now result }
    ensures value { IfSome result (λ m. (front : List ℕ) → HasPlainForm front start
        → HasDateTimeInterval (front ++ 47 ∷ scanner.old.rest.now) m) }
{
    match scanner.byte(b'P') {
        Some(()) => {
            let period = scan_period(scanner)?;
            scanner.end()?;
            Some(DateTimeIntervalNumbers::StartAndPeriod(start, period))
        }
        None => {
            let end = scan_plain(scanner)?;
            scanner.end()?;
            Some(DateTimeIntervalNumbers::StartAndEnd(start, end))
        }
    }
}
