//! Parsing the numbers of an interval of dates.
ghost use Rattle.std.specs.Prelude.{◌≡◌, ◌∷◌, ◌++◌, ℕ, List, IfSome};
ghost use Rattle.cal_text.specs.DateForms.{HasForm};
ghost use Rattle.cal_text.specs.Shape.{Date};
ghost use Rattle.cal_duration.specs.DurationShape.{ScansToEnd};
ghost use Rattle.cal_interval.specs.Form.{HasDateInterval, HasRepeated};
ghost use Rattle.cal_interval.specs.IntervalShape.{Interval, PeriodOrEnd, Repeated};

use crate::date::numbers::DateIntervalNumbers;
use crate::period::scan_period;
use cal_duration::scan_number;
use cal_text::{DateNumbers, Scanner, scan_date};

/// Parses the letter R, a number of occurrences or none, a slash and the numbers of an interval up
/// to the end of the string.
pub(super) fn scan_repeated(scanner: &mut Scanner) -> Option<(Option<u64>, DateIntervalNumbers)>
    ensures scans { ScansToEnd (Repeated Date)
        scanner.old.rest.now scanner.new.rest.now result }
    ensures value { IfSome result (HasRepeated HasDateInterval scanner.old.rest.now) }
{
    scanner.byte(b'R')?;
    let count = scan_number(scanner);
    scanner.byte(b'/')?;
    let interval = scan_interval(scanner)?;
    Some((count, interval))
}

/// Parses the numbers of an interval up to the end of the string.
pub(super) fn scan_interval(scanner: &mut Scanner) -> Option<DateIntervalNumbers>
    ensures scans { ScansToEnd (Interval Date)
        scanner.old.rest.now scanner.new.rest.now result }
    ensures value { IfSome result (HasDateInterval scanner.old.rest.now) }
{
    match scanner.byte(b'P') {
        Some(()) => {
            let period = scan_period(scanner)?;
            scanner.byte(b'/')?;
            let end = scan_date(scanner)?;
            scanner.end()?;
            Some(DateIntervalNumbers::PeriodAndEnd(period, end))
        }
        None => {
            let start = scan_date(scanner)?;
            scanner.byte(b'/')?;
            scan_period_or_end(scanner, start)
        }
    }
}

/// Parses the period or the end after a start, up to the end of the string.
fn scan_period_or_end(scanner: &mut Scanner, start: DateNumbers) -> Option<DateIntervalNumbers>
    ensures scans { ScansToEnd (PeriodOrEnd Date)
        scanner.old.rest.now scanner.new.rest.now result }
    ensures value { IfSome result (λ m. (front : List ℕ) → HasForm front start
        → HasDateInterval (front ++ 47 ∷ scanner.old.rest.now) m) }
{
    match scanner.byte(b'P') {
        Some(()) => {
            let period = scan_period(scanner)?;
            scanner.end()?;
            Some(DateIntervalNumbers::StartAndPeriod(start, period))
        }
        None => {
            let end = scan_date(scanner)?;
            scanner.end()?;
            Some(DateIntervalNumbers::StartAndEnd(start, end))
        }
    }
}
