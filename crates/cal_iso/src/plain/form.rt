//! Parsing the numbers of a local date-time.
ghost use Rattle.std.specs.Prelude.{IfSome};
ghost use Rattle.cal_text.specs.Shape.{GoesPast};
ghost use Rattle.cal_iso.specs.IsoShape.{DateTime, OrMidnight, Plain, ScansLong, ScansWholeLong};
ghost use Rattle.cal_iso.specs.MomentForm.{HasIsoDateTime, HasIsoPlain, IsTimeOrMidnight};

use crate::date::form::scan_date;
use crate::time::form::{scan_clock, scan_clock_to_end};
use cal_text::{PlainNumbers, Scanner, TimeNumbers, scan_separator};

/// Parses the numbers of a date and perhaps of a time of day, up to the end of the string.
pub(super) fn scan_whole_plain(scanner: &mut Scanner) -> Option<PlainNumbers>
    ensures scans { ScansWholeLong Plain scanner.old.rest.now scanner.new.rest.now result }
    ensures value { IfSome result (HasIsoPlain scanner.old.rest.now) }
{
    let date = scan_date(scanner)?;
    let time = scan_or_midnight(scanner)?;
    Some(PlainNumbers { date, time })
}

/// Parses a separator and a time of day up to the end of the string, or the end.
fn scan_or_midnight(scanner: &mut Scanner) -> Option<TimeNumbers>
    ensures scans { ScansWholeLong OrMidnight scanner.old.rest.now scanner.new.rest.now result }
    ensures value { IfSome result (IsTimeOrMidnight scanner.old.rest.now) }
{
    match scanner.byte(b'T') {
        Some(()) => scan_clock_to_end(scanner),
        None => match scanner.byte(b't') {
            Some(()) => scan_clock_to_end(scanner),
            None => match scanner.byte(b' ') {
                Some(()) => scan_clock_to_end(scanner),
                None => {
                    scanner.end()?;
                    Some(TimeNumbers {
                        hour: 0,
                        minute: 0,
                        second: 0,
                        nanosecond: 0,
                    })
                }
            },
        },
    }
}

/// Parses the numbers of a date, a separator and a time of day.
pub(crate) fn scan_date_time(scanner: &mut Scanner) -> Option<PlainNumbers>
    ensures scans { ScansLong DateTime scanner.old.rest.now scanner.new.rest.now result }
    ensures value { IfSome result (λ p.
        GoesPast (λ bytes. HasIsoDateTime bytes p) scanner.old.rest.now scanner.new.rest.now) }
{
    let date = scan_date(scanner)?;
    scan_separator(scanner)?;
    let time = scan_clock(scanner)?;
    Some(PlainNumbers { date, time })
}
