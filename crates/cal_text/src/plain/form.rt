//! Parsing the numbers of a date-time.
ghost use Rattle.std.specs.Prelude.{IfSome};
ghost use Rattle.cal_text.specs.Shape.{Scans, ScansWhole, GoesPast, Plain, plain};
ghost use Rattle.cal_text.specs.PlainForm.{HasPlainForm};

use crate::date_numbers::scan_date;
use crate::plain::numbers::PlainNumbers;
use crate::rfc3339::scan_separator;
use crate::scanner::Scanner;
use crate::time::form::scan_time;

/// Parses the numbers of a date-time up to the end of the text.
pub(super) fn scan_whole_plain(scanner: &mut Scanner) -> Option<PlainNumbers>
    ensures scans { ScansWhole plain scanner.old.rest.now scanner.new.rest.now result }
    ensures value { IfSome result (HasPlainForm scanner.old.rest.now) }
{
    let numbers = scan_plain(scanner)?;
    scanner.end()?;
    Some(numbers)
}

/// Parses the numbers of a date-time: a date, a separator and a time of day.
pub fn scan_plain(scanner: &mut Scanner) -> Option<PlainNumbers>
    ensures scans { Scans Plain scanner.old.rest.now scanner.new.rest.now result }
    ensures value { IfSome result (λ p.
        GoesPast (λ bytes. HasPlainForm bytes p) scanner.old.rest.now scanner.new.rest.now) }
{
    let date = scan_date(scanner)?;
    scan_separator(scanner)?;
    let time = scan_time(scanner)?;
    Some(PlainNumbers { date, time })
}
