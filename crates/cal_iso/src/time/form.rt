//! Parsing the numbers of a time of day.
ghost use Rattle.std.specs.Prelude.{IfSome};
ghost use Rattle.cal_text.specs.Shape.{GoesPast};
ghost use Rattle.cal_iso.specs.IsoShape.{Clock, ScansLong, ScansWholeLong, Time};
ghost use Rattle.cal_iso.specs.TimeForm.{HasIsoClock, HasIsoTime};

use crate::clock::scan_after_hour;
use cal_text::{Scanner, TimeNumbers};

/// Parses the numbers of a time of day, perhaps after the letter T, up to the end of the string.
pub(super) fn scan_whole_time(scanner: &mut Scanner) -> Option<TimeNumbers>
    ensures scans { ScansWholeLong Time scanner.old.rest.now scanner.new.rest.now result }
    ensures value { IfSome result (HasIsoTime scanner.old.rest.now) }
{
    match scanner.byte(b'T') {
        Some(()) => scan_clock_to_end(scanner),
        None => match scanner.byte(b't') {
            Some(()) => scan_clock_to_end(scanner),
            None => scan_clock_to_end(scanner),
        },
    }
}

/// Parses the numbers of a time of day up to the end of the string.
pub(crate) fn scan_clock_to_end(scanner: &mut Scanner) -> Option<TimeNumbers>
    ensures scans { ScansWholeLong Clock scanner.old.rest.now scanner.new.rest.now result }
    ensures value { IfSome result (HasIsoClock scanner.old.rest.now) }
{
    let time = scan_clock(scanner)?;
    scanner.end()?;
    Some(time)
}

/// Parses two digits of the hour, and perhaps minutes and seconds.
pub(crate) fn scan_clock(scanner: &mut Scanner) -> Option<TimeNumbers>
    ensures scans { ScansLong Clock scanner.old.rest.now scanner.new.rest.now result }
    ensures value { IfSome result (λ t.
        GoesPast (λ bytes. HasIsoClock bytes t) scanner.old.rest.now scanner.new.rest.now) }
{
    let hour = scanner.two_digits()?;
    let rest = scan_after_hour(scanner, true)?;
    Some(TimeNumbers {
        hour: hour as u8,
        minute: rest.minute,
        second: rest.second,
        nanosecond: rest.nanosecond,
    })
}
