//! Parsing the numbers of an offset.
ghost use Rattle.std.specs.Prelude.{◌≡◌, IfSome};
ghost use Rattle.cal_text.specs.Shape.{End, ScansWhole};
ghost use Rattle.cal_iso.specs.IsoShape.{Offset, Shift, SpacedOffset};
ghost use Rattle.cal_iso.specs.OffsetForm.{HasIsoOffset, IsShift, IsSpacedOffset};

use crate::clock::scan_after_hour;
use cal_text::{OffsetNumbers, Scanner};

/// Parses an optional space and the numbers of an offset, up to the end of the string.
pub(crate) fn scan_spaced_offset(scanner: &mut Scanner) -> Option<OffsetNumbers>
    ensures scans { ScansWhole (SpacedOffset End) scanner.old.rest.now scanner.new.rest.now result }
    ensures value { IfSome result (IsSpacedOffset scanner.old.rest.now) }
{
    match scanner.byte(b' ') {
        Some(()) => {
            let offset = scan_offset(scanner)?;
            Some(offset)
        }
        None => {
            let offset = scan_offset(scanner)?;
            Some(offset)
        }
    }
}

/// Parses the numbers of an offset up to the end of the string.
fn scan_offset(scanner: &mut Scanner) -> Option<OffsetNumbers>
    ensures scans { ScansWhole (Offset End) scanner.old.rest.now scanner.new.rest.now result }
    ensures value { IfSome result (HasIsoOffset scanner.old.rest.now) }
{
    match scanner.byte(b'Z') {
        Some(()) => {
            scanner.end()?;
            Some(OffsetNumbers::UTC)
        }
        None => match scanner.byte(b'z') {
            Some(()) => {
                scanner.end()?;
                Some(OffsetNumbers::UTC)
            }
            None => scan_shift(scanner),
        },
    }
}

/// Parses a sign, hours, and perhaps minutes and seconds, up to the end of the string.
fn scan_shift(scanner: &mut Scanner) -> Option<OffsetNumbers>
    ensures scans { ScansWhole (Shift End) scanner.old.rest.now scanner.new.rest.now result }
    ensures value { IfSome result (IsShift scanner.old.rest.now) }
{
    let is_negative = scanner.sign()?;
    let hours = scanner.two_digits()?;
    let rest = scan_after_hour(scanner, false)?;
    scanner.end()?;
    Some(OffsetNumbers {
        is_negative,
        hours: hours as u8,
        minutes: rest.minute,
        seconds: rest.second,
    })
}
