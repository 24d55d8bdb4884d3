//! Parsing the numbers of an offset.
ghost use Rattle.std.specs.Prelude.{◌<◌, IfSome};
ghost use Rattle.cal_text.specs.Shape.{ScansWhole, after_minutes, signed_numbers, offset};
ghost use Rattle.cal_text.specs.OffsetForm.{IsAfterMinutes, HasSignedForm, HasOffsetForm};

use crate::offset::numbers::OffsetNumbers;
use crate::scanner::Scanner;

/// Parses the numbers of an offset up to the end of the text.
pub(crate) fn scan_offset(scanner: &mut Scanner) -> Option<OffsetNumbers>
    ensures scans { ScansWhole offset scanner.old.rest.now scanner.new.rest.now result }
    ensures value { IfSome result (HasOffsetForm scanner.old.rest.now) }
{
    match scanner.byte(b'Z') {
        Some(()) => {
            scanner.end()?;
            Some(OffsetNumbers::UTC)
        }
        None => match scanner.byte(b'z') {
            Some(()) => {
                scanner.end()?;
                Some(OffsetNumbers::UTC)
            }
            None => scan_signed_numbers(scanner),
        },
    }
}

/// Parses a sign and the numbers of an offset up to the end of the text.
fn scan_signed_numbers(scanner: &mut Scanner) -> Option<OffsetNumbers>
    ensures scans { ScansWhole signed_numbers scanner.old.rest.now scanner.new.rest.now result }
    ensures value { IfSome result (HasSignedForm scanner.old.rest.now) }
{
    let is_negative = scanner.sign()?;
    let hours = scanner.two_digits()?;
    scanner.byte(b':')?;
    let minutes = scanner.two_digits()?;
    let seconds = scan_after_minutes(scanner)?;
    Some(OffsetNumbers {
        is_negative,
        hours: hours as u8,
        minutes: minutes as u8,
        seconds: seconds as u8,
    })
}

/// Parses the seconds up to the end of the text. They are 0 at the end.
fn scan_after_minutes(scanner: &mut Scanner) -> Option<u32>
    ensures scans { ScansWhole after_minutes scanner.old.rest.now scanner.new.rest.now result }
    ensures value { IfSome result (IsAfterMinutes scanner.old.rest.now) }
    ensures range { IfSome result (λ seconds. seconds < 100) }
{
    match scanner.byte(b':') {
        Some(()) => {
            let seconds = scanner.two_digits()?;
            scanner.end()?;
            Some(seconds)
        }
        None => {
            scanner.end()?;
            Some(0)
        }
    }
}
