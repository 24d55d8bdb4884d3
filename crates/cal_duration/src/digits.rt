//! Numbers of any length, and fractions of a second.
ghost use Rattle.std.specs.Prelude.{◌≡◌, ◌≤◌, IfNone, IfSome, length};
ghost use Rattle.cal_text.specs.Shape.{GoesPast, Scans};
ghost use Rattle.cal_duration.specs.DurationShape.{Decimals, ScansNumber, ScansOptional};
ghost use Rattle.cal_duration.specs.Form.{IsNumber};
ghost use Rattle.cal_duration.specs.PartsRead.{DecimalsRead};

use cal_text::{Scanner, scan_more_decimals};

/// Parses a number of one digit or more. Returns 18446744073709551615 for a number above it, and
/// `None`, without parsing anything, if no digit comes next.
pub fn scan_number(scanner: &mut Scanner) -> Option<u64>
    ensures scans { ScansNumber scanner.old.rest.now scanner.new.rest.now result }
    ensures optional { ScansOptional scanner.old.rest.now scanner.new.rest.now result }
    ensures value { IfSome result (λ n.
        GoesPast (λ digits. IsNumber digits n) scanner.old.rest.now scanner.new.rest.now) }
    ensures shorter { length scanner.new.rest.now ≤ length scanner.old.rest.now }
    ensures unchanged { IfNone result (scanner.new.rest.now ≡ scanner.old.rest.now) }
{
    let mut number = u64::from(scanner.digit()?);
    while let Some(digit) = scanner.digit() {
        number = number.saturating_mul(10).saturating_add(u64::from(digit));
    }
    Some(number)
}

/// Parses the digits of a fraction of a second, from one to nine, and the letter S. Returns the
/// nanoseconds.
pub(crate) fn scan_decimals(scanner: &mut Scanner) -> Option<u32>
    ensures scans { Scans Decimals scanner.old.rest.now scanner.new.rest.now result }
    ensures value { IfSome result (DecimalsRead scanner.old.rest.now scanner.new.rest.now) }
{
    let first = scanner.digit()?;
    let nanoseconds = scan_more_decimals(scanner, first * 100_000_000, 10_000_000, 8);
    scanner.byte(b'S')?;
    Some(nanoseconds)
}
