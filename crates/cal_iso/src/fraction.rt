//! Parsing a decimal fraction of a second.
ghost use Rattle.std.specs.Prelude.{◌≡◌, ℕ, ◌+◌, IfSome};
ghost use Rattle.cal_text.specs.Shape.{GoesPast, Shape, unmatched_bytes};
ghost use Rattle.cal_iso.specs.ClockForm.{AllZeros, IsDecimals, IsIsoFraction};
ghost use Rattle.cal_iso.specs.IsoShape.{Decimals, Fraction, ScansLong, Zeros, any_length};

use cal_text::{Scanner, scan_more_decimals};

/// Parses a point or a comma and decimals, or nothing. Returns the nanoseconds.
pub(crate) fn scan_fraction(scanner: &mut Scanner) -> Option<u32>
    ensures scans { ScansLong Fraction scanner.old.rest.now scanner.new.rest.now result }
    ensures value { IfSome result (λ n.
        GoesPast (λ bytes. IsIsoFraction bytes n) scanner.old.rest.now scanner.new.rest.now) }
{
    match scanner.byte(b'.') {
        Some(()) => scan_decimals(scanner),
        None => match scanner.byte(b',') {
            Some(()) => scan_decimals(scanner),
            None => Some(0),
        },
    }
}

/// Parses one digit or more, of which those after the ninth are zeros.
fn scan_decimals(scanner: &mut Scanner) -> Option<u32>
    ensures scans { ScansLong Decimals scanner.old.rest.now scanner.new.rest.now result }
    ensures value { IfSome result (λ n.
        GoesPast (λ digits. IsDecimals digits n) scanner.old.rest.now scanner.new.rest.now) }
{
    let first = scanner.digit()?;
    let nanosecond = scan_more_decimals(scanner, first * 100_000_000, 10_000_000, 8);
    scan_zeros(scanner);
    Some(nanosecond)
}

/// Parses zeros up to another byte or the end.
fn scan_zeros(scanner: &mut Scanner)
    ensures scans { (k : ℕ) (f : Shape) → unmatched_bytes (Zeros (k + any_length) f)
        scanner.old.rest.now ≡ unmatched_bytes f scanner.new.rest.now }
    ensures value { GoesPast AllZeros scanner.old.rest.now scanner.new.rest.now }
{
    let most = scanner.rest.len();
    for _ in 0..most {
        match scanner.byte(b'0') {
            Some(()) => {}
            None => return,
        }
    }
}
