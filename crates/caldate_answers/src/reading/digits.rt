//! Digits at the front of a string.
ghost use Rattle.std.specs.Prelude.{◌≡◌, ◌+◌, ◌*◌, ◌^◌, ◌<◌, ◌≤◌, IfSome};
ghost use Rattle.cal_text.specs.Shape.{Shape, Digits, ParsesDigits, ParsesMoreDigits, Scans, UpTo, unmatched_bytes};

use cal_text::Scanner;

/// Parses two digits, and returns their number.
pub fn scan_two_digits(scanner: &mut Scanner) -> Option<u8>
    ensures scans { Scans (Digits 2) scanner.old.rest.now scanner.new.rest.now result }
    ensures value { IfSome result (λ n. ParsesDigits scanner.old.rest.now scanner.new.rest.now 2 n) }
    ensures range { IfSome result (λ n. n < 100) }
{
    let tens = scanner.digit()?;
    let ones = scanner.digit()?;
    Some((tens * 10 + ones) as u8)
}

/// Parses four digits, and returns their number.
pub fn scan_four_digits(scanner: &mut Scanner) -> Option<u16>
    ensures scans { Scans (Digits 4) scanner.old.rest.now scanner.new.rest.now result }
    ensures value { IfSome result (λ n. ParsesDigits scanner.old.rest.now scanner.new.rest.now 4 n) }
    ensures range { IfSome result (λ n. n < 10_000) }
{
    let front = scan_two_digits(scanner)?;
    let back = scan_two_digits(scanner)?;
    Some(u16::from(front) * 100 + u16::from(back))
}

/// Parses up to `most` digits after the digits of `number`, and returns the new number.
pub fn scan_more_digits(scanner: &mut Scanner, number: u128, most: usize) -> u128
    requires { (number + 1) * 10 ^ most ≤ 10 ^ 27 }
    ensures scans { (f : Shape) → unmatched_bytes (UpTo most f) scanner.old.rest.now
        ≡ unmatched_bytes f scanner.new.rest.now }
    ensures value { ParsesMoreDigits scanner.old.rest.now scanner.new.rest.now most number result }
{
    if most == 0 {
        return number;
    }
    match scanner.digit() {
        Some(digit) => scan_more_digits(scanner, number * 10 + u128::from(digit), most - 1),
        None => number,
    }
}
