//! Decimal digits.
ghost use Rattle.std.specs.Prelude.{◌≡◌, ◌+◌, ◌*◌, ◌<◌, ◌≤◌, ◌^◌, [], ◌∷◌, ◌++◌, decimal, IfSome, SomeIff};
ghost use Rattle.std.specs.Char.{digit_value};
ghost use Rattle.std.specs.Str.Parse.{AllDigits, digits_value};
ghost use Rattle.cal_text.specs.Shape.{Shape, unmatched_bytes, Scans, ParsesMoreDigits, UpTo, Number};

use crate::scanner::Scanner;

/// Returns the number that two digits spell, or `None` if a byte is not a digit.
#[inline(always)]
pub(crate) fn two_digit_value(tens: u8, ones: u8) -> Option<u32>
    ensures { SomeIff result (AllDigits 10 (tens ∷ ones ∷ []))
        (digits_value 10 (tens ∷ ones ∷ [])) }
{
    let tens = decimal_digit_value(tens)?;
    let ones = decimal_digit_value(ones)?;
    Some(tens * 10 + ones)
}

/// Returns the value of a digit, in 32 bits because `two_digit_value` then needs no casts.
#[inline(always)]
fn decimal_digit_value(byte: u8) -> Option<u32>
    ensures { SomeIff result (digit_value byte < 10) (digit_value byte) }
{
    // A byte below the digits wraps to a number far above 9.
    let number = u32::from(byte).wrapping_sub(48);
    if number > 9 {
        return None;
    }
    Some(number)
}

/// Parses a number above 0 without leading zeros, of up to `more + 1` digits, and at most 18.
/// Returns `None` if it doesn't begin with a digit from 1 to 9. If `more` is 2, it parses 202 at
/// the front of `20245`.
pub fn scan_positive_number(scanner: &mut Scanner, more: usize) -> Option<u64>
    requires { more ≤ 17 }
    ensures scans { Scans (Number more) scanner.old.rest.now scanner.new.rest.now result }
    ensures value { IfSome result (λ n.
        (0 < n) × (n < 10 ^ (more + 1))
        × (scanner.old.rest.now ≡ decimal n ++ scanner.new.rest.now)) }
{
    let first = scanner.digit_from_1()?;
    let number = scan_more_digits(scanner, u64::from(first), more);
    Some(number)
}

/// Parses up to `most` digits after the digits of `number`, and returns the new number.
pub(crate) fn scan_more_digits(scanner: &mut Scanner, number: u64, most: usize) -> u64
    requires { (number + 1) * 10 ^ most ≤ 10 ^ 18 }
    ensures scans { (f : Shape) → unmatched_bytes (UpTo most f) scanner.old.rest.now
        ≡ unmatched_bytes f scanner.new.rest.now }
    ensures value { ParsesMoreDigits scanner.old.rest.now scanner.new.rest.now most number result }
    ensures range { result < (number + 1) * 10 ^ most }
{
    if most == 0 {
        return number;
    }
    match scanner.digit() {
        Some(digit) => scan_more_digits(scanner, number * 10 + u64::from(digit), most - 1),
        None => number,
    }
}
