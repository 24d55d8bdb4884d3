//! The year of a date in text.
ghost use Rattle.std.specs.Prelude.{◌≡◌, ℕ, ◌+◌, ◌*◌, ◌<◌, ◌≤◌, ◌^◌, ◌∷◌, ◌++◌, IfSome};
ghost use Rattle.cal_time.specs.DateText.{digits_at_least};
ghost use Rattle.cal_text.specs.DateForms.{year_text, IsPrintableYear};
ghost use Rattle.cal_text.specs.Shape.{Scans, ParsesDigits, Digits, SomeDigits, ZeroAndThree, YearAfterPlus, YearAfterMinus, Year};

use crate::digits::scan_more_digits;
use crate::scanner::Scanner;

/// Parses a year and the hyphen after it.
pub(crate) fn scan_year(scanner: &mut Scanner) -> Option<i32>
    ensures scans { Scans Year scanner.old.rest.now scanner.new.rest.now result }
    ensures value { IfSome result (λ y.
        IsPrintableYear y × (scanner.old.rest.now ≡ year_text y ++ 45 ∷ scanner.new.rest.now)) }
{
    if let Some(()) = scanner.byte(b'+') {
        let number = scan_year_above_9999(scanner)?;
        return Some(number as i32);
    }
    match scanner.byte(b'-') {
        Some(()) => {
            let number = scan_positive_year(scanner)?;
            Some(-(number as i32))
        }
        None => {
            let number = scanner.four_digits()?;
            scanner.byte(b'-')?;
            Some(number as i32)
        }
    }
}

/// Parses a number of five to nine digits without leading zeros, and the hyphen after it.
fn scan_year_above_9999(scanner: &mut Scanner) -> Option<u32>
    ensures scans { Scans YearAfterPlus scanner.old.rest.now scanner.new.rest.now result }
    ensures value { IfSome result (λ n. (9999 < n) × (n < 10 ^ 9)
        × (scanner.old.rest.now ≡ digits_at_least 4 n ++ 45 ∷ scanner.new.rest.now)) }
{
    let first = scanner.digit_from_1()?;
    let four = scanner.four_digits()?;
    let number = scan_more_digits(scanner, u64::from(first * 10_000 + four), 4);
    scanner.byte(b'-')?;
    Some(number as u32)
}

/// Parses a number above 0 of four digits, or like `scan_year_above_9999`, and the hyphen after it.
fn scan_positive_year(scanner: &mut Scanner) -> Option<u32>
    ensures scans { Scans YearAfterMinus scanner.old.rest.now scanner.new.rest.now result }
    ensures value { IfSome result (λ n. (0 < n) × (n < 10 ^ 9)
        × (scanner.old.rest.now ≡ digits_at_least 4 n ++ 45 ∷ scanner.new.rest.now)) }
{
    match scanner.digit_from_1() {
        Some(first) => {
            let three = scanner.three_digits()?;
            let number = scan_more_digits(scanner, u64::from(first * 1000 + three), 5);
            scanner.byte(b'-')?;
            Some(number as u32)
        }
        None => {
            let number = scan_zero_and_three(scanner)?;
            scanner.byte(b'-')?;
            Some(number)
        }
    }
}

/// Parses a zero and three digits that are not all 0.
fn scan_zero_and_three(scanner: &mut Scanner) -> Option<u32>
    ensures scans { Scans ZeroAndThree scanner.old.rest.now scanner.new.rest.now result }
    ensures value { IfSome result (λ n.
        ParsesDigits scanner.old.rest.now scanner.new.rest.now 4 n) }
    ensures range { IfSome result (λ n. (0 < n) × (n < 1000)) }
{
    scanner.byte(b'0')?;
    let number = scan_some_of_three(scanner)?;
    Some(number)
}

/// Parses three digits that are not all 0.
fn scan_some_of_three(scanner: &mut Scanner) -> Option<u32>
    ensures scans { Scans (SomeDigits 2) scanner.old.rest.now scanner.new.rest.now result }
    ensures value { IfSome result (λ n.
        ParsesDigits scanner.old.rest.now scanner.new.rest.now 3 n) }
    ensures range { IfSome result (λ n. (0 < n) × (n < 1000)) }
{
    match scanner.digit_from_1() {
        Some(first) => {
            let second = scanner.digit()?;
            let last = scanner.digit()?;
            Some((first * 10 + second) * 10 + last)
        }
        None => {
            scanner.byte(b'0')?;
            let others = scan_some_of_two(scanner)?;
            Some(others)
        }
    }
}

/// Parses two digits that are not both 0.
fn scan_some_of_two(scanner: &mut Scanner) -> Option<u32>
    ensures scans { Scans (SomeDigits 1) scanner.old.rest.now scanner.new.rest.now result }
    ensures value { IfSome result (λ n.
        ParsesDigits scanner.old.rest.now scanner.new.rest.now 2 n) }
    ensures range { IfSome result (λ n. (0 < n) × (n < 100)) }
{
    match scanner.digit_from_1() {
        Some(first) => {
            let last = scanner.digit()?;
            Some(first * 10 + last)
        }
        None => {
            scanner.byte(b'0')?;
            let last = scanner.digit_from_1()?;
            Some(last)
        }
    }
}
