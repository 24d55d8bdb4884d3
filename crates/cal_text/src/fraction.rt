//! Fractions of a second: a point and digits.
ghost use Rattle.std.specs.Prelude.{◌≡◌, ◌+◌, ◌*◌, IfSome, ◌<◌, ◌≤◌, ◌++◌, length};
ghost use Rattle.cal_time.specs.ShortText.{HasRoom};
ghost use Rattle.cal_text.specs.Rfc3339.{fraction_text};
ghost use Rattle.cal_text.specs.Shape.{Shape, unmatched_bytes, Scans, ParsesDecimals, ParsesPositiveDecimals, UpTo, SomeUpTo, Fraction};
ghost use Rattle.cal_text.specs.Rfc3339Form.{HasFractionBefore};

use crate::scanner::Scanner;
use cal_time::ShortText;

/// Appends a fraction of a second, given in nanoseconds, or nothing for 0. For 250 million it
/// appends `.25`.
#[tactic(auto, using(cal_time::proofs::TextLengths::text_lengths))]
pub fn push_fraction(text: &mut ShortText, nanosecond: u32)
    requires room { HasRoom 10 text.old }
    requires range { nanosecond < 1_000_000_000 }
    ensures appended { text.new ≡ text.old ++ fraction_text nanosecond }
    ensures max_length { length text.new ≤ length text.old + 10 }
{
    if nanosecond == 0 {
        return;
    }
    text.push(".");
    text.push_decimals(nanosecond);
}

/// Parses a fraction of a second of up to `more + 1` digits, and returns its nanoseconds. Without a
/// point it is 0. Digits after the ninth are ignored.
#[inline(always)]
pub(crate) fn scan_fraction(scanner: &mut Scanner, more: usize) -> Option<u32>
    ensures scans { Scans (Fraction more) scanner.old.rest.now scanner.new.rest.now result }
    ensures value { IfSome result
        (HasFractionBefore scanner.new.rest.now more scanner.old.rest.now) }
{
    match scanner.byte(b'.') {
        Some(()) => {
            let first = scanner.digit()?;
            Some(scan_more_decimals(scanner, first * 100_000_000, 10_000_000, more))
        }
        None => Some(0),
    }
}

/// Parses up to `more + 1` digits of a fraction that are not all 0, and returns their nanoseconds.
/// The first digit counts `unit` nanoseconds.
pub(crate) fn scan_positive_decimals(scanner: &mut Scanner, unit: u32, more: usize) -> Option<u32>
    requires { unit ≤ 100_000_000 }
    ensures scans { Scans (SomeUpTo more) scanner.old.rest.now scanner.new.rest.now result }
    ensures value { IfSome result (ParsesPositiveDecimals scanner.old.rest.now scanner.new.rest.now more
        unit) }
{
    match scanner.digit_from_1() {
        Some(first) => {
            let nanosecond = first * unit;
            Some(scan_more_decimals(scanner, nanosecond, unit / 10, more))
        }
        None => {
            if more == 0 {
                return None;
            }
            scanner.byte(b'0')?;
            scan_positive_decimals(scanner, unit / 10, more - 1)
        }
    }
}

/// Parses up to `most` further digits of a fraction and adds them to `nanosecond`. The first digit
/// counts `unit` nanoseconds, each later digit a tenth of the digit before it.
pub fn scan_more_decimals(scanner: &mut Scanner, nanosecond: u32, unit: u32, most: usize) -> u32
    requires { nanosecond + 10 * unit ≤ 1_000_000_000 }
    ensures scans { (f : Shape) → unmatched_bytes (UpTo most f) scanner.old.rest.now
        ≡ unmatched_bytes f scanner.new.rest.now }
    ensures value { ParsesDecimals scanner.old.rest.now scanner.new.rest.now most unit nanosecond
        result }
{
    let mut nanosecond = nanosecond;
    let mut unit = unit;
    for _ in 0..most {
        match scanner.digit() {
            Some(digit) => {
                nanosecond += digit * unit;
                unit /= 10;
            }
            None => return nanosecond,
        }
    }
    nanosecond
}
