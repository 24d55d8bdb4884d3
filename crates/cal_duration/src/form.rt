//! Parsing the numbers of a duration.
ghost use Rattle.std.specs.Prelude.{◌≡◌, ◌≤◌, ◌++◌, ℕ, List, IfSome, length, replicate};
ghost use Rattle.cal_text.specs.Shape.{GoesPast, Scans};
ghost use Rattle.cal_duration.specs.Form.{HasBody, HasDurationForm, HasPeriodForm, HasTime, HasTimeOrNone, IsNumber, IsSecondsEnd};
ghost use Rattle.cal_duration.specs.PartsRead.{PartsRead};
ghost use Rattle.cal_duration.specs.DurationShape.{Body, Date, Duration, OrTime, Period, ScansAfter, ScansPart, ScansToEnd, SecondsEnd, Time};

use crate::digits::{scan_decimals, scan_number};
use crate::numbers::{DateNumbers, Numbers, TimeNumbers};
use cal_text::Scanner;

/// Parses the numbers of a period up to the end of the text.
pub(crate) fn scan_period(scanner: &mut Scanner) -> Option<Numbers>
    ensures scans { ScansToEnd Period scanner.old.rest.now scanner.new.rest.now result }
    ensures value { IfSome result (HasPeriodForm scanner.old.rest.now) }
{
    let sign = scanner.byte(b'-');
    scanner.byte(b'P')?;
    let (date, time) = scan_body(scanner)?;
    scanner.end()?;
    Some(Numbers {
        is_negative: sign.is_some(),
        date,
        time,
    })
}

/// Parses the numbers of an exact duration up to the end of the text.
pub(crate) fn scan_duration(scanner: &mut Scanner) -> Option<Numbers>
    ensures scans { ScansToEnd Duration scanner.old.rest.now scanner.new.rest.now result }
    ensures value { IfSome result (HasDurationForm scanner.old.rest.now) }
{
    let sign = scanner.byte(b'-');
    scanner.byte(b'P')?;
    scanner.byte(b'T')?;
    let time = scan_time(scanner)?;
    scanner.end()?;
    Some(Numbers {
        is_negative: sign.is_some(),
        date: DateNumbers::NONE,
        time,
    })
}

/// Parses what follows the letter P of a period: a date, a time or both.
pub fn scan_body(scanner: &mut Scanner) -> Option<(DateNumbers, TimeNumbers)>
    ensures scans { ScansPart Body scanner.old.rest.now scanner.new.rest.now result }
    ensures value { IfSome result (λ m.
        GoesPast (λ bytes. HasBody bytes m.0 m.1) scanner.old.rest.now scanner.new.rest.now) }
{
    match scanner.byte(b'T') {
        Some(()) => {
            let time = scan_time(scanner)?;
            Some((DateNumbers::NONE, time))
        }
        None => scan_date(scanner),
    }
}

/// Parses years, months, weeks and days, at least one of them, and a time, which may be left out.
fn scan_date(scanner: &mut Scanner) -> Option<(DateNumbers, TimeNumbers)>
    ensures scans { ScansPart (λ more f. Date more (OrTime more f))
        scanner.old.rest.now scanner.new.rest.now result }
    ensures value { IfSome result (λ m.
        GoesPast (λ bytes. HasBody bytes m.0 m.1) scanner.old.rest.now scanner.new.rest.now) }
{
    let first = scan_number(scanner)?;
    let mut numbers = [0; 3];
    match scan_parts(scanner, first, b"YMW", &mut numbers) {
        Some(days) => {
            scanner.byte(b'D')?;
            let time = scan_or_time(scanner)?;
            Some((DateNumbers::new(numbers, days), time))
        }
        None => {
            let time = scan_or_time(scanner)?;
            Some((DateNumbers::new(numbers, 0), time))
        }
    }
}

/// Parses T and a time. Without the T it parses nothing.
fn scan_or_time(scanner: &mut Scanner) -> Option<TimeNumbers>
    ensures scans { ScansPart OrTime scanner.old.rest.now scanner.new.rest.now result }
    ensures value { IfSome result (λ t.
        GoesPast (λ bytes. HasTimeOrNone bytes t) scanner.old.rest.now scanner.new.rest.now) }
{
    match scanner.byte(b'T') {
        Some(()) => {
            let time = scan_time(scanner)?;
            Some(time)
        }
        None => Some(TimeNumbers::new([0; 2], 0, 0)),
    }
}

/// Parses hours, minutes and seconds, at least one of them.
fn scan_time(scanner: &mut Scanner) -> Option<TimeNumbers>
    ensures scans { ScansPart Time scanner.old.rest.now scanner.new.rest.now result }
    ensures value { IfSome result (λ t.
        GoesPast (λ bytes. HasTime bytes t) scanner.old.rest.now scanner.new.rest.now) }
{
    let first = scan_number(scanner)?;
    let mut numbers = [0; 2];
    match scan_parts(scanner, first, b"HM", &mut numbers) {
        Some(seconds) => {
            let nanoseconds = scan_seconds_end(scanner)?;
            Some(TimeNumbers::new(numbers, seconds, nanoseconds))
        }
        None => Some(TimeNumbers::new(numbers, 0, 0)),
    }
}

/// Parses the letter of a number, if it is one of `letters`, and further numbers with their letters
/// in this order. Writes each number at the place of its letter. Returns the last number if another
/// letter has to follow it.
fn scan_parts(scanner: &mut Scanner, first: u64, letters: &[u8], numbers: &mut [u64]) -> Option<u64>
    requires { numbers.old ≡ replicate (length letters.now) 0 }
    ensures scans { ScansAfter letters.now scanner.old.rest.now scanner.new.rest.now result }
    ensures value { (digits : List ℕ) → IsNumber digits first
        → PartsRead letters.now numbers.new result
        (digits ++ scanner.old.rest.now) scanner.new.rest.now }
    ensures shorter { length scanner.new.rest.now ≤ length scanner.old.rest.now }
{
    let mut number = first;
    for (i, letter) in letters.iter().enumerate() {
        if scanner.byte(*letter).is_some() {
            numbers[i] = number;
            number = scan_number(scanner)?;
        }
    }
    Some(number)
}

/// Parses a fraction, which may be left out, and the letter S. Returns the nanoseconds.
fn scan_seconds_end(scanner: &mut Scanner) -> Option<u32>
    ensures scans { Scans SecondsEnd scanner.old.rest.now scanner.new.rest.now result }
    ensures value { IfSome result (λ n.
        GoesPast (λ bytes. IsSecondsEnd bytes n) scanner.old.rest.now scanner.new.rest.now) }
{
    match scanner.byte(b'.') {
        Some(()) => scan_decimals(scanner),
        None => match scanner.byte(b',') {
            Some(()) => scan_decimals(scanner),
            None => {
                scanner.byte(b'S')?;
                Some(0)
            }
        },
    }
}
