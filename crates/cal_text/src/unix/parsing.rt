//! Parsing Unix times.
ghost use Rattle.std.specs.Prelude.{◌≡◌, pos, neg_ℤ, ◌+◌, ◌*◌, ◌<◌, IfSome};
ghost use Rattle.cal_time.specs.SignedDuration.{second};
ghost use Rattle.cal_text.specs.Shape.{ScansWhole, unix_time, seconds, seconds_above_0, from_one};
ghost use Rattle.cal_text.specs.UnixText.{HasUnixForm, HasSeconds};

use crate::digits::scan_positive_number;
use crate::fraction::{scan_fraction, scan_positive_decimals};
use crate::scanner::Scanner;

const NANOSECONDS_PER_SECOND: i128 = 1_000_000_000;

/// Parses a Unix time up to the end of the text, and returns its nanoseconds.
pub(super) fn scan_unix_time(scanner: &mut Scanner) -> Option<i128>
    ensures scans { ScansWhole unix_time scanner.old.rest.now scanner.new.rest.now result }
    ensures value { IfSome result (HasUnixForm scanner.old.rest.now) }
{
    scanner.byte(b'@')?;
    match scanner.byte(b'-') {
        Some(()) => {
            let (seconds, nanosecond) = scan_positive_seconds(scanner)?;
            Some(negated_nanoseconds(seconds, nanosecond))
        }
        None => {
            let (seconds, nanosecond) = scan_seconds(scanner)?;
            Some(total_nanoseconds(seconds, nanosecond))
        }
    }
}

/// Returns the nanoseconds of a negative time from its magnitude.
fn negated_nanoseconds(seconds: u64, nanosecond: u32) -> i128
    ensures { result ≡ neg_ℤ (pos (seconds * second + nanosecond)) }
{
    -total_nanoseconds(seconds, nanosecond)
}

/// Returns the nanoseconds of a time.
fn total_nanoseconds(seconds: u64, nanosecond: u32) -> i128
    ensures { result ≡ pos (seconds * second + nanosecond) }
{
    i128::from(seconds) * NANOSECONDS_PER_SECOND + i128::from(nanosecond)
}

/// Parses at most 18 digits of seconds and a fraction of at most nine digits, up to the end.
fn scan_seconds(scanner: &mut Scanner) -> Option<(u64, u32)>
    ensures scans { ScansWhole seconds scanner.old.rest.now scanner.new.rest.now result }
    ensures value { IfSome result (λ found. HasSeconds scanner.old.rest.now found.0 found.1) }
{
    match scanner.byte(b'0') {
        Some(()) => {
            let nanosecond = scan_fraction(scanner, 8)?;
            scanner.end()?;
            Some((0, nanosecond))
        }
        None => scan_seconds_from_1(scanner),
    }
}

/// Parses seconds and a fraction that are not both 0, up to the end.
fn scan_positive_seconds(scanner: &mut Scanner) -> Option<(u64, u32)>
    ensures scans { ScansWhole seconds_above_0 scanner.old.rest.now scanner.new.rest.now result }
    ensures value { IfSome result (λ found. HasSeconds scanner.old.rest.now found.0 found.1) }
    ensures found { IfSome result (λ found. 0 < found.0 + found.1) }
{
    match scanner.byte(b'0') {
        Some(()) => {
            scanner.byte(b'.')?;
            let nanosecond = scan_positive_decimals(scanner, 100_000_000, 8)?;
            scanner.end()?;
            Some((0, nanosecond))
        }
        None => scan_seconds_from_1(scanner),
    }
}

/// Parses one second or more and a fraction, up to the end.
fn scan_seconds_from_1(scanner: &mut Scanner) -> Option<(u64, u32)>
    ensures scans { ScansWhole from_one scanner.old.rest.now scanner.new.rest.now result }
    ensures value { IfSome result (λ found. HasSeconds scanner.old.rest.now found.0 found.1) }
    ensures found { IfSome result (λ found. 0 < found.0) }
{
    let seconds = scan_positive_number(scanner, 17)?;
    let nanosecond = scan_fraction(scanner, 8)?;
    scanner.end()?;
    Some((seconds, nanosecond))
}
