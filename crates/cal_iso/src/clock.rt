//! Parsing minutes and seconds after an hour, in a time of day or in an offset.
ghost use Rattle.std.specs.Prelude.{◌≡◌, ◌<◌, ◌∷◌, [], IfSome};
ghost use Rattle.cal_text.specs.Shape.{GoesPast};
ghost use Rattle.cal_iso.specs.ClockForm.{HasTail, IsAfterHour, IsSecondsOrNone};
ghost use Rattle.cal_iso.specs.IsoShape.{AfterHour, BasicSeconds, ColonAndSeconds, ScansLong, Tail};

use crate::fraction::scan_fraction;
use cal_text::Scanner;

/// The minutes and seconds after an hour, and the nanoseconds past the seconds.
#[derive(Clone, Copy)]
pub(crate) struct AfterHourNumbers {
    pub(crate) minute: u8,
    pub(crate) second: u8,
    pub(crate) nanosecond: u32,
}

/// Parses minutes and seconds in the extended or in the basic format, or nothing. Only a time of day
/// has a fraction.
pub(crate) fn scan_after_hour(scanner: &mut Scanner, has_fraction: bool) -> Option<AfterHourNumbers>
    ensures scans { ScansLong (λ k. AfterHour (Tail k has_fraction))
        scanner.old.rest.now scanner.new.rest.now result }
    ensures value { IfSome result (λ t. GoesPast
        (λ bytes. IsAfterHour (HasTail has_fraction) bytes t.minute t.second t.nanosecond)
        scanner.old.rest.now scanner.new.rest.now) }
{
    if let Some(()) = scanner.byte(b':') {
        let minute = scanner.two_digits()?;
        let (second, nanosecond) = scan_colon_and_seconds(scanner, has_fraction)?;
        return Some(AfterHourNumbers {
            minute: minute as u8,
            second: second as u8,
            nanosecond,
        });
    }
    match scanner.digit() {
        Some(tens) => {
            let ones = scanner.digit()?;
            let (second, nanosecond) = scan_basic_seconds(scanner, has_fraction)?;
            Some(AfterHourNumbers {
                minute: (tens * 10 + ones) as u8,
                second: second as u8,
                nanosecond,
            })
        }
        None => Some(AfterHourNumbers {
            minute: 0,
            second: 0,
            nanosecond: 0,
        }),
    }
}

/// Parses a colon, seconds and perhaps a fraction, or nothing.
fn scan_colon_and_seconds(scanner: &mut Scanner, has_fraction: bool) -> Option<(u32, u32)>
    ensures scans { ScansLong (λ k. ColonAndSeconds (Tail k has_fraction))
        scanner.old.rest.now scanner.new.rest.now result }
    ensures value { IfSome result (λ t. GoesPast
        (λ bytes. IsSecondsOrNone (HasTail has_fraction) (58 ∷ []) bytes t.0 t.1)
        scanner.old.rest.now scanner.new.rest.now) }
    ensures range { IfSome result (λ t. t.0 < 100) }
{
    match scanner.byte(b':') {
        Some(()) => {
            let second = scanner.two_digits()?;
            let nanosecond = scan_tail(scanner, has_fraction)?;
            Some((second, nanosecond))
        }
        None => Some((0, 0)),
    }
}

/// Parses seconds and perhaps a fraction in the basic format, or nothing.
fn scan_basic_seconds(scanner: &mut Scanner, has_fraction: bool) -> Option<(u32, u32)>
    ensures scans { ScansLong (λ k. BasicSeconds (Tail k has_fraction))
        scanner.old.rest.now scanner.new.rest.now result }
    ensures value { IfSome result (λ t. GoesPast
        (λ bytes. IsSecondsOrNone (HasTail has_fraction) [] bytes t.0 t.1)
        scanner.old.rest.now scanner.new.rest.now) }
    ensures range { IfSome result (λ t. t.0 < 100) }
{
    match scanner.digit() {
        Some(tens) => {
            let ones = scanner.digit()?;
            let nanosecond = scan_tail(scanner, has_fraction)?;
            Some((tens * 10 + ones, nanosecond))
        }
        None => Some((0, 0)),
    }
}

/// Parses a fraction if the seconds can have one. Returns its nanoseconds.
fn scan_tail(scanner: &mut Scanner, has_fraction: bool) -> Option<u32>
    ensures scans { ScansLong (λ k. Tail k has_fraction)
        scanner.old.rest.now scanner.new.rest.now result }
    ensures value { IfSome result (λ n.
        GoesPast (λ bytes. HasTail has_fraction bytes n) scanner.old.rest.now scanner.new.rest.now) }
{
    if has_fraction {
        scan_fraction(scanner)
    } else {
        Some(0)
    }
}
