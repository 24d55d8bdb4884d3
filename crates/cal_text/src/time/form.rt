//! Parsing the numbers of a time of day.
ghost use Rattle.std.specs.Prelude.{◌<◌, IfSome};
ghost use Rattle.cal_text.specs.Shape.{Scans, ScansWhole, GoesPast, Hour, AfterMinute, Time, time};
ghost use Rattle.cal_text.specs.TimeForm.{IsHour, IsAfterMinute, HasTimeForm};

use crate::fraction::scan_fraction;
use crate::scanner::Scanner;
use crate::time::numbers::TimeNumbers;

/// Parses the numbers of a time of day up to the end of the text.
pub(crate) fn scan_whole_time(scanner: &mut Scanner) -> Option<TimeNumbers>
    ensures scans { ScansWhole time scanner.old.rest.now scanner.new.rest.now result }
    ensures value { IfSome result (HasTimeForm scanner.old.rest.now) }
{
    let numbers = scan_time(scanner)?;
    scanner.end()?;
    Some(numbers)
}

/// Parses the numbers of a time of day.
pub(crate) fn scan_time(scanner: &mut Scanner) -> Option<TimeNumbers>
    ensures scans { Scans Time scanner.old.rest.now scanner.new.rest.now result }
    ensures value { IfSome result (λ t.
        GoesPast (λ bytes. HasTimeForm bytes t) scanner.old.rest.now scanner.new.rest.now) }
{
    let hour = scan_hour(scanner)?;
    scanner.byte(b':')?;
    let minute = scanner.two_digits()?;
    let (second, nanosecond) = scan_after_minute(scanner)?;
    Some(TimeNumbers {
        hour: hour as u8,
        minute: minute as u8,
        second: second as u8,
        nanosecond,
    })
}

/// Parses one or two digits.
fn scan_hour(scanner: &mut Scanner) -> Option<u32>
    ensures scans { Scans Hour scanner.old.rest.now scanner.new.rest.now result }
    ensures value { IfSome result (λ hour.
        GoesPast (λ bytes. IsHour bytes hour) scanner.old.rest.now scanner.new.rest.now) }
    ensures range { IfSome result (λ hour. hour < 100) }
{
    let first = scanner.digit()?;
    match scanner.digit() {
        Some(second) => Some(first * 10 + second),
        None => Some(first),
    }
}

/// Parses the second and its nanoseconds. Both are 0 if no colon comes next.
fn scan_after_minute(scanner: &mut Scanner) -> Option<(u32, u32)>
    ensures scans { Scans AfterMinute scanner.old.rest.now scanner.new.rest.now result }
    ensures value { IfSome result (λ found.
        GoesPast (λ bytes. IsAfterMinute bytes found.0 found.1)
        scanner.old.rest.now scanner.new.rest.now) }
    ensures range { IfSome result (λ found. found.0 < 100) }
{
    match scanner.byte(b':') {
        Some(()) => {
            let second = scanner.two_digits()?;
            let nanosecond = scan_fraction(scanner, 8)?;
            Some((second, nanosecond))
        }
        None => Some((0, 0)),
    }
}
