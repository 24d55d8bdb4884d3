//! Parsing the numbers of a moment.
ghost use Rattle.std.specs.Prelude.{◌≡◌, ◌⊎◌, ℕ, List, ◌<◌, ◌≤◌, ◌∷◌, ◌++◌, length, IfSome, IsTrue, ◌↔◌};
ghost use Rattle.cal_text.specs.declared.rfc3339.numbers.Numbers.{Numbers};
ghost use Rattle.cal_text.specs.declared.rfc3339.numbers.TimeOffset.{TimeOffset};
ghost use Rattle.cal_text.specs.Rfc3339Form.{IsSeparator, IsTimeOffset, HasFractionBefore, HasMomentForm};
ghost use Rattle.cal_text.specs.Shape.{Scans, ScansWhole, ScansLarge, Separator, Fraction, time_offset, moment};

use crate::fraction::scan_fraction;
use crate::rfc3339::numbers::{Numbers, TimeOffset};
use crate::scanner::Scanner;

/// Parses the numbers of a moment up to the end of the text.
#[inline(always)]
pub(super) fn scan_numbers(scanner: &mut Scanner) -> Option<Numbers>
    ensures scans { ScansLarge moment scanner.old.rest.now scanner.new.rest.now result }
    ensures value { IfSome result (HasMomentForm scanner.old.rest.now) }
{
    let year = scanner.four_digits()?;
    let (month, day) = scanner.two_numbers(b'-')?;
    scan_separator(scanner)?;
    let hour = scanner.two_digits()?;
    let (minute, second) = scanner.two_numbers(b':')?;
    let (nanosecond, offset) = scan_fraction_and_offset(scanner)?;
    Some(Numbers {
        year: year as u16,
        month,
        day,
        hour: hour as u8,
        minute,
        second,
        nanosecond,
        offset,
    })
}

/// Parses the byte between a date and a time of day: `T`, `t` or a space. Returns `None` if another
/// byte or the end comes next.
#[inline(always)]
pub fn scan_separator(scanner: &mut Scanner) -> Option<()>
    ensures scans { Scans Separator scanner.old.rest.now scanner.new.rest.now result }
    ensures value { IfSome result (λ _.
        (b : ℕ) × IsSeparator b × (scanner.old.rest.now ≡ b ∷ scanner.new.rest.now)) }
{
    match scanner.byte(b'T') {
        Some(()) => Some(()),
        None => match scanner.byte(b't') {
            Some(()) => Some(()),
            None => {
                scanner.byte(b' ')?;
                Some(())
            }
        },
    }
}

pub(crate) fn is_separator(byte: u8) -> bool
    ensures { IsTrue result ↔ IsSeparator byte }
{
    byte == b'T' || byte == b't' || byte == b' '
}

/// Parses the fraction of a second, of any length, and the offset.
#[inline(always)]
fn scan_fraction_and_offset(scanner: &mut Scanner) -> Option<(u32, TimeOffset)>
    ensures scans { ScansLarge (λ more. Fraction more time_offset) scanner.old.rest.now
        scanner.new.rest.now result }
    ensures value { IfSome result (λ found.
        (offset : List ℕ) × HasFractionBefore offset
        (length scanner.old.rest.now) scanner.old.rest.now found.0 × IsTimeOffset offset found.1) }
{
    let most = scanner.rest.len();
    let nanosecond = scan_fraction(scanner, most)?;
    let offset = scan_time_offset(scanner)?;
    Some((nanosecond, offset))
}

/// Parses an offset up to the end of the text.
#[inline(always)]
fn scan_time_offset(scanner: &mut Scanner) -> Option<TimeOffset>
    ensures scans { ScansWhole time_offset scanner.old.rest.now scanner.new.rest.now result }
    ensures value { IfSome result (IsTimeOffset scanner.old.rest.now) }
{
    match scanner.byte(b'Z') {
        Some(()) => {
            scanner.end()?;
            Some(TimeOffset::Utc)
        }
        None => match scanner.byte(b'z') {
            Some(()) => {
                scanner.end()?;
                Some(TimeOffset::Utc)
            }
            None => {
                let is_west = scanner.sign()?;
                let hours = scanner.two_digits()?;
                scanner.byte(b':')?;
                let minutes = scanner.two_digits()?;
                scanner.end()?;
                Some(TimeOffset::Signed(is_west, hours as u8, minutes as u8))
            }
        },
    }
}
