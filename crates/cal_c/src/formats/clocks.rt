//! Times of day by the formats `%H:%M:%S` and `%H:%M`, which take less time than other formats.
ghost use Rattle.std.specs.Prelude.{◌≡◌, ◌<◌, ◌++◌, false, IfSome};
ghost use Rattle.cal_format.specs.Scanning.{IsOneTime};
ghost use Rattle.cal_c.specs.OnePass.{IsFormatOf, clock_items, second_text};

use super::format_parts::FormatParts;
use super::iso_dates::{is_byte, is_number};
use cal_format::Component;
use cal_text::{Scanner, TimeNumbers, time_from_numbers};
use cal_time::Time;

/// The number of items of `%H:%M:%S`.
const ITEMS: usize = 5;

/// The number of items of `%H:%M`.
const ITEMS_TO_MINUTE: usize = 3;

/// Returns whether the second is shown if the numbers are the format `%H:%M:%S` or `%H:%M`. Returns
/// `None` for other numbers.
#[inline(always)]
pub(crate) fn clock_of(format: &FormatParts) -> Option<bool>
    ensures { IfSome result (λ shows_second.
        IsFormatOf format.now (λ items. items ≡ clock_items shows_second)) }
{
    let parts = format.parts()?;
    if parts.len() < ITEMS_TO_MINUTE {
        return None;
    }
    if !is_number(parts[0], Component::Hour) || !is_byte(parts[1], b':') {
        return None;
    }
    if !is_number(parts[2], Component::Minute) {
        return None;
    }
    if parts.len() == ITEMS_TO_MINUTE {
        return Some(false);
    }
    if parts.len() != ITEMS {
        return None;
    }
    if !is_byte(parts[3], b':') || !is_number(parts[4], Component::Second) {
        return None;
    }
    Some(true)
}

/// Parses a time of day by `%H:%M:%S`, or by `%H:%M` if the second isn't shown. Returns `None` for a
/// string that isn't the string of a time of day.
#[inline(never)]
pub(crate) fn parse_clock(text: &[u8], shows_second: bool) -> Option<Time>
    ensures { IfSome result (λ t. IsOneTime (clock_items shows_second) t text.now) }
{
    let mut scanner = Scanner { rest: text };
    let hour = scanner.two_digits()?;
    scanner.byte(b':')?;
    let minute = scanner.two_digits()?;
    let second = scan_second(&mut scanner, shows_second)?;
    scanner.end()?;
    let numbers = TimeNumbers {
        hour: hour as u8,
        minute: minute as u8,
        second: second as u8,
        nanosecond: 0,
    };
    let Ok(time) = time_from_numbers(numbers) else {
        return None;
    };
    Some(time)
}

/// Parses a colon and the second, or nothing and returns 0 if it isn't shown.
#[inline(always)]
fn scan_second(scanner: &mut Scanner, is_shown: bool) -> Option<u32>
    ensures value { IfSome result (λ s.
        scanner.old.rest.now ≡ second_text is_shown s ++ scanner.new.rest.now) }
    ensures range { IfSome result (λ s. s < 100) }
    ensures zero { is_shown ≡ false → IfSome result (λ s. s ≡ 0) }
{
    if !is_shown {
        return Some(0);
    }
    scanner.byte(b':')?;
    let second = scanner.two_digits()?;
    Some(second)
}
