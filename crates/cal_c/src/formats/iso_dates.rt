//! Dates by the formats `%Y-%m-%d` and `%G-W%V-%u`, which take less time than other formats.
ghost use Rattle.std.specs.Prelude.{◌≡◌, ◌<◌, ◌≤◌, ◌*◌, IfSome, IsTrue, length, pos};
ghost use Rattle.cal_time.specs.Digits.{two_digits};
ghost use Rattle.cal_time.specs.DateText.{text};
ghost use Rattle.cal_format.specs.Laws.{iso_items};
ghost use Rattle.cal_format.specs.Moment.{moment_of_date};
ghost use Rattle.cal_format.specs.Scanning.{AreHeld, IsOneDate};
ghost use Rattle.cal_format.specs.declared.item.Item.TheVariants.{Literal, Number};
ghost use Rattle.cal_format.specs.declared.item.Padding.TheVariants.{Zero};
ghost use Rattle.cal_c.specs.OnePass.{IsFormatOf, IsItemOf, PrintsItems, week_items};

use super::format_parts::{FormatItem, FormatParts};
use super::items::item_parts;
use super::one_pass::print_at_once;
use cal_format::{Component, Item, Moment, Padding};
use cal_text::{DateNumbers, Scanner, date, date_from_numbers};
use cal_time::Date;

/// The number of items of `%Y-%m-%d`.
const ITEMS: usize = 5;

/// The number of items of `%G-W%V-%u`.
const WEEK_ITEMS: usize = 6;

/// The length of the string of a date of the years 0 to 9999.
const LENGTH: usize = 10;

/// Returns `true` if the numbers are the format `%Y-%m-%d`.
#[inline(always)]
pub(crate) fn is_iso(format: &FormatParts) -> bool
    ensures { IsTrue result → IsFormatOf format.now (λ items. items ≡ iso_items) }
{
    let Some(parts) = format.parts() else {
        return false;
    };
    if parts.len() != ITEMS {
        return false;
    }
    if !is_byte(parts[1], b'-') || !is_byte(parts[3], b'-') {
        return false;
    }
    if !is_number(parts[0], Component::Year) || !is_number(parts[2], Component::Month) {
        return false;
    }
    is_number(parts[4], Component::Day)
}

/// Returns `true` if the numbers are the format `%G-W%V-%u`.
#[inline(always)]
pub(crate) fn is_iso_week(format: &FormatParts) -> bool
    ensures { IsTrue result → IsFormatOf format.now (λ items. items ≡ week_items) }
{
    let Some(parts) = format.parts() else {
        return false;
    };
    if parts.len() != WEEK_ITEMS {
        return false;
    }
    if !is_byte(parts[1], b'-') || !is_byte(parts[4], b'-') {
        return false;
    }
    if !is_byte(parts[2], b'W') || !is_number(parts[0], Component::IsoYear) {
        return false;
    }
    if !is_number(parts[3], Component::IsoWeek) {
        return false;
    }
    is_number(parts[5], Component::Weekday)
}

/// Returns `true` if the numbers are this component, padded with zeros.
#[inline(always)]
pub(super) fn is_number(part: FormatItem, component: Component) -> bool
    ensures { IsTrue result → IsItemOf part (λ item. item ≡ Number component Zero) }
{
    part == item_parts(Item::Number(component, Padding::Zero))
}

#[inline(always)]
pub(super) fn is_byte(part: FormatItem, byte: u8) -> bool
    ensures { IsTrue result → IsItemOf part (λ item. item ≡ Literal byte) }
{
    part == item_parts(Item::Literal(byte))
}

/// Writes a date to the front of a buffer like `print_at_once`.
pub(crate) fn print_date_at_once(
    date: Date,
    format: &FormatParts,
    buffer: &mut [u8],
) -> Option<usize>
    ensures value { IfSome result (λ end. IsFormatOf format.now
        (PrintsItems 0 14 (moment_of_date date) buffer.old buffer.new 0 end)) }
    ensures fits { IfSome result (λ end. end ≤ length buffer.old) }
    ensures few { IfSome result (λ _. format.now.length ≤ 64) }
    ensures max_length { IfSome result (λ end. end ≤ format.now.length * 15) }
{
    if is_iso(format) && buffer.len() >= LENGTH {
        if let Some(text) = usual_text(date) {
            buffer[..LENGTH].copy_from_slice(&text);
            return Some(LENGTH);
        }
    }
    // This call states that the date is in its range. It costs nothing.
    let _ = date.to_julian_day();
    print_at_once(&Moment::of_date(date), 0, 14, format, buffer)
}

/// Parses a date by `%Y-%m-%d`. Returns `None` for a string that isn't the string of a date of the
/// years 0 to 9999.
// Not inlined, so that other formats take no longer.
#[inline(never)]
pub(crate) fn parse_iso(text: &[u8]) -> Option<Date>
    ensures { IfSome result (λ n. IsOneDate iso_items n text.now) }
{
    let Ok(date) = date::parse(text) else {
        return None;
    };
    // The string may be an ordinal date or a week date.
    let own = usual_text(date)?;
    if own.as_slice() != text {
        return None;
    }
    Some(date)
}

/// Parses a date by `%G-W%V-%u`. Returns `None` for a string that isn't the string of a date of the
/// ISO years 0 to 9999.
#[inline(never)]
pub(crate) fn parse_iso_week(text: &[u8]) -> Option<Date>
    ensures { IfSome result (λ n. IsOneDate week_items n text.now) }
{
    let mut scanner = Scanner { rest: text };
    let year = scanner.four_digits()?;
    scanner.byte(b'-')?;
    scanner.byte(b'W')?;
    let week = scanner.two_digits()?;
    scanner.byte(b'-')?;
    let digit = scanner.byte_from(b'1', 6)?;
    scanner.end()?;
    let numbers = DateNumbers::Week(year as i32, week as u8, digit - b'0');
    let Ok(date) = date_from_numbers(numbers) else {
        return None;
    };
    Some(date)
}

/// Returns the string of a date of the years 0 to 9999, and `None` for another date.
#[inline(always)]
fn usual_text(date: Date) -> Option<[u8; LENGTH]>
    ensures value { IfSome result (λ bytes. bytes ≡ text date) }
    ensures held { IfSome result (λ _. AreHeld (moment_of_date date) iso_items) }
{
    let year = usual_year(date.year())?;
    let (index, day) = date.month_index_and_day();
    let [y, z] = two_digits(year / 100);
    let [c, d] = two_digits(year % 100);
    let [m, n] = two_digits(u32::from(index) + 1);
    let [e, f] = two_digits(u32::from(day));
    Some([y, z, c, d, b'-', m, n, b'-', e, f])
}

/// Returns a year from 0 to 9999, and `None` for another year.
#[inline(always)]
fn usual_year(year: i32) -> Option<u32>
    ensures { IfSome result (λ y. (year ≡ pos y) × (y ≤ 9_999)) }
{
    if year < 0 || year > 9_999 {
        return None;
    }
    Some(year.unsigned_abs())
}

/// Returns the two ASCII digits of a number below 100.
#[inline(always)]
fn two_digits(number: u32) -> [u8; 2]
    requires { number < 100 }
    ensures { result ≡ two_digits number }
{
    [b'0' + (number / 10) as u8, b'0' + (number % 10) as u8]
}
