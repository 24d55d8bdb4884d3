//! Columns of dates in the strings of a format.
ghost use Rattle.std.specs.Prelude.{◌≡◌, ◌+◌, ◌≤◌, ◌*◌, IsTrue, length, take, pos};
ghost use Rattle.cal_format.specs.Moment.{moment_of_date};
ghost use Rattle.cal_format.specs.Reading.{are_date_items};
ghost use Rattle.cal_format.specs.Text.{text_of};
ghost use Rattle.cal_c.specs.Columns.{date_row, int_at, nat_at, AreRows};
ghost use Rattle.cal_c.specs.FormatColumns.{IsDateByFormat, IsDateByFormatRow, IsTextByFormatRow, room_for_text};
ghost use Rattle.cal_c.specs.TextColumns.{ArePrinted, HasRoomFor};
ghost use Rattle.cal_c.specs.Values.{need◌else◌then◌};

use super::formatting::{has_room, put};
use super::parsing::{are_bounds, bytes_between};
use crate::columns::statuses::byte_status;
use crate::columns::{LENGTH_MISMATCH, NO_VALUE, count_errors};
use crate::formats::format_parts::FormatParts;
use crate::formats::iso_dates::print_date_at_once;
use crate::formats::parsing::fots_date_parse_format;
use crate::formats::printing::MAX_LENGTH;
use crate::status::{INVALID_BOUNDS, INVALID_DATE, INVALID_FORMAT, OK, UNSUPPORTED_ITEM};
use crate::values::valid_date;
use cal_format::Format;
use cal_time::Date;

/// Parses dates, like `fots_date_parse_format`.
#[unsafe(no_mangle)]
pub extern "C" fn fots_dates_parse_format(
    bytes: &[u8],
    bounds: &[i32],
    format: &FormatParts,
    dates: &mut [i32],
    statuses: &mut [u8],
) -> usize
    ensures { need (length bounds.now ≡ length dates.old + 1) × (length statuses.old ≡ length dates.old)
        else (result ≡ usize.MAX) × (dates.new ≡ dates.old) × (statuses.new ≡ statuses.old) then
        AreRows statuses.new result (λ k. IsDateByFormatRow format.now bytes.now (int_at bounds.now k)
        (int_at bounds.now (k + 1)) (date_row (int_at dates.new k) (nat_at statuses.new k))) }
{
    let rows = dates.len();
    if !are_bounds(bounds, rows) || statuses.len() != rows {
        return LENGTH_MISMATCH;
    }
    for row in 0..rows {
        (dates[row], statuses[row]) = parse_date_between(
            bytes,
            bounds[row],
            bounds[row + 1],
            format,
        );
    }
    count_errors(statuses)
}

/// Returns the row of the date between two bounds.
fn parse_date_between(bytes: &[u8], from: i32, to: i32, format: &FormatParts) -> (i32, u8)
    ensures { IsDateByFormatRow format.now bytes.now from to (date_row result.0 result.1) }
{
    match bytes_between(bytes, from, to) {
        Some(text) => parse_date_row(text, format),
        None => (NO_VALUE, INVALID_BOUNDS as u8),
    }
}

/// Returns the row of a date in text.
fn parse_date_row(text: &[u8], format: &FormatParts) -> (i32, u8)
    ensures { IsDateByFormat format.now text.now (date_row result.0 result.1) }
{
    let read = fots_date_parse_format(text, format);
    (read.date, byte_status(read.status))
}

/// Writes the strings of dates, like `fots_date_format`. Writes nothing if the bytes lack room for
/// 15 bytes for each item and row, or a bound may not fit in an `i32`.
#[unsafe(no_mangle)]
pub extern "C" fn fots_dates_format(
    dates: &[i32],
    format: &FormatParts,
    bytes: &mut [u8],
    bounds: &mut [i32],
    statuses: &mut [u8],
) -> usize
    ensures { need (length bounds.old ≡ length dates.now + 1)
        × (length statuses.old ≡ length dates.now)
        × HasRoomFor (room_for_text format.now) (length dates.now) (length bytes.old)
        else (result ≡ usize.MAX) × (bytes.new ≡ bytes.old) × (bounds.new ≡ bounds.old)
        × (statuses.new ≡ statuses.old) then
        ArePrinted bytes.old bytes.new bounds.new statuses.new result
        (λ k. IsTextByFormatRow format.now (int_at dates.now k)) }
{
    let rows = dates.len();
    if !are_bounds(bounds, rows)
        || statuses.len() != rows
        || !has_room(rows, room_for_text(format), bytes)
    {
        return LENGTH_MISMATCH;
    }
    let mut text = [0; MAX_LENGTH];
    let mut end = 0;
    bounds[0] = 0;
    for row in 0..rows {
        let (length, status) = text_row(dates[row], format, &mut text);
        end = put(bytes, end, &text[..length]);
        bounds[row + 1] = end as i32;
        statuses[row] = status;
    }
    count_errors(statuses)
}

/// Returns the bytes of room for each string.
fn room_for_text(format: &FormatParts) -> usize
    ensures value { result ≡ room_for_text format.now }
    ensures range { (15 ≤ result) × (result ≤ 960) }
{
    (format.length as usize).min(64).max(1) * 15
}

/// Writes the string of a date, or an empty string, and returns its length and the status.
fn text_row(date: i32, format: &FormatParts, text: &mut [u8]) -> (usize, u8)
    requires { length text.old ≡ 960 }
    ensures value { IsTextByFormatRow format.now date (take result.0 text.new) result.1 }
    ensures max_length { result.0 ≤ room_for_text format.now }
    ensures room { length text.new ≡ 960 }
{
    let date = or_return!(valid_date(date), (0, INVALID_DATE as u8));
    if let Some(end) = print_date_at_once(date, format, text) {
        return (end, OK as u8);
    }
    let format = or_return!(format.to_format(), (0, INVALID_FORMAT as u8));
    print_row(date, &format, text)
}

/// Writes the string of a date, or an empty string, and returns its length and the status.
fn print_row(date: Date, format: &Format, text: &mut [u8]) -> (usize, u8)
    requires few { length format.now ≤ 64 }
    requires room { length text.old ≡ 960 }
    ensures unsupported_item { ¬ IsTrue (are_date_items format.now)
        → (result.0 ≡ 0) × (pos result.1 ≡ UNSUPPORTED_ITEM) }
    ensures value { IsTrue (are_date_items format.now)
        → (take result.0 text.new ≡ text_of format.now (moment_of_date date))
        × (pos result.1 ≡ OK) }
    ensures max_length { result.0 ≤ length format.now * 15 }
    ensures room { length text.new ≡ 960 }
{
    // This call states that the date is in its range. It costs nothing.
    let _ = date.to_julian_day();
    match format.print_date(date, text) {
        Some(length) => (length, OK as u8),
        None => (0, UNSUPPORTED_ITEM as u8),
    }
}
