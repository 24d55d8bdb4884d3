//! Columns of values in text.
ghost use Rattle.std.specs.Prelude.{◌≡◌, ◌+◌, ◌≤◌, ◌<◌, ◌↔◌, IsTrue, length, take, drop, [], pos, ◌∷◌};
ghost use Rattle.std.specs.List.{between};
ghost use Rattle.cal_text.specs.Rfc3339.{HasMomentText, moment_text};
ghost use Rattle.cal_c.specs.Columns.{int_at, nat_at, SameLength};
ghost use Rattle.cal_c.specs.TextColumns.{ArePrinted, HasRoomFor, IsDateTextRow, IsMomentTextRow};
ghost use Rattle.cal_c.specs.Values.{need◌else◌then◌};

use super::parsing::are_bounds;
use crate::columns::{LENGTH_MISMATCH, count_errors};
use crate::status::{INVALID_DATE, INVALID_OFFSET, INVALID_TIME, OK, RESULT_OUT_OF_RANGE};
use crate::values::{valid_date, valid_offset, valid_time};
use cal_datetime::OffsetDateTime;
use cal_text::rfc3339;
use cal_time::ShortText;

/// The maximum length of a calendar date in bytes.
const MAX_DATE_LENGTH: usize = 13;

/// The maximum length of a moment in bytes.
const MAX_MOMENT_LENGTH: usize = 38;

/// Writes the calendar dates of dates, like `fots_date_calendar_text`. Writes nothing if the bytes
/// lack room for 13 bytes a row, or a bound may not fit in an `i32`.
#[unsafe(no_mangle)]
pub extern "C" fn fots_dates_calendar_texts(
    dates: &[i32],
    bytes: &mut [u8],
    bounds: &mut [i32],
    statuses: &mut [u8],
) -> usize
    ensures { need (length bounds.old ≡ length dates.now + 1)
        × (length statuses.old ≡ length dates.now) × HasRoomFor 13 (length dates.now) (length bytes.old)
        else (result ≡ usize.MAX) × (bytes.new ≡ bytes.old) × (bounds.new ≡ bounds.old)
        × (statuses.new ≡ statuses.old) then
        ArePrinted bytes.old bytes.new bounds.new statuses.new result
        (λ k. IsDateTextRow (int_at dates.now k)) }
{
    let rows = dates.len();
    if !are_bounds(bounds, rows)
        || statuses.len() != rows
        || !has_room(rows, MAX_DATE_LENGTH, bytes)
    {
        return LENGTH_MISMATCH;
    }
    let mut end = 0;
    bounds[0] = 0;
    for row in 0..rows {
        let (text, status) = date_text_row(dates[row]);
        end = put(bytes, end, text.as_bytes());
        bounds[row + 1] = end as i32;
        statuses[row] = status;
    }
    count_errors(statuses)
}

/// Returns `true` if the bytes have room for rows of this length, and the bounds fit in an `i32`.
pub(super) fn has_room(rows: usize, longest: usize, bytes: &[u8]) -> bool
    requires { 0 < longest }
    ensures { IsTrue result ↔ HasRoomFor longest rows (length bytes.now) }
{
    rows <= bytes.len() / longest && rows <= i32::MAX as usize / longest
}

/// Writes a string at `end`, and returns the new end.
pub(super) fn put(bytes: &mut [u8], end: usize, text: &[u8]) -> usize
    requires { end + length text.now ≤ length bytes.old }
    ensures value { result ≡ end + length text.now }
    ensures length { length bytes.new ≡ length bytes.old }
    ensures before { take end bytes.new ≡ take end bytes.old }
    ensures text { between end (end + length text.now) bytes.new ≡ text.now }
    ensures after { drop (end + length text.now) bytes.new
        ≡ drop (end + length text.now) bytes.old }
{
    let last = end + text.len();
    bytes[end..last].copy_from_slice(text);
    last
}

/// Returns the calendar date of a date, or an empty string, and the status.
fn date_text_row(date: i32) -> (ShortText, u8)
    ensures value { IsDateTextRow date result.0 result.1 }
    ensures max_length { length result.0 ≤ 13 }
{
    match valid_date(date) {
        Some(date) => (date.text(), OK as u8),
        None => (ShortText::new(), INVALID_DATE as u8),
    }
}

/// Writes moments in RFC 3339, like `fots_moment_text`. Writes nothing if the bytes lack room for
/// 38 bytes a row, or a bound may not fit in an `i32`.
#[unsafe(no_mangle)]
pub extern "C" fn fots_moments_texts(
    dates: &[i32],
    times: &[u64],
    offsets: &[i32],
    bytes: &mut [u8],
    bounds: &mut [i32],
    statuses: &mut [u8],
) -> usize
    ensures { need (length bounds.old ≡ length dates.now + 1)
        × SameLength (length dates.now) (length times.now ∷ length offsets.now ∷ length statuses.old ∷ [])
        × HasRoomFor 38 (length dates.now) (length bytes.old)
        else (result ≡ usize.MAX) × (bytes.new ≡ bytes.old) × (bounds.new ≡ bounds.old)
        × (statuses.new ≡ statuses.old) then
        ArePrinted bytes.old bytes.new bounds.new statuses.new result
        (λ k. IsMomentTextRow (int_at dates.now k) (nat_at times.now k) (int_at offsets.now k)) }
{
    let rows = dates.len();
    if !are_bounds(bounds, rows)
        || times.len() != rows
        || offsets.len() != rows
        || statuses.len() != rows
        || !has_room(rows, MAX_MOMENT_LENGTH, bytes)
    {
        return LENGTH_MISMATCH;
    }
    let mut end = 0;
    bounds[0] = 0;
    for row in 0..rows {
        let (text, status) = moment_text_row(dates[row], times[row], offsets[row]);
        end = put(bytes, end, text.as_bytes());
        bounds[row + 1] = end as i32;
        statuses[row] = status;
    }
    count_errors(statuses)
}

/// Returns a moment in RFC 3339, or an empty string, and the status.
fn moment_text_row(date: i32, time: u64, offset: i32) -> (ShortText, u8)
    ensures value { IsMomentTextRow date time offset result.0 result.1 }
    ensures max_length { length result.0 ≤ 38 }
{
    let date = or_return!(valid_date(date), (ShortText::new(), INVALID_DATE as u8));
    let time = or_return!(valid_time(time), (ShortText::new(), INVALID_TIME as u8));
    let offset = or_return!(
        valid_offset(offset),
        (ShortText::new(), INVALID_OFFSET as u8)
    );
    moment_text_and_status(OffsetDateTime::new_in_offset(date, time, offset))
}

/// Returns a moment in RFC 3339, or an empty string, and the status.
fn moment_text_and_status(moment: OffsetDateTime) -> (ShortText, u8)
    ensures result_out_of_range { ¬ HasMomentText moment → (result.0 ≡ []) × (pos result.1 ≡ RESULT_OUT_OF_RANGE) }
    ensures value { HasMomentText moment → (result.0 ≡ moment_text moment) × (pos result.1 ≡ OK) }
    ensures max_length { length result.0 ≤ 38 }
{
    match rfc3339::Text::new(moment) {
        Some(text) => (text.text(), OK as u8),
        None => (ShortText::new(), RESULT_OUT_OF_RANGE as u8),
    }
}
