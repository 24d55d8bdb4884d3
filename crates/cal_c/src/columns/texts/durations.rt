//! Columns of durations in text.
ghost use Rattle.std.specs.Prelude.{◌≡◌, ◌+◌, ◌≤◌, length};
ghost use Rattle.cal_c.specs.Columns.{int_at, nat_at, AreRows};
ghost use Rattle.cal_c.specs.DurationColumns.{duration_at, duration_row, IsDurationTextRow, IsParsedDuration, IsParsedDurationRow};
ghost use Rattle.cal_c.specs.TextColumns.{ArePrinted, HasRoomFor};
ghost use Rattle.cal_c.specs.Values.{need◌else◌then◌};

use super::formatting::{has_room, put};
use super::parsing::{are_bounds, bytes_between};
use crate::columns::statuses::byte_status;
use crate::columns::{LENGTH_MISMATCH, count_errors};
use crate::results::{Duration, DurationResult};
use crate::status::{INVALID_BOUNDS, INVALID_DURATION, OK};
use crate::texts::durations::fots_duration_parse;
use crate::values::valid_duration;
use cal_duration::duration;
use cal_time::ShortText;

/// The maximum length of a duration in bytes.
const MAX_DURATION_LENGTH: usize = 36;

/// Parses durations, like `fots_duration_parse`.
#[unsafe(no_mangle)]
pub extern "C" fn fots_durations_parse(
    bytes: &[u8],
    bounds: &[i32],
    seconds: &mut [i64],
    nanoseconds: &mut [i32],
    statuses: &mut [u8],
) -> usize
    ensures { need (length bounds.now ≡ length seconds.old + 1)
        × (length nanoseconds.old ≡ length seconds.old) × (length statuses.old ≡ length seconds.old)
        else (result ≡ usize.MAX) × (seconds.new ≡ seconds.old)
        × (nanoseconds.new ≡ nanoseconds.old) × (statuses.new ≡ statuses.old) then
        AreRows statuses.new result (λ k. IsParsedDurationRow bytes.now (int_at bounds.now k)
        (int_at bounds.now (k + 1)) (duration_row (int_at seconds.new k) (int_at nanoseconds.new k)
        (nat_at statuses.new k))) }
{
    let rows = seconds.len();
    if !are_bounds(bounds, rows) || nanoseconds.len() != rows || statuses.len() != rows {
        return LENGTH_MISMATCH;
    }
    for row in 0..rows {
        let (duration, status) = parse_duration_between(bytes, bounds[row], bounds[row + 1]);
        seconds[row] = duration.seconds;
        nanoseconds[row] = duration.nanoseconds;
        statuses[row] = status;
    }
    count_errors(statuses)
}

/// Returns the row of the duration between two bounds.
fn parse_duration_between(bytes: &[u8], from: i32, to: i32) -> (Duration, u8)
    ensures { IsParsedDurationRow bytes.now from to
        (duration_row result.0.seconds result.0.nanoseconds result.1) }
{
    match bytes_between(bytes, from, to) {
        Some(text) => parse_duration_row(text),
        None => (DurationResult::error(0).duration, INVALID_BOUNDS as u8),
    }
}

/// Returns the row of a duration in text.
fn parse_duration_row(text: &[u8]) -> (Duration, u8)
    ensures { IsParsedDuration text.now
        (duration_row result.0.seconds result.0.nanoseconds result.1) }
{
    let read = fots_duration_parse(text);
    (read.duration, byte_status(read.status))
}

/// Writes durations as strings, like `fots_duration_text`. Writes nothing if the bytes lack room
/// for 36 bytes a row, or a bound may not fit in an `i32`.
#[unsafe(no_mangle)]
pub extern "C" fn fots_durations_texts(
    seconds: &[i64],
    nanoseconds: &[i32],
    bytes: &mut [u8],
    bounds: &mut [i32],
    statuses: &mut [u8],
) -> usize
    ensures { need (length bounds.old ≡ length seconds.now + 1)
        × (length nanoseconds.now ≡ length seconds.now)
        × (length statuses.old ≡ length seconds.now)
        × HasRoomFor 36 (length seconds.now) (length bytes.old)
        else (result ≡ usize.MAX) × (bytes.new ≡ bytes.old) × (bounds.new ≡ bounds.old)
        × (statuses.new ≡ statuses.old) then
        ArePrinted bytes.old bytes.new bounds.new statuses.new result
        (λ k. IsDurationTextRow (duration_at (int_at seconds.now k) (int_at nanoseconds.now k))) }
{
    let rows = seconds.len();
    if !are_bounds(bounds, rows)
        || nanoseconds.len() != rows
        || statuses.len() != rows
        || !has_room(rows, MAX_DURATION_LENGTH, bytes)
    {
        return LENGTH_MISMATCH;
    }
    let mut end = 0;
    bounds[0] = 0;
    for row in 0..rows {
        let (text, status) = duration_text_row(seconds[row], nanoseconds[row]);
        end = put(bytes, end, text.as_bytes());
        bounds[row + 1] = end as i32;
        statuses[row] = status;
    }
    count_errors(statuses)
}

/// Returns the string of a duration, or an empty string, and the status.
fn duration_text_row(seconds: i64, nanoseconds: i32) -> (ShortText, u8)
    ensures value { IsDurationTextRow (duration_at seconds nanoseconds) result.0 result.1 }
    ensures max_length { length result.0 ≤ 36 }
{
    let duration = Duration {
        seconds,
        nanoseconds,
        unused: 0,
    };
    match valid_duration(duration) {
        Some(duration) => (duration::text(duration), OK as u8),
        None => (ShortText::new(), INVALID_DURATION as u8),
    }
}
