//! Columns of strings to parse in all formats of ISO 8601.
ghost use Rattle.std.specs.Prelude.{◌≡◌, ◌+◌, length, ◌∷◌, []};
ghost use Rattle.cal_c.specs.Columns.{date_row, int_at, SameLength, nat_at, AreRows};
ghost use Rattle.cal_c.specs.IsoColumns.{IsIsoDateRow, IsIsoDate, IsIsoMomentRow, IsIsoMoment};
ghost use Rattle.cal_c.specs.TextColumns.{moment_row};
ghost use Rattle.cal_c.specs.Values.{need◌else◌then◌};

use super::parsing::{are_bounds, bytes_between};
use crate::columns::statuses::byte_status;
use crate::columns::{LENGTH_MISMATCH, NO_VALUE, count_errors};
use crate::results::{Moment, MomentResult};
use crate::status::INVALID_BOUNDS;
use crate::texts::iso::{fots_date_parse_iso, fots_moment_parse_iso};

/// Parses dates, like `fots_date_parse_iso`.
#[unsafe(no_mangle)]
pub extern "C" fn fots_dates_parse_iso(
    bytes: &[u8],
    bounds: &[i32],
    dates: &mut [i32],
    statuses: &mut [u8],
) -> usize
    ensures { need (length bounds.now ≡ length dates.old + 1) × (length statuses.old ≡ length dates.old)
        else (result ≡ usize.MAX) × (dates.new ≡ dates.old) × (statuses.new ≡ statuses.old) then
        AreRows statuses.new result (λ k. IsIsoDateRow bytes.now (int_at bounds.now k)
        (int_at bounds.now (k + 1)) (date_row (int_at dates.new k) (nat_at statuses.new k))) }
{
    let rows = dates.len();
    if !are_bounds(bounds, rows) || statuses.len() != rows {
        return LENGTH_MISMATCH;
    }
    for row in 0..rows {
        (dates[row], statuses[row]) = parse_date_between(bytes, bounds[row], bounds[row + 1]);
    }
    count_errors(statuses)
}

/// Parses dates, times and offsets, like `fots_moment_parse_iso`.
#[unsafe(no_mangle)]
pub extern "C" fn fots_moments_parse_iso(
    bytes: &[u8],
    bounds: &[i32],
    dates: &mut [i32],
    times: &mut [u64],
    offsets: &mut [i32],
    statuses: &mut [u8],
) -> usize
    ensures { need (length bounds.now ≡ length dates.old + 1)
        × SameLength (length dates.old) (length times.old ∷ length offsets.old ∷ length statuses.old ∷ [])
        else (result ≡ usize.MAX) × (dates.new ≡ dates.old) × (times.new ≡ times.old)
        × (offsets.new ≡ offsets.old) × (statuses.new ≡ statuses.old) then
        AreRows statuses.new result (λ k. IsIsoMomentRow bytes.now (int_at bounds.now k)
        (int_at bounds.now (k + 1)) (moment_row (int_at dates.new k) (nat_at times.new k)
        (int_at offsets.new k) (nat_at statuses.new k))) }
{
    let rows = dates.len();
    if !are_bounds(bounds, rows)
        || times.len() != rows
        || offsets.len() != rows
        || statuses.len() != rows
    {
        return LENGTH_MISMATCH;
    }
    for row in 0..rows {
        let (moment, status) = parse_moment_between(bytes, bounds[row], bounds[row + 1]);
        dates[row] = moment.date;
        times[row] = moment.time;
        offsets[row] = moment.offset;
        statuses[row] = status;
    }
    count_errors(statuses)
}

/// Returns the row of the date between two bounds.
fn parse_date_between(bytes: &[u8], from: i32, to: i32) -> (i32, u8)
    ensures { IsIsoDateRow bytes.now from to (date_row result.0 result.1) }
{
    match bytes_between(bytes, from, to) {
        Some(text) => parse_date_row(text),
        None => (NO_VALUE, INVALID_BOUNDS as u8),
    }
}

/// Returns the row of a date in text.
fn parse_date_row(text: &[u8]) -> (i32, u8)
    ensures { IsIsoDate text.now (date_row result.0 result.1) }
{
    let read = fots_date_parse_iso(text);
    (read.date, byte_status(read.status))
}

/// Returns the row of the moment between two bounds.
fn parse_moment_between(bytes: &[u8], from: i32, to: i32) -> (Moment, u8)
    ensures { IsIsoMomentRow bytes.now from to
        (moment_row result.0.date result.0.time result.0.offset result.1) }
{
    match bytes_between(bytes, from, to) {
        Some(text) => parse_moment_row(text),
        None => (MomentResult::error(0).moment, INVALID_BOUNDS as u8),
    }
}

/// Returns the row of a moment in text.
fn parse_moment_row(text: &[u8]) -> (Moment, u8)
    ensures { IsIsoMoment text.now
        (moment_row result.0.date result.0.time result.0.offset result.1) }
{
    let read = fots_moment_parse_iso(text);
    let moment = Moment {
        date: read.date,
        offset: read.offset,
        time: read.time,
    };
    (moment, byte_status(read.status))
}
