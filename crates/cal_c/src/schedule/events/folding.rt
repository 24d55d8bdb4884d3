//! Folded lines of calendar files.
ghost use Rattle.std.specs.Prelude.{◌≡◌, ◌<◌, ◌≤◌, ℕ, List, drop, length, take};
ghost use Rattle.cal_recurrence.specs.Folding.{IsFolded, IsUnfolded};
ghost use Rattle.cal_c.specs.Events.{room_to_fold};
ghost use Rattle.cal_c.specs.FormatTexts.{length_ok, too_short, IsUnprinted, IsWritten};

use crate::formats::results::LengthResult;
use cal_recurrence::{fold, unfold};

/// Writes a text without its folds: an LF or a CR LF, and a space or a tab. Fails if the buffer has
/// fewer bytes than the text. `RDATE:20240704,\r\n 20240705` becomes `RDATE:20240704,20240705`, of
/// 23 bytes.
#[unsafe(no_mangle)]
pub extern "C" fn fots_unfold(text: &[u8], bytes: &mut [u8]) -> LengthResult
    ensures too_short { length bytes.old < length text.now
        → IsUnprinted bytes.old bytes.new result (too_short (length text.now)) }
    ensures length { length text.now ≤ length bytes.old
        → (result ≡ length_ok result.length) × (result.length ≤ length bytes.new) }
    ensures value { length text.now ≤ length bytes.old
        → IsUnfolded text.now (take result.length bytes.new) }
    ensures others { length text.now ≤ length bytes.old
        → drop result.length bytes.new ≡ drop result.length bytes.old }
{
    match unfold(text, bytes) {
        Some(length) => LengthResult::ok(length),
        None => LengthResult::too_short(text.len()),
    }
}

/// Writes a text with its lines folded: CR LF and a space come before the 76th byte of a line. Fails
/// if the buffer has fewer bytes than the text and a 24th of it, which is always enough. A fold can be
/// within a character of several bytes.
///
/// A line of 75 bytes stays. A line of 76 bytes becomes one of 75 and, after CR LF, a space and the
/// last byte; that is 79 bytes, and the buffer needs 79.
#[unsafe(no_mangle)]
pub extern "C" fn fots_fold(text: &[u8], bytes: &mut [u8]) -> LengthResult
    ensures too_short { length bytes.old < room_to_fold (length text.now)
        → IsUnprinted bytes.old bytes.new result (too_short (room_to_fold (length text.now))) }
    ensures value { room_to_fold (length text.now) ≤ length bytes.old
        → (folded : List ℕ) × (IsFolded text.now folded × IsWritten folded bytes.old bytes.new result) }
{
    let room = text.len() + text.len() / 24;
    if bytes.len() < room {
        return LengthResult::too_short(room);
    }
    match fold(text, bytes) {
        Some(length) => LengthResult::ok(length),
        None => LengthResult::too_short(room),
    }
}
