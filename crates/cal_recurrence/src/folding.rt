//! Folded lines.
ghost use Rattle.std.specs.Prelude.{◌≡◌, ◌<◌, ◌≤◌, ◌↔◌, ◌+◌, ◌^◌, ◌==◌, ◌&&◌, ◌∷◌, ℕ, List, IfSome, MatchOption, drop, if◌then◌else◌, length, nat_le, not, slice_index, take};
ghost use Rattle.std.specs.List.{All};
ghost use Rattle.cal_recurrence.specs.Buffers.{IsPut};
ghost use Rattle.cal_recurrence.specs.Folding.{fold_length, is_blank, is_line_end, IsFolded, IsShortLine, IsUnfolded};
ghost use Rattle.cal_recurrence.specs.Words.{parts_at};

use crate::buffers::put;

/// Returns the byte at an index, or 0 past the end.
fn byte_at(bytes: &[u8], index: usize) -> u8
    ensures { result ≡ slice_index bytes.now index }
{
    if index < bytes.len() { bytes[index] } else { 0 }
}

/// Returns `true` if the byte is a space or a tab.
fn is_blank(byte: u8) -> bool
    ensures { result ≡ is_blank byte }
{
    byte == b' ' || byte == b'\t'
}

/// Returns the length of the fold with which the bytes begin, or 0 without a fold.
fn fold_length(bytes: &[u8]) -> usize
    ensures value { result ≡ fold_length bytes.now }
    ensures max { result ≤ 3 }
{
    let (first, second) = (byte_at(bytes, 0), byte_at(bytes, 1));
    if first == b'\n' && is_blank(second) {
        2
    } else if first == b'\r' && (second == b'\n' && is_blank(byte_at(bytes, 2))) {
        3
    } else {
        0
    }
}

/// Copies a text without its folds, as lines of a calendar file have them: LF or CR LF, and a space
/// or a tab. Returns the number of bytes, or `None` if `unfolded` is shorter than the text. The
/// other bytes stay as they are.
///
/// `RDATE:20240704,\r\n 20240705` becomes `RDATE:20240704,20240705`, of 23 bytes.
pub fn unfold(text: &[u8], unfolded: &mut [u8]) -> Option<usize>
    ensures value { MatchOption result (length unfolded.old < length text.now) (λ n.
        (length text.now ≤ length unfolded.old) × (n ≤ length unfolded.new)
        × IsUnfolded text.now (take n unfolded.new)
        × (drop n unfolded.new ≡ drop n unfolded.old)) }
    ensures none { length unfolded.old < length text.now → unfolded.new ≡ unfolded.old }
{
    if unfolded.len() < text.len() {
        return None;
    }
    let (mut filled, mut index) = (0, 0);
    while index < text.len() {
        let fold = fold_length(&text[index..]);
        if fold > 0 {
            index += fold;
        } else {
            unfolded[filled] = text[index];
            filled += 1;
            index += 1;
        }
    }
    Some(filled)
}

/// Returns `true` if the line ends at the first byte: at a LF, or at a CR before one or at the end
/// of the text.
fn is_line_end(bytes: &[u8]) -> bool
    ensures { result ≡ is_line_end bytes.now }
{
    let first = byte_at(bytes, 0);
    first == b'\n' || first == b'\r' && (byte_at(bytes, 1) == b'\n' || bytes.len() == 1)
}

/// Returns `true` if a fold comes before the first byte, which is after `column` bytes of its line.
fn fold_before(column: usize, bytes: &[u8]) -> bool
    ensures { result ≡ (nat_le 75 column && not (is_line_end bytes.now)) }
{
    column >= 75 && !is_line_end(bytes)
}

/// Returns the number of bytes in the line after a byte, which is after `column` bytes, or after a
/// fold. The space of the fold counts.
fn column_after(folds: bool, column: usize, byte: u8) -> usize
    requires { column < 2 ^ 63 }
    ensures { result ≡ if folds then 2 else if byte == 10 then 0 else (column + 1) }
{
    if folds {
        2
    } else if byte == b'\n' {
        0
    } else {
        column + 1
    }
}

/// Writes bytes to the buffer, from this position on, after a fold if `folds` is true.
fn put_folded(folds: bool, bytes: &[u8], buffer: &mut [u8], at: usize) -> Option<usize>
    requires { at ≤ length buffer.old }
    ensures { IsPut at (if folds then 13 ∷ 10 ∷ 32 ∷ bytes.now else bytes.now)
        buffer.old buffer.new result }
{
    if folds {
        let next = put(buffer, at, b"\r\n ")?;
        put(buffer, next, bytes)
    } else {
        put(buffer, at, bytes)
    }
}

/// Copies a text with its lines folded, as in a calendar file: CR LF and a space come before the
/// 76th byte of a line. So each line has at most 75 bytes, without its LF, CR LF or last CR. Returns
/// the number of bytes, or `None` if `folded` is too short; then its bytes can be anything.
///
/// [`unfold`] gives the same for both texts, which is the text if it has no folds. A fold can be
/// within a character of several bytes. A line of 76 bytes becomes one of 75, and a second one of 2.
pub fn fold(text: &[u8], folded: &mut [u8]) -> Option<usize>
    ensures text { (whole : List ℕ) × (IsFolded text.now whole
        × IsPut 0 whole folded.old folded.new result) }
    ensures unfolds { IfSome result (λ end. (unfolded : List ℕ)
        → (IsUnfolded (take end folded.new) unfolded ↔ IsUnfolded text.now unfolded)) }
    ensures lines { IfSome result (λ end.
        All IsShortLine (parts_at 10 (take end folded.new))) }
{
    let (mut filled, mut index, mut column) = (0, 0, 0);
    while index < text.len() {
        let rest = &text[index..];
        let folds = fold_before(column, rest);
        filled = put_folded(folds, &rest[..1], folded, filled)?;
        column = column_after(folds, column, rest[0]);
        index += 1;
    }
    Some(filled)
}
