//! Offsets from UTC.
ghost use Rattle.std.specs.Prelude.{◌+◌, ◌<◌, ◌≤◌, length, unsigned_abs};

use cal_time::UtcOffset;

/// Parses `Z` or `z`, or a sign and two digits each of the hours and the minutes, such as `-05:30`.
/// The hours are at most 23, and the minutes at most 59.
pub fn offset_of(word: &[u8]) -> Option<UtcOffset> {
    if word == b"Z".as_slice() || word == b"z".as_slice() {
        return Some(UtcOffset::UTC);
    }
    if word.len() != 6 || word[3] != b':' {
        return None;
    }
    let hours = number_at(word, 1)?;
    let minutes = number_at(word, 4)?;
    seconds_after(word[0], (hours, minutes))
}

/// Parses the two digits at an index.
fn number_at(word: &[u8], index: usize) -> Option<u8>
    requires { index + 1 < length word.now }
{
    let tens = word[index];
    let ones = word[index + 1];
    if tens.is_ascii_digit() && ones.is_ascii_digit() {
        Some((tens - b'0') * 10 + (ones - b'0'))
    } else {
        None
    }
}

/// Returns the offset with this sign, of up to 23 hours and 59 minutes.
fn seconds_after(sign: u8, at: (u8, u8)) -> Option<UtcOffset> {
    if at.0 > 23 || at.1 > 59 {
        return None;
    }
    let seconds = u32::from(at.0) * 3_600 + u32::from(at.1) * 60;
    if sign == b'+' {
        offset_by(seconds as i32)
    } else if sign == b'-' {
        offset_by(-(seconds as i32))
    } else {
        None
    }
}

fn offset_by(seconds: i32) -> Option<UtcOffset>
    requires { unsigned_abs seconds ≤ 93_599 }
{
    UtcOffset::from_whole_seconds(seconds).ok()
}
