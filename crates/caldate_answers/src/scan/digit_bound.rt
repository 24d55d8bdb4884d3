//! The maximum length of a string that starts with a digit.
ghost use Rattle.std.specs.Prelude.{◌≡◌, ◌≤◌, length};
ghost use Rattle.caldate_answers.specs.Scans.{digit_bound, digits_at_front, offset_index};

use crate::scan::{byte_at, is_digit};

/// The length of the longest date that starts with a digit, such as `2024-02-29`.
const LONGEST_DATE: usize = 10;

/// The length of the longest offset, such as `+01:00`.
const LONGEST_OFFSET: usize = 6;

/// The index of the byte after the seconds of a moment.
const AFTER_SECONDS: usize = 19;

/// Returns the length of a moment that begins with the bytes, or 10, the length of a date, if they
/// have no offset. In `2024-02-29T13:05:07Z, ..` it is 20, and in `2024-02-29 13:05:07, ..` 10.
///
/// No string that starts with a digit is longer, in one of the six forms or in ISO 8601.
pub fn digit_bound(bytes: &[u8]) -> usize
    ensures { result ≡ digit_bound bytes.now }
{
    let index = offset_index(bytes);
    match byte_at(bytes, index) {
        b'Z' | b'z' => index + 1,
        b'+' | b'-' => index + LONGEST_OFFSET,
        _ => LONGEST_DATE,
    }
}

/// Returns the index of the byte after the seconds of a moment, or after the digits of a fraction.
fn offset_index(bytes: &[u8]) -> usize
    ensures { result ≡ offset_index bytes.now }
{
    let byte = byte_at(bytes, AFTER_SECONDS);
    if byte == b'.' || byte == b',' {
        AFTER_SECONDS + 1 + digits_at_front(&bytes[AFTER_SECONDS + 1..])
    } else {
        AFTER_SECONDS
    }
}

/// Returns the number of digits at the front of the bytes.
pub(crate) fn digits_at_front(bytes: &[u8]) -> usize
    ensures value { result ≡ digits_at_front bytes.now }
    ensures within { result ≤ length bytes.now }
{
    let mut count = 0;
    while is_digit(byte_at(bytes, count)) {
        count += 1;
    }
    count
}
