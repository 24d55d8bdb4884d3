//! Numbers that may be Unix times.
ghost use Rattle.std.specs.Prelude.{◌≡◌};
ghost use Rattle.caldate_answers.specs.Scans.{is_decimal_part, is_likely, is_likely_count, is_likely_number, is_number, without_minus};

use crate::request::{DigitCounts, Filter};
use crate::scan::byte_at;
use crate::scan::digit_bound::digits_at_front;

/// Returns whether the bytes may be a string. In a run that reads Unix times, a number must have as
/// many digits as one of this century: `1709211907`, and not `1`.
pub fn is_likely(filter: &Filter<'_>, bytes: &[u8]) -> bool
    ensures { result ≡ is_likely filter.now bytes.now }
{
    match &filter.numbers {
        Some(counts) => is_likely_number(counts, without_minus(bytes)),
        None => true,
    }
}

/// Returns the bytes after a minus sign at the front.
fn without_minus(bytes: &[u8]) -> &[u8]
    ensures { result.now ≡ without_minus bytes.now }
{
    match bytes {
        [b'-', rest @ ..] => rest,
        _ => bytes,
    }
}

fn is_likely_number(counts: &DigitCounts, bytes: &[u8]) -> bool
    ensures { result ≡ is_likely_number counts.now bytes.now }
{
    !is_number(bytes) || is_likely_count(counts, digits_at_front(bytes))
}

/// Returns whether the bytes are digits, perhaps with a point and digits after them.
fn is_number(bytes: &[u8]) -> bool
    ensures { result ≡ is_number bytes.now }
{
    let count = digits_at_front(bytes);
    count == bytes.len() || is_decimal_part(&bytes[count..])
}

/// Returns whether the bytes are a point and digits.
fn is_decimal_part(bytes: &[u8]) -> bool
    ensures { result ≡ is_decimal_part bytes.now }
{
    byte_at(bytes, 0) == b'.' && digits_at_front(&bytes[1..]) + 1 == bytes.len()
}

/// Returns whether a Unix time of this century has this number of digits.
fn is_likely_count(counts: &DigitCounts, count: usize) -> bool
    ensures { result ≡ is_likely_count counts.now count }
{
    (counts.seconds && (count == 9 || count == 10))
        || (counts.milliseconds && (count == 12 || count == 13))
        || (counts.microseconds && (count == 15 || count == 16))
        || (counts.nanoseconds && (count == 18 || count == 19))
}
