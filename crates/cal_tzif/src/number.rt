//! Numbers and times in a POSIX text.
ghost use Rattle.std.specs.Prelude.{◌≡◌, ℕ, ◌+◌, ◌*◌, ◌^◌, ◌<◌, ◌≤◌, ℤ, length, IsTrue, IfSome, IfNone, unsigned_abs};
ghost use Rattle.cal_tzif.specs.Posix.{is_digit, digits, part, time, hours, minutes, IsPart, IsTime, after_sign, signed_time};

use crate::bytes::byte;

/// Checks that a byte is a digit.
pub(crate) fn is_digit(b: u8) -> bool
    ensures { result ≡ is_digit b }
{
    b'0' <= b && b <= b'9'
}

/// Returns the number of at most `most` digits that begin at a position, and the position after
/// them. Without digits they are 0 and the position.
#[tactic(auto, unfolding(crate::specs::Posix::digits))]
pub(crate) fn parse_digits(text: &[u8], start: usize, most: usize) -> (u32, usize)
    requires most { most ≤ 3 }
    requires inside { start ≤ length text.now }
    ensures value { result ≡ digits text.now most start 0 }
    ensures bound { result.0 < 1000 }
    ensures end { (start ≤ result.1) × (result.1 ≤ length text.now) }
{
    let mut at = start;
    let mut value = 0;
    let mut left = most;
    while left > 0 {
        let b = byte(text, at);
        if !is_digit(b) {
            return (value, at);
        }
        value = value * 10 + u32::from(b - b'0');
        at += 1;
        left -= 1;
    }
    (value, at)
}

/// Returns the minutes or seconds after a colon, and the position after them. Without a colon they
/// are 0 and the position. Returns `None` if there is no number to 59 after a colon.
#[tactic(auto, unfolding(crate::specs::Posix::part))]
fn parse_part(text: &[u8], at: usize) -> Option<(u32, usize)>
    requires inside { at ≤ length text.now }
    ensures some { IfSome result (λ r. IsPart text.now at × (r ≡ part text.now at)) }
    ensures bound { IfSome result (λ r. (r.0 ≤ 59) × (r.1 ≤ length text.now) × (at ≤ r.1)) }
    ensures none { IfNone result (¬ IsPart text.now at) }
{
    if byte(text, at) != b':' {
        return Some((0, at));
    }
    let (value, end) = parse_digits(text, at + 1, 2);
    if at + 1 < end && value <= 59 {
        Some((value, end))
    } else {
        None
    }
}

/// Returns the position after a sign, if there is one.
#[tactic(auto, unfolding(crate::specs::Posix::after_sign))]
fn after_sign(text: &[u8], at: usize) -> usize
    requires inside { at ≤ length text.now }
    ensures value { result ≡ after_sign text.now at }
    ensures bound { (at ≤ result) × (result ≤ length text.now) }
{
    let sign = byte(text, at);
    if sign == b'+' {
        return at + 1;
    }
    if sign == b'-' { at + 1 } else { at }
}

/// Returns the seconds of hours, minutes and seconds with a sign or without one, and the position
/// after them. Returns `None` if there are no digits, or a number is too large.
#[tactic(auto, unfolding(crate::specs::Posix::signed_time, crate::specs::Posix::time))]
pub(crate) fn parse_time(text: &[u8], at: usize, most: u32) -> Option<(i32, usize)>
    requires inside { at ≤ length text.now }
    requires most { most ≤ 167 }
    ensures some { IfSome result (λ r. IsTime text.now at most × (r ≡ signed_time text.now at)) }
    ensures bound { IfSome result (λ r. (unsigned_abs r.0 < (most + 1) * 3600)
        × (r.1 ≤ length text.now)) }
    ensures none { IfNone result (¬ IsTime text.now at most) }
{
    let start = after_sign(text, at);
    let (hours, end) = parse_digits(text, start, 3);
    if end == start || hours > most {
        return None;
    }
    let Some((minutes, end)) = parse_part(text, end) else {
        return None;
    };
    let Some((seconds, end)) = parse_part(text, end) else {
        return None;
    };
    let total = (hours * 3600 + minutes * 60 + seconds) as i32;
    if byte(text, at) == b'-' {
        Some((-total, end))
    } else {
        Some((total, end))
    }
}
