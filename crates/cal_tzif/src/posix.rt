//! Names and days in a POSIX text.
ghost use Rattle.std.specs.Prelude.{◌≡◌, ℕ, ◌+◌, ◌<◌, ◌≤◌, ◌%◌, length, Bool, IfSome, IfNone, ℤ, neg_ℤ, pos, ◌≤ℤ◌};
ghost use Rattle.cal_time.specs.Month.{number};
ghost use Rattle.cal_time.specs.Weekday.{index};
ghost use Rattle.cal_tzif.specs.Posix.{is_name_byte, run_end, is_quoted, name_start, name_stop, name_end, IsName, month, week, weekday, day_end, IsDay, change_time, IsChangeTime};

use crate::bytes::byte;
use crate::number::{is_digit, parse_digits, parse_time};
use cal_time::{Month, Weekday};

/// Where a name begins and ends, and the position after it.
#[derive(Clone, Copy)]
pub(crate) struct Name {
    pub(crate) start: usize,
    pub(crate) stop: usize,
    pub(crate) end: usize,
}

/// A day of the year, such as `M3.5.0`, and the position after it.
#[derive(Clone, Copy)]
pub(crate) struct Day {
    pub(crate) month: Month,
    pub(crate) week: u8,
    pub(crate) weekday: Weekday,
    pub(crate) end: usize,
}

/// Checks that a byte is a letter, or between `<` and `>` a letter, a digit or a sign.
fn is_name_byte(quoted: bool, b: u8) -> bool
    ensures { result ≡ is_name_byte quoted b }
{
    if b'a' <= b && b <= b'z' || b'A' <= b && b <= b'Z' {
        return true;
    }
    quoted && (is_digit(b) || b == b'+' || b == b'-')
}

/// Returns the position after the bytes of a name.
fn run_end(quoted: bool, text: &[u8], start: usize) -> usize
    requires inside { start ≤ length text.now }
    ensures value { result ≡ run_end quoted text.now (length text.now) start }
    ensures bound { (start ≤ result) × (result ≤ length text.now) }
{
    let mut at = start;
    while is_name_byte(quoted, byte(text, at)) {
        at += 1;
    }
    at
}

/// Returns the name at a position: three letters or more, or also digits and signs between `<` and
/// `>`. Returns `None` if there is none.
#[tactic(auto, unfolding(crate::specs::Posix::name_start, crate::specs::Posix::name_stop, crate::specs::Posix::name_end))]
pub(crate) fn parse_name(text: &[u8], at: usize) -> Option<Name>
    requires inside { at ≤ length text.now }
    ensures some { IfSome result (λ r. IsName text.now at × (r ≡ record
        { start = name_start text.now at; stop = name_stop text.now at; end = name_end text.now at })) }
    ensures bound { IfSome result (λ r. r.end ≤ length text.now) }
    ensures none { IfNone result (¬ IsName text.now at) }
{
    let quoted = byte(text, at) == b'<';
    let start = if quoted { at + 1 } else { at };
    let stop = run_end(quoted, text, start);
    if stop < start + 3 {
        return None;
    }
    if !quoted {
        return Some(Name {
            start,
            stop,
            end: stop,
        });
    }
    if byte(text, stop) == b'>' {
        Some(Name {
            start,
            stop,
            end: stop + 1,
        })
    } else {
        None
    }
}

/// Returns the day at a position, such as `M3.5.0`. Returns `None` if there is none.
#[tactic(auto, unfolding(crate::specs::Posix::day_end))]
pub(crate) fn parse_day(text: &[u8], at: usize) -> Option<Day>
    requires inside { at ≤ length text.now }
    ensures some { IfSome result (λ r. IsDay text.now at × (r.end ≡ day_end text.now at)
        × (number r.month ≡ (month text.now at).0) × (r.week ≡ (week text.now at).0)
        × (index r.weekday ≡ ((weekday text.now at).0 + 6) % 7)) }
    ensures bound { IfSome result (λ r. (1 ≤ r.week) × (r.week ≤ 5) × (r.end ≤ length text.now)) }
    ensures none { IfNone result (¬ IsDay text.now at) }
{
    if byte(text, at) != b'M' {
        return None;
    }
    let (month, end) = parse_digits(text, at + 1, 2);
    if byte(text, end) != b'.' || month > 12 {
        return None;
    }
    let Ok(month) = Month::try_from(month as u8) else {
        return None;
    };
    let (week, end) = parse_digits(text, end + 1, 1);
    if week < 1 || week > 5 || byte(text, end) != b'.' {
        return None;
    }
    let start = end + 1;
    let (weekday, end) = parse_digits(text, start, 1);
    if end == start || weekday > 6 {
        return None;
    }
    Some(Day {
        month,
        week: week as u8,
        weekday: Weekday::Sunday.nth_next(weekday as u8),
        end,
    })
}

/// Returns the time of day after a slash, and the position after it. Without a slash they are 2:00
/// and the position. Returns `None` if there is no time of at most 167 hours after a slash.
#[tactic(auto, unfolding(crate::specs::Posix::change_time))]
pub(crate) fn parse_change_time(text: &[u8], at: usize) -> Option<(i32, usize)>
    requires inside { at ≤ length text.now }
    ensures some { IfSome result (λ r. IsChangeTime text.now at × (r ≡ change_time text.now at)) }
    ensures bound { IfSome result (λ r. (neg_ℤ (pos 604_800) ≤ℤ r.0) × (r.0 ≤ℤ pos 604_800)
        × (r.1 ≤ length text.now)) }
    ensures none { IfNone result (¬ IsChangeTime text.now at) }
{
    if byte(text, at) == b'/' {
        parse_time(text, at + 1, 167)
    } else {
        Some((7200, at))
    }
}
