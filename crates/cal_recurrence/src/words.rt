//! Single words of the text of a rule.
ghost use Rattle.std.specs.Prelude.{◌≡◌, true, false, ◌+◌, ◌<◌, ◌≤◌, ◌==◌, ◌∷◌, length, position, slice_index, MatchOption, IfSome, unsigned_abs};
ghost use Rattle.cal_recurrence.specs.SetText.{unquoted};
ghost use Rattle.cal_recurrence.specs.Words.{by_day_of, bytes_after, bytes_left, clock_value_of, count_of, first_bytes, frequency_of, from_one_to, front_at, front_outside, has_name, is_alike, month_of, number_of, part_of, parts_at, parts_left, parts_left_outside, parts_outside, place_outside, index_of, position_of, rest_at, rest_outside, short_count_of, small_index_of, weekday_of};

use crate::clock_unit::ClockUnit;
use crate::fault::RulePart;
use cal_schedule::{ByDay, Frequency};
use cal_time::{Month, Weekday};
use std::str;

/// Returns the index of the first such byte, or `None` without one.
fn first_at(byte: u8, bytes: &[u8]) -> Option<usize>
    ensures { result ≡ position (λ b. b == byte) bytes.now }
{
    bytes.iter().position(|b| *b == byte)
}

/// Splits at the first such byte, which is in neither part. The second part is `None` without such
/// a byte.
#[tactic(auto, using(crate::proofs::Cuts::cut_some, crate::proofs::Cuts::cut_none, std::proofs::lemmas::List::take_rest))]
pub fn cut(bytes: &[u8], byte: u8) -> (&[u8], Option<&[u8]>)
    ensures parts { parts_at byte bytes.now ≡ result.0.now ∷ parts_left byte result.1 }
    ensures front { result.0.now ≡ front_at byte bytes.now }
    ensures rest { bytes_left result.1 ≡ rest_at byte bytes.now }
    ensures size { MatchOption result.1 (length result.0.now ≡ length bytes.now)
        (λ rest. length result.0.now + 1 + length rest.now ≡ length bytes.now) }
{
    match first_at(byte, bytes) {
        Some(at) => (&bytes[..at], Some(&bytes[at + 1..])),
        None => (bytes, None),
    }
}

/// Returns the index of the first such byte outside quotation marks, or `None` without one.
fn first_outside(byte: u8, bytes: &[u8]) -> Option<usize>
    ensures { MatchOption result (place_outside byte false bytes.now ≡ length bytes.now)
        (λ at. (at < length bytes.now) × (place_outside byte false bytes.now ≡ at)) }
{
    let (mut at, mut quoted) = (0, false);
    while at < bytes.len() {
        let here = bytes[at];
        if !quoted && here == byte {
            return Some(at);
        }
        if here == b'"' {
            quoted = !quoted;
        }
        at += 1;
    }
    None
}

/// Splits at the first such byte outside quotation marks, which is in neither part. The second part
/// is `None` without such a byte.
#[tactic(auto, using(crate::proofs::Outside::split_here, crate::proofs::Outside::split_nowhere, std::proofs::lemmas::List::take_rest))]
pub fn cut_outside(bytes: &[u8], byte: u8) -> (&[u8], Option<&[u8]>)
    ensures parts { parts_outside byte false bytes.now ≡ result.0.now ∷ parts_left_outside byte result.1 }
    ensures front { result.0.now ≡ front_outside byte bytes.now }
    ensures rest { bytes_left result.1 ≡ rest_outside byte bytes.now }
    ensures size { MatchOption result.1 (length result.0.now ≡ length bytes.now)
        (λ rest. length result.0.now + 1 + length rest.now ≡ length bytes.now) }
{
    match first_outside(byte, bytes) {
        Some(at) => (&bytes[..at], Some(&bytes[at + 1..])),
        None => (bytes, None),
    }
}

/// Returns the bytes between two quotation marks, or all bytes without them at the ends.
pub fn unquoted(bytes: &[u8]) -> &[u8]
    ensures { result.now ≡ unquoted bytes.now }
{
    let size = bytes.len();
    if size >= 2 && bytes[0] == b'"' && bytes[size - 1] == b'"' {
        &bytes[1..size - 1]
    } else {
        bytes
    }
}

/// Splits after the first `size` bytes. There must be that many.
#[tactic(auto, unfolding(crate::specs::Words::first_bytes, crate::specs::Words::bytes_after))]
pub fn split(bytes: &[u8], size: usize) -> (&[u8], &[u8])
    requires { size ≤ length bytes.now }
    ensures first { result.0.now ≡ first_bytes size bytes.now }
    ensures after { result.1.now ≡ bytes_after size bytes.now }
    ensures length { size + length result.1.now ≡ length bytes.now }
{
    (&bytes[..size], &bytes[size..])
}

/// Returns `true` if the word is the name, in any case of its ASCII letters.
pub fn is_alike(word: &[u8], name: &[u8]) -> bool
    ensures { result ≡ is_alike word.now name.now }
{
    word.eq_ignore_ascii_case(name)
}

/// Returns `true` if the text begins with `RRULE:`, as in a calendar, in any case.
pub fn has_name(text: &[u8]) -> bool
    ensures value { result ≡ has_name text.now }
    ensures long { result ≡ true → 6 ≤ length text.now }
{
    text.len() >= 6 && is_alike(split(text, 6).0, b"RRULE:")
}

/// Parses the name of a part, or returns `None` for an unknown name.
pub fn part_of(name: &[u8]) -> Option<RulePart>
    ensures { result ≡ part_of name.now }
{
    if is_alike(name, b"FREQ") {
        Some(RulePart::Frequency)
    } else if is_alike(name, b"INTERVAL") {
        Some(RulePart::Interval)
    } else if is_alike(name, b"WKST") {
        Some(RulePart::WeekStart)
    } else if is_alike(name, b"BYMONTH") {
        Some(RulePart::Months)
    } else if is_alike(name, b"BYWEEKNO") {
        Some(RulePart::Weeks)
    } else if is_alike(name, b"BYYEARDAY") {
        Some(RulePart::YearDays)
    } else if is_alike(name, b"BYMONTHDAY") {
        Some(RulePart::MonthDays)
    } else if is_alike(name, b"BYDAY") {
        Some(RulePart::Weekdays)
    } else if is_alike(name, b"BYHOUR") {
        Some(RulePart::Hours)
    } else if is_alike(name, b"BYMINUTE") {
        Some(RulePart::Minutes)
    } else if is_alike(name, b"BYSECOND") {
        Some(RulePart::Seconds)
    } else if is_alike(name, b"BYSETPOS") {
        Some(RulePart::Positions)
    } else if is_alike(name, b"UNTIL") {
        Some(RulePart::Until)
    } else if is_alike(name, b"COUNT") {
        Some(RulePart::Count)
    } else {
        None
    }
}

/// Parses a frequency, or returns `None` if the word isn't one. `HOURLY`, `MINUTELY` and `SECONDLY`
/// are daily, with the periods within days.
pub fn frequency_of(word: &[u8]) -> Option<(Frequency, Option<ClockUnit>)>
    ensures { result ≡ frequency_of word.now }
{
    if is_alike(word, b"DAILY") {
        Some((Frequency::Daily, None))
    } else if is_alike(word, b"WEEKLY") {
        Some((Frequency::Weekly, None))
    } else if is_alike(word, b"MONTHLY") {
        Some((Frequency::Monthly, None))
    } else if is_alike(word, b"YEARLY") {
        Some((Frequency::Yearly, None))
    } else if is_alike(word, b"HOURLY") {
        Some((Frequency::Daily, Some(ClockUnit::Hour)))
    } else if is_alike(word, b"MINUTELY") {
        Some((Frequency::Daily, Some(ClockUnit::Minute)))
    } else if is_alike(word, b"SECONDLY") {
        Some((Frequency::Daily, Some(ClockUnit::Second)))
    } else {
        None
    }
}

/// Parses a weekday of two letters, such as `FR`, or returns `None` if the word isn't one.
pub fn weekday_of(word: &[u8]) -> Option<Weekday>
    ensures { result ≡ weekday_of word.now }
{
    if is_alike(word, b"MO") {
        Some(Weekday::Monday)
    } else if is_alike(word, b"TU") {
        Some(Weekday::Tuesday)
    } else if is_alike(word, b"WE") {
        Some(Weekday::Wednesday)
    } else if is_alike(word, b"TH") {
        Some(Weekday::Thursday)
    } else if is_alike(word, b"FR") {
        Some(Weekday::Friday)
    } else if is_alike(word, b"SA") {
        Some(Weekday::Saturday)
    } else if is_alike(word, b"SU") {
        Some(Weekday::Sunday)
    } else {
        None
    }
}

/// Returns `true` if the word begins with a plus sign, which std's `parse` accepts.
fn begins_with_plus(word: &[u8]) -> bool
    ensures { result ≡ (slice_index word.now 0 == 43) }
{
    matches!(word, [b'+', ..])
}

/// Parses a number from 0 to 4294967295, or returns `None` if the word isn't one.
pub fn number_of(word: &[u8]) -> Option<u32>
    ensures { result ≡ number_of word.now }
{
    if begins_with_plus(word) {
        return None;
    }
    let Ok(text) = str::from_utf8(word) else {
        return None;
    };
    text.parse().ok()
}

/// Parses an hour, a minute or a second of at most two digits, from 0 to `most`. It is never past
/// 60.
pub fn clock_value_of(word: &[u8], most: u16) -> Option<u8>
    ensures { result ≡ clock_value_of most word.now }
{
    if word.len() > 2 {
        return None;
    }
    let number = number_of(word)?;
    if number > u32::from(most.min(60)) {
        return None;
    }
    Some(number as u8)
}

/// Parses a number from 1 to `most`, or returns `None` if the word isn't one.
pub fn count_of(word: &[u8], most: u32) -> Option<u32>
    ensures value { result ≡ count_of most word.now }
    ensures least { IfSome result (λ n. 1 ≤ n) }
    ensures most { IfSome result (λ n. n ≤ most) }
{
    let number = number_of(word)?;
    if number < 1 || number > most {
        return None;
    }
    Some(number)
}

/// Parses a number from 1 to `most` of at most `digits` digits.
pub fn short_count_of(word: &[u8], digits: usize, most: u16) -> Option<u16>
    ensures value { result ≡ short_count_of digits most word.now }
    ensures least { IfSome result (λ n. 1 ≤ n) }
    ensures most { IfSome result (λ n. n ≤ most) }
{
    if word.len() > digits {
        return None;
    }
    Some(count_of(word, u32::from(most))? as u16)
}

/// Parses a number from 1 to `most` of at most `size` digits, after an optional sign.
fn index_of(word: &[u8], size: usize, most: u16) -> Option<i16>
    requires { most ≤ 366 }
    ensures value { result ≡ index_of size most word.now }
    ensures most { IfSome result (λ z. unsigned_abs z ≤ most) }
{
    match word {
        [b'-', digits @ ..] => Some(-(short_count_of(digits, size, most)? as i16)),
        [b'+', digits @ ..] => Some(short_count_of(digits, size, most)? as i16),
        _ => Some(short_count_of(word, size, most)? as i16),
    }
}

/// Parses the number of a month, from 1 to 12.
pub fn month_of(word: &[u8]) -> Option<Month>
    ensures { result ≡ month_of word.now }
{
    Month::try_from(short_count_of(word, 2, 12)? as u8).ok()
}

/// Parses a day of the month or a week, from 1 to `most`, or from -1 for the last one to `-most`.
/// It is never past 53.
pub fn small_index_of(word: &[u8], most: u16) -> Option<i8>
    ensures { result ≡ small_index_of most word.now }
{
    Some(index_of(word, 2, most.min(53))? as i8)
}

/// Parses a day of the year or a position, from 1 to 366, or from -1 for the last one to -366.
pub fn position_of(word: &[u8]) -> Option<i16>
    ensures { result ≡ position_of word.now }
{
    index_of(word, 3, 366)
}

/// Parses a weekday, after an optional index within the month or the year, such as `FR` or `-1FR`.
/// The index is from 1 to 53, or from -1 for the last one to -53.
pub fn by_day_of(word: &[u8]) -> Option<ByDay>
    ensures { result ≡ by_day_of word.now }
{
    if word.len() <= 2 {
        return Some(ByDay::Every(weekday_of(word)?));
    }
    let front = word.len() - 2;
    let index = index_of(&word[..front], 2, 53)?;
    Some(ByDay::Nth(index as i8, weekday_of(&word[front..])?))
}
