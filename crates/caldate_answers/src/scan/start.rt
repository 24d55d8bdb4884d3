//! The bytes that start a string.
ghost use Rattle.std.specs.Prelude.{◌≡◌, ◌<◌, ◌≤◌, ℕ, List, Some, drop, false, length, slice_index, true};
ghost use Rattle.cal_text.specs.declared.any.DateOrMoment.{DateOrMoment};
ghost use Rattle.caldate_lines.specs.declared.no_answer.NoAnswer.{NoAnswer};
ghost use Rattle.caldate_answers.specs.Readers.{IsFoundBy, IsTextBy, IsUnread, IsUnreadBy, has_form};
ghost use Rattle.caldate_answers.specs.Scans.{AreUsual, IsUsual, are_digits, has_short_year, is_digit_or_hyphen, is_last, is_mark, is_usual_end, is_usual_start};
ghost use Rattle.caldate_answers.specs.declared.reading.reader.Assumptions.{Assumptions};

use crate::reading::Reading;
use crate::reading::reader::Reader;
use crate::reading::spelling::Spelling;
use crate::request::Filter;
use crate::scan::{byte_at, is_digit};

/// Returns whether the bytes may start a string in one of the six forms: by four digits and a
/// hyphen, by a sign, four digits, and a digit or a hyphen, or by `@` or `J` and a digit or a
/// hyphen.
#[inline(always)]
pub fn is_usual_start(bytes: &[u8]) -> bool
    ensures { result ≡ is_usual_start bytes.now }
{
    match byte_at(bytes, 0) {
        b'0'..=b'9' => byte_at(bytes, 4) == b'-' && are_digits(bytes, 0),
        b'-' | b'+' => is_digit_or_hyphen(byte_at(bytes, 5)) && are_digits(bytes, 1),
        b'@' | b'J' => is_digit_or_hyphen(byte_at(bytes, 1)),
        _ => false,
    }
}

/// Returns the first place from `from` on at which a string in one of the six forms may start, or a
/// place past the last byte.
pub fn usual_place(line: &[u8], from: usize) -> usize
    ensures from { from ≤ result }
    ensures none { (j : ℕ) → from ≤ j → j < result → is_usual_start (drop j line.now) ≡ false }
{
    let mut index = mark_index(line, from);
    while index < line.len() {
        // Four digits before a hyphen come first.
        if index - from >= 4 && is_usual_start(&line[index - 4..]) {
            return index - 4;
        }
        if is_usual_start(&line[index..]) {
            return index;
        }
        index = mark_index(line, index + 1);
    }
    index
}

/// Returns the first index from `from` on of a sign, an `@` or a `J`, or one past the last byte.
/// Most bytes are letters, digits and spaces.
#[inline(always)]
fn mark_index(line: &[u8], from: usize) -> usize
    ensures from { from ≤ result }
    ensures none { (j : ℕ) → from ≤ j → j < result → is_mark (slice_index line.now j) ≡ false }
    ensures mark { result < length line.now → is_mark (slice_index line.now result) ≡ true }
{
    let mut index = from;
    while index < line.len() && !is_mark(line[index]) {
        index += 1;
    }
    index
}

fn is_mark(byte: u8) -> bool
    ensures { result ≡ is_mark byte }
{
    byte == b'-' || byte == b'+' || byte == b'@' || byte == b'J'
}

/// Returns whether the bytes start with a sign before a year of four digits, as in `-2024-02-29`.
#[inline(always)]
pub fn has_short_year(bytes: &[u8]) -> bool
    ensures { result ≡ has_short_year bytes.now }
{
    let first = byte_at(bytes, 0);
    (first == b'+' || first == b'-') && byte_at(bytes, 5) == b'-' && are_digits(bytes, 1)
}

/// Returns whether the four bytes from an index on are digits.
fn are_digits(bytes: &[u8], from: usize) -> bool
    requires { from ≤ 1 }
    ensures { result ≡ are_digits bytes.now from }
{
    is_digit(byte_at(bytes, from))
        && is_digit(byte_at(bytes, from + 1))
        && is_digit(byte_at(bytes, from + 2))
        && is_digit(byte_at(bytes, from + 3))
}

/// Returns whether the first `count` bytes may end a string in one of the six forms: by a digit,
/// `Z` or `z`. After a digit at the start, a date has 8 or 10 bytes, and a moment 20 or more.
#[inline(always)]
pub fn is_usual_end(bytes: &[u8], count: usize) -> bool
    requires { 0 < count }
    ensures { result ≡ is_usual_end bytes.now count }
{
    is_last(byte_at(bytes, count - 1))
        && (!is_digit(byte_at(bytes, 0)) || count == 8 || count == 10 || count > 19)
}

fn is_last(byte: u8) -> bool
    ensures { result ≡ is_last byte }
{
    is_digit(byte) || byte == b'Z' || byte == b'z'
}

fn is_digit_or_hyphen(byte: u8) -> bool
    ensures { result ≡ is_digit_or_hyphen byte }
{
    is_digit(byte) || byte == b'-'
}

/// Returns `true` only if each string starts and ends as one of the six forms does.
pub fn all_usual(filter: &Filter<'_>) -> bool
    ensures { result ≡ true → AreUsual filter.now }
{
    are_usual(filter.readers.as_slice())
}

/// Returns `true` only if each string in one of these forms starts and ends as one of the six forms
/// does.
fn are_usual(readers: &[Reader]) -> bool
    ensures found { result ≡ true → (assumptions : Assumptions) (bytes : List ℕ) (found : DateOrMoment)
        → 0 < length bytes → IsFoundBy assumptions readers.now bytes found
        → IsUsual bytes }
    ensures rejected { result ≡ true → (assumptions : Assumptions) (bytes : List ℕ) (why : NoAnswer)
        → 0 < length bytes → IsUnread assumptions readers.now bytes why → has_form why ≡ true
        → IsUsual bytes }
{
    match readers {
        [] => true,
        [first, others @ ..] => is_usual(first) && are_usual(others),
    }
}

/// Returns whether one of the forms is the six forms, or ISO 8601. Only the speed depends on it.
pub fn has_usual(readers: &[Reader]) -> bool {
    match readers {
        [] => false,
        [first, others @ ..] => is_usual(first) || has_usual(others),
    }
}

/// Returns `true` only if each string in the form starts and ends as one of the six forms does.
fn is_usual(reader: &Reader) -> bool
    ensures text { result ≡ true → (assumptions : Assumptions) (bytes : List ℕ) (found : DateOrMoment)
        → 0 < length bytes → IsTextBy assumptions reader.now bytes found
        → IsUsual bytes }
    ensures rejected { result ≡ true → (assumptions : Assumptions) (bytes : List ℕ) (why : NoAnswer)
        → 0 < length bytes → IsUnreadBy assumptions reader.now bytes why → has_form why ≡ true
        → IsUsual bytes }
{
    match reader {
        Reader::Named(reading) => is_any(*reading),
        Reader::Spelled(spelling) => is_iso(*spelling),
        _ => false,
    }
}

fn is_any(reading: Reading) -> bool
    ensures { result ≡ true → reading ≡ Reading.Any }
{
    match reading {
        Reading::Any => true,
        _ => false,
    }
}

fn is_iso(spelling: Spelling) -> bool
    ensures { result ≡ true → spelling ≡ Spelling.Iso }
{
    match spelling {
        Spelling::Iso => true,
        Spelling::Seconds => false,
    }
}
