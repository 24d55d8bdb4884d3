//! The strings in a line that have a form.
ghost use Rattle.std.specs.Prelude.{◌≡◌, ℕ, ◌+◌, ◌<◌, ◌≤◌, IfSome, MatchOption, false, length, slice_index, take, true};
ghost use Rattle.caldate_answers.specs.Offsets.{is_digit, is_letter};
ghost use Rattle.caldate_answers.specs.Scans.{HasNoText, IsFirstText, IsLongestText, IsReadWith, IsText, IsTextAt, NoneFrom, AreUsual, StartWithDigits, byte_before, is_of_word, may_begin, part_at};

pub(crate) mod bound;
pub(crate) mod digit_bound;
pub(crate) mod digit_start;
pub(crate) mod found_text;
pub(crate) mod likely;
pub mod push;
pub(crate) mod start;
pub mod variant_bound;

use crate::answer::read_with;
use crate::reading::has_form;
use crate::request::Filter;
use crate::scan::bound::bound_of;
use crate::scan::digit_bound::digit_bound;
use crate::scan::digit_start::{digits_place, start_with_digits};
use crate::scan::found_text::FoundText;
use crate::scan::likely::is_likely;
use crate::scan::start::{all_usual, has_short_year, is_usual_end, usual_place};
use cal_text::DateOrMoment;
use caldate_lines::no_answer::NoAnswer;

/// Returns the first string from a place of the line on. In `due 2024-02-29, paid`, it has place 4
/// and 10 bytes.
pub fn first_text(filter: &Filter<'_>, line: &[u8], from: usize) -> Option<FoundText>
    ensures first { MatchOption result (HasNoText filter.now line.now from)
        (λ text. IsFirstText filter.now line.now from text.place text.count) }
    ensures read { IfSome result (λ text.
        IsReadWith filter.now (part_at line.now text.place text.count) text.read) }
    ensures within { IfSome result (λ text. (from ≤ text.place) × (0 < text.count)
        × (text.place + text.count ≤ length line.now)) }
{
    let usual = all_usual(filter);
    let digits = start_with_digits(filter);
    let mut place = first_start(filter, usual, digits, line, from);
    while place < line.len() {
        if may_begin(line, place) {
            if let Some(text) = longest_text(filter, usual, line, place) {
                return Some(text);
            }
        }
        place = first_start(filter, usual, digits, line, place + 1);
    }
    None
}

/// Returns a place from `from` on before which no string begins. With `usual` or `digits` the bytes
/// at the start of a string rule out most places.
#[inline(always)]
fn first_start(filter: &Filter<'_>, usual: bool, digits: bool, line: &[u8], from: usize) -> usize
    requires usual { usual ≡ true → AreUsual filter.now }
    requires digits { digits ≡ true → StartWithDigits filter.now }
    ensures from { from ≤ result }
    ensures none { NoneFrom filter.now line.now from result }
{
    if usual {
        usual_place(line, from)
    } else if digits {
        digits_place(line, from)
    } else {
        from
    }
}

/// Returns the longest text at a place that is not after a letter or a digit, if one begins there.
/// With `usual` its length and its last byte rule out most ends.
#[inline(never)]
fn longest_text(filter: &Filter<'_>, usual: bool, line: &[u8], place: usize) -> Option<FoundText>
    requires place { place ≤ length line.now }
    requires usual { usual ≡ true → AreUsual filter.now }
    requires before { may_begin line.now place ≡ true }
    ensures { MatchOption result ((n : ℕ) → ¬ IsTextAt filter.now line.now place n)
        (IsLongestText filter.now line.now place) }
{
    let mut count = bound_at(filter, usual, &line[place..]);
    while count > 0 {
        if !usual || is_usual_end(&line[place..], count) {
            if let Some(read) = read_at(filter, line, place, count) {
                return Some(FoundText { place, count, read });
            }
        }
        count -= 1;
    }
    None
}

/// Returns a length that no string at the front of the bytes exceeds. With `usual`, no string is
/// parsed for it after a digit.
fn bound_at(filter: &Filter<'_>, usual: bool, bytes: &[u8]) -> usize
    requires { usual ≡ true → AreUsual filter.now }
    ensures within { result ≤ length bytes.now }
    ensures none { (n : ℕ) → result < n → n ≤ length bytes.now
        → ¬ IsText filter.now (take n bytes.now) }
{
    if usual && is_digit(byte_at(bytes, 0)) {
        digit_bound(bytes).min(bytes.len())
    } else {
        bound_of(filter, bytes)
    }
}

/// Reads these bytes of the line, which follow no letter or digit, if they are a string.
fn read_at(
    filter: &Filter<'_>,
    line: &[u8],
    place: usize,
    count: usize,
) -> Option<Result<DateOrMoment, NoAnswer>>
    requires some { 0 < count }
    requires within { place + count ≤ length line.now }
    requires before { may_begin line.now place ≡ true }
    ensures { MatchOption result (¬ IsTextAt filter.now line.now place count)
        (λ read. IsTextAt filter.now line.now place count
        × IsReadWith filter.now (part_at line.now place count) read) }
{
    if is_of_word(byte_at(line, place + count)) {
        return None;
    }
    let bytes = part_at(line, place, count);
    if is_likely(filter, bytes) {
        read_text(filter, bytes)
    } else {
        None
    }
}

/// Returns the bytes from a place of the line on.
pub fn part_at(line: &[u8], place: usize, count: usize) -> &[u8]
    requires { place + count ≤ length line.now }
    ensures part { result.now ≡ part_at line.now place count }
    ensures length { length result.now ≡ count }
{
    &line[place..place + count]
}

/// Reads the bytes if they have one of the forms, perhaps with a component out of range.
fn read_text(filter: &Filter<'_>, bytes: &[u8]) -> Option<Result<DateOrMoment, NoAnswer>>
    requires { 0 < length bytes.now }
    ensures { MatchOption result (¬ IsText filter.now bytes.now)
        (λ read. IsText filter.now bytes.now × IsReadWith filter.now bytes.now read) }
{
    match read_with(filter, bytes) {
        Ok(found) => Some(Ok(found)),
        Err(why) => { if has_form(why) { Some(Err(why)) } else { None } }
    }
}

/// Returns whether a string may begin at a place: not after a letter or a digit, and not with a
/// sign before a year of four digits.
#[inline(always)]
fn may_begin(line: &[u8], place: usize) -> bool
    requires { place ≤ length line.now }
    ensures { result ≡ may_begin line.now place }
{
    !(is_of_word(byte_before(line, place)) || has_short_year(&line[place..]))
}

/// Returns the byte before a place, or 0 at the start of the line.
fn byte_before(line: &[u8], place: usize) -> u8
    ensures { result ≡ byte_before line.now place }
{
    if place == 0 {
        0
    } else {
        byte_at(line, place - 1)
    }
}

/// Returns the byte at an index, or 0 after the line.
#[inline(always)]
fn byte_at(line: &[u8], index: usize) -> u8
    ensures { result ≡ slice_index line.now index }
{
    match line.get(index) {
        Some(byte) => *byte,
        None => 0,
    }
}

/// Returns whether the byte is a letter or a digit.
fn is_of_word(byte: u8) -> bool
    ensures { result ≡ is_of_word byte }
{
    is_letter(byte) || is_digit(byte)
}

fn is_digit(byte: u8) -> bool
    ensures { result ≡ is_digit byte }
{
    byte.is_ascii_digit()
}

/// Returns whether the byte is a letter of ASCII.
pub fn is_letter(byte: u8) -> bool
    ensures { result ≡ is_letter byte }
{
    (byte >= b'A' && byte <= b'Z') || (byte >= b'a' && byte <= b'z')
}
