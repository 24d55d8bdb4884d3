//! Words of the arguments by index, and their meaning.
ghost use Rattle.std.specs.Prelude.{◌+◌, ◌<◌, ◌^◌};
ghost use Rattle.std.specs.Prelude.{◌≤◌, length};
ghost use Rattle.caldate_args.specs.Words.{bytes_left};

use crate::args::clock_words::clock_word;
use crate::args::word_error::{Expected, WordError, word_error_at};
use cal_datetime::OffsetDateTime;
use cal_text::{DateOrMoment, parse_any};
use caldate_lines::lines::index_of;

/// Splits off the first word, and returns the words after its zero byte, if it has one.
pub fn cut(words: &[u8]) -> (&[u8], Option<&[u8]>)
    ensures { bytes_left result.1 ≤ length words.now }
{
    match index_of(0, words) {
        Some(at) => (&words[..at], Some(&words[at + 1..])),
        None => (words, None),
    }
}

/// Returns the word at an index, if there is one.
pub fn word_at(words: &[u8], at: usize) -> Option<&[u8]> {
    let mut left = Some(words);
    for _ in 0..at {
        left = cut(left?).1;
    }
    Some(cut(left?).0)
}

/// Applies `meaning` to the word at an index. The error expects `expected` there.
pub fn word_as<T: Drop, F: FnOnce(&[u8]) -> Option<T>>(
    words: &[u8],
    at: usize,
    meaning: F,
    expected: Expected,
) -> Result<T, WordError>
    requires { F.IsAlwaysCallable meaning }
{
    word_at(words, at)
        .and_then(meaning)
        .ok_or(word_error_at(at, expected))
}

/// Checks that the word at an index is `name`.
pub fn keyword_at(
    words: &[u8],
    at: usize,
    name: &[u8],
    expected: Expected,
) -> Result<(), WordError> {
    if is_word_at(words, at, name) {
        Ok(())
    } else {
        Err(word_error_at(at, expected))
    }
}

/// Returns whether the word at an index is `name`.
fn is_word_at(words: &[u8], at: usize, name: &[u8]) -> bool {
    match word_at(words, at) {
        Some(word) => word == name,
        None => false,
    }
}

/// Parses the word at an index as a date or a moment, which may be `today` or `now`.
pub fn found_at(
    words: &[u8],
    at: usize,
    expected: Expected,
    now: Option<OffsetDateTime>,
) -> Result<DateOrMoment, WordError> {
    match word_at(words, at) {
        Some(word) => found_in(word, now).ok_or(word_error_at(at, expected)),
        None => Err(word_error_at(at, expected)),
    }
}

fn found_in(text: &[u8], now: Option<OffsetDateTime>) -> Option<DateOrMoment> {
    if let Some(found) = clock_word(text, now) {
        return Some(found);
    }
    match parse_any(text) {
        Ok(found) => Some(found),
        Err(_) => None,
    }
}

/// Returns whether the words end at the index or before it.
pub fn ends_at(words: &[u8], at: usize) -> bool {
    word_at(words, at).is_none()
}

/// Returns an error unless the words end at the index or before it.
pub fn check_end(words: &[u8], at: usize) -> Result<(), WordError> {
    if ends_at(words, at) {
        Ok(())
    } else {
        Err(word_error_at(at, Expected::End))
    }
}

/// Applies `meaning` to the word at an index, which must be the last one.
pub fn only_at<T: Drop, F: FnOnce(&[u8]) -> Option<T>>(
    words: &[u8],
    at: usize,
    meaning: F,
    expected: Expected,
) -> Result<T, WordError>
    requires calls { F.IsAlwaysCallable meaning }
    requires fits { at + 1 < 2 ^ 64 }
{
    let meaning = word_as(words, at, meaning, expected)?;
    check_end(words, at + 1)?;
    Ok(meaning)
}
