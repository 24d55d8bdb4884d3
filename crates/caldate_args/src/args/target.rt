//! TEXT of `until` and `since`, and the measure after it.
ghost use Rattle.std.specs.Prelude.{◌+◌, ◌<◌, ◌^◌};

use crate::args::options::{field_numbers_of, is_name};
use crate::args::spelling::measure_of;
use crate::args::word_error::{Expected, WordError, word_error_at};
use crate::args::words::{ends_at, found_at, keyword_at, only_at, word_at};
use cal_datetime::OffsetDateTime;
use caldate_answers::request::{Measure, Target};
use caldate_lines::field_name::FieldName;

/// Parses `TEXT` or `TEXT in UNIT`. TEXT may be `field N`, `field N-M` or `field NAME`.
pub fn target_at<'a>(
    words: &'a [u8],
    at: usize,
    now: Option<OffsetDateTime>,
) -> Result<(Target<'a>, Option<Measure>), WordError>
    requires { at + 4 < 2 ^ 64 }
{
    if names_field(words, at) {
        let other = other_at(words, at + 1)?;
        return Ok((other, in_measure_at(words, at + 2)?));
    }
    let target = found_at(words, at, Expected::Target, now)?;
    Ok((Target::Text(target), in_measure_at(words, at + 1)?))
}

/// Returns whether the word is `field`.
fn names_field(words: &[u8], at: usize) -> bool {
    match word_at(words, at) {
        Some(word) => word == b"field".as_slice(),
        None => false,
    }
}

/// Parses `N`, `N-M` or `NAME`.
fn other_at<'a>(words: &'a [u8], at: usize) -> Result<Target<'a>, WordError> {
    let error = word_error_at(at, Expected::FieldNumber);
    let word = word_at(words, at).ok_or(error)?;
    other_of(word).ok_or(error)
}

fn other_of<'a>(word: &'a [u8]) -> Option<Target<'a>> {
    if is_name(word) {
        return Some(Target::Name(FieldName::new(word)));
    }
    Some(Target::Fields(field_numbers_of(word)?))
}

/// Parses `in UNIT`, or returns `None` if the words end here.
fn in_measure_at(words: &[u8], at: usize) -> Result<Option<Measure>, WordError>
    requires { at + 2 < 2 ^ 64 }
{
    if ends_at(words, at) {
        return Ok(None);
    }
    keyword_at(words, at, b"in", Expected::In)?;
    let measure = only_at(words, at + 1, measure_of, Expected::Measure)?;
    Ok(Some(measure))
}
