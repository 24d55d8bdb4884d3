//! The bounds of `keep`, from words.
ghost use Rattle.std.specs.Prelude.{◌+◌, ◌<◌, ◌^◌};

use crate::args::word_error::{Expected, WordError, word_error_at};
use crate::args::words::{check_end, found_at, keyword_at, word_at};
use cal_datetime::OffsetDateTime;
use cal_text::DateOrMoment;
use caldate_answers::request::Bounds;

/// Parses `from A to B`, `after A` or `before B`.
pub fn bounds_at(words: &[u8], at: usize, now: Option<OffsetDateTime>) -> Result<Bounds, WordError>
    requires { at + 4 < 2 ^ 64 }
{
    let unbound = word_error_at(at, Expected::Bounds);
    let word = word_at(words, at).ok_or(unbound)?;
    if word == b"from".as_slice() {
        range_at(words, at + 1, now)
    } else if word == b"after".as_slice() {
        Ok(Bounds::After(bound_at(words, at + 1, now)?))
    } else if word == b"before".as_slice() {
        Ok(Bounds::Before(bound_at(words, at + 1, now)?))
    } else {
        Err(unbound)
    }
}

fn bound_at(words: &[u8], at: usize, now: Option<OffsetDateTime>) -> Result<DateOrMoment, WordError>
    requires { at + 1 < 2 ^ 64 }
{
    let bound = found_at(words, at, Expected::Target, now)?;
    check_end(words, at + 1)?;
    Ok(bound)
}

/// Parses `A to B`.
fn range_at(words: &[u8], at: usize, now: Option<OffsetDateTime>) -> Result<Bounds, WordError>
    requires { at + 3 < 2 ^ 64 }
{
    let first = found_at(words, at, Expected::Target, now)?;
    keyword_at(words, at + 1, b"to", Expected::UpTo)?;
    Ok(Bounds::FromTo(first, bound_at(words, at + 2, now)?))
}
