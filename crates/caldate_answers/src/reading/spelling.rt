//! Moments that are spelled in another way than in the six forms.
ghost use Rattle.std.specs.Prelude.{◌≡◌, ◌+◌, ◌≤◌, ◌++◌, [], IfErr, IfOk, IsSomeAnd, MatchOption, Err, Ok, Some, None, length};
ghost use Rattle.cal_text.specs.AnyForm.{IsTextOf};
ghost use Rattle.cal_text.specs.declared.any.DateOrMoment.{DateOrMoment};
ghost use Rattle.caldate_answers.specs.Readers.{IsUnspelled};
ghost use Rattle.caldate_lines.specs.Reasons.{brief_reason_of};
ghost use Rattle.caldate_answers.specs.Spellings.{begins_with_at, full_by, is_sign, iso_text, unix_text, with_colon, with_point};
ghost use Rattle.caldate_lines.specs.declared.no_answer.NoAnswer.{NoAnswer};

use crate::reading::full_text::{FullText, LONGEST};
use cal_text::{DateOrMoment, ParseError, parse_any};
use caldate_lines::no_answer::NoAnswer;

/// A spelling of moments.
#[derive(Clone, Copy)]
pub enum Spelling {
    /// RFC 3339, also with a comma before the fraction, and with an offset such as `+0100` or
    /// `+01`.
    Iso,
    /// Seconds since 1970, also without the `@`.
    Seconds,
}

impl Spelling {
    /// Parses a string in this spelling, or returns why it can't be read.
    pub fn read(self, text: &[u8]) -> Result<DateOrMoment, NoAnswer>
        ensures every { (found : DateOrMoment)
            → IsSomeAnd (full_by self text.now) (λ full. IsTextOf full found) → result ≡ Ok found }
        ensures has { IfOk result (λ found.
            IsSomeAnd (full_by self text.now) (λ full. IsTextOf full found)) }
        ensures every_error { (why : NoAnswer)
            → ((found : DateOrMoment) → ¬ IsSomeAnd (full_by self text.now) (λ full. IsTextOf full found))
            → IsUnspelled self text.now why → result ≡ Err why }
        ensures error { IfErr result (IsUnspelled self text.now) }
    {
        match self.full(text) {
            Some(full) => match parse_any(full.as_bytes()) {
                Ok(found) => Ok(found),
                Err(error) => Err(brief_reason_of(error)),
            },
            None => Err(NoAnswer::NoForm),
        }
    }

    /// Returns the string in one of the six forms, or `None` if it is too long.
    fn full(self, text: &[u8]) -> Option<FullText>
        ensures { result ≡ full_by self text.now }
    {
        if text.len() > LONGEST {
            return None;
        }
        match self {
            Spelling::Iso => Some(iso_text(text)),
            Spelling::Seconds => Some(unix_text(text)),
        }
    }
}

/// Returns the reason why a string can't be read, without a position.
fn brief_reason_of(error: ParseError) -> NoAnswer
    ensures { result ≡ brief_reason_of error }
{
    match error {
        ParseError::UnexpectedByte(_) | ParseError::UnexpectedEnd(_) => NoAnswer::NoForm,
        ParseError::OutOfRange(component) => NoAnswer::Rejected(component),
    }
}

/// Returns the moment of ISO 8601 in RFC 3339.
fn iso_text(text: &[u8]) -> FullText
    requires { length text.now ≤ 60 }
    ensures { result ≡ iso_text text.now }
{
    if text.len() < 20 {
        let mut full = FullText::new();
        full.push(text);
        return full;
    }
    let pointed = with_point(text);
    with_colon(pointed.as_bytes())
}

/// Replaces a comma before the fraction by a point.
fn with_point(text: &[u8]) -> FullText
    requires { (20 ≤ length text.now) × (length text.now ≤ 60) }
    ensures text { result ≡ with_point text.now }
    ensures same_length { length result ≡ length text.now }
{
    let mut full = FullText::new();
    full.push(&text[..19]);
    if text[19] == b',' {
        full.push(b".");
    } else {
        full.push(&text[19..20]);
    }
    full.push(&text[20..]);
    full
}

/// Adds the colon of an offset such as `+0100`, or the minutes of one such as `+01`.
fn with_colon(text: &[u8]) -> FullText
    requires { (20 ≤ length text.now) × (length text.now ≤ 60) }
    ensures { result ≡ with_colon text.now }
{
    let mut full = FullText::new();
    let end = text.len();
    if is_sign(text[end - 5]) {
        full.push(&text[..end - 2]);
        full.push(b":");
        full.push(&text[end - 2..]);
    } else {
        full.push(text);
        if is_sign(text[end - 3]) {
            full.push(b":00");
        }
    }
    full
}

fn is_sign(byte: u8) -> bool
    ensures { result ≡ is_sign byte }
{
    byte == b'+' || byte == b'-'
}

/// Returns the seconds with an `@`.
pub fn unix_text(text: &[u8]) -> FullText
    requires { length text.now ≤ 60 }
    ensures { result ≡ unix_text text.now }
{
    let mut full = FullText::new();
    if !begins_with_at(text) {
        full.push(b"@");
    }
    full.push(text);
    full
}

fn begins_with_at(text: &[u8]) -> bool
    ensures { result ≡ begins_with_at text.now }
{
    match text {
        [first, ..] => *first == b'@',
        [] => false,
    }
}
