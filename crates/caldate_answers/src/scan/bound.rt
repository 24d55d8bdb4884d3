//! The maximum length of a string at the front of some bytes.
ghost use Rattle.std.specs.Prelude.{◌≡◌, ℕ, ℤ, List, ◌<◌, ◌≤◌, ◌++◌, IsSomeAnd, Some, length, take, true};
ghost use Rattle.cal_format.specs.Form.{HasForm};
ghost use Rattle.cal_text.specs.AnyForm.{HasAnyForm};
ghost use Rattle.cal_time.specs.declared.error.ComponentRange.{ComponentRange};
ghost use Rattle.cal_text.specs.declared.any.DateOrMoment.{DateOrMoment};
ghost use Rattle.caldate_lines.specs.declared.no_answer.NoAnswer.{NoAnswer};
ghost use Rattle.caldate_answers.specs.FormatErrors.{IsFormatError};
ghost use Rattle.caldate_answers.specs.Languages.{IsTextInLanguage};
ghost use Rattle.caldate_answers.specs.Readers.{IsFormatText, IsFoundBy, IsTextBy, IsUnread, IsUnreadBy, has_form};
ghost use Rattle.caldate_answers.specs.Readings.{HasFormIn};
ghost use Rattle.caldate_answers.specs.Scans.{Bounds, IsText};
ghost use Rattle.caldate_answers.specs.Spellings.{full_by};
ghost use Rattle.caldate_answers.specs.declared.reading.reader.Assumptions.{Assumptions};

use crate::reading::full_text::LONGEST;
use crate::reading::in_language::LanguageFormat;
use crate::reading::reader::{Assumptions, Reader};
use crate::reading::spelling::{Spelling, unix_text};
use crate::reading::value_format::ValueFormat;
use crate::reading::{Reading, read_in};
use crate::request::Filter;
use crate::scan::byte_at;
use crate::scan::start::has_usual;
use crate::scan::variant_bound::variant_bound;
use cal_format::{Format, ParseError as FormatError};
use cal_text::ParseError;
use cal_time::UtcOffset;

/// How many bytes at the front of a moment of ISO 8601 are as in RFC 3339.
const UNCHANGED: usize = 18;

/// How many bytes at the end of a moment of ISO 8601 can be after a colon that it lacks.
const PAST_COLON: usize = 2;

/// The index of a comma before the fraction of a moment.
const COMMA_INDEX: usize = 19;

/// Returns a length that no string at the front of the bytes exceeds.
pub fn bound_of(filter: &Filter<'_>, bytes: &[u8]) -> usize
    ensures within { result ≤ length bytes.now }
    ensures none { (n : ℕ) → result < n → n ≤ length bytes.now
        → ¬ IsText filter.now (take n bytes.now) }
{
    let readers = filter.readers.as_slice();
    // No other form needs the bound for the six forms, and each call costs much.
    let any = if has_usual(readers) {
        bound_by_form(Reading::Any, bytes)
    } else {
        bytes.len()
    };
    bound_in(readers, &filter.assumptions, any, bytes)
}

/// Returns the bound for strings in any of the forms. `any` is the bound for the six forms.
fn bound_in(readers: &[Reader], assumptions: &Assumptions, any: usize, bytes: &[u8]) -> usize
    requires { Bounds (HasFormIn Reading.Any) bytes.now any }
    ensures within { result ≤ length bytes.now }
    ensures found { (n : ℕ) (found : DateOrMoment) → n ≤ length bytes.now
        → IsFoundBy assumptions.now readers.now (take n bytes.now) found → n ≤ result }
    ensures rejected { (n : ℕ) (why : NoAnswer) → n ≤ length bytes.now
        → IsUnread assumptions.now readers.now (take n bytes.now) why → has_form why ≡ true
        → n ≤ result }
{
    match readers {
        [] => 0,
        [first, others @ ..] => {
            bound_by(first, assumptions, any, bytes).max(bound_in(others, assumptions, any, bytes))
        }
    }
}

/// Returns the bound for strings in one of the forms.
fn bound_by(reader: &Reader, assumptions: &Assumptions, any: usize, bytes: &[u8]) -> usize
    requires { Bounds (HasFormIn Reading.Any) bytes.now any }
    ensures within { result ≤ length bytes.now }
    ensures text { (n : ℕ) (found : DateOrMoment) → n ≤ length bytes.now
        → IsTextBy assumptions.now reader.now (take n bytes.now) found → n ≤ result }
    ensures rejected { (n : ℕ) (why : NoAnswer) → n ≤ length bytes.now
        → IsUnreadBy assumptions.now reader.now (take n bytes.now) why → has_form why ≡ true
        → n ≤ result }
{
    match reader {
        Reader::Named(reading) => bound_by_name(*reading, any, bytes),
        Reader::Local => bound_by_form(Reading::Local(assumptions.offset), bytes),
        Reader::Spelled(spelling) => bound_by_spelling(*spelling, any, bytes),
        Reader::Format(format) => bound_by_format(format, bytes),
        Reader::Yearless(format) => bound_by_format(format, bytes),
    }
}

/// Returns the bound for strings in a form with a name.
fn bound_by_name(reading: Reading, any: usize, bytes: &[u8]) -> usize
    requires { Bounds (HasFormIn Reading.Any) bytes.now any }
    ensures { Bounds (HasFormIn reading) bytes.now result }
{
    match reading {
        Reading::Any => any,
        _ => bound_by_form(reading, bytes),
    }
}

/// Returns the position at which the bytes leave the form, or their length if they don't.
fn bound_by_form(reading: Reading, bytes: &[u8]) -> usize
    ensures { Bounds (HasFormIn reading) bytes.now result }
{
    match read_in(reading, bytes) {
        Ok(_found) => bytes.len(),
        Err(error) => match error {
            ParseError::UnexpectedByte(at) | ParseError::UnexpectedEnd(at) => at,
            ParseError::OutOfRange(_component) => bytes.len(),
        },
    }
}

/// Returns the bound for fronts of the strings in a format.
pub fn bound_by_format(format: &ValueFormat, bytes: &[u8]) -> usize
    ensures within { result ≤ length bytes.now }
    ensures front { (offset : ℤ) (n : ℕ) (more : List ℕ) (found : DateOrMoment)
        → n ≤ length bytes.now
        → IsFormatText offset format.now (take n bytes.now ++ more) found → n ≤ result }
    ensures error { (n : ℕ) (more : List ℕ) (why : ComponentRange) → n ≤ length bytes.now
        → IsFormatError format.now (take n bytes.now ++ more) why → n ≤ result }
{
    match format {
        ValueFormat::Dates(format) => bound_by_items(format.as_format(), bytes),
        ValueFormat::Moments(format) => bound_by_items(format.as_format(), bytes),
        ValueFormat::DateTimes(format) => bound_by_items(format.as_format(), bytes),
        ValueFormat::Lenient(format) => variant_bound(format.as_format().items(), false, bytes),
        ValueFormat::InLanguage(format) => bound_in_language(format, bytes),
    }
}

/// Returns the position at which the bytes leave the form of a format with names, or their length
/// if they don't.
fn bound_in_language(format: &LanguageFormat, bytes: &[u8]) -> usize
    ensures within { result ≤ length bytes.now }
    ensures front { (offset : ℤ) (n : ℕ) (more : List ℕ) (found : DateOrMoment)
        → n ≤ length bytes.now
        → IsTextInLanguage offset format.now.0 format.now.1 (take n bytes.now ++ more) found
        → n ≤ result }
    ensures error { (n : ℕ) (more : List ℕ) (any : ComponentRange)
        → n ≤ length bytes.now
        → IsFormatError (ValueFormat.InLanguage format.now) (take n bytes.now ++ more) any
        → n ≤ result }
{
    // It states which strings have the form of the items.
    let _items = format.as_format();
    match format.parse(UtcOffset::UTC, bytes) {
        Ok(_found) => bytes.len(),
        Err(error) => match error {
            FormatError::UnexpectedByte(at) | FormatError::UnexpectedEnd(at) => at,
            FormatError::OutOfRange(_) | FormatError::Contradiction(_) => bytes.len(),
        },
    }
}

/// Returns the position at which the bytes leave the form of a format, or their length if they
/// don't.
fn bound_by_items(format: &Format, bytes: &[u8]) -> usize
    ensures { Bounds (HasForm format.now) bytes.now result }
{
    match format.first_mismatch(bytes) {
        Some(at) => at,
        None => bytes.len(),
    }
}

/// Returns the bound for strings in a spelling.
fn bound_by_spelling(spelling: Spelling, any: usize, bytes: &[u8]) -> usize
    requires { Bounds (HasFormIn Reading.Any) bytes.now any }
    ensures within { result ≤ length bytes.now }
    ensures form { (n : ℕ) → n ≤ length bytes.now
        → IsSomeAnd (full_by spelling (take n bytes.now)) HasAnyForm → n ≤ result }
{
    match spelling {
        Spelling::Iso => bound_by_iso(any, bytes),
        Spelling::Seconds => bound_by_seconds(bytes),
    }
}

/// Returns the bound for strings of ISO 8601, which begin as in the six forms.
fn bound_by_iso(any: usize, bytes: &[u8]) -> usize
    requires { Bounds (HasFormIn Reading.Any) bytes.now any }
    ensures within { result ≤ length bytes.now }
    ensures form { (n : ℕ) → n ≤ length bytes.now
        → IsSomeAnd (full_by Spelling.Iso (take n bytes.now)) HasAnyForm → n ≤ result }
{
    if any < UNCHANGED {
        return any;
    }
    let longest = bytes.len().min(LONGEST);
    if byte_at(bytes, COMMA_INDEX) == b',' {
        longest
    } else {
        longest.min(any + PAST_COLON)
    }
}

/// Returns the bound for strings of seconds, which may lack the `@` of the six forms.
fn bound_by_seconds(bytes: &[u8]) -> usize
    ensures within { result ≤ length bytes.now }
    ensures form { (n : ℕ) → n ≤ length bytes.now
        → IsSomeAnd (full_by Spelling.Seconds (take n bytes.now)) HasAnyForm → n ≤ result }
{
    let front = &bytes[..bytes.len().min(LONGEST)];
    let full = unix_text(front);
    let added = full.as_bytes().len().saturating_sub(front.len());
    bound_by_form(Reading::Any, full.as_bytes()).saturating_sub(added)
}
