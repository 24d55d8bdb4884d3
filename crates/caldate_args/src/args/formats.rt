//! Formats in the words of the arguments.
ghost use Rattle.std.specs.Prelude.{IfSome, IsTrue};
ghost use Rattle.cal_format.specs.Reading.{are_moment_items};

use crate::args::names::{FORMATS, FORMS, NamedReader, READERS, value_named};
use crate::data_files::data_error::DataError;
use cal_format::{Component, Format, Item, Padding};
use cal_named_format::{NamesError, table_of};
use cal_names::Names;
use cal_text::MomentForm;
use caldate_answers::reading::Reading;
use caldate_answers::reading::in_language::{LanguageFormat, LanguageKind};
use caldate_answers::reading::reader::Reader;
use caldate_answers::reading::spelling::Spelling;
use caldate_answers::reading::value_format::ValueFormat;
use caldate_answers::request::{Form, Place, Request};
use caldate_lines::lines::index_of;
use std::str;

/// The maximum number of items of a format that the year follows.
const LONGEST_YEARLESS: usize = 62;

/// Returns the string of a format that has a name, or the word itself.
fn format_named(word: &[u8]) -> &[u8] {
    match value_named(word, &FORMATS) {
        Some(text) => text.as_bytes(),
        None => word,
    }
}

/// Returns whether the word contains a `%`, or is the name of a format.
fn is_format(word: &[u8]) -> bool {
    index_of(b'%', format_named(word)).is_some()
}

/// Parses a format, or the name of one. A line has no zone, so `%Z` is not allowed.
pub fn format_of(word: &[u8]) -> Option<Format>
    ensures has { IfSome result (λ items. IsTrue (are_moment_items items)) }
{
    match str::from_utf8(format_named(word)) {
        Ok(text) => match Format::new(text) {
            Ok(format) => {
                if format.shows_abbreviation() {
                    None
                } else {
                    Some(format)
                }
            }
            Err(_) => None,
        },
        Err(_) => None,
    }
}

/// Returns the names for a format. A format that has a name, such as `rfc2822`, has English names.
pub fn names_for(
    word: &[u8],
    names: Option<&'static Names<'static>>,
) -> Option<&'static Names<'static>> {
    if index_of(b'%', word).is_some() {
        names
    } else {
        None
    }
}

/// Returns whether the form is read with the names of a language.
pub fn is_in_language(reader: &Reader) -> bool {
    match reader {
        Reader::Format(ValueFormat::InLanguage(_)) => true,
        Reader::Yearless(ValueFormat::InLanguage(_)) => true,
        _ => false,
    }
}

/// Returns the form with the names of the language if it is a format, or the error if a string could
/// have two values.
// A form is large, so the frame of the caller doesn't have its copies.
#[inline(never)]
pub fn in_language(reader: Reader, names: &'static Names<'static>) -> Result<Reader, NamesError> {
    match reader {
        Reader::Format(format) => Ok(Reader::Format(named_format(format, names)?)),
        Reader::Yearless(format) => Ok(Reader::Yearless(named_format(format, names)?)),
        other => Ok(other),
    }
}

/// Returns the format with the names of a language, or the error if two values could have the same
/// string.
fn named_format(
    format: ValueFormat,
    names: &'static Names<'static>,
) -> Result<ValueFormat, NamesError> {
    let kind = match format {
        ValueFormat::Dates(format) => LanguageKind::Dates(format),
        ValueFormat::Moments(format) => LanguageKind::Moments(format),
        ValueFormat::DateTimes(format) => LanguageKind::DateTimes(format),
        other => return Ok(other),
    };
    Ok(ValueFormat::InLanguage(LanguageFormat::new(names, kind)?))
}

/// Returns the reason for an error in a format.
#[inline(never)]
pub fn reason_of(
    error: NamesError,
    word: &[u8],
    names: &'static Names<'static>,
) -> Option<DataError<'static>> {
    match error {
        NamesError::AmbiguousNumber(_, byte) => Some(DataError::Number(byte)),
        NamesError::AmbiguousNames(item, name, other) => {
            let format = format_of(word)?;
            let Item::Name(kind) = *format.items().get(item)? else {
                return None;
            };
            let table = table_of(names, kind);
            Some(DataError::Names(*table.get(name)?, *table.get(other)?))
        }
    }
}

/// Parses the argument of `to`: the name of a form, or a format, perhaps with the names of a
/// language.
pub fn to_of(word: &[u8], names: Option<&'static Names<'static>>) -> Option<Request<'static>> {
    if is_format(word) {
        let format = format_of(word)?;
        Some(match names_for(word, names) {
            Some(names) => Request::PrintInLanguage(format, names),
            None => Request::Print(format),
        })
    } else if is_iso(word) {
        Some(Request::ToIso)
    } else {
        Some(Request::To(form_of(word)?))
    }
}

/// Parses the argument of `to` after `at` and a place.
pub fn to_at_place_of<'a>(
    word: &[u8],
    place: Place<'a>,
    names: Option<&'static Names<'static>>,
) -> Option<Request<'a>> {
    if is_format(word) {
        let format = format_of(word)?;
        Some(match names_for(word, names) {
            Some(names) => Request::PrintInLanguageAt(place, format, names),
            None => Request::PrintAt(place, format),
        })
    } else if is_iso(word) {
        Some(Request::At(place, Form::Moment(MomentForm::Rfc3339)))
    } else {
        Some(Request::At(place, form_of(word)?))
    }
}

/// Returns whether the word is `iso`, the form of a date or of a moment.
fn is_iso(word: &[u8]) -> bool {
    word == b"iso".as_slice()
}

/// Parses the name of a form.
fn form_of(word: &[u8]) -> Option<Form> {
    value_named(word, &FORMS)
}

/// Parses the argument of `--read`: the name of a form, or a format that determines a date, a
/// moment with its offset, or a moment without one, either itself or with a year after it.
pub fn reader_of(word: &[u8]) -> Option<Reader> {
    if is_format(word) {
        reader_with(word)
    } else {
        reader_named(word)
    }
}

/// Returns the form of strings in a format.
fn reader_with(word: &[u8]) -> Option<Reader> {
    match value_format_of(word, false) {
        Some(format) => Some(Reader::Format(format)),
        None => match value_format_of(word, true) {
            Some(format) => Some(Reader::Yearless(format)),
            None => None,
        },
    }
}

/// Parses a format, with `/%Y` after it if `dated` is `true`, and returns it if it determines a
/// date or a moment.
fn value_format_of(word: &[u8], dated: bool) -> Option<ValueFormat> {
    if let Some(format) = format_with(word, dated)?.for_dates() {
        return Some(ValueFormat::Dates(format));
    }
    if let Some(format) = format_with(word, dated)?.for_offset_date_times() {
        return Some(ValueFormat::Moments(format));
    }
    match format_with(word, dated)?.for_date_times() {
        Some(format) => Some(ValueFormat::DateTimes(format)),
        None => None,
    }
}

/// Parses a format, and appends `/%Y` if `dated` is `true`.
fn format_with(word: &[u8], dated: bool) -> Option<Format> {
    let mut format = format_of(word)?;
    if !dated {
        return Some(format);
    }
    if format.items().len() > LONGEST_YEARLESS {
        return None;
    }
    format.try_push(Item::Literal(b'/'));
    format.try_push(Item::Number(Component::Year, Padding::Zero));
    Some(format)
}

fn reader_named(word: &[u8]) -> Option<Reader> {
    match value_named(word, &READERS)? {
        NamedReader::Date(order) => Some(Reader::Named(Reading::Date(order))),
        NamedReader::Unix(unit) => Some(Reader::Named(Reading::Unix(unit))),
        NamedReader::Seconds => Some(Reader::Spelled(Spelling::Seconds)),
        NamedReader::Local => Some(Reader::Local),
        NamedReader::Iso => Some(Reader::Named(Reading::IsoMoment)),
    }
}
