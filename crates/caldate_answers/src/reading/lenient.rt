//! Formats that are read leniently.
ghost use Rattle.std.specs.Prelude.{◌≡◌, ◌+◌, ◌≤◌, ◌++◌, ℤ, IfSome, IsTrue, None, Some, length, if◌then◌else◌};
ghost use Rattle.cal_format.specs.Lenient.{are_leniently_apart};
ghost use Rattle.caldate_answers.specs.Leniency.{IsForSameValues, IsLenientFormat, IsLenientReader, lacks_century_in, read_items, without_year};
ghost use Rattle.caldate_answers.specs.Readers.{IsReadIn};
ghost use Rattle.caldate_answers.specs.Variants.{lenient_items};
ghost use Rattle.caldate_answers.specs.declared.reading.lenient.LenientKind.{LenientKind};
ghost use Rattle.caldate_answers.specs.declared.reading.reader.Reader.{Reader};

use crate::reading::reader::Reader;
use crate::reading::value_format::{ValueFormat, format_reason_of, in_calendar, in_rfc3339};
use cal_format::{
    Format, Item, LenientDateFormat, LenientDateTimeFormat, LenientFormat,
    LenientOffsetDateTimeFormat,
};
use cal_text::DateOrMoment;
use cal_time::UtcOffset;
use caldate_lines::no_answer::NoAnswer;

/// A lenient format whose strings determine a date or a moment.
#[derive(Drop)]
pub enum LenientKind {
    /// A format of dates.
    Dates(LenientDateFormat),
    /// A format of moments with their offset.
    Moments(LenientOffsetDateTimeFormat),
    /// A format of moments without an offset.
    DateTimes(LenientDateTimeFormat),
}

impl LenientKind {
    /// Parses a variant of a string in this format, or returns why it can't be read. A string
    /// without an offset is at `offset`.
    pub fn read(&self, offset: UtcOffset, text: &[u8]) -> Result<DateOrMoment, NoAnswer>
        ensures { IsReadIn offset (ValueFormat.Lenient self.now) text.now result }
    {
        match self {
            LenientKind::Dates(format) => read_date(format, text),
            LenientKind::Moments(format) => read_moment(format, text),
            LenientKind::DateTimes(format) => read_date_time(format, offset, text),
        }
    }

    /// Returns its items as a format of any values.
    pub fn as_format(&self) -> &Format
        ensures items { result.now ≡ lenient_items self.now }
        ensures apart { IsTrue (are_leniently_apart (lenient_items self.now)) }
    {
        match self {
            LenientKind::Dates(format) => format.as_format(),
            LenientKind::Moments(format) => format.as_format(),
            LenientKind::DateTimes(format) => format.as_format(),
        }
    }
}

/// Parses a variant of a date.
fn read_date(format: &LenientDateFormat, text: &[u8]) -> Result<DateOrMoment, NoAnswer>
    ensures { (offset : ℤ)
        → IsReadIn offset (ValueFormat.Lenient (LenientKind.Dates format.now)) text.now result }
{
    match format.parse(text) {
        Ok(date) => Ok(in_calendar(date)),
        Err(error) => Err(format_reason_of(error)),
    }
}

/// Parses a variant of a moment with its offset.
fn read_moment(format: &LenientOffsetDateTimeFormat, text: &[u8]) -> Result<DateOrMoment, NoAnswer>
    ensures { (offset : ℤ)
        → IsReadIn offset (ValueFormat.Lenient (LenientKind.Moments format.now)) text.now result }
{
    match format.parse(text) {
        Ok(moment) => Ok(in_rfc3339(moment)),
        Err(error) => Err(format_reason_of(error)),
    }
}

/// Parses a variant of a moment at an offset.
fn read_date_time(
    format: &LenientDateTimeFormat,
    offset: UtcOffset,
    text: &[u8],
) -> Result<DateOrMoment, NoAnswer>
    ensures { IsReadIn offset (ValueFormat.Lenient (LenientKind.DateTimes format.now)) text.now
        result }
{
    match format.parse(text) {
        Ok(local) => Ok(in_rfc3339(local.assume_offset(offset))),
        Err(error) => Err(format_reason_of(error)),
    }
}

/// Returns the form whose format is read leniently. A pivot is for a format whose only year is
/// `%y`. Returns `None` for a form that isn't a format, or if two dates or moments could have the
/// same string.
///
/// For `%d %b %Y`, the form reads `9 FEB 2024`. `%Y%m%d` gives `None`, as `2024111` could be two
/// dates.
pub fn lenient_reader(reader: &Reader, pivot: Option<u16>) -> Option<Reader>
    ensures every { (found : Reader) → IsLenientReader pivot reader.now found
        → result ≡ Some found }
    ensures has { IfSome result (IsLenientReader pivot reader.now) }
{
    match reader {
        Reader::Format(format) => {
            let lenient = lenient_format(format, None)?;
            Some(Reader::Format(ValueFormat::Lenient(lenient)))
        }
        Reader::Yearless(format) => {
            let own = if lacks_century(reader) { pivot } else { None };
            let lenient = ValueFormat::Lenient(lenient_format(format, own)?);
            Some(match own {
                Some(_) => Reader::Format(lenient),
                None => Reader::Yearless(lenient),
            })
        }
        _ => None,
    }
}

/// Returns whether the form is a format whose only year is `%y`, such as `%d.%m.%y`.
pub fn lacks_century(reader: &Reader) -> bool
    ensures { result ≡ lacks_century_in reader.now }
{
    match reader {
        Reader::Yearless(format) => without_year(format.as_format()).lacks_century(),
        _ => false,
    }
}

/// Returns the lenient format for the same values, or `None` if two of them could have the same
/// string. With a pivot it lacks the year that follows a format without one.
fn lenient_format(format: &ValueFormat, pivot: Option<u16>) -> Option<LenientKind>
    ensures every { (found : LenientKind) → IsLenientFormat pivot format.now found
        → result ≡ Some found }
    ensures has { IfSome result (IsLenientFormat pivot format.now) }
{
    let items = read_items(format.as_format(), pivot);
    let lenient = lenient_with(items, pivot);
    for_same_values(format, lenient)
}

/// Returns all items, or with a pivot those before the slash and the year at the end.
fn read_items(format: &Format, pivot: Option<u16>) -> Format
    ensures { result ≡ read_items pivot format.now }
{
    match pivot {
        Some(_) => without_year(format),
        None => copy_of(format.items()),
    }
}

/// Returns the lenient format, with a pivot if there is one.
fn lenient_with(format: Format, pivot: Option<u16>) -> LenientFormat
    ensures items { result.format ≡ format }
    ensures pivot { result.pivot ≡ pivot }
{
    match pivot {
        Some(year) => format.lenient().with_pivot(year),
        None => format.lenient(),
    }
}

/// Returns the lenient format for the kind of values that another format has.
fn for_same_values(other: &ValueFormat, format: LenientFormat) -> Option<LenientKind>
    ensures every { (found : LenientKind) → IsForSameValues other.now format found
        → result ≡ Some found }
    ensures has { IfSome result (IsForSameValues other.now format) }
{
    match other {
        ValueFormat::Dates(_) => Some(LenientKind::Dates(format.for_dates()?)),
        ValueFormat::Moments(_) => Some(LenientKind::Moments(format.for_offset_date_times()?)),
        ValueFormat::DateTimes(_) => Some(LenientKind::DateTimes(format.for_date_times()?)),
        ValueFormat::Lenient(_) | ValueFormat::InLanguage(_) => None,
    }
}

/// Returns the items before the slash and the year at the end.
fn without_year(format: &Format) -> Format
    ensures { result ≡ without_year format.now }
{
    let items = format.items();
    copy_of(&items[..items.len().saturating_sub(2)])
}

/// Returns a format of these items.
fn copy_of(items: &[Item]) -> Format
    requires { length items.now ≤ 64 }
    ensures { result ≡ items.now }
{
    let mut format = Format::empty();
    push_all(&mut format, items);
    format
}

/// Appends the items.
fn push_all(format: &mut Format, items: &[Item])
    requires { length format.old + length items.now ≤ 64 }
    ensures { format.new ≡ format.old ++ items.now }
{
    if let [item, others @ ..] = items {
        format.try_push(*item);
        push_all(format, others);
    }
}
