//! Formats whose strings determine a date or a moment.
ghost use Rattle.std.specs.Prelude.{◌≡◌, ℤ};
ghost use Rattle.cal_text.specs.declared.any.DateOrMoment.{DateOrMoment};
ghost use Rattle.caldate_answers.specs.FormatErrors.{format_reason_of};
ghost use Rattle.caldate_answers.specs.Leniency.{items_in};
ghost use Rattle.caldate_answers.specs.Readers.{IsReadIn};

use crate::reading::in_language::LanguageFormat;
use crate::reading::lenient::LenientKind;
use cal_datetime::OffsetDateTime;
use cal_format::{DateFormat, DateTimeFormat, Format, OffsetDateTimeFormat, ParseError};
use cal_text::{DateForm, DateOrMoment, MomentForm};
use cal_time::error::ComponentRange;
use cal_time::{Date, UtcOffset};
use caldate_lines::no_answer::NoAnswer;

/// A format whose strings determine a date or a moment.
#[derive(Drop)]
pub enum ValueFormat {
    /// A format of dates, such as `%d.%m.%Y`.
    Dates(DateFormat),
    /// A format of moments with their offset, such as `%d/%b/%Y:%T %z`.
    Moments(OffsetDateTimeFormat),
    /// A format of moments without an offset, such as `%F %T`.
    DateTimes(DateTimeFormat),
    /// A format of any of these that also reads variants of their strings.
    Lenient(LenientKind),
    /// A format of any of these with the names of a language.
    InLanguage(LanguageFormat),
}

impl ValueFormat {
    /// Parses a string in this format, or returns why it can't be read. A string without an offset
    /// is at `offset`.
    ///
    /// With `%d.%m.%Y`, `31.02.2024` gives `Rejected` for `day`, and `31.2.2024` gives `NoForm`. A
    /// wrong weekday is `Rejected`, too.
    pub fn read(&self, offset: UtcOffset, text: &[u8]) -> Result<DateOrMoment, NoAnswer>
        ensures { IsReadIn offset self.now text.now result }
    {
        match self {
            ValueFormat::Dates(format) => read_date(format, text),
            ValueFormat::Moments(format) => read_moment(format, text),
            ValueFormat::DateTimes(format) => read_date_time(format, offset, text),
            ValueFormat::Lenient(format) => format.read(offset, text),
            ValueFormat::InLanguage(format) => format.read(offset, text),
        }
    }

    /// Returns its items as a format of any values.
    pub fn as_format(&self) -> &Format
        ensures { result.now ≡ items_in self.now }
    {
        match self {
            ValueFormat::Dates(format) => format.as_format(),
            ValueFormat::Moments(format) => format.as_format(),
            ValueFormat::DateTimes(format) => format.as_format(),
            ValueFormat::Lenient(format) => format.as_format(),
            ValueFormat::InLanguage(format) => format.as_format(),
        }
    }
}

/// Parses a date.
fn read_date(format: &DateFormat, text: &[u8]) -> Result<DateOrMoment, NoAnswer>
    ensures { (offset : ℤ) → IsReadIn offset (ValueFormat.Dates format.now) text.now result }
{
    match format.parse(text) {
        Ok(date) => Ok(in_calendar(date)),
        Err(error) => Err(format_reason_of(error)),
    }
}

/// Parses a moment with its offset.
fn read_moment(format: &OffsetDateTimeFormat, text: &[u8]) -> Result<DateOrMoment, NoAnswer>
    ensures { (offset : ℤ) → IsReadIn offset (ValueFormat.Moments format.now) text.now result }
{
    match format.parse(text) {
        Ok(moment) => Ok(in_rfc3339(moment)),
        Err(error) => Err(format_reason_of(error)),
    }
}

/// Parses a moment at an offset.
fn read_date_time(
    format: &DateTimeFormat,
    offset: UtcOffset,
    text: &[u8],
) -> Result<DateOrMoment, NoAnswer>
    ensures { IsReadIn offset (ValueFormat.DateTimes format.now) text.now result }
{
    match format.parse(text) {
        Ok(local) => Ok(in_rfc3339(local.assume_offset(offset))),
        Err(error) => Err(format_reason_of(error)),
    }
}

/// Returns the reason why a string can't be read in a format.
pub(crate) fn format_reason_of(error: ParseError) -> NoAnswer
    ensures { result ≡ format_reason_of error }
{
    match error {
        ParseError::OutOfRange(component) => NoAnswer::Rejected(component),
        ParseError::Contradiction(name) => NoAnswer::Rejected(ComponentRange::conditional(name)),
        ParseError::UnexpectedByte(_) | ParseError::UnexpectedEnd(_) => NoAnswer::NoForm,
    }
}

/// Returns a date whose answers are calendar dates.
pub(crate) fn in_calendar(date: Date) -> DateOrMoment
    ensures { result ≡ DateOrMoment.Date DateForm.Calendar date }
{
    DateOrMoment::Date(DateForm::Calendar, date)
}

/// Returns a moment whose answers are in RFC 3339.
pub(crate) fn in_rfc3339(moment: OffsetDateTime) -> DateOrMoment
    ensures { result ≡ DateOrMoment.Moment MomentForm.Rfc3339 moment }
{
    DateOrMoment::Moment(MomentForm::Rfc3339, moment)
}
