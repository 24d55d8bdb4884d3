//! Formats that are read with the names of a language.
ghost use Rattle.std.specs.Prelude.{◌≡◌, ℕ, ℤ, List, IfErr, IfOk, Ok};
ghost use Rattle.cal_named_format.specs.Ambiguity.{IsNamesError, ReadBack};
ghost use Rattle.cal_named_format.specs.Named.{HasFormIn};
ghost use Rattle.cal_named_format.specs.Rejection.{IsRejectionIn};
ghost use Rattle.cal_text.specs.declared.any.DateOrMoment.{DateOrMoment};
ghost use Rattle.cal_time.specs.declared.error.ComponentRange.{ComponentRange};
ghost use Rattle.caldate_answers.specs.FormatErrors.{IsFormatError};
ghost use Rattle.caldate_answers.specs.Readers.{IsReadIn};
ghost use Rattle.caldate_answers.specs.Languages.{Determines, IsTextInLanguage, kind_items};

use crate::reading::value_format::{ValueFormat, format_reason_of, in_calendar, in_rfc3339};
use cal_format::{DateFormat, DateTimeFormat, Format, OffsetDateTimeFormat, ParseError};
use cal_named_format::{
    NamesError, check_names, parse_date, parse_date_time, parse_offset_date_time, table_counts,
};
use cal_names::Names;
use cal_text::DateOrMoment;
use cal_time::UtcOffset;
use caldate_lines::no_answer::NoAnswer;
use std::marker::Model;

/// A format of dates, moments or local date-times.
#[derive(Drop)]
pub enum LanguageKind {
    /// A format of dates.
    Dates(DateFormat),
    /// A format of moments with their offset.
    Moments(OffsetDateTimeFormat),
    /// A format of moments without an offset.
    DateTimes(DateTimeFormat),
}

/// A format that reads the strings that it prints with the names of a language. No two values have
/// the same string. Contracts see the names and the format.
#[derive(Drop)]
pub struct LanguageFormat {
    names: &'static Names<'static>,
    kind: LanguageKind,
}

impl Model for LanguageFormat {
    ghost use Rattle.cal_named_format.specs.Ambiguity.{ReadBack};
    ghost use Rattle.cal_names.specs.declared.names.Names.{Names};
    ghost use Rattle.caldate_answers.specs.Languages.{kind_items};
    ghost use Rattle.caldate_answers.specs.declared.reading.in_language.LanguageKind.{LanguageKind};

    ghost Value = { Names × LanguageKind };

    ghost view = { λ f. (f.names.now, f.kind) };

    ghost invariant = { λ f. ReadBack f.names.now (kind_items f.kind) };
}

impl LanguageFormat {
    /// Creates a format, or returns the reason why two values could have the same string.
    pub fn new(names: &'static Names<'static>, kind: LanguageKind) -> Result<Self, NamesError>
        ensures every { ReadBack names.now (kind_items kind) → result ≡ Ok (names.now, kind) }
        ensures value { IfOk result (λ format. format ≡ (names.now, kind)) }
        ensures error { IfErr result (IsNamesError names.now (kind_items kind) 0) }
    {
        check_names(items_of(&kind).items(), names)?;
        Ok(LanguageFormat { names, kind })
    }

    /// Parses a string in this format, or returns why it can't be read. A string without an offset
    /// is at `offset`.
    pub fn read(&self, offset: UtcOffset, text: &[u8]) -> Result<DateOrMoment, NoAnswer>
        ensures { IsReadIn offset (ValueFormat.InLanguage self.now) text.now result }
    {
        // They state that each table has names, and that strings of the items have one value.
        table_counts(self.names);
        let _items = items_of(&self.kind);
        match self.parse(offset, text) {
            Ok(found) => Ok(found),
            Err(error) => Err(format_reason_of(error)),
        }
    }

    /// Parses a date or a moment, or returns why the string isn't one in the format. A string
    /// without an offset is at `offset`.
    pub fn parse(&self, offset: UtcOffset, text: &[u8]) -> Result<DateOrMoment, ParseError>
        ensures every { (found : DateOrMoment)
            → IsTextInLanguage offset self.now.0 self.now.1 text.now found → result ≡ Ok found }
        ensures has { IfOk result (IsTextInLanguage offset self.now.0 self.now.1 text.now) }
        ensures error { IfErr result
            (IsRejectionIn self.now.0 (kind_items self.now.1) text.now) }
    {
        match &self.kind {
            LanguageKind::Dates(format) => match parse_date(format, self.names, text) {
                Ok(date) => Ok(in_calendar(date)),
                Err(error) => Err(error),
            },
            LanguageKind::Moments(format) => match parse_offset_date_time(
                format, self.names, text,
            ) {
                Ok(moment) => Ok(in_rfc3339(moment)),
                Err(error) => Err(error),
            },
            LanguageKind::DateTimes(format) => match parse_date_time(format, self.names, text) {
                Ok(local) => Ok(in_rfc3339(local.assume_offset(offset))),
                Err(error) => Err(error),
            },
        }
    }

    /// Returns the names.
    pub fn names(&self) -> &'static Names<'static>
        ensures { result.now ≡ self.now.0 }
    {
        self.names
    }

    /// Returns the format.
    pub fn kind(&self) -> &LanguageKind
        ensures { result.now ≡ self.now.1 }
    {
        &self.kind
    }

    /// Returns its items as a format of any values.
    pub fn as_format(&self) -> &Format
        ensures items { result.now ≡ kind_items self.now.1 }
        ensures form { (offset : ℤ) (text : List ℕ) (found : DateOrMoment)
            → IsTextInLanguage offset self.now.0 self.now.1 text found
            → HasFormIn self.now.0 (kind_items self.now.1) text }
        ensures error_form { (text : List ℕ) (any : ComponentRange)
            → IsFormatError (ValueFormat.InLanguage self.now) text any
            → HasFormIn self.now.0 (kind_items self.now.1) text }
    {
        // It states that each table has names.
        table_counts(self.names);
        items_of(&self.kind)
    }
}

fn items_of(kind: &LanguageKind) -> &Format
    ensures items { result.now ≡ kind_items kind.now }
    ensures determines { Determines kind.now }
{
    match kind {
        LanguageKind::Dates(format) => format.as_format(),
        LanguageKind::Moments(format) => format.as_format(),
        LanguageKind::DateTimes(format) => format.as_format(),
    }
}
