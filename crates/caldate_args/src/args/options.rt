//! The options before a request.
ghost use Rattle.std.specs.Prelude.{◌+◌, ◌≤◌, ◌^◌, IfOk};

use crate::args::formats::{in_language, names_for, reader_of, reason_of};
use crate::args::names::{MODES, OPTIONS, OptionName, POLICIES, value_named};
use crate::args::offset::offset_of;
use crate::args::requirement::Requirement;
use crate::args::spelling::parse_i64;
use crate::args::word_error::{Expected, WordError, word_error_at};
use crate::args::words::cut;
use crate::data_files::system_files::SystemFiles;
use cal_names::{Names, names_of};
use cal_schedule::Workdays;
use cal_text::{DateOrMoment, parse_any};
use cal_time::{Date, UtcOffset};
use cal_zone::{Policy, Zone};
use caldate_answers::answer::moves::workdays_except;
use caldate_answers::reading::in_language::LanguageKind;
use caldate_answers::reading::lenient::{lacks_century, lenient_reader};
use caldate_answers::reading::reader::{Assumptions, Reader};
use caldate_answers::reading::spelling::Spelling;
use caldate_answers::reading::value_format::ValueFormat;
use caldate_answers::reading::yearless::AssumedYear;
use caldate_answers::reading::{Readers, Reading};
use caldate_lines::field::Field;
use caldate_lines::field_name::FieldName;
use caldate_lines::field_names::{FieldNames, MAX_FIELDS};
use caldate_lines::field_numbers::FieldNumbers;
use caldate_lines::lines::index_of;
use caldate_lines::on_invalid::OnInvalid;
use caldate_lines::several_fields::{RankedField, SeveralFields};
use std::fs::Files;

/// A set of options before a request.
#[derive(Drop)]
pub struct Options<'a> {
    /// The mode of `--invalid MODE`.
    pub on_invalid: Option<OnInvalid>,
    /// The numbers of the first `--field N` or `--field N-M`, or the number 1 for `--field NAME`.
    pub fields: Option<FieldNumbers>,
    /// The same for each other `--field`.
    pub more: SeveralFields,
    /// The names of `--field NAME`.
    pub names: FieldNames<'a>,
    /// The name of `--append NAME`.
    pub append: Option<FieldName<'a>>,
    /// `true` if `--header` is given.
    pub header: bool,
    /// `true` if `--csv` is given.
    pub csv: bool,
    /// `true` if `--scan` is given.
    pub scan: bool,
    /// The byte C of `--separator C`.
    pub separator: Option<u8>,
    /// The number K of `--skip K`.
    pub skip: Option<u64>,
    /// The forms of `--read FORM`.
    pub readers: Readers,
    /// The offset of `--assume OFFSET`.
    pub offset: Option<UtcOffset>,
    /// The year of `--assume-year YEAR` or `--assume-year near DATE`.
    pub year: Option<AssumedYear>,
    /// `true` if `--lenient` is given.
    pub lenient: bool,
    /// The year of `--pivot YEAR`.
    pub pivot: Option<u16>,
    /// The index of the first format that can't be read leniently.
    pub ambiguous: Option<usize>,
    /// The names of `--language LANGUAGE`, which are known before the other options.
    pub language: Option<&'static Names<'static>>,
    /// `true` if `--language` is among the options so far.
    pub has_language: bool,
    /// The zone of `--zone NAME`.
    pub zone: Option<Zone<'a>>,
    /// The policy of `--ambiguous POLICY`.
    pub policy: Option<Policy>,
    /// The working days of `--holidays FILE`.
    pub workdays: Option<Workdays<'a>>,
}

/// Returns the options if the arguments have none.
pub fn no_options<'a>() -> Options<'a> {
    Options {
        on_invalid: None,
        fields: None,
        more: SeveralFields::new(),
        names: FieldNames::new(),
        append: None,
        header: false,
        csv: false,
        scan: false,
        separator: None,
        skip: None,
        readers: Readers::new(),
        offset: None,
        year: None,
        lenient: false,
        pivot: None,
        ambiguous: None,
        language: None,
        has_language: false,
        zone: None,
        policy: None,
        workdays: None,
    }
}

/// The options for the forms that lines are read in.
#[derive(Clone, Copy)]
pub struct ReaderChoices {
    /// The offset of `--assume OFFSET`.
    pub offset: Option<UtcOffset>,
    /// `true` if `--zone NAME` is given.
    pub has_zone: bool,
    /// `true` if `--lenient` is given.
    pub lenient: bool,
    /// The year of `--pivot YEAR`.
    pub pivot: Option<u16>,
}

/// What a word is among the options.
#[derive(Clone, Copy)]
enum OptionWord {
    /// An option or its value. The next word is the value of an option, if one is given.
    Part(Option<OptionName>),
    /// A word after the options.
    Other,
}

/// Parses the options from the word at an index on, and returns the index of the word after them.
// The options are large, so they are changed in place.
pub fn parse_options<'a, S: Files>(
    options: &mut Options<'a>,
    words: Option<&'a [u8]>,
    at: usize,
    files: &mut SystemFiles<'_, 'a, S>,
) -> Result<usize, WordError>
    requires { at ≤ 2 }
    ensures within { IfOk result (λ index. index ≤ 2 ^ 63 + 2) }
{
    let mut given = None;
    let mut index = at;
    let mut left = words;
    while let Some(some) = left {
        let (word, rest) = cut(some);
        match parse_word(options, given, word, index, files)? {
            OptionWord::Part(option) => given = option,
            OptionWord::Other => return Ok(index),
        }
        left = rest;
        index += 1;
    }
    match given {
        Some(option) => Err(word_error_at(index, expected_value(option))),
        None => Ok(index),
    }
}

/// Returns the names of the first `--language` among options that may be wrong otherwise.
pub fn language_in(words: Option<&[u8]>) -> Option<&'static Names<'static>> {
    let mut given = None;
    let mut left = words;
    while let Some(some) = left {
        let (word, rest) = cut(some);
        match given {
            Some(OptionName::Language) => return names_of(word),
            Some(option) => given = option_after(option, word),
            None => {
                let (name, value) = cut_value(word);
                match option_of(name)? {
                    OptionName::Language if is_joined(word) => return names_of(value),
                    _ => given = option_before_value(word),
                }
            }
        }
        left = rest;
    }
    None
}

/// Parses one more word, which has this index: an option, or if `given` is an option, its value.
fn parse_word<'a, S: Files>(
    options: &mut Options<'a>,
    given: Option<OptionName>,
    word: &'a [u8],
    index: usize,
    files: &mut SystemFiles<'_, 'a, S>,
) -> Result<OptionWord, WordError> {
    if let Some(option) = given {
        return parse_value(options, option, word, index, files);
    }
    let (name, value) = cut_value(word);
    let Some(option) = option_in(options, name) else {
        return Ok(OptionWord::Other);
    };
    match (takes_value(option), is_joined(word)) {
        (true, false) => Ok(OptionWord::Part(Some(option))),
        (false, true) => Ok(OptionWord::Other),
        _ => parse_value(options, option, value, index, files),
    }
}

/// Parses the value of one more option.
fn parse_value<'a, S: Files>(
    options: &mut Options<'a>,
    option: OptionName,
    value: &'a [u8],
    index: usize,
    files: &mut SystemFiles<'_, 'a, S>,
) -> Result<OptionWord, WordError> {
    if let Some(next) = option_after(option, value) {
        return Ok(OptionWord::Part(Some(next)));
    }
    let invalid = word_error_at(index, expected_value(option));
    set_option(options, option, value, invalid, files)?;
    Ok(OptionWord::Part(None))
}

/// Returns whether the word contains a `=`.
fn is_joined(word: &[u8]) -> bool {
    index_of(b'=', word).is_some()
}

/// Splits `NAME=VALUE` into the name of an option and its value, which is empty without a `=`.
pub fn cut_value(word: &[u8]) -> (&[u8], &[u8]) {
    match index_of(b'=', word) {
        Some(at) => (&word[..at], &word[at + 1..]),
        None => (word, b""),
    }
}

/// Returns the option that the word names, unless it can't be given again.
fn option_in(options: &Options<'_>, word: &[u8]) -> Option<OptionName> {
    let option = option_of(word)?;
    if has_room_for(options, option) {
        Some(option)
    } else {
        None
    }
}

fn option_of(word: &[u8]) -> Option<OptionName> {
    value_named(word, &OPTIONS)
}

/// Returns whether the option can be given: `--field` and `--read` up to four times, and any other
/// once.
fn has_room_for(options: &Options<'_>, option: OptionName) -> bool {
    match option {
        OptionName::Invalid => options.on_invalid.is_none(),
        OptionName::Field => options.fields.is_none()
            || options.more.as_slice().len() + 1 < MAX_FIELDS,
        OptionName::Append => options.append.is_none(),
        OptionName::Csv => !options.csv,
        OptionName::Header => !options.header,
        OptionName::Scan => !options.scan,
        OptionName::Separator => options.separator.is_none(),
        OptionName::Skip => options.skip.is_none(),
        OptionName::Read => read_count(options.readers.as_slice()) < 4,
        OptionName::Assume => options.offset.is_none(),
        OptionName::AssumeYear | OptionName::Near => options.year.is_none(),
        OptionName::Lenient => !options.lenient,
        OptionName::Pivot => options.pivot.is_none(),
        OptionName::Language => !options.has_language,
        OptionName::Zone => options.zone.is_none(),
        OptionName::Ambiguous => options.policy.is_none(),
        OptionName::Holidays => options.workdays.is_none(),
    }
}

/// Returns whether the option takes a value.
fn takes_value(option: OptionName) -> bool {
    match option {
        OptionName::Csv | OptionName::Header | OptionName::Scan | OptionName::Lenient => false,
        _ => true,
    }
}

/// Returns the value that the option takes.
fn expected_value(option: OptionName) -> Expected {
    match option {
        OptionName::Invalid => Expected::Invalid,
        OptionName::Field => Expected::FieldNumber,
        OptionName::Append => Expected::Column,
        OptionName::Csv | OptionName::Header | OptionName::Scan | OptionName::Lenient => {
            Expected::End
        }
        OptionName::Separator => Expected::Separator,
        OptionName::Skip => Expected::Skip,
        OptionName::Read => Expected::Reading,
        OptionName::Assume => Expected::Offset,
        OptionName::AssumeYear => Expected::Year,
        OptionName::Near => Expected::Day,
        OptionName::Pivot => Expected::Pivot,
        OptionName::Language => Expected::Language,
        OptionName::Zone => Expected::Zone,
        OptionName::Ambiguous => Expected::Policy,
        OptionName::Holidays => Expected::Holidays,
    }
}

/// Returns whether the word is an option that other options may precede, such as `--field`, and
/// not `--help`.
pub fn is_option(word: &[u8]) -> bool {
    match option_of(cut_value(word).0) {
        Some(option) => takes_value(option) || !is_joined(word),
        None => false,
    }
}

/// Returns the option whose value is the next word, if the word is an option.
pub fn option_before_value(word: &[u8]) -> Option<OptionName> {
    let (name, value) = cut_value(word);
    let option = option_of(name)?;
    if is_joined(word) {
        option_after(option, value)
    } else if takes_value(option) {
        Some(option)
    } else {
        None
    }
}

/// Returns the option whose value follows a value of an option: DATE follows `near`.
pub fn option_after(option: OptionName, value: &[u8]) -> Option<OptionName> {
    match option {
        OptionName::AssumeYear if value == b"near".as_slice() => Some(OptionName::Near),
        _ => None,
    }
}

/// Sets the option, or returns the error if the value is invalid. An option without a value ignores
/// it.
// A proof costs more the longer a function is, so the options are in three.
fn set_option<'a, S: Files>(
    options: &mut Options<'a>,
    option: OptionName,
    value: &'a [u8],
    invalid: WordError,
    files: &mut SystemFiles<'_, 'a, S>,
) -> Result<(), WordError> {
    match option {
        OptionName::Csv => options.csv = true,
        OptionName::Header => options.header = true,
        OptionName::Scan => options.scan = true,
        OptionName::Lenient => options.lenient = true,
        OptionName::Read => add_reader(options, value, invalid, files)?,
        OptionName::Zone => options.zone = Some(zone_of(value, invalid, files)?),
        OptionName::Holidays => options.workdays = Some(workdays_of(value, invalid, files)?),
        _ => set_word(options, option, value).ok_or(invalid)?,
    }
    Ok(())
}

/// Sets an option for fields or lines, or returns `None` if the value is invalid.
fn set_word<'a>(options: &mut Options<'a>, option: OptionName, value: &'a [u8]) -> Option<()> {
    match option {
        OptionName::Field => add_field(options, value)?,
        OptionName::Append => options.append = Some(FieldName::new(value)),
        OptionName::Separator => options.separator = Some(byte_of(value)?),
        OptionName::Skip => options.skip = Some(skip_of(value)?),
        _ => set_meaning(options, option, value)?,
    }
    Some(())
}

/// Sets an option for the meaning of strings, or returns `None` if the value is invalid.
fn set_meaning(options: &mut Options<'_>, option: OptionName, value: &[u8]) -> Option<()> {
    match option {
        OptionName::Invalid => options.on_invalid = Some(value_named(value, &MODES)?),
        OptionName::Assume => options.offset = Some(offset_of(value)?),
        OptionName::AssumeYear => options.year = Some(AssumedYear::Is(year_of(value)?)),
        OptionName::Near => options.year = Some(AssumedYear::Near(day_of(value)?)),
        OptionName::Pivot => options.pivot = Some(pivot_of(value)?),
        OptionName::Language => {
            options.language = Some(names_of(value)?);
            options.has_language = true;
        }
        OptionName::Ambiguous => options.policy = Some(value_named(value, &POLICIES)?),
        _ => return None,
    }
    Some(())
}

/// Returns the zone with this name, or the error.
pub fn zone_of<'a, S: Files>(
    name: &'a [u8],
    invalid: WordError,
    files: &mut SystemFiles<'_, 'a, S>,
) -> Result<Zone<'a>, WordError> {
    files.zone(name).ok_or(invalid)
}

/// Returns Monday to Friday without the holidays in the file with this name, or the error.
fn workdays_of<'a, S: Files>(
    name: &[u8],
    invalid: WordError,
    files: &mut SystemFiles<'_, 'a, S>,
) -> Result<Workdays<'a>, WordError> {
    match files.holidays(name) {
        Some(days) => Ok(workdays_except(days)),
        None => Err(invalid),
    }
}

/// Adds a field and its name, or returns `None` if the value is invalid or four fields are given.
fn add_field<'a>(options: &mut Options<'a>, value: &'a [u8]) -> Option<()> {
    let field = field_in(value)?;
    let name = name_in(value);
    if options.fields.is_none() {
        options.fields = Some(field);
        options.names.set(0, name);
        return Some(());
    }
    let index = options.more.as_slice().len() + 1;
    if index >= MAX_FIELDS {
        return None;
    }
    options.more.insert(RankedField {
        numbers: field,
        rank: index as u8,
    });
    options.names.set(index, name);
    Some(())
}

/// Returns the name of a field, if the value is one.
fn name_in(value: &[u8]) -> Option<FieldName<'_>> {
    if is_name(value) {
        Some(FieldName::new(value))
    } else {
        None
    }
}

/// Parses the numbers of fields. A name has the number 1 until the header gives its own.
fn field_in(value: &[u8]) -> Option<FieldNumbers> {
    if is_name(value) {
        Some(FieldNumbers {
            first: 1,
            joined: 0,
        })
    } else {
        field_numbers_of(value)
    }
}

/// Returns whether the word is read as a name of a field, and not as numbers.
pub fn is_name(word: &[u8]) -> bool {
    match word {
        [first, ..] => !first.is_ascii_digit() && *first != b'+' && *first != b'-',
        [] => false,
    }
}

/// Parses `N` or `N-M`, of which M is not less than N.
pub fn field_numbers_of(word: &[u8]) -> Option<FieldNumbers> {
    match index_of(b'-', word) {
        Some(at) => {
            let first = field_number_of(&word[..at])?;
            fields_from(first, field_number_of(&word[at + 1..])?)
        }
        None => Some(FieldNumbers {
            first: field_number_of(word)?,
            joined: 0,
        }),
    }
}

/// Returns the numbers from one to the other, if there are any.
fn fields_from(first: u16, last: u16) -> Option<FieldNumbers> {
    if last < first {
        return None;
    }
    Some(FieldNumbers {
        first,
        joined: last - first,
    })
}

/// Parses a number from 1 to 65535.
fn field_number_of(word: &[u8]) -> Option<u16> {
    let number = parse_i64(word)?;
    if number < 1 || number > 65_535 {
        return None;
    }
    Some(number as u16)
}

/// Parses one byte, or `\t` for a tab.
fn byte_of(word: &[u8]) -> Option<u8> {
    match word {
        [byte] => Some(*byte),
        b"\\t" => Some(b'\t'),
        _ => None,
    }
}

/// Parses a number from 0 to 9223372036854775807.
fn skip_of(word: &[u8]) -> Option<u64> {
    let number = parse_i64(word)?;
    if number < 0 {
        return None;
    }
    Some(number as u64)
}

/// Parses a year of four digits.
fn year_of(word: &[u8]) -> Option<i32> {
    if word.len() != 4 || !word[0].is_ascii_digit() {
        return None;
    }
    i32::try_from(parse_i64(word)?).ok()
}

/// Parses a year from 0 to 9900.
fn pivot_of(word: &[u8]) -> Option<u16> {
    let year = parse_i64(word)?;
    if year < 0 || year > 9_900 {
        return None;
    }
    Some(year as u16)
}

/// Parses a date in one of the four forms.
fn day_of(word: &[u8]) -> Option<Date> {
    match &parse_any(word).ok()? {
        DateOrMoment::Date(_, date) => Some(*date),
        DateOrMoment::Moment(_, _) => None,
    }
}

/// Returns the fields that the options select. The default separator is a tab, or a comma in CSV.
pub fn field_of(options: &Options<'_>) -> Option<Field> {
    let numbers = options.fields?;
    Some(Field {
        first: numbers.first,
        joined: numbers.joined,
        separator: match options.separator {
            Some(separator) => separator,
            None if options.csv => b',',
            None => b'\t',
        },
        csv: options.csv,
        appends: options.append.is_some(),
    })
}

/// Adds a form of `--read`, or returns the error if the value is invalid. `iso` is three forms.
fn add_reader<S: Files>(
    options: &mut Options<'_>,
    value: &[u8],
    invalid: WordError,
    files: &mut SystemFiles<'_, '_, S>,
) -> Result<(), WordError> {
    let reader = reader_of(value).ok_or(invalid)?;
    let is_iso = is_iso_moment(&reader);
    if options.ambiguous.is_none()
        && is_format(&reader)
        && lenient_reader(&reader, None).is_none()
    {
        options.ambiguous = Some(invalid.index);
    }
    let reader = match names_for(value, options.language) {
        Some(names) => match in_language(reader, names) {
            Ok(reader) => reader,
            Err(error) => {
                files.keep_reason(reason_of(error, value, names));
                return Err(word_error_at(invalid.index, Expected::LanguageFormat));
            }
        },
        None => reader,
    };
    options.readers.try_push(reader);
    if is_iso {
        options.readers.try_push(Reader::Named(Reading::IsoDate));
        options
            .readers
            .try_push(Reader::Named(Reading::IsoLocal(UtcOffset::UTC)));
    }
    Ok(())
}

/// Returns whether the form is a format.
fn is_format(reader: &Reader) -> bool {
    match reader {
        Reader::Format(_) | Reader::Yearless(_) => true,
        _ => false,
    }
}

/// Returns how often `--read` is given.
fn read_count(readers: &[Reader]) -> usize {
    readers
        .iter()
        .filter(|reader| !continues_iso(reader))
        .count()
}

/// Returns whether the form is the first of the three of `iso`.
pub fn is_iso_moment(reader: &Reader) -> bool {
    match reader {
        Reader::Named(Reading::IsoMoment) => true,
        _ => false,
    }
}

/// Returns whether the form is the second or the third of the three of `iso`.
fn continues_iso(reader: &Reader) -> bool {
    match reader {
        Reader::Named(Reading::IsoDate | Reading::IsoLocal(_)) => true,
        _ => false,
    }
}

/// Returns the forms that lines are read in. The default is the six forms, and then moments that are
/// spelled in another way.
pub fn readers_in(readers: Readers, choices: &ReaderChoices) -> Readers {
    if readers.as_slice().len() == 0 {
        let mut default = Readers::new();
        default.try_push(Reader::Named(Reading::Any));
        default.try_push(Reader::Spelled(Spelling::Iso));
        return default;
    }
    let mut all = readers;
    for index in 0..all.as_slice().len() {
        if let Some(reader) = replaced_at(&all, index, choices) {
            all.set(index, reader);
        }
    }
    all
}

/// Returns what replaces the form at an index, if it is a format that is read leniently, or a form
/// of `iso` that is replaced.
fn replaced_at(readers: &Readers, index: usize, choices: &ReaderChoices) -> Option<Reader> {
    let reader = readers.as_slice().get(index)?;
    if choices.lenient && is_format(reader) {
        lenient_reader(reader, choices.pivot)
    } else {
        let reading = iso_reading(reader, choices.offset, choices.has_zone)?;
        Some(Reader::Named(reading))
    }
}

/// Returns what replaces a form of `iso`: with a zone a moment has no offset of its own, and without
/// an offset or a zone no local date-time is read. Then dates are read once more.
fn iso_reading(reader: &Reader, offset: Option<UtcOffset>, has_zone: bool) -> Option<Reading> {
    match (reader, offset) {
        (Reader::Named(Reading::IsoMoment), _) if has_zone => Some(Reading::IsoDate),
        (Reader::Named(Reading::IsoLocal(_)), Some(offset)) => Some(Reading::IsoLocal(offset)),
        (Reader::Named(Reading::IsoLocal(_)), None) if !has_zone => Some(Reading::IsoDate),
        _ => None,
    }
}

/// Returns the parts that a string may leave out. The default is UTC, and a year that no form
/// needs.
pub fn assumptions_in(options: &Options<'_>) -> Assumptions {
    Assumptions {
        offset: options.offset.unwrap_or(UtcOffset::UTC),
        year: options.year.unwrap_or(AssumedYear::Is(0)),
    }
}

/// Returns whether a form has no year.
fn any_yearless(readers: &[Reader], has_pivot: bool) -> bool {
    readers.iter().any(|reader| is_yearless(reader) && !(has_pivot && lacks_century(reader)))
}

fn is_yearless(reader: &Reader) -> bool {
    match reader {
        Reader::Yearless(_) => true,
        _ => false,
    }
}

/// Returns whether a form has no offset.
fn any_local(readers: &[Reader]) -> bool {
    readers.iter().any(|reader| is_local(reader))
}

fn is_local(reader: &Reader) -> bool {
    match reader {
        Reader::Local => true,
        Reader::Format(format) | Reader::Yearless(format) => has_no_offset(format),
        _ => false,
    }
}

/// Returns whether the strings in the format have no offset.
fn has_no_offset(format: &ValueFormat) -> bool {
    match format {
        ValueFormat::DateTimes(_) => true,
        ValueFormat::InLanguage(format) => matches!(format.kind(), LanguageKind::DateTimes(_)),
        _ => false,
    }
}

/// Returns whether texts in a form can lack an offset.
fn any_assumed(readers: &[Reader]) -> bool {
    any_local(readers) || readers.iter().any(|reader| is_iso_moment(reader))
}

/// Returns whether a form always has an offset of its own.
fn any_own(readers: &[Reader]) -> bool {
    readers.iter().any(|reader| has_own(reader))
}

fn has_own(reader: &Reader) -> bool {
    match reader {
        Reader::Named(Reading::Any | Reading::Unix(_)) => true,
        Reader::Spelled(_) => true,
        Reader::Format(format) | Reader::Yearless(format) => has_offset(format),
        _ => false,
    }
}

/// Returns whether the strings in the format have an offset.
fn has_offset(format: &ValueFormat) -> bool {
    match format {
        ValueFormat::Moments(_) => true,
        ValueFormat::InLanguage(format) => matches!(format.kind(), LanguageKind::Moments(_)),
        _ => false,
    }
}

/// Returns the option that is missing or excluded, if the others need or exclude it. `is_day` is
/// `true` if the only text is the date of a clock, such as `today`.
pub fn unmet_in(options: &Options<'_>, is_day: bool) -> Option<Requirement> {
    if options.scan && options.fields.is_some() {
        Some(Requirement::ScanField)
    } else if options.scan && options.csv {
        Some(Requirement::ScanCsv)
    } else if options.scan && options.append.is_some() {
        Some(Requirement::ScanAppend)
    } else if options.scan && options.separator.is_some() {
        Some(Requirement::ScanSeparator)
    } else if options.separator.is_some() && options.fields.is_none() {
        Some(Requirement::Field)
    } else if options.csv && options.fields.is_none() {
        Some(Requirement::CsvField)
    } else if options.append.is_some() && options.fields.is_none() {
        Some(Requirement::AppendField)
    } else if options.append.is_some() && options.more.as_slice().len() > 0 {
        Some(Requirement::AppendFields)
    } else if options.csv && options.separator == Some(b'"') {
        Some(Requirement::CsvSeparator)
    } else if options.names.any() && !options.header {
        Some(Requirement::Header)
    } else {
        unmet_by_readers(options, is_day)
    }
}

/// Returns the option that is missing or excluded for the forms of `--read`, if there is one.
fn unmet_by_readers(options: &Options<'_>, is_day: bool) -> Option<Requirement> {
    if let Some(requirement) = unmet_by_formats(options) {
        Some(requirement)
    } else if options.zone.is_some() {
        unmet_by_zone(options, is_day)
    } else if any_local(options.readers.as_slice()) && options.offset.is_none() {
        Some(Requirement::Assume)
    } else if options.offset.is_some() && !any_assumed(options.readers.as_slice()) {
        Some(Requirement::Local)
    } else {
        None
    }
}

/// Returns the option that is missing or excluded for formats, if there is one.
fn unmet_by_formats(options: &Options<'_>) -> Option<Requirement> {
    let readers = options.readers.as_slice();
    let has_pivot = options.pivot.is_some();
    let is_yearless = any_yearless(readers, has_pivot);
    let is_short = readers.iter().any(|reader| lacks_century(reader));
    if options.has_language && options.lenient {
        Some(Requirement::LanguageOrLenient)
    } else if has_pivot && !options.lenient {
        Some(Requirement::Lenient)
    } else if options.lenient && !readers.iter().any(|reader| is_format(reader)) {
        Some(Requirement::LenientFormat)
    } else if has_pivot && !is_short {
        Some(Requirement::ShortYear)
    } else if is_yearless && options.year.is_none() {
        Some(if is_short && !has_pivot {
            Requirement::Century
        } else {
            Requirement::AssumeYear
        })
    } else if options.year.is_some() && !is_yearless {
        Some(Requirement::Yearless)
    } else {
        None
    }
}

/// Returns the requirement of `--zone` that the options don't meet, if there is one: no `--assume`,
/// and only forms without an offset, or no forms and the date of a clock.
fn unmet_by_zone(options: &Options<'_>, is_day: bool) -> Option<Requirement> {
    if options.offset.is_some() {
        Some(Requirement::OffsetOrZone)
    } else if is_day && options.readers.as_slice().len() == 0 {
        None
    } else if !any_assumed(options.readers.as_slice()) || any_own(options.readers.as_slice()) {
        Some(Requirement::LocalOnly)
    } else {
        None
    }
}
