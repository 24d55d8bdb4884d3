//! Invalid words of the arguments.

use crate::args::requirement::Requirement;

/// An argument that is expected at an index.
#[derive(Clone, Copy)]
pub enum Expected {
    /// What the arguments require together.
    Requirement(Requirement),
    /// A verb or an option, such as `--field`.
    Start,
    /// A verb, or an option that is not given yet and needs a verb.
    Verb,
    /// A mode of `--invalid`, such as `keep`.
    Invalid,
    /// A number from 1 to 65535, two such numbers, or a name.
    FieldNumber,
    /// A name of a new last field.
    Column,
    /// One byte.
    Separator,
    /// A number of lines from 0 to 9223372036854775807.
    Skip,
    /// A value of `--read`, such as `dmy`.
    Reading,
    /// A policy of `--ambiguous`, such as `earlier`.
    Policy,
    /// The name of a file of `--holidays` that can be read, and has a date in each line.
    Holidays,
    /// The name of a calendar file whose events can be listed.
    Events,
    /// A form, such as `week`.
    Form,
    /// A number.
    Number,
    /// A number of units that fits in a duration.
    Amount,
    /// A unit of time, such as `hours`.
    UnitOfTime,
    /// A unit of time, or a period or a duration, such as `P`.
    Measure,
    /// A period. The word begins with `P` or `-P`.
    IsoPeriod,
    /// A weekday, such as `Friday`.
    Weekday,
    /// A number from 1 to 255.
    Count,
    /// A date or a moment.
    Target,
    /// A period, such as `month`.
    Period,
    /// A period, `day`, `hour`, `minute`, or a number of minutes.
    StartPeriod,
    /// `minutes`.
    Minutes,
    /// A unit of `round`, or a number of them.
    Rounding,
    /// A unit of `round`.
    RoundedUnit,
    /// A number of units that divides a day.
    RoundedNumber,
    /// An offset from UTC, such as `+01:00`.
    Offset,
    /// A year of four digits, such as `2024`, or `near`.
    Year,
    /// A date after `near`.
    Day,
    /// A year from 0 to 9900.
    Pivot,
    /// A format in which no two values can have the same string with `--lenient`.
    LenientFormat,
    /// A language, such as `fr`.
    Language,
    /// A format in which no two values can have the same string with `--language`.
    LanguageFormat,
    /// An offset from UTC or a zone. The word is not the name of a zone.
    Place,
    /// The name of a zone that can be read, such as `Europe/Berlin`.
    Zone,
    /// `from`, `after` or `before`.
    Bounds,
    /// `in`, or no word.
    In,
    /// `from`.
    From,
    /// A date.
    Date,
    /// A moment.
    Moment,
    /// `to`.
    UpTo,
    /// `by`.
    By,
    /// A number from 1 to 4294967295, or a recurrence. The word has no `=`.
    Many,
    /// A recurrence. The word has a `=`.
    Rule,
    /// The same from a date on.
    DayRule,
    /// A unit of dates, such as `months`.
    UnitOfDays,
    /// A positive period of years and months, or of weeks and days. The word begins with `P` or `-P`.
    StepPeriod,
    /// No word.
    End,
}

/// An error in the arguments: the first invalid or missing word.
#[derive(Clone, Copy)]
pub struct WordError {
    /// The index of the word, counted from 0. A missing word has the index that it would have.
    pub index: usize,
    /// The argument that is expected there.
    pub expected: Expected,
}

/// Creates the error for a word at an index that isn't `expected`.
pub fn word_error_at(index: usize, expected: Expected) -> WordError {
    WordError { index, expected }
}

/// Creates the error for a requirement that the arguments before an index don't meet.
pub fn requirement_at(index: usize, requirement: Requirement) -> WordError {
    word_error_at(index, Expected::Requirement(requirement))
}
