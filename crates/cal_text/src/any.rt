//! Dates and moments in any form.
ghost use Rattle.std.specs.Prelude.{◌≡◌, ◌↔◌, ◌<◌, length, get_or, IsTrue, IfOk, IfErr, Ok};
ghost use Rattle.cal_time.specs.declared.error.ComponentRange.{ComponentRange};
ghost use Rattle.cal_text.specs.declared.any.DateOrMoment.{DateOrMoment};
ghost use Rattle.cal_text.specs.AnyForm.{IsTextOf, IsDateOrMomentError, HasAnyForm};
ghost use Rattle.cal_text.specs.Position.{IsErrorAtStop};
ghost use Rattle.cal_text.specs.Parsing.{FailsWithComponent, FailsWithSyntax};

use crate::any::dates::{furthest_error, parse_any_date};
use crate::error::ParseError;
use crate::rfc3339::is_separator;
use crate::{julian_day, rfc3339, unix};
use cal_datetime::OffsetDateTime;
use cal_time::Date;

mod dates;

/// A form of a date in text. The first three are from ISO 8601.
#[derive(Clone, Copy, Debug, PartialEq, Eq)]
pub enum DateForm {
    /// A calendar date, such as `2024-02-29`.
    Calendar,
    /// An ordinal date, such as `2024-060`.
    Ordinal,
    /// A week date, such as `2024-W09-4`.
    Week,
    /// A Julian day, such as `J2460370`.
    JulianDay,
}

/// A form of a moment in text.
#[derive(Clone, Copy, Debug, PartialEq, Eq)]
pub enum MomentForm {
    /// A moment of RFC 3339, such as `2024-02-29T23:59:59.25+01:00`.
    Rfc3339,
    /// A Unix time, such as `@1709164800.5`, which is a moment at UTC.
    Unix,
}

/// A date or a moment with the form of its text. Two moments of the same form are equal if their
/// instants are.
#[derive(Clone, Copy, Debug, PartialEq, Eq)]
pub enum DateOrMoment {
    /// A date, in one of four forms.
    Date(DateForm, Date),
    /// A moment, in one of two forms.
    Moment(MomentForm, OffsetDateTime),
}

/// Parses a text that [`date::parse`](crate::date::parse),
/// [`julian_day::parse`](crate::julian_day::parse), [`rfc3339::parse`](crate::rfc3339::parse) or
/// [`unix::parse`](crate::unix::parse) accepts. Returns the date or the moment with its form; no
/// text has two forms. `2024-060` is an ordinal date.
///
/// Returns `UnexpectedByte` or `UnexpectedEnd` if the text has none of the forms. If it has a form,
/// the errors are the errors of the parser of this form.
pub fn parse_any(text: &[u8]) -> Result<DateOrMoment, ParseError>
    ensures every { (found : DateOrMoment) → IsTextOf text.now found → result ≡ Ok found }
    ensures value { IfOk result (IsTextOf text.now) }
    ensures syntax_error { FailsWithSyntax result ↔ ¬ HasAnyForm text.now }
    ensures position { IfErr result (IsErrorAtStop HasAnyForm text.now) }
    ensures out_of_range { (why : ComponentRange) → FailsWithComponent why result ↔ IsDateOrMomentError text.now why }
{
    if begins_with(text, b'J') {
        match julian_day::parse(text) {
            Ok(date) => Ok(DateOrMoment::Date(DateForm::JulianDay, date)),
            Err(error) => Err(error),
        }
    } else if begins_with(text, b'@') {
        match unix::parse(text) {
            Ok(moment) => Ok(DateOrMoment::Moment(MomentForm::Unix, moment)),
            Err(error) => Err(error),
        }
    } else if text.len() > 10 && is_separator(text[10]) {
        match rfc3339::parse(text) {
            Ok(moment) => Ok(DateOrMoment::Moment(MomentForm::Rfc3339, moment)),
            Err(error) => Err(furthest_error(error, text)),
        }
    } else {
        parse_any_date(text)
    }
}

fn begins_with(text: &[u8], byte: u8) -> bool
    ensures { IsTrue result ↔ (0 < length text.now) × (get_or text.now 0 0 ≡ byte) }
{
    match text {
        [first, ..] => *first == byte,
        [] => false,
    }
}
