//! Dates of ISO 8601, after the other forms have been ruled out.
ghost use Rattle.std.specs.Prelude.{◌≡◌, ◌≢◌, ◌↔◌, IfOk, IfErr, Ok, get_or};
ghost use Rattle.cal_time.specs.declared.error.ComponentRange.{ComponentRange};
ghost use Rattle.cal_text.specs.declared.any.DateOrMoment.{DateOrMoment};
ghost use Rattle.cal_text.specs.AnyForm.{IsTextOf, IsDateOrMomentError, HasAnyForm, date_form_of};
ghost use Rattle.cal_text.specs.Parsing.{component_of, FailsWithComponent, FailsWithSyntax};
ghost use Rattle.cal_text.specs.Position.{HasSome, IsErrorAtStop};
ghost use Rattle.cal_text.specs.Rfc3339Form.{IsSeparator, HasMomentForm};

use crate::any::{DateForm, DateOrMoment};
use crate::date::from_numbers::date_from_numbers;
use crate::date_numbers::{DateNumbers, parse_numbers};
use crate::error::ParseError;

/// Converts an error of a moment to an error of any form. A date may have a sign, so the text may
/// match a date further than a moment.
pub(super) fn furthest_error(error: ParseError, text: &[u8]) -> ParseError
    requires first { (get_or text.now 0 0 ≢ 74) × (get_or text.now 0 0 ≢ 64) }
    requires separator { IsSeparator (get_or text.now 10 0) }
    requires position { IsErrorAtStop (HasSome HasMomentForm) text.now error }
    ensures component { component_of result ≡ component_of error }
    ensures position { IsErrorAtStop HasAnyForm text.now result }
{
    match error {
        ParseError::UnexpectedByte(position) => match parse_numbers(text) {
            Ok(_) => ParseError::UnexpectedByte(position),
            Err(date) => ParseError::unexpected(usize::max(position, date), text.len()),
        },
        ParseError::UnexpectedEnd(len) => ParseError::UnexpectedEnd(len),
        ParseError::OutOfRange(component) => ParseError::OutOfRange(component),
    }
}

/// Parses a date in one of the three forms of ISO 8601.
pub(super) fn parse_any_date(text: &[u8]) -> Result<DateOrMoment, ParseError>
    requires first { (get_or text.now 0 0 ≢ 74) × (get_or text.now 0 0 ≢ 64) }
    requires separator { ¬ IsSeparator (get_or text.now 10 0) }
    ensures every { (found : DateOrMoment) → IsTextOf text.now found → result ≡ Ok found }
    ensures value { IfOk result (IsTextOf text.now) }
    ensures syntax_error { FailsWithSyntax result ↔ ¬ HasAnyForm text.now }
    ensures position { IfErr result (IsErrorAtStop HasAnyForm text.now) }
    ensures out_of_range { (why : ComponentRange) → FailsWithComponent why result ↔ IsDateOrMomentError text.now why }
{
    match parse_numbers(text) {
        Ok(form) => match date_from_numbers(form) {
            Ok(date) => Ok(DateOrMoment::Date(date_form_of(form), date)),
            Err(error) => Err(ParseError::OutOfRange(error)),
        },
        Err(position) => Err(ParseError::unexpected(position, text.len())),
    }
}

/// Returns the name of a form.
fn date_form_of(form: DateNumbers) -> DateForm
    ensures { result ≡ date_form_of form }
{
    match form {
        DateNumbers::Calendar(..) => DateForm::Calendar,
        DateNumbers::Ordinal(..) => DateForm::Ordinal,
        DateNumbers::Week(..) => DateForm::Week,
    }
}
