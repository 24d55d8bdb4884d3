//! Consequences of the parsers: a text has at most one date, one form and one moment.
ghost use Rattle.std.specs.Prelude.{◌≡◌};
ghost use Rattle.cal_datetime.specs.OffsetDateTime.{LocalAndOffset};
ghost use Rattle.cal_text.specs.declared.date_numbers.DateNumbers.{DateNumbers};
ghost use Rattle.cal_text.specs.declared.any.DateOrMoment.{DateOrMoment};
ghost use Rattle.cal_text.specs.AnyForm.{IsTextOf};
ghost use Rattle.cal_text.specs.DateForms.{HasForm};
ghost use Rattle.cal_text.specs.Rfc3339Form.{IsMomentText};

use crate::any::{DateOrMoment, parse_any};
use crate::date_numbers::{DateNumbers, parse_numbers};
use crate::error::ParseError;
use crate::rfc3339;
use cal_datetime::OffsetDateTime;

/// Returns the form of a date. A text has at most one form, with one set of numbers.
#[tactic(auto, using(crate::proofs::DayForms::same_form))]
pub(crate) fn one_form(text: &[u8]) -> Result<DateNumbers, usize>
    ensures { (f g : DateNumbers) → HasForm text.now f → HasForm text.now g → f ≡ g }
{
    parse_numbers(text)
}

/// Parses a date or a moment. A text has at most one of the six forms, and one date or moment.
pub(crate) fn one_reading(text: &[u8]) -> Result<DateOrMoment, ParseError>
    ensures { (a b : DateOrMoment) → IsTextOf text.now a → IsTextOf text.now b → a ≡ b }
{
    parse_any(text)
}

/// Parses a moment of RFC 3339. A text is the text of at most one moment.
pub(crate) fn one_moment(text: &[u8]) -> Result<OffsetDateTime, ParseError>
    ensures { (m n : LocalAndOffset) → IsMomentText text.now m → IsMomentText text.now n → m ≡ n }
{
    rfc3339::parse(text)
}
