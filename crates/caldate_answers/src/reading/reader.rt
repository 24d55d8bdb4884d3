//! The forms of `--read`.
ghost use Rattle.std.specs.Prelude.{◌≡◌, IfErr, IfOk, Err, Ok};
ghost use Rattle.cal_text.specs.declared.any.DateOrMoment.{DateOrMoment};
ghost use Rattle.caldate_answers.specs.Readers.{IsTextBy, IsUnreadBy, IsUnreadIn};
ghost use Rattle.caldate_answers.specs.Readings.{IsTextIn};
ghost use Rattle.caldate_lines.specs.Reasons.{reason_of};
ghost use Rattle.caldate_lines.specs.declared.no_answer.NoAnswer.{NoAnswer};

use crate::reading::spelling::Spelling;
use crate::reading::value_format::ValueFormat;
use crate::reading::yearless::{AssumedYear, read_yearless};
use crate::reading::{Reading, read_in};
use cal_text::{DateOrMoment, ParseError};
use cal_time::UtcOffset;
use caldate_lines::no_answer::NoAnswer;

/// The parts of a date or a moment that its string may leave out.
#[derive(Clone, Copy)]
pub struct Assumptions {
    /// The offset of a string that has none.
    pub offset: UtcOffset,
    /// The year of a string that has none.
    pub year: AssumedYear,
}

/// A form of `--read`.
#[derive(Drop)]
pub enum Reader {
    /// A form with a name and a value of its own.
    Named(Reading),
    /// A moment of RFC 3339 without its offset.
    Local,
    /// A moment that is spelled in another way than in the six forms.
    Spelled(Spelling),
    /// A format, such as `%d.%m.%Y`.
    Format(ValueFormat),
    /// A format without a year, such as `%b %e %T`: here the format followed by `/%Y`.
    Yearless(ValueFormat),
}

impl Reader {
    /// Parses a string in this form, with the parts of `assumptions` that the form leaves out, or
    /// returns why it can't be read.
    #[inline(always)]
    pub fn read(&self, assumptions: &Assumptions, text: &[u8]) -> Result<DateOrMoment, NoAnswer>
        ensures every { (found : DateOrMoment) → IsTextBy assumptions.now self.now text.now found
            → result ≡ Ok found }
        ensures has { IfOk result (IsTextBy assumptions.now self.now text.now) }
        ensures every_error { (why : NoAnswer)
            → ((found : DateOrMoment) → ¬ IsTextBy assumptions.now self.now text.now found)
            → IsUnreadBy assumptions.now self.now text.now why → result ≡ Err why }
        ensures error { IfErr result (IsUnreadBy assumptions.now self.now text.now) }
    {
        match self {
            Reader::Named(reading) => read_named(*reading, text),
            Reader::Local => read_named(Reading::Local(assumptions.offset), text),
            Reader::Spelled(spelling) => spelling.read(text),
            Reader::Format(format) => format.read(assumptions.offset, text),
            Reader::Yearless(format) => read_yearless(format, assumptions, text),
        }
    }
}

/// Parses a string in a form that says why a string isn't read.
#[inline(always)]
fn read_named(reading: Reading, text: &[u8]) -> Result<DateOrMoment, NoAnswer>
    ensures every { (found : DateOrMoment) → IsTextIn reading text.now found → result ≡ Ok found }
    ensures has { IfOk result (IsTextIn reading text.now) }
    ensures every_error { (why : NoAnswer) → IsUnreadIn reading text.now why → result ≡ Err why }
    ensures error { IfErr result (IsUnreadIn reading text.now) }
{
    match read_in(reading, text) {
        Ok(found) => Ok(found),
        Err(error) => Err(reason_of(error)),
    }
}

/// Returns the reason why a string can't be read.
pub fn reason_of(error: ParseError) -> NoAnswer
    ensures { result ≡ reason_of error }
{
    match error {
        ParseError::UnexpectedByte(position) | ParseError::UnexpectedEnd(position) => {
            NoAnswer::Unreadable(position)
        }
        ParseError::OutOfRange(component) => NoAnswer::Rejected(component),
    }
}
