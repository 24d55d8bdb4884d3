//! Dates and date-times in all formats of ISO 8601.
ghost use Rattle.std.specs.Prelude.{◌≡◌, ◌↔◌, IfErr, IfOk, Ok};
ghost use Rattle.cal_time.specs.declared.error.ComponentRange.{ComponentRange};
ghost use Rattle.cal_text.specs.Parsing.{FailsWithComponent, FailsWithSyntax};
ghost use Rattle.cal_text.specs.Position.{IsErrorAtStop};
ghost use Rattle.cal_text.specs.declared.any.DateOrMoment.{DateOrMoment};
ghost use Rattle.caldate_answers.specs.Readings.{HasFormIn, IsErrorIn, IsTextIn};
ghost use Rattle.caldate_answers.specs.declared.reading.Reading.TheVariants.{IsoDate, IsoLocal, IsoMoment};

use cal_iso::{date, offset_date_time, plain};
use cal_text::{DateForm, DateOrMoment, MomentForm, ParseError};
use cal_time::UtcOffset;

/// Parses a date.
pub fn read_iso_date(text: &[u8]) -> Result<DateOrMoment, ParseError>
    ensures every { (found : DateOrMoment) → IsTextIn IsoDate text.now found → result ≡ Ok found }
    ensures has { IfOk result (IsTextIn IsoDate text.now) }
    ensures form { FailsWithSyntax result ↔ ¬ HasFormIn IsoDate text.now }
    ensures position { IfErr result (IsErrorAtStop (HasFormIn IsoDate) text.now) }
    ensures component { (why : ComponentRange)
        → FailsWithComponent why result ↔ IsErrorIn IsoDate text.now why }
{
    match date::parse(text) {
        Ok(date) => Ok(DateOrMoment::Date(DateForm::Calendar, date)),
        Err(error) => Err(error),
    }
}

/// Parses a moment.
pub fn read_iso_moment(text: &[u8]) -> Result<DateOrMoment, ParseError>
    ensures every { (found : DateOrMoment) → IsTextIn IsoMoment text.now found
        → result ≡ Ok found }
    ensures has { IfOk result (IsTextIn IsoMoment text.now) }
    ensures form { FailsWithSyntax result ↔ ¬ HasFormIn IsoMoment text.now }
    ensures position { IfErr result (IsErrorAtStop (HasFormIn IsoMoment) text.now) }
    ensures component { (why : ComponentRange)
        → FailsWithComponent why result ↔ IsErrorIn IsoMoment text.now why }
{
    match offset_date_time::parse(text) {
        Ok(moment) => Ok(DateOrMoment::Moment(MomentForm::Rfc3339, moment)),
        Err(error) => Err(error),
    }
}

/// Parses a local date-time, which is at `offset`.
pub fn read_iso_local(offset: UtcOffset, text: &[u8]) -> Result<DateOrMoment, ParseError>
    ensures every { (found : DateOrMoment) → IsTextIn (IsoLocal offset) text.now found
        → result ≡ Ok found }
    ensures has { IfOk result (IsTextIn (IsoLocal offset) text.now) }
    ensures form { FailsWithSyntax result ↔ ¬ HasFormIn (IsoLocal offset) text.now }
    ensures position { IfErr result (IsErrorAtStop (HasFormIn (IsoLocal offset)) text.now) }
    ensures component { (why : ComponentRange)
        → FailsWithComponent why result ↔ IsErrorIn (IsoLocal offset) text.now why }
{
    match plain::parse(text) {
        Ok(local) => Ok(DateOrMoment::Moment(MomentForm::Rfc3339, local.assume_offset(offset))),
        Err(error) => Err(error),
    }
}
