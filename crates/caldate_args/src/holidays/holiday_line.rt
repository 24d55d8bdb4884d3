//! A line of a file of holidays: a date or a rule.
ghost use Rattle.std.specs.Prelude.{◌≡◌, IfErr, IfOk, Ok};
ghost use Rattle.caldate_args.specs.Holidays.{IsInvalidLine, IsLine};

use crate::holidays::read_holidays_error::HolidayLineError;
use cal_holiday_text::parse_holiday_rule;
use cal_holidays::HolidayRule;
use cal_text::date::parse;
use cal_time::Date;
use caldate_lines::lines::cut_return;

/// The meaning of a line of a file of holidays.
#[derive(Clone, Copy)]
pub(crate) enum HolidayLine {
    /// The line has no words.
    Empty,
    /// A date.
    Date(Date),
    /// A rule.
    Rule(HolidayRule),
}

/// Parses a line without its line feed: a date, or else a rule or no words.
///
/// `2024-12-25` is a date, and `12-25` a rule. The error of `12-32` is `NoDate(UnexpectedByte(2))`,
/// since it has no day, and of `12-25 SU` it is `InvalidRule(6)`.
pub(crate) fn parse_holiday_line(line: &[u8]) -> Result<HolidayLine, HolidayLineError>
    ensures every { (meaning : HolidayLine) → IsLine line.now meaning → result ≡ Ok meaning }
    ensures value { IfOk result (IsLine line.now) }
    ensures error { IfErr result (IsInvalidLine line.now) }
{
    let (text, _has_return) = cut_return(line);
    let error = match parse(text) {
        Ok(date) => return Ok(HolidayLine::Date(date)),
        Err(error) => error,
    };
    match parse_holiday_rule(line) {
        Ok(Some(rule)) => Ok(HolidayLine::Rule(rule)),
        Ok(None) => Ok(HolidayLine::Empty),
        Err(0) => Err(HolidayLineError::NoDate(error)),
        Err(position) => Err(HolidayLineError::InvalidRule(position)),
    }
}
