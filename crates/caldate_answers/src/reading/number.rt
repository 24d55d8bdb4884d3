//! Unix times in whole milliseconds, microseconds or nanoseconds.
ghost use Rattle.std.specs.Prelude.{◌≡◌, ◌<◌, ◌↔◌, ◌≤◌, pos, IfErr, IfOk, IfSome, Ok};
ghost use Rattle.cal_time.specs.declared.error.ComponentRange.{ComponentRange};
ghost use Rattle.cal_text.specs.Parsing.{FailsWithComponent, FailsWithSyntax};
ghost use Rattle.cal_text.specs.Position.{IsErrorAtStop};
ghost use Rattle.cal_text.specs.Shape.{End, Number, ScansWhole};
ghost use Rattle.cal_text.specs.declared.any.DateOrMoment.{DateOrMoment};
ghost use Rattle.caldate_answers.specs.Readings.{HasFormIn, IsErrorIn, IsNumber, IsTextIn, nanoseconds_in, number_shape};
ghost use Rattle.caldate_answers.specs.declared.reading.Reading.TheVariants.{Unix};

use crate::reading::digits::scan_more_digits;
use crate::request::UnixUnit;
use cal_datetime::OffsetDateTime;
use cal_text::{DateOrMoment, MomentForm, ParseError, Scanner};

/// Parses a number of units since 1970-01-01 UTC.
pub fn read_number(unit: UnixUnit, text: &[u8]) -> Result<DateOrMoment, ParseError>
    ensures every { (found : DateOrMoment) → IsTextIn (Unix unit) text.now found
        → result ≡ Ok found }
    ensures has { IfOk result (IsTextIn (Unix unit) text.now) }
    ensures form { FailsWithSyntax result ↔ ¬ HasFormIn (Unix unit) text.now }
    ensures position { IfErr result (IsErrorAtStop (HasFormIn (Unix unit)) text.now) }
    ensures component { (why : ComponentRange)
        → FailsWithComponent why result ↔ IsErrorIn (Unix unit) text.now why }
{
    let mut scanner = Scanner { rest: text };
    let Some(number) = scan_number(&mut scanner) else {
        let position = text.len() - scanner.rest.len();
        return Err(ParseError::unexpected(position, text.len()));
    };
    match OffsetDateTime::from_unix_timestamp_nanos(number * i128::from(nanoseconds_in(unit))) {
        Ok(moment) => Ok(DateOrMoment::Moment(MomentForm::Unix, moment)),
        Err(error) => Err(ParseError::OutOfRange(error)),
    }
}

fn nanoseconds_in(unit: UnixUnit) -> u32
    ensures value { result ≡ nanoseconds_in unit }
    ensures few { result ≤ 1_000_000 }
{
    match unit {
        UnixUnit::Milliseconds => 1_000_000,
        UnixUnit::Microseconds => 1_000,
        UnixUnit::Nanoseconds => 1,
    }
}

/// Parses a number of at most 27 digits without leading zeros, up to the end of the string. It has
/// a minus sign if it is negative.
fn scan_number(scanner: &mut Scanner) -> Option<i128>
    ensures scans { ScansWhole number_shape scanner.old.rest.now scanner.new.rest.now result }
    ensures value { IfSome result (IsNumber scanner.old.rest.now) }
{
    match scanner.byte(b'-') {
        Some(()) => {
            let number = scan_positive_number(scanner)?;
            Some(-(number as i128))
        }
        None => match scanner.byte(b'0') {
            Some(()) => {
                scanner.end()?;
                Some(0)
            }
            None => {
                let number = scan_positive_number(scanner)?;
                Some(number as i128)
            }
        },
    }
}

/// Parses a number above 0 of at most 27 digits without leading zeros, up to the end of the string.
fn scan_positive_number(scanner: &mut Scanner) -> Option<u128>
    ensures scans { ScansWhole (Number 26 End) scanner.old.rest.now scanner.new.rest.now result }
    ensures value { IfSome result (λ n. (0 < n) × IsNumber scanner.old.rest.now (pos n)) }
{
    let first = scanner.digit_from_1()?;
    let number = scan_more_digits(scanner, u128::from(first), 26);
    scanner.end()?;
    Some(number)
}
