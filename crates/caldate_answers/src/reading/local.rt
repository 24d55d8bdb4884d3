//! Moments without an offset.
ghost use Rattle.std.specs.Prelude.{◌≡◌, ◌↔◌, ◌≤◌, ◌++◌, IfErr, IfOk, None, Ok, codes, length};
ghost use Rattle.cal_time.specs.declared.error.ComponentRange.{ComponentRange};
ghost use Rattle.cal_text.specs.Parsing.{FailsWithComponent, FailsWithSyntax, component_of};
ghost use Rattle.cal_text.specs.Position.{HasSome, IsErrorAtStop};
ghost use Rattle.cal_text.specs.Rfc3339Form.{HasMomentForm};
ghost use Rattle.cal_text.specs.Shape.{Digits, End, Fraction, Scans, ScansWhole, Separator, ToSeconds, TwoNumbers};
ghost use Rattle.cal_text.specs.declared.any.DateOrMoment.{DateOrMoment};
ghost use Rattle.caldate_answers.specs.Readings.{HasFormIn, IsErrorIn, IsTextIn, WithoutOffset};
ghost use Rattle.caldate_answers.specs.declared.reading.Reading.TheVariants.{Local};

use crate::reading::digits::{scan_four_digits, scan_more_digits, scan_two_digits};
use crate::reading::full_text::FullText;
use cal_text::{DateOrMoment, MomentForm, ParseError, Scanner, rfc3339};
use cal_time::UtcOffset;

/// The length of a moment without its offset, with nine digits of a fraction.
const LONGEST: usize = 29;

/// Parses a moment without its offset, which is at `offset`.
pub fn read_local(offset: UtcOffset, text: &[u8]) -> Result<DateOrMoment, ParseError>
    ensures every { (found : DateOrMoment) → IsTextIn (Local offset) text.now found
        → result ≡ Ok found }
    ensures has { IfOk result (IsTextIn (Local offset) text.now) }
    ensures form { FailsWithSyntax result ↔ ¬ HasFormIn (Local offset) text.now }
    ensures position { IfErr result (IsErrorAtStop (HasFormIn (Local offset)) text.now) }
    ensures component { (why : ComponentRange)
        → FailsWithComponent why result ↔ IsErrorIn (Local offset) text.now why }
{
    if text.len() > LONGEST {
        return Err(wrong_at(text));
    }
    let full = with_offset(text);
    match rfc3339::parse(full.as_bytes()) {
        Ok(moment) => Ok(DateOrMoment::Moment(
            MomentForm::Rfc3339,
            moment.local().assume_offset(offset),
        )),
        Err(error) => match error {
            ParseError::OutOfRange(component) => Err(ParseError::OutOfRange(component)),
            ParseError::UnexpectedByte(_) | ParseError::UnexpectedEnd(_) => Err(wrong_at(text)),
        },
    }
}

/// Appends a `Z`.
fn with_offset(text: &[u8]) -> FullText
    requires { length text.now ≤ 29 }
    ensures { result ≡ text.now ++ codes "Z" }
{
    let mut full = FullText::new();
    full.push(text);
    full.push(b"Z");
    full
}

/// Returns the error of a string without the form, at the first wrong byte.
fn wrong_at(text: &[u8]) -> ParseError
    requires { ¬ HasSome (WithoutOffset HasMomentForm) text.now }
    ensures form { component_of result ≡ None }
    ensures position { IsErrorAtStop (HasSome (WithoutOffset HasMomentForm)) text.now result }
{
    let mut scanner = Scanner { rest: text };
    let _form = scan_local(&mut scanner);
    ParseError::unexpected(text.len() - scanner.rest.len(), text.len())
}

/// Parses a date, a time of day and a fraction of at most nine digits, up to the end of the string.
fn scan_local(scanner: &mut Scanner) -> Option<()>
    ensures { ScansWhole (ToSeconds (Fraction 8 End)) scanner.old.rest.now scanner.new.rest.now
        result }
{
    scan_four_digits(scanner)?;
    scanner.byte(b'-')?;
    scan_two_digits(scanner)?;
    scanner.byte(b'-')?;
    scan_two_digits(scanner)?;
    scan_separator(scanner)?;
    scan_clock(scanner)?;
    Some(())
}

/// Parses a time of day and a fraction of at most nine digits, up to the end of the string.
fn scan_clock(scanner: &mut Scanner) -> Option<()>
    ensures { ScansWhole (Digits 2 (TwoNumbers 58 (Fraction 8 End))) scanner.old.rest.now
        scanner.new.rest.now result }
{
    scan_two_digits(scanner)?;
    scanner.byte(b':')?;
    scan_two_digits(scanner)?;
    scanner.byte(b':')?;
    scan_two_digits(scanner)?;
    if let Some(()) = scanner.byte(b'.') {
        scanner.digit()?;
        scan_more_digits(scanner, 0, 8);
    }
    scanner.end()?;
    Some(())
}

/// Parses the byte between the date and the time of day.
fn scan_separator(scanner: &mut Scanner) -> Option<()>
    ensures { Scans Separator scanner.old.rest.now scanner.new.rest.now result }
{
    match scanner.byte(b'T') {
        Some(()) => Some(()),
        None => match scanner.byte(b't') {
            Some(()) => Some(()),
            None => scanner.byte(b' '),
        },
    }
}
