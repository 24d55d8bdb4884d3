//! Dates in eight digits, or with the year last.
ghost use Rattle.std.specs.Prelude.{◌≡◌, ℕ, pos, ◌∷◌, ◌↔◌, IfErr, IfOk, IfSome, MatchOption, Ok, suc, length};
ghost use Rattle.cal_time.specs.ComponentError.{FailsWith};
ghost use Rattle.cal_time.specs.Date.{HasCalendarDate, IsDate};
ghost use Rattle.cal_time.specs.declared.error.ComponentRange.{ComponentRange};
ghost use Rattle.cal_text.specs.Parsing.{FailsWithComponent, FailsWithSyntax};
ghost use Rattle.cal_text.specs.Position.{IsErrorAtStop};
ghost use Rattle.cal_text.specs.Shape.{ScansWhole, unmatched_bytes};
ghost use Rattle.cal_text.specs.declared.any.DateOrMoment.{DateOrMoment};
ghost use Rattle.caldate_answers.specs.Readings.{HasDate, HasFormIn, IsDateError, IsErrorIn, IsSeparator, IsTextIn, IsYearLast, date_shape, from_separator, past_separator, year_last};
ghost use Rattle.caldate_answers.specs.declared.reading.Reading.TheVariants as reading;

use crate::reading::DateOrder;
use crate::reading::digits::{scan_four_digits, scan_two_digits};
use cal_text::{DateForm, DateOrMoment, ParseError, Scanner};
use cal_time::error::ComponentRange;
use cal_time::{Date, Month};

/// Parses a date whose parts have this order.
pub fn read_date(order: DateOrder, text: &[u8]) -> Result<DateOrMoment, ParseError>
    ensures every { (found : DateOrMoment) → IsTextIn (reading.Date order) text.now found
        → result ≡ Ok found }
    ensures has { IfOk result (IsTextIn (reading.Date order) text.now) }
    ensures form { FailsWithSyntax result ↔ ¬ HasFormIn (reading.Date order) text.now }
    ensures position { IfErr result (IsErrorAtStop (HasFormIn (reading.Date order)) text.now) }
    ensures component { (why : ComponentRange)
        → FailsWithComponent why result ↔ IsErrorIn (reading.Date order) text.now why }
{
    let mut scanner = Scanner { rest: text };
    match scan_date(order, &mut scanner) {
        Some((year, month, day)) => match date_of(year, month, day) {
            Ok(date) => Ok(DateOrMoment::Date(DateForm::Calendar, date)),
            Err(error) => Err(ParseError::OutOfRange(error)),
        },
        None => Err(ParseError::unexpected(text.len() - scanner.rest.len(), text.len())),
    }
}

/// Returns the date, or the error of the first component out of range.
fn date_of(year: u16, month: u8, day: u8) -> Result<Date, ComponentRange>
    ensures every { (n : ℕ) → IsDate n → HasCalendarDate (pos year) month day n → result ≡ Ok n }
    ensures value { IfOk result (λ n. IsDate n × HasCalendarDate (pos year) month day n) }
    ensures error { (why : ComponentRange)
        → FailsWith why result ↔ IsDateError (year, month, day) why }
{
    Date::from_calendar_date(i32::from(year), Month::try_from(month)?, day)
}

/// Parses the year, the month and the day up to the end of the string.
fn scan_date(order: DateOrder, scanner: &mut Scanner) -> Option<(u16, u8, u8)>
    ensures scans { ScansWhole (date_shape order) scanner.old.rest.now scanner.new.rest.now result }
    ensures value { IfSome result (HasDate order scanner.old.rest.now) }
{
    match order {
        DateOrder::Basic => {
            let year = scan_four_digits(scanner)?;
            let month = scan_two_digits(scanner)?;
            let day = scan_two_digits(scanner)?;
            scanner.end()?;
            Some((year, month, day))
        }
        DateOrder::DayFirst => {
            let (day, month, year) = scan_year_last(scanner)?;
            Some((year, month, day))
        }
        DateOrder::MonthFirst => {
            let (month, day, year) = scan_year_last(scanner)?;
            Some((year, month, day))
        }
    }
}

/// Parses two numbers and a year with the same separator between them, up to the end of the string.
fn scan_year_last(scanner: &mut Scanner) -> Option<(u8, u8, u16)>
    ensures scans { ScansWhole year_last scanner.old.rest.now scanner.new.rest.now result }
    ensures value { IfSome result (λ found.
        IsYearLast scanner.old.rest.now found.0 found.1 found.2) }
{
    let first = scan_two_digits(scanner)?;
    let separator = scan_separator(scanner)?;
    let second = scan_two_digits(scanner)?;
    scanner.byte(separator)?;
    let year = scan_four_digits(scanner)?;
    scanner.end()?;
    Some((first, second, year))
}

/// Parses a hyphen, a point or a slash, and returns it.
fn scan_separator(scanner: &mut Scanner) -> Option<u8>
    ensures scans { MatchOption result
        (unmatched_bytes from_separator scanner.old.rest.now ≡ suc (length scanner.new.rest.now))
        (λ b. unmatched_bytes from_separator scanner.old.rest.now
        ≡ unmatched_bytes (past_separator b) scanner.new.rest.now) }
    ensures value { IfSome result (λ b.
        IsSeparator b × (scanner.old.rest.now ≡ b ∷ scanner.new.rest.now)) }
{
    match scanner.byte(b'-') {
        Some(()) => Some(b'-'),
        None => match scanner.byte(b'.') {
            Some(()) => Some(b'.'),
            None => {
                scanner.byte(b'/')?;
                Some(b'/')
            }
        },
    }
}
