//! Parsing the form of a date.
ghost use Rattle.std.specs.Prelude.{◌≡◌, IfSome, IfOk, IfErr, Ok};
ghost use Rattle.cal_text.specs.declared.date_numbers.DateNumbers.{DateNumbers};
ghost use Rattle.cal_text.specs.DateForms.{HasForm};
ghost use Rattle.cal_text.specs.Position.{HasSome, IsPosition};
ghost use Rattle.cal_text.specs.Shape.{Scans, ScansWhole, GoesPast, Date, date};

use crate::date_numbers::DateNumbers;
use crate::scanner::Scanner;
use crate::year::scan_year;

/// Returns the form of the text, or the position at which the text stops matching the forms.
// Inlined, so that the caller has the result in registers: in memory it is written by parts, and the
// processor waits before it reads them as one number.
#[inline(always)]
pub(crate) fn parse_numbers(text: &[u8]) -> Result<DateNumbers, usize>
    ensures every { (form : DateNumbers) → HasForm text.now form → result ≡ Ok form }
    ensures value { IfOk result (HasForm text.now) }
    ensures position { IfErr result (IsPosition (HasSome HasForm) text.now) }
{
    // Most dates have a year of four digits. For these the length is tested once, not before each
    // byte.
    let mut scanner = Scanner { rest: text };
    if let [_, _, _, _, b'-', _, _, b'-', _, _] = text {
        if let Some(year) = scanner.four_digits() {
            if let Some((month, day)) = scanner.two_numbers(b'-') {
                if let Some(()) = scanner.end() {
                    return Ok(DateNumbers::Calendar(year as i32, month, day));
                }
            }
        }
    }
    scanner.rest = text;
    match scan_whole_date(&mut scanner) {
        Some(form) => Ok(form),
        None => Err(text.len() - scanner.rest.len()),
    }
}

/// Parses the numbers of a date up to the end of the text.
fn scan_whole_date(scanner: &mut Scanner) -> Option<DateNumbers>
    ensures scans { ScansWhole date scanner.old.rest.now scanner.new.rest.now result }
    ensures value { IfSome result (HasForm scanner.old.rest.now) }
{
    let form = scan_date(scanner)?;
    scanner.end()?;
    Some(form)
}

/// Parses the numbers of a date: a year, a hyphen, and then a week and a weekday, a month and a day,
/// or an ordinal.
#[inline(always)]
pub fn scan_date(scanner: &mut Scanner) -> Option<DateNumbers>
    ensures scans { Scans Date scanner.old.rest.now scanner.new.rest.now result }
    ensures value { IfSome result (λ form.
        GoesPast (λ bytes. HasForm bytes form) scanner.old.rest.now scanner.new.rest.now) }
{
    let year = scan_year(scanner)?;
    if let Some(()) = scanner.byte(b'W') {
        let week = scanner.two_digits()?;
        scanner.byte(b'-')?;
        let weekday = scanner.byte_from(b'1', 6)?;
        return Some(DateNumbers::Week(year, week as u8, weekday - b'0'));
    }
    let front = scanner.two_digits()?;
    match scanner.byte(b'-') {
        Some(()) => {
            let day = scanner.two_digits()?;
            Some(DateNumbers::Calendar(year, front as u8, day as u8))
        }
        None => {
            let last = scanner.digit()?;
            Some(DateNumbers::Ordinal(year, (front * 10 + last) as u16))
        }
    }
}
