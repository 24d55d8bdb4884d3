//! Dates as Julian days.
ghost use Rattle.std.specs.Prelude.{◌≡◌, ℕ, ℤ, ◌≤◌, ◌↔◌, length, IfOk, IfErr, IfSome, Ok, Some};
ghost use Rattle.std.specs.Fmt.{padded};
ghost use Rattle.cal_time.specs.Date.{IsDate};
ghost use Rattle.cal_time.specs.declared.error.ComponentRange.{ComponentRange};
ghost use Rattle.cal_text.specs.JulianForm.{julian_text, IsJulianForm, IsJulianDayError};
ghost use Rattle.cal_text.specs.Position.{HasSome, IsErrorAtStop};
ghost use Rattle.cal_text.specs.Parsing.{HasError, FailsWithComponent, FailsWithSyntax};
ghost use Rattle.cal_text.specs.Shape.{ScansWhole, julian_day};

use crate::digits::scan_positive_number;
use crate::error::ParseError;
use crate::scanner::Scanner;
use cal_time::{Date, ShortText};
use std::fmt;

/// A date that prints as its Julian day, such as `J2460370`. A width pads the whole text.
#[derive(Clone, Copy, Debug, PartialEq, Eq)]
pub struct JulianText(pub Date);

impl JulianText {
    /// Returns the text, at most 12 bytes. For 2024-02-29 it is `J2460370`.
    #[tactic(auto, using(cal_time::proofs::TextLengths::text_lengths))]
    pub fn text(self) -> ShortText
        ensures value { result ≡ julian_text self.0 }
        ensures max_length { length result ≤ 12 }
    {
        let mut text = ShortText::new();
        text.push("J");
        text.push_i32(self.0.to_julian_day());
        text
    }
}

impl fmt::Display for JulianText {
    ghost output = { λ t. Some (julian_text t.0) };

    ghost styled_output = { λ t spec. Some (padded spec (julian_text t.0)) };

    fn fmt<W: fmt::Write>(&self, f: &mut fmt::Formatter<W>) -> fmt::Result {
        f.pad(self.text().as_str())
    }
}

/// Parses the letter J and a Julian day, such as `J2460370`, and returns its date, here 2024-02-29.
/// Accepts exactly the texts that dates print: a minus sign if the number is negative, no plus sign
/// and no leading zeros.
///
/// Returns `UnexpectedByte` or `UnexpectedEnd` for any other form, and `OutOfRange` with
/// `julian_day` if a number of at most nine digits is outside -363521074 to 366963559.
pub fn parse(text: &[u8]) -> Result<Date, ParseError>
    ensures every { (n : ℕ) → IsDate n → text.now ≡ julian_text n → result ≡ Ok n }
    ensures value { IfOk result (λ n. IsDate n × (text.now ≡ julian_text n)) }
    ensures syntax_error { FailsWithSyntax result ↔ ((j : ℤ) → ¬ IsJulianForm text.now j) }
    ensures position { IfErr result (IsErrorAtStop (HasSome IsJulianForm) text.now) }
    ensures out_of_range { (why : ComponentRange)
        → FailsWithComponent why result ↔ HasError IsJulianForm IsJulianDayError text.now why }
{
    let mut scanner = Scanner { rest: text };
    match scan_julian_day(&mut scanner) {
        Some(julian_day) => match Date::from_julian_day(julian_day) {
            Ok(date) => Ok(date),
            Err(error) => Err(ParseError::OutOfRange(error)),
        },
        None => {
            let position = text.len() - scanner.rest.len();
            Err(ParseError::unexpected(position, text.len()))
        }
    }
}

/// Parses the letter J, a number of at most nine digits and the end of the text.
fn scan_julian_day(scanner: &mut Scanner) -> Option<i32>
    ensures scans { ScansWhole julian_day scanner.old.rest.now scanner.new.rest.now result }
    ensures value { IfSome result (IsJulianForm scanner.old.rest.now) }
{
    scanner.byte(b'J')?;
    match scanner.byte(b'-') {
        Some(()) => {
            let number = scan_positive_number(scanner, 8)?;
            scanner.end()?;
            Some(-(number as i32))
        }
        None => match scanner.byte(b'0') {
            Some(()) => {
                scanner.end()?;
                Some(0)
            }
            None => {
                let number = scan_positive_number(scanner, 8)?;
                scanner.end()?;
                Some(number as i32)
            }
        },
    }
}
