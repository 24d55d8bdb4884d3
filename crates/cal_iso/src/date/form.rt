//! Parsing the numbers of a date.
ghost use Rattle.std.specs.Prelude.{◌≡◌, ◌<◌, ◌∷◌, [], ℕ, IfSome};
ghost use Rattle.cal_text.specs.DateForms.{form_year};
ghost use Rattle.cal_text.specs.Rfc3339Form.{sign_byte};
ghost use Rattle.cal_text.specs.Shape.{End, GoesPast, ParsesMoreDigits, Scans, ScansWhole, Shape, UpTo, unmatched_bytes};
ghost use Rattle.cal_iso.specs.DateForm.{HasIsoDate, IsAfterYear, IsWeekday, signed};
ghost use Rattle.cal_iso.specs.IsoShape.{AfterHyphen, BasicRest, Date, Expanded, FourDigits, WeekdayAfterHyphen};

use cal_text::{DateNumbers, Scanner};

/// Parses the numbers of a date up to the end of the string.
pub(super) fn scan_whole_date(scanner: &mut Scanner) -> Option<DateNumbers>
    ensures scans { ScansWhole (Date End) scanner.old.rest.now scanner.new.rest.now result }
    ensures value { IfSome result (HasIsoDate scanner.old.rest.now) }
{
    let numbers = scan_date(scanner)?;
    scanner.end()?;
    Some(numbers)
}

/// Parses the numbers of a date.
pub(crate) fn scan_date(scanner: &mut Scanner) -> Option<DateNumbers>
    ensures scans { Scans Date scanner.old.rest.now scanner.new.rest.now result }
    ensures value { IfSome result (λ f.
        GoesPast (λ bytes. HasIsoDate bytes f) scanner.old.rest.now scanner.new.rest.now) }
{
    match scanner.byte(b'+') {
        Some(()) => scan_expanded(scanner, false),
        None => match scanner.byte(b'-') {
            Some(()) => scan_expanded(scanner, true),
            None => scan_four_digit_year(scanner),
        },
    }
}

/// Parses the digits of an expanded year, and the rest of the date.
fn scan_expanded(scanner: &mut Scanner, is_negative: bool) -> Option<DateNumbers>
    ensures scans { Scans Expanded scanner.old.rest.now scanner.new.rest.now result }
    ensures value { IfSome result (λ f. GoesPast
        (λ bytes. HasIsoDate (sign_byte is_negative ∷ bytes) f) scanner.old.rest.now scanner.new.rest.now) }
{
    let front = scanner.four_digits()?;
    let number = scan_two_more(scanner, front);
    scanner.byte(b'-')?;
    scan_after_hyphen(scanner, signed_year(is_negative, number))
}

/// Returns a year with its sign.
fn signed_year(is_negative: bool, number: u32) -> i32
    requires { number < 1_000_000 }
    ensures { result ≡ signed is_negative number }
{
    let year = number as i32;
    if is_negative { -year } else { year }
}

/// Parses up to two digits after the digits of `number`, and returns the new number.
fn scan_two_more(scanner: &mut Scanner, number: u32) -> u32
    requires { number < 10000 }
    ensures scans { (f : Shape) → unmatched_bytes (UpTo 2 f) scanner.old.rest.now
        ≡ unmatched_bytes f scanner.new.rest.now }
    ensures value { ParsesMoreDigits scanner.old.rest.now scanner.new.rest.now 2 number result }
    ensures range { result < 1_000_000 }
{
    match scanner.digit() {
        Some(fifth) => match scanner.digit() {
            Some(sixth) => (number * 10 + fifth) * 10 + sixth,
            None => number * 10 + fifth,
        },
        None => number,
    }
}

/// Parses a year of four digits, and the rest of the date.
fn scan_four_digit_year(scanner: &mut Scanner) -> Option<DateNumbers>
    ensures scans { Scans FourDigits scanner.old.rest.now scanner.new.rest.now result }
    ensures value { IfSome result (λ f.
        GoesPast (λ bytes. HasIsoDate bytes f) scanner.old.rest.now scanner.new.rest.now) }
{
    let number = scanner.four_digits()?;
    let year = number as i32;
    match scanner.byte(b'-') {
        Some(()) => scan_after_hyphen(scanner, year),
        None => scan_basic_rest(scanner, year),
    }
}

/// Parses what follows a year and its hyphen: a week and perhaps a weekday, a month and a day, or an
/// ordinal.
fn scan_after_hyphen(scanner: &mut Scanner, year: i32) -> Option<DateNumbers>
    ensures scans { Scans AfterHyphen scanner.old.rest.now scanner.new.rest.now result }
    ensures value { IfSome result (λ f.
        GoesPast (λ bytes. IsAfterYear (45 ∷ []) bytes f) scanner.old.rest.now scanner.new.rest.now) }
    ensures year { IfSome result (λ f. form_year f ≡ year) }
{
    if let Some(()) = scanner.byte(b'W') {
        let week = scanner.two_digits()?;
        let weekday = scan_weekday_after_hyphen(scanner)?;
        return Some(DateNumbers::Week(year, week as u8, weekday));
    }
    let front = scanner.two_digits()?;
    match scanner.byte(b'-') {
        Some(()) => {
            let day = scanner.two_digits()?;
            Some(DateNumbers::Calendar(year, front as u8, day as u8))
        }
        None => {
            let last = scanner.digit()?;
            Some(DateNumbers::Ordinal(year, (front * 10 + last) as u16))
        }
    }
}

/// Parses a hyphen and a weekday. Without the hyphen it parses nothing, and the weekday is 1.
fn scan_weekday_after_hyphen(scanner: &mut Scanner) -> Option<u8>
    ensures scans { Scans WeekdayAfterHyphen scanner.old.rest.now scanner.new.rest.now result }
    ensures value { IfSome result (λ d.
        GoesPast (λ bytes. IsWeekday (45 ∷ []) bytes d) scanner.old.rest.now scanner.new.rest.now) }
{
    match scanner.byte(b'-') {
        Some(()) => {
            let weekday = scanner.byte_from(b'1', 6)?;
            Some(weekday - b'0')
        }
        None => Some(1),
    }
}

/// Parses what follows a year in the basic format.
fn scan_basic_rest(scanner: &mut Scanner, year: i32) -> Option<DateNumbers>
    ensures scans { Scans BasicRest scanner.old.rest.now scanner.new.rest.now result }
    ensures value { IfSome result (λ f.
        GoesPast (λ bytes. IsAfterYear [] bytes f) scanner.old.rest.now scanner.new.rest.now) }
    ensures year { IfSome result (λ f. form_year f ≡ year) }
{
    if let Some(()) = scanner.byte(b'W') {
        let week = scanner.two_digits()?;
        return match scanner.byte_from(b'1', 6) {
            Some(weekday) => Some(DateNumbers::Week(year, week as u8, weekday - b'0')),
            None => Some(DateNumbers::Week(year, week as u8, 1)),
        };
    }
    let front = scanner.two_digits()?;
    let third = scanner.digit()?;
    match scanner.digit() {
        Some(last) => Some(DateNumbers::Calendar(year, front as u8, (third * 10 + last) as u8)),
        None => Some(DateNumbers::Ordinal(year, (front * 10 + third) as u16)),
    }
}
