//! Strings without a year.
ghost use Rattle.std.specs.Prelude.{◌≡◌, ◌≤◌, ℤ, ◌≤ℤ◌, ◌+ℤ◌, ◌-ℤ◌, ◌-◌, IfSome, List, MatchOption, ◌<◌, ℕ, Some, false, length, nat_lt, neg_ℤ, pos};
ghost use Rattle.cal_text.specs.declared.any.DateOrMoment.{DateOrMoment};
ghost use Rattle.cal_time.specs.Date.{year_at};
ghost use Rattle.cal_time.specs.declared.error.ComponentRange.{ComponentRange};
ghost use Rattle.caldate_answers.specs.FormatErrors.{IsFormatError, IsReadBy, IsReasonBy};
ghost use Rattle.caldate_answers.specs.Found.{day_of};
ghost use Rattle.caldate_answers.specs.Nearness.{IsFirstAfter, IsLastUntil, IsNearestTo, days_apart, nearer_to};
ghost use Rattle.caldate_answers.specs.Readers.{IsErrorInYear, IsFormatText, IsReadInYear, IsTextInYears, IsTextNear, IsYearlessError, IsYearlessText, with_year};
ghost use Rattle.caldate_lines.specs.declared.no_answer.NoAnswer.{NoAnswer};

use crate::answer::moment_of;
use crate::reading::full_text::{FullText, LONGEST};
use crate::reading::reader::Assumptions;
use crate::reading::value_format::ValueFormat;
use crate::scan::bound::bound_by_format;
use cal_text::DateOrMoment;
use cal_time::{Date, ShortText, UtcOffset};
use caldate_lines::no_answer::NoAnswer;

/// The maximum number of years between a day and a string near it.
const REACH: u8 = 50;

/// The year of a string that has none.
#[derive(Clone, Copy)]
pub enum AssumedYear {
    /// This one, from 0 to 9999.
    Is(i32),
    /// The one in which the string is nearest to this day, or the earlier of two, within 50 years.
    Near(Date),
}

/// Parses a string without its year in the format with the year, or returns why it can't be read:
/// in the assumed year, or in the year of the day.
pub fn read_yearless(
    format: &ValueFormat,
    assumptions: &Assumptions,
    text: &[u8],
) -> Result<DateOrMoment, NoAnswer>
    ensures { IsReadBy (IsYearlessText assumptions.now format.now text.now)
        (IsYearlessError assumptions.now format.now text.now) result }
{
    if text.len() > LONGEST {
        return Err(NoAnswer::NoForm);
    }
    match assumptions.year {
        AssumedYear::Is(year) => read_in_year(format, assumptions.offset, text, year),
        AssumedYear::Near(day) => read_near(day, format, assumptions.offset, text),
    }
}

/// Appends a slash and the year.
fn with_year(year: &[u8], text: &[u8]) -> FullText
    requires { (length text.now ≤ 60) × (length year.now ≤ 4) }
    ensures { result ≡ with_year year.now text.now }
{
    let mut full = FullText::new();
    full.push(text);
    full.push(b"/");
    full.push(year);
    full
}

/// Parses a string in the year in which it is nearest to a day, or returns why it can't be read in
/// the year of the day.
fn read_near(
    day: Date,
    format: &ValueFormat,
    offset: UtcOffset,
    text: &[u8],
) -> Result<DateOrMoment, NoAnswer>
    requires { length text.now ≤ 60 }
    ensures { IsReadBy (IsNearestTo day (IsTextNear offset format.now text.now day))
        (IsErrorInYear format.now text.now (year_at day)) result }
{
    if !may_lack_year(format, text) {
        return Err(NoAnswer::NoForm);
    }
    match nearest_to(day, format, offset, text) {
        Some(found) => Ok(found),
        None => Err(error_in_year(format, offset, text, day.year())),
    }
}

/// Returns the date or the moment of a string in the year in which it is nearest to a day.
fn nearest_to(
    day: Date,
    format: &ValueFormat,
    offset: UtcOffset,
    text: &[u8],
) -> Option<DateOrMoment>
    requires { length text.now ≤ 60 }
    ensures every { (found : DateOrMoment)
        → IsNearestTo day (IsTextNear offset format.now text.now day) found
        → result ≡ Some found }
    ensures has { IfSome result (IsNearestTo day (IsTextNear offset format.now text.now day)) }
{
    let year = day.year();
    let last = last_until(day, format, offset, text, year, REACH);
    nearer_to(
        day,
        last,
        first_after(day, format, offset, text, year, REACH),
    )
}

/// Returns `false` if no year after the string makes it one in the format, so that none is tried.
fn may_lack_year(format: &ValueFormat, text: &[u8]) -> bool
    requires { length text.now ≤ 60 }
    ensures text { result ≡ false → (offset : ℤ) (year : List ℕ) (found : DateOrMoment)
        → ¬ IsFormatText offset format.now (with_year year text.now) found }
    ensures error { result ≡ false → (year : List ℕ) (why : ComponentRange)
        → ¬ IsFormatError format.now (with_year year text.now) why }
{
    let mut front = FullText::new();
    front.push(text);
    front.push(b"/");
    bound_by_format(format, front.as_bytes()) > text.len()
}

/// Returns the last date or moment of a string on or before a day, in the years from `year - more` to
/// `year`.
fn last_until(
    day: Date,
    format: &ValueFormat,
    offset: UtcOffset,
    text: &[u8],
    year: i32,
    more: u8,
) -> Option<DateOrMoment>
    requires short { length text.now ≤ 60 }
    requires range { neg_ℤ (pos 2_000_000) ≤ℤ (year -ℤ pos more) }
    ensures { MatchOption result
        ((found : DateOrMoment) → IsTextInYears offset format.now text.now (year -ℤ pos more) year found → day < day_of found)
        (IsLastUntil day (IsTextInYears offset format.now text.now (year -ℤ pos more) year)) }
{
    if let Some(found) = in_year(format, offset, text, year) {
        if date_of(&found) <= day {
            return Some(found);
        }
    }
    if more == 0 {
        return None;
    }
    last_until(day, format, offset, text, year - 1, more - 1)
}

/// Returns the first date or moment of a string after a day, in the years from `year` to
/// `year + more`.
fn first_after(
    day: Date,
    format: &ValueFormat,
    offset: UtcOffset,
    text: &[u8],
    year: i32,
    more: u8,
) -> Option<DateOrMoment>
    requires short { length text.now ≤ 60 }
    requires range { (year +ℤ pos more) ≤ℤ pos 2_000_000 }
    ensures { MatchOption result
        ((found : DateOrMoment) → IsTextInYears offset format.now text.now year (year +ℤ pos more) found → day_of found ≤ day)
        (IsFirstAfter day (IsTextInYears offset format.now text.now year (year +ℤ pos more))) }
{
    if let Some(found) = in_year(format, offset, text, year) {
        if day < date_of(&found) {
            return Some(found);
        }
    }
    if more == 0 {
        return None;
    }
    first_after(day, format, offset, text, year + 1, more - 1)
}

/// Returns the date or the moment of a string in a year, if the year has four digits.
fn in_year(format: &ValueFormat, offset: UtcOffset, text: &[u8], year: i32) -> Option<DateOrMoment>
    requires { length text.now ≤ 60 }
    ensures { MatchOption result
        ((found : DateOrMoment) → ¬ IsTextInYears offset format.now text.now year year found)
        (λ found. IsTextInYears offset format.now text.now year year found
        × ((other : DateOrMoment) → IsTextInYears offset format.now text.now year year other → other ≡ found)) }
{
    match read_in_year(format, offset, text, year) {
        Ok(found) => Some(found),
        Err(_) => None,
    }
}

/// Returns why a string can't be read in a year.
fn error_in_year(format: &ValueFormat, offset: UtcOffset, text: &[u8], year: i32) -> NoAnswer
    requires { length text.now ≤ 60 }
    ensures error { IsReasonBy (IsErrorInYear format.now text.now year) result }
    ensures only { (why : NoAnswer) → IsReasonBy (IsErrorInYear format.now text.now year) why
        → result ≡ why }
{
    match read_in_year(format, offset, text, year) {
        Ok(_) => NoAnswer::NoForm,
        Err(why) => why,
    }
}

/// Parses a string in a year of four digits, or returns why it can't be read.
fn read_in_year(
    format: &ValueFormat,
    offset: UtcOffset,
    text: &[u8],
    year: i32,
) -> Result<DateOrMoment, NoAnswer>
    requires { length text.now ≤ 60 }
    ensures { IsReadInYear offset format.now text.now year result }
{
    if year < 0 || year > 9_999 {
        return Err(NoAnswer::NoForm);
    }
    let mut digits = ShortText::new();
    digits.push_year(year);
    match format.read(offset, with_year(digits.as_bytes(), text).as_bytes()) {
        Ok(found) => {
            if date_of(&found).year() == year {
                Ok(found)
            } else {
                Err(NoAnswer::NoForm)
            }
        }
        Err(why) => Err(why),
    }
}

/// Returns the date or moment that is nearer to a day, or the earlier of two that are as near.
fn nearer_to(
    day: Date,
    last: Option<DateOrMoment>,
    first: Option<DateOrMoment>,
) -> Option<DateOrMoment>
    ensures { result ≡ nearer_to day last first }
{
    match (last, first) {
        (Some(last), Some(first)) => {
            if days_apart(day, &first) < days_apart(day, &last) {
                Some(first)
            } else {
                Some(last)
            }
        }
        (Some(last), None) => Some(last),
        (None, first) => first,
    }
}

/// Returns the number of days between a day and the local date.
fn days_apart(day: Date, found: &DateOrMoment) -> u32
    ensures { result ≡ days_apart day (day_of found.now) }
{
    (date_of(found).to_julian_day() - day.to_julian_day()).unsigned_abs()
}

/// Returns the local date.
fn date_of(found: &DateOrMoment) -> Date
    ensures { result ≡ day_of found.now }
{
    moment_of(found).date()
}
