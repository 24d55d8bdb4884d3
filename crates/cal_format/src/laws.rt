//! Laws of formats: a text has at most one error as a format, and two values that a format holds
//! never have the same text, nor, if the format is lenient, the same variant of a text.
ghost use Rattle.std.specs.Prelude.{◌≡◌, ℕ, ℤ, IsTrue};
ghost use Rattle.cal_time.specs.Date.{IsDate};
ghost use Rattle.cal_time.specs.Time.{IsTime};
ghost use Rattle.cal_datetime.specs.DateTime.{IsDateTime, time_at};
ghost use Rattle.cal_format.specs.declared.item.Syntax.{Syntax};
ghost use Rattle.cal_format.specs.declared.format.FormatError.{FormatError};
ghost use Rattle.cal_format.specs.Format.{IsFormatError};
ghost use Rattle.cal_format.specs.Lenient.{IsRead};
ghost use Rattle.cal_format.specs.Moment.{moment_of_date, moment_of_time, moment_of_date_time};
ghost use Rattle.cal_format.specs.Text.{text_of};
ghost use Rattle.cal_format.specs.Reading.{holds_time};
ghost use Rattle.cal_format.specs.Scanning.{AreHeld};

use crate::error::ParseError;
use crate::format::{Format, FormatError};
use crate::lenient_formats::{LenientDateFormat, LenientDateTimeFormat, LenientTimeFormat};
use crate::value_formats::{DateFormat, DateTimeFormat, TimeFormat};
use cal_datetime::PlainDateTime;
use cal_time::{Date, Time};

/// States that a text has at most one error as a format, in either syntax.
pub(crate) fn one_error(text: &str) -> Result<Format, FormatError>
    ensures { (s : Syntax) (e f : FormatError) → IsFormatError s 0 0 text.now e
        → IsFormatError s 0 0 text.now f → e ≡ f }
{
    Format::new(text)
}

/// States that a text is the text of at most one date that the format holds.
pub(crate) fn one_date(format: &DateFormat, text: &[u8]) -> Result<Date, ParseError>
    ensures { (m n : ℕ) → IsDate m → IsDate n → AreHeld (moment_of_date m) format.now
        → AreHeld (moment_of_date n) format.now
        → text.now ≡ text_of format.now (moment_of_date m)
        → text.now ≡ text_of format.now (moment_of_date n)
        → m ≡ n }
{
    format.parse(text)
}

/// States that a text is the text of at most one time of day that the format holds.
pub(crate) fn one_time(format: &TimeFormat, text: &[u8]) -> Result<Time, ParseError>
    ensures { (m n : ℕ) → IsTime m → IsTime n → IsTrue (holds_time format.now m)
        → IsTrue (holds_time format.now n)
        → text.now ≡ text_of format.now (moment_of_time m)
        → text.now ≡ text_of format.now (moment_of_time n)
        → m ≡ n }
{
    format.parse(text)
}

/// States that a text is the text of at most one date-time that the format holds.
pub(crate) fn one_date_time(
    format: &DateTimeFormat,
    text: &[u8],
) -> Result<PlainDateTime, ParseError>
    ensures { (y z : ℤ) → IsDateTime y → IsDateTime z → AreHeld (moment_of_date_time y) format.now
        → AreHeld (moment_of_date_time z) format.now
        → IsTrue (holds_time format.now (time_at y)) → IsTrue (holds_time format.now (time_at z))
        → text.now ≡ text_of format.now (moment_of_date_time y)
        → text.now ≡ text_of format.now (moment_of_date_time z)
        → y ≡ z }
{
    format.parse(text)
}

/// States that a text is a variant of the text of at most one date that a lenient format holds.
pub(crate) fn one_lenient_date(format: &LenientDateFormat, text: &[u8]) -> Result<Date, ParseError>
    ensures { (m n : ℕ) → IsDate m → IsDate n → IsRead format.now (moment_of_date m) text.now
        → IsRead format.now (moment_of_date n) text.now → m ≡ n }
{
    format.parse(text)
}

/// States that a text is a variant of the text of at most one time of day that a lenient format
/// holds.
pub(crate) fn one_lenient_time(format: &LenientTimeFormat, text: &[u8]) -> Result<Time, ParseError>
    ensures { (m n : ℕ) → IsTime m → IsTime n → IsRead format.now (moment_of_time m) text.now
        → IsRead format.now (moment_of_time n) text.now → m ≡ n }
{
    format.parse(text)
}

/// States that a text is a variant of the text of at most one date-time that a lenient format
/// holds.
pub(crate) fn one_lenient_date_time(
    format: &LenientDateTimeFormat,
    text: &[u8],
) -> Result<PlainDateTime, ParseError>
    ensures { (y z : ℤ) → IsDateTime y → IsDateTime z
        → IsRead format.now (moment_of_date_time y) text.now
        → IsRead format.now (moment_of_date_time z) text.now → y ≡ z }
{
    format.parse(text)
}
