//! Answers in one form each.
// A function zeroes all its strings when it is called, so each form has a function of its own.
ghost use Rattle.std.specs.Prelude.{◌≡◌, ◌+◌, ◌≤◌, ◌++◌, ℕ, List, length, true, false};
ghost use Rattle.std.specs.Fmt.{signed_decimal};
ghost use Rattle.cal_datetime.specs.OffsetDateTime.{instant, unix_nanoseconds};
ghost use Rattle.cal_text.specs.AnyForm.{date_text};
ghost use Rattle.cal_text.specs.DateForms.{ordinal_text, week_text};
ghost use Rattle.cal_text.specs.JulianForm.{julian_text};
ghost use Rattle.cal_text.specs.UnixText.{unix_text};
ghost use Rattle.cal_time.specs.DateText.{text};
ghost use Rattle.cal_text.specs.declared.any.MomentForm.TheVariants.{Rfc3339};
ghost use Rattle.caldate_lines.specs.Room.{HasRoom, longest_answer};
ghost use Rattle.caldate_answers.specs.Forms.{IsInForm, month_text, quarter_text, units_in};
ghost use Rattle.caldate_answers.specs.Appends.{AppendsSome};
ghost use Rattle.caldate_answers.specs.declared.request.Form.TheVariants.{Basic, Moment};

use crate::answer::forms::{basic_text, month_text, quarter_text, unix_text};
use crate::request::UnixUnit;
use cal_datetime::OffsetDateTime;
use cal_text::date::{CalendarText, OrdinalText, WeekText};
use cal_text::julian_day::JulianText;
use cal_text::{DateForm, rfc3339, unix};
use cal_time::{Date, ShortText};
use caldate_lines::output::buffer::Buffer;

/// Appends a date in one of its four forms.
pub fn push_date(buffer: &mut Buffer, form: DateForm, date: Date)
    requires { HasRoom 38 buffer.old }
    ensures text { buffer.new ≡ buffer.old ++ date_text form date }
    ensures short { length buffer.new ≤ length buffer.old + 38 }
{
    match form {
        DateForm::Calendar => push_calendar(buffer, date),
        DateForm::Ordinal => push_ordinal(buffer, date),
        DateForm::Week => push_week(buffer, date),
        DateForm::JulianDay => push_julian(buffer, date),
    }
}

#[inline(never)]
fn push_calendar(buffer: &mut Buffer, date: Date)
    requires { HasRoom 38 buffer.old }
    ensures text { buffer.new ≡ buffer.old ++ text date }
    ensures short { length buffer.new ≤ length buffer.old + 38 }
{
    buffer.push(CalendarText(date).text().as_bytes());
}

#[inline(never)]
fn push_ordinal(buffer: &mut Buffer, date: Date)
    requires { HasRoom 38 buffer.old }
    ensures text { buffer.new ≡ buffer.old ++ ordinal_text date }
    ensures short { length buffer.new ≤ length buffer.old + 38 }
{
    buffer.push(OrdinalText(date).text().as_bytes());
}

#[inline(never)]
fn push_week(buffer: &mut Buffer, date: Date)
    requires { HasRoom 38 buffer.old }
    ensures text { buffer.new ≡ buffer.old ++ week_text date }
    ensures short { length buffer.new ≤ length buffer.old + 38 }
{
    buffer.push(WeekText(date).text().as_bytes());
}

#[inline(never)]
fn push_julian(buffer: &mut Buffer, date: Date)
    requires { HasRoom 38 buffer.old }
    ensures text { buffer.new ≡ buffer.old ++ julian_text date }
    ensures short { length buffer.new ≤ length buffer.old + 38 }
{
    buffer.push(JulianText(date).text().as_bytes());
}

/// Appends a moment in RFC 3339, or nothing. Returns whether it has such a string.
#[inline(never)]
pub fn push_rfc3339(buffer: &mut Buffer, moment: OffsetDateTime) -> bool
    requires { HasRoom longest_answer buffer.old }
    ensures has { result ≡ true
        → AppendsSome (IsInForm (Moment Rfc3339) moment) buffer.old buffer.new }
    ensures none { result ≡ false → (buffer.new ≡ buffer.old)
        × ((words : List ℕ) → ¬ IsInForm (Moment Rfc3339) moment words) }
    ensures short { length buffer.new ≤ length buffer.old + longest_answer }
{
    match rfc3339::Text::new(moment) {
        Some(text) => {
            buffer.push(text.text().as_bytes());
            true
        }
        None => false,
    }
}

/// Appends a moment as a Unix time after `@`.
#[inline(never)]
pub fn push_unix(buffer: &mut Buffer, moment: OffsetDateTime)
    requires { HasRoom 38 buffer.old }
    ensures text { buffer.new ≡ buffer.old ++ unix_text (unix_nanoseconds (instant moment)) }
    ensures short { length buffer.new ≤ length buffer.old + 38 }
{
    buffer.push(unix::Text::new(moment).text().as_bytes());
}

/// Appends a moment as a Unix time in whole units.
#[inline(never)]
pub fn push_whole_unix(buffer: &mut Buffer, unit: UnixUnit, moment: OffsetDateTime)
    requires { HasRoom 40 buffer.old }
    ensures text { buffer.new
        ≡ buffer.old ++ signed_decimal (units_in unit (unix_nanoseconds (instant moment))) }
    ensures short { length buffer.new ≤ length buffer.old + 40 }
{
    buffer.push(unix_text(unit, moment).as_bytes());
}

/// Appends the month of a date.
#[inline(never)]
pub fn push_month(buffer: &mut Buffer, date: Date)
    requires { HasRoom 38 buffer.old }
    ensures text { buffer.new ≡ buffer.old ++ month_text date }
    ensures short { length buffer.new ≤ length buffer.old + 38 }
{
    buffer.push(month_text(date).as_bytes());
}

/// Appends the quarter of a date.
#[inline(never)]
pub fn push_quarter(buffer: &mut Buffer, date: Date)
    requires { HasRoom 38 buffer.old }
    ensures text { buffer.new ≡ buffer.old ++ quarter_text date }
    ensures short { length buffer.new ≤ length buffer.old + 38 }
{
    buffer.push(quarter_text(date).as_bytes());
}

/// Appends the date of a moment in the basic format, or nothing. Returns whether it has such a
/// string.
#[inline(never)]
pub fn push_basic(buffer: &mut Buffer, moment: OffsetDateTime) -> bool
    requires { HasRoom longest_answer buffer.old }
    ensures has { result ≡ true → AppendsSome (IsInForm Basic moment) buffer.old buffer.new }
    ensures none { result ≡ false → (buffer.new ≡ buffer.old)
        × ((words : List ℕ) → ¬ IsInForm Basic moment words) }
    ensures short { length buffer.new ≤ length buffer.old + longest_answer }
{
    match basic_text(moment.date()) {
        Some(text) => {
            buffer.push(text.as_bytes());
            true
        }
        None => false,
    }
}

/// Appends a number in decimal.
#[tactic(auto, using(cal_time::proofs::TextLengths::text_lengths))]
pub fn push_signed(buffer: &mut Buffer, number: i64)
    requires { HasRoom 40 buffer.old }
    ensures text { buffer.new ≡ buffer.old ++ signed_decimal number }
    ensures short { length buffer.new ≤ length buffer.old + 40 }
{
    let mut text = ShortText::new();
    text.push_i128(i128::from(number));
    buffer.push(text.as_bytes());
}
