//! Formats whose strings start with two digits.
ghost use Rattle.std.specs.Prelude.{◌≡◌, ◌<◌, ◌≤◌, ℕ, ℤ, List, Some, drop, false, length, true};
ghost use Rattle.cal_format.specs.Form.{HasForm, ItemShape};
ghost use Rattle.cal_format.specs.Moment.{width};
ghost use Rattle.cal_text.specs.Shape.{Shape, unmatched_bytes};
ghost use Rattle.cal_time.specs.declared.error.ComponentRange.{ComponentRange};
ghost use Rattle.cal_text.specs.declared.any.DateOrMoment.{DateOrMoment};
ghost use Rattle.caldate_lines.specs.declared.no_answer.NoAnswer.{NoAnswer};
ghost use Rattle.caldate_answers.specs.FormatErrors.{IsFormatError};
ghost use Rattle.caldate_answers.specs.Readers.{IsFormatText, IsFoundBy, IsTextBy, IsUnread, IsUnreadBy, has_form};
ghost use Rattle.caldate_answers.specs.Scans.{StartWithDigits, StartsWithDigits, starts_with_digits};
ghost use Rattle.caldate_answers.specs.declared.reading.reader.Assumptions.{Assumptions};

use crate::reading::reader::Reader;
use crate::reading::value_format::ValueFormat;
use crate::request::Filter;
use crate::scan::{byte_at, is_digit};
use cal_format::{Component, Format, Item, Padding};

/// Returns the first place from `from` on with two digits, or a place past the last byte.
#[inline(always)]
pub fn digits_place(line: &[u8], from: usize) -> usize
    ensures from { from ≤ result }
    ensures none { (j : ℕ) → from ≤ j → j < result
        → starts_with_digits (drop j line.now) ≡ false }
{
    let mut place = from;
    while place < line.len() && !starts_with_digits(&line[place..]) {
        place += 1;
    }
    place
}

/// Returns whether the bytes start with two digits.
#[inline(always)]
fn starts_with_digits(bytes: &[u8]) -> bool
    ensures { result ≡ starts_with_digits bytes.now }
{
    is_digit(byte_at(bytes, 0)) && is_digit(byte_at(bytes, 1))
}

/// Returns `true` only if each string starts with two digits.
pub fn start_with_digits(filter: &Filter<'_>) -> bool
    ensures { result ≡ true → StartWithDigits filter.now }
{
    are_digits(filter.readers.as_slice())
}

/// Returns `true` only if each string in one of these forms starts with two digits.
fn are_digits(readers: &[Reader]) -> bool
    ensures found { result ≡ true → (assumptions : Assumptions) (bytes : List ℕ) (found : DateOrMoment)
        → 0 < length bytes → IsFoundBy assumptions readers.now bytes found
        → StartsWithDigits bytes }
    ensures rejected { result ≡ true → (assumptions : Assumptions) (bytes : List ℕ) (why : NoAnswer)
        → 0 < length bytes → IsUnread assumptions readers.now bytes why → has_form why ≡ true
        → StartsWithDigits bytes }
{
    match readers {
        [] => true,
        [first, others @ ..] => has_digits_first(first) && are_digits(others),
    }
}

/// Returns `true` only if each string in the form starts with two digits.
fn has_digits_first(reader: &Reader) -> bool
    ensures text { result ≡ true → (assumptions : Assumptions) (bytes : List ℕ) (found : DateOrMoment)
        → IsTextBy assumptions reader.now bytes found → StartsWithDigits bytes }
    ensures rejected { result ≡ true → (assumptions : Assumptions) (bytes : List ℕ) (why : NoAnswer)
        → IsUnreadBy assumptions reader.now bytes why → has_form why ≡ true
        → StartsWithDigits bytes }
{
    match reader {
        Reader::Format(format) => is_number_first(format),
        _ => false,
    }
}

/// Returns `true` only if each string in the format starts with two digits.
fn is_number_first(format: &ValueFormat) -> bool
    ensures text { result ≡ true → (offset : ℤ) (bytes : List ℕ) (found : DateOrMoment)
        → IsFormatText offset format.now bytes found → StartsWithDigits bytes }
    ensures error { result ≡ true → (bytes : List ℕ) (why : ComponentRange)
        → IsFormatError format.now bytes why → StartsWithDigits bytes }
{
    match format {
        ValueFormat::Dates(format) => begins_with_zeros(format.as_format()),
        ValueFormat::Moments(format) => begins_with_zeros(format.as_format()),
        ValueFormat::DateTimes(format) => begins_with_zeros(format.as_format()),
        ValueFormat::Lenient(_) | ValueFormat::InLanguage(_) => false,
    }
}

/// Returns `true` only if the format begins with a number padded with zeros.
fn begins_with_zeros(format: &Format) -> bool
    ensures { result ≡ true → (bytes : List ℕ) → HasForm format.now bytes → StartsWithDigits bytes }
{
    match format.items() {
        [first, ..] => is_padded_with_zeros(first),
        [] => false,
    }
}

/// Returns `true` only if the item is a number of at least two digits, padded with zeros.
fn is_padded_with_zeros(item: &Item) -> bool
    ensures { result ≡ true → (others : Shape) (bytes : List ℕ)
        → unmatched_bytes (ItemShape item.now others) bytes ≡ 0 → StartsWithDigits bytes }
{
    match item {
        Item::Number(component, padding) => is_zero(*padding) && is_wide(*component),
        _ => false,
    }
}

/// Returns `true` only if the width of the component is at least two.
fn is_wide(component: Component) -> bool
    ensures { result ≡ true → 2 ≤ width component }
{
    match component {
        Component::Weekday
        | Component::DaysFromMonday
        | Component::DaysFromSunday
        | Component::SundayWeekday
        | Component::Period
        | Component::Subsecond1
        | Component::OffsetSign
        | Component::TimestampSign => false,
        _ => true,
    }
}

fn is_zero(padding: Padding) -> bool
    ensures { result ≡ true → padding ≡ Padding.Zero }
{
    match padding {
        Padding::Zero => true,
        Padding::Space | Padding::None => false,
    }
}
