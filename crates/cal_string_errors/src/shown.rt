//! Strings of ISO 8601 and RFC 3339.
ghost use Rattle.std.specs.Prelude.{◌≡◌, IfSome, None, Some};
ghost use Rattle.cal_errors.specs.Components.{sentence_in};
ghost use Rattle.cal_errors.specs.declared.components.Components.{Components};
ghost use Rattle.cal_text.specs.declared.date_numbers.DateNumbers.{DateNumbers};
ghost use Rattle.cal_text.specs.declared.offset_date_time.numbers.OffsetDateTimeNumbers.{OffsetDateTimeNumbers};
ghost use Rattle.cal_text.specs.declared.plain.numbers.PlainNumbers.{PlainNumbers};
ghost use Rattle.cal_text.specs.declared.time.numbers.TimeNumbers.{TimeNumbers};
ghost use Rattle.cal_string_errors.specs.Shown.{IsStringSentence, Shows, ShowsDate, ShowsMoment, ShowsPlain, ShowsTime, component_text, narrow_bounds};

use crate::parts::{components, midnight, no_date, rfc3339_components};
use cal_errors::{Components, Sentence, component_sentence, range_sentence};
use cal_text::{
    DateNumbers, OffsetDateTimeNumbers, OffsetNumbers, PlainNumbers, TimeNumbers, date, offset,
    offset_date_time, plain, rfc3339, time,
};
use cal_time::error::Component;

/// Returns the sentence of a component of a string that parsing rejected: a date, a time of day, an
/// offset or a date-time of ISO 8601, or a moment of RFC 3339. Returns `None` for other strings, and if
/// the component isn't out of range. The day of `2023-02-29` is `day 29 is out of range 1 to 28
/// (February 2023)`.
pub fn string_sentence(component: Component, text: &[u8]) -> Option<Sentence>
    ensures { IsStringSentence component text.now result }
{
    match shown_components(text) {
        Some(components) => component_text(component, &components),
        None => None,
    }
}

/// Returns the sentence of a component, by the range of the type or by the range of RFC 3339.
fn component_text(component: Component, components: &Components) -> Option<Sentence>
    ensures { result ≡ component_text component components.now }
{
    match component_sentence(component, components) {
        Some(text) => Some(text),
        None => narrow_sentence(component, components),
    }
}

/// Returns the sentence of the hour of an offset that RFC 3339 doesn't have.
fn narrow_sentence(component: Component, components: &Components) -> Option<Sentence>
    ensures { result ≡ sentence_in component (narrow_bounds component components.now) }
{
    match component {
        Component::OffsetHour => range_sentence(component, components.offset_hour, -23, 23),
        _ => None,
    }
}

/// Returns the components that a string shows, or `None` for a string without one of the forms.
fn shown_components(text: &[u8]) -> Option<Components>
    ensures value { IfSome result (Shows text.now) }
    ensures none { result ≡ None → (c : Components) → ¬ Shows text.now c }
{
    if let Some(date) = shown_date(text) {
        return Some(components(date, midnight(), OffsetNumbers::UTC));
    }
    if let Some(time) = shown_time(text) {
        return Some(components(no_date(), time, OffsetNumbers::UTC));
    }
    if let Some(offset) = offset::parse_numbers(text) {
        return Some(components(no_date(), midnight(), offset));
    }
    if let Some(plain) = shown_plain(text) {
        return Some(components(plain.date, plain.time, OffsetNumbers::UTC));
    }
    if let Some(moment) = shown_moment(text) {
        return Some(components(moment.local.date, moment.local.time, moment.offset));
    }
    match rfc3339::parse_numbers(text) {
        Some(numbers) => Some(rfc3339_components(numbers)),
        None => None,
    }
}

/// Returns the numbers of a date.
fn shown_date(text: &[u8]) -> Option<DateNumbers>
    ensures value { IfSome result (ShowsDate text.now) }
    ensures none { result ≡ None → (d : DateNumbers) → ¬ ShowsDate text.now d }
{
    match date::parse_numbers(text) {
        Some(numbers) => Some(numbers),
        None => cal_iso::date::parse_numbers(text),
    }
}

/// Returns the numbers of a time of day.
fn shown_time(text: &[u8]) -> Option<TimeNumbers>
    ensures value { IfSome result (ShowsTime text.now) }
    ensures none { result ≡ None → (t : TimeNumbers) → ¬ ShowsTime text.now t }
{
    match time::parse_numbers(text) {
        Some(numbers) => Some(numbers),
        None => cal_iso::time::parse_numbers(text),
    }
}

/// Returns the numbers of a local date-time.
fn shown_plain(text: &[u8]) -> Option<PlainNumbers>
    ensures value { IfSome result (ShowsPlain text.now) }
    ensures none { result ≡ None → (p : PlainNumbers) → ¬ ShowsPlain text.now p }
{
    match plain::parse_numbers(text) {
        Some(numbers) => Some(numbers),
        None => cal_iso::plain::parse_numbers(text),
    }
}

/// Returns the numbers of a date-time at an offset.
fn shown_moment(text: &[u8]) -> Option<OffsetDateTimeNumbers>
    ensures value { IfSome result (ShowsMoment text.now) }
    ensures none { result ≡ None → (m : OffsetDateTimeNumbers) → ¬ ShowsMoment text.now m }
{
    match offset_date_time::parse_numbers(text) {
        Some(numbers) => Some(numbers),
        None => cal_iso::offset_date_time::parse_numbers(text),
    }
}
