//! The parameters of a line of a recurrence set.
ghost use Rattle.std.specs.Prelude.{◌≡◌, Some, None, option_map, if◌then◌else◌};
ghost use Rattle.std.specs.List.{list_all};
ghost use Rattle.cal_recurrence.specs.SetText.{all_allow, all_ignored, all_name, allows, are_periods, first_zone, is_date, is_ignored, is_known, is_local, is_name_byte, is_token, is_token_byte, is_zone_name, names_zone, parameters_of, read_part, zone_in};

use crate::date_or_time::DateOrTime;
use crate::words::{cut, cut_outside, is_alike, unquoted};

/// Returns `true` if the value is a date.
pub(crate) fn is_date(value: &DateOrTime) -> bool
    ensures { result ≡ is_date value.now }
{
    matches!(value, DateOrTime::Date(_))
}

/// Returns `true` if the value is a reading without `Z`.
fn is_local(value: &DateOrTime) -> bool
    ensures { result ≡ is_local value.now }
{
    matches!(value, DateOrTime::Local(_))
}

/// Returns `true` if the byte can be in the name of a zone.
fn is_name_byte(byte: u8) -> bool
    ensures { result ≡ is_name_byte byte }
{
    !matches!(byte, b'\n' | b'"' | b':' | b';')
}

/// Returns `true` if the bytes are a name of a zone.
fn is_zone_name(name: &[u8]) -> bool
    ensures { result ≡ is_zone_name name.now }
{
    name.iter().all(|byte| is_name_byte(*byte))
}

/// Returns `true` if the byte can be in the name of a parameter.
fn is_token_byte(byte: u8) -> bool
    ensures { result ≡ is_token_byte byte }
{
    byte.is_ascii_alphanumeric() || byte == b'-'
}

/// Returns the name of a zone that the parameter gives, or `None` if it gives none.
fn zone_in(parameter: &[u8]) -> Option<&[u8]>
    ensures { option_map (λ name. name.now) result
        ≡ if names_zone parameter.now then Some (zone_in parameter.now) else None }
{
    let (name, value) = cut(parameter, b'=');
    if is_alike(name, b"TZID") {
        Some(unquoted(value.unwrap_or(b"".as_slice())))
    } else {
        None
    }
}

/// Returns `true` if each byte can be in the name of a parameter.
fn has_token_bytes(name: &[u8]) -> bool
    ensures { result ≡ list_all is_token_byte name.now }
{
    name.iter().all(|byte| is_token_byte(*byte))
}

/// Returns `true` if the bytes are a name of a parameter.
fn is_token(name: &[u8]) -> bool
    ensures { result ≡ is_token name.now }
{
    !name.is_empty() && has_token_bytes(name)
}

/// Returns `true` if readers know a parameter of this name.
fn is_known(name: &[u8]) -> bool
    ensures { result ≡ is_known name.now }
{
    is_alike(name, b"VALUE") || is_alike(name, b"TZID")
}

/// Returns `true` if readers ignore the parameter: it has a value, and a name that they don't know.
fn is_ignored(parameter: &[u8]) -> bool
    ensures { result ≡ is_ignored parameter.now }
{
    let name = cut(parameter, b'=').0;
    parameter.contains(&b'=') && is_token(name) && !is_known(name)
}

/// Returns `true` if readers ignore each parameter.
pub(crate) fn all_ignored(head: &[u8]) -> bool
    ensures { result ≡ all_ignored (parameters_of head.now) }
{
    match cut_outside(head, b';').1 {
        Some(rest) => is_ignored(cut_outside(rest, b';').0) && all_ignored(rest),
        None => true,
    }
}

/// Returns `true` if a parameter says that the values are periods. The parameters come after the name
/// of a line, or after another parameter.
pub(crate) fn are_periods(head: &[u8]) -> bool
    ensures { result ≡ are_periods (parameters_of head.now) }
{
    match cut_outside(head, b';').1 {
        Some(rest) => { is_alike(cut_outside(rest, b';').0, b"VALUE=PERIOD") || are_periods(rest) }
        None => false,
    }
}

/// Returns the start of a period, before `/`, or another word as it is. Returns `None` for a period
/// without `/`.
pub(crate) fn read_part<'a>(head: &[u8], word: &'a [u8]) -> Option<&'a [u8]>
    ensures { option_map (λ part. part.now) result
        ≡ read_part (parameters_of head.now) word.now }
{
    if !are_periods(head) {
        return Some(word);
    }
    if word.contains(&b'/') {
        Some(cut(word, b'/').0)
    } else {
        None
    }
}

/// Returns `true` if the parameter allows the value.
fn allows(parameter: &[u8], value: &DateOrTime) -> bool
    ensures { result ≡ allows parameter.now value.now }
{
    if is_alike(parameter, b"VALUE=DATE") {
        is_date(value)
    } else if is_alike(parameter, b"VALUE=DATE-TIME") || is_alike(parameter, b"VALUE=PERIOD") {
        !is_date(value)
    } else {
        match zone_in(parameter) {
            Some(name) => is_zone_name(name) && is_local(value),
            None => is_ignored(parameter),
        }
    }
}

/// Returns `true` if each parameter allows the value. The parameters come after the name of a line,
/// or after another parameter.
pub(crate) fn all_allow(head: &[u8], value: &DateOrTime) -> bool
    ensures { result ≡ all_allow (parameters_of head.now) value.now }
{
    match cut_outside(head, b';').1 {
        Some(rest) => allows(cut_outside(rest, b';').0, value) && all_allow(rest, value),
        None => true,
    }
}

/// Returns the first name of a zone among the parameters, or `None` without one.
pub(crate) fn first_zone(head: &[u8]) -> Option<&[u8]>
    ensures { option_map (λ name. name.now) result ≡ first_zone (parameters_of head.now) }
{
    let rest = cut_outside(head, b';').1?;
    match zone_in(cut_outside(rest, b';').0) {
        Some(name) => Some(name),
        None => first_zone(rest),
    }
}

/// Returns `true` if each name of a zone among the parameters is this one.
pub(crate) fn all_name(head: &[u8], zone: &[u8]) -> bool
    ensures { result ≡ all_name (parameters_of head.now) zone.now }
{
    let Some(rest) = cut_outside(head, b';').1 else {
        return true;
    };
    match zone_in(cut_outside(rest, b';').0) {
        Some(name) => name == zone && all_name(rest, zone),
        None => all_name(rest, zone),
    }
}
