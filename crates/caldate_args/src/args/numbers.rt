//! Forms of numbers. A scan takes only numbers of a likely length.

use crate::args::options::is_iso_moment;
use cal_format::{Component, Format, Item};
use caldate_answers::reading::reader::Reader;
use caldate_answers::reading::spelling::Spelling;
use caldate_answers::reading::{DateOrder, Reading};
use caldate_answers::request::{DigitCounts, UnixUnit};

/// Returns the lengths of numbers that a scan takes for Unix times. `None` if no form is a Unix time in
/// digits or ISO 8601, or another form can be a number. With ISO 8601, a number such as `1048300`
/// isn't taken for a date either.
pub fn counts_of(scans: bool, readers: &[Reader]) -> Option<DigitCounts> {
    if !scans || readers.iter().any(|reader| is_other_number(reader)) {
        return None;
    }
    let counts = DigitCounts {
        seconds: readers.iter().any(|reader| is_seconds(reader)),
        milliseconds: has_unit(readers, 3),
        microseconds: has_unit(readers, 6),
        nanoseconds: has_unit(readers, 9),
    };
    let any = counts.seconds || counts.milliseconds || counts.microseconds || counts.nanoseconds;
    if any || readers.iter().any(|reader| is_iso_moment(reader)) {
        Some(counts)
    } else {
        None
    }
}

/// Returns whether a form is a Unix time with this number of digits past the second.
fn has_unit(readers: &[Reader], digits: u8) -> bool {
    readers.iter().any(|reader| digits_of(reader) == digits)
}

/// Returns how many digits past the second a Unix time in the form has, or 0 for any other form.
fn digits_of(reader: &Reader) -> u8 {
    match reader {
        Reader::Named(Reading::Unix(UnixUnit::Milliseconds)) => 3,
        Reader::Named(Reading::Unix(UnixUnit::Microseconds)) => 6,
        Reader::Named(Reading::Unix(UnixUnit::Nanoseconds)) => 9,
        _ => 0,
    }
}

/// Returns whether the form is a Unix time in seconds.
fn is_seconds(reader: &Reader) -> bool {
    match reader {
        Reader::Spelled(Spelling::Seconds) => true,
        Reader::Format(format) => is_timestamp(format.as_format()),
        _ => false,
    }
}

/// Returns whether the format has the seconds of a Unix time.
fn is_timestamp(format: &Format) -> bool {
    format.items().iter().any(|item| is_timestamp_item(item))
}

fn is_timestamp_item(item: &Item) -> bool {
    match item {
        Item::Number(Component::Timestamp, _) => true,
        _ => false,
    }
}

/// Returns whether the form has numbers that aren't Unix times, such as `20240229`.
fn is_other_number(reader: &Reader) -> bool {
    match reader {
        Reader::Named(Reading::Date(DateOrder::Basic)) => true,
        Reader::Format(format) => {
            has_digits_only(format.as_format()) && !is_timestamp(format.as_format())
        }
        Reader::Yearless(_) => true,
        _ => false,
    }
}

/// Returns whether the format has only numbers and points.
fn has_digits_only(format: &Format) -> bool {
    format.items().iter().all(|item| is_digits(item))
}

fn is_digits(item: &Item) -> bool {
    match item {
        Item::Number(_, _) | Item::Literal(b'.') => true,
        _ => false,
    }
}
