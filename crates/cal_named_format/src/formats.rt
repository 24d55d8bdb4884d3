//! Values in formats with the names of a table.
ghost use Rattle.cal_format.specs.Moment.{moment_of_date, moment_of_time, moment_of_date_time, moment_of_offset_date_time};
ghost use Rattle.cal_named_format.specs.Ambiguity.{ReadBack};
ghost use Rattle.cal_named_format.specs.Values.{HoldsDate, HoldsTime, HoldsDateTime, HoldsOffsetDateTime, ParsesIn};

use crate::parsing::parse;
use cal_datetime::{OffsetDateTime, PlainDateTime};
use cal_format::{DateFormat, DateTimeFormat, OffsetDateTimeFormat, ParseError, TimeFormat};
use cal_names::Names;
use cal_time::{Date, Time};

/// Parses a date with these names in place of the English names. Returns the date that the format
/// holds and prints as this string. The format holds a date if each year that it shows is from 0 to
/// 9999. Bytes are compared as they are, and the longest name wins.
///
/// Returns `UnexpectedByte` or `UnexpectedEnd` with the position at which the string stops matching
/// the form of the format, `OutOfRange` with the first component out of range, or `Contradiction`
/// with the first component that isn't the component of the date. For example, `%-d %B %Y` in
/// French rejects `29 fevrier 2024` with `UnexpectedByte(4)`.
pub fn parse_date(format: &DateFormat, names: &Names, text: &[u8]) -> Result<Date, ParseError>
    requires { ReadBack names.now format.now }
    ensures { ParsesIn (HoldsDate format.now) moment_of_date
        names.now format.now text.now result }
{
    match parse(format.as_format(), names, text) {
        Ok(moment) => Ok(moment.date()),
        Err(error) => Err(error),
    }
}

/// Parses a time of day like [`parse_date`]. Returns the time that the format holds and prints as
/// this string. The format holds a time if each part that it doesn't show is 0.
///
/// Returns an error like [`parse_date`]. For example, `%I:%M %p` in Japanese rejects `07:30 pm` with
/// `UnexpectedByte(6)`, as `午後` is the name of the half of the day.
pub fn parse_time(format: &TimeFormat, names: &Names, text: &[u8]) -> Result<Time, ParseError>
    requires { ReadBack names.now format.now }
    ensures { ParsesIn (HoldsTime format.now) moment_of_time
        names.now format.now text.now result }
{
    match parse(format.as_format(), names, text) {
        Ok(moment) => Ok(moment.time()),
        Err(error) => Err(error),
    }
}

/// Parses a date-time like [`parse_date`]. Returns the date-time that the format holds and prints as
/// this string. The format holds a date-time if it holds the date and the time of day.
///
/// Returns an error like [`parse_date`]. For example, `%-d %B %Y %R` in French rejects
/// `29 février 2024 24:00` with `OutOfRange` of the hour.
pub fn parse_date_time(
    format: &DateTimeFormat,
    names: &Names,
    text: &[u8],
) -> Result<PlainDateTime, ParseError>
    requires { ReadBack names.now format.now }
    ensures { ParsesIn (HoldsDateTime format.now) moment_of_date_time
        names.now format.now text.now result }
{
    match parse(format.as_format(), names, text) {
        Ok(moment) => Ok(moment.date_time()),
        Err(error) => Err(error),
    }
}

/// Parses a date-time at an offset like [`parse_date`]. Returns the date-time that the format holds
/// and prints as this string. The format holds a date-time if it holds the date and the time of day,
/// and each part of the offset that it doesn't determine is 0.
///
/// Returns an error like [`parse_date`]. For example, `%-d %B %Y %R %z` in French rejects
/// `30 février 2024 12:00 +0000` with `OutOfRange` of the day.
pub fn parse_offset_date_time(
    format: &OffsetDateTimeFormat,
    names: &Names,
    text: &[u8],
) -> Result<OffsetDateTime, ParseError>
    requires { ReadBack names.now format.now }
    ensures { ParsesIn (HoldsOffsetDateTime format.now) moment_of_offset_date_time
        names.now format.now text.now result }
{
    match parse(format.as_format(), names, text) {
        Ok(moment) => Ok(moment.offset_date_time()),
        Err(error) => Err(error),
    }
}
